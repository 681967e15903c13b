//! A layer in a box, as a program that uses the library puts it there.
ghost use Rattle.std.specs.Prelude.{◌≡◌, IfOk, Some};

use crate::layer::SpanCounter;
use span_boxed::{BoxedLayer, DynLayer};
use span_core::LevelFilter;
use span_layers::{Layer, Observer};
use span_registry::Registry;
use span_stacks::LayerExt;
use std::alloc::{AllocError, Global};

/// The hint of a layer under a level, in a box: that level.
pub fn hint_boxed(alloc: Global, level: LevelFilter) -> Result<Option<LevelFilter>, AllocError>
    ensures { IfOk result (λ hint. hint ≡ Some level) }
{
    let inside = Observer::new(SpanCounter::new()).with_filter(level);
    let object: Box<dyn DynLayer + Send> = Box::new(alloc, inside)?;
    let layer = BoxedLayer::new(object);
    Ok(Layer::<Registry>::max_level_hint(&layer))
}
