//! What tests of dispatchers use too: a lane, metadata, and how a stack is put together.
ghost use Rattle.std.specs.Prelude.{◌≡◌, IfOk};
ghost use Rattle.span_core.specs.Metadata.{callsite_of, kind_of, level_of};
ghost use Rattle.span_stacks.specs.Layered.{inner_of, outer_of};

use span_core::{FieldSet, Kind, Lane, Level, Metadata, TraceError};
use span_layers::Layer;
use span_registry::Subscriber;
use span_stacks::{Layered, SubscriberExt};

/// The lane that most tests are in.
pub const LANE: Lane = Lane(0);

/// What a callsite with this number makes.
pub fn metadata_of(callsite: u64, level: Level, kind: Kind) -> Metadata
    ensures callsite { callsite_of result ≡ callsite }
    ensures level { level_of result ≡ level }
    ensures kind { kind_of result ≡ kind }
{
    Metadata::new(callsite, "made", "tests", level, kind, FieldSet::new(&[]))
}

/// Puts a layer on a stack.
pub fn put<S: Subscriber + Drop, L: Layer<S> + Drop>(
    stack: S,
    layer: L,
) -> Result<Layered<L, S>, TraceError>
    requires layer { L.usable layer }
    requires stack { S.usable stack }
    ensures layer { IfOk result (λ made. L.usable (outer_of made)) }
    ensures stack { IfOk result (λ made. S.usable (inner_of made)) }
{
    match stack.with(layer) {
        Ok(made) => Ok(made),
        Err(back) => Err(back.error),
    }
}
