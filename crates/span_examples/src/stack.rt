//! A stack, as a program that uses the library writes it.
ghost use Rattle.std.specs.Prelude.{◌≡◌, IfErr, IfOk, if◌then◌else◌};
ghost use Rattle.span_core.specs.Level.{passes_level};
ghost use Rattle.span_core.specs.Metadata.{level_of};
ghost use Rattle.span_core.specs.Span.{metadata_of};
ghost use Rattle.span_examples.specs.Stacks.{CountsWhatPasses, HasNoRoom, IsNumbered, StartsToCount, level_in};

use crate::layer::SpanCounter;
use span_core::{Attributes, Id, Lane, LevelFilter, Pass, TraceError};
use span_layers::Observer;
use span_registry::{Registry, Subscriber};
use span_stacks::{Filtered, LayerExt, Layered, SubscriberExt, laws};
use std::alloc::Global;

/// A counter of spans under a level, on a registry.
pub type Counted = Layered<Filtered<Observer<SpanCounter>, LevelFilter>, Registry>;

/// Puts a counter under a level on a registry, if there is room for one more filter.
pub fn count_under(registry: Registry, level: LevelFilter) -> Result<Counted, TraceError>
    ensures made { IfOk result (StartsToCount level) }
    ensures refused { IfErr result (HasNoRoom registry) }
{
    let layer = Observer::new(SpanCounter::new()).with_filter(level);
    match registry.with(layer) {
        Ok(stack) => Ok(stack),
        Err(back) => Err(back.error),
    }
}

/// Opens a span. It is counted exactly where the level passes it.
pub fn open_counted(
    stack: &mut Counted,
    lane: Lane,
    attrs: &Attributes<'_>,
) -> Result<Id, TraceError>
    requires numbered { IsNumbered stack.old }
    ensures counted { IfOk result (CountsWhatPasses attrs.now stack.old stack.new) }
    ensures level { level_in stack.new ≡ level_in stack.old }
    ensures numbered { IsNumbered stack.new }
{
    laws::the_pass_is_fresh();
    laws::vetoes_alone_refuse();
    let mut pass = Pass::new();
    stack.enabled(lane, &attrs.metadata(), &mut pass); // It's true: nobody in this stack vetoes.
    stack.new_span(lane, attrs, &pass)
}

/// How many spans a new counter under a level counts when one is opened.
pub fn count_one(
    alloc: Global,
    level: LevelFilter,
    lane: Lane,
    attrs: &Attributes<'_>,
) -> Result<u64, TraceError>
    ensures { IfOk result (λ n. n
        ≡ (if passes_level level (level_of (metadata_of attrs.now)) then 1 else 0)) }
{
    let mut stack = count_under(Registry::new(alloc), level)?;
    open_counted(&mut stack, lane, attrs)?;
    Ok(stack.outer().layer().observer().opened())
}
