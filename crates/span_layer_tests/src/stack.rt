//! Stacks of any layers: how tests ask them, and drive them as a dispatcher does that keeps
//! nothing.
ghost use Rattle.std.specs.Prelude.{IfOk};
ghost use Rattle.span_stacks.specs.Layered.{inner_of, outer_of};

use crate::fixture::{LANE, metadata_of, put};
use span_core::{
    Attributes, Event, Id, Interest, Kind, Level, LevelFilter, Pass, Record, TraceError,
};
use span_layers::Layer;
use span_registry::{LookupSpan, Subscriber, Tag};
use span_stacks::{LayerExt, Layered};
use std::process::Abort;
use std::test::Fail;

/// A text is this one.
pub(crate) fn is_text(rt: &impl Abort, text: &str, wanted: &str) {
    assert!(rt; text == wanted);
}

/// Puts a stack under a layer.
pub(crate) fn put_under<S: Subscriber + Drop, L: Layer<S> + Drop>(
    layer: L,
    stack: S,
) -> Result<Layered<L, S>, TraceError>
    requires layer { L.usable layer }
    requires stack { S.usable stack }
    ensures layer { IfOk result (λ made. L.usable (outer_of made)) }
    ensures stack { IfOk result (λ made. S.usable (inner_of made)) }
{
    match layer.with_subscriber(stack) {
        Ok(made) => Ok(made),
        Err(back) => Err(back.error),
    }
}

/// The hint of a stack.
pub(crate) fn hint_of<S: Subscriber>(stack: &S) -> Option<LevelFilter>
    requires { S.usable stack.now }
{
    stack.max_level_hint()
}

/// The interest of a stack in events of this level, asked with a new pass.
pub(crate) fn interest_in<S: Subscriber>(stack: &S, level: Level) -> Interest
    requires { S.usable stack.now }
{
    stack.register_callsite(&metadata_of(1, level, Kind::EVENT), &mut Pass::new())
}

/// What is answered of an event of some level, each time with a new pass: the interest, whether its
/// metadata are wanted, and whether it is wanted once these were let by; and the hint.
pub(crate) type Shown = (Interest, bool, bool, Option<LevelFilter>);

/// What a stack answers of an event of this level.
pub(crate) fn shown<S: Subscriber>(stack: &S, level: Level) -> Shown
    requires { S.usable stack.now }
{
    let metadata = metadata_of(1, level, Kind::EVENT);
    let event = Event::new(metadata, &[]);
    (
        interest_in(stack, level),
        stack.enabled(LANE, &metadata, &mut Pass::new()),
        stack.event_enabled(LANE, &event, &mut Pass::new()),
        hint_of(stack),
    )
}

/// The same of a stack under this layer, at two levels.
pub(crate) fn shown_at<S: Subscriber + Drop, L: Layer<S> + Drop>(
    stack: S,
    layer: L,
    levels: [Level; 2],
) -> Result<[Shown; 2], TraceError>
    requires layer { L.usable layer }
    requires stack { S.usable stack }
{
    let stack = put(stack, layer)?;
    let [first, second] = levels;
    Ok([shown(&stack, first), shown(&stack, second)])
}

/// Opens a span in a parent, or a root. Fails where a layer vetoes.
pub(crate) fn open<S: Subscriber>(
    stack: &mut S,
    level: Level,
    parent: Option<Id>,
) -> Result<Id, Fail>
    requires { S.usable stack.old }
    ensures { S.usable stack.new }
{
    let metadata = metadata_of(1, level, Kind::SPAN);
    let attributes = match parent {
        Some(id) => Attributes::child_of(id, metadata, &[]),
        None => Attributes::new_root(metadata, &[]),
    };
    let mut pass = Pass::new();
    if !stack.enabled(LANE, &metadata, &mut pass) {
        return Err(Fail::from("a layer vetoes"));
    }
    Ok(stack.new_span(LANE, &attributes, &pass)?)
}

/// Opens a root and enters it.
pub(crate) fn open_and_enter<S: Subscriber>(stack: &mut S, level: Level) -> Result<Id, Fail>
    requires { S.usable stack.old }
    ensures { S.usable stack.new }
{
    let id = open(stack, level, None)?;
    stack.enter(LANE, id)?;
    Ok(id)
}

/// Sends an event of this level where the lane is. True where no layer vetoes.
pub(crate) fn send<S: Subscriber>(stack: &mut S, level: Level) -> bool
    requires { S.usable stack.old }
    ensures { S.usable stack.new }
{
    let event = Event::new(metadata_of(1, level, Kind::EVENT), &[]);
    send_where_wanted(stack, &event)
}

/// Sends an event of this level in a span. True where no layer vetoes.
pub(crate) fn send_in<S: Subscriber>(stack: &mut S, level: Level, span: Id) -> bool
    requires { S.usable stack.old }
    ensures { S.usable stack.new }
{
    let event = Event::new_child_of(span, metadata_of(1, level, Kind::EVENT), &[]);
    send_where_wanted(stack, &event)
}

/// Asks a stack of an event, and sends it where no layer vetoes.
fn send_where_wanted<S: Subscriber>(stack: &mut S, event: &Event<'_>) -> bool
    requires { S.usable stack.old }
    ensures { S.usable stack.new }
{
    let mut pass = Pass::new();
    if !stack.enabled(LANE, &event.metadata(), &mut pass) {
        return false;
    }
    if !stack.event_enabled(LANE, event, &mut pass) {
        return false;
    }
    stack.event(LANE, event, &pass);
    true
}

/// Notifies a stack of the first span, and that the second follows from it, and from itself.
pub(crate) fn notify<S: Subscriber>(stack: &mut S, span: Id, other: Id) -> Result<(), TraceError>
    requires { S.usable stack.old }
    ensures { S.usable stack.new }
{
    stack.enter(LANE, span)?;
    stack.record(LANE, span, &Record::new(&[]));
    stack.record_follows_from(LANE, other, span);
    stack.exit(LANE, span);
    stack.record(LANE, other, &Record::new(&[]));
    stack.record_follows_from(LANE, other, other);
    stack.close_hooks(LANE, span);
    Ok(())
}

/// The number under this tag of a span's extensions.
pub(crate) fn number_at<S: LookupSpan>(stack: &S, tag: Tag<u64>, id: Id) -> Option<u64> {
    let span = stack.span(id)?;
    span.extensions().get(tag).copied()
}
