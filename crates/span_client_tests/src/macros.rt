//! Tests of macros in functions over any stack, and of what a layer is then told.
ghost use Rattle.std.specs.Prelude.{⊤};
ghost use Rattle.span_dispatch.specs.Contract.{StaysReady};
ghost use Rattle.span_dispatch.specs.Serve.{stack_of};

use crate::fixture::in_use;
use span_core::{Event, FieldSet, FieldValue, Id, Kind, Lane, Level, Metadata, TraceError};
use span_dispatch::Dispatch;
use span_layers::{Observe, Observer};
use span_macros::{event, example, in_span, metadata, new_span};
use span_registry::{ContextMut, Notice, Registry, Subscriber};
use std::alloc::AllocError;
use std::process::Abort;
use std::test::Fail;

const LANE: Lane = Lane(0);

/// Sends an event with a field of each kind.
fn report<S: Subscriber>(
    dispatch: &mut Dispatch<S>,
    count: u8,
    by: &str,
) -> Result<bool, TraceError>
    requires { S.usable (stack_of dispatch.old) }
    ensures usable { S.usable (stack_of dispatch.new) }
    ensures ready { StaysReady S.Subscriber dispatch.old dispatch.new }
{
    event!(dispatch, LANE; WARN, "done"; count = count, change = -2, ok = true, by = by)
}

/// Opens a span without fields.
fn open<S: Subscriber>(dispatch: &mut Dispatch<S>) -> Result<Option<Id>, TraceError>
    requires { S.usable (stack_of dispatch.old) }
    ensures usable { S.usable (stack_of dispatch.new) }
    ensures ready { StaysReady S.Subscriber dispatch.old dispatch.new }
{
    new_span!(dispatch, LANE; DEBUG, "idle")
}

/// Doubles a number in a span, and sends an event there.
fn double<S: Subscriber>(dispatch: &mut Dispatch<S>, count: u32) -> Result<u32, TraceError>
    requires { S.usable (stack_of dispatch.old) }
    ensures usable { S.usable (stack_of dispatch.new) }
    ensures ready { StaysReady S.Subscriber dispatch.old dispatch.new }
{
    let doubled = in_span!(dispatch, LANE; INFO, "fetch"; count = count => {
        let doubled = count.saturating_mul(2);
        event!(dispatch, LANE; TRACE, "doubled")?;
        doubled
    });
    Ok(doubled)
}

/// Writes down what it is told of.
#[derive(Drop)]
struct Lines {
    text: String,
    failed: bool,
}

impl<S: Subscriber> Observe<S> for Lines {
    ghost observed = { λ x e lane under v y w. ⊤ };

    fn observe(&mut self, notice: Notice<'_, '_>, _ctx: &mut ContextMut<'_, S>) {
        let told = match notice {
            Notice::NewSpan(attrs, _) => told_of(&mut self.text, attrs.metadata(), attrs.values()),
            Notice::Event(event) => told_of(&mut self.text, event.metadata(), event.values()),
            Notice::Enter(_) => self.text.push_str("enter\n"),
            Notice::Exit(_) => self.text.push_str("exit\n"),
            Notice::Close(_) => self.text.push_str("close\n"),
            _ => Ok(()),
        };
        self.failed |= told.is_err();
    }
}

/// Writes a line of metadata and values.
fn told_of(
    text: &mut String,
    metadata: Metadata,
    values: &[(&'static str, FieldValue<'_>)],
) -> Result<(), AllocError> {
    let level = metadata.level();
    let name = metadata.name();
    write!(text, "{level} {name}")?;
    for field in values {
        let key = field.0;
        let value = field.1;
        write!(text, " {key}={value}")?;
    }
    text.push_str("\n")
}

const TOLD: &str = "WARN done count=255 change=-2 ok=true by=me
DEBUG idle
INFO fetch count=21
enter
TRACE doubled
exit
close
";

/// All is written down.
fn hold_what_is_told(rt: &impl Abort, lines: &Lines) {
    assert!(rt; !lines.failed);
    assert!(rt; lines.text.as_str() == TOLD);
}

#[test]
fn a_layer_is_told_of_fields(rt: HostRuntime) -> Result<(), Fail> {
    let lines = Lines {
        text: String::new(rt.alloc()),
        failed: false,
    };
    let mut dispatch = in_use(rt.alloc(), Registry::new(rt.alloc()), Observer::new(lines))?;
    asks_by_each(&rt, &mut dispatch)?;
    hold_what_is_told(&rt, dispatch.stack().outer().observer());
    Ok(())
}

/// Calls each of the three functions.
fn asks_by_each<S: Subscriber>(rt: &impl Abort, dispatch: &mut Dispatch<S>) -> Result<(), Fail>
    requires { S.usable (stack_of dispatch.old) }
{
    assert!(rt; report(dispatch, 255, "me")?);
    assert!(rt; open(dispatch)?.is_some());
    assert!(rt; double(dispatch, 21)? == 42);
    Ok(())
}

/// Metadata that show a callsite of this kind, level and field, named `read`, in this module.
fn shows(rt: &impl Abort, metadata: Metadata, kind: Kind, level: Level, field: &str) {
    assert!(rt; metadata.kind() == kind);
    assert!(rt; metadata.level() == level);
    assert!(rt; metadata.name() == "read");
    assert!(rt; metadata.target() == "span_client_tests::macros");
    assert!(rt; (metadata.fields().len(), metadata.fields().contains(field)) == (1, true));
}

/// The numbers are those that the kit's hasher gives, as worked outside: of the texts `EVENT`,
/// `INFO`, `read`, `span_client_tests::macros` and `bytes`, and of those with one of them changed.
#[test]
fn a_number_is_of_all_that_is_shown(rt: HostRuntime) {
    let bytes = metadata!(EVENT, INFO, "read", bytes);
    shows(&rt, bytes, Kind::EVENT, Level::INFO, "bytes");
    assert!(rt; bytes.callsite() == 4_492_500_319_108_495_632);
    let chars = metadata!(EVENT, INFO, "read", chars);
    shows(&rt, chars, Kind::EVENT, Level::INFO, "chars");
    assert!(rt; chars.callsite() == 12_610_570_673_963_309_602);
    let span = metadata!(SPAN, INFO, "read", bytes);
    shows(&rt, span, Kind::SPAN, Level::INFO, "bytes");
    assert!(rt; span.callsite() == 12_425_540_483_455_296_932);
    let warning = metadata!(EVENT, WARN, "read", bytes);
    shows(&rt, warning, Kind::EVENT, Level::WARN, "bytes");
    assert!(rt; warning.callsite() == 13_698_273_041_315_155_418);
}

/// Calls each example.
fn calls_examples<S: Subscriber>(rt: &impl Abort, dispatch: &mut Dispatch<S>) -> Result<(), Fail>
    requires { S.usable (stack_of dispatch.old) }
{
    assert!(rt; example::report(dispatch, LANE, 1, -2, "me")?);
    assert!(rt; example::rest(dispatch, LANE)?.is_some());
    assert!(rt; example::open_copy(dispatch, LANE, 1, 2)?.is_some());
    assert!(rt; example::copy(dispatch, LANE, 1, 2)?);
    assert!(rt; example::fail(dispatch, LANE, 1, "me")?);
    assert!(rt; example::open_job(dispatch, LANE, 0.5, Some(1))?.is_some());
    assert!(rt; example::end(dispatch, LANE)?);
    Ok(())
}

#[test]
fn examples_run(rt: HostRuntime) -> Result<(), Fail> {
    let alloc = rt.alloc();
    calls_examples(&rt, &mut Dispatch::new(alloc, Registry::new(alloc)))?;
    assert!(rt; example::read_metadata().is_event());
    Ok(())
}

/// Sends an event of a callsite that shows something else under this number.
fn collide<S: Subscriber>(dispatch: &mut Dispatch<S>, number: u64) -> Result<bool, TraceError>
    requires { S.usable (stack_of dispatch.old) }
{
    let fields = FieldSet::new(&[]);
    let other = Metadata::new(number, "other", "app", Level::INFO, Kind::EVENT, fields);
    dispatch.event(LANE, &Event::new(other, &[]))
}

/// The same once the event of that number was sent.
fn reports_and_collides<S: Subscriber>(
    dispatch: &mut Dispatch<S>,
) -> Result<Result<bool, TraceError>, Fail>
    requires { S.usable (stack_of dispatch.old) }
{
    report(dispatch, 1, "me")?;
    let number = metadata!(EVENT, WARN, "done", count, change, ok, by).callsite();
    Ok(collide(dispatch, number))
}

#[test]
fn a_shared_number_is_refused(rt: HostRuntime) -> Result<(), Fail> {
    let alloc = rt.alloc();
    let refused = reports_and_collides(&mut Dispatch::new(alloc, Registry::new(alloc)))?;
    assert!(rt; refused == Err(TraceError::CallsiteMismatch));
    Ok(())
}

/// Texts of values may take what a dispatcher's cache takes from.
#[test]
fn a_text_is_made_where_a_dispatcher_is_at_hand(rt: HostRuntime) -> Result<(), Fail> {
    let dispatch = Dispatch::new(rt.alloc(), Registry::new(rt.alloc()));
    let text = String::from_str(dispatch.alloc(), "made")?;
    assert!(rt; text.as_str() == "made");
    Ok(())
}
