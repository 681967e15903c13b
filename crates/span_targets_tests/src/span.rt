//! Tests of filters that let more by within spans.

use crate::text::doubled;
use span_core::{Attributes, FieldSet, Id, Kind, Lane, Level, LevelFilter, Metadata, Pass};
use span_filters::Filter;
use span_registry::{Context, Registry, Subscriber};
use span_targets::{EnvFilter, Fault, ParseError, Targets, WrongDirective};
use std::alloc::Global;
use std::process::Abort;
use std::test::Fail;

/// The lane on which spans are entered.
pub(crate) const LANE: Lane = Lane(0);

/// The metadata of an event of this level.
pub(crate) fn event_of(level: Level) -> Metadata {
    Metadata::new(1, "event", "web", level, Kind::EVENT, FieldSet::new(&[]))
}

/// The metadata of a span of level info.
pub(crate) fn span_of(name: &'static str, target: &'static str) -> Metadata {
    Metadata::new(2, name, target, Level::INFO, Kind::SPAN, FieldSet::new(&[]))
}

/// Opens a span with these metadata and enters it.
pub(crate) fn enter(registry: &mut Registry, meta: Metadata) -> Result<Id, Fail> {
    let id = registry.new_span(LANE, &Attributes::new(meta, &[]), &Pass::new())?;
    registry.enter(LANE, id)?;
    Ok(id)
}

/// Whether the filter lets an event of this level by, where the lane now is.
fn lets_by(filter: &EnvFilter, registry: &Registry, lane: Lane, level: Level) -> bool {
    filter.enabled(&event_of(level), &Context::new(registry, lane))
}

#[test]
fn more_passes_within_a_span(rt: HostRuntime) -> Result<(), Fail> {
    let filter = EnvFilter::parse(rt.alloc(), "warn,[job]=debug")?;
    let mut registry = Registry::new(rt.alloc());
    assert!(rt; lets_by(&filter, &registry, LANE, Level::WARN));
    assert!(rt; !lets_by(&filter, &registry, LANE, Level::DEBUG));
    let job = enter(&mut registry, span_of("job", "web"))?;
    assert!(rt; lets_by(&filter, &registry, LANE, Level::DEBUG));
    assert!(rt; !lets_by(&filter, &registry, LANE, Level::TRACE));
    assert!(rt; !lets_by(&filter, &registry, Lane(1), Level::DEBUG));
    let step = enter(&mut registry, span_of("step", "web"))?;
    assert!(rt; lets_by(&filter, &registry, LANE, Level::DEBUG));
    registry.exit(LANE, step);
    registry.exit(LANE, job);
    assert!(rt; !lets_by(&filter, &registry, LANE, Level::DEBUG));
    Ok(())
}

#[test]
fn by_what_the_target_of_a_span_begins_with(rt: HostRuntime) -> Result<(), Fail> {
    let filter = EnvFilter::parse(rt.alloc(), "off,db[job]")?;
    let mut registry = Registry::new(rt.alloc());
    let other = enter(&mut registry, span_of("job", "web"))?;
    assert!(rt; !lets_by(&filter, &registry, LANE, Level::ERROR));
    let within = enter(&mut registry, span_of("job", "db::pool"))?;
    assert!(rt; lets_by(&filter, &registry, LANE, Level::TRACE));
    registry.exit(LANE, within);
    registry.exit(LANE, other);
    Ok(())
}

#[test]
fn a_span_that_is_named_passes_itself(rt: HostRuntime) -> Result<(), Fail> {
    let filter = EnvFilter::parse(rt.alloc(), "off,[job]=debug")?;
    let nowhere = Context::<Registry>::none();
    assert!(rt; filter.enabled(&span_of("job", "web"), &nowhere));
    assert!(rt; !filter.enabled(&span_of("step", "web"), &nowhere));
    Ok(())
}

/// What the filter says of a callsite before it is asked of a view.
#[test]
fn interests_and_the_hint(rt: HostRuntime) -> Result<(), Fail> {
    let filter = EnvFilter::parse(rt.alloc(), "warn,[job]=debug")?;
    let says = |level: Level| Filter::<Registry>::callsite_enabled(&filter, &event_of(level));
    assert!(rt; says(Level::WARN).is_always());
    assert!(rt; says(Level::DEBUG).is_sometimes());
    assert!(rt; says(Level::TRACE).is_never());
    assert!(rt; Filter::<Registry>::max_level_hint(&filter) == Some(LevelFilter::DEBUG));
    let job = Filter::<Registry>::callsite_enabled(&filter, &span_of("job", "web"));
    assert!(rt; job.is_always());
    Ok(())
}

#[test]
fn what_a_text_says(rt: HostRuntime) -> Result<(), Fail> {
    let filter = EnvFilter::parse(rt.alloc(), "info,db=off,web[job]=2,[step]")?;
    assert!(rt; filter.targets().default_level() == Some(LevelFilter::INFO));
    assert!(rt; !filter.targets().would_enable("db", Level::ERROR));
    let [job, step] = filter.spans() else {
        return Err(Fail::from("not two"));
    };
    assert!(rt; job.target() == "web");
    assert!(rt; job.name() == "job");
    assert!(rt; job.level() == LevelFilter::WARN);
    assert!(rt; step.target() == "");
    assert!(rt; step.name() == "step");
    assert!(rt; step.level() == LevelFilter::TRACE);
    Ok(())
}

/// Why a text isn't read.
fn wrong_in(alloc: Global, text: &str) -> Option<WrongDirective> {
    match EnvFilter::parse(alloc, text) {
        Err(ParseError::Wrong(wrong)) => Some(wrong),
        _ => None,
    }
}

#[test]
fn texts_that_are_wrong(rt: HostRuntime) -> Result<(), Fail> {
    let rows = [
        ("[job", 1, Fault::Span),
        ("info,[job{id=7}]=debug", 2, Fault::Span),
        ("[job]debug", 1, Fault::Span),
        ("[job]x=debug", 1, Fault::Span),
        ("app=info[job]=debug", 1, Fault::Span),
        ("a][job]=debug", 1, Fault::Span),
        ("warn,info,[job]=loud", 3, Fault::UnknownLevel),
        ("a=b=c,[job", 1, Fault::TwoEquals),
        ("db[job,info]", 1, Fault::Span),
        ("[job=debug", 1, Fault::Span),
        ("[job]]=debug", 1, Fault::Span),
        ("[job][step]", 1, Fault::Span),
        ("web[{id}]", 1, Fault::Span),
    ];
    for (text, number, fault) in rows {
        is_wrong_at(&rt, rt.alloc(), text, number, fault);
    }
    Ok(())
}

/// A text is wrong at this directive.
fn is_wrong_at(rt: &impl Abort, alloc: Global, text: &str, number: usize, fault: Fault) {
    let wrong = WrongDirective { number, fault };
    assert!(rt; wrong_in(alloc, text) == Some(wrong));
}

/// Texts of a megabyte that mean harm are wrong at one of the first directives.
#[test]
fn hostile_texts(rt: HostRuntime) -> Result<(), Fail> {
    let alloc = rt.alloc();
    let commas = doubled(alloc, ",", 20)?;
    is_wrong_at(&rt, alloc, commas.as_str(), 1025, Fault::TooMany);
    let many = doubled(alloc, "a[b]=info,", 17)?;
    is_wrong_at(&rt, alloc, many.as_str(), 1025, Fault::TooMany);
    let equals = doubled(alloc, "=", 20)?;
    is_wrong_at(&rt, alloc, equals.as_str(), 1, Fault::TwoEquals);
    let opened = doubled(alloc, "[", 20)?;
    is_wrong_at(&rt, alloc, opened.as_str(), 1, Fault::Span);
    let closed = doubled(alloc, "[]", 19)?;
    is_wrong_at(&rt, alloc, closed.as_str(), 1, Fault::Span);
    Ok(())
}

/// A filter has one directive for spans, of this target and this name.
fn reads_spans(rt: &impl Abort, filter: &EnvFilter, target: &str, name: &str) {
    match filter.spans() {
        [span] => {
            assert!(rt; span.target() == target);
            assert!(rt; span.name() == name);
        }
        _ => assert!(rt; false),
    }
}

/// A name may be a megabyte long, and none is cut within a letter.
#[test]
fn names_of_any_letters(rt: HostRuntime) -> Result<(), Fail> {
    let filter = EnvFilter::parse(rt.alloc(), "caf\u{e9}[\u{8a9e}\u{1f980}]=info")?;
    reads_spans(&rt, &filter, "caf\u{e9}", "\u{8a9e}\u{1f980}");
    let name = doubled(rt.alloc(), "\u{e9}", 19)?;
    let mut text = String::from_str(rt.alloc(), "[")?;
    text.push_str(name.as_str())?;
    text.push(']')?;
    reads_spans(
        &rt,
        &EnvFilter::parse(rt.alloc(), text.as_str())?,
        "",
        name.as_str(),
    );
    Ok(())
}

/// Reads a text, once more where memory is refused, and adds spans so: what is refused leaves the
/// filter as it was. `tests/each_refusal_within_a_test` refuses one allocation after another.
#[test]
fn a_refusal_of_memory_is_told(rt: HostRuntime) -> Result<(), Fail> {
    let text = "warn,db=info,[job]=debug,web[step]";
    let mut filter = match EnvFilter::parse(rt.alloc(), text) {
        Err(ParseError::OutOfMemory) => EnvFilter::parse(rt.alloc(), text)?,
        read => read?,
    };
    if filter.add_span("", "other", LevelFilter::INFO).is_err() {
        assert!(rt; filter.spans().len() == 2);
        filter.add_span("", "other", LevelFilter::INFO)?;
    }
    let [job, step, other] = filter.spans() else {
        return Err(Fail::from("not three"));
    };
    assert!(rt; job.name() == "job");
    assert!(rt; step.target() == "web");
    assert!(rt; other.level() == LevelFilter::INFO);
    assert!(rt; filter.targets().would_enable("db", Level::INFO));
    Ok(())
}

#[test]
fn a_filter_built_by_calls(rt: HostRuntime) -> Result<(), Fail> {
    let targets = Targets::new(rt.alloc()).with_default(LevelFilter::ERROR);
    let mut filter = EnvFilter::new(rt.alloc(), targets);
    filter.add_span("", "job", LevelFilter::INFO)?;
    let mut registry = Registry::new(rt.alloc());
    assert!(rt; !lets_by(&filter, &registry, LANE, Level::INFO));
    enter(&mut registry, span_of("job", "web"))?;
    assert!(rt; lets_by(&filter, &registry, LANE, Level::INFO));
    Ok(())
}
