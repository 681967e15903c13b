//! Tests of boxed filters: a box adds nothing to the filter in it.
ghost use Rattle.span_filters.specs.Filter.{ActsSteadily, settled_answers};
ghost use Rattle.span_filters.specs.laws.Filter.{settled_laws, steady_reloads};
ghost use Rattle.span_layer_tests.specs.Filters.{if_answers, in_span_answers, since_entered, wanted_after};
ghost use Rattle.span_layer_tests.specs.laws.Filter.{in_span_honest, since_laws, since_levels};
ghost use Rattle.std.specs.Prelude.{◌≡◌};

use crate::store_fixture::{LANE, enter, event_at, is_shown_as, open, open_named, root};
use span_boxed::{BoxedFilter, DynFilter};
use span_core::{Event, Id, Interest, Level, LevelFilter, Metadata, Pass};
use span_filters::{And, Filter, FilterExt, Not, Or};
use span_registry::{Context, ContextMut, LookupSpan, Notice, Registry};
use span_targets::Setting;
use std::process::Abort;
use std::test::Fail;

/// All that a filter says of an event.
#[derive(Clone, Copy)]
struct Said {
    enabled: bool,
    event: bool,
    interest: Interest,
    hint: Option<LevelFilter>,
}

/// What a filter says of an event at this level, in this context.
fn answers_of<F: Filter<Registry>>(filter: &F, level: Level, cx: &Context<'_, Registry>) -> Said
    requires { F.usable filter.now }
{
    let metadata = event_at(level);
    Said {
        enabled: filter.enabled(&metadata, cx),
        event: filter.event_enabled(&Event::new(metadata, &[]), cx),
        interest: filter.callsite_enabled(&metadata),
        hint: filter.max_level_hint(),
    }
}

/// Info and errors.
fn two_levels() -> Or<And<LevelFilter, Not<LevelFilter>>, LevelFilter> {
    LevelFilter::INFO
        .and(LevelFilter::WARN.not())
        .or(LevelFilter::ERROR)
}

/// A filter wants info and errors, settles the interest in both, and has no hint.
fn wants_two_levels<F: Filter<Registry>>(rt: &impl Abort, filter: &F)
    requires { F.usable filter.now }
{
    let nowhere: Context<'_, Registry> = Context::none();
    for (level, wanted, interest) in [
        (Level::ERROR, true, Interest::Always),
        (Level::WARN, false, Interest::Never),
        (Level::INFO, true, Interest::Always),
        (Level::DEBUG, false, Interest::Never),
    ] {
        let said = answers_of(filter, level, &nowhere);
        assert!(rt; (said.enabled, said.interest) == (wanted, interest));
        assert!(rt; (said.event, said.hint) == (true, None));
    }
}

#[test]
fn a_boxed_chain_answers_as_the_chain(rt: HostRuntime) -> Result<(), Fail> {
    wants_two_levels(&rt, &two_levels());
    let object: Box<dyn DynFilter + Send> = Box::new(rt.alloc(), two_levels())?;
    let boxed = BoxedFilter::new(object);
    wants_two_levels(&rt, &boxed);
    is_shown_as(&rt, rt.alloc(), &boxed, "BoxedFilter { .. }")
}

/// A filter wants errors and what is at debug, and nothing at the levels between.
fn wants_errors_and_debug<F: Filter<Registry>>(rt: &impl Abort, filter: &F)
    requires { F.usable filter.now }
{
    let nowhere: Context<'_, Registry> = Context::none();
    for (level, wanted) in [
        (Level::ERROR, true),
        (Level::INFO, false),
        (Level::DEBUG, true),
        (Level::TRACE, false),
    ] {
        let said = answers_of(filter, level, &nowhere);
        assert!(rt; said.enabled == wanted);
        assert!(rt; said.interest.is_always() == wanted);
        assert!(rt; said.hint == None);
    }
}

#[test]
fn a_chain_with_a_box_in_it(rt: HostRuntime) -> Result<(), Fail> {
    let object: Box<dyn DynFilter + Send> = Box::new(rt.alloc(), LevelFilter::INFO)?;
    let chain = BoxedFilter::new(object)
        .not()
        .and(LevelFilter::DEBUG)
        .or(LevelFilter::ERROR);
    wants_errors_and_debug(&rt, &chain);
    Ok(())
}

/// Wants what comes in a span that it sees.
#[derive(Drop)]
struct InSpan;

impl<S: LookupSpan> Filter<S> for InSpan {
    ghost has_answers = { settled_answers (λ f. in_span_answers) };

    ghost acts = { ActsSteadily (settled_answers (λ f. in_span_answers)) };

    ghost laws = { settled_laws (λ f. in_span_answers) (λ f. in_span_honest) };

    ghost reloads = { steady_reloads };

    fn enabled(&self, _meta: &Metadata, cx: &Context<'_, S>) -> bool {
        cx.lookup_current().is_some()
    }

    fn callsite_enabled(&self, _meta: &Metadata) -> Interest {
        Interest::Sometimes
    }

    fn event_enabled(&self, _event: &Event<'_>, _cx: &Context<'_, S>) -> bool {
        true
    }

    fn max_level_hint(&self) -> Option<LevelFilter> {
        None
    }

    fn notify(&mut self, _notice: Notice<'_, '_>, _ctx: &mut ContextMut<'_, S>) {}

    fn reload(&mut self, _setting: Setting) -> bool {
        false // It goes by no level.
    }
}

/// A filter wants what comes in a span, but not under a mask that hides the span.
fn wants_in_what_is_shown<F: Filter<Registry>>(
    rt: &impl Abort,
    filter: &F,
    registry: &mut Registry,
) -> Result<(), Fail>
    requires { F.usable filter.now }
{
    let hiding = registry.register_filter()?;
    let id = open_named(registry, "hidden", None, hiding)?;
    enter(registry, id)?;

    let all = Context::new(registry, LANE);
    assert!(rt; answers_of(filter, Level::INFO, &all).enabled);
    let filtered = all.with_filter(hiding);
    assert!(rt; !answers_of(filter, Level::INFO, &filtered).enabled);
    Ok(())
}

#[test]
fn a_box_sees_what_its_mask_shows(rt: HostRuntime) -> Result<(), Fail> {
    let object: Box<dyn DynFilter + Send> = Box::new(rt.alloc(), InSpan)?;
    let boxed = BoxedFilter::new(object);
    wants_in_what_is_shown(&rt, &boxed, &mut Registry::new(rt.alloc()))
}

/// Wants everything from the first span on that is entered, and nothing before.
#[derive(Drop)]
struct SinceEntered {
    entered: bool,
}

impl<S: LookupSpan> Filter<S> for SinceEntered {
    ghost has_answers = { settled_answers (λ f. if_answers f.entered) };

    ghost hooked = { λ f e lane under v g w. (g.entered ≡ wanted_after e f.entered) × (w ≡ v) };

    ghost acts = { λ f b. b ≡ since_entered f.entered };

    ghost laws = { since_laws (λ f. f.entered) };

    ghost reloads = { since_levels (λ f. f.entered) };

    fn enabled(&self, _meta: &Metadata, _cx: &Context<'_, S>) -> bool {
        self.entered
    }

    fn callsite_enabled(&self, _meta: &Metadata) -> Interest {
        Interest::Sometimes
    }

    fn event_enabled(&self, _event: &Event<'_>, _cx: &Context<'_, S>) -> bool {
        true
    }

    fn max_level_hint(&self) -> Option<LevelFilter> {
        None
    }

    fn notify(&mut self, notice: Notice<'_, '_>, _ctx: &mut ContextMut<'_, S>) {
        if let Notice::Enter(_) = notice {
            self.entered = true;
        }
    }

    fn reload(&mut self, _setting: Setting) -> bool {
        false // It goes by no level.
    }
}

/// Notifies a filter that a span is entered.
fn enters<F: Filter<Registry>>(filter: &mut F, registry: &mut Registry, id: Id)
    requires { F.usable filter.old }
    ensures { F.usable filter.new }
{
    filter.on_enter(id, &mut ContextMut::new(registry, LANE, &Pass::new()));
}

/// A filter wants an event after it is notified that a span is entered, and none before.
fn wants_since_entered<F: Filter<Registry>>(
    rt: &impl Abort,
    filter: &mut F,
    registry: &mut Registry,
) -> Result<(), Fail>
    requires { F.usable filter.old }
{
    let id = open(registry, &root())?;
    let nowhere: Context<'_, Registry> = Context::none();
    assert!(rt; !answers_of(filter, Level::INFO, &nowhere).enabled);
    enters(filter, registry, id);
    assert!(rt; answers_of(filter, Level::INFO, &nowhere).enabled);
    assert!(rt; registry.is_open(id));
    Ok(())
}

#[test]
fn a_box_hands_a_notice_on(rt: HostRuntime) -> Result<(), Fail> {
    let object: Box<dyn DynFilter + Send> = Box::new(rt.alloc(), SinceEntered { entered: false })?;
    let mut boxed = BoxedFilter::new(object);
    wants_since_entered(&rt, &mut boxed, &mut Registry::new(rt.alloc()))
}
