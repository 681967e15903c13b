//! Tests of filters made of filters: rows of their tables.
ghost use Rattle.std.specs.Prelude.{true};
ghost use Rattle.span_filters.specs.Filter.{ActsSteadily, settled_answers};
ghost use Rattle.span_filters.specs.laws.Filter.{settled_laws, steady_reloads};
ghost use Rattle.span_layer_tests.specs.Filters.{if_answers, mute_answers};
ghost use Rattle.span_layer_tests.specs.laws.Filter.{if_honest, mute_honest};

use crate::store_fixture::{event_at, event_of, hint_of, is_shown_as, lets_by, says, wants};
use span_core::{Event, Interest, Level, LevelFilter, Metadata};
use span_filters::{Filter, FilterExt, dynamic_filter_fn, filter_fn};
use span_registry::{Context, ContextMut, LookupSpan, Notice, Registry};
use span_targets::Setting;
use std::cell::Cell;
use std::process::Abort;
use std::test::Fail;

/// Wants all metadata, and no event.
#[derive(Drop)]
struct Mute;

impl<S: LookupSpan> Filter<S> for Mute {
    ghost has_answers = { settled_answers (λ f. mute_answers) };

    ghost acts = { ActsSteadily (settled_answers (λ f. mute_answers)) };

    ghost laws = { settled_laws (λ f. mute_answers) (λ f. mute_honest) };

    ghost reloads = { steady_reloads };

    fn enabled(&self, _meta: &Metadata, _cx: &Context<'_, S>) -> bool {
        true
    }

    fn callsite_enabled(&self, _meta: &Metadata) -> Interest {
        Interest::Always
    }

    fn event_enabled(&self, _event: &Event<'_>, _cx: &Context<'_, S>) -> bool {
        false
    }

    fn max_level_hint(&self) -> Option<LevelFilter> {
        None
    }

    fn notify(&mut self, _notice: Notice<'_, '_>, _ctx: &mut ContextMut<'_, S>) {}

    fn reload(&mut self, _setting: Setting) -> bool {
        false // It goes by no level.
    }
}

/// Wants everything, has no hint, and counts how often it is asked for one.
#[derive(Drop)]
struct Asked<'a> {
    hints: &'a Cell<u32>,
}

impl<S: LookupSpan> Filter<S> for Asked<'_> {
    ghost has_answers = { settled_answers (λ f. if_answers true) };

    ghost acts = { ActsSteadily (settled_answers (λ f. if_answers true)) };

    ghost laws = { settled_laws (λ f. if_answers true) (λ f. if_honest true) };

    ghost reloads = { steady_reloads };

    fn enabled(&self, _meta: &Metadata, _cx: &Context<'_, S>) -> bool {
        true
    }

    fn callsite_enabled(&self, _meta: &Metadata) -> Interest {
        Interest::Sometimes
    }

    fn event_enabled(&self, _event: &Event<'_>, _cx: &Context<'_, S>) -> bool {
        true
    }

    fn max_level_hint(&self) -> Option<LevelFilter> {
        self.hints.set(self.hints.get().saturating_add(1));
        None
    }

    fn notify(&mut self, _notice: Notice<'_, '_>, _ctx: &mut ContextMut<'_, S>) {}

    fn reload(&mut self, _setting: Setting) -> bool {
        false // It goes by no level.
    }
}

/// The second part of a filter is asked so often when that filter is asked for its hint. It has
/// none.
fn asks_the_second<F: Filter<Registry>>(rt: &impl Abort, filter: &F, hints: &Cell<u32>, times: u32)
    requires { F.usable filter.now }
{
    hints.set(0);
    assert!(rt; hint_of(filter) == None);
    assert!(rt; hints.get() == times);
}

#[test]
fn the_second_part_is_asked_for_a_hint(rt: HostRuntime) -> Result<(), Fail> {
    let hints = Cell::new(0u32);
    let info = LevelFilter::INFO;
    asks_the_second(&rt, &info.or(Asked { hints: &hints }), &hints, 1);
    asks_the_second(&rt, &Mute.or(Asked { hints: &hints }), &hints, 0);
    asks_the_second(&rt, &info.and(Asked { hints: &hints }), &hints, 1);
    asks_the_second(&rt, &Mute.and(Asked { hints: &hints }), &hints, 1);
    Ok(())
}

/// A filter wants an event at info, or doesn't.
fn wants_info<F: Filter<Registry>>(rt: &impl Abort, filter: &F, wanted: bool)
    requires { F.usable filter.now }
{
    assert!(rt; wants(filter, event_at(Level::INFO)) == wanted);
}

#[test]
fn what_neither_part_wants_alone(rt: HostRuntime) -> Result<(), Fail> {
    wants_info(&rt, &Mute, false);
    wants_info(&rt, &LevelFilter::ERROR, false);
    wants_info(&rt, &Mute.or(LevelFilter::ERROR), true);
    wants_info(&rt, &Mute.and(LevelFilter::TRACE), false);
    assert!(rt; !lets_by(&Mute.and(LevelFilter::TRACE), event_at(Level::INFO)));
    wants_info(&rt, &LevelFilter::ERROR.not(), true);
    Ok(())
}

#[test]
fn both_want_what_each_wants(rt: HostRuntime) -> Result<(), Fail> {
    let both = LevelFilter::INFO.and(LevelFilter::WARN);
    let rows = [
        (Level::WARN, true, Interest::Always),
        (Level::INFO, false, Interest::Never),
    ];
    says(&rt, &both, &rows, Some(LevelFilter::WARN));
    let sometimes = dynamic_filter_fn(|_meta: &Metadata, _cx: &Context<'_, Registry>| true);
    let both = sometimes.and(LevelFilter::INFO);
    let rows = [
        (Level::INFO, true, Interest::Sometimes),
        (Level::DEBUG, false, Interest::Never),
    ];
    says(&rt, &both, &rows, None);
    assert!(rt; hint_of(&LevelFilter::INFO.and(Mute)) == None);
    Ok(())
}

#[test]
fn either_wants_what_one_wants(rt: HostRuntime) -> Result<(), Fail> {
    let either = LevelFilter::INFO.or(LevelFilter::WARN);
    let rows = [
        (Level::INFO, true, Interest::Always),
        (Level::DEBUG, false, Interest::Never),
    ];
    says(&rt, &either, &rows, Some(LevelFilter::INFO));
    let sometimes = dynamic_filter_fn(|_meta: &Metadata, _cx: &Context<'_, Registry>| true);
    let either = sometimes.or(LevelFilter::INFO);
    let rows = [
        (Level::INFO, true, Interest::Always),
        (Level::DEBUG, true, Interest::Sometimes),
    ];
    says(&rt, &either, &rows, None);
    assert!(rt; hint_of(&LevelFilter::INFO.or(Mute)) == None);
    Ok(())
}

#[test]
fn a_target_and_a_level(rt: HostRuntime) -> Result<(), Fail> {
    let interesting = filter_fn(|meta: &Metadata| meta.target().starts_with("interesting_target"));
    let both = interesting.and(LevelFilter::INFO);
    assert!(rt; !wants(&both, event_at(Level::INFO)));
    assert!(rt; wants(&both, event_of("interesting_target::part", Level::INFO)));
    assert!(rt; !wants(&both, event_of("interesting_target::part", Level::DEBUG)));
    Ok(())
}

#[test]
fn what_is_not_wanted(rt: HostRuntime) -> Result<(), Fail> {
    let not = LevelFilter::INFO.not();
    let rows = [
        (Level::DEBUG, true, Interest::Always),
        (Level::INFO, false, Interest::Never),
    ];
    says(&rt, &not, &rows, None);
    assert!(rt; lets_by(&not, event_at(Level::INFO)));
    let none: Option<LevelFilter> = None;
    says(&rt, &none, &[(Level::TRACE, true, Interest::Always)], None);
    let some = Some(LevelFilter::INFO);
    let rows = [(Level::DEBUG, false, Interest::Never)];
    says(&rt, &some, &rows, Some(LevelFilter::INFO));
    Ok(())
}

#[test]
fn texts_and_copies(rt: HostRuntime) -> Result<(), Fail> {
    let alloc = rt.alloc();
    let both = LevelFilter::INFO.and(LevelFilter::WARN);
    let text = "And { a: LevelFilter::INFO, b: LevelFilter::WARN }";
    is_shown_as(&rt, alloc, &both.clone()?, text)?;
    let either = LevelFilter::INFO.or(LevelFilter::WARN);
    let text = "Or { a: LevelFilter::INFO, b: LevelFilter::WARN }";
    is_shown_as(&rt, alloc, &either.clone()?, text)?;
    let not = LevelFilter::INFO.not();
    is_shown_as(&rt, alloc, &not.clone()?, "Not(LevelFilter::INFO)")
}
