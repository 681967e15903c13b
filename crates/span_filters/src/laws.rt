//! Filters that are plain. The functions make no call: what they ensure is the law.
ghost use Rattle.span_filters.specs.Closure.{AnswersAllIn, view_test_in};
ghost use Rattle.span_filters.specs.laws.Closure.{test_plain, view_plain};
ghost use Rattle.span_filters.specs.Filter.{IsSteady, MayBeSteady};
ghost use Rattle.span_filters.specs.Level.{level_conduct};
ghost use Rattle.span_filters.specs.Setting.{setting_conduct};

use crate::closure::{DynFilterFn, FilterFn};
use crate::filter::Filter;
use crate::function::{Function, FunctionIn};
use span_core::{Interest, LevelFilter, Metadata};
use span_registry::LookupSpan;
use span_targets::{EnvFilter, Setting};

/// A filter by level answers by the last level that it took, whatever the extensions.
pub fn levels_are_plain<S: LookupSpan>(filter: &LevelFilter)
    ensures { ⟦<LevelFilter as Filter<S>>⟧.acts filter.now (level_conduct filter.now) }
{}

/// A filter by targets and spans always answers as it now does, whatever the extensions.
pub fn env_filters_are_plain<S: LookupSpan>(filter: &EnvFilter)
    ensures { let i = ⟦<EnvFilter as Filter<S>>⟧ in IsSteady i.has_answers i.acts filter.now }
{}

/// A filter by a setting answers by the last one that it took, whatever the extensions.
pub fn settings_are_plain<S: LookupSpan>(filter: &Setting)
    ensures { ⟦<Setting as Filter<S>>⟧.acts filter.now (setting_conduct filter.now) }
{}

/// A filter by a test of metadata always answers as it now does, whatever the extensions.
pub fn tests_are_plain<S: LookupSpan, F: Function<Metadata, bool>>(filter: &FilterFn<F>)
    ensures { let i = ⟦<FilterFn<F> as Filter<S>>⟧ in IsSteady i.has_answers i.acts filter.now }
{}

/// A filter by a test of metadata and context always answers as it now does, whatever the
/// extensions, where views that differ in extensions alone get equal answers, and its closure has
/// an answer to all metadata on each store.
pub fn view_tests_may_be_plain<
    S: LookupSpan,
    F: FunctionIn<Metadata, S, bool>,
    R: Function<Metadata, Interest>,
>(filter: &DynFilterFn<F, R>)
    ensures { AnswersAllIn S.registry F.gives_in (view_test_in filter.now)
        → let i = ⟦<DynFilterFn<F, R> as Filter<S>>⟧ in
        MayBeSteady i.has_answers i.acts filter.now }
{}
