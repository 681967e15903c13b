//! Filters made of closures.
ghost use Rattle.std.specs.Prelude.{◌≡◌, None, Some, IfErr, IfOk, IfSome, IsOk};
ghost use Rattle.span_core.specs.declared.error.TraceError.TheVariants.{OutOfMemory};
ghost use Rattle.span_filters.specs.Filter.{ActsSteadily, CopiesAlike};
ghost use Rattle.span_filters.specs.laws.Filter.{steady_reloads};
ghost use Rattle.span_filters.specs.Closure.{ClosuresAre, HasTestAnswers, HasViewAnswers, TestsBy, TestsInBy, callsite_in, test_in, view_hint_in, view_test_in};
ghost use Rattle.span_filters.specs.laws.Closure.{test_laws, view_laws};

use crate::filter::Filter;
use crate::function::{Function, FunctionIn, NoCallsite};
use span_core::{Event, Interest, LevelFilter, Metadata, TraceError};
use span_registry::{Context, ContextMut, LookupSpan, Notice};
use span_targets::Setting;
use std::fmt;

/// A filter by a test of metadata alone.
///
/// Stands for `tracing_subscriber::filter::FilterFn`.
#[derive(Drop)]
pub struct FilterFn<F> {
    enabled: F,
    max_level_hint: Option<LevelFilter>,
}

/// A filter by this test of metadata, without a hint.
///
/// Stands for `tracing_subscriber::filter::filter_fn`.
pub fn filter_fn<F: Function<Metadata, bool>>(f: F) -> FilterFn<F>
    ensures { TestsBy result f None }
{
    FilterFn::new(f)
}

impl<F: Function<Metadata, bool>> FilterFn<F> {
    /// A filter by this test of metadata, without a hint.
    pub fn new(enabled: F) -> FilterFn<F>
        ensures { TestsBy result enabled None }
    {
        FilterFn {
            enabled,
            max_level_hint: None,
        }
    }

    /// The filter with this hint. It has answers only where its test refuses every level above the
    /// hint.
    pub fn with_max_level_hint(self, hint: LevelFilter) -> FilterFn<F>
        ensures { TestsBy result (test_in self) (Some hint) }
    {
        FilterFn {
            enabled: self.enabled,
            max_level_hint: Some(hint),
        }
    }
}

impl<F: Clone> FilterFn<F> {
    /// A copy of the filter, where each copy of its test equals the test. Refused for want of
    /// memory alone.
    pub fn clone(&self) -> Result<FilterFn<F>, TraceError>
        requires { CopiesAlike F.is_clone (test_in self.now) }
        ensures copied { IfOk result (λ copy. copy ≡ self.now) }
        ensures refused { IfErr result (λ error. error ≡ OutOfMemory) }
        ensures infallible { F.is_infallible (test_in self.now) → IsOk result }
    {
        let enabled = self.enabled.clone()?;
        Ok(FilterFn {
            enabled,
            max_level_hint: self.max_level_hint,
        })
    }
}

impl<F: Function<Metadata, bool>> From<F> for FilterFn<F> {
    ghost from_gives = { λ f filter. TestsBy filter f None };

    fn from(f: F) -> FilterFn<F> {
        FilterFn::new(f)
    }
}

impl<S: LookupSpan, F: Function<Metadata, bool>> Filter<S> for FilterFn<F> {
    ghost usable = { λ f. F.callable f.enabled };

    ghost has_answers = { HasTestAnswers F.gives };

    ghost acts = { ActsSteadily (HasTestAnswers F.gives) };

    ghost laws = { test_laws F.gives };

    ghost reloads = { steady_reloads };

    fn enabled(&self, meta: &Metadata, _cx: &Context<'_, S>) -> bool {
        self.enabled.apply(meta)
    }

    fn callsite_enabled(&self, meta: &Metadata) -> Interest {
        if self.enabled.apply(meta) {
            Interest::Always
        } else {
            Interest::Never
        }
    }

    fn event_enabled(&self, _event: &Event<'_>, _cx: &Context<'_, S>) -> bool {
        true
    }

    fn max_level_hint(&self) -> Option<LevelFilter> {
        self.max_level_hint
    }

    #[inline(always)]
    fn notify(&mut self, _notice: Notice<'_, '_>, _ctx: &mut ContextMut<'_, S>) {}

    fn reload(&mut self, _setting: Setting) -> bool {
        false // The filter goes by its closure.
    }
}

impl<F> fmt::Debug for FilterFn<F> {
    fn fmt<W: fmt::Write>(&self, f: &mut fmt::Formatter<W>) -> fmt::Result {
        f.debug_struct("FilterFn")
            .field("enabled", &Elided)
            .field("max_level_hint", &self.max_level_hint)
            .finish()
    }
}

/// A closure in a debug text: two dots.
#[derive(Drop)]
struct Elided;

impl fmt::Debug for Elided {
    fn fmt<W: fmt::Write>(&self, f: &mut fmt::Formatter<W>) -> fmt::Result {
        f.write_str("..")
    }
}

/// A filter by a test of metadata and of the context, with a closure for the interest or without.
///
/// Stands for `tracing_subscriber::filter::DynFilterFn`.
#[derive(Drop)]
pub struct DynFilterFn<F, R> {
    enabled: F,
    register_callsite: Option<R>,
    max_level_hint: Option<LevelFilter>,
}

/// A filter by this test of metadata and of the context, without a closure for the interest and
/// without a hint.
///
/// Stands for `tracing_subscriber::filter::dynamic_filter_fn`.
pub fn dynamic_filter_fn<F>(f: F) -> DynFilterFn<F, NoCallsite>
    ensures { TestsInBy result f None None }
{
    DynFilterFn::new(f)
}

impl<F> DynFilterFn<F, NoCallsite> {
    /// A filter by this test of metadata and of the context, without a closure for the interest and
    /// without a hint.
    pub fn new(enabled: F) -> DynFilterFn<F, NoCallsite>
        ensures { TestsInBy result enabled None None }
    {
        DynFilterFn {
            enabled,
            register_callsite: None,
            max_level_hint: None,
        }
    }
}

impl<F, R: Drop> DynFilterFn<F, R> {
    /// The filter with this hint. It has answers only where its test refuses every level above the
    /// hint.
    pub fn with_max_level_hint(self, hint: LevelFilter) -> DynFilterFn<F, R>
        ensures { TestsInBy result (view_test_in self) (callsite_in self) (Some hint) }
    {
        DynFilterFn {
            enabled: self.enabled,
            register_callsite: self.register_callsite,
            max_level_hint: Some(hint),
        }
    }

    /// The filter with this closure for the interest. It has answers only where that interest is
    /// honest beside the test.
    pub fn with_callsite_filter<Q: Function<Metadata, Interest>>(
        self,
        callsite_enabled: Q,
    ) -> DynFilterFn<F, Q>
        ensures { TestsInBy result (view_test_in self) (Some callsite_enabled) (view_hint_in self) }
    {
        let DynFilterFn {
            enabled,
            register_callsite,
            max_level_hint,
        } = self;
        drop(register_callsite);
        DynFilterFn {
            enabled,
            register_callsite: Some(callsite_enabled),
            max_level_hint,
        }
    }
}

impl<F: Clone, R: Clone> DynFilterFn<F, R> {
    /// A copy of the filter, where each copy of its closures equals the closure. Refused for want
    /// of memory alone.
    pub fn clone(&self) -> Result<DynFilterFn<F, R>, TraceError>
        requires test { CopiesAlike F.is_clone (view_test_in self.now) }
        requires callsite { IfSome (callsite_in self.now) (CopiesAlike R.is_clone) }
        ensures copied { IfOk result (λ copy. copy ≡ self.now) }
        ensures refused { IfErr result (λ error. error ≡ OutOfMemory) }
        ensures infallible { ClosuresAre F.is_infallible R.is_infallible self.now → IsOk result }
    {
        let enabled = self.enabled.clone()?;
        let register_callsite = match &self.register_callsite {
            Some(closure) => Some(closure.clone()?),
            None => None,
        };
        Ok(DynFilterFn {
            enabled,
            register_callsite,
            max_level_hint: self.max_level_hint,
        })
    }
}

impl<F> From<F> for DynFilterFn<F, NoCallsite> {
    ghost from_gives = { λ f filter. TestsInBy filter f None None };

    fn from(f: F) -> DynFilterFn<F, NoCallsite> {
        DynFilterFn::new(f)
    }
}

impl<S: LookupSpan, F: FunctionIn<Metadata, S, bool>, R: Function<Metadata, Interest>> Filter<S>
    for DynFilterFn<F, R> {
    ghost usable = { λ f. F.callable_in f.enabled × IfSome f.register_callsite R.callable };

    ghost has_answers = { HasViewAnswers S.registry F.gives_in R.gives };

    ghost acts = { ActsSteadily (HasViewAnswers S.registry F.gives_in R.gives) };

    ghost laws = { view_laws S.registry F.gives_in R.gives };

    ghost reloads = { steady_reloads };

    fn enabled(&self, meta: &Metadata, cx: &Context<'_, S>) -> bool {
        self.enabled.apply_in(meta, cx)
    }

    fn callsite_enabled(&self, meta: &Metadata) -> Interest {
        if let Some(closure) = &self.register_callsite {
            return closure.apply(meta);
        }
        match self.max_level_hint {
            Some(hint) if !hint.passes(meta.level()) => Interest::Never,
            _ => Interest::Sometimes,
        }
    }

    fn event_enabled(&self, _event: &Event<'_>, _cx: &Context<'_, S>) -> bool {
        true
    }

    fn max_level_hint(&self) -> Option<LevelFilter> {
        self.max_level_hint
    }

    #[inline(always)]
    fn notify(&mut self, _notice: Notice<'_, '_>, _ctx: &mut ContextMut<'_, S>) {}

    fn reload(&mut self, _setting: Setting) -> bool {
        false // The filter goes by its closure.
    }
}

impl<F, R> fmt::Debug for DynFilterFn<F, R> {
    fn fmt<W: fmt::Write>(&self, f: &mut fmt::Formatter<W>) -> fmt::Result {
        let callsite = match self.register_callsite {
            Some(_) => Some(Elided),
            None => None,
        };
        f.debug_struct("DynFilterFn")
            .field("enabled", &Elided)
            .field("register_callsite", &callsite)
            .field("max_level_hint", &self.max_level_hint)
            .finish()
    }
}
