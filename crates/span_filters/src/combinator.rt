//! Filters made of filters.
ghost use Rattle.span_filters.specs.Combinator.{ActsBoth, ActsOne, ActsPart, AndPartsAre, HasBoth, HasOne, HasPart, IsAnd, IsNot, IsOr, ReloadsPart, OrPartsAre, StepsBoth, StepsPart, and_answers, first_of_and, first_of_or, not_answers, or_answers, part_of_not, second_of_and, second_of_or};
ghost use Rattle.span_core.specs.Level.{greater, lesser};
ghost use Rattle.span_filters.specs.laws.And.{and_alike, and_honest, and_plain, and_same};
ghost use Rattle.span_filters.specs.laws.Combinator.{both_laws, both_reloads, one_laws, one_reloads};
ghost use Rattle.span_filters.specs.laws.Not.{not_alike, not_honest, not_plain, not_same};
ghost use Rattle.span_filters.specs.laws.Option.{part_laws, part_reloads};
ghost use Rattle.span_filters.specs.laws.Or.{or_alike, or_honest, or_plain, or_same};
ghost use Rattle.span_core.specs.declared.error.TraceError.TheVariants.{OutOfMemory};
ghost use Rattle.span_filters.specs.Filter.{CopiesAlike};
ghost use Rattle.std.specs.Prelude.{◌≡◌, IfErr, IfOk, IfSome, IsOk};

use crate::filter::Filter;
use span_core::{Event, Interest, LevelFilter, Metadata, TraceError};
use span_registry::{Context, ContextMut, LookupSpan, Notice};
use span_targets::Setting;
use std::fmt;

/// A filter that enables what both of its parts do. The first part is asked first, and the second
/// only where the first doesn't decide; but both are always asked for the hint.
///
/// Stands for `tracing_subscriber::filter::combinator::And`.
#[derive(Debug, Drop)]
pub struct And<A, B> {
    a: A,
    b: B,
}

/// A filter that enables what either of its parts does. The first part is asked first, and the
/// second only where the first doesn't decide; but both are always asked for the interest.
///
/// Stands for `tracing_subscriber::filter::combinator::Or`.
#[derive(Debug, Drop)]
pub struct Or<A, B> {
    a: A,
    b: B,
}

/// A filter that enables the metadata that its part refuses, and every event of them.
///
/// Stands for `tracing_subscriber::filter::combinator::Not`.
#[derive(Drop)]
pub struct Not<A> {
    a: A,
}

impl<A: Clone, B: Clone> And<A, B> {
    /// A copy of the filter, where each copy of a part equals the part. Refused for want of memory
    /// alone.
    pub fn clone(&self) -> Result<And<A, B>, TraceError>
        requires first { CopiesAlike A.is_clone (first_of_and self.now) }
        requires second { CopiesAlike B.is_clone (second_of_and self.now) }
        ensures copied { IfOk result (λ copy. copy ≡ self.now) }
        ensures refused { IfErr result (λ error. error ≡ OutOfMemory) }
        ensures infallible { AndPartsAre A.is_infallible B.is_infallible self.now → IsOk result }
    {
        let a = self.a.clone()?;
        let b = self.b.clone()?;
        Ok(And { a, b })
    }
}

impl<A: Clone, B: Clone> Or<A, B> {
    /// A copy of the filter, where each copy of a part equals the part. Refused for want of memory
    /// alone.
    pub fn clone(&self) -> Result<Or<A, B>, TraceError>
        requires first { CopiesAlike A.is_clone (first_of_or self.now) }
        requires second { CopiesAlike B.is_clone (second_of_or self.now) }
        ensures copied { IfOk result (λ copy. copy ≡ self.now) }
        ensures refused { IfErr result (λ error. error ≡ OutOfMemory) }
        ensures infallible { OrPartsAre A.is_infallible B.is_infallible self.now → IsOk result }
    {
        let a = self.a.clone()?;
        let b = self.b.clone()?;
        Ok(Or { a, b })
    }
}

impl<A: Clone> Not<A> {
    /// A copy of the filter, where each copy of the part equals the part. Refused for want of
    /// memory alone.
    pub fn clone(&self) -> Result<Not<A>, TraceError>
        requires { CopiesAlike A.is_clone (part_of_not self.now) }
        ensures copied { IfOk result (λ copy. copy ≡ self.now) }
        ensures refused { IfErr result (λ error. error ≡ OutOfMemory) }
        ensures infallible { A.is_infallible (part_of_not self.now) → IsOk result }
    {
        let a = self.a.clone()?;
        Ok(Not { a })
    }
}

/// The filter by level that enables less.
fn lesser_of(f: LevelFilter, g: LevelFilter) -> LevelFilter
    ensures { result ≡ lesser f g }
{
    if f <= g { f } else { g }
}

/// The filter by level that enables more.
fn greater_of(f: LevelFilter, g: LevelFilter) -> LevelFilter
    ensures { result ≡ greater f g }
{
    if f <= g { g } else { f }
}

impl<S: LookupSpan, A: Filter<S>> Filter<S> for Not<A> {
    ghost usable = { λ f. A.usable f.a };

    ghost has_answers = { λ f a. HasOne not_answers A.has_answers f.a a };

    ghost hooked = { λ f e lane under v g w. A.hooked f.a e lane under v g.a w };

    ghost acts = { λ f b. ActsOne not_answers A.acts f.a b };

    ghost laws = { one_laws not_answers (λ f. f.a) A.laws not_honest not_same not_plain not_alike };

    ghost reloads = { one_reloads (λ f. f.a) };

    fn enabled(&self, meta: &Metadata, cx: &Context<'_, S>) -> bool {
        !self.a.enabled(meta, cx)
    }

    fn callsite_enabled(&self, meta: &Metadata) -> Interest {
        match self.a.callsite_enabled(meta) {
            Interest::Always => Interest::Never,
            Interest::Sometimes => Interest::Sometimes,
            Interest::Never => Interest::Always,
        }
    }

    fn event_enabled(&self, _event: &Event<'_>, _cx: &Context<'_, S>) -> bool {
        true
    }

    fn max_level_hint(&self) -> Option<LevelFilter> {
        None // What the part refuses is wanted, at any level.
    }

    #[inline(always)]
    fn notify(&mut self, notice: Notice<'_, '_>, ctx: &mut ContextMut<'_, S>) {
        self.a.notify(notice, ctx);
    }

    fn reload(&mut self, _setting: Setting) -> bool {
        false // The part has no number of its own.
    }
}

impl<S: LookupSpan, A: Filter<S>, B: Filter<S>> Filter<S> for And<A, B> {
    ghost usable = { λ f. A.usable f.a × B.usable f.b };

    ghost has_answers = { λ f a. HasBoth and_answers A.has_answers B.has_answers f.a f.b a };

    ghost hooked = { λ f e lane under v g w.
        StepsBoth A.hooked B.hooked f.a f.b e lane under v g.a g.b w };

    ghost acts = { λ f b. ActsBoth and_answers A.acts B.acts f.a f.b b };

    ghost laws = { both_laws and_answers (λ f. f.a) (λ f. f.b) A.laws B.laws and_honest and_same
        and_plain and_alike };

    ghost reloads = { both_reloads (λ f. f.a) (λ f. f.b) };

    fn enabled(&self, meta: &Metadata, cx: &Context<'_, S>) -> bool {
        if !self.a.enabled(meta, cx) {
            return false;
        }
        self.b.enabled(meta, cx)
    }

    fn callsite_enabled(&self, meta: &Metadata) -> Interest {
        match self.a.callsite_enabled(meta) {
            Interest::Never => Interest::Never,
            Interest::Always => self.b.callsite_enabled(meta),
            Interest::Sometimes => match self.b.callsite_enabled(meta) {
                Interest::Never => Interest::Never,
                Interest::Sometimes => Interest::Sometimes,
                Interest::Always => Interest::Sometimes,
            },
        }
    }

    fn event_enabled(&self, event: &Event<'_>, cx: &Context<'_, S>) -> bool {
        if !self.a.event_enabled(event, cx) {
            return false;
        }
        self.b.event_enabled(event, cx)
    }

    fn max_level_hint(&self) -> Option<LevelFilter> {
        let first = self.a.max_level_hint();
        let second = self.b.max_level_hint();
        match first {
            None => None,
            Some(f) => match second {
                None => None,
                Some(g) => Some(lesser_of(f, g)),
            },
        }
    }

    #[inline(always)]
    fn notify(&mut self, notice: Notice<'_, '_>, ctx: &mut ContextMut<'_, S>) {
        self.a.notify(notice, ctx);
        self.b.notify(notice, ctx);
    }

    fn reload(&mut self, _setting: Setting) -> bool {
        false // The parts have no numbers of their own.
    }
}

impl<S: LookupSpan, A: Filter<S>, B: Filter<S>> Filter<S> for Or<A, B> {
    ghost usable = { λ f. A.usable f.a × B.usable f.b };

    ghost has_answers = { λ f a. HasBoth or_answers A.has_answers B.has_answers f.a f.b a };

    ghost hooked = { λ f e lane under v g w.
        StepsBoth A.hooked B.hooked f.a f.b e lane under v g.a g.b w };

    ghost acts = { λ f b. ActsBoth or_answers A.acts B.acts f.a f.b b };

    ghost laws = { both_laws or_answers (λ f. f.a) (λ f. f.b) A.laws B.laws or_honest or_same
        or_plain or_alike };

    ghost reloads = { both_reloads (λ f. f.a) (λ f. f.b) };

    fn enabled(&self, meta: &Metadata, cx: &Context<'_, S>) -> bool {
        if self.a.enabled(meta, cx) {
            return true;
        }
        self.b.enabled(meta, cx)
    }

    fn callsite_enabled(&self, meta: &Metadata) -> Interest {
        let first = self.a.callsite_enabled(meta);
        let second = self.b.callsite_enabled(meta);
        match first {
            Interest::Always => Interest::Always,
            Interest::Never => second,
            Interest::Sometimes => match second {
                Interest::Always => Interest::Always,
                Interest::Sometimes => Interest::Sometimes,
                Interest::Never => Interest::Sometimes,
            },
        }
    }

    fn event_enabled(&self, event: &Event<'_>, cx: &Context<'_, S>) -> bool {
        if self.a.event_enabled(event, cx) {
            return true;
        }
        self.b.event_enabled(event, cx)
    }

    fn max_level_hint(&self) -> Option<LevelFilter> {
        let first = self.a.max_level_hint()?;
        let second = self.b.max_level_hint()?;
        Some(greater_of(first, second))
    }

    #[inline(always)]
    fn notify(&mut self, notice: Notice<'_, '_>, ctx: &mut ContextMut<'_, S>) {
        self.a.notify(notice, ctx);
        self.b.notify(notice, ctx);
    }

    fn reload(&mut self, _setting: Setting) -> bool {
        false // The parts have no numbers of their own.
    }
}

impl<A: fmt::Debug> fmt::Debug for Not<A> {
    fn fmt<W: fmt::Write>(&self, f: &mut fmt::Formatter<W>) -> fmt::Result {
        f.debug_tuple("Not").field(&self.a).finish()
    }
}

/// Makes filters of filters.
///
/// Stands for `tracing_subscriber::filter::FilterExt`.
pub trait FilterExt: Sized {
    /// A filter that enables what this filter and the other both do.
    final fn and<B>(self, other: B) -> And<Self, B>
        ensures { IsAnd result self other }
    {
        And { a: self, b: other }
    }

    /// A filter that enables what this filter or the other does.
    final fn or<B>(self, other: B) -> Or<Self, B>
        ensures { IsOr result self other }
    {
        Or { a: self, b: other }
    }

    /// A filter that enables the metadata that this filter refuses.
    final fn not(self) -> Not<Self>
        ensures { IsNot result self }
    {
        Not { a: self }
    }
}

impl<F> FilterExt for F {}

impl<S: LookupSpan, F: Filter<S>> Filter<S> for Option<F> {
    ghost usable = { λ o. IfSome o F.usable };

    ghost has_answers = { HasPart F.has_answers };

    ghost hooked = { StepsPart F.hooked };

    ghost reloaded = { ReloadsPart F.reloaded };

    ghost acts = { ActsPart F.acts };

    ghost laws = { part_laws F.laws };

    ghost reloads = { part_reloads F.reloads };

    fn enabled(&self, meta: &Metadata, cx: &Context<'_, S>) -> bool {
        match self {
            Some(filter) => filter.enabled(meta, cx),
            None => true,
        }
    }

    fn callsite_enabled(&self, meta: &Metadata) -> Interest {
        match self {
            Some(filter) => filter.callsite_enabled(meta),
            None => Interest::Always,
        }
    }

    fn event_enabled(&self, event: &Event<'_>, cx: &Context<'_, S>) -> bool {
        match self {
            Some(filter) => filter.event_enabled(event, cx),
            None => true,
        }
    }

    fn max_level_hint(&self) -> Option<LevelFilter> {
        match self {
            Some(filter) => filter.max_level_hint(),
            None => None,
        }
    }

    #[inline(always)]
    fn notify(&mut self, notice: Notice<'_, '_>, ctx: &mut ContextMut<'_, S>) {
        if let Some(filter) = self {
            filter.notify(notice, ctx);
        }
    }

    fn reload(&mut self, setting: Setting) -> bool {
        match self {
            Some(filter) => filter.reload(setting),
            None => false,
        }
    }
}
