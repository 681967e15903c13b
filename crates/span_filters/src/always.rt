//! Filters that can be called without a premise.
ghost use Rattle.span_filters.specs.laws.Option.{each_part};

use crate::combinator::{And, Not, Or};
use crate::filter::Filter;
use span_core::LevelFilter;
use span_registry::LookupSpan;

/// A filter that can be called without a premise, since no closure is in it.
///
/// Layers under such filters can make an `AlwaysUsable` stack.
///
/// Own to this port.
pub trait AlwaysUsableFilter<S: LookupSpan>: Filter<S> {
    /// The filter may be asked and notified, whatever has become of it.
    ghost always: { (f : Self) → Self.usable f };
}

impl<S: LookupSpan> AlwaysUsableFilter<S> for LevelFilter {
    ghost always = { λ f. tt };
}

impl<S: LookupSpan, A: AlwaysUsableFilter<S>> AlwaysUsableFilter<S> for Not<A> {
    ghost always = { λ f. A.always f.a };
}

impl<S: LookupSpan, A: AlwaysUsableFilter<S>, B: AlwaysUsableFilter<S>> AlwaysUsableFilter<S>
    for And<A, B> {
    ghost always = { λ f. (A.always f.a, B.always f.b) };
}

impl<S: LookupSpan, A: AlwaysUsableFilter<S>, B: AlwaysUsableFilter<S>> AlwaysUsableFilter<S>
    for Or<A, B> {
    ghost always = { λ f. (A.always f.a, B.always f.b) };
}

impl<S: LookupSpan, F: AlwaysUsableFilter<S>> AlwaysUsableFilter<S> for Option<F> {
    ghost always = { each_part F.always };
}
