//! Layers under filters, pairs and stacks that can be called without a premise.
use crate::filtered::Filtered;
use crate::layered::Layered;
use span_filters::AlwaysUsableFilter;
use span_layers::AlwaysUsableLayer;
use span_registry::{AlwaysUsable, Subscriber};

impl<I: AlwaysUsable, L: AlwaysUsableLayer<I>> AlwaysUsable for Layered<L, I> {
    ghost always = { λ x. (L.always x.layer, I.always x.inner) };
}

impl<S: Subscriber, L: AlwaysUsableLayer<S>, I: AlwaysUsableLayer<S>> AlwaysUsableLayer<S>
    for Layered<L, I> {
    ghost always = { λ x. (L.always x.layer, I.always x.inner) };
}

impl<S: Subscriber, L: AlwaysUsableLayer<S>, F: AlwaysUsableFilter<S>> AlwaysUsableLayer<S>
    for Filtered<L, F> {
    ghost always = { λ x. (F.always x.filter, L.always x.layer) };
}
