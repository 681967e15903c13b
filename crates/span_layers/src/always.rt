//! Layers that can be called without a premise.
ghost use Rattle.span_filters.specs.laws.Option.{each_part};
ghost use Rattle.span_layers.specs.laws.List.{each_member};

use crate::identity::Identity;
use crate::layer::Layer;
use crate::observe::{Observe, Observer};
use span_core::LevelFilter;
use span_registry::Subscriber;

/// A layer that can be called without a premise, since no closure is in it. On an `AlwaysUsable`
/// stack it makes one more.
///
/// Own to this port.
pub trait AlwaysUsableLayer<S: Subscriber>: Layer<S> {
    /// The layer may be asked and notified, whatever has become of it.
    ghost always: { (x : Self) → Self.usable x };
}

/// An observer that can be called without a premise, since no closure is in it.
///
/// Own to this port.
pub trait AlwaysUsableObserver<S: Subscriber>: Observe<S> {
    /// The observer may be notified, whatever has become of it.
    ghost always: { (x : Self) → Self.usable x };
}

impl<S: Subscriber, T: AlwaysUsableObserver<S>> AlwaysUsableLayer<S> for Observer<T> {
    ghost always = { λ x. T.always x.observer };
}

impl<S: Subscriber> AlwaysUsableLayer<S> for Identity {
    ghost always = { λ x. tt };
}

impl<S: Subscriber> AlwaysUsableLayer<S> for LevelFilter {
    ghost always = { λ x. tt };
}

impl<S: Subscriber, L: AlwaysUsableLayer<S>> AlwaysUsableLayer<S> for Option<L> {
    ghost always = { each_part L.always };
}

impl<S: Subscriber, L: AlwaysUsableLayer<S>> AlwaysUsableLayer<S> for Vec<L> {
    ghost always = { λ x. each_member L.always x.items };
}

impl<S: Subscriber, L: AlwaysUsableLayer<S>> AlwaysUsableLayer<S> for Box<L> {
    ghost always = { λ x. L.always x.value };
}
