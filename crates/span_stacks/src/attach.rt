//! Layers are put together, under filters, and on a subscriber.
ghost use Rattle.std.specs.Prelude.{◌≡◌, IfErr, IfOk};
ghost use Rattle.span_stacks.specs.Attach.{Attaches, IsHandedBack, IsPair};
ghost use Rattle.span_stacks.specs.Filtered.{IsUnnumbered};

use crate::filtered::Filtered;
use crate::layered::Layered;
use span_core::{FilterId, TraceError};
use span_layers::Layer;
use span_registry::{LookupSpan, Subscriber};
use std::error::Error;
use std::fmt;

/// A layer that wasn't put on a subscriber, since there is no room for its filters, with that
/// subscriber.
#[derive(Drop)]
pub struct Unattached<L, S> {
    /// The layer, unchanged.
    pub layer: L,
    /// The subscriber, unchanged.
    pub subscriber: S,
    /// Why the layer wasn't put on the subscriber: `TooManyFilters`.
    pub error: TraceError,
}

impl<L, S> fmt::Display for Unattached<L, S> {
    fn fmt<W: fmt::Write>(&self, f: &mut fmt::Formatter<W>) -> fmt::Result {
        write!(f, "the layer wasn't put on: {}", self.error)
    }
}

/// The text shows neither part, so that this is an error also where a part has no `Debug`.
impl<L, S> fmt::Debug for Unattached<L, S> {
    fn fmt<W: fmt::Write>(&self, f: &mut fmt::Formatter<W>) -> fmt::Result {
        f.debug_struct("Unattached").finish_non_exhaustive()
    }
}

impl<L: Drop, S: Drop> Error for Unattached<L, S> {}

/// The layer and the subscriber are let go of.
impl<L: Drop, S: Drop> From<Unattached<L, S>> for TraceError {
    ghost from_gives = { λ back error. error ≡ back.error };

    fn from(back: Unattached<L, S>) -> TraceError {
        back.error
    }
}

/// Puts layers on a subscriber.
///
/// Stands for `tracing_subscriber::layer::SubscriberExt`.
pub trait SubscriberExt: Subscriber + Sized {
    /// Puts a layer on this subscriber, and gives the layer's filters the next numbers of its
    /// registry.
    ///
    /// Refused where the registry's filters and the layer's are more than 128 (`TooManyFilters`):
    /// then both come back unchanged.
    final fn with<L: Layer<Self>>(self, layer: L) -> Result<Layered<L, Self>, Unattached<L, Self>>
        requires layer { L.usable layer }
        requires subscriber { Self.usable self }
        ensures attached { IfOk result
            (Attaches Self.registry Self.with_registry Self.usable L.usable L.has_form L.attached
            layer self) }
        ensures refused { IfErr result (IsHandedBack Self.registry L.has_form layer self) }
    {
        let mut layer = layer;
        let mut subscriber = self;
        let used = u64::from(subscriber.root().filters()) + u64::from(layer.filter_count());
        if used > u64::from(FilterId::LIMIT) {
            return Err(Unattached {
                layer,
                subscriber,
                error: TraceError::TooManyFilters,
            });
        }
        layer.on_layer(&mut subscriber);
        Ok(Layered {
            layer,
            inner: subscriber,
        })
    }
}

impl<S: Subscriber> SubscriberExt for S {}

/// Puts layers together, under filters, and on a subscriber.
///
/// Stands for these methods of `tracing_subscriber::Layer`. They are methods of every type, since a
/// layer under a filter names no subscriber here.
pub trait LayerExt: Sized {
    /// Puts another layer outside this one.
    final fn and_then<L>(self, layer: L) -> Layered<L, Self>
        ensures { IsPair result layer self }
    {
        Layered { layer, inner: self }
    }

    /// Puts this layer under a filter, which gets its number from a subscriber.
    final fn with_filter<F>(self, filter: F) -> Filtered<Self, F>
        ensures { IsUnnumbered result self filter }
    {
        Filtered::new(self, filter)
    }

    /// Puts this layer on a subscriber, as `SubscriberExt::with` does.
    final fn with_subscriber<S: Subscriber>(
        self,
        subscriber: S,
    ) -> Result<Layered<Self, S>, Unattached<Self, S>>
    where
        Self: Layer<S>,
        requires layer { Self.usable self }
        requires subscriber { S.usable subscriber }
        ensures attached { IfOk result
            (Attaches S.registry S.with_registry S.usable Self.usable Self.has_form Self.attached
            self subscriber) }
        ensures refused { IfErr result (IsHandedBack S.registry Self.has_form self subscriber) }
    {
        subscriber.with(self)
    }
}

impl<T> LayerExt for T {}
