//! Stacks whose outermost layer is an observer that can be changed between calls.
ghost use Rattle.std.specs.Fn.{FnOnceReturnsAtMut};
ghost use Rattle.std.specs.Prelude.{◌≡◌};
ghost use Rattle.span_layers.specs.Observe.{observer_of, with_observer};
ghost use Rattle.span_stacks.specs.Layered.{outer_of, with_outer};

use span_layers::{AlwaysUsableObserver, Observer};
use span_registry::Subscriber;
use span_stacks::Layered;

/// A stack whose outermost layer is an observer, without a filter, that can be changed between
/// calls: whatever becomes of it, the stack can be called, and is the same but for that.
///
/// Own to this port.
pub trait HasObserver: Subscriber {
    /// The observer: a timeline, a stream of lines or one of a program's own.
    type Observer;

    /// The observer, as the stack has it.
    ghost observer: { Self → Self.Observer };

    /// The stack with another observer.
    ghost replaced: { Self → Self.Observer → Self };

    /// Does something with the observer.
    fn with_observer<A, F: FnOnce(&mut Self::Observer) -> A>(&mut self, body: F) -> A
        requires usable { Self.usable self.old }
        requires callable { F.IsAlwaysCallable body }
        ensures usable { Self.usable self.new }
        ensures registry { Self.registry self.new ≡ Self.registry self.old }
        ensures rest { self.new ≡ replaced self.old (observer self.new) }
        ensures changed { FnOnceReturnsAtMut F.FnOnce body (observer self.old) result
            (observer self.new) };
}

impl<S: Subscriber, T: AlwaysUsableObserver<S>> HasObserver for Layered<Observer<T>, S> {
    type Observer = T;

    ghost observer = { λ x. observer_of (outer_of x) };

    ghost replaced = { λ x t. with_outer x (with_observer (outer_of x) t) };

    fn with_observer<A, F: FnOnce(&mut T) -> A>(&mut self, body: F) -> A {
        body(self.outer_mut().observer_mut())
    }
}
