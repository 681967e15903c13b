//! Functions that filters are made of: closures, and what stands where there is none.
ghost use Rattle.std.specs.Fn.{FnReturnsAt};
ghost use Rattle.std.specs.Prelude.{◌≡◌, Bool, ⊤};
ghost use Rattle.span_core.specs.declared.interest.Interest.TheVariants.{Sometimes};
ghost use Rattle.span_filters.specs.Function.{ReturnsIn};
ghost use Rattle.span_registry.specs.declared.context.Context.{Context};

use span_core::{Interest, Metadata};
use span_registry::Context;

/// A function of a value. Every closure of a reference is one.
///
/// Stands for the bound `Fn(&T) -> R`, which can't be called yet where `T` holds a `&'static str`,
/// as metadata do.
pub trait Function<T, R> {
    /// The function may be called, of every value.
    ghost callable: { Self → Type 0 };

    /// What the function may give of a value.
    ghost gives: { Self → T → R → Type 0 };

    /// Calls the function.
    fn apply(&self, value: &T) -> R
        requires { callable self.now }
        ensures { gives self.now value.now result };
}

impl<T, R, F: Fn(&T) -> R> Function<T, R> for F {
    ghost callable = { λ f. F.IsAlwaysCallable f };

    ghost gives = { λ f x r. FnReturnsAt F.Fn f x r };

    fn apply(&self, value: &T) -> R {
        self(value)
    }
}

/// A function of a value and a context. Every closure of references to both is one.
pub trait FunctionIn<T, S, R> {
    /// The function may be called, of every value in every context.
    ghost callable_in: { Self → Type 0 };

    /// What the function may give of a value in a context.
    ghost gives_in: { Self → T → Context S → R → Type 0 };

    /// Calls the function.
    fn apply_in(&self, value: &T, cx: &Context<'_, S>) -> R
        requires { callable_in self.now }
        ensures { gives_in self.now value.now cx.now result };
}

impl<T, S, R, F: Fn(&T, &Context<'_, S>) -> R> FunctionIn<T, S, R> for F {
    ghost callable_in = { λ f. F.IsAlwaysCallable f };

    ghost gives_in = { λ f x c r. ReturnsIn F.Fn f x c r };

    fn apply_in(&self, value: &T, cx: &Context<'_, S>) -> R {
        self(value, cx)
    }
}

/// Stands where a filter has no closure for its interest.
#[derive(Clone, Copy, Drop)]
pub struct NoCallsite;

impl Function<Metadata, Interest> for NoCallsite {
    ghost callable = { λ f. ⊤ };

    ghost gives = { λ f m r. r ≡ Sometimes };

    fn apply(&self, _value: &Metadata) -> Interest {
        Interest::Sometimes
    }
}
