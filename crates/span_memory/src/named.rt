//! A test of a name, of which a copy takes memory.
ghost use Rattle.span_memory.specs.Named.{is_named};
ghost use Rattle.std.specs.Prelude.{◌≡◌, IfOk, ⊤};

use span_core::{Interest, Metadata};
use span_filters::{Function, FunctionIn};
use span_registry::Context;
use std::alloc::{AllocError, Global};
use std::marker::Model;

/// A test of a name, seen as the bytes of that name. A copy of it takes memory: that of a closure
/// takes none.
#[derive(Debug, Drop)]
pub struct Named {
    name: String,
}

impl Model for Named {
    ghost use Rattle.std.specs.Prelude.{List, string_bytes, ℕ};

    ghost Value = { List ℕ };

    ghost view = { λ a. string_bytes a.name };
}

impl Named {
    /// Whether it is this name.
    pub(crate) fn new(alloc: Global, name: &str) -> Result<Named, AllocError>
        ensures { IfOk result (λ named. named ≡ name.now) }
    {
        Ok(Named {
            name: String::from_str(alloc, name)?,
        })
    }

    /// Whether the metadata have the name.
    fn is_of(&self, meta: &Metadata) -> bool
        ensures { result ≡ is_named self.now meta.now }
    {
        meta.name() == self.name.as_str()
    }
}

impl Clone for Named {
    ghost is_clone = { λ named copy. copy ≡ named };

    fn clone(&self) -> Result<Named, AllocError> {
        let name = self.name.clone()?;
        Ok(Named { name })
    }
}

impl Function<Metadata, bool> for Named {
    ghost callable = { λ f. ⊤ };

    ghost gives = { λ f m r. r ≡ is_named f m };

    fn apply(&self, value: &Metadata) -> bool {
        self.is_of(value)
    }
}

impl Function<Metadata, Interest> for Named {
    ghost callable = { λ f. ⊤ };

    ghost gives = { λ f m r. ⊤ };

    fn apply(&self, value: &Metadata) -> Interest {
        if self.is_of(value) {
            Interest::Always
        } else {
            Interest::Never
        }
    }
}

impl<S> FunctionIn<Metadata, S, bool> for Named {
    ghost callable_in = { λ f. ⊤ };

    ghost gives_in = { λ f m c r. r ≡ is_named f m };

    fn apply_in(&self, value: &Metadata, _cx: &Context<'_, S>) -> bool {
        self.is_of(value)
    }
}
