//! The layer that keeps what a `SpanTrace` is made of.
ghost use Rattle.std.specs.Prelude.{◌≡◌, false};
ghost use Rattle.span_core.specs.Span.{number_of};
ghost use Rattle.span_error.specs.Kept.{TakesFields, error_layer_steps, has_failed};
ghost use Rattle.span_fmt.specs.Text.{fields_text};
ghost use Rattle.span_registry.specs.Context.{WritesExtensions, subscriber_lent, view_lent};

use crate::kept::keep;
use span_core::{FieldValue, Id};
use span_layers::{AlwaysUsableObserver, Observe};
use span_registry::{ContextMut, ExtensionValue, Notice, Subscriber};
use std::alloc::Global;

/// A layer that keeps the text of each span's fields in the span's extensions, for a `SpanTrace`:
/// those of the new span, and behind them those that are recorded.
///
/// Stands for `tracing_error::ErrorLayer`.
pub struct ErrorLayer {
    alloc: Global,
    failed: bool,
}

impl Drop for ErrorLayer {
    fn drop(self) {
        let ErrorLayer { alloc, failed } = self;
    }
}

impl ErrorLayer {
    /// A layer that has kept nothing yet.
    pub fn new(alloc: Global) -> ErrorLayer
        ensures { has_failed result ≡ false }
    {
        ErrorLayer {
            alloc,
            failed: false,
        }
    }

    /// Whether no memory was found for some fields: traces of their spans lack them.
    pub fn failed(&self) -> bool
        ensures { result ≡ has_failed self.now }
    {
        self.failed
    }

    /// Keeps fields that a span is given, if the span is shown and memory is found for them.
    fn take<S: Subscriber>(
        &mut self,
        id: Id,
        values: &[(&'static str, FieldValue<'_>)],
        ctx: &mut ContextMut<'_, S>,
    )
        ensures written { WritesExtensions S.registry S.with_registry ctx.old ctx.new }
        ensures taken { TakesFields ⟦<String as ExtensionValue>⟧.place (number_of id)
            (fields_text values.now) (view_lent S.registry ctx.old)
            self.old (S.registry (subscriber_lent ctx.old))
            self.new (S.registry (subscriber_lent ctx.new)) }
    {
        let Some(extensions) = ctx.extensions_mut(id) else {
            return;
        };
        if keep(self.alloc, extensions, values).is_err() {
            self.failed = true;
        }
    }
}

impl<S: Subscriber> Observe<S> for ErrorLayer {
    ghost observed = { error_layer_steps ⟦<String as ExtensionValue>⟧.place };

    fn observe(&mut self, notice: Notice<'_, '_>, ctx: &mut ContextMut<'_, S>) {
        match notice {
            Notice::NewSpan(attrs, id) => self.take(id, attrs.values(), ctx),
            Notice::Record(id, values) => self.take(id, values.values(), ctx),
            _ => {}
        }
    }
}

impl<S: Subscriber> AlwaysUsableObserver<S> for ErrorLayer {
    ghost always = { λ x. tt };
}
