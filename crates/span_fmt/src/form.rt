//! What is written of a notice, whatever it is written to.
ghost use Rattle.std.specs.Prelude.{IfOk, OnErr, string_bytes};
ghost use Rattle.span_registry.specs.Notice.{notice_of};
ghost use Rattle.span_fmt.specs.Form.{FormMisses, FormSteps, plainly_lent};

use span_registry::{ContextMut, Notice, Subscriber};
use std::alloc::AllocError;

/// What is written of a notice, whatever it is written to. `Stream` hands it to a writer.
///
/// Stands for `tracing_subscriber::fmt::FormatEvent`, and writes lines of other notices too.
pub trait Form<S: Subscriber> {
    /// What the form gives of a notice, in what is shown, extensions aside, and how it goes on
    /// then.
    ghost gives: { FormSteps Self };

    /// How the form goes on where it finds no memory.
    ghost misses: { FormMisses Self };

    /// The line of a notice, or several that go together, with its line feed; an empty text where
    /// nothing is to be written.
    fn line(
        &mut self,
        notice: Notice<'_, '_>,
        ctx: &ContextMut<'_, S>,
    ) -> Result<String, AllocError>
        ensures given { IfOk result (λ line. gives self.old (notice_of notice.entry)
            (plainly_lent S.registry ctx.now) (string_bytes line) self.new) }
        ensures missed { OnErr result (misses self.old (notice_of notice.entry)
            (plainly_lent S.registry ctx.now) self.new) };
}
