//! A time in front of each line.
ghost use Rattle.std.specs.Prelude.{◌≡◌, IfOk, OnOk, false, string_bytes};
ghost use Rattle.span_stream.specs.Stamp.{IsStamped, WritesStamp, clock_of, form_of, is_dimmed, stamped_gives, stamped_misses, style_of};

use crate::time::{TimeStyle, write_time};
use span_fmt::Form;
use span_registry::{ContextMut, Notice, Subscriber};
use span_times::Now;
use std::alloc::{AllocError, Global};

/// The lines of a form, each behind the time at which it was written and a space.
///
/// Where the form gives no line, the clock isn't read.
///
/// Stands for `tracing_subscriber::fmt::Layer::with_timer`.
pub struct Stamped<F, C> {
    alloc: Global,
    form: F,
    clock: C,
    style: TimeStyle,
    ansi: bool,
}

impl<F: Drop, C: Drop> Drop for Stamped<F, C> {
    fn drop(self) {
        let Stamped {
            alloc,
            form,
            clock,
            style,
            ansi,
        } = self;
    }
}

impl<F, C: Now> Stamped<F, C> {
    /// The lines of this form, with times by this clock, shown in this style.
    pub fn new(alloc: Global, form: F, clock: C, style: TimeStyle) -> Stamped<F, C>
        ensures form { form_of result ≡ form }
        ensures clock { clock_of result ≡ clock }
        ensures style { style_of result ≡ style }
        ensures plain { is_dimmed result ≡ false }
    {
        Stamped {
            alloc,
            form,
            clock,
            style,
            ansi: false,
        }
    }

    /// The same, and times are dimmed, for terminals, or not.
    ///
    /// Stands for `tracing_subscriber::fmt::Layer::with_ansi`.
    pub fn with_ansi(mut self, ansi: bool) -> Stamped<F, C>
        ensures form { form_of result ≡ form_of self }
        ensures clock { clock_of result ≡ clock_of self }
        ensures style { style_of result ≡ style_of self }
        ensures dimmed { is_dimmed result ≡ ansi }
    {
        self.ansi = ansi;
        self
    }
}

impl<S: Subscriber, F: Form<S>, C: Now> Form<S> for Stamped<F, C> {
    ghost gives = { stamped_gives F.gives C.latest C.gives };

    ghost misses = { stamped_misses F.gives F.misses C.latest C.gives };

    fn line(
        &mut self,
        notice: Notice<'_, '_>,
        ctx: &ContextMut<'_, S>,
    ) -> Result<String, AllocError> {
        match self.form.line(notice, ctx) {
            Ok(line) if line.is_empty() => Ok(line),
            Ok(line) => {
                let time = self.clock.now();
                behind_time(self.alloc, self.style, self.ansi, time, line.as_str())
            }
            Err(error) => Err(error),
        }
    }
}

/// A line behind a time and a space.
fn behind_time(
    alloc: Global,
    style: TimeStyle,
    ansi: bool,
    time: u64,
    line: &str,
) -> Result<String, AllocError>
    ensures { IfOk result (λ text. IsStamped style ansi time line.now (string_bytes text)) }
{
    let mut text = String::new(alloc);
    write_stamp(&mut text, style, ansi, time)?;
    text.push_str(" ")?;
    text.push_str(line)?;
    Ok(text)
}

/// Writes a time, dimmed where that is asked for.
fn write_stamp(text: &mut String, style: TimeStyle, ansi: bool, time: u64) -> Result<(), AllocError>
    ensures { OnOk result (WritesStamp style ansi time text.old text.new) }
{
    if !ansi {
        return write_time(text, style, time);
    }
    text.push_str("\x1b[2m")?;
    write_time(text, style, time)?;
    text.push_str("\x1b[0m")
}
