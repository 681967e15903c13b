//! Lines in the colours of their levels, for terminals.
ghost use Rattle.std.specs.Prelude.{◌≡◌, IfOk, string_bytes};
ghost use Rattle.span_core.specs.Span.{number_of};
ghost use Rattle.span_registry.specs.Context.{view_lent};
ghost use Rattle.span_registry.specs.Notice.{notice_of};
ghost use Rattle.span_stream.specs.Painted.{IsColoured, IsPainted, colour_of, inner_of, is_coloured, level_shown, painted_gives, painted_misses, span_level};

use span_core::{Id, Level};
use span_fmt::Form;
use span_registry::{ContextMut, Notice, Subscriber, laws};
use std::alloc::{AllocError, Global};

/// The lines of a form, each in the colour of its level where colours are asked for, as terminals
/// show it.
///
/// It is for forms whose lines have no parts to colour, as those of trees and of `Lines`: a
/// `Format` and a `Stamped` colour parts of theirs, by their `with_ansi`.
pub struct Painted<F> {
    alloc: Global,
    form: F,
    colours: bool,
}

impl<F: Drop> Drop for Painted<F> {
    fn drop(self) {
        let Painted {
            alloc,
            form,
            colours,
        } = self;
    }
}

impl<F> Painted<F> {
    /// The lines of this form, in colours or as they are.
    pub fn new(alloc: Global, form: F, colours: bool) -> Painted<F>
        ensures form { inner_of result ≡ form }
        ensures colours { is_coloured result ≡ colours }
    {
        Painted {
            alloc,
            form,
            colours,
        }
    }
}

impl<S: Subscriber, F: Form<S>> Form<S> for Painted<F> {
    ghost gives = { painted_gives F.gives };

    ghost misses = { painted_misses F.gives F.misses };

    fn line(
        &mut self,
        notice: Notice<'_, '_>,
        ctx: &ContextMut<'_, S>,
    ) -> Result<String, AllocError> {
        laws::extensions_change_no_look_up();
        match self.form.line(notice, ctx) {
            Ok(line) if self.colours => paint(self.alloc, level_shown(notice, ctx), line.as_str()),
            other => other,
        }
    }
}

/// The level of an event, or of a span that a hook sees.
fn level_shown<S: Subscriber>(notice: Notice<'_, '_>, ctx: &ContextMut<'_, S>) -> Option<Level>
    ensures { result ≡ level_shown (notice_of notice.entry) (view_lent S.registry ctx.now) }
{
    match notice {
        Notice::Event(event) => Some(event.metadata().level()),
        Notice::NewSpan(_, id) => span_level(id, ctx),
        Notice::Record(id, _) => span_level(id, ctx),
        Notice::Close(id) => span_level(id, ctx),
        _ => None,
    }
}

/// The level of a span that a hook sees.
fn span_level<S: Subscriber>(id: Id, ctx: &ContextMut<'_, S>) -> Option<Level>
    ensures { result ≡ span_level (number_of id) (view_lent S.registry ctx.now) }
{
    match ctx.metadata(id) {
        Some(metadata) => Some(metadata.level()),
        None => None,
    }
}

/// A line in the colour of a level, if there is one.
fn paint(alloc: Global, level: Option<Level>, line: &str) -> Result<String, AllocError>
    ensures { IfOk result (λ text. IsPainted level line.now (string_bytes text)) }
{
    match level {
        Some(level) => in_colour(alloc, colour(level), line),
        None => String::from_str(alloc, line),
    }
}

/// A line behind what begins a colour, and its line feed behind what ends the colour.
fn in_colour(alloc: Global, colour: &str, line: &str) -> Result<String, AllocError>
    ensures { IfOk result (λ text. IsColoured colour.now line.now (string_bytes text)) }
{
    let Some(words) = line.strip_suffix('\n') else {
        return String::from_str(alloc, line);
    };
    let mut text = String::from_str(alloc, colour)?;
    text.push_str(words)?;
    text.push_str("\x1b[0m\n")?;
    Ok(text)
}

/// What begins the colour of a level, as the crate has them.
fn colour(level: Level) -> &'static str
    ensures { result.now ≡ colour_of level }
{
    if level == Level::ERROR {
        "\x1b[31m"
    } else if level == Level::WARN {
        "\x1b[33m"
    } else if level == Level::INFO {
        "\x1b[32m"
    } else if level == Level::DEBUG {
        "\x1b[34m"
    } else {
        "\x1b[35m"
    }
}
