//! A tree's lines, with the spans round a line again where lanes interleave.
ghost use Rattle.std.specs.Prelude.{◌≡◌, ◌≢◌, IfErr, IfOk, OnErr, OnOk, None, [], flat_map, map, reverse, string_bytes};
ghost use Rattle.span_registry.specs.Context.{view_lent};
ghost use Rattle.span_registry.specs.Notice.{notice_of};
ghost use Rattle.span_fmt.specs.Interleaved.{interleaved_gives, interleaved_misses, interleaved_text, is_other, lanes_named, last_lane, reference_text, spans_about};
ghost use Rattle.span_fmt.specs.Known.{nothing_known, with_text};
ghost use Rattle.span_fmt.specs.Lane.{names_in};
ghost use Rattle.span_fmt.specs.Tree.{given, notice_text};

use crate::fields::ROOM;
use crate::form::Form;
use crate::lane::LaneNames;
use crate::tree::{above, span_line, text_due};
use span_core::Lane;
use span_registry::{ContextMut, Notice, Scope, Subscriber, laws};
use std::alloc::{AllocError, Global};

/// The lines of a `Tree`. One of another lane than the line given before it stands behind a line of
/// each span round it that its own context shows: from the root on, with the mark `|`, and without
/// values. With the depth these grow by its square.
///
/// Where the line before was lost on its way to a writer, or is of the same lane but elsewhere in
/// the tree, no spans are shown again. All that is given of a notice is one line to a `Stamped` or a
/// `Painted`: the time stands in front of the first, and all have the notice's colour.
#[derive(Drop)]
pub struct InterleavedForm {
    alloc: Global,
    names: LaneNames,
    last: Option<Lane>,
}

impl InterleavedForm {
    /// The lines of a `Tree` that has no names of lanes. In front of the first no spans are shown.
    pub fn new(alloc: Global) -> InterleavedForm
        ensures names { lanes_named result ≡ nothing_known }
        ensures last { last_lane result ≡ None }
    {
        InterleavedForm {
            alloc,
            names: LaneNames::new(alloc),
            last: None,
        }
    }

    /// Gives a lane a name, which lines show; an empty one is none. Do so before the form goes into a
    /// `Stream`.
    pub fn name_lane(&mut self, lane: Lane, name: &str) -> Result<(), AllocError>
        ensures named { OnOk result
            (lanes_named self.new ≡ with_text lane.0 name.now (lanes_named self.old)) }
        ensures unchanged { OnErr result (lanes_named self.new ≡ lanes_named self.old) }
        ensures last { last_lane self.new ≡ last_lane self.old }
    {
        self.names.set(self.alloc, lane, name)
    }

    /// Whether the line before is of another lane than this.
    fn changes_to(&self, lane: Lane) -> bool
        ensures { result ≡ is_other (last_lane self.now) lane.0 }
    {
        match self.last {
            Some(last) => last != lane,
            None => false,
        }
    }

    /// What is written of a notice in what a hook sees.
    fn text_due<S: Subscriber>(
        &self,
        notice: Notice<'_, '_>,
        ctx: &ContextMut<'_, S>,
    ) -> Result<String, AllocError>
        ensures text { IfOk result (λ text. string_bytes text
            ≡ interleaved_text (lanes_named self.now) (last_lane self.now)
            (notice_of notice.entry) (view_lent S.registry ctx.now)) }
        ensures refused { IfErr result (λ e. notice_text (lanes_named self.now)
            (notice_of notice.entry) (view_lent S.registry ctx.now) ≢ []) }
    {
        let line = text_due(self.alloc, &self.names, notice, ctx)?;
        if line.as_str().is_empty() {
            return Ok(line);
        }
        if !self.changes_to(ctx.lane()) {
            return Ok(line);
        }
        let mut text = lines_of(self.alloc, &self.names, scope_about(notice, ctx), ctx)?;
        text.push_str(line.as_str())?;
        Ok(text)
    }
}

impl<S: Subscriber> Form<S> for InterleavedForm {
    ghost gives = { interleaved_gives };

    ghost misses = { interleaved_misses };

    fn line(
        &mut self,
        notice: Notice<'_, '_>,
        ctx: &ContextMut<'_, S>,
    ) -> Result<String, AllocError> {
        laws::extensions_change_no_look_up();
        let text = self.text_due(notice, ctx)?;
        if text.as_str().is_empty() {
            return Ok(text);
        }
        self.last = Some(ctx.lane());
        Ok(text)
    }
}

/// The spans that a hook sees round what a notice is about: above a span, round an event.
fn scope_about<'a, S: Subscriber>(
    notice: Notice<'_, '_>,
    ctx: &'a ContextMut<'_, S>,
) -> Option<Scope<'a, S>>
    ensures { map (λ r. r.id) (given S.registry result)
        ≡ spans_about (notice_of notice.entry) (view_lent S.registry ctx.now) }
{
    let look = ctx.ctx();
    match notice {
        Notice::NewSpan(_, id) => above(look.span_scope(id)),
        Notice::Record(id, _) => above(look.span_scope(id)),
        Notice::Close(id) => above(look.span_scope(id)),
        Notice::Event(event) => look.event_scope(event),
        _ => None,
    }
}

/// A line of each span of a scope, from the root on.
fn lines_of<S: Subscriber>(
    alloc: Global,
    names: &LaneNames,
    spans: Option<Scope<'_, S>>,
    ctx: &ContextMut<'_, S>,
) -> Result<String, AllocError>
    ensures { IfOk result (λ text. string_bytes text
        ≡ flat_map (reference_text (names_in names.now) (view_lent S.registry ctx.now))
        (reverse (given S.registry spans.entry))) }
{
    let Some(spans) = spans else {
        return Ok(String::new(alloc));
    };
    let mut text = String::with_capacity(alloc, ROOM)?;
    let Ok(spans) = spans.from_root(alloc) else {
        return Err(AllocError);
    };
    for span in spans {
        let line = span_line(alloc, names, "|", span.id(), &[], ctx)?;
        text.push_str(line.as_str())?;
    }
    Ok(text)
}
