//! A layer that tells what a layer with one method isn't told: that it is put in use, and that ids
//! change.
ghost use Rattle.std.specs.Prelude.{◌≡◌, ⊤, true};
ghost use Rattle.span_layers.specs.Acts.{LeafActs};
ghost use Rattle.span_layers.specs.laws.Leaf.{is_leaf, any_laws};
ghost use Rattle.span_layers.specs.laws.Path.{leaf_path_laws};
ghost use Rattle.span_layers.specs.Layer.{HearsBy, AnySteps};
ghost use Rattle.span_layers.specs.laws.Reload.{leaf_reloads};
ghost use Rattle.span_layers.specs.Observe.{open_answers};
ghost use Rattle.span_registry.specs.Context.{WritesExtensions};
ghost use Rattle.span_registry.specs.Form.{Leaf};
ghost use Rattle.span_registry.specs.Reload.{unreloaded};

use span_core::{Event, Id, Interest, LevelFilter, Metadata, Pass};
use span_layers::Layer;
use span_registry::{Context, ContextMut, Notice, Subscriber, Tag};
use span_targets::Setting;

/// Writes its digit behind those in the extensions of a span that is new, is entered or gets
/// another id, once it is in use. Counts how often it is put in use, and the events and the changes
/// of ids that it is told of.
#[derive(Drop)]
pub(crate) struct Signer {
    digit: u64,
    pub(crate) in_use: u32,
    pub(crate) events: u32,
    pub(crate) changes: u32,
}

impl Signer {
    /// A signer that isn't in use yet.
    pub(crate) fn new(digit: u64) -> Signer {
        Signer {
            digit,
            in_use: 0,
            events: 0,
            changes: 0,
        }
    }
}

/// The tag of what signers write.
pub(crate) fn signed() -> Tag<u64> {
    Tag::new(0)
}

/// Writes a signer's digit behind those of a span, as far as there is memory.
fn sign<S: Subscriber>(signer: &Signer, id: Id, ctx: &mut ContextMut<'_, S>)
    ensures { WritesExtensions S.registry S.with_registry ctx.old ctx.new }
{
    if signer.in_use == 0 {
        return;
    }
    let Some(mut extensions) = ctx.extensions_mut(id) else {
        return;
    };
    let before = match extensions.get_mut(signed()) {
        Some(digits) => *digits,
        None => 0,
    };
    let digits = before.saturating_mul(10).saturating_add(signer.digit);
    let _ = extensions.replace(signed(), digits);
}

impl<S: Subscriber> Layer<S> for Signer {
    ghost has_form = { λ x f. f ≡ Leaf true open_answers };

    ghost stepped = { AnySteps };

    ghost hears = { HearsBy AnySteps };

    ghost acts_at = { LeafActs };

    ghost reloaded = { unreloaded };

    ghost registered = { λ x y. ⊤ };

    ghost attached = { λ x y. y ≡ x };

    ghost laws = { any_laws (Leaf true open_answers) (λ x y. ⊤) tt };

    ghost paths = { leaf_path_laws (λ x f h. is_leaf h) };

    ghost reloads = { leaf_reloads (any_laws (Leaf true open_answers) (λ x y. ⊤) tt) };

    fn on_register_dispatch(&mut self) {
        self.in_use = self.in_use.saturating_add(1);
    }

    fn on_layer(&mut self, _subscriber: &mut S) {}

    fn register_callsite(&self, _meta: &Metadata, _pass: &mut Pass) -> Interest {
        Interest::Always
    }

    fn enabled(&self, _meta: &Metadata, _ctx: &Context<'_, S>, _pass: &mut Pass) -> bool {
        true
    }

    fn event_enabled(&self, _event: &Event<'_>, _ctx: &Context<'_, S>, _pass: &mut Pass) -> bool {
        true
    }

    fn max_level_hint(&self) -> Option<LevelFilter> {
        None
    }

    fn filter_count(&self) -> u32 {
        0
    }

    fn is_filtered(&self) -> bool {
        false
    }

    fn is_absent(&self) -> bool {
        false
    }

    fn notify(&mut self, notice: Notice<'_, '_>, ctx: &mut ContextMut<'_, S>) {
        match notice {
            Notice::NewSpan(_, id) | Notice::Enter(id) => sign(self, id, ctx),
            Notice::Event(_) => self.events = self.events.saturating_add(1),
            Notice::IdChange(id, _) => {
                self.changes = self.changes.saturating_add(1);
                sign(self, id, ctx);
            }
            _ => {}
        }
    }

    fn reload(&mut self, _number: u32, _setting: Setting) -> bool {
        false // No filter is in it.
    }
}
