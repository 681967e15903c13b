//! An outer part over an inner one.
ghost use Rattle.std.specs.Borrow.{Lends, sem};
ghost use Rattle.std.specs.Prelude.{◌≡◌, ◌&&◌, if◌then◌else◌};
ghost use Rattle.span_stacks.specs.Acts.{LayeredActs};
ghost use Rattle.span_stacks.specs.laws.Path.{pair_path_laws};
ghost use Rattle.span_stacks.specs.Reload.{LayeredReloads};
ghost use Rattle.span_stacks.specs.laws.Reload.{layered_reloads};
ghost use Rattle.span_stacks.specs.contracts.layered.Layered.{the_row};
ghost use Rattle.span_core.specs.Level.{greater_hint};
ghost use Rattle.span_core.specs.declared.interest.Interest.TheVariants.{Sometimes};
ghost use Rattle.span_stacks.specs.laws.Pair.{pair_laws};
ghost use Rattle.span_layers.specs.Parts.{PartsForm};
ghost use Rattle.span_stacks.specs.Layered.{LayeredHears, PairSteps, inner_of, outer_of, with_inner, with_outer};
ghost use Rattle.span_registry.specs.Form.{InPair};
ghost use Rattle.span_registry.specs.Question.{hint_by, is_never};

use span_core::{Event, Interest, LevelFilter, Metadata, Pass};
use span_layers::Layer;
use span_registry::{Context, ContextMut, Notice, Subscriber};
use span_targets::Setting;

/// An outer part over an inner one: a layer where both are layers, a stack where the inner one is a
/// stack.
///
/// Stands for `tracing_subscriber::layer::Layered`.
#[derive(Debug, Drop)]
pub struct Layered<L, I> {
    pub(crate) layer: L,
    pub(crate) inner: I,
}

impl<L, I> Layered<L, I> {
    /// The outer part of the two, as it now is.
    pub fn outer(&self) -> &L
        ensures { result.now ≡ outer_of self.now }
    {
        &self.layer
    }

    /// The outer part of the two, to be changed.
    pub fn outer_mut(&mut self) -> &mut L
        ensures* writes_back { sem 𝓛
            (Lends (the_row L.row I.row) L.row self.entry result (with_outer self.old)) }
        ensures value { result.now ≡ outer_of self.old }
    {
        &mut self.layer
    }

    /// The inner part of the two, as it now is.
    pub fn inner(&self) -> &I
        ensures { result.now ≡ inner_of self.now }
    {
        &self.inner
    }

    /// The inner part of the two, to be changed.
    pub fn inner_mut(&mut self) -> &mut I
        ensures* writes_back { sem 𝓛
            (Lends (the_row L.row I.row) I.row self.entry result (with_inner self.old)) }
        ensures value { result.now ≡ inner_of self.old }
    {
        &mut self.inner
    }

    /// The outer part and the inner one, taken apart.
    pub fn into_parts(self) -> (L, I)
        ensures outer { result.0 ≡ outer_of self }
        ensures inner { result.1 ≡ inner_of self }
    {
        (self.layer, self.inner)
    }
}

/// What a part says of levels: its hint, and whether it is marked or absent.
#[derive(Clone, Copy)]
pub(crate) struct Hinted {
    pub(crate) hint: Option<LevelFilter>,
    pub(crate) marked: bool,
    pub(crate) absent: bool,
}

/// The greater of the two hints; none is below every other.
fn greater_of(h: Option<LevelFilter>, k: Option<LevelFilter>) -> Option<LevelFilter>
    ensures { result ≡ greater_hint h k }
{
    match (h, k) {
        (Some(f), Some(g)) => Some(if f <= g { g } else { f }),
        (Some(f), None) => Some(f),
        (None, other) => other,
    }
}

/// The hint of an outer part over an inner one that is no registry: the first rule that fits.
pub(crate) fn hint_over(outer: Hinted, inner: Hinted) -> Option<LevelFilter>
    ensures { result ≡ hint_by outer.marked inner.marked outer.absent inner.absent outer.hint
        inner.hint }
{
    if outer.marked && inner.marked {
        return match (outer.hint, inner.hint) {
            (Some(_), Some(_)) => greater_of(outer.hint, inner.hint),
            _ => None,
        };
    }
    if outer.marked && inner.hint.is_none() {
        return None;
    }
    if inner.marked && outer.hint.is_none() {
        return None;
    }
    if outer.absent && inner.hint.is_none() {
        return None;
    }
    if !outer.absent && inner.absent && inner.hint == Some(LevelFilter::OFF) {
        return outer.hint;
    }
    greater_of(outer.hint, inner.hint)
}

/// The inner part's interest under an outer `always`: a `never` becomes `sometimes` where the inner
/// part is marked, or is the registry.
pub(crate) fn calmed(inner: Interest, calm: bool) -> Interest
    ensures { result ≡ if is_never inner && calm then Sometimes else inner }
{
    if calm && inner.is_never() {
        return Interest::Sometimes;
    }
    inner
}

impl<S: Subscriber, L: Layer<S>, I: Layer<S>> Layer<S> for Layered<L, I> {
    ghost usable = { λ x. L.usable x.layer × I.usable x.inner };

    ghost has_form = { λ x. PartsForm InPair (L.has_form x.layer) (I.has_form x.inner) };

    ghost stepped = { λ x p e lane under v y w.
        PairSteps L.stepped I.stepped x.layer x.inner p e lane under v y.layer y.inner w };

    ghost hears = { λ x place h y.
        LayeredHears L.hears I.hears x.layer x.inner place h y.layer y.inner };

    ghost acts_at = { λ x. LayeredActs L.acts_at I.acts_at x.layer x.inner };

    ghost reloaded = { λ x n l y.
        LayeredReloads L.reloaded I.reloaded x.layer x.inner n l y.layer y.inner };

    ghost registered = { λ x y. L.registered x.layer y.layer × I.registered x.inner y.inner };

    ghost attached = { λ x y. L.attached x.layer y.layer × I.attached x.inner y.inner };

    ghost laws = { pair_laws L.laws I.laws (λ x. x.layer) (λ x. x.inner) };

    ghost paths = { pair_path_laws L.paths I.paths (λ x. x.layer) (λ x. x.inner) };

    ghost reloads = { layered_reloads L.reloads I.reloads InPair (λ x. x.layer) (λ x. x.inner) };

    fn on_register_dispatch(&mut self) {
        self.layer.on_register_dispatch();
        self.inner.on_register_dispatch();
    }

    fn on_layer(&mut self, subscriber: &mut S) {
        self.layer.on_layer(subscriber);
        self.inner.on_layer(subscriber);
    }

    fn register_callsite(&self, meta: &Metadata, pass: &mut Pass) -> Interest {
        let outer = self.layer.register_callsite(meta, pass);
        if self.layer.is_filtered() {
            return self.inner.register_callsite(meta, pass);
        }
        let calm = self.inner.is_filtered();
        match outer {
            Interest::Never => {
                pass.clear_interest();
                Interest::Never
            }
            Interest::Sometimes => {
                self.inner.register_callsite(meta, pass);
                Interest::Sometimes
            }
            Interest::Always => calmed(self.inner.register_callsite(meta, pass), calm),
        }
    }

    fn enabled(&self, meta: &Metadata, ctx: &Context<'_, S>, pass: &mut Pass) -> bool {
        if !self.layer.enabled(meta, ctx, pass) {
            return false;
        }
        self.inner.enabled(meta, ctx, pass)
    }

    fn event_enabled(&self, event: &Event<'_>, ctx: &Context<'_, S>, pass: &mut Pass) -> bool {
        if !self.layer.event_enabled(event, ctx, pass) {
            return false;
        }
        self.inner.event_enabled(event, ctx, pass)
    }

    fn max_level_hint(&self) -> Option<LevelFilter> {
        let outer = Hinted {
            hint: self.layer.max_level_hint(),
            marked: self.layer.is_filtered(),
            absent: self.layer.is_absent(),
        };
        let inner = Hinted {
            hint: self.inner.max_level_hint(),
            marked: self.inner.is_filtered(),
            absent: self.inner.is_absent(),
        };
        hint_over(outer, inner)
    }

    fn filter_count(&self) -> u32 {
        self.layer
            .filter_count()
            .saturating_add(self.inner.filter_count())
    }

    fn is_filtered(&self) -> bool {
        self.layer.is_filtered() && self.inner.is_filtered()
    }

    fn is_absent(&self) -> bool {
        self.layer.is_absent() || self.inner.is_absent()
    }

    #[inline(always)]
    fn notify(&mut self, notice: Notice<'_, '_>, ctx: &mut ContextMut<'_, S>) {
        self.inner.notify(notice, ctx);
        self.layer.notify(notice, ctx);
    }

    fn reload(&mut self, number: u32, setting: Setting) -> bool {
        let outer = self.layer.reload(number, setting);
        let inner = self.inner.reload(number, setting);
        outer || inner
    }
}
