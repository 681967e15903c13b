//! Layers over the registry as objects: what a box may hold.
ghost use Rattle.std.specs.Prelude.{◌≡◌, false, min};
ghost use Rattle.span_boxed.specs.Boxed.{ReloadsLawfully, RegistersLawfully, StepsLawfully};
ghost use Rattle.span_boxed.specs.Filter.{itself, replaced};
ghost use Rattle.span_layers.specs.Layer.{LayerEnabled, LayerEvent, LayerInterest, LayerSteps, Notified};
ghost use Rattle.span_layers.specs.Number.{TakesNumbers, filters_in};
ghost use Rattle.span_registry.specs.Conducts.{ActsAt};
ghost use Rattle.span_registry.specs.Context.{HandsOn, HasNoRefusalsUnlessAsked};
ghost use Rattle.span_registry.specs.Form.{Form, is_absent, is_marked};
ghost use Rattle.span_registry.specs.Reload.{ReloadSteps, takes_setting};
ghost use Rattle.span_registry.specs.Notice.{notice_of};
ghost use Rattle.span_registry.specs.Position.{HearSteps};
ghost use Rattle.span_registry.specs.Question.{ShowsBy, hint_of};

use span_core::{Event, Interest, LevelFilter, Metadata, Pass};
use span_layers::Layer;
use span_registry::{Context, ContextMut, Notice, Registry};
use span_targets::Setting;

/// A layer over the registry, as an object. Each `Layer<Registry>` that can be let go of is one.
///
/// The clauses are those of `Layer`: a registry that is handed on (`rest`) has other extensions
/// alone. An object brings no laws, so each call that notifies it, puts it in use or reloads it
/// says what the laws say of that, beside how the object goes on.
pub trait DynLayer: Drop {
    /// The layer may be asked and notified.
    ghost dyn_usable: { Self → Type 0 };

    /// The layer has this form.
    ghost dyn_form: { Self → Form → Type 0 };

    /// How the layer goes on when it is notified.
    ghost dyn_stepped: { LayerSteps Self };

    /// Which notices the leaf at a place was notified of, from one value of the object to another.
    ghost dyn_hears: { HearSteps Self };

    /// Which conducts the filters have on the path at a place.
    ghost dyn_acts_at: { ActsAt Self };

    /// How the layer goes on when a filter is reloaded.
    ghost dyn_reloaded: { ReloadSteps Self };

    /// How the layer goes on when it is put in use.
    ghost dyn_registered: { Self → Self → Type 0 };

    /// How the layer goes on when it is put on a registry, but for its filters' numbers.
    ghost dyn_attached: { Self → Self → Type 0 };

    /// Puts the layer in use.
    fn dyn_on_register_dispatch(&mut self)
        requires { dyn_usable self.old }
        ensures usable { dyn_usable self.new }
        ensures registered { RegistersLawfully dyn_form dyn_registered dyn_acts_at self.old
            self.new };

    /// Has the layer's filter with this number take a setting, and answers whether there is one
    /// that takes it. Else nothing changes.
    fn dyn_reload(&mut self, number: u32, setting: Setting) -> bool
        requires { dyn_usable self.old }
        ensures usable { dyn_usable self.new }
        ensures taken { ShowsBy (dyn_form self.old) (λ f. takes_setting f number setting) result }
        ensures reloaded { ReloadsLawfully dyn_form dyn_reloaded dyn_hears dyn_acts_at self.old
            number setting self.new }
        ensures unchanged { result ≡ false → self.new ≡ self.old };

    /// Gives the layer's filters the next numbers of the registry.
    fn dyn_on_layer(&mut self, root: &mut Registry)
        requires { dyn_usable self.old }
        ensures usable { dyn_usable self.new }
        ensures attached { dyn_attached self.old self.new }
        ensures numbers { TakesNumbers itself replaced dyn_form self.old root.old self.new
            root.new };

    /// The layer's interest in what a callsite with this metadata makes. The filters add their
    /// interests to the pass.
    fn dyn_register_callsite(&self, meta: &Metadata, pass: &mut Pass) -> Interest
        requires { dyn_usable self.now }
        ensures { LayerInterest dyn_form self.now meta.now pass.old result pass.new };

    /// Whether the layer enables a span or an event with this metadata. The filters' answers go
    /// into the pass.
    fn dyn_enabled(&self, meta: &Metadata, ctx: &Context<'_, Registry>, pass: &mut Pass) -> bool
        requires { dyn_usable self.now }
        ensures { LayerEnabled itself dyn_form self.now meta.now ctx.now pass.old result pass.new };

    /// Whether the layer enables this event, after `dyn_enabled`. The filters' answers go into the
    /// pass.
    fn dyn_event_enabled(
        &self,
        event: &Event<'_>,
        ctx: &Context<'_, Registry>,
        pass: &mut Pass,
    ) -> bool
        requires { dyn_usable self.now }
        ensures { LayerEvent itself dyn_form self.now event.now ctx.now pass.old result pass.new };

    /// The highest level that the layer may enable, if it knows one.
    fn dyn_max_level_hint(&self) -> Option<LevelFilter>
        requires { dyn_usable self.now }
        ensures { ShowsBy (dyn_form self.now) hint_of result };

    /// How many filters the layer has, 4,294,967,295 at most.
    fn dyn_filter_count(&self) -> u32
        ensures { ShowsBy (dyn_form self.now) (λ f. min (filters_in f) u32.MAX) result };

    /// Whether the layer is marked: under a filter, or made of such layers as its form says.
    fn dyn_is_filtered(&self) -> bool
        ensures { ShowsBy (dyn_form self.now) is_marked result };

    /// Whether a layer in this one is absent.
    fn dyn_is_absent(&self) -> bool
        ensures { ShowsBy (dyn_form self.now) is_absent result };

    /// Notifies of what happened: of a new span or an event, of values, or that a span is followed,
    /// entered, left, cloned or closing.
    fn dyn_notify(&mut self, notice: Notice<'_, '_>, ctx: &mut ContextMut<'_, Registry>)
        requires usable { dyn_usable self.old }
        requires refusals { HasNoRefusalsUnlessAsked (notice_of notice) ctx.old }
        ensures usable { dyn_usable self.new }
        ensures rest { HandsOn itself ctx.old ctx.new }
        ensures hook { Notified itself dyn_form
            (StepsLawfully dyn_form dyn_stepped dyn_hears dyn_acts_at) (notice_of notice.entry)
            self.old ctx.old self.new ctx.new };
}

impl<L: Layer<Registry> + Drop> DynLayer for L {
    ghost dyn_usable = { L.usable };

    ghost dyn_form = { L.has_form };

    ghost dyn_stepped = { L.stepped };

    ghost dyn_hears = { L.hears };

    ghost dyn_acts_at = { L.acts_at };

    ghost dyn_reloaded = { L.reloaded };

    ghost dyn_registered = { L.registered };

    ghost dyn_attached = { L.attached };

    fn dyn_on_register_dispatch(&mut self) {
        self.on_register_dispatch();
    }

    fn dyn_reload(&mut self, number: u32, setting: Setting) -> bool {
        self.reload(number, setting)
    }

    fn dyn_on_layer(&mut self, root: &mut Registry) {
        self.on_layer(root);
    }

    fn dyn_register_callsite(&self, meta: &Metadata, pass: &mut Pass) -> Interest {
        self.register_callsite(meta, pass)
    }

    fn dyn_enabled(&self, meta: &Metadata, ctx: &Context<'_, Registry>, pass: &mut Pass) -> bool {
        self.enabled(meta, ctx, pass)
    }

    fn dyn_event_enabled(
        &self,
        event: &Event<'_>,
        ctx: &Context<'_, Registry>,
        pass: &mut Pass,
    ) -> bool {
        self.event_enabled(event, ctx, pass)
    }

    fn dyn_max_level_hint(&self) -> Option<LevelFilter> {
        self.max_level_hint()
    }

    fn dyn_filter_count(&self) -> u32 {
        self.filter_count()
    }

    fn dyn_is_filtered(&self) -> bool {
        self.is_filtered()
    }

    fn dyn_is_absent(&self) -> bool {
        self.is_absent()
    }

    fn dyn_notify(&mut self, notice: Notice<'_, '_>, ctx: &mut ContextMut<'_, Registry>) {
        self.notify(notice, ctx);
    }
}
