//! Boxed layers: layers whose type is picked while the program runs.
ghost use Rattle.std.specs.Prelude.{◌≡◌};
ghost use Rattle.span_boxed.specs.Boxed.{ActsPlainlyAt, ChangesInside, HearsInside, HearsLawfully, ReloadsInside, ReloadsLawfully, RegistersLawfully, StepsInside, StepsLawfully};
ghost use Rattle.span_boxed.specs.laws.Boxed.{object_laws, object_reloads, object_path_laws};

use crate::object::DynLayer;
use span_core::{Event, Interest, LevelFilter, Metadata, Pass};
use span_layers::Layer;
use span_registry::{Context, ContextMut, Notice, Subscriber};
use span_targets::Setting;
use std::fmt;

/// A layer in a box, which adds nothing to it: it has the form of the layer in the box. It is a
/// layer over each subscriber: what it is asked and notified of, the layer in the box is, over the
/// registry that the subscriber stands on, from the same lane, under the same mask and with the
/// same refusals. An event that the layer in the box sends reaches nobody.
///
/// A layer of a concrete type is boxed, one without closures and without boxes. Stands for `Box<dyn
/// tracing_subscriber::Layer<S> + Send + Sync>` where that is a layer.
pub struct BoxedLayer {
    /// The layer in its box.
    pub object: Box<dyn DynLayer + Send>,
}

impl Drop for BoxedLayer {
    fn drop(self) {
        let BoxedLayer { object } = self;
    }
}

impl BoxedLayer {
    /// Takes a layer in its box.
    pub fn new(object: Box<dyn DynLayer + Send>) -> BoxedLayer
        ensures { result.object ≡ object }
    {
        BoxedLayer { object }
    }
}

impl<S: Subscriber> Layer<S> for BoxedLayer {
    ghost usable = { λ x. (DynLayer-box x.object).dyn_usable x.object.value };

    ghost has_form = { λ x. (DynLayer-box x.object).dyn_form x.object.value };

    ghost stepped = { StepsLawfully (λ x. (DynLayer-box x.object).dyn_form x.object.value)
        (StepsInside (λ x. (DynLayer-box x.object).dyn_stepped))
        (HearsInside (λ x. (DynLayer-box x.object).dyn_hears))
        (λ x. (DynLayer-box x.object).dyn_acts_at x.object.value) };

    ghost hears = { HearsLawfully (λ x. (DynLayer-box x.object).dyn_form x.object.value)
        (StepsInside (λ x. (DynLayer-box x.object).dyn_stepped))
        (ReloadsInside (λ x. (DynLayer-box x.object).dyn_reloaded))
        (HearsInside (λ x. (DynLayer-box x.object).dyn_hears))
        (λ x. (DynLayer-box x.object).dyn_acts_at x.object.value) };

    ghost acts_at = { ActsPlainlyAt (λ x. (DynLayer-box x.object).dyn_form x.object.value)
        (λ x. (DynLayer-box x.object).dyn_acts_at x.object.value) };

    ghost reloaded = { ReloadsLawfully (λ x. (DynLayer-box x.object).dyn_form x.object.value)
        (ReloadsInside (λ x. (DynLayer-box x.object).dyn_reloaded))
        (HearsInside (λ x. (DynLayer-box x.object).dyn_hears))
        (λ x. (DynLayer-box x.object).dyn_acts_at x.object.value) };

    ghost registered = { RegistersLawfully (λ x. (DynLayer-box x.object).dyn_form x.object.value)
        (ChangesInside (λ x. (DynLayer-box x.object).dyn_registered))
        (λ x. (DynLayer-box x.object).dyn_acts_at x.object.value) };

    ghost attached = { ChangesInside (λ x. (DynLayer-box x.object).dyn_attached) };

    ghost laws = { object_laws };

    ghost paths = { object_path_laws };

    ghost reloads = { object_reloads };

    fn on_register_dispatch(&mut self) {
        self.object.dyn_on_register_dispatch();
    }

    fn reload(&mut self, number: u32, setting: Setting) -> bool {
        self.object.dyn_reload(number, setting)
    }

    fn on_layer(&mut self, subscriber: &mut S) {
        self.object.dyn_on_layer(subscriber.root_mut());
    }

    fn register_callsite(&self, meta: &Metadata, pass: &mut Pass) -> Interest {
        self.object.dyn_register_callsite(meta, pass)
    }

    fn enabled(&self, meta: &Metadata, ctx: &Context<'_, S>, pass: &mut Pass) -> bool {
        self.object.dyn_enabled(meta, &ctx.to_root(), pass)
    }

    fn event_enabled(&self, event: &Event<'_>, ctx: &Context<'_, S>, pass: &mut Pass) -> bool {
        self.object.dyn_event_enabled(event, &ctx.to_root(), pass)
    }

    fn max_level_hint(&self) -> Option<LevelFilter> {
        self.object.dyn_max_level_hint()
    }

    fn filter_count(&self) -> u32 {
        self.object.dyn_filter_count()
    }

    fn is_filtered(&self) -> bool {
        self.object.dyn_is_filtered()
    }

    fn is_absent(&self) -> bool {
        self.object.dyn_is_absent()
    }

    fn notify(&mut self, notice: Notice<'_, '_>, ctx: &mut ContextMut<'_, S>) {
        let mut root = ctx.take_root();
        self.object.dyn_notify(notice, &mut ctx.over(&mut root));
        ctx.put_root(root);
    }
}

impl fmt::Debug for BoxedLayer {
    fn fmt<W: fmt::Write>(&self, f: &mut fmt::Formatter<W>) -> fmt::Result {
        f.debug_struct("BoxedLayer").finish_non_exhaustive()
    }
}
