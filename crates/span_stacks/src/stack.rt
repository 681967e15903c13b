//! A layer on a subscriber.
ghost use Rattle.std.specs.Prelude.{◌≡◌, refl};
ghost use Rattle.std.proofs.Common.{ap};
ghost use Rattle.span_stacks.specs.Acts.{LayeredActs};
ghost use Rattle.span_stacks.specs.laws.Path.{stack_path_laws};
ghost use Rattle.span_stacks.specs.laws.Stack.{stack_laws};
ghost use Rattle.span_layers.specs.Parts.{PartsForm};
ghost use Rattle.span_stacks.specs.Layered.{LayeredHears, LayeredSteps};
ghost use Rattle.span_stacks.specs.Reload.{LayeredReloads};
ghost use Rattle.span_stacks.specs.laws.Reload.{layered_reloads};
ghost use Rattle.span_registry.specs.Form.{OnSubscriber};

use crate::layered::{Hinted, Layered, calmed, hint_over};
use span_core::{
    Attributes, Current, Event, FilterId, Id, Interest, Lane, LevelFilter, Metadata, Pass, Record,
    TraceError,
};
use span_layers::Layer;
use span_registry::{Context, ContextMut, Data, LookupSpan, Notice, Registry, Subscriber};
use span_targets::Setting;

impl<L, I: LookupSpan> LookupSpan for Layered<L, I> {
    ghost registry = { λ x. I.registry x.inner };

    ghost with_registry = { λ x w. record x { inner = I.with_registry x.inner w } };

    ghost registry_with = { λ x w. I.registry_with x.inner w };

    ghost with_twice = { λ x v w. ap (λ i. record x { inner = i }) (I.with_twice x.inner v w) };

    ghost with_own = { λ x. ap (λ i. record x { inner = i }) (I.with_own x.inner) };

    fn root(&self) -> &Registry {
        self.inner.root()
    }

    fn root_mut(&mut self) -> &mut Registry {
        self.inner.root_mut()
    }

    fn span_data(&self, id: Id) -> Option<Data<'_>> {
        self.inner.span_data(id)
    }

    fn register_filter(&mut self) -> Result<FilterId, TraceError> {
        self.inner.register_filter()
    }
}

impl<I: Subscriber, L: Layer<I>> Subscriber for Layered<L, I> {
    ghost usable = { λ x. L.usable x.layer × I.usable x.inner };

    ghost has_form = { λ x. PartsForm OnSubscriber (L.has_form x.layer) (I.has_form x.inner) };

    ghost stepped = { λ x p e lane v y w.
        LayeredSteps I.with_registry L.stepped I.stepped x.layer x.inner p e lane v y.layer
        y.inner w };

    ghost hears = { λ x place h y.
        LayeredHears L.hears I.hears x.layer x.inner place h y.layer y.inner };

    ghost acts_at = { λ x. LayeredActs L.acts_at I.acts_at x.layer x.inner };

    ghost reloaded = { λ x n l y.
        LayeredReloads L.reloaded I.reloaded x.layer x.inner n l y.layer y.inner };

    ghost registered = { λ x y. L.registered x.layer y.layer × I.registered x.inner y.inner };

    ghost laws = { stack_laws L.laws I.laws L.usable (λ x. x.layer) (λ x. x.inner)
        (λ x i. record x { inner = i }) (λ x i. refl) (λ x i. refl) };

    ghost paths = { stack_path_laws L.paths I.paths (λ x. x.layer) (λ x. x.inner)
        (λ x i. record x { inner = i }) (λ x i. refl) (λ x i. refl) };

    ghost reloads = { layered_reloads L.reloads I.reloads OnSubscriber (λ x. x.layer) (λ x. x.inner) };

    fn on_register_dispatch(&mut self) {
        self.inner.on_register_dispatch();
        self.layer.on_register_dispatch();
    }

    fn register_callsite(&self, meta: &Metadata, pass: &mut Pass) -> Interest {
        let outer = self.layer.register_callsite(meta, pass);
        if self.layer.is_filtered() {
            return self.inner.register_callsite(meta, pass);
        }
        let calm = self.inner.is_filtered() || self.inner.is_registry();
        match outer {
            Interest::Never => {
                pass.clear_interest();
                Interest::Never
            }
            Interest::Sometimes => {
                self.inner.register_callsite(meta, pass);
                Interest::Sometimes
            }
            Interest::Always => calmed(self.inner.register_callsite(meta, pass), calm),
        }
    }

    fn enabled(&self, lane: Lane, meta: &Metadata, pass: &mut Pass) -> bool {
        let ctx = Context::new(&self.inner, lane);
        if !self.layer.enabled(meta, &ctx, pass) {
            return false;
        }
        self.inner.enabled(lane, meta, pass)
    }

    fn event_enabled(&self, lane: Lane, event: &Event<'_>, pass: &mut Pass) -> bool {
        let ctx = Context::new(&self.inner, lane);
        if !self.layer.event_enabled(event, &ctx, pass) {
            return false;
        }
        self.inner.event_enabled(lane, event, pass)
    }

    fn max_level_hint(&self) -> Option<LevelFilter> {
        if self.inner.is_registry() {
            return self.layer.max_level_hint();
        }
        let outer = Hinted {
            hint: self.layer.max_level_hint(),
            marked: self.layer.is_filtered(),
            absent: self.layer.is_absent(),
        };
        let inner = Hinted {
            hint: self.inner.max_level_hint(),
            marked: self.inner.is_filtered(),
            absent: self.inner.is_absent(),
        };
        hint_over(outer, inner)
    }

    fn new_span(
        &mut self,
        lane: Lane,
        attrs: &Attributes<'_>,
        pass: &Pass,
    ) -> Result<Id, TraceError> {
        match self.inner.new_span(lane, attrs, pass) {
            Ok(id) => {
                let mut ctx = ContextMut::new(&mut self.inner, lane, pass);
                self.layer.notify(Notice::NewSpan(attrs, id), &mut ctx);
                Ok(id)
            }
            Err(error) => Err(error),
        }
    }

    fn record(&mut self, lane: Lane, id: Id, values: &Record<'_>) {
        self.inner.record(lane, id, values);
        let mut ctx = ContextMut::new(&mut self.inner, lane, &Pass::new());
        self.layer.notify(Notice::Record(id, values), &mut ctx);
    }

    fn record_follows_from(&mut self, lane: Lane, id: Id, follows: Id) {
        self.inner.record_follows_from(lane, id, follows);
        let mut ctx = ContextMut::new(&mut self.inner, lane, &Pass::new());
        self.layer
            .notify(Notice::FollowsFrom(id, follows), &mut ctx);
    }

    fn event(&mut self, lane: Lane, event: &Event<'_>, pass: &Pass) {
        self.inner.event(lane, event, pass);
        let mut ctx = ContextMut::new(&mut self.inner, lane, pass);
        self.layer.notify(Notice::Event(event), &mut ctx);
    }

    fn enter(&mut self, lane: Lane, id: Id) -> Result<(), TraceError> {
        match self.inner.enter(lane, id) {
            Ok(()) => {
                let mut ctx = ContextMut::new(&mut self.inner, lane, &Pass::new());
                self.layer.notify(Notice::Enter(id), &mut ctx);
                Ok(())
            }
            Err(error) => Err(error),
        }
    }

    fn exit(&mut self, lane: Lane, id: Id) {
        self.inner.exit(lane, id);
        let mut ctx = ContextMut::new(&mut self.inner, lane, &Pass::new());
        self.layer.notify(Notice::Exit(id), &mut ctx);
    }

    /// No layer is notified: the contract of the inner subscriber's call answers the same id.
    fn clone_span(&mut self, lane: Lane, id: Id) -> Result<Id, TraceError> {
        self.inner.clone_span(lane, id)
    }

    fn current_span(&self, lane: Lane) -> Current {
        self.inner.current_span(lane)
    }

    fn close_hooks(&mut self, lane: Lane, id: Id) {
        self.inner.close_hooks(lane, id);
        let mut ctx = ContextMut::new(&mut self.inner, lane, &Pass::new());
        self.layer.notify(Notice::Close(id), &mut ctx);
    }

    fn is_filtered(&self) -> bool {
        self.layer.is_filtered() || self.inner.is_filtered()
    }

    fn is_absent(&self) -> bool {
        self.layer.is_absent() || self.inner.is_absent()
    }

    fn is_registry(&self) -> bool {
        false // A layer stands on the registry.
    }

    fn reload(&mut self, number: u32, setting: Setting) -> bool {
        let outer = self.layer.reload(number, setting);
        let inner = self.inner.reload(number, setting);
        outer || inner
    }
}
