//! Tests of how often a layer is asked: not of an event whose metadata it refused.
ghost use Rattle.std.specs.Prelude.{◌≡◌, ⊤, true};
ghost use Rattle.span_layers.specs.Acts.{LeafActs};
ghost use Rattle.span_layers.specs.laws.Leaf.{is_leaf};
ghost use Rattle.span_layers.specs.laws.Path.{leaf_path_laws};
ghost use Rattle.span_layers.specs.Layer.{HearsBy};
ghost use Rattle.span_layers.specs.laws.Reload.{leaf_reloads};
ghost use Rattle.span_registry.specs.Form.{Leaf};
ghost use Rattle.span_registry.specs.Reload.{unreloaded};
ghost use Rattle.span_client_tests.specs.Fixed.{FixedSteps, fixed_answers};
ghost use Rattle.span_client_tests.specs.laws.Fixed.{fixed_answers_laws};

use crate::receiver::sent_to_layer;
use span_core::{Event, Interest, LevelFilter, Metadata, Pass};
use span_layers::Layer;
use span_registry::{Context, ContextMut, Notice, Registry, Subscriber};
use span_targets::Setting;
use std::alloc::Global;
use std::cell::Cell;
use std::test::Fail;

/// Answers what it was made to, and counts how often it is asked, and notified of an event.
#[derive(Drop)]
struct Asked {
    metadata_pass: bool,
    events_pass: bool,
    of_metadata: Cell<u32>,
    of_events: Cell<u32>,
    notified: u32,
}

impl<S: Subscriber> Layer<S> for Asked {
    ghost has_form = { λ x f. f ≡ Leaf true (fixed_answers x.metadata_pass x.events_pass) };

    ghost stepped = { FixedSteps (λ x. x.metadata_pass) (λ x. x.events_pass) };

    ghost hears = { HearsBy (FixedSteps (λ x. x.metadata_pass) (λ x. x.events_pass)) };

    ghost acts_at = { LeafActs };

    ghost reloaded = { unreloaded };

    ghost registered = { λ x y. y ≡ x };

    ghost attached = { λ x y. y ≡ x };

    ghost laws = { fixed_answers_laws (λ x. x.metadata_pass) (λ x. x.events_pass) };

    ghost paths = { leaf_path_laws (λ x f h. is_leaf h) };

    ghost reloads = { leaf_reloads (fixed_answers_laws (λ x. x.metadata_pass) (λ x. x.events_pass)) };

    fn on_register_dispatch(&mut self) {}

    fn on_layer(&mut self, _subscriber: &mut S) {}

    fn register_callsite(&self, _meta: &Metadata, _pass: &mut Pass) -> Interest {
        Interest::Sometimes
    }

    fn enabled(&self, _meta: &Metadata, _ctx: &Context<'_, S>, _pass: &mut Pass) -> bool {
        self.of_metadata
            .set(self.of_metadata.get().saturating_add(1));
        self.metadata_pass
    }

    fn event_enabled(&self, _event: &Event<'_>, _ctx: &Context<'_, S>, _pass: &mut Pass) -> bool {
        self.of_events.set(self.of_events.get().saturating_add(1));
        self.events_pass
    }

    fn max_level_hint(&self) -> Option<LevelFilter> {
        None
    }

    fn reload(&mut self, _number: u32, _setting: Setting) -> bool {
        false // No filter is in it.
    }

    fn filter_count(&self) -> u32 {
        0
    }

    fn is_filtered(&self) -> bool {
        false
    }

    fn is_absent(&self) -> bool {
        false
    }

    fn notify(&mut self, notice: Notice<'_, '_>, _ctx: &mut ContextMut<'_, S>) {
        if let Notice::Event(_) = notice {
            self.notified = self.notified.saturating_add(1);
        }
    }
}

/// A layer of these answers, after one error event: how often it was asked of metadata, of an
/// event, and notified.
fn asked_of_an_error(
    alloc: Global,
    metadata_pass: bool,
    events_pass: bool,
) -> Result<(u32, u32, u32), Fail> {
    let layer = Asked {
        metadata_pass,
        events_pass,
        of_metadata: Cell::new(0),
        of_events: Cell::new(0),
        notified: 0,
    };
    let dispatch = sent_to_layer(alloc, Registry::new(alloc), layer)?;
    let layer = dispatch.stack().outer();
    Ok((
        layer.of_metadata.get(),
        layer.of_events.get(),
        layer.notified,
    ))
}

#[test]
fn a_layer_is_asked_once_of_an_event_whose_metadata_pass(rt: HostRuntime) -> Result<(), Fail> {
    assert!(rt; asked_of_an_error(rt.alloc(), true, true)? == (1, 1, 1));
    assert!(rt; asked_of_an_error(rt.alloc(), false, true)? == (1, 0, 0));
    assert!(rt; asked_of_an_error(rt.alloc(), true, false)? == (1, 1, 0));
    Ok(())
}
