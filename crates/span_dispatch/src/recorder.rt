//! A layer that keeps what it is notified of.
ghost use Rattle.std.specs.Prelude.{◌≡◌, ◌∷◌, [], true};
ghost use Rattle.span_dispatch.specs.Recorder.{Records, new_recorder, recorder_steps};
ghost use Rattle.span_dispatch.specs.laws.Recorder.{recorder_laws};
ghost use Rattle.span_layers.specs.Acts.{LeafActs};
ghost use Rattle.span_layers.specs.laws.Leaf.{is_leaf};
ghost use Rattle.span_layers.specs.laws.Path.{leaf_path_laws};
ghost use Rattle.span_layers.specs.Layer.{HearsBy};
ghost use Rattle.span_layers.specs.laws.Reload.{leaf_reloads};
ghost use Rattle.span_layers.specs.Observe.{open_answers};
ghost use Rattle.span_registry.specs.Form.{Leaf};
ghost use Rattle.span_registry.specs.Reload.{unreloaded};

use crate::recorded::Recorded;
use span_core::{Event, Interest, LevelFilter, Metadata, Pass};
use span_layers::{AlwaysUsableLayer, Layer};
use span_registry::{Context, ContextMut, Notice, Subscriber};
use span_targets::Setting;
use std::alloc::Global;
use std::marker::Model;

/// A layer that enables everything, and keeps a notice of each hook, up to the first that found no
/// memory.
///
/// Own to this port.
#[derive(Debug)]
pub struct Recorder {
    notices: Vec<Recorded>,
    failed: bool,
}

impl Drop for Recorder {
    fn drop(self) {
        let Recorder { notices, failed } = self;
    }
}

impl Model for Recorder {
    ghost use Rattle.std.specs.Prelude.{◌-◌, vec_capacity, vec_len};
    ghost use Rattle.span_dispatch.specs.Recorder.{RecorderState};

    ghost Value = { RecorderState };

    ghost view = { λ a. record {
      notices = a.notices.items;
      room = vec_capacity a.notices - vec_len a.notices;
      failed = a.failed;
    } };
}

impl Recorder {
    /// A recorder that was notified of nothing yet.
    pub fn new(alloc: Global) -> Self
        ensures { result ≡ new_recorder }
    {
        Recorder {
            notices: Vec::new(alloc),
            failed: false,
        }
    }

    /// The notices that the recorder keeps, in the order in which it was notified.
    pub fn notices(&self) -> &[Recorded]
        ensures { result.now ≡ self.now.notices }
    {
        &self.notices
    }

    /// Whether the recorder found no memory for a notice, and so has kept nothing since.
    pub fn failed(&self) -> bool
        ensures { result ≡ self.now.failed }
    {
        self.failed
    }

    /// Keeps a notice, if there is memory for it.
    fn keep(&mut self, notice: Recorded)
        ensures { Records self.old self.new (notice ∷ []) }
    {
        if self.failed {
            return;
        }
        if self.notices.push(notice).is_err() {
            self.failed = true;
            return;
        }
    }
}

impl<S: Subscriber> Layer<S> for Recorder {
    ghost has_form = { λ x f. f ≡ Leaf true open_answers };

    ghost stepped = { recorder_steps };

    ghost hears = { HearsBy recorder_steps };

    ghost acts_at = { LeafActs };

    ghost reloaded = { unreloaded };

    ghost registered = { λ x y. y ≡ x };

    ghost attached = { λ x y. y ≡ x };

    ghost laws = { recorder_laws };

    ghost paths = { leaf_path_laws (λ x f h. is_leaf h) };

    ghost reloads = { leaf_reloads recorder_laws };

    fn on_register_dispatch(&mut self) {
        // A recorder has nothing to do.
    }

    fn on_layer(&mut self, _subscriber: &mut S) {
        // A recorder has no filter.
    }

    fn register_callsite(&self, _meta: &Metadata, _pass: &mut Pass) -> Interest {
        Interest::Always
    }

    fn enabled(&self, _meta: &Metadata, _ctx: &Context<'_, S>, _pass: &mut Pass) -> bool {
        true // A recorder wants everything.
    }

    fn event_enabled(&self, _event: &Event<'_>, _ctx: &Context<'_, S>, _pass: &mut Pass) -> bool {
        true // A recorder wants every event.
    }

    fn max_level_hint(&self) -> Option<LevelFilter> {
        None // A recorder wants all levels.
    }

    fn reload(&mut self, _number: u32, _setting: Setting) -> bool {
        false // No filter is in it.
    }

    fn filter_count(&self) -> u32 {
        0
    }

    fn is_filtered(&self) -> bool {
        false // No filter is its own.
    }

    fn is_absent(&self) -> bool {
        false // The layer is there.
    }

    fn notify(&mut self, notice: Notice<'_, '_>, ctx: &mut ContextMut<'_, S>) {
        self.keep(Recorded::of(ctx.lane(), notice));
    }
}

impl<S: Subscriber> AlwaysUsableLayer<S> for Recorder {
    ghost always = { λ x. tt };
}
