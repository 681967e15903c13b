//! What every filter answers, and what it is notified of.
ghost use Rattle.std.specs.Prelude.{◌≡◌, ⊤, IsTrue, false};
ghost use Rattle.span_filters.specs.Filter.{FilterLaws, FilterReloadLaws, FilterReloadSteps, FilterSteps, Notified, Says, SaysEnabled, SaysEvent, unreloaded, unmoved};
ghost use Rattle.span_registry.specs.Behaviour.{Behaviour, Conduct, OnClose, OnEnter, OnExit, OnNewSpan, OnRecord};
ghost use Rattle.span_registry.specs.Context.{HasNoRefusals, HasNoRefusalsUnlessAsked, WritesExtensions, view_in};
ghost use Rattle.span_registry.specs.Notice.{is_for_filters, notice_of};

use span_core::{Attributes, Event, Id, Interest, LevelFilter, Metadata, Record};
use span_registry::{Context, ContextMut, LookupSpan, Notice};
use span_targets::Setting;

/// Decides which spans and events a layer is notified of, on a subscriber of the type `S`.
///
/// A filter's answers are functions of its own state, of what it is asked, and of the view that the
/// context gives. These are honest: where its interest in a callsite is `always`, what that
/// callsite makes is enabled in every view; where it is `never`, or the level is above the hint, in
/// none; and metadata that show the same are of one interest. Hooks keep interest and hint, and
/// write extensions alone. Filters are asked of new spans and of events alone, so refusals may be
/// lent only with a new span.
///
/// Stands for `tracing_subscriber::layer::Filter`, with one hook that changes the filter, `notify`,
/// in the place of five: the five have their names still, for whoever calls them.
pub trait Filter<S: LookupSpan> {
    /// The filter may be asked and notified. Only one that holds a closure says more than that it
    /// always may.
    ghost usable: { Self → Type 0 } = { λ f. ⊤ };

    /// What the filter answers, as it now is.
    ghost has_answers: { Self → Behaviour → Type 0 };

    /// How the filter goes on when it is notified. By default it is unchanged, and writes nothing.
    ghost hooked: { FilterSteps Self } = { unmoved };

    /// How the filter goes on when it is reloaded. By default it is unchanged.
    ghost reloaded: { FilterReloadSteps Self } = { unreloaded };

    /// How the filter will answer after each list of notices and settings. Only a filter to which
    /// extensions make no difference has such a conduct: it is plain.
    ghost acts: { Self → Conduct → Type 0 };

    /// Whether the filter enables a span or an event with this metadata.
    fn enabled(&self, meta: &Metadata, cx: &Context<'_, S>) -> bool
        requires { usable self.now }
        ensures { SaysEnabled (has_answers self.now) meta.now (view_in S.registry cx.now) result };

    /// The filter's interest in what a callsite with this metadata makes.
    fn callsite_enabled(&self, meta: &Metadata) -> Interest
        requires { usable self.now }
        ensures { Says (has_answers self.now) (λ a. a.interest meta.now) result };

    /// Whether the filter enables this event, of which `enabled` enabled the metadata.
    fn event_enabled(&self, event: &Event<'_>, cx: &Context<'_, S>) -> bool
        requires { usable self.now }
        ensures { SaysEvent (has_answers self.now) event.now (view_in S.registry cx.now) result };

    /// The highest level that the filter may enable, if it knows one.
    fn max_level_hint(&self) -> Option<LevelFilter>
        requires { usable self.now }
        ensures { Says (has_answers self.now) (λ a. a.hint) result };

    /// Notifies of a new span, of values that a span was given later, or that a span is entered,
    /// left or closing: filters are notified of nothing else.
    fn notify(&mut self, notice: Notice<'_, '_>, ctx: &mut ContextMut<'_, S>)
        requires usable { usable self.old }
        requires kind { IsTrue (is_for_filters (notice_of notice)) }
        requires refusals { HasNoRefusalsUnlessAsked (notice_of notice) ctx.old }
        ensures usable { usable self.new }
        ensures hook { Notified hooked S.registry (notice_of notice.entry) self.old ctx.old
            self.new ctx.new }
        ensures written { WritesExtensions S.registry S.with_registry ctx.old ctx.new };

    /// Has the filter take a setting, and answers whether it takes it. Else nothing changes.
    ///
    /// Own to this port.
    fn reload(&mut self, setting: Setting) -> bool
        requires { usable self.old }
        ensures usable { usable self.new }
        ensures taken { Says (has_answers self.old) (λ a. a.takes setting) result }
        ensures reloaded { reloaded self.old setting self.new }
        ensures unchanged { result ≡ false → self.new ≡ self.old };

    /// The filter's answers are honest, its hooks keep interest and hint, and it is plain where it
    /// says so.
    ghost laws: { FilterLaws has_answers hooked acts };

    /// The filter has honest answers after a setting too, and is plain where it was.
    ghost reloads: { FilterReloadLaws has_answers reloaded acts };

    /// Notifies of a new span.
    final fn on_new_span(&mut self, attrs: &Attributes<'_>, id: Id, ctx: &mut ContextMut<'_, S>)
        requires { usable self.old }
        ensures usable { usable self.new }
        ensures hook { Notified hooked S.registry (OnNewSpan attrs.now id) self.old ctx.old
            self.new ctx.new }
        ensures written { WritesExtensions S.registry S.with_registry ctx.old ctx.new }
    {
        self.notify(Notice::NewSpan(attrs, id), ctx);
    }

    /// Notifies of values that a span was given later.
    final fn on_record(&mut self, id: Id, values: &Record<'_>, ctx: &mut ContextMut<'_, S>)
        requires usable { usable self.old }
        requires refusals { HasNoRefusals ctx.old }
        ensures usable { usable self.new }
        ensures hook { Notified hooked S.registry (OnRecord id values.now) self.old ctx.old
            self.new ctx.new }
        ensures written { WritesExtensions S.registry S.with_registry ctx.old ctx.new }
    {
        self.notify(Notice::Record(id, values), ctx);
    }

    /// Notifies that a span is entered.
    final fn on_enter(&mut self, id: Id, ctx: &mut ContextMut<'_, S>)
        requires usable { usable self.old }
        requires refusals { HasNoRefusals ctx.old }
        ensures usable { usable self.new }
        ensures hook { Notified hooked S.registry (OnEnter id) self.old ctx.old
            self.new ctx.new }
        ensures written { WritesExtensions S.registry S.with_registry ctx.old ctx.new }
    {
        self.notify(Notice::Enter(id), ctx);
    }

    /// Notifies that a span is left.
    final fn on_exit(&mut self, id: Id, ctx: &mut ContextMut<'_, S>)
        requires usable { usable self.old }
        requires refusals { HasNoRefusals ctx.old }
        ensures usable { usable self.new }
        ensures hook { Notified hooked S.registry (OnExit id) self.old ctx.old
            self.new ctx.new }
        ensures written { WritesExtensions S.registry S.with_registry ctx.old ctx.new }
    {
        self.notify(Notice::Exit(id), ctx);
    }

    /// Notifies that a span is closing, while it can still be read.
    final fn on_close(&mut self, id: Id, ctx: &mut ContextMut<'_, S>)
        requires usable { usable self.old }
        requires refusals { HasNoRefusals ctx.old }
        ensures usable { usable self.new }
        ensures hook { Notified hooked S.registry (OnClose id) self.old ctx.old
            self.new ctx.new }
        ensures written { WritesExtensions S.registry S.with_registry ctx.old ctx.new }
    {
        self.notify(Notice::Close(id), ctx);
    }
}
