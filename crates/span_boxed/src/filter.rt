//! Boxed filters: filters whose type is picked while the program runs.
ghost use Rattle.span_boxed.specs.Filter.{ActsPlainly, AnswersHonestly, KeepsLaw, KeepsReloadLaw, ReloadsInside, ReloadsLawfully, StepsInside, StepsLawfully, itself, replaced};
ghost use Rattle.span_boxed.specs.laws.Filter.{object_laws, object_reloads};
ghost use Rattle.span_filters.specs.Filter.{FilterReloadSteps, FilterSteps, Notified, Says, SaysEnabled, SaysEvent};
ghost use Rattle.span_registry.specs.Behaviour.{Behaviour, Conduct};
ghost use Rattle.span_registry.specs.Context.{HasNoRefusalsUnlessAsked, WritesExtensions, view_in, view_lent};
ghost use Rattle.span_registry.specs.Notice.{is_for_filters, notice_of};
ghost use Rattle.std.specs.Prelude.{◌≡◌, IsTrue, false};

use span_core::{Event, Interest, LevelFilter, Metadata};
use span_filters::Filter;
use span_registry::{Context, ContextMut, LookupSpan, Notice, Registry};
use span_targets::Setting;
use std::fmt;

/// A filter over the registry, as an object. Each `Filter<Registry>` that can be let go of is one.
///
/// The clauses are those of `Filter`. An object brings no law, so each hook has what the law says
/// of it as the clause `keeps`.
pub trait DynFilter: Drop {
    /// The filter may be asked and notified.
    ghost dyn_usable: { Self → Type 0 };

    /// What the filter answers, as it now is.
    ghost dyn_answers: { Self → Behaviour → Type 0 };

    /// How the filter goes on when it is notified.
    ghost dyn_hooked: { FilterSteps Self };

    /// How the filter goes on when it is reloaded.
    ghost dyn_reloaded: { FilterReloadSteps Self };

    /// How the filter will answer after each list of notices and settings.
    ghost dyn_acts: { Self → Conduct → Type 0 };

    /// Whether the filter enables a span or an event with this metadata.
    fn dyn_enabled(&self, meta: &Metadata, cx: &Context<'_, Registry>) -> bool
        requires { dyn_usable self.now }
        ensures { SaysEnabled (dyn_answers self.now) meta.now (view_in itself cx.now) result };

    /// The filter's interest in what a callsite with this metadata makes.
    fn dyn_callsite_enabled(&self, meta: &Metadata) -> Interest
        requires { dyn_usable self.now }
        ensures { Says (dyn_answers self.now) (λ a. a.interest meta.now) result };

    /// Whether the filter enables this event, of which `dyn_enabled` enabled the metadata.
    fn dyn_event_enabled(&self, event: &Event<'_>, cx: &Context<'_, Registry>) -> bool
        requires { dyn_usable self.now }
        ensures { SaysEvent (dyn_answers self.now) event.now (view_in itself cx.now) result };

    /// The highest level that the filter may enable, if it knows one.
    fn dyn_max_level_hint(&self) -> Option<LevelFilter>
        requires { dyn_usable self.now }
        ensures { Says (dyn_answers self.now) (λ a. a.hint) result };

    /// Notifies of a new span, of values that a span was given later, or that a span is entered,
    /// left or closing: filters are notified of nothing else.
    fn dyn_notify(&mut self, notice: Notice<'_, '_>, ctx: &mut ContextMut<'_, Registry>)
        requires usable { dyn_usable self.old }
        requires kind { IsTrue (is_for_filters (notice_of notice)) }
        requires refusals { HasNoRefusalsUnlessAsked (notice_of notice) ctx.old }
        ensures usable { dyn_usable self.new }
        ensures hook { Notified dyn_hooked itself (notice_of notice.entry) self.old ctx.old
            self.new ctx.new }
        ensures keeps { KeepsLaw dyn_answers dyn_acts (notice_of notice.entry)
            (view_lent itself ctx.old) self.old self.new }
        ensures written { WritesExtensions itself replaced ctx.old ctx.new };

    /// Has the filter take a setting, and answers whether it takes it. Else nothing changes.
    fn dyn_reload(&mut self, setting: Setting) -> bool
        requires { dyn_usable self.old }
        ensures usable { dyn_usable self.new }
        ensures taken { Says (dyn_answers self.old) (λ a. a.takes setting) result }
        ensures reloaded { dyn_reloaded self.old setting self.new }
        ensures keeps { KeepsReloadLaw dyn_answers dyn_acts setting self.old self.new }
        ensures unchanged { result ≡ false → self.new ≡ self.old };
}

impl<F: Filter<Registry> + Drop> DynFilter for F {
    ghost dyn_usable = { F.usable };

    ghost dyn_answers = { F.has_answers };

    ghost dyn_hooked = { F.hooked };

    ghost dyn_reloaded = { F.reloaded };

    ghost dyn_acts = { F.acts };

    fn dyn_enabled(&self, meta: &Metadata, cx: &Context<'_, Registry>) -> bool {
        self.enabled(meta, cx)
    }

    fn dyn_callsite_enabled(&self, meta: &Metadata) -> Interest {
        self.callsite_enabled(meta)
    }

    fn dyn_event_enabled(&self, event: &Event<'_>, cx: &Context<'_, Registry>) -> bool {
        self.event_enabled(event, cx)
    }

    fn dyn_max_level_hint(&self) -> Option<LevelFilter> {
        self.max_level_hint()
    }

    fn dyn_notify(&mut self, notice: Notice<'_, '_>, ctx: &mut ContextMut<'_, Registry>) {
        self.notify(notice, ctx);
    }

    fn dyn_reload(&mut self, setting: Setting) -> bool {
        self.reload(setting)
    }
}

/// A filter in a box, which adds nothing to it. It is a filter over each subscriber: what it is
/// asked and notified of, the filter in the box is, over the registry that the subscriber stands
/// on, from the same lane and under the same mask.
///
/// A filter of a concrete type is boxed, one without closures and without boxes. Stands for
/// `Box<dyn tracing_subscriber::layer::Filter<S> + Send + Sync>` where that is a filter.
pub struct BoxedFilter {
    /// The filter in its box.
    pub object: Box<dyn DynFilter + Send>,
}

impl Drop for BoxedFilter {
    fn drop(self) {
        let BoxedFilter { object } = self;
    }
}

impl BoxedFilter {
    /// Takes a filter in its box.
    pub fn new(object: Box<dyn DynFilter + Send>) -> BoxedFilter
        ensures { result.object ≡ object }
    {
        BoxedFilter { object }
    }
}

impl<S: LookupSpan> Filter<S> for BoxedFilter {
    ghost usable = { λ f. (DynFilter-box f.object).dyn_usable f.object.value };

    ghost has_answers = { λ f.
        AnswersHonestly ((DynFilter-box f.object).dyn_answers f.object.value) };

    ghost hooked = { StepsLawfully (λ f. (DynFilter-box f.object).dyn_answers f.object.value)
        (StepsInside (λ f. (DynFilter-box f.object).dyn_hooked))
        (λ f. (DynFilter-box f.object).dyn_acts f.object.value) };

    ghost reloaded = { ReloadsLawfully (λ f. (DynFilter-box f.object).dyn_answers f.object.value)
        (ReloadsInside (λ f. (DynFilter-box f.object).dyn_reloaded))
        (λ f. (DynFilter-box f.object).dyn_acts f.object.value) };

    ghost acts = { λ f. ActsPlainly ((DynFilter-box f.object).dyn_answers f.object.value)
        ((DynFilter-box f.object).dyn_acts f.object.value) };

    ghost laws = { object_laws };

    ghost reloads = { object_reloads };

    fn enabled(&self, meta: &Metadata, cx: &Context<'_, S>) -> bool {
        self.object.dyn_enabled(meta, &cx.to_root())
    }

    fn callsite_enabled(&self, meta: &Metadata) -> Interest {
        self.object.dyn_callsite_enabled(meta)
    }

    fn event_enabled(&self, event: &Event<'_>, cx: &Context<'_, S>) -> bool {
        self.object.dyn_event_enabled(event, &cx.to_root())
    }

    fn max_level_hint(&self) -> Option<LevelFilter> {
        self.object.dyn_max_level_hint()
    }

    fn notify(&mut self, notice: Notice<'_, '_>, ctx: &mut ContextMut<'_, S>) {
        let mut root = ctx.take_root();
        self.object.dyn_notify(notice, &mut ctx.over(&mut root));
        ctx.put_root(root);
    }

    fn reload(&mut self, setting: Setting) -> bool {
        self.object.dyn_reload(setting)
    }
}

impl fmt::Debug for BoxedFilter {
    fn fmt<W: fmt::Write>(&self, f: &mut fmt::Formatter<W>) -> fmt::Result {
        f.debug_struct("BoxedFilter").finish_non_exhaustive()
    }
}
