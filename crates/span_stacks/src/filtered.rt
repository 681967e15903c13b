//! A layer under a filter.
ghost use Rattle.std.specs.Borrow.{Lends, sem};
ghost use Rattle.std.specs.Prelude.{◌≡◌};
ghost use Rattle.span_stacks.specs.Acts.{FilteredActs};
ghost use Rattle.span_stacks.specs.laws.Path.{filtered_path_laws};
ghost use Rattle.span_stacks.specs.Reload.{FilteredReloads};
ghost use Rattle.span_stacks.specs.laws.Reload.{filtered_reloads};
ghost use Rattle.span_stacks.specs.contracts.filtered.Filtered.{the_row};
ghost use Rattle.span_filters.specs.Filter.{Notified as FilterNotified};
ghost use Rattle.span_stacks.specs.Filtered.{FilteredForm, FilteredHears, FilteredSteps, Hooked, IsUnnumbered, filter_of, layer_of, with_filter, with_layer};
ghost use Rattle.span_stacks.specs.laws.Filtered.{filtered_laws};
ghost use Rattle.span_registry.specs.Context.{HasNoRefusalsUnlessAsked, WritesExtensions};
ghost use Rattle.span_registry.specs.Notice.{notice_of};

use span_core::{Event, FilterId, Interest, LevelFilter, Metadata, Pass};
use span_filters::Filter;
use span_layers::Layer;
use span_registry::{Context, ContextMut, Notice, Subscriber};
use span_targets::Setting;

/// A layer that is notified of what its filter enables. What the filter refuses is refused for this
/// layer alone.
///
/// Stands for `tracing_subscriber::filter::Filtered`.
#[derive(Debug, Drop)]
pub struct Filtered<L, F> {
    filter: F,
    layer: L,
    id: FilterId,
}

impl<L, F> Filtered<L, F> {
    /// A layer under a filter that has no number yet: it is notified of nothing until a subscriber
    /// gives the filter one.
    pub fn new(layer: L, filter: F) -> Filtered<L, F>
        ensures { IsUnnumbered result layer filter }
    {
        Filtered {
            filter,
            layer,
            id: FilterId::unattached(),
        }
    }

    /// The filter round the layer, as it now is.
    pub fn filter(&self) -> &F
        ensures { result.now ≡ filter_of self.now }
    {
        &self.filter
    }

    /// The filter round the layer, to be changed. What the filter answers then may differ from what
    /// is cached of its answers.
    pub fn filter_mut(&mut self) -> &mut F
        ensures* writes_back { sem 𝓛
            (Lends (the_row L.row F.row) F.row self.entry result (with_filter self.old)) }
        ensures value { result.now ≡ filter_of self.old }
    {
        &mut self.filter
    }

    /// The layer under the filter, as it now is.
    ///
    /// Stands for `Filtered::inner`.
    pub fn layer(&self) -> &L
        ensures { result.now ≡ layer_of self.now }
    {
        &self.layer
    }

    /// The layer under the filter, to be changed.
    ///
    /// Stands for `Filtered::inner_mut`.
    pub fn layer_mut(&mut self) -> &mut L
        ensures* writes_back { sem 𝓛
            (Lends (the_row L.row F.row) L.row self.entry result (with_layer self.old)) }
        ensures value { result.now ≡ layer_of self.old }
    {
        &mut self.layer
    }
}

/// Notifies the filter itself, of what filters are notified of.
#[inline(always)]
fn notify_filter<S: Subscriber, F: Filter<S>>(
    filter: &mut F,
    notice: Notice<'_, '_>,
    ctx: &mut ContextMut<'_, S>,
)
    requires usable { F.usable filter.old }
    requires refusals { HasNoRefusalsUnlessAsked (notice_of notice) ctx.old }
    ensures usable { F.usable filter.new }
    ensures hook { FilterNotified (Hooked F.hooked) S.registry (notice_of notice.entry) filter.old
        ctx.old filter.new ctx.new }
    ensures written { WritesExtensions S.registry S.with_registry ctx.old ctx.new }
{
    if notice.is_for_filters() {
        filter.notify(notice, ctx);
    }
}

impl<S: Subscriber, L: Layer<S>, F: Filter<S>> Layer<S> for Filtered<L, F> {
    ghost usable = { λ x. F.usable x.filter × L.usable x.layer };

    ghost has_form = { λ x. FilteredForm x.id (F.has_answers x.filter) (L.has_form x.layer) };

    ghost stepped = { λ x p e lane under v y w. (y.id ≡ x.id)
        × FilteredSteps F.hooked L.stepped x.id x.filter x.layer p e lane under v y.filter y.layer
        w };

    ghost hears = { λ x place h y. FilteredHears L.hears x.layer place h y.layer };

    ghost acts_at = { λ x. FilteredActs x.id (F.acts x.filter) L.acts_at x.layer };

    ghost reloaded = { λ x n l y. (y.id ≡ x.id)
        × FilteredReloads F.reloaded L.reloaded x.id x.filter x.layer n l y.filter y.layer };

    ghost registered = { λ x y. (y.id ≡ x.id) × (y.filter ≡ x.filter)
        × L.registered x.layer y.layer };

    ghost attached = { λ x y. (y.filter ≡ x.filter) × L.attached x.layer y.layer };

    ghost laws = { filtered_laws F.laws L.laws (λ x. x.id) (λ x. x.filter) (λ x. x.layer) };

    ghost paths = { filtered_path_laws F.laws L.paths (λ x. x.id) (λ x. x.filter) (λ x. x.layer) };

    ghost reloads = { filtered_reloads F.laws F.reloads L.laws.heard L.reloads (λ x. x.id)
        (λ x. x.filter) (λ x. x.layer) };

    fn on_register_dispatch(&mut self) {
        self.layer.on_register_dispatch();
    }

    fn on_layer(&mut self, subscriber: &mut S) {
        if let Ok(id) = subscriber.register_filter() {
            self.id = id;
        }
        self.layer.on_layer(subscriber);
    }

    fn register_callsite(&self, meta: &Metadata, pass: &mut Pass) -> Interest {
        if self.id.is_unattached() {
            return Interest::Always;
        }
        let interest = self.filter.callsite_enabled(meta);
        if !interest.is_never() {
            self.layer.register_callsite(meta, pass);
        }
        pass.add_interest(interest);
        Interest::Always
    }

    fn enabled(&self, meta: &Metadata, ctx: &Context<'_, S>, pass: &mut Pass) -> bool {
        if self.id.is_unattached() {
            return true;
        }
        let inner = ctx.with_filter(self.id);
        if !self.filter.enabled(meta, &inner) {
            pass.set(self.id, false);
            return true;
        }
        pass.set(self.id, true);
        self.layer.enabled(meta, &inner, pass)
    }

    fn event_enabled(&self, event: &Event<'_>, ctx: &Context<'_, S>, pass: &mut Pass) -> bool {
        if self.id.is_unattached() {
            return true;
        }
        let inner = ctx.with_filter(self.id);
        if !pass.refused().is_enabled(self.id) {
            return true;
        }
        if !self.filter.event_enabled(event, &inner) {
            pass.set(self.id, false);
            return true;
        }
        // The pass holds no refusal of its own, so there is none to take back.
        self.layer.event_enabled(event, &inner, pass)
    }

    fn max_level_hint(&self) -> Option<LevelFilter> {
        self.filter.max_level_hint()
    }

    fn filter_count(&self) -> u32 {
        self.layer.filter_count().saturating_add(1)
    }

    fn is_filtered(&self) -> bool {
        true // The layer has a filter of its own.
    }

    fn is_absent(&self) -> bool {
        self.layer.is_absent()
    }

    #[inline(always)]
    fn notify(&mut self, notice: Notice<'_, '_>, ctx: &mut ContextMut<'_, S>) {
        if !ctx.admits(notice, self.id) {
            return;
        }
        let before = ctx.narrow(self.id);
        notify_filter(&mut self.filter, notice, ctx);
        self.layer.notify(notice, ctx);
        ctx.restore_mask(before);
    }

    fn reload(&mut self, number: u32, setting: Setting) -> bool {
        if self.id.contains(number) {
            return self.filter.reload(setting);
        }
        self.layer.reload(number, setting)
    }
}
