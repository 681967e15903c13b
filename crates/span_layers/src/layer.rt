//! What a layer is asked and notified of.
ghost use Rattle.std.specs.Prelude.{◌≡◌, ⊤, false, min};
ghost use Rattle.span_layers.specs.Acts.{PathLaws};
ghost use Rattle.span_layers.specs.Layer.{LayerEnabled, LayerEvent, LayerInterest, LayerLaws, LayerSteps, LeavesAlone, MayAsk, MayNotify, Notified};
ghost use Rattle.span_layers.specs.Number.{TakesNumbers, filters_in};
ghost use Rattle.span_registry.specs.Behaviour.{OnClose, OnEnter, OnEvent, OnExit, OnFollows, OnIdChange, OnNewSpan, OnRecord};
ghost use Rattle.span_registry.specs.Conducts.{ActsAt};
ghost use Rattle.span_registry.specs.Context.{HandsOn, HasNoRefusals, HasNoRefusalsUnlessAsked};
ghost use Rattle.span_registry.specs.Form.{Form, is_absent, is_marked};
ghost use Rattle.span_registry.specs.Reload.{ReloadLaws, ReloadSteps, takes_setting};
ghost use Rattle.span_registry.specs.Notice.{notice_of};
ghost use Rattle.span_registry.specs.Position.{HearSteps};
ghost use Rattle.span_registry.specs.Question.{ShowsBy, hint_of};

use span_core::{Attributes, Event, Id, Interest, LevelFilter, Metadata, Pass, Record};
use span_registry::{Context, ContextMut, Notice, Subscriber};
use span_targets::Setting;

/// A part of a stack, on a subscriber of the type `S`.
///
/// What the layer answers follows from its form. It is notified of a new span and of an event as
/// the pass says, of all else as the verdicts of spans say. A hook may write extensions, and leaves
/// the rest unchanged; a layer whose hooks send events says so in its form, and then nobody says
/// who is notified in its stack. The registry stays sound in any case. Filters are asked of new
/// spans and of events alone, so refusals may be lent only with those.
///
/// Stands for `tracing_subscriber::Layer`, with one hook that changes the layer, `notify`, in the
/// place of eight: the eight have their names still, for whoever calls them.
pub trait Layer<S: Subscriber> {
    /// The layer may be asked and notified. Only one that holds a closure says more than that it
    /// always may.
    ghost usable: { Self → Type 0 } = { λ x. ⊤ };

    /// The layer has this form. One that doesn't answer as a form does has none.
    ghost has_form: { Self → Form → Type 0 };

    /// How the layer goes on when it is notified.
    ghost stepped: { LayerSteps Self };

    /// Which notices the leaf at a place was notified of, from one value of the layer to another.
    ghost hears: { HearSteps Self };

    /// Which conducts the filters have on the path at a place. Only a path of plain filters has
    /// any.
    ghost acts_at: { ActsAt Self };

    /// How the layer goes on when a filter is reloaded.
    ghost reloaded: { ReloadSteps Self };

    /// How the layer goes on when it is put in use.
    ghost registered: { Self → Self → Type 0 };

    /// How the layer goes on when it is put on a subscriber, but for its filters' numbers.
    ghost attached: { Self → Self → Type 0 };

    /// Puts the layer in use.
    fn on_register_dispatch(&mut self)
        requires { usable self.old }
        ensures usable { usable self.new }
        ensures registered { registered self.old self.new };

    /// Gives the layer's filters the next numbers of the registry that the subscriber stands on.
    fn on_layer(&mut self, subscriber: &mut S)
        requires layer { usable self.old }
        requires subscriber { S.usable subscriber.old }
        ensures layer { usable self.new }
        ensures subscriber { S.usable subscriber.new }
        ensures attached { attached self.old self.new }
        ensures numbers { TakesNumbers S.registry S.with_registry has_form self.old subscriber.old
            self.new subscriber.new };

    /// The layer's interest in what a callsite with this metadata makes. The filters add their
    /// interests to the pass.
    fn register_callsite(&self, meta: &Metadata, pass: &mut Pass) -> Interest
        requires { usable self.now }
        ensures { LayerInterest has_form self.now meta.now pass.old result pass.new };

    /// Whether the layer enables a span or an event with this metadata. The filters' answers go
    /// into the pass.
    fn enabled(&self, meta: &Metadata, ctx: &Context<'_, S>, pass: &mut Pass) -> bool
        requires { MayAsk usable S.usable self.now ctx.now }
        ensures { LayerEnabled S.registry has_form self.now meta.now ctx.now pass.old result
            pass.new };

    /// Whether the layer enables this event, after `enabled`. The filters' answers go into the
    /// pass.
    fn event_enabled(&self, event: &Event<'_>, ctx: &Context<'_, S>, pass: &mut Pass) -> bool
        requires { MayAsk usable S.usable self.now ctx.now }
        ensures { LayerEvent S.registry has_form self.now event.now ctx.now pass.old result
            pass.new };

    /// The highest level that the layer may enable, if it knows one.
    fn max_level_hint(&self) -> Option<LevelFilter>
        requires { usable self.now }
        ensures { ShowsBy (has_form self.now) hint_of result };

    /// Has the layer's filter with this number take a setting, and answers whether there is one
    /// that takes it. Else nothing changes.
    ///
    /// Own to this port.
    fn reload(&mut self, number: u32, setting: Setting) -> bool
        requires { usable self.old }
        ensures usable { usable self.new }
        ensures taken { ShowsBy (has_form self.old) (λ f. takes_setting f number setting) result }
        ensures reloaded { reloaded self.old number setting self.new }
        ensures unchanged { result ≡ false → self.new ≡ self.old };

    /// How many filters the layer has, 4,294,967,295 at most.
    fn filter_count(&self) -> u32
        ensures { ShowsBy (has_form self.now) (λ f. min (filters_in f) u32.MAX) result };

    /// Whether the layer is marked: under a filter, or made of such layers as its form says.
    fn is_filtered(&self) -> bool
        ensures { ShowsBy (has_form self.now) is_marked result };

    /// Whether a layer in this one is absent.
    fn is_absent(&self) -> bool
        ensures { ShowsBy (has_form self.now) is_absent result };

    /// Notifies of what happened: of a new span or an event, of values, or that a span is followed,
    /// entered, left, cloned or closing.
    fn notify(&mut self, notice: Notice<'_, '_>, ctx: &mut ContextMut<'_, S>)
        requires usable { MayNotify usable S.usable self.old ctx.old }
        requires refusals { HasNoRefusalsUnlessAsked (notice_of notice) ctx.old }
        ensures usable { MayNotify usable S.usable self.new ctx.new }
        ensures rest { HandsOn S.registry ctx.old ctx.new }
        ensures alone { LeavesAlone S.registry S.with_registry has_form self.old ctx.old ctx.new }
        ensures hook { Notified S.registry has_form stepped (notice_of notice.entry) self.old
            ctx.old self.new ctx.new };

    /// Where the layer is notified, or put in use, it keeps what it has of its form, and its leaves
    /// are notified of what the plan says.
    ghost laws: { LayerLaws has_form stepped hears registered };

    /// The paths of plain filters act as their conducts say.
    ghost paths: { PathLaws has_form stepped registered acts_at };

    /// Where a filter takes a setting the form's rules are kept, no leaf is notified, and the paths
    /// that hold the filter act by the setting.
    ghost reloads: { ReloadLaws has_form reloaded hears acts_at };

    /// Notifies of a new span, while it can be read.
    final fn on_new_span(&mut self, attrs: &Attributes<'_>, id: Id, ctx: &mut ContextMut<'_, S>)
        requires { MayNotify usable S.usable self.old ctx.old }
        ensures usable { MayNotify usable S.usable self.new ctx.new }
        ensures rest { HandsOn S.registry ctx.old ctx.new }
        ensures alone { LeavesAlone S.registry S.with_registry has_form self.old ctx.old ctx.new }
        ensures hook { Notified S.registry has_form stepped (OnNewSpan attrs.now id)
            self.old ctx.old self.new ctx.new }
    {
        self.notify(Notice::NewSpan(attrs, id), ctx);
    }

    /// Notifies of values that a span was given later.
    final fn on_record(&mut self, id: Id, values: &Record<'_>, ctx: &mut ContextMut<'_, S>)
        requires usable { MayNotify usable S.usable self.old ctx.old }
        requires refusals { HasNoRefusals ctx.old }
        ensures usable { MayNotify usable S.usable self.new ctx.new }
        ensures rest { HandsOn S.registry ctx.old ctx.new }
        ensures alone { LeavesAlone S.registry S.with_registry has_form self.old ctx.old ctx.new }
        ensures hook { Notified S.registry has_form stepped (OnRecord id values.now)
            self.old ctx.old self.new ctx.new }
    {
        self.notify(Notice::Record(id, values), ctx);
    }

    /// Notifies that a span follows from another one.
    final fn on_follows_from(&mut self, id: Id, follows: Id, ctx: &mut ContextMut<'_, S>)
        requires usable { MayNotify usable S.usable self.old ctx.old }
        requires refusals { HasNoRefusals ctx.old }
        ensures usable { MayNotify usable S.usable self.new ctx.new }
        ensures rest { HandsOn S.registry ctx.old ctx.new }
        ensures alone { LeavesAlone S.registry S.with_registry has_form self.old ctx.old ctx.new }
        ensures hook { Notified S.registry has_form stepped (OnFollows id follows) self.old ctx.old
            self.new ctx.new }
    {
        self.notify(Notice::FollowsFrom(id, follows), ctx);
    }

    /// Notifies of an event.
    final fn on_event(&mut self, event: &Event<'_>, ctx: &mut ContextMut<'_, S>)
        requires { MayNotify usable S.usable self.old ctx.old }
        ensures usable { MayNotify usable S.usable self.new ctx.new }
        ensures rest { HandsOn S.registry ctx.old ctx.new }
        ensures alone { LeavesAlone S.registry S.with_registry has_form self.old ctx.old ctx.new }
        ensures hook { Notified S.registry has_form stepped (OnEvent event.now) self.old ctx.old
            self.new ctx.new }
    {
        self.notify(Notice::Event(event), ctx);
    }

    /// Notifies that a span is entered.
    final fn on_enter(&mut self, id: Id, ctx: &mut ContextMut<'_, S>)
        requires usable { MayNotify usable S.usable self.old ctx.old }
        requires refusals { HasNoRefusals ctx.old }
        ensures usable { MayNotify usable S.usable self.new ctx.new }
        ensures rest { HandsOn S.registry ctx.old ctx.new }
        ensures alone { LeavesAlone S.registry S.with_registry has_form self.old ctx.old ctx.new }
        ensures hook { Notified S.registry has_form stepped (OnEnter id) self.old ctx.old
            self.new ctx.new }
    {
        self.notify(Notice::Enter(id), ctx);
    }

    /// Notifies that a span is left.
    final fn on_exit(&mut self, id: Id, ctx: &mut ContextMut<'_, S>)
        requires usable { MayNotify usable S.usable self.old ctx.old }
        requires refusals { HasNoRefusals ctx.old }
        ensures usable { MayNotify usable S.usable self.new ctx.new }
        ensures rest { HandsOn S.registry ctx.old ctx.new }
        ensures alone { LeavesAlone S.registry S.with_registry has_form self.old ctx.old ctx.new }
        ensures hook { Notified S.registry has_form stepped (OnExit id) self.old ctx.old
            self.new ctx.new }
    {
        self.notify(Notice::Exit(id), ctx);
    }

    /// Notifies that a span's handle was cloned under another id.
    final fn on_id_change(&mut self, id: Id, new: Id, ctx: &mut ContextMut<'_, S>)
        requires usable { MayNotify usable S.usable self.old ctx.old }
        requires refusals { HasNoRefusals ctx.old }
        ensures usable { MayNotify usable S.usable self.new ctx.new }
        ensures rest { HandsOn S.registry ctx.old ctx.new }
        ensures alone { LeavesAlone S.registry S.with_registry has_form self.old ctx.old ctx.new }
        ensures hook { Notified S.registry has_form stepped (OnIdChange id new) self.old ctx.old
            self.new ctx.new }
    {
        self.notify(Notice::IdChange(id, new), ctx);
    }

    /// Notifies that a span is closing, while it can still be read.
    final fn on_close(&mut self, id: Id, ctx: &mut ContextMut<'_, S>)
        requires usable { MayNotify usable S.usable self.old ctx.old }
        requires refusals { HasNoRefusals ctx.old }
        ensures usable { MayNotify usable S.usable self.new ctx.new }
        ensures rest { HandsOn S.registry ctx.old ctx.new }
        ensures alone { LeavesAlone S.registry S.with_registry has_form self.old ctx.old ctx.new }
        ensures hook { Notified S.registry has_form stepped (OnClose id) self.old ctx.old
            self.new ctx.new }
    {
        self.notify(Notice::Close(id), ctx);
    }
}
