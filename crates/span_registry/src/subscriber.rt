//! What a stack is asked and notified of.
ghost use Rattle.std.specs.Prelude.{◌≡◌, ⊤, false, IfErr, IfOk, OnErr, OnOk};
ghost use Rattle.span_core.specs.Span.{asked_parent};
ghost use Rattle.span_store.specs.Step.{Clones, Enters, Exits, RefusesClone, RefusesEnter, RefusesNew, ShowsCurrent};
ghost use Rattle.span_registry.specs.Behaviour.{OnClose, OnEnter, OnEvent, OnExit, OnFollows, OnRecord};
ghost use Rattle.span_registry.specs.Conducts.{ActsAt, StackPathLaws};
ghost use Rattle.span_registry.specs.Form.{Form, is_absent, is_base, is_marked};
ghost use Rattle.span_registry.specs.Hooks.{Notifies, AnswersEnabled, AnswersEvent, AnswersInterest, OpensAndNotifies, StackLaws, StackSteps, Stays, no_filter};
ghost use Rattle.span_registry.specs.Reload.{ReloadLaws, ReloadSteps, takes_setting};
ghost use Rattle.span_registry.specs.Position.{HearSteps};
ghost use Rattle.span_registry.specs.Question.{ShowsBy, hint_of, refusals};

use crate::lookup::LookupSpan;
use span_core::{
    Attributes, Current, Event, Id, Interest, Lane, LevelFilter, Metadata, Pass, Record, TraceError,
};
use span_targets::Setting;

/// A stack: a registry, or a layer on a stack.
///
/// Questions answer by the stack's form and keep what its filters said in the pass. State calls go
/// to the registry first, and then the layers are notified: of a new span and an event as the pass
/// says, of all else as the verdicts of spans say. A layer's hook may write extensions, and leaves
/// the rest of the registry alone. Who is notified is promised of stacks in which no hook sends
/// events (`WritesOnlyExtensions`, of the form). A stack without a form may answer anything.
///
/// Stands for `tracing_core::Subscriber`, with the lane and the pass handed in.
pub trait Subscriber: LookupSpan {
    /// The stack may be asked and notified. Only one that holds a closure says more than that it
    /// always may.
    ghost usable: { Self → Type 0 } = { λ s. ⊤ };

    /// The stack has this form, by which its answers follow. One whose answers follow from no form
    /// has none.
    ghost has_form: { Self → Form → Type 0 };

    /// How the stack's layers go on when they are notified.
    ghost stepped: { StackSteps Self };

    /// Which notices the leaf at a position was notified of from one value of the stack to another.
    ghost hears: { HearSteps Self };

    /// Which conducts the filters have on the path at a position. Only a path of plain filters has
    /// any.
    ghost acts_at: { ActsAt Self };

    /// How the stack goes on when a filter is reloaded.
    ghost reloaded: { ReloadSteps Self };

    /// How the stack's layers go on when they are put in use.
    ghost registered: { Self → Self → Type 0 };

    /// Puts all layers of the stack in use.
    fn on_register_dispatch(&mut self)
        requires { usable self.old }
        ensures usable { usable self.new }
        ensures registered { registered self.old self.new }
        ensures registry { Self.registry self.new ≡ Self.registry self.old };

    /// Whether what this callsite makes is enabled. The filters add their interests to the pass.
    fn register_callsite(&self, meta: &Metadata, pass: &mut Pass) -> Interest
        requires { usable self.now }
        ensures { AnswersInterest Self.registry has_form self.now meta.now pass.old result
            pass.new };

    /// Whether a span or an event with this metadata is enabled. The filters' answers go into the
    /// pass.
    fn enabled(&self, lane: Lane, meta: &Metadata, pass: &mut Pass) -> bool
        requires { usable self.now }
        ensures { AnswersEnabled Self.registry has_form self.now lane meta.now pass.old result
            pass.new };

    /// Whether this event is enabled, after `enabled`. The filters' answers go into the pass.
    fn event_enabled(&self, lane: Lane, event: &Event<'_>, pass: &mut Pass) -> bool
        requires { usable self.now }
        ensures { AnswersEvent Self.registry has_form self.now lane event.now pass.old result
            pass.new };

    /// The highest level that may be enabled, if the stack knows one.
    fn max_level_hint(&self) -> Option<LevelFilter>
        requires { usable self.now }
        ensures { ShowsBy (has_form self.now) hint_of result };

    /// Opens a span with one handle, and answers its id, which was never handed out before. The
    /// filters that the pass holds as refusing are its verdict.
    ///
    /// Refused where the explicit parent isn't open (`UnknownParent`), else where the parent's
    /// children are at the limit (`CountFull`), else where no place or id is left (`TooManySpans`),
    /// else for want of memory.
    fn new_span(
        &mut self,
        lane: Lane,
        attrs: &Attributes<'_>,
        pass: &Pass,
    ) -> Result<Id, TraceError>
        requires { usable self.old }
        ensures usable { usable self.new }
        ensures opened { IfOk result
            (OpensAndNotifies Self.registry has_form stepped lane attrs.now pass.now self.old
            self.new) }
        ensures refused { IfErr result
            (RefusesNew (Self.registry self.old) lane (asked_parent attrs.now)) }
        ensures unchanged { OnErr result (self.new ≡ self.old) };

    /// Notifies of values that a span was given later.
    fn record(&mut self, lane: Lane, id: Id, values: &Record<'_>)
        requires { usable self.old }
        ensures usable { usable self.new }
        ensures hooks { Notifies Self.registry has_form stepped lane no_filter
            (OnRecord id values.now) Stays self.old self.new };

    /// Notifies that a span follows from another one.
    fn record_follows_from(&mut self, lane: Lane, id: Id, follows: Id)
        requires { usable self.old }
        ensures usable { usable self.new }
        ensures hooks { Notifies Self.registry has_form stepped lane no_filter
            (OnFollows id follows) Stays self.old self.new };

    /// Notifies of an event.
    fn event(&mut self, lane: Lane, event: &Event<'_>, pass: &Pass)
        requires { usable self.old }
        ensures usable { usable self.new }
        ensures hooks { Notifies Self.registry has_form stepped lane (refusals pass.now)
            (OnEvent event.now) Stays self.old self.new };

    /// Enters a span on a lane, whether it stands there already or not.
    ///
    /// Refused where the span isn't open (`UnknownSpan`), else for want of memory.
    fn enter(&mut self, lane: Lane, id: Id) -> Result<(), TraceError>
        requires { usable self.old }
        ensures usable { usable self.new }
        ensures entered { OnOk result
            (Notifies Self.registry has_form stepped lane no_filter (OnEnter id) (Enters lane id)
            self.old self.new) }
        ensures refused { IfErr result (RefusesEnter (Self.registry self.old) lane id) }
        ensures unchanged { OnErr result (self.new ≡ self.old) };

    /// Leaves a span on a lane, whether it is open and stands there or not.
    fn exit(&mut self, lane: Lane, id: Id)
        requires { usable self.old }
        ensures usable { usable self.new }
        ensures hooks { Notifies Self.registry has_form stepped lane no_filter (OnExit id)
            (Exits lane id) self.old self.new };

    /// Adds a handle to a span, and answers its id. The lane makes no difference, and no layer is
    /// notified.
    ///
    /// Refused where the span isn't open (`UnknownSpan`), else where its handles are at the limit
    /// (`CountFull`).
    fn clone_span(&mut self, lane: Lane, id: Id) -> Result<Id, TraceError>
        requires { usable self.old }
        ensures usable { usable self.new }
        ensures same { IfOk result (λ cloned. cloned ≡ id) }
        ensures cloned { OnOk result (Clones id (Self.registry self.old) (Self.registry self.new)) }
        ensures alone { self.new ≡ Self.with_registry self.old (Self.registry self.new) }
        ensures refused { IfErr result (RefusesClone (Self.registry self.old) id) }
        ensures unchanged { OnErr result (self.new ≡ self.old) };

    /// The span that a lane is in. This looks at the newest entry of the lane's stack that is no
    /// duplicate, and at no other.
    fn current_span(&self, lane: Lane) -> Current
        ensures { ShowsCurrent (Self.registry self.now).store lane result };

    /// Notifies that a span is closing, while it is still in the store.
    fn close_hooks(&mut self, lane: Lane, id: Id)
        requires { usable self.old }
        ensures usable { usable self.new }
        ensures hooks { Notifies Self.registry has_form stepped lane no_filter (OnClose id) Stays
            self.old self.new };

    /// Has the filter with this number take a setting, and answers whether there is one that takes
    /// it. Else nothing changes.
    ///
    /// Own to this port.
    fn reload(&mut self, number: u32, setting: Setting) -> bool
        requires { usable self.old }
        ensures usable { usable self.new }
        ensures registry { Self.registry self.new ≡ Self.registry self.old }
        ensures taken { ShowsBy (has_form self.old) (λ f. takes_setting f number setting) result }
        ensures reloaded { reloaded self.old number setting self.new }
        ensures unchanged { result ≡ false → self.new ≡ self.old };

    /// Whether a layer of the stack is marked: it stands under a filter of its own.
    fn is_filtered(&self) -> bool
        ensures { ShowsBy (has_form self.now) is_marked result };

    /// Whether a layer of the stack is absent.
    fn is_absent(&self) -> bool
        ensures { ShowsBy (has_form self.now) is_absent result };

    /// Whether the stack is a registry alone.
    fn is_registry(&self) -> bool
        ensures { ShowsBy (has_form self.now) is_base result };

    /// A notified stack keeps its form, its leaves are notified of what the plan says, and another
    /// registry makes no difference to either.
    ghost laws: { StackLaws Self.with_registry usable has_form stepped hears registered };

    /// The paths of plain filters act as their conducts say.
    ghost paths: { StackPathLaws Self.with_registry has_form stepped registered acts_at };

    /// Where a filter takes a setting, the form's rules are kept, no leaf is notified, and the
    /// paths that hold the filter act by the setting.
    ghost reloads: { ReloadLaws has_form reloaded hears acts_at };
}

/// A stack that can be called without a premise, since no closure is in it.
///
/// Code that can show no premise can call a dispatcher of it: a guard that leaves a span at its
/// end, a cell, a bridge from other code.
///
/// Own to this port.
pub trait AlwaysUsable: Subscriber {
    /// The stack may be asked and notified, whatever has become of it.
    ghost always: { (s : Self) → Self.usable s };
}
