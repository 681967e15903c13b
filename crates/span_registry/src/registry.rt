//! The registry as a stack of its own, with no layer on it.
ghost use Rattle.std.specs.Prelude.{◌≡◌, ⊤, OnErr, OnOk, IfErr, IfOk, None, false, refl, true};
ghost use Rattle.span_core.specs.Pass.{interest_sum, refused_of};
ghost use Rattle.span_core.specs.Span.{asked_parent};
ghost use Rattle.span_store.specs.Step.{Enters, Exits, Opens, RefusesEnter, RefusesNew, asked};
ghost use Rattle.span_registry.specs.Conducts.{no_conducts};
ghost use Rattle.span_registry.specs.laws.Registry.{registry_path_laws, registry_laws, registry_reloads};
ghost use Rattle.span_registry.specs.Form.{Terminal, Base};
ghost use Rattle.span_registry.specs.Reload.{unreloaded};
ghost use Rattle.span_registry.specs.Subscriber.{registry_interest, sum_after};

use crate::lookup::LookupSpan;
use crate::subscriber::{AlwaysUsable, Subscriber};
use span_core::{
    Attributes, Current, Event, FilterId, Id, Interest, Lane, LevelFilter, Metadata, Pass, Record,
    TraceError,
};
use span_store::{Data, Registry};
use span_targets::Setting;

impl LookupSpan for Registry {
    ghost registry = { λ s. s };

    ghost with_registry = { λ s w. w };

    ghost registry_with = { λ s w. refl };

    ghost with_twice = { λ s v w. refl };

    ghost with_own = { λ s. refl };

    fn root(&self) -> &Registry {
        self
    }

    fn root_mut(&mut self) -> &mut Registry {
        self
    }

    fn span_data(&self, id: Id) -> Option<Data<'_>> {
        self.data_of(id)
    }

    fn register_filter(&mut self) -> Result<FilterId, TraceError> {
        self.hand_out_filter()
    }
}

impl Subscriber for Registry {
    ghost has_form = { λ s f. f ≡ Terminal Base };

    ghost stepped = { λ x p e lane v y w. w ≡ v };

    ghost hears = { λ x place h y. ⊤ };

    ghost acts_at = { no_conducts };

    ghost registered = { λ x y. y ≡ x };

    ghost laws = { registry_laws };

    ghost reloaded = { unreloaded };

    ghost paths = { registry_path_laws };

    ghost reloads = { registry_reloads };

    fn on_register_dispatch(&mut self)
        ensures { self.new ≡ self.old }
    {
        // No layer is in use.
    }

    /// `always` without filters, else the pass's sum, which is taken: `always` where it is empty.
    fn register_callsite(&self, _meta: &Metadata, pass: &mut Pass) -> Interest
        ensures interest { result ≡ registry_interest self.now.filters (interest_sum pass.old) }
        ensures sum { interest_sum pass.new ≡ sum_after self.now.filters (interest_sum pass.old) }
        ensures refused { refused_of pass.new ≡ refused_of pass.old }
    {
        if self.filters() == 0 {
            return Interest::Always;
        }
        match pass.take_interest() {
            Some(interest) => interest,
            None => Interest::Always,
        }
    }

    fn enabled(&self, _lane: Lane, _meta: &Metadata, pass: &mut Pass) -> bool
        ensures answer { result ≡ true }
        ensures pass { pass.new ≡ pass.old }
    {
        true // No filter refuses.
    }

    fn event_enabled(&self, _lane: Lane, _event: &Event<'_>, pass: &mut Pass) -> bool
        ensures answer { result ≡ true }
        ensures pass { pass.new ≡ pass.old }
    {
        true // No filter refuses the event.
    }

    fn max_level_hint(&self) -> Option<LevelFilter>
        ensures { result ≡ None }
    {
        None // It may want all levels.
    }

    fn new_span(
        &mut self,
        lane: Lane,
        attrs: &Attributes<'_>,
        pass: &Pass,
    ) -> Result<Id, TraceError>
        ensures opened { IfOk result
            (λ id. Opens lane (asked attrs.now pass.now) id self.old self.new) }
        ensures refused { IfErr result (RefusesNew self.old lane (asked_parent attrs.now)) }
        ensures unchanged { OnErr result (self.new ≡ self.old) }
    {
        self.open(lane, attrs, pass)
    }

    fn record(&mut self, _lane: Lane, _id: Id, _values: &Record<'_>)
        ensures { self.new ≡ self.old }
    {
        // No layer is notified of the values.
    }

    fn record_follows_from(&mut self, _lane: Lane, _id: Id, _follows: Id)
        ensures { self.new ≡ self.old }
    {
        // No layer is notified of the two spans.
    }

    fn event(&mut self, _lane: Lane, _event: &Event<'_>, _pass: &Pass)
        ensures { self.new ≡ self.old }
    {
        // No layer is notified of the event.
    }

    fn enter(&mut self, lane: Lane, id: Id) -> Result<(), TraceError>
        ensures entered { OnOk result (Enters lane id self.old self.new) }
        ensures refused { IfErr result (RefusesEnter self.old lane id) }
        ensures unchanged { OnErr result (self.new ≡ self.old) }
    {
        self.enter_on(lane, id)
    }

    fn exit(&mut self, lane: Lane, id: Id)
        ensures { Exits lane id self.old self.new }
    {
        self.leave_on(lane, id);
    }

    fn reload(&mut self, _number: u32, _setting: Setting) -> bool {
        false // No filter is in it.
    }

    fn clone_span(&mut self, _lane: Lane, id: Id) -> Result<Id, TraceError> {
        self.add_handle(id)?;
        Ok(id)
    }

    fn current_span(&self, lane: Lane) -> Current {
        self.current_on(lane)
    }

    fn close_hooks(&mut self, _lane: Lane, _id: Id)
        ensures { self.new ≡ self.old }
    {
        // No layer is notified of the close.
    }

    fn is_filtered(&self) -> bool
        ensures { result ≡ false }
    {
        false // No layer stands under a filter.
    }

    fn is_absent(&self) -> bool
        ensures { result ≡ false }
    {
        false // No layer is absent.
    }

    fn is_registry(&self) -> bool
        ensures { result ≡ true }
    {
        true // No layer stands on it.
    }
}

impl AlwaysUsable for Registry {
    ghost always = { λ s. tt };
}
