//! What the laws of the store and of look-ups are good for.
ghost use Rattle.std.specs.Option.{option_map};
ghost use Rattle.std.specs.Prelude.{◌≡◌, ◌↔◌, IfErr, IfOk, IfSome, IsSome, IsTrue, OnErr, OnOk};
ghost use Rattle.span_core.specs.Span.{number_of};
ghost use Rattle.span_store.specs.Closes.{HasNoClosing};
ghost use Rattle.span_store.specs.Step.{RefusesEnter};
ghost use Rattle.span_registry.specs.Law.{RestoresStacks};
ghost use Rattle.span_examples.specs.Law.{GivesFromRoot, IsOpenIn, IsRootAbove, IsThereIn, LeadsDownTo, parent_in};

use span_core::{Id, Lane, TraceError};
use span_registry::{LookupSpan, Registry, ScopeFromRoot, SpanData, Subscriber, laws};
use std::alloc::Global;

/// Looks in on a span: enters it and leaves it again. Nobody's stack tells of the visit.
pub fn enter_and_leave(registry: &mut Registry, lane: Lane, id: Id) -> Result<(), TraceError>
    ensures restored { OnOk result (RestoresStacks registry.old.store registry.new.store) }
    ensures refused { IfErr result (RefusesEnter registry.old lane id) }
    ensures unchanged { OnErr result (registry.new ≡ registry.old) }
{
    laws::leaving_undoes_entering();
    registry.enter(lane, id)?;
    registry.exit(lane, id);
    Ok(())
}

/// The parent of a span. It can't have closed: its child keeps it open.
pub fn open_parent(registry: &Registry, id: Id) -> Option<Id>
    ensures parent { option_map number_of result ≡ parent_in registry.now id }
    ensures open { IfSome result (IsOpenIn registry.now) }
{
    laws::parents_are_open();
    laws::a_registry_is_sound(registry);
    registry.span_data(id)?.parent()
}

/// Whether a span is still there. Between two requests it is enough to ask whether it is open.
pub fn is_there(registry: &Registry, id: Id) -> bool
    requires { HasNoClosing registry.now.store.spans }
    ensures { IsTrue result ↔ IsThereIn registry.now id }
{
    laws::open_between_requests();
    registry.is_open(id)
}

/// Climbs from a span to its root. Every span has one, so the climb always arrives.
pub fn root_of(registry: &Registry, id: Id) -> Option<Id>
    ensures root { IfSome result (IsRootAbove registry.now id) }
    ensures arrives { IsSome result ↔ IsThereIn registry.now id }
{
    laws::chains_end_at_a_root();
    laws::a_registry_is_sound(registry);
    let mut root = None;
    for span in registry.span(id)?.scope() {
        root = Some(span.id());
    }
    root
}

/// The way down to a span from its root: what `scope` gives, the other way round.
pub fn way_down(
    registry: &Registry,
    id: Id,
    alloc: Global,
) -> Result<ScopeFromRoot<'_, Registry>, TraceError>
    ensures reversed { IfOk result (GivesFromRoot registry.now id) }
    ensures descent { IfOk result (LeadsDownTo registry.now id) }
{
    laws::look_ups_are_of_the_store();
    laws::a_registry_is_sound(registry);
    let Some(span) = registry.span(id) else {
        return Err(TraceError::UnknownSpan(id));
    };
    span.scope().from_root(alloc)
}
