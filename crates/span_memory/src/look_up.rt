//! All look-ups of a span, by a registry and by a context.

use crate::site::{KEPT_EVENT, LANE, event_metadata, nth};
use span_core::{Event, FilterId, Id, TraceError};
use span_registry::{Context, LookupSpan, Registry, Tag};

/// Looks a span up in each way. Fails where one of them doesn't find it.
pub(crate) fn look_up(registry: &Registry) -> Result<(), TraceError> {
    let id = nth(5);
    let context = Context::new(registry, LANE);
    if finds_span(registry, id) && finds_in_context(&context, id) && finds_event(&context) {
        return Ok(());
    }
    Err(TraceError::UnknownSpan(id))
}

/// Whether a registry finds a span, its parent and its scope. It has no value.
fn finds_span(registry: &Registry, id: Id) -> bool {
    let Some(span) = registry.span(id) else {
        return false;
    };
    let mut scope = span.scope();
    let itself = scope.next().is_some();
    let above = scope.next().is_some();
    let value = span.extensions().get(Tag::<u64>::new(0)).is_some();
    itself && above && span.parent().is_some() && !value
}

/// Whether a context finds a span and its scope.
fn finds_in_context(context: &Context<'_, Registry>, id: Id) -> bool {
    let scope = context.span_scope(id).is_some();
    let found = context.span(id).is_some() && context.metadata(id).is_some();
    let shown = context.exists(id) && context.is_enabled_for(id, FilterId::none());
    scope && found && shown
}

/// Whether a context finds the span that the lane is in, and that of an event.
fn finds_event(context: &Context<'_, Registry>) -> bool {
    let event = Event::new(event_metadata(KEPT_EVENT), &[]);
    let current = context.lookup_current().is_some() && !context.current_span().is_none();
    current && context.event_span(&event).is_some() && context.event_scope(&event).is_some()
}
