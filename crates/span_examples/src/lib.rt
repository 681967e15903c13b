//! What callers write, with contracts of their own, over a registry, stacks and dispatchers, and
//! what a filter and a layer of one's own look like: `docs/calling.md` quotes it.
#![tactic(auto)]

ghost use Rattle.std.specs.FinMap.{get};
ghost use Rattle.std.specs.Option.{option_copied};
ghost use Rattle.std.specs.Prelude.{◌≡◌, ◌++◌, ◌∷◌, ℕ, [], IfErr, IfOk, List, None, OnErr, OnOk, Some, length, min};
ghost use Rattle.span_core.specs.Span.{number_of};
ghost use Rattle.span_store.specs.Closes.{HasNoClosing};
ghost use Rattle.span_store.specs.Step.{RefusesEnter, RefusesRelease};
ghost use Rattle.span_store.specs.Store.{IsClosing};
ghost use Rattle.span_registry.specs.Subscriber.{SameButExtensions};
ghost use Rattle.span_examples.specs.Uses.{Begins, DropsAndLists, IsChainOf, Lists, RemovesAndLists};
ghost use Rattle.span_examples.specs.Uses.{left, name_in, parent_name_in, stack_in, value_in};

pub mod boxed;
pub mod chain;
pub mod conducts;
pub mod dispatch;
pub mod filter;
pub mod guard;
pub mod isolation;
pub mod kinds;
pub mod law;
pub mod layer;
pub mod outline;
pub mod reload;
pub mod stack;

use span_core::{Attributes, Id, Lane, Pass, Record, TraceError};
use span_registry::{
    ExtensionValue, LookupSpan, Registry, Released, SpanData, Subscriber, Tag, laws,
};
use std::alloc::Global;

/// Opens a span and enters it. Where memory to enter it is refused, the span is dropped again.
pub fn begin(
    registry: &mut Registry,
    lane: Lane,
    attrs: &Attributes<'_>,
    pass: &Pass,
    alloc: Global,
) -> Result<Id, TraceError>
    requires { HasNoClosing registry.old.store.spans }
    ensures begun { IfOk result (Begins lane attrs.now pass.now registry.old registry.new) }
    ensures settled { HasNoClosing registry.new.store.spans }
{
    let id = registry.new_span(lane, attrs, pass)?;
    if let Err(error) = registry.enter(lane, id) {
        let _ = drop_span(registry, id, alloc);
        return Err(error);
    }
    Ok(id)
}

/// Keeps a value with a span under a tag, in place of the one before.
pub fn keep<T: ExtensionValue>(
    registry: &mut Registry,
    id: Id,
    tag: Tag<T>,
    value: T,
) -> Result<(), TraceError>
    ensures kept { OnOk result (value_in T.place registry.new id tag ≡ Some value) }
    ensures rest { SameButExtensions registry.old registry.new }
{
    laws::tags_keep_their_values::<T, T>();
    let Some(extensions) = registry.extensions_mut(id) else {
        return Err(TraceError::UnknownSpan(id));
    };
    match extensions.replace(tag, value) {
        Ok(_before) => Ok(()),
        Err(rejected) => Err(rejected.error),
    }
}

/// The value that is kept with a span under a tag.
pub fn kept<T: ExtensionValue + Copy>(registry: &Registry, id: Id, tag: Tag<T>) -> Option<T>
    ensures { result ≡ value_in T.place registry.now id tag }
{
    registry.span_data(id)?.extensions().get(tag).copied()
}

/// The name of a span.
pub fn name(registry: &Registry, id: Id) -> Option<&'static str>
    ensures { option_copied result ≡ name_in registry.now (number_of id) }
{
    Some(registry.span(id)?.name())
}

/// The name of a span's parent.
pub fn parent_name(registry: &Registry, id: Id) -> Option<&'static str>
    ensures { option_copied result ≡ parent_name_in registry.now (number_of id) }
{
    let parent = registry.span_data(id)?.parent()?;
    name(registry, parent)
}

/// How many spans there are from this one up to its root, and none where it isn't in the store.
pub fn depth(registry: &Registry, id: Id) -> u64
    ensures all { (xs : List ℕ) → IsChainOf registry.now id xs → result ≡ min (length xs) u64.MAX }
    ensures absent { get registry.now.store.spans (number_of id) ≡ None → result ≡ 0 }
{
    let Some(span) = registry.span(id) else {
        return 0;
    };
    let mut depth = 0u64;
    for _above in span.scope() {
        depth = depth.saturating_add(1);
    }
    depth
}

/// Leaves a span, and then drops a handle of it.
pub fn finish(
    registry: &mut Registry,
    lane: Lane,
    id: Id,
    alloc: Global,
) -> Result<Option<Vec<Id>>, TraceError>
    requires { HasNoClosing registry.old.store.spans }
    ensures closed { IfOk result (DropsAndLists id (left registry.old lane id) registry.new) }
    ensures settled { HasNoClosing registry.new.store.spans }
{
    registry.exit(lane, id);
    drop_span(registry, id, alloc)
}

/// Drops a handle, and takes out what closes by that, children before their parents.
///
/// Answers the spans that closed. Where memory for the list is refused there is none, and they
/// closed all the same.
pub fn drop_span(
    registry: &mut Registry,
    id: Id,
    alloc: Global,
) -> Result<Option<Vec<Id>>, TraceError>
    requires { HasNoClosing registry.old.store.spans }
    ensures closed { IfOk result (DropsAndLists id registry.old registry.new) }
    ensures refused { IfErr result (RefusesRelease registry.old id) }
    ensures unchanged { OnErr result (registry.new ≡ registry.old) }
    ensures settled { HasNoClosing registry.new.store.spans }
{
    match registry.release(id)? {
        Released::StillOpen => Ok(Some(Vec::new(alloc))),
        Released::Closing => Ok(close_all(registry, id, alloc)),
    }
}

/// Takes a closing span out, and then each parent that closes by that.
fn close_all(registry: &mut Registry, id: Id, alloc: Global) -> Option<Vec<Id>>
    requires { IsClosing registry.old.store.spans (number_of id) }
    ensures { RemovesAndLists id registry.old registry.new result }
{
    let mut closed = Some(Vec::new(alloc));
    let mut next = Some(id);
    while let Some(span) = next {
        closed = noted(closed, span);
        next = registry.remove(span);
    }
    closed
}

/// The list with a span more, unless memory was refused before or is now.
fn noted(list: Option<Vec<Id>>, id: Id) -> Option<Vec<Id>>
    ensures { (xs : List ℕ) → Lists list xs → Lists result (xs ++ number_of id ∷ []) }
{
    let mut list = list?;
    list.push(id).ok()?;
    Some(list)
}

/// Enters a span, records values of it, and leaves it, in whatever stands on a registry.
pub fn record_in<S: Subscriber>(
    s: &mut S,
    lane: Lane,
    id: Id,
    values: &Record<'_>,
) -> Result<(), TraceError>
    requires { S.usable s.old }
    ensures usable { S.usable s.new }
    ensures spans { (S.registry s.new).store.spans ≡ (S.registry s.old).store.spans }
    ensures stacks { (n : ℕ) → stack_in (S.registry s.new) n ≡ stack_in (S.registry s.old) n }
    ensures refused { IfErr result (RefusesEnter (S.registry s.old) lane id) }
    ensures unchanged { OnErr result (s.new ≡ s.old) }
{
    s.enter(lane, id)?;
    s.record(lane, id, values);
    s.exit(lane, id);
    Ok(())
}
