//! Calls of a span's extensions.

use crate::call::RegistryCall;
use crate::site::nth;
use span_core::{Id, Rejected, TraceError};
use span_registry::{ExtensionsMut, Registry, Tag};

/// The value that is handed in.
const VALUE: u64 = 8;

/// No call of these is refused so: here it says that there is no value under a tag, or that another
/// came back.
const NOTHING: TraceError = TraceError::TooManyFilters;

/// How a call of the extensions of a span ends.
pub(crate) fn called_of_values(
    registry: &mut Registry,
    call: RegistryCall,
) -> Result<(), TraceError> {
    match call {
        RegistryCall::Insert => insert(values_of(registry, nth(2))?, 0),
        RegistryCall::InsertOneMore => insert(values_of(registry, nth(1))?, 15),
        RegistryCall::InsertTaken => insert(values_of(registry, nth(1))?, 0),
        RegistryCall::Replace => replace(values_of(registry, nth(2))?, 0),
        RegistryCall::ReplaceKept => replace(values_of(registry, nth(1))?, 0),
        RegistryCall::RemoveValue => remove(values_of(registry, nth(1))?, 0),
        _ => change(values_of(registry, nth(1))?, 0),
    }
}

/// The extensions of a span, to be changed.
fn values_of(registry: &mut Registry, id: Id) -> Result<ExtensionsMut<'_>, TraceError> {
    match registry.extensions_mut(id) {
        Some(values) => Ok(values),
        None => Err(TraceError::UnknownSpan(id)),
    }
}

/// Puts a value under a tag.
fn insert(mut values: ExtensionsMut<'_>, tag: u32) -> Result<(), TraceError> {
    match values.insert(Tag::new(tag), VALUE) {
        Ok(()) => Ok(()),
        Err(rejected) => Err(handed_back(rejected)),
    }
}

/// The same, in place of the value that is there.
fn replace(mut values: ExtensionsMut<'_>, tag: u32) -> Result<(), TraceError> {
    match values.replace(Tag::new(tag), VALUE) {
        Ok(_) => Ok(()),
        Err(rejected) => Err(handed_back(rejected)),
    }
}

/// Takes the value from under a tag.
fn remove(mut values: ExtensionsMut<'_>, tag: u32) -> Result<(), TraceError> {
    match values.remove::<u64>(Tag::new(tag)) {
        Some(_) => Ok(()),
        None => Err(NOTHING),
    }
}

/// Changes the value under a tag.
fn change(mut values: ExtensionsMut<'_>, tag: u32) -> Result<(), TraceError> {
    let Some(value) = values.get_mut(Tag::new(tag)) else {
        return Err(NOTHING);
    };
    *value = VALUE;
    Ok(())
}

/// Why a value was rejected; it must come back as it was handed in.
fn handed_back(rejected: Rejected<u64>) -> TraceError {
    if rejected.value == VALUE {
        return rejected.error;
    }
    NOTHING
}
