//! Tests of a span's extensions.
use crate::store_fixture::{is_shown_as, open, root, value_of};
use span_core::{Id, TraceError};
use span_registry::{Extensions, ExtensionsMut, LookupSpan, Registry, Tag};
use std::alloc::Global;
use std::process::Abort;
use std::test::Fail;

/// The extensions of a span, to be changed.
fn extensions_of(registry: &mut Registry, id: Id) -> Result<ExtensionsMut<'_>, Fail> {
    let extensions = registry.extensions_mut(id).ok_or("no extensions")?;
    Ok(extensions)
}

/// Puts a number under a tag. Answers why it is refused, and the number then.
fn put(extensions: ExtensionsMut<'_>, tag: Tag<i64>, value: i64) -> Option<(TraceError, i64)> {
    match extensions.insert(tag, value) {
        Ok(()) => None,
        Err(refused) => Some((refused.error, refused.value)),
    }
}

/// The numbers under two tags.
fn two_of(extensions: &ExtensionsMut<'_>, x: Tag<i64>, y: Tag<i64>) -> [Option<i64>; 2] {
    [extensions.get(x).copied(), extensions.get(y).copied()]
}

/// Two values under one type's tags, and none under another type's.
fn stand_under_their_tags(rt: &impl Abort, registry: &mut Registry) -> Result<(), Fail> {
    let id = open(registry, &root())?;
    let extensions = extensions_of(registry, id)?;
    let (x, y) = (Tag::new(0), Tag::new(1));
    assert!(rt; (put(extensions, x, 5), put(extensions, y, 10)) == (None, None));
    assert!(rt; two_of(&extensions, x, y) == [Some(5), Some(10)]);
    assert!(rt; extensions.remove(x) == Some(5));
    assert!(rt; extensions.get(Tag::<bool>::new(0)).is_none());
    let refused = put(extensions, y, 11);
    assert!(rt; refused == Some((TraceError::TagTaken, 11)));
    assert!(rt; two_of(&extensions, x, y) == [None, Some(10)]);
    Ok(())
}

#[test]
fn values_stand_under_their_tags(rt: HostRuntime) -> Result<(), Fail> {
    stand_under_their_tags(&rt, &mut Registry::new(rt.alloc()))
}

/// A value of each type, under tags with one number.
fn insert_six(alloc: Global, extensions: ExtensionsMut<'_>) -> Result<(), Fail> {
    extensions.insert(Tag::new(7), 1u64)?;
    extensions.insert(Tag::new(7), -2i64)?;
    extensions.insert(Tag::new(7), true)?;
    extensions.insert(Tag::new(7), String::from_str(alloc, "three")?)?;
    extensions.insert(Tag::new(7), vec![in alloc; 4u8, 5]?)?;
    extensions.insert(Tag::new(7), vec![in alloc; 6u64]?)?;
    Ok(())
}

/// All values under tags with that number, as text.
fn text_of_all(alloc: Global, extensions: Extensions<'_>) -> Result<String, Fail> {
    let count = extensions.get(Tag::<u64>::new(7));
    let change = extensions.get(Tag::<i64>::new(7));
    let flag = extensions.get(Tag::<bool>::new(7));
    let text = extensions.get(Tag::<String>::new(7));
    let bytes = extensions.get(Tag::<Vec<u8>>::new(7));
    let numbers = extensions.get(Tag::<Vec<u64>>::new(7));
    let ones = format!(in alloc; "{count:?} {change:?} {flag:?}")?;
    Ok(format!(in alloc; "{ones} {text:?} {bytes:?} {numbers:?}")?)
}

/// The values of each type, put in and read back, as text.
fn text_of_six(alloc: Global, registry: &mut Registry) -> Result<String, Fail> {
    let id = open(registry, &root())?;
    insert_six(alloc, extensions_of(registry, id)?)?;
    let span = registry.span(id).ok_or("no span")?;
    text_of_all(alloc, span.extensions())
}

#[test]
fn six_types_of_values(rt: HostRuntime) -> Result<(), Fail> {
    let text = text_of_six(rt.alloc(), &mut Registry::new(rt.alloc()))?;
    assert!(rt;
        text.as_str() == "Some(1) Some(-2) Some(true) Some(\"three\") Some([4, 5]) Some([6])"
    );
    Ok(())
}

/// The tag of a count.
fn count() -> Tag<u64> {
    Tag::new(3)
}

/// Puts a value under a tag, and answers the one that was there.
fn replace(extensions: ExtensionsMut<'_>, value: u64) -> Result<Option<u64>, Fail> {
    Ok(extensions.replace(count(), value)?)
}

/// Writes over the value that is there.
fn write_over(extensions: ExtensionsMut<'_>, value: u64) -> Result<(), Fail> {
    *extensions.get_mut(count()).ok_or("no value")? = value;
    Ok(())
}

/// A value is put in, replaced and written over.
fn replaces_and_changes(rt: &impl Abort, registry: &mut Registry) -> Result<(), Fail> {
    let id = open(registry, &root())?;
    let first = replace(extensions_of(registry, id)?, 1)?;
    let second = replace(extensions_of(registry, id)?, 2)?;
    write_over(extensions_of(registry, id)?, 42)?;
    let third = value_of(registry, id, count());
    assert!(rt; [first, second, third] == [None, Some(1), Some(42)]);
    Ok(())
}

#[test]
fn values_are_replaced_and_changed(rt: HostRuntime) -> Result<(), Fail> {
    assert!(rt; count().number() == 3);
    replaces_and_changes(&rt, &mut Registry::new(rt.alloc()))
}

/// The extensions of a span, to be changed and to be read, are written so after two values are put
/// in.
fn shows_both(rt: &impl Abort, alloc: Global, registry: &mut Registry) -> Result<(), Fail> {
    let id = open(registry, &root())?;
    let extensions = extensions_of(registry, id)?;
    extensions.insert(Tag::new(0), 1u64)?;
    extensions.insert(Tag::new(0), false)?;
    is_shown_as(rt, alloc, &extensions, "ExtensionsMut { len: 2 }")?;
    let span = registry.span(id).ok_or("no span")?;
    is_shown_as(rt, alloc, &span.extensions(), "Extensions { len: 2 }")
}

#[test]
fn texts(rt: HostRuntime) -> Result<(), Fail> {
    shows_both(&rt, rt.alloc(), &mut Registry::new(rt.alloc()))?;
    is_shown_as(&rt, rt.alloc(), &Tag::<bool>::new(5), "Tag(5)")
}
