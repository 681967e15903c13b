//! Tests of what two callsites have in common.
use crate::store_fixture::{event_at, span_named};
use span_core::{FieldSet, Kind, Level, Metadata};
use std::test::Fail;

#[test]
fn fields_are_compared_by_their_names(rt: HostRuntime) -> Result<(), Fail> {
    let fields = FieldSet::new(&["user", "size"]);
    assert!(rt; fields.has_same_names(&FieldSet::new(&["user", "size"])));
    assert!(rt; !fields.has_same_names(&FieldSet::new(&["size", "user"])));
    assert!(rt; !fields.has_same_names(&FieldSet::new(&["user"])));
    Ok(())
}

#[test]
fn metadata_are_compared_by_what_they_show(rt: HostRuntime) -> Result<(), Fail> {
    let info = event_at(Level::INFO);
    assert!(rt; info.shows_same(&event_at(Level::INFO)));
    assert!(rt; !info.shows_same(&event_at(Level::WARN)));
    assert!(rt; !span_named("p").shows_same(&span_named("q")));
    let one = Metadata::new(
        1,
        "p",
        "tests",
        Level::INFO,
        Kind::SPAN,
        FieldSet::new(&["size"]),
    );
    assert!(rt; one.shows_same(&span_named("p")));
    let two = Metadata::new(
        2,
        "p",
        "tests",
        Level::INFO,
        Kind::SPAN,
        FieldSet::new(&["size"]),
    );
    assert!(rt; !one.shows_same(&two));
    Ok(())
}
