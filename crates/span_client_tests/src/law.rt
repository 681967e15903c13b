//! Tests of a visit, an open parent, a root, and the way down from it.
use span_core::{Attributes, FieldSet, Kind, Lane, Level, Metadata, Pass};
use span_examples::law::{enter_and_leave, open_parent, root_of, way_down};
use span_registry::{Registry, Subscriber};
use std::alloc::Global;
use std::process::Abort;
use std::test::Fail;

const LANE: Lane = Lane(0);

/// A root and its child: who is above whom, and that a visit leaves the lane where it was.
fn finds_the_way(rt: &impl Abort, alloc: Global, registry: &mut Registry) -> Result<(), Fail> {
    let site = Metadata::new(
        0,
        "job",
        "tests",
        Level::INFO,
        Kind::SPAN,
        FieldSet::new(&[]),
    );
    let above = Attributes::new_root(site, &[]);
    let root = registry.new_span(LANE, &above, &Pass::new())?;
    let below = Attributes::child_of(root, site, &[]);
    let child = registry.new_span(LANE, &below, &Pass::new())?;
    enter_and_leave(registry, LANE, child)?;
    assert!(rt; registry.current_span(LANE).is_none());
    let above_child = (open_parent(registry, child), root_of(registry, child));
    assert!(rt; above_child == (Some(root), Some(root)));
    let mut ids = Vec::new(alloc);
    for span in way_down(registry, child, alloc)? {
        ids.push(span.id())?;
    }
    assert!(rt; ids.as_slice() == [root, child].as_slice());
    Ok(())
}

#[test]
fn a_child_below_its_root(rt: HostRuntime) -> Result<(), Fail> {
    finds_the_way(&rt, rt.alloc(), &mut Registry::new(rt.alloc()))
}
