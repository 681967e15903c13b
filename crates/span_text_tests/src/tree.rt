//! Trees and lines whose lanes have names, and trees whose lanes interleave: those of the worked
//! run.
use crate::stamp::written;
use crate::text::{OTHER_LANE, worked_on};
use span_core::LevelFilter;
use span_fmt::{InterleavedForm, Lines, LinesForm, Tree, TreeForm};
use span_layers::Observer;
use span_registry::Registry;
use span_stacks::LayerExt;
use std::alloc::{AllocError, Global};
use std::process::Abort;
use std::test::Fail;

/// A name that is escaped between quotes.
const NAME: &str = "worker \"3\"";

const NAMED_TREE: &str = "0 > INFO app: outer user=7
0   > DEBUG app::net: inner try=-2
0     - WARN app::net: said what=\"a\\nb\" ok=true
\"worker \\\"3\\\"\" ~ INFO app: outer late=false
\"worker \\\"3\\\"\" - INFO app: heard
\"worker \\\"3\\\"\"   < DEBUG app::net: inner
0   - INFO app: heard
0 < INFO app: outer
";

const NAMED_LINES: &str = "0 WARN outer{user=7}:inner{try=-2}: app::net: said what=\"a\\nb\" ok=true
\"worker \\\"3\\\"\" INFO app: heard
0 INFO outer{user=7 late=false}: app: heard
";

/// The form of a tree in which a lane has a name.
fn named_tree(alloc: Global) -> Result<TreeForm, AllocError> {
    let mut form = TreeForm::new(alloc);
    form.name_lane(OTHER_LANE, NAME)?;
    Ok(form)
}

/// The form of lines in which a lane has a name.
fn named_lines(alloc: Global) -> Result<LinesForm, AllocError> {
    let mut form = LinesForm::new(alloc);
    form.name_lane(OTHER_LANE, NAME)?;
    Ok(form)
}

#[test]
fn streams_name_lanes(rt: HostRuntime) -> Result<(), Fail> {
    let tree = written(rt.alloc(), named_tree(rt.alloc())?)?;
    assert!(rt; tree.as_slice() == NAMED_TREE.as_bytes());
    let lines = written(rt.alloc(), named_lines(rt.alloc())?)?;
    assert!(rt; lines.as_slice() == NAMED_LINES.as_bytes());
    Ok(())
}

/// A tree and lines have these texts.
fn have_texts(rt: &impl Abort, tree: &Tree, lines: &Lines) {
    assert!(rt; tree.text() == NAMED_TREE);
    assert!(rt; lines.text() == NAMED_LINES);
}

#[test]
fn layers_name_lanes(rt: HostRuntime) -> Result<(), Fail> {
    let mut tree = Tree::new(rt.alloc());
    tree.name_lane(OTHER_LANE, NAME)?;
    let layer = Observer::new(tree).with_filter(LevelFilter::DEBUG);
    let trees = worked_on(rt.alloc(), Registry::new(rt.alloc()), layer)?;
    let mut lines = Lines::new(rt.alloc());
    lines.name_lane(OTHER_LANE, NAME)?;
    let layer = Observer::new(lines).with_filter(LevelFilter::DEBUG);
    let stack = worked_on(rt.alloc(), Registry::new(rt.alloc()), layer)?;
    let tree = trees.outer().layer().observer();
    have_texts(&rt, tree, stack.outer().layer().observer());
    Ok(())
}

/// Where a lane goes on behind another, its spans stand in front again.
const INTERLEAVED_TREE: &str = "0 > INFO app: outer user=7
0   > DEBUG app::net: inner try=-2
0     - WARN app::net: said what=\"a\\nb\" ok=true
\"worker \\\"3\\\"\" ~ INFO app: outer late=false
\"worker \\\"3\\\"\" - INFO app: heard
\"worker \\\"3\\\"\"   < DEBUG app::net: inner
0 | INFO app: outer
0   - INFO app: heard
0 < INFO app: outer
";

#[test]
fn lanes_that_interleave_show_their_spans(rt: HostRuntime) -> Result<(), Fail> {
    let mut form = InterleavedForm::new(rt.alloc());
    form.name_lane(OTHER_LANE, NAME)?;
    let tree = written(rt.alloc(), form)?;
    assert!(rt; tree.as_slice() == INTERLEAVED_TREE.as_bytes());
    Ok(())
}
