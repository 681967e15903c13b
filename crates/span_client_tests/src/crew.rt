//! Tests of scripts that workers serve: what they print, and their journals.
use crate::row::{ROWS, lines};
use crate::run::{chain_replies, chain_script};
use span_core::{FieldSet, Id, Kind, Lane, Level, Metadata, Parent, Pass};
use span_script::{RunFault, run_shared};
use span_shared::{Entry, Journal};
use std::alloc::{AllocError, Global};
use std::process::Abort;
use std::sync::Wait;
use std::test::Fail;

/// Rows of scripts, and the entries of their journals.
const JOURNALS: [(usize, &str); 13] = [
    (
        1,
        "new: 0 1 s2 contextual / new: 0 2 s3 in 1 / drop: 0 1 / drop closes: 0 2",
    ),
    (
        4,
        "new: 0 1 s2 contextual / new: 0 2 s2 contextual / enter: 0 1 / enter: 0 2 / \
         drop closes: 0 2 / current none: 0 / exit: 0 2 / current: 0 1",
    ),
    (
        5,
        "new: 0 1 s2 contextual / new: 0 2 s2 in 1 / drop: 0 1 / drop closes: 0 2 / exit: 0 2",
    ),
    (6, "new: 0 1 s0 root / exit: 0 0 / drop closes: 0 1"),
    (
        8,
        "new: 0 1 s2 contextual / new: 1 2 s2 contextual / enter: 0 1 / enter: 1 2 / \
         enter: 1 1 / enter: 1 2 / current: 0 1 / current: 1 1 / exit: 1 2 / current: 1 1 / \
         exit: 1 1 / current: 1 2",
    ),
    (
        9,
        "new: 0 1 s2 contextual / clone: 0 1 / drop: 0 1 / drop closes: 0 1",
    ),
    (
        13,
        "new: 0 1 s3 contextual refused 1 / new: 0 2 s2 in 1 / enter: 0 1 / enter: 0 2 / \
         record: 0 1 / follows: 0 2 1 / exit: 0 2 / drop closes: 0 2 / exit: 0 1 / \
         drop closes: 0 1",
    ),
    (
        15,
        "new: 0 1 s2 contextual / new: 0 2 s2 contextual / drop closes: 0 2 / follows: 0 1 2 / \
         follows: 0 1 1",
    ),
    (
        16,
        "event dropped: 0 s7 contextual / event: 0 s6 contextual / event: 0 s7 contextual / \
         event dropped: 0 s8 contextual / probe no: 0 s8 / probe yes: 0 s7",
    ),
    (
        17,
        "unmade: 0 s3 / new: 0 1 s1 root / event: 0 s6 root / drop closes: 0 1",
    ),
    (
        19,
        "event: 0 s8 contextual / reload: 0 0 Some(LevelFilter::DEBUG) / event: 0 s8 contextual / \
         reload: 0 1 Some(LevelFilter::OFF) / event: 0 s7 contextual",
    ),
    (
        20,
        "new: 0 1 s3 contextual refused 1 / reload: 0 0 Some(LevelFilter::DEBUG) / enter: 0 1 / \
         new: 0 2 s3 contextual / drop: 0 1 / drop closes: 0 2",
    ),
    (
        22,
        "event: 0 s7 contextual / reload: 0 0 Some(LevelFilter::INFO) / event: 0 s7 contextual / \
         event: 0 s6 contextual",
    ),
];

/// What an entry is.
fn named(entry: Entry) -> &'static str {
    match entry {
        Entry::New { .. } => "new",
        Entry::Unmade(_, _) => "unmade",
        Entry::Event { made: true, .. } => "event",
        Entry::Event { made: false, .. } => "event dropped",
        Entry::Probe(_, _, true) => "probe yes",
        Entry::Probe(_, _, false) => "probe no",
        Entry::Enter(_, _) => "enter",
        Entry::Exit(_, _) => "exit",
        Entry::Record(_, _) => "record",
        Entry::Follows(_, _, _) => "follows",
        Entry::Clone(_, _) => "clone",
        Entry::Drop(_, _, true) => "drop closes",
        Entry::Drop(_, _, false) => "drop",
        Entry::Reload(_, _, _) => "reload",
        Entry::Current(_, None) => "current none",
        Entry::Current(_, Some(_)) => "current",
    }
}

/// The lane of an entry.
fn lane_of(entry: Entry) -> u32 {
    match entry {
        Entry::New { lane, .. } | Entry::Event { lane, .. } => lane.0,
        Entry::Unmade(lane, _) | Entry::Probe(lane, _, _) => lane.0,
        Entry::Enter(lane, _) | Entry::Exit(lane, _) | Entry::Record(lane, _) => lane.0,
        Entry::Follows(lane, _, _) | Entry::Clone(lane, _) | Entry::Drop(lane, _, _) => lane.0,
        Entry::Reload(lane, _, _) | Entry::Current(lane, _) => lane.0,
    }
}

/// The number of an entry's span, else of its filter.
fn number_of(entry: Entry) -> Option<u64> {
    match entry {
        Entry::New { id, .. } => Some(id.into_u64()),
        Entry::Unmade(_, _) | Entry::Probe(_, _, _) | Entry::Event { .. } => None,
        Entry::Enter(_, id) | Entry::Exit(_, id) | Entry::Record(_, id) => Some(id.into_u64()),
        Entry::Follows(_, id, _) | Entry::Clone(_, id) => Some(id.into_u64()),
        Entry::Drop(_, id, _) => Some(id.into_u64()),
        Entry::Reload(_, number, _) => Some(u64::from(number)),
        Entry::Current(_, id) => Some(id?.into_u64()),
    }
}

/// The metadata of an entry's callsite.
fn metadata_of(entry: Entry) -> Option<Metadata> {
    match entry {
        Entry::New { metadata, .. } | Entry::Event { metadata, .. } => Some(metadata),
        Entry::Unmade(_, metadata) | Entry::Probe(_, metadata, _) => Some(metadata),
        _ => None,
    }
}

/// The parent that an entry's span or event asked for.
fn parent_of(entry: Entry) -> Option<Parent> {
    match entry {
        Entry::New { parent, .. } | Entry::Event { parent, .. } => Some(parent),
        _ => None,
    }
}

/// Names and levels of the callsites of scripts, by their numbers.
const SITES: [(&str, Level); 10] = [
    ("s0", Level::ERROR),
    ("s1", Level::WARN),
    ("s2", Level::INFO),
    ("s3", Level::DEBUG),
    ("s4", Level::TRACE),
    ("s5", Level::ERROR),
    ("s6", Level::WARN),
    ("s7", Level::INFO),
    ("s8", Level::DEBUG),
    ("s9", Level::TRACE),
];

/// The metadata of the callsite with this number, if scripts have it: five of spans without fields,
/// and then five of events.
fn site_of(number: u64) -> Option<Metadata> {
    let (name, level) = SITES.as_slice().get(number as usize).copied()?;
    let (kind, fields) = if number < 5 {
        (Kind::SPAN, FieldSet::new(&[]))
    } else {
        (Kind::EVENT, FieldSet::new(&["mute"]))
    };
    Some(Metadata::new(number, name, "script", level, kind, fields))
}

/// The name of a callsite, if its metadata are those that scripts have for it.
fn site_name(metadata: Metadata) -> &'static str {
    if site_of(metadata.callsite()) == Some(metadata) {
        metadata.name()
    } else {
        "another callsite"
    }
}

/// Writes the parent that is asked for, with a space before it.
fn write_parent(text: &mut String, parent: Parent) -> Result<(), AllocError> {
    match parent {
        Parent::Root => text.push_str(" root"),
        Parent::Contextual => text.push_str(" contextual"),
        Parent::Explicit(id) => write!(text, " in {}", id.into_u64()),
    }
}

/// Writes the verdict of a new span as a word, if a filter refused it, the other span that one
/// follows from, and the level that is set, each with a space before it.
fn write_rest(text: &mut String, entry: Entry) -> Result<(), AllocError> {
    match entry {
        Entry::New { verdict, .. } => match verdict.word() {
            0 => Ok(()),
            word => write!(text, " refused {word}"),
        },
        Entry::Follows(_, _, other) => write!(text, " {}", other.into_u64()),
        Entry::Reload(_, _, level) => write!(text, " {level:?}"),
        _ => Ok(()),
    }
}

/// Writes what an entry is, its lane, its number, its callsite, its parent, and the rest of it.
fn write_entry(text: &mut String, entry: Entry) -> Result<(), AllocError> {
    write!(text, "{}: {}", named(entry), lane_of(entry))?;
    if let Some(number) = number_of(entry) {
        write!(text, " {number}")?;
    }
    if let Some(metadata) = metadata_of(entry) {
        write!(text, " {}", site_name(metadata))?;
    }
    if let Some(parent) = parent_of(entry) {
        write_parent(text, parent)?;
    }
    write_rest(text, entry)
}

/// A line for each entry.
fn entries_of(alloc: Global, journal: &Journal) -> Result<String, AllocError> {
    let mut text = String::new(alloc);
    for place in 0..journal.len() {
        if let Some(entry) = journal.get(place) {
            write_entry(&mut text, entry)?;
            text.push_str("\n")?;
        }
    }
    Ok(text)
}

/// What the script of a row prints where workers serve it, and its journal.
fn shared(rt: &impl Wait, alloc: Global, script: &str) -> Result<(Vec<u8>, Journal), RunFault> {
    let input = lines(alloc, script)?;
    served_by_workers(rt, alloc, input.as_str())
}

/// The same of a whole script.
fn served_by_workers(
    rt: &impl Wait,
    alloc: Global,
    text: &str,
) -> Result<(Vec<u8>, Journal), RunFault> {
    let mut output = Vec::new(alloc);
    let journal = run_shared(rt, alloc, &mut text.as_bytes(), &mut output)?;
    Ok((output, journal))
}

#[test]
fn workers_print_what_one_prints(rt: HostRuntime) -> Result<(), Fail> {
    for (script, wanted) in ROWS {
        let (output, _) = shared(&rt, rt.alloc(), script)?;
        let wanted = lines(rt.alloc(), wanted)?;
        assert!(rt; output.as_slice() == wanted.as_bytes(), "{script}");
    }
    Ok(())
}

#[test]
fn journals_of_scripts(rt: HostRuntime) -> Result<(), Fail> {
    for (row, wanted) in JOURNALS {
        let (script, _) = ROWS[row];
        let (_, journal) = shared(&rt, rt.alloc(), script)?;
        let entries = entries_of(rt.alloc(), &journal)?;
        let wanted = lines(rt.alloc(), wanted)?;
        assert!(rt; entries.as_str() == wanted.as_str(), "{script}");
    }
    Ok(())
}

/// The entry of the span with this place in a chain, from 0 on: it is in the one before.
fn link_at(place: u64) -> Result<Entry, Fail> {
    let parent = match place {
        0 => Parent::Contextual,
        _ => Parent::Explicit(Id::from_u64(place)),
    };
    Ok(Entry::New {
        lane: Lane(0),
        metadata: site_of(2).ok_or("no callsite")?,
        parent,
        verdict: Pass::new().refused(),
        id: Id::from_u64(place.wrapping_add(1)),
    })
}

/// The entry of the drop of that span's handle: the last one closes.
fn drop_at(place: u64) -> Entry {
    Entry::Drop(Lane(0), Id::from_u64(place.wrapping_add(1)), place == 9_999)
}

#[test]
fn workers_serve_a_long_script(rt: HostRuntime) -> Result<(), Fail> {
    let script = chain_script(rt.alloc())?;
    let replies = chain_replies(rt.alloc())?;
    let (output, journal) = served_by_workers(&rt, rt.alloc(), script.as_str())?;
    assert!(rt; output.as_slice() == replies.as_bytes());
    assert!(rt; journal.len() == 20_000);
    for place in 0..10_000 {
        assert!(rt; journal.get(place) == Some(link_at(place)?));
        assert!(rt; journal.get(place.wrapping_add(10_000)) == Some(drop_at(place)));
    }
    Ok(())
}
