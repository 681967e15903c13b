//! The callsites of the spans and events, and the requests that are made of them.

use span_core::{FieldSet, Id, Kind, Lane, Level, LevelFilter, Metadata};
use span_dispatch::{Request, Which, WhichParent};
use span_targets::Setting;

/// The lane of all that is prepared.
pub const LANE: Lane = Lane(0);

/// A lane that has entered nothing yet.
pub const OTHER_LANE: Lane = Lane(1);

/// How many spans are prepared, each in the one before.
pub const SPANS: u64 = 16;

/// How many of them the lane is in.
pub const ENTERED: u64 = 8;

/// How many callsites are kept then.
pub const CALLSITES: usize = 15;

/// A callsite of spans that is kept.
pub const KEPT_SPAN: u64 = 1;

/// A callsite of events that is kept.
pub const KEPT_EVENT: u64 = 15;

/// A callsite of spans that nothing was asked of.
pub const UNKNOWN_SPAN: u64 = 20;

/// A callsite of events that nothing was asked of.
pub const UNKNOWN_EVENT: u64 = 21;

/// A callsite of debug spans that nothing was asked of.
const DEBUG_SPAN: u64 = 22;

/// A callsite of debug events that nothing was asked of.
const DEBUG_EVENT: u64 = 23;

/// The metadata of a callsite of spans.
pub(crate) fn span_metadata(callsite: u64) -> Metadata {
    metadata(callsite, "span", Level::INFO, Kind::SPAN)
}

/// The metadata of a callsite of events.
pub(crate) fn event_metadata(callsite: u64) -> Metadata {
    metadata(callsite, "event", Level::INFO, Kind::EVENT)
}

fn metadata(callsite: u64, name: &'static str, level: Level, kind: Kind) -> Metadata {
    Metadata::new(callsite, name, "memory", level, kind, FieldSet::new(&[]))
}

/// The id of the span that was made as this one, counted from 1: a fresh registry hands them out
/// so.
pub(crate) fn nth(number: u64) -> Id {
    Id::from_u64(number)
}

/// The same, as requests name it.
pub(crate) fn known(number: u64) -> Which {
    Which::Known(nth(number))
}

/// A request for a new span.
pub(crate) fn new_span(callsite: u64, parent: WhichParent) -> Request<'static> {
    Request::NewSpan {
        lane: LANE,
        metadata: span_metadata(callsite),
        parent,
        values: &[],
    }
}

/// A request for an event.
pub(crate) fn event(callsite: u64) -> Request<'static> {
    event_of(event_metadata(callsite))
}

/// The same of these metadata.
fn event_of(metadata: Metadata) -> Request<'static> {
    Request::Event {
        lane: LANE,
        metadata,
        parent: WhichParent::Contextual,
        values: &[],
    }
}

/// An event of a callsite that is kept with other metadata.
pub(crate) fn other_event() -> Request<'static> {
    event_of(metadata(KEPT_EVENT, "event", Level::WARN, Kind::EVENT))
}

/// The request with this name, of spans that are prepared, and of a callsite that nothing was asked
/// of.
pub(crate) fn request_named(name: &str) -> Option<Request<'static>> {
    match name {
        "enabled" => Some(Request::Enabled(LANE, event_metadata(UNKNOWN_EVENT))),
        "new_span" => Some(new_span(UNKNOWN_SPAN, WhichParent::Contextual)),
        "event" => Some(event(UNKNOWN_EVENT)),
        "enter" => Some(Request::Enter(LANE, known(ENTERED + 1))),
        "exit" => Some(Request::Exit(LANE, known(ENTERED))),
        "record" => Some(Request::Record(LANE, known(1), &[])),
        "follows_from" => Some(Request::Follows(LANE, known(1), known(2))),
        "clone_span" => Some(Request::Clone(LANE, known(1))),
        "drop_span" => Some(Request::Drop(LANE, known(SPANS))),
        "set_level" => Some(Request::Reload(0, Setting::Level(LevelFilter::WARN))),
        "current_span" => Some(Request::Current(LANE)),
        _ => request_of_kept(name),
    }
}

/// The request with this name of a callsite that is kept.
fn request_of_kept(name: &str) -> Option<Request<'static>> {
    match name {
        "enabled_kept" => Some(Request::Enabled(LANE, event_metadata(KEPT_EVENT))),
        "event_kept" => Some(event(KEPT_EVENT)),
        "span_kept" => Some(new_span(KEPT_SPAN, WhichParent::Contextual)),
        "event_of_other_metadata" => Some(other_event()),
        _ => request_above(name),
    }
}

/// The request with this name of a level that the stack's hint rules out.
fn request_above(name: &str) -> Option<Request<'static>> {
    let event = metadata(DEBUG_EVENT, "event", Level::DEBUG, Kind::EVENT);
    let span = metadata(DEBUG_SPAN, "span", Level::DEBUG, Kind::SPAN);
    match name {
        "enabled_above" => Some(Request::Enabled(LANE, event)),
        "event_above" => Some(event_of(event)),
        "span_above" => Some(Request::NewSpan {
            lane: LANE,
            metadata: span,
            parent: WhichParent::Contextual,
            values: &[],
        }),
        _ => request_in_vain(name),
    }
}

/// The request with this name that is refused, whatever memory there is: of a span that was never
/// opened, or a filter that isn't there.
fn request_in_vain(name: &str) -> Option<Request<'static>> {
    let never = WhichParent::Explicit(known(0));
    match name {
        "enter_unknown" => Some(Request::Enter(LANE, known(0))),
        "span_in_unknown" => Some(new_span(UNKNOWN_SPAN, never)),
        "span_kept_in_unknown" => Some(new_span(KEPT_SPAN, never)),
        "set_level_of_none" => Some(Request::Reload(9, Setting::Level(LevelFilter::WARN))),
        _ => None,
    }
}

/// Requests that take no memory once a dispatcher is prepared: more than a list has room for that
/// was given no more.
pub(crate) fn sparing() -> [Request<'static>; 6] {
    [
        Request::Clone(LANE, known(2)),
        Request::Current(LANE),
        Request::Record(LANE, known(2), &[]),
        Request::Drop(LANE, known(2)),
        Request::Enabled(LANE, event_metadata(KEPT_EVENT)),
        Request::Follows(LANE, known(2), known(3)),
    ]
}

/// The requests that prepare a dispatcher: spans each in the one before, of which the lane is in
/// some, an event, and what takes no more memory. Their journal has 32 entries, and 15 callsites
/// are kept: so many that the next needs memory.
pub(crate) fn preparation() -> [Request<'static>; 32] {
    let mut requests = [new_span(1, WhichParent::Root); 32];
    for place in 1..32 {
        requests[place] = request_at(place as u64);
    }
    requests
}

/// The request at a place of the preparation, but for the first. The last spans are of one
/// callsite.
fn request_at(place: u64) -> Request<'static> {
    match place {
        ..=13 => new_span(place + 1, WhichParent::Explicit(known(place))),
        14 | 15 => new_span(14, WhichParent::Explicit(known(place))),
        16..=23 => Request::Enter(LANE, known(place - 15)),
        24 => event(KEPT_EVENT),
        25 => Request::Clone(LANE, known(1)),
        26 => Request::Record(LANE, known(1), &[]),
        27 => Request::Follows(LANE, known(1), known(2)),
        _ => Request::Enabled(LANE, span_metadata(place - 27)),
    }
}
