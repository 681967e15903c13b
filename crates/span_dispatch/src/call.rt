//! What a dispatcher is asked, as a value.
ghost use Rattle.std.specs.Prelude.{◌≡◌};
ghost use Rattle.span_dispatch.specs.Call.{lane_of_call};
ghost use Rattle.span_dispatch.specs.Serve.{call_of};

use crate::request::{Answer, Request};
use span_core::{Attributes, Event, Id, Lane, Metadata, Record};
use span_targets::Setting;

/// One thing that a dispatcher is asked, from a lane, or from none where a filter is reloaded.
///
/// Own to this port.
#[derive(Clone, Copy, Debug)]
pub enum Call<'a> {
    /// To open a span.
    OpenSpan(Lane, Attributes<'a>),
    /// To send an event.
    SendEvent(Lane, Event<'a>),
    /// To let the lane enter the span.
    Enter(Lane, Id),
    /// To let the lane leave the span.
    Exit(Lane, Id),
    /// To record values of the span.
    RecordValues(Lane, Id, Record<'a>),
    /// To record that the first span follows from the second.
    Follow(Lane, Id, Id),
    /// To add a handle to the span.
    AddHandle(Lane, Id),
    /// To drop a handle of the span.
    DropHandle(Lane, Id),
    /// Whether a span or an event with this metadata would be made.
    Probe(Lane, Metadata),
    /// Which span the lane is in.
    AskCurrent(Lane),
    /// To have the filter with this number take a setting.
    Reload(u32, Setting),
}

impl Call<'_> {
    /// The lane that the call comes from: none where a filter is reloaded.
    pub fn lane(&self) -> Option<Lane>
        ensures { result ≡ lane_of_call self.now }
    {
        match *self {
            Call::OpenSpan(lane, _)
            | Call::SendEvent(lane, _)
            | Call::Enter(lane, _)
            | Call::Exit(lane, _)
            | Call::RecordValues(lane, _, _)
            | Call::Follow(lane, _, _)
            | Call::AddHandle(lane, _)
            | Call::DropHandle(lane, _)
            | Call::Probe(lane, _)
            | Call::AskCurrent(lane) => Some(lane),
            Call::Reload(_, _) => None,
        }
    }
}

impl<'a> Request<'a> {
    /// The call that the request asks for, given the answers so far: none where it names no span.
    pub fn call(&self, past: &[Answer]) -> Option<Call<'a>>
        ensures { result ≡ call_of past.now self.now }
    {
        match *self {
            Request::NewSpan {
                lane,
                metadata,
                parent,
                values,
            } => { Some(Call::OpenSpan(lane, parent.attributes(past, metadata, values))) }
            Request::Event {
                lane,
                metadata,
                parent,
                values,
            } => { Some(Call::SendEvent(lane, parent.event(past, metadata, values))) }
            Request::Enter(lane, which) => Some(Call::Enter(lane, which.span_of(past)?)),
            Request::Exit(lane, which) => Some(Call::Exit(lane, which.span_of(past)?)),
            Request::Record(lane, which, values) => Some(Call::RecordValues(
                lane,
                which.span_of(past)?,
                Record::new(values),
            )),
            Request::Follows(lane, which, other) => Some(Call::Follow(
                lane,
                which.span_of(past)?,
                other.span_of(past)?,
            )),
            Request::Clone(lane, which) => Some(Call::AddHandle(lane, which.span_of(past)?)),
            Request::Drop(lane, which) => Some(Call::DropHandle(lane, which.span_of(past)?)),
            Request::Enabled(lane, metadata) => Some(Call::Probe(lane, metadata)),
            Request::Current(lane) => Some(Call::AskCurrent(lane)),
            Request::Reload(number, setting) => Some(Call::Reload(number, setting)),
        }
    }
}
