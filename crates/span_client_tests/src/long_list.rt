//! Tests of lists that are long: many requests, many callsites, and many notices.
use span_core::{FieldSet, Kind, Lane, Level, Metadata, TraceError};
use span_dispatch::{Answer, Dispatch, Recorded, Recorder, Request, WhichParent};
use span_layers::Layer;
use span_registry::{Registry, Subscriber};
use span_stacks::{Layered, SubscriberExt};
use std::alloc::{AllocError, Global};
use std::process::Abort;
use std::test::Fail;

const LANE: Lane = Lane(0);

/// How many events there are.
const EVENTS: u64 = 5_000;

/// How many callsites they are from.
const CALLSITES: u64 = 1_500;

/// An event of the callsite with this number.
fn event(callsite: u64) -> Request<'static> {
    let fields = FieldSet::new(&[]);
    let metadata = Metadata::new(callsite, "sent", "tests", Level::INFO, Kind::EVENT, fields);
    Request::Event {
        lane: LANE,
        metadata,
        parent: WhichParent::Contextual,
        values: &[],
    }
}

/// An event from one callsite after another, and from the first again after the last.
fn events(alloc: Global) -> Result<Vec<Request<'static>>, AllocError> {
    let mut requests = Vec::new(alloc);
    for number in 0..EVENTS {
        requests.push(event(number % CALLSITES))?;
    }
    Ok(requests)
}

/// Puts a layer on a stack, puts that in use, and serves a list.
fn serve_by<S: Subscriber + Drop, L: Layer<S> + Drop>(
    alloc: Global,
    stack: S,
    layer: L,
    requests: &[Request<'_>],
) -> Result<(Dispatch<Layered<L, S>>, Vec<Answer>), TraceError>
    requires stack { S.usable stack }
    requires layer { L.usable layer }
{
    let stack = match stack.with(layer) {
        Ok(made) => made,
        Err(back) => return Err(back.error),
    };
    let mut dispatch = Dispatch::new(alloc, stack);
    let answers = dispatch.serve(alloc, requests)?;
    Ok((dispatch, answers))
}

#[test]
fn many_events_from_many_callsites(rt: HostRuntime) -> Result<(), Fail> {
    let requests = events(rt.alloc())?;
    let registry = Registry::new(rt.alloc());
    let recorder = Recorder::new(rt.alloc());
    let (dispatch, answers) = serve_by(rt.alloc(), registry, recorder, &requests)?;
    let done = answers.iter().filter(|answer| **answer == Answer::Done);
    assert!(rt; (answers.len(), done.count()) == (5_000, 5_000));
    let recorder = dispatch.stack().outer();
    assert!(rt; (recorder.failed(), recorder.notices().len()) == (false, 5_000));
    for (place, callsite) in [(0, 0), (1_499, 1_499), (1_500, 0), (4_999, 499)] {
        let notice = recorder.notices().get(place);
        assert!(rt; notice == Some(&Recorded::Event(LANE, callsite)));
    }
    Ok(())
}
