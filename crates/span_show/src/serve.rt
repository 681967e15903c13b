//! Requests, served on a new registry with a stream of lines or with a timeline outside it.
ghost use Rattle.std.specs.List.{AllByRecursion};
ghost use Rattle.std.specs.Prelude.{◌≡◌, ◌⊎◌, IfErr, IfOk, false};
ghost use Rattle.span_stacks.specs.Layered.{inner_of, outer_of};
ghost use Rattle.span_show.specs.Serve.{FoundMemory, HasAllRoom, HasRoomOnNew, IsReadyStack, IsServedOn, IsStreamed, IsToldOf};

use crate::fault::ShowFault;
use span_core::TraceError;
use span_dispatch::{Answer, Dispatch, Request};
use span_fmt::{Form, Stream, laws as written};
use span_layers::{Layer, Observer};
use span_registry::{Registry, Subscriber};
use span_stacks::{Layered, SubscriberExt, laws};
use span_times::{Counted, Taken, Timeline, WithTimeline, serve_timed};
use std::alloc::Global;
use std::io::Write;

/// A stack, and outside it a stream.
pub(crate) type WithStream<S, F, W> = Layered<Observer<Stream<F, W>>, S>;

/// Puts an honest layer on a new registry.
fn put_on_new<L: Layer<Registry> + Drop>(alloc: Global, layer: L) -> Layered<L, Registry>
    requires usable { L.usable layer }
    requires honest { HasRoomOnNew L.has_form layer }
    ensures usable { ⟦<Layered<L, Registry> as Subscriber>⟧.usable result }
    ensures ready { IsReadyStack ⟦<Layered<L, Registry> as Subscriber>⟧ result }
    ensures layer { L.attached layer (outer_of result) }
    ensures registry { HasAllRoom (inner_of result) }
{
    laws::numbers_are_own();
    match Registry::new(alloc).with(layer) {
        Ok(stack) => stack,
        Err(_) => unreachable!(), // There is room.
    }
}

/// Memory was refused to a request that is answered so.
fn lacks_memory(answer: &Answer) -> bool
    ensures { result ≡ false → FoundMemory answer.now }
{
    match answer {
        Answer::Refused(TraceError::OutOfMemory) => true,
        _ => false,
    }
}

/// Memory was refused to one of these requests, by their answers.
fn one_lacks_memory(answers: &[Answer]) -> bool
    ensures { result ≡ false → AllByRecursion FoundMemory answers.now }
{
    for answer in answers {
        if lacks_memory(answer) {
            return true;
        }
    }
    false
}

/// Serves these requests on a stack with a stream outermost, and answers the stack.
fn served<S: Subscriber + Drop, F: Form<S> + Drop, W: Write + Drop>(
    alloc: Global,
    stack: WithStream<S, F, W>,
    requests: &[Request<'_>],
) -> Result<WithStream<S, F, W>, ShowFault>
    requires usable { ⟦<WithStream<S, F, W> as Subscriber>⟧.usable stack }
    requires ready { IsReadyStack ⟦<WithStream<S, F, W> as Subscriber>⟧ stack }
    ensures served { IfOk result
        (IsServedOn ⟦<WithStream<S, F, W> as Subscriber>⟧ requests.now stack) }
    ensures fault { IfErr result (λ fault. fault ≡ ShowFault.Memory) }
{
    let mut dispatch = Dispatch::new(alloc, stack);
    let Ok(answers) = dispatch.serve(alloc, requests) else {
        return Err(ShowFault::Memory); // It is refused for nothing else.
    };
    if one_lacks_memory(&answers) {
        return Err(ShowFault::Memory);
    }
    Ok(dispatch.into_stack())
}

/// Serves these requests, and hands a writer the lines that a form gives of them, as they come.
pub(crate) fn stream<F: Form<Registry> + Drop, W: Write + Drop>(
    alloc: Global,
    form: F,
    requests: &[Request<'_>],
    writer: W,
) -> Result<W, ShowFault>
    ensures streamed { IfOk result (λ after. IsStreamed F.gives
        ⟦<WithStream<Registry, F, W> as Subscriber>⟧ W.contents form requests.now writer after) }
    ensures fault { IfErr result (λ fault. (fault ≡ ShowFault.Memory) ⊎ (fault ≡ ShowFault.Lost)) }
{
    written::a_stream_writes_what_it_is_told::<Registry, F, W>();
    let layer = Observer::new(Stream::new(form, writer));
    let stack = served(alloc, put_on_new(alloc, layer), requests)?;
    let (layer, _registry) = stack.into_parts();
    let stream = layer.into_observer();
    if stream.failed() {
        return Err(ShowFault::Lost);
    }
    Ok(stream.into_writer())
}

/// What a timeline keeps of these requests, on time that is counted.
pub(crate) fn told_of(alloc: Global, requests: &[Request<'_>]) -> Result<Taken, ShowFault>
    ensures told { IfOk result (λ taken.
        IsToldOf ⟦<WithTimeline<Registry, Counted> as Subscriber>⟧ requests.now taken) }
    ensures fault { IfErr result (λ fault. fault ≡ ShowFault.Memory) }
{
    let layer = Observer::new(Timeline::new(alloc, Counted::new()).with_values(true));
    let mut dispatch = Dispatch::new(alloc, put_on_new(alloc, layer));
    let Ok(answers) = serve_timed(alloc, &mut dispatch, requests) else {
        return Err(ShowFault::Memory); // It is refused for nothing else.
    };
    if one_lacks_memory(&answers) {
        return Err(ShowFault::Memory);
    }
    let (layer, _registry) = dispatch.into_stack().into_parts();
    let mut timeline = layer.into_observer();
    if timeline.failed() {
        return Err(ShowFault::Memory);
    }
    Ok(timeline.take())
}
