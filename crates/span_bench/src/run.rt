//! From lines to rounds.
ghost use Rattle.span_dispatch.specs.Serve.{stack_of};
ghost use Rattle.span_store.specs.Store.{IsFresh};
ghost use Rattle.std.specs.Prelude.{◌≡◌, IfOk};

use crate::fault::Fault;
use crate::keeper::Keeper;
use crate::order::{Order, Stack};
use crate::thread_order::ThreadOrder;
use crate::workload::Workload;
use crate::{crew, layers, rounds, traced_rounds};
use span_dispatch::Dispatch;
use span_layers::{Identity, Layer, Observer};
use span_registry::{Registry, Subscriber};
use span_stacks::{LayerExt, SubscriberExt};
use span_tracer::Receiver;
use std::alloc::Global;
use std::io::{Read, Write};
use std::sync::Wait;
use std::thread::Threads;

/// A few rounds of each workload of one thread, and of some on each stack; then of each workload of
/// threads.
const SMALL: &str = "\
new_and_drop plain 2 3
enter_and_exit plain 2 3
event plain 2 3
event_by plain 2 3
traced_event plain 2 3
traced_values plain 2 3
traced_above_hint filters=1 2 3
traced_span plain 2 3
cascade plain 2 3
scope plain 2 3
from_root plain 2 3
replace plain 2 3
new_and_drop filters=1 0 3
event filters=64 2 3
enter_and_exit list=4 2 3
event list=16 2 3
cascade nested=4 2 3
event nested=16 2 3
new_and_drop keeper 0 3
event directives=100 2 3
event 1 3
event 2 3
event 4 3
new_and_drop 1 3
new_and_drop 2 3
new_and_drop 4 3
traced_event 1 3
traced_event 2 3
traced_event 4 3
traced_span 1 3
traced_span 2 3
traced_span 4 3
event_past_hint 1 3
event_past_hint 2 3
event_past_hint 4 3
passes_hint 1 3
passes_hint 2 3
passes_hint 4 3
";

/// Does what each line asks for, and prints what was done.
///
/// Where there is no line at all, a few rounds of each workload. A line that is wrong ends the run.
pub fn run<H: Threads + Wait + Sync, R: Read, W: Write>(
    rt: &H,
    alloc: Global,
    reader: &mut R,
    writer: &mut W,
) -> Result<(), Fault> {
    let mut text = String::new(alloc);
    reader.read_to_string(&mut text)?;
    let lines = if text.is_empty() {
        SMALL
    } else {
        text.as_str()
    };
    for line in lines.lines() {
        run_line(rt, alloc, line, writer)?;
    }
    Ok(())
}

/// Does what a line asks for. Of threads it prints how many requests were made, and how many
/// notices the layer counted; else how many rounds were done.
fn run_line<H: Threads + Wait + Sync, W: Write>(
    rt: &H,
    alloc: Global,
    line: &str,
    writer: &mut W,
) -> Result<(), Fault> {
    if let Some(order) = ThreadOrder::of(line) {
        let tally = crew::done(rt, alloc, order)?;
        writeln!(
            writer,
            "{} {}: {} requests, {} notices",
            order.workload.name(),
            order.threads,
            tally.requests,
            tally.notices
        )?;
        return Ok(());
    }
    let Some(order) = Order::of(line) else {
        return Err(Fault::Line);
    };
    let done = done(rt, alloc, order)?;
    writeln!(writer, "{line}: {done}")?;
    Ok(())
}

/// Does what is asked for. Answers how many rounds were done, which are all.
pub fn done(rt: &impl Wait, alloc: Global, order: Order) -> Result<u32, Fault>
    ensures { IfOk result (λ done. done ≡ order.rounds) }
{
    match order.stack {
        Stack::Plain => done_with(rt, alloc, Identity::new(), order),
        Stack::Filters(count) => done_with(rt, alloc, layers::filtered(alloc, count)?, order),
        Stack::List(count) => done_with(rt, alloc, layers::listed(alloc, count)?, order),
        Stack::Nested(4) => {
            let two = (layers::counting(), layers::counting());
            done_nested(
                rt,
                alloc,
                two,
                (layers::counting(), layers::counting()),
                order,
            )
        }
        Stack::Nested(16) => {
            let eight = (layers::four(), layers::four());
            done_nested(rt, alloc, eight, (layers::four(), layers::four()), order)
        }
        Stack::Nested(_) => Err(Fault::Line),
        Stack::Keeper => done_with(rt, alloc, Observer::new(Keeper), order),
        Stack::Directives(count) => done_with(rt, alloc, layers::directed(alloc, count)?, order),
    }
}

/// Does the rounds with these four on a registry: each pair is made one layer, and then both.
fn done_nested<L: Layer<Registry> + Drop>(
    rt: &impl Wait,
    alloc: Global,
    inner: (L, L),
    outer: (L, L),
    order: Order,
) -> Result<u32, Fault>
    requires inner { L.usable inner.0 × L.usable inner.1 }
    requires outer { L.usable outer.0 × L.usable outer.1 }
    ensures { IfOk result (λ done. done ≡ order.rounds) }
{
    let (first, second) = inner;
    let (third, fourth) = outer;
    let layer = first.and_then(second).and_then(third.and_then(fourth));
    done_with(rt, alloc, layer, order)
}

/// Does the rounds with this layer on a registry.
fn done_with<L: Layer<Registry> + Drop>(
    rt: &impl Wait,
    alloc: Global,
    layer: L,
    order: Order,
) -> Result<u32, Fault>
    requires { L.usable layer }
    ensures { IfOk result (λ done. done ≡ order.rounds) }
{
    match Registry::new(alloc).with(layer) {
        Ok(stack) => done_on(rt, alloc, stack, order),
        Err(back) => Err(Fault::Refused(back.error)),
    }
}

/// Does the rounds on this stack.
fn done_on<S: Subscriber + Drop>(
    rt: &impl Wait,
    alloc: Global,
    stack: S,
    order: Order,
) -> Result<u32, Fault>
    requires usable { S.usable stack }
    requires fresh { IsFresh (S.registry stack) }
    ensures { IfOk result (λ done. done ≡ order.rounds) }
{
    let dispatch = Dispatch::new(alloc, stack);
    match order.workload {
        Workload::TracedEvent
        | Workload::TracedValues
        | Workload::TracedAboveHint
        | Workload::TracedSpan => {
            let receiver = Receiver::new(alloc, dispatch);
            traced_rounds::done(receiver.tracer(rt)?, order.workload, order.rounds)
        }
        _ => done_by(alloc, dispatch, order),
    }
}

/// Does the rounds by this dispatcher.
fn done_by<S: Subscriber + Drop>(
    alloc: Global,
    dispatch: Dispatch<S>,
    order: Order,
) -> Result<u32, Fault>
    requires { S.usable (stack_of dispatch) }
    ensures { IfOk result (λ done. done ≡ order.rounds) }
{
    let mut dispatch = dispatch;
    let Order { size, rounds, .. } = order;
    match order.workload {
        Workload::NewAndDrop => rounds::new_and_drop(alloc, &mut dispatch, size, rounds),
        Workload::EnterAndExit => rounds::enter_and_exit(alloc, &mut dispatch, size, rounds),
        Workload::Event => rounds::event(alloc, &mut dispatch, size, rounds),
        Workload::EventBy => rounds::event_by(alloc, &mut dispatch, size, rounds),
        Workload::Cascade => rounds::cascade(alloc, &mut dispatch, size, rounds),
        Workload::Scope => rounds::scope(alloc, &mut dispatch, size, rounds),
        Workload::FromRoot => rounds::from_root(alloc, &mut dispatch, size, rounds),
        Workload::Replace => rounds::replace(alloc, &mut dispatch, size, rounds),
        _ => Err(Fault::Line),
    }
}
