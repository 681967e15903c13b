//! Writes a line for each event as it comes.
//!
//! Where the first line of input is a form, a work and a number, it does so many rounds of that,
//! and nobody keeps the lines: `bench/run_lines` counts what a round takes. `otlp` is such a form,
//! whose spans go to a collector: the requests that this accepts go to standard output. Else each
//! line of input is the text of an event, whose line goes to standard output:
//! `tests/lines_as_they_come` ends the program in the middle.
#![tactic(auto)]

ghost use Rattle.span_store.specs.Store.{IsFresh};

mod order;
mod rounds;
mod sent;
mod sink;

use order::{Order, Shape};
use sink::Sink;
use span_core::{LevelFilter, TraceError};
use span_dispatch::Dispatch;
use span_fmt::{Form, LinesForm, Stream, TreeForm};
use span_format::{Format, Layout};
use span_layers::Observer;
use span_registry::{Registry, Subscriber};
use span_stacks::{LayerExt, SubscriberExt};
use span_stream::{JsonForm, Stamped, TimeStyle, Utc};
use span_tracer::{Receiver, Tracer, info};
use std::alloc::Global;
use std::io::{Input, Write};
use std::sync::Wait;

fn main(rt: HostRuntime) -> anyhow::Result<()> {
    let alloc = rt.alloc();
    let mut line = String::new(alloc);
    rt.read_line(&mut line)?;
    let Some(order) = Order::of(line.trim_end()) else {
        let lost = written(&rt, alloc, rt.stdout(), line)?;
        if lost > 0 {
            eprintln!(rt; "lines lost: {lost}")?;
        }
        return Ok(());
    };
    let clock = Utc::new(rt.clone()?);
    let utc = TimeStyle::Utc;
    match order.shape {
        Shape::Lines => traced(&rt, alloc, LinesForm::new(alloc), order),
        Shape::Plain(layout) => traced(&rt, alloc, Format::new(alloc, layout), order),
        Shape::Stamped(layout) => {
            let lines = Stamped::new(alloc, Format::new(alloc, layout), clock, utc);
            traced(&rt, alloc, lines, order)
        }
        Shape::Json => traced(&rt, alloc, JsonForm::new(alloc, clock, utc), order),
        Shape::Tree => traced(&rt, alloc, TreeForm::new(alloc), order),
        Shape::Otlp => sent::sent(rt, alloc, rt.stdout(), order),
    }
}

/// Does what is asked for in lines of this form, of which none is kept.
fn traced<R: Wait, F: Form<Registry> + Drop>(
    rt: &R,
    alloc: Global,
    form: F,
    order: Order,
) -> anyhow::Result<()> {
    let layer = Observer::new(Stream::new(form, Sink)).with_filter(LevelFilter::INFO);
    traced_on(rt, alloc, Registry::new(alloc).with(layer)?, order)
}

/// Does what is asked for, through a receiver over this stack.
fn traced_on<R: Wait, S: Subscriber + Drop>(
    rt: &R,
    alloc: Global,
    stack: S,
    order: Order,
) -> anyhow::Result<()>
    requires usable { S.usable stack }
    requires fresh { IsFresh (S.registry stack) }
{
    let receiver = Receiver::new(alloc, Dispatch::new(alloc, stack));
    rounds::done(receiver.tracer(rt)?, order.work, order.rounds)?;
    Ok(())
}

/// Writes a line in full for each line of input, this one first. Answers how many were lost.
fn written<R: Wait + Input, W: Write + Drop>(
    rt: &R,
    alloc: Global,
    writer: W,
    first: String,
) -> anyhow::Result<u64> {
    let stream = Stream::new(Format::new(alloc, Layout::Full), writer);
    let layer = Observer::new(stream).with_filter(LevelFilter::INFO);
    let stack = told_on(rt, alloc, Registry::new(alloc).with(layer)?, first)?;
    Ok(stack.outer().layer().observer().lost())
}

/// Sends an event for each line of input, this one first, through a receiver over this stack.
fn told_on<R: Wait + Input, S: Subscriber + Drop>(
    rt: &R,
    alloc: Global,
    stack: S,
    first: String,
) -> anyhow::Result<S>
    requires usable { S.usable stack }
    requires fresh { IsFresh (S.registry stack) }
{
    let receiver = Receiver::new(alloc, Dispatch::new(alloc, stack));
    let tracer = receiver.tracer(rt)?;
    let mut line = first;
    for _ in 0..u64::MAX {
        if line.is_empty() {
            break;
        }
        tell(tracer, line.trim_end())?;
        line.clear();
        rt.read_line(&mut line)?;
    }
    Ok(receiver.into_parts().0.into_stack())
}

/// Sends an event with this text.
fn tell<R: Wait, S: Subscriber>(tracer: Tracer<'_, R, S>, text: &str) -> Result<bool, TraceError> {
    info!(tracer; text, "read")
}
