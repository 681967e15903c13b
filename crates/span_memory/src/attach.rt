//! Layers that are put on a registry.

use crate::call::Attachment;
use crate::fault::Fault;
use crate::shown::{write_answer, write_start};
use span_core::LevelFilter;
use span_dispatch::{Answer, Recorder};
use span_layers::Layer;
use span_registry::{LookupSpan, Registry, Subscriber};
use span_stacks::{LayerExt, SubscriberExt};
use std::alloc::Global;
use std::io::Write;

/// Puts a recorder under a level on a registry, and writes how many filters that handed out without
/// that and after it.
pub(crate) fn make<W: Write>(alloc: Global, writer: &mut W, call: Attachment) -> Result<(), Fault> {
    let layer = Recorder::new(alloc).with_filter(LevelFilter::INFO);
    put(writer, Registry::new(alloc), layer, call)
}

/// Puts a layer on a subscriber, and writes the same.
fn put<S: Subscriber + Drop, L: Layer<S> + Drop, W: Write>(
    writer: &mut W,
    subscriber: S,
    layer: L,
    call: Attachment,
) -> Result<(), Fault>
    requires subscriber { S.usable subscriber }
    requires layer { L.usable layer }
{
    write_filters(writer, subscriber.root())?;
    write_start(writer)?;
    let made = match call {
        Attachment::With => subscriber.with(layer),
        Attachment::WithSubscriber => layer.with_subscriber(subscriber),
    };
    match made {
        Ok(stack) => write_put(writer, Answer::Done, stack.root()),
        Err(back) => write_put(writer, Answer::Refused(back.error), back.subscriber.root()),
    }
}

/// Writes how a call ended, and how many filters a registry handed out.
fn write_put<W: Write>(writer: &mut W, ended: Answer, registry: &Registry) -> Result<(), Fault> {
    write_answer(writer, ended)?;
    write_filters(writer, registry)
}

/// Writes how many filters a registry handed out.
fn write_filters<W: Write>(writer: &mut W, registry: &Registry) -> Result<(), Fault> {
    writeln!(writer, "filters {}", registry.filters())?;
    Ok(())
}
