//! Calls of a dispatcher of which a layer vetoes everything.
ghost use Rattle.span_dispatch.specs.Serve.{stack_of};

use crate::dispatcher::ask;
use crate::fault::Fault;
use crate::named::Named;
use crate::shown::write_start;
use span_dispatch::{Dispatch, Request};
use span_filters::dynamic_filter_fn;
use span_layers::Layer;
use span_registry::{Registry, Subscriber};
use span_stacks::SubscriberExt;
use std::alloc::Global;
use std::io::Write;

/// Makes a request for the second time: the first keeps its callsite.
pub(crate) fn make<W: Write>(
    alloc: Global,
    writer: &mut W,
    request: Request<'_>,
) -> Result<(), Fault> {
    let veto = dynamic_filter_fn(Named::new(alloc, "no such name")?);
    put(alloc, writer, Registry::new(alloc), veto, request)
}

/// Puts a layer on a subscriber, and makes a request of that.
fn put<S: Subscriber + Drop, L: Layer<S> + Drop, W: Write>(
    alloc: Global,
    writer: &mut W,
    subscriber: S,
    layer: L,
    request: Request<'_>,
) -> Result<(), Fault>
    requires subscriber { S.usable subscriber }
    requires layer { L.usable layer }
{
    match subscriber.with(layer) {
        Ok(stack) => make_twice(writer, &mut Dispatch::new(alloc, stack), request),
        Err(back) => Err(Fault::Refused(back.error)),
    }
}

/// Makes a request twice, and writes how it ends each time.
fn make_twice<S: Subscriber, W: Write>(
    writer: &mut W,
    dispatch: &mut Dispatch<S>,
    request: Request<'_>,
) -> Result<(), Fault>
    requires { S.usable (stack_of dispatch.old) }
{
    ask(writer, dispatch, request)?;
    write_start(writer)?;
    ask(writer, dispatch, request)
}
