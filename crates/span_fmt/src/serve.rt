//! Lists of requests, served with a `Tree`, with `Lines` or with a `Stream` outermost under a level.
ghost use Rattle.span_dispatch.specs.Serve.{stack_of};
ghost use Rattle.span_fmt.specs.Serve.{ServesOutermost};
ghost use Rattle.span_fmt.specs.Streamed.{WritesStream};
ghost use Rattle.span_fmt.specs.Told.{WritesAll, WritesLines};

use crate::form::Form;
use crate::lines::Lines;
use crate::stream::Stream;
use crate::tree::Tree;
use span_core::{LevelFilter, TraceError};
use span_dispatch::{Answer, Dispatch, Request};
use span_layers::Observer;
use span_registry::Subscriber;
use span_stacks::{Filtered, Layered};
use std::alloc::Global;
use std::io::Write;

/// A stack, and outside it a tree under a level.
pub type WithTree<S> = Layered<Filtered<Observer<Tree>, LevelFilter>, S>;

/// A stack, and outside it `Lines` under a level.
pub type WithLines<S> = Layered<Filtered<Observer<Lines>, LevelFilter>, S>;

/// A stack, and outside it a stream under a level.
pub type WithStream<S, F, W> = Layered<Filtered<Observer<Stream<F, W>>, LevelFilter>, S>;

/// Serves requests in order, with one answer for each; the tree writes a line for each new span,
/// record, close and event that it is notified of, unless it failed.
pub fn serve_tree<S: Subscriber>(
    alloc: Global,
    dispatch: &mut Dispatch<WithTree<S>>,
    requests: &[Request<'_>],
) -> Result<Vec<Answer>, TraceError>
    requires { ⟦<WithTree<S> as Subscriber>⟧.usable (stack_of dispatch.old) }
    ensures usable { ⟦<WithTree<S> as Subscriber>⟧.usable (stack_of dispatch.new) }
    ensures served { ServesOutermost WritesAll ⟦<WithTree<S> as Subscriber>⟧ requests.now result
        dispatch.old dispatch.new }
{
    let answers = dispatch.serve(alloc, requests)?;
    Ok(answers)
}

/// Serves requests in order, with one answer for each; `Lines` writes a line for each event that it
/// is notified of, unless it failed.
pub fn serve_lines<S: Subscriber>(
    alloc: Global,
    dispatch: &mut Dispatch<WithLines<S>>,
    requests: &[Request<'_>],
) -> Result<Vec<Answer>, TraceError>
    requires { ⟦<WithLines<S> as Subscriber>⟧.usable (stack_of dispatch.old) }
    ensures usable { ⟦<WithLines<S> as Subscriber>⟧.usable (stack_of dispatch.new) }
    ensures served { ServesOutermost WritesLines ⟦<WithLines<S> as Subscriber>⟧ requests.now result
        dispatch.old dispatch.new }
{
    let served = dispatch.serve(alloc, requests)?;
    Ok(served)
}

/// Serves requests in order, with one answer for each; the stream hands its writer a piece of each
/// line of what it is notified of, as it comes: the whole line unless it counts the line as lost.
pub fn serve_stream<S: Subscriber, F: Form<S>, W: Write>(
    alloc: Global,
    dispatch: &mut Dispatch<WithStream<S, F, W>>,
    requests: &[Request<'_>],
) -> Result<Vec<Answer>, TraceError>
    requires { ⟦<WithStream<S, F, W> as Subscriber>⟧.usable (stack_of dispatch.old) }
    ensures usable { ⟦<WithStream<S, F, W> as Subscriber>⟧.usable (stack_of dispatch.new) }
    ensures served { ServesOutermost (WritesStream F.gives F.misses W.contents)
        ⟦<WithStream<S, F, W> as Subscriber>⟧ requests.now result dispatch.old dispatch.new }
{
    let served = dispatch.serve(alloc, requests)?;
    Ok(served)
}
