//! Layers of each kind in an honest stack, with a recorder outside: the recorder keeps what it
//! would if it stood alone.
ghost use Rattle.std.specs.Prelude.{◌≡◌, [], IfErr, IfOk};
ghost use Rattle.span_stacks.specs.Layered.{outer_of};
ghost use Rattle.span_registry.specs.Position.{Here, Outer};
ghost use Rattle.span_examples.specs.Kinds.{CountsAlone, IsFit, RecordsAlone, ServesReady, StandsSomehow, WillRecord};

use crate::conducts::count;
use crate::isolation::WithAnswers;
use crate::layer::SpanCounter;
use span_boxed::{BoxedLayer, DynLayer};
use span_core::TraceError;
use span_dispatch::{Answer, Dispatch, Recorder, Request};
use span_layers::{Identity, Layer, Observer};
use span_registry::{Registry, Subscriber};
use span_stacks::{Layered, SubscriberExt};
use std::alloc::Global;

/// A recorder outside a layer, on a registry.
pub type Over<L> = Layered<Recorder, Layered<L, Registry>>;

/// Puts an honest stack on a registry without spans in use, and serves requests.
pub fn serve_new<S: Subscriber + Drop>(
    alloc: Global,
    stack: S,
    requests: &[Request<'_>],
) -> Result<WithAnswers<S>, TraceError>
    requires usable { S.usable stack }
    requires stands { StandsSomehow S.registry S.has_form stack }
    ensures served { IfOk result (ServesReady S.Subscriber stack requests.now) }
    ensures memory { IfErr result (λ e. e ≡ TraceError.OutOfMemory) }
{
    let mut dispatch = Dispatch::new(alloc, stack);
    let answers = dispatch.serve(alloc, requests)?;
    Ok((dispatch, answers))
}

/// Puts a recorder outside an honest layer of any kind, on a new registry.
fn put_under<L: Layer<Registry> + Drop>(alloc: Global, layer: L) -> Result<Over<L>, TraceError>
    requires usable { L.usable layer }
    requires fit { IsFit L.has_form layer }
    ensures usable { IfOk result ⟦<Over<L> as Subscriber>⟧.usable }
    ensures stands { let i = ⟦<Over<L> as Subscriber>⟧ in
        IfOk result (StandsSomehow i.registry i.has_form) }
    ensures records { IfOk result (WillRecord ⟦<Over<L> as Subscriber>⟧ (Outer Here) outer_of []) }
    ensures memory { IfErr result (λ e. e ≡ TraceError.OutOfMemory) }
{
    span_stacks::laws::numbers_are_own();
    span_promises::laws::other_layers_make_no_difference::<Over<L>, Over<L>>();
    let stack = match Registry::new(alloc).with(layer) {
        Ok(stack) => stack,
        Err(back) => return Err(back.error),
    };
    match stack.with(Recorder::new(alloc)) {
        Ok(stack) => Ok(stack),
        Err(back) => Err(back.error),
    }
}

/// A recorder outside the layer that does nothing.
pub fn over_identity(
    alloc: Global,
    requests: &[Request<'_>],
) -> Result<WithAnswers<Over<Identity>>, TraceError>
    ensures kept { IfOk result
        (RecordsAlone ⟦<Over<Identity> as Subscriber>⟧ (Outer Here) outer_of [] requests.now) }
    ensures memory { IfErr result (λ e. e ≡ TraceError.OutOfMemory) }
{
    let stack = put_under(alloc, Identity::new())?;
    serve_new(alloc, stack, requests)
}

/// A recorder outside an observer.
pub fn over_observer(
    alloc: Global,
    requests: &[Request<'_>],
) -> Result<WithAnswers<Over<Observer<SpanCounter>>>, TraceError>
    ensures kept { IfOk result
        (RecordsAlone ⟦<Over<Observer<SpanCounter>> as Subscriber>⟧ (Outer Here) outer_of []
        requests.now) }
    ensures memory { IfErr result (λ e. e ≡ TraceError.OutOfMemory) }
{
    let stack = put_under(alloc, Observer::new(SpanCounter::new()))?;
    serve_new(alloc, stack, requests)
}

/// A recorder outside a layer that is there.
pub fn over_some(
    alloc: Global,
    requests: &[Request<'_>],
) -> Result<WithAnswers<Over<Option<Observer<SpanCounter>>>>, TraceError>
    ensures kept { IfOk result
        (RecordsAlone ⟦<Over<Option<Observer<SpanCounter>>> as Subscriber>⟧ (Outer Here) outer_of
        [] requests.now) }
    ensures memory { IfErr result (λ e. e ≡ TraceError.OutOfMemory) }
{
    let stack = put_under(alloc, Some(Observer::new(SpanCounter::new())))?;
    serve_new(alloc, stack, requests)
}

/// A recorder outside a layer in a box.
pub fn over_box(
    alloc: Global,
    requests: &[Request<'_>],
) -> Result<WithAnswers<Over<Box<Observer<SpanCounter>>>>, TraceError>
    ensures kept { IfOk result
        (RecordsAlone ⟦<Over<Box<Observer<SpanCounter>>> as Subscriber>⟧ (Outer Here) outer_of []
        requests.now) }
    ensures memory { IfErr result (λ e. e ≡ TraceError.OutOfMemory) }
{
    let layer = Box::new(alloc, Observer::new(SpanCounter::new()))?;
    let stack = put_under(alloc, layer)?;
    serve_new(alloc, stack, requests)
}

/// A recorder outside two layers in a list.
pub fn over_list(
    alloc: Global,
    requests: &[Request<'_>],
) -> Result<WithAnswers<Over<Vec<Observer<SpanCounter>>>>, TraceError>
    ensures kept { IfOk result
        (RecordsAlone ⟦<Over<Vec<Observer<SpanCounter>>> as Subscriber>⟧ (Outer Here) outer_of []
        requests.now) }
    ensures memory { IfErr result (λ e. e ≡ TraceError.OutOfMemory) }
{
    let first = Observer::new(SpanCounter::new());
    let second = Observer::new(SpanCounter::new());
    let layers = vec![in alloc; first, second]?;
    let stack = put_under(alloc, layers)?;
    serve_new(alloc, stack, requests)
}

/// Serves requests on a recorder outside a layer in a box, whose type is picked while the program
/// runs, and counts the recorder's notices.
pub fn count_over_boxed(
    alloc: Global,
    requests: &[Request<'_>],
) -> Result<(Vec<Answer>, Option<usize>), TraceError>
    ensures counted { IfOk result (CountsAlone [] requests.now) }
    ensures memory { IfErr result (λ e. e ≡ TraceError.OutOfMemory) }
{
    let object: Box<dyn DynLayer + Send> = Box::new(alloc, Observer::new(SpanCounter::new()))?;
    let layer = BoxedLayer::new(object);
    let stack = put_under(alloc, layer)?;
    let (dispatch, answers) = serve_new(alloc, stack, requests)?;
    let counted = count(dispatch.stack().outer());
    Ok((answers, counted))
}
