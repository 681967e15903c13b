//! Tests of what hooks are lent, and of texts.
ghost use Rattle.std.specs.Prelude.{⊤};

use crate::fixture::put;
use crate::stack::{is_text, notify, open, send_in};
use span_core::{FilterId, Level, LevelFilter};
use span_layers::{Layer, Observe, Observer};
use span_registry::{ContextMut, Notice, Registry, Subscriber};
use span_stacks::{Filtered, LayerExt, Layered};
use std::alloc::Global;
use std::process::Abort;
use std::test::Fail;

/// How often the first filter had refused, of new spans and events, and of all else.
#[derive(Debug, Drop)]
struct Refusals {
    asked: u64,
    other: u64,
}

impl<S: Subscriber> Observe<S> for Refusals {
    ghost observed = { λ x e lane under v y w. ⊤ };

    fn observe(&mut self, notice: Notice<'_, '_>, ctx: &mut ContextMut<'_, S>) {
        if !ctx.refuses(FilterId::of(0)) {
            return;
        }
        match notice {
            Notice::NewSpan(_, _) | Notice::Event(_) => {
                self.asked = self.asked.saturating_add(1);
            }
            _ => self.other = self.other.saturating_add(1),
        }
    }
}

/// Notifies a stack of a span, of an event in it, and of all else that comes of a span. True where
/// no layer vetoes.
fn notify_of_all<S: Subscriber>(stack: &mut S) -> Result<bool, Fail>
    requires { S.usable stack.old }
    ensures { S.usable stack.new }
{
    let id = open(stack, Level::INFO, None)?;
    let is_sent = send_in(stack, Level::INFO, id);
    notify(stack, id, id)?;
    Ok(is_sent)
}

/// A layer under a level.
type Under = Filtered<Observer<Refusals>, LevelFilter>;

/// What has refusals to look at: where it has several, the outermost.
trait AsRefusals {
    fn as_refusals(&self) -> &Refusals;
}

impl AsRefusals for Observer<Refusals> {
    fn as_refusals(&self) -> &Refusals {
        self.observer()
    }
}

impl<L: AsRefusals, S> AsRefusals for Layered<L, S> {
    fn as_refusals(&self) -> &Refusals {
        self.outer().as_refusals()
    }
}

/// What comes of a span on a stack: whether an event was sent, and how often the outermost layer
/// saw that the first filter had refused.
fn refusals_seen<S: Subscriber + AsRefusals>(stack: &mut S) -> Result<(bool, u64, u64), Fail>
    requires { S.usable stack.old }
{
    let is_sent = notify_of_all(stack)?;
    let watched = stack.as_refusals();
    Ok((is_sent, watched.asked, watched.other))
}

/// The outer layer of a pair whose level refuses all saw that of a new span and an event alone.
fn refusals_end_with_a_pass<S: Subscriber + Drop, L: Layer<S> + Drop + AsRefusals>(
    rt: &impl Abort,
    stack: S,
    pair: L,
) -> Result<(), Fail>
    requires stack { S.usable stack }
    requires layer { L.usable pair }
{
    let seen = refusals_seen(&mut put(stack, pair)?)?;
    assert!(rt; seen == (true, 2, 0));
    Ok(())
}

#[test]
fn a_pass_ends_with_its_request(rt: HostRuntime) -> Result<(), Fail> {
    let refused = Observer::new(Refusals { asked: 0, other: 0 }).with_filter(LevelFilter::OFF);
    let watching = Observer::new(Refusals { asked: 0, other: 0 });
    refusals_end_with_a_pass(&rt, Registry::new(rt.alloc()), refused.and_then(watching))
}

/// A stack's text tells its layer, and nothing of its registry.
fn tells_its_layer(
    rt: &impl Abort,
    alloc: Global,
    stack: &Layered<Under, Registry>,
) -> Result<(), Fail> {
    is_text(
        rt,
        format!(in alloc; "{stack:?}")?.as_str(),
        "Layered { layer: Filtered { filter: LevelFilter::INFO, layer: Observer { observer: Refusals { asked: 0, other: 0 } }, id: FilterId({0}) }, inner: Registry { .. } }",
    );
    Ok(())
}

#[test]
fn parts_have_texts(rt: HostRuntime) -> Result<(), Fail> {
    let layer = Observer::new(Refusals { asked: 0, other: 0 }).with_filter(LevelFilter::INFO);
    tells_its_layer(&rt, rt.alloc(), &put(Registry::new(rt.alloc()), layer)?)
}
