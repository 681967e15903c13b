//! Tests of the order in which layers are put on a registry, and in use. No clause says it: two
//! layers share nothing there.
ghost use Rattle.std.specs.Prelude.{◌≡◌, ⊤, true};
ghost use Rattle.span_layers.specs.Acts.{LeafActs};
ghost use Rattle.span_layers.specs.laws.Leaf.{is_leaf, any_laws};
ghost use Rattle.span_layers.specs.laws.Path.{leaf_path_laws};
ghost use Rattle.span_layers.specs.laws.Reload.{leaf_reloads};
ghost use Rattle.span_layers.specs.Layer.{HearsBy, AnySteps};
ghost use Rattle.span_layers.specs.Observe.{open_answers};
ghost use Rattle.span_registry.specs.Form.{Leaf};
ghost use Rattle.span_registry.specs.Reload.{unreloaded};

use crate::fixture::put;
use span_core::{Event, Interest, LevelFilter, Metadata, Pass};
use span_layers::Layer;
use span_registry::{Context, ContextMut, Notice, Registry, Subscriber};
use span_stacks::{LayerExt, Layered};
use span_targets::Setting;
use std::alloc::{AllocError, Global};
use std::cell::Cell;
use std::process::Abort;
use std::rc::Rc;
use std::test::Fail;

/// Digits, in the order in which they were written.
type Digits = Rc<Cell<u64>>;

/// What newcomers write when they are put on a registry, and when they are put in use.
#[derive(Drop)]
struct Written {
    put_on: Digits,
    in_use: Digits,
}

/// Nothing is written yet.
fn nothing_written(alloc: Global) -> Result<Written, AllocError> {
    let put_on = Rc::new(alloc, Cell::new(0))?;
    let in_use = Rc::new(alloc, Cell::new(0))?;
    Ok(Written { put_on, in_use })
}

/// Writes its digit behind those of others when it is put on a registry, and when it is put in use.
#[derive(Drop)]
struct Newcomer {
    digit: u64,
    put_on: Digits,
    in_use: Digits,
}

/// A newcomer that writes there.
fn make_newcomer(written: &Written, digit: u64) -> Result<Newcomer, AllocError> {
    Ok(Newcomer {
        digit,
        put_on: written.put_on.clone()?,
        in_use: written.in_use.clone()?,
    })
}

/// Writes one digit more.
fn sign(digits: &Cell<u64>, digit: u64) {
    digits.set(digits.get().saturating_mul(10).saturating_add(digit));
}

impl<S: Subscriber> Layer<S> for Newcomer {
    ghost has_form = { λ x f. f ≡ Leaf true open_answers };

    ghost stepped = { AnySteps };

    ghost hears = { HearsBy AnySteps };

    ghost acts_at = { LeafActs };

    ghost reloaded = { unreloaded };

    ghost registered = { λ x y. ⊤ };

    ghost attached = { λ x y. ⊤ };

    ghost laws = { any_laws (Leaf true open_answers) (λ x y. ⊤) tt };

    ghost paths = { leaf_path_laws (λ x f h. is_leaf h) };

    ghost reloads = { leaf_reloads (any_laws (Leaf true open_answers) (λ x y. ⊤) tt) };

    fn on_register_dispatch(&mut self) {
        sign(&self.in_use, self.digit);
    }

    fn on_layer(&mut self, _subscriber: &mut S) {
        sign(&self.put_on, self.digit);
    }

    fn register_callsite(&self, _meta: &Metadata, _pass: &mut Pass) -> Interest {
        Interest::Always
    }

    fn enabled(&self, _meta: &Metadata, _ctx: &Context<'_, S>, _pass: &mut Pass) -> bool {
        true
    }

    fn event_enabled(&self, _event: &Event<'_>, _ctx: &Context<'_, S>, _pass: &mut Pass) -> bool {
        true
    }

    fn max_level_hint(&self) -> Option<LevelFilter> {
        None
    }

    fn filter_count(&self) -> u32 {
        0
    }

    fn is_filtered(&self) -> bool {
        false
    }

    fn is_absent(&self) -> bool {
        false
    }

    fn notify(&mut self, _notice: Notice<'_, '_>, _ctx: &mut ContextMut<'_, S>) {}

    fn reload(&mut self, _number: u32, _setting: Setting) -> bool {
        false // No filter is in it.
    }
}

/// Puts a stack in use.
fn put_in_use<S: Subscriber>(stack: &mut S)
    requires { S.usable stack.old }
    ensures { S.usable stack.new }
{
    stack.on_register_dispatch();
}

/// Two newcomers as one layer.
type Pair = Layered<Newcomer, Newcomer>;

/// Of which 2 is the outer part.
fn pair_of_newcomers(written: &Written) -> Result<Pair, AllocError> {
    let inner = make_newcomer(written, 3)?;
    Ok(inner.and_then(make_newcomer(written, 2)?))
}

/// Puts a newcomer behind others in a list.
fn push_newcomer(
    members: &mut Vec<Newcomer>,
    written: &Written,
    digit: u64,
) -> Result<(), AllocError> {
    members.push(make_newcomer(written, digit)?)?;
    Ok(())
}

/// Two members of a list.
fn two_members(alloc: Global, written: &Written) -> Result<Vec<Newcomer>, AllocError> {
    let mut members = Vec::new(alloc);
    push_newcomer(&mut members, written, 4)?;
    push_newcomer(&mut members, written, 5)?;
    Ok(members)
}

/// Newcomers wrote these digits when they were put on a registry, and in use.
fn wrote(rt: &impl Abort, written: &Written, put_on: u64, in_use: u64) {
    assert!(rt; (written.put_on.get(), written.in_use.get()) == (put_on, in_use));
}

/// Puts a list on a stack, and then that in use.
fn use_in_order<S: Subscriber + Drop, L: Layer<S> + Drop>(
    rt: &impl Abort,
    written: &Written,
    stack: S,
    list: L,
) -> Result<(), Fail>
    requires stack { S.usable stack }
    requires layer { L.usable list }
{
    let mut stack = put(stack, list)?;
    wrote(rt, written, 12345, 0);
    put_in_use(&mut stack);
    wrote(rt, written, 12345, 12345);
    Ok(())
}

/// Puts a pair on a stack, and a list outside it.
fn use_a_list<S: Subscriber + Drop, L: Layer<S> + Drop>(
    rt: &impl Abort,
    alloc: Global,
    written: &Written,
    stack: S,
    pair: L,
) -> Result<(), Fail>
    requires stack { S.usable stack }
    requires layer { L.usable pair }
{
    let members = two_members(alloc, written)?;
    use_in_order(rt, written, put(stack, pair)?, members)
}

/// Puts a newcomer on a stack, and outside it a pair and a list.
fn use_a_pair<S: Subscriber + Drop, L: Layer<S> + Drop>(
    rt: &impl Abort,
    alloc: Global,
    written: &Written,
    stack: S,
    first: L,
) -> Result<(), Fail>
    requires stack { S.usable stack }
    requires layer { L.usable first }
{
    let pair = pair_of_newcomers(written)?;
    use_a_list(rt, alloc, written, put(stack, first)?, pair)
}

/// Puts a newcomer, a pair and a list on a registry.
fn put_on_and_use(rt: &impl Abort, alloc: Global, written: &Written) -> Result<(), Fail> {
    let first = make_newcomer(written, 1)?;
    use_a_pair(rt, alloc, written, Registry::new(alloc), first)
}

#[test]
fn layers_are_put_in_use_inner_first(rt: HostRuntime) -> Result<(), Fail> {
    put_on_and_use(&rt, rt.alloc(), &nothing_written(rt.alloc())?)
}
