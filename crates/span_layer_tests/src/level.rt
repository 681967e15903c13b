//! Tests of levels that are set: the filter with the number takes it, and no other does.
use crate::fixture::put;
use span_core::{LevelFilter, TraceError};
use span_layers::{Identity, Layer};
use span_registry::{Registry, Subscriber};
use span_stacks::{Filtered, LayerExt, Layered};
use span_targets::Setting;
use std::alloc::Global;
use std::process::Abort;
use std::test::Fail;

/// A layer under a filter by level.
type Under = Filtered<Identity, LevelFilter>;

fn under(level: LevelFilter) -> Under {
    Filtered::new(Identity, level)
}

/// Gives a layer's filters the numbers from 0 on.
fn number<L: Layer<Registry>>(alloc: Global, layer: &mut L)
    requires { L.usable layer.old }
    ensures { L.usable layer.new }
{
    layer.on_layer(&mut Registry::new(alloc));
}

/// Sets the level of the filter with this number in a layer to trace.
fn takes<L: Layer<Registry>>(layer: &mut L, number: u32) -> bool
    requires { L.usable layer.old }
    ensures { L.usable layer.new }
{
    layer.reload(number, Setting::Level(LevelFilter::TRACE))
}

/// Sets the level of the filter with this number in a stack to trace.
fn stack_takes<S: Subscriber>(stack: &mut S, number: u32) -> bool
    requires { S.usable stack.old }
    ensures { S.usable stack.new }
{
    stack.reload(number, Setting::Level(LevelFilter::TRACE))
}

/// What comes of a level that is set to trace: whether it was taken, and the levels of two filters
/// then.
type Levels = (bool, LevelFilter, LevelFilter);

/// A layer under a level, and outside it another.
type Pair = Layered<Under, Under>;

/// Of a pair, whose outer part comes first.
fn pair_after(pair: &mut Pair, number: u32) -> Levels {
    let taken = takes(pair, number);
    (taken, *pair.outer().filter(), *pair.inner().filter())
}

/// A pair of WARN and, outside it, INFO takes what its numbers 0 and 1 name.
fn pair_takes_its_own(rt: &impl Abort, pair: &mut Pair) {
    let after = [
        pair_after(pair, 2),
        pair_after(pair, 1),
        pair_after(pair, 0),
    ];
    assert!(rt;
        after
            == [
                (false, LevelFilter::INFO, LevelFilter::WARN),
                (true, LevelFilter::INFO, LevelFilter::TRACE),
                (true, LevelFilter::TRACE, LevelFilter::TRACE),
            ]
    );
}

#[test]
fn a_pair_finds_a_filter_by_its_number(rt: HostRuntime) -> Result<(), Fail> {
    let mut pair = under(LevelFilter::WARN).and_then(under(LevelFilter::INFO));
    number(rt.alloc(), &mut pair);
    pair_takes_its_own(&rt, &mut pair);
    Ok(())
}

/// Of a list of two.
fn list_after(list: &mut Vec<Under>, number: u32) -> Option<Levels> {
    let taken = takes(list, number);
    match list.as_slice() {
        [first, second] => Some((taken, *first.filter(), *second.filter())),
        _ => None,
    }
}

/// A list of WARN and INFO takes what its number 0 names.
fn list_takes_its_own(rt: &impl Abort, list: &mut Vec<Under>) {
    let after = [list_after(list, 2), list_after(list, 0)];
    assert!(rt;
        after
            == [
                Some((false, LevelFilter::WARN, LevelFilter::INFO)),
                Some((true, LevelFilter::TRACE, LevelFilter::INFO)),
            ]
    );
}

#[test]
fn a_list_finds_a_filter_by_its_number(rt: HostRuntime) -> Result<(), Fail> {
    let mut list = vec![in rt.alloc(); under(LevelFilter::WARN), under(LevelFilter::INFO)]?;
    number(rt.alloc(), &mut list);
    list_takes_its_own(&rt, &mut list);
    Ok(())
}

/// A layer under a level, and under another outside it.
type Nested = Filtered<Under, LevelFilter>;

/// Of a layer under two levels, of which the outer one comes first.
fn nested_after(nested: &mut Nested, number: u32) -> Levels {
    let taken = takes(nested, number);
    (taken, *nested.filter(), *nested.layer().filter())
}

/// A layer under WARN and, outside it, INFO takes what its number 1 names, once it has that.
fn nested_takes_its_own(rt: &impl Abort, alloc: Global, nested: &mut Nested) {
    let unnumbered = nested_after(nested, 0);
    number(alloc, nested);
    let after = [unnumbered, nested_after(nested, 2), nested_after(nested, 1)];
    assert!(rt;
        after
            == [
                (false, LevelFilter::INFO, LevelFilter::WARN),
                (false, LevelFilter::INFO, LevelFilter::WARN),
                (true, LevelFilter::INFO, LevelFilter::TRACE),
            ]
    );
}

#[test]
fn a_filter_under_another_is_found(rt: HostRuntime) -> Result<(), Fail> {
    let mut nested = under(LevelFilter::WARN).with_filter(LevelFilter::INFO);
    nested_takes_its_own(&rt, rt.alloc(), &mut nested);
    Ok(())
}

/// Of a layer that may be absent: its one level.
fn optional_after(layer: &mut Option<Under>, number: u32) -> (bool, Option<LevelFilter>) {
    let taken = takes(layer, number);
    match layer {
        Some(layer) => (taken, Some(*layer.filter())),
        None => (taken, None),
    }
}

/// A layer under WARN takes what its number 0 names, and an absent one takes nothing.
fn optional_takes_its_own(rt: &impl Abort, some: &mut Option<Under>, none: &mut Option<Under>) {
    let after = [
        optional_after(some, 1),
        optional_after(some, 0),
        optional_after(none, 0),
    ];
    assert!(rt;
        after
            == [
                (false, Some(LevelFilter::WARN)),
                (true, Some(LevelFilter::TRACE)),
                (false, None),
            ]
    );
}

#[test]
fn a_layer_that_is_there_takes_a_level(rt: HostRuntime) -> Result<(), Fail> {
    let mut some = Some(under(LevelFilter::WARN));
    number(rt.alloc(), &mut some);
    optional_takes_its_own(&rt, &mut some, &mut None);
    Ok(())
}

/// What is under a level: where it is under several, the outermost.
trait HasLevel {
    fn level(&self) -> LevelFilter;
}

impl<L> HasLevel for Filtered<L, LevelFilter> {
    fn level(&self) -> LevelFilter {
        *self.filter()
    }
}

impl<L: HasLevel, S> HasLevel for Layered<L, S> {
    fn level(&self) -> LevelFilter {
        self.outer().level()
    }
}

/// What is under two levels, of which the outer one comes first.
trait HasLevels {
    fn levels(&self) -> (LevelFilter, LevelFilter);
}

impl<L: HasLevel, S: HasLevel> HasLevels for Layered<L, S> {
    fn levels(&self) -> (LevelFilter, LevelFilter) {
        (self.outer().level(), self.inner().level())
    }
}

/// Of a stack under two levels.
fn stack_after<S: Subscriber + HasLevels>(stack: &mut S, number: u32) -> Levels
    requires { S.usable stack.old }
    ensures { S.usable stack.new }
{
    let taken = stack_takes(stack, number);
    let (outer, inner) = stack.levels();
    (taken, outer, inner)
}

/// Of a stack under a level, and a layer under another on it: of a number that no filter has, and
/// of both.
fn stack_after_each<S: Subscriber + Drop + HasLevel, L: Layer<S> + Drop + HasLevel>(
    stack: S,
    outer: L,
) -> Result<[Levels; 3], TraceError>
    requires stack { S.usable stack }
    requires layer { L.usable outer }
{
    let mut stack = put(stack, outer)?;
    Ok([
        stack_after(&mut stack, 2),
        stack_after(&mut stack, 0),
        stack_after(&mut stack, 1),
    ])
}

/// Of a layer under a level on a stack, and one under INFO outside it.
fn after_each_below_info<S: Subscriber + Drop, L: Layer<S> + Drop + HasLevel>(
    stack: S,
    inner: L,
) -> Result<[Levels; 3], TraceError>
    requires stack { S.usable stack }
    requires layer { L.usable inner }
{
    stack_after_each(put(stack, inner)?, under(LevelFilter::INFO))
}

#[test]
fn a_stack_finds_a_filter_by_its_number(rt: HostRuntime) -> Result<(), Fail> {
    let after = after_each_below_info(Registry::new(rt.alloc()), under(LevelFilter::WARN))?;
    assert!(rt;
        after
            == [
                (false, LevelFilter::INFO, LevelFilter::WARN),
                (true, LevelFilter::INFO, LevelFilter::TRACE),
                (true, LevelFilter::TRACE, LevelFilter::TRACE),
            ]
    );
    Ok(())
}
