//! The stacks that scripts are served by.
ghost use Rattle.std.specs.Prelude.{◌≡◌, ◌≤◌, ◌∷◌, [], codes, string_bytes, IfErr, IfOk, false};
ghost use Rattle.span_core.specs.declared.filter.TheConstants.FilterId.{LIMIT};
ghost use Rattle.span_core.specs.declared.level.TheConstants.LevelFilter.{INFO};
ghost use Rattle.span_stacks.specs.Layered.{inner_of, outer_of};
ghost use Rattle.span_script.specs.Printed.{Gives, GivesShared, IsPrinted, PrintsInUse};
ghost use Rattle.span_script.specs.Script.{lines_of, stack_of};
ghost use Rattle.span_script.specs.Stacks.{ArePositive, BeginsAbsent, BeginsDirectives, BeginsNested, BeginsPair, BeginsPlain, BeginsVeto, BeginsWarned, HasRoom};
ghost use Rattle.span_stacks.specs.Attach.{Attaches};
ghost use Rattle.span_store.specs.Store.{IsFresh};

use crate::mute::Mute;
use crate::mute_veto::MuteVeto;
use crate::reply::{Section, text_of};
use crate::run_fault::RunFault;
use crate::script::Script;
use crate::script_stack::ScriptStack;
use crate::scripted::Scripted;
use crate::stack_name::StackName;
use crate::way::Way;
use span_core::LevelFilter;
use span_dispatch::{Answer, Recorder};
use span_layers::Layer;
use span_registry::{Limits, Registry, Subscriber};
use span_stacks::{Filtered, LayerExt, Layered, SubscriberExt};
use span_targets::Setting;
use std::alloc::Global;

/// A recorder under a level.
type Levelled = Filtered<Recorder, LevelFilter>;

/// The stack `plain`: a recorder on a registry.
pub(crate) type Plain = Layered<Recorder, Registry>;

/// The stack `pair`: two recorders, each under a level of its own.
pub(crate) type Pair = Layered<Layered<Levelled, Levelled>, Registry>;

/// The stack `nested`: a recorder, and outside it one under two filters.
pub(crate) type Nested = Layered<Filtered<Levelled, Mute>, Plain>;

/// A recorder, and outside it one under a level.
type Warned = Layered<Levelled, Plain>;

/// The stack `veto`: two recorders, and outside them two layers that veto.
pub(crate) type Veto = Layered<LevelFilter, Layered<MuteVeto, Warned>>;

/// The stack `absent`: a layer that is absent, and outside it a recorder.
pub(crate) type Absent = Layered<Recorder, Layered<Option<Recorder>, Registry>>;

/// The stack `directives`: a recorder, and outside it one under what its filter is set to.
pub(crate) type Directives = Layered<Filtered<Recorder, Setting>, Plain>;

/// What a script prints, where the stack that it names serves its requests in this way.
pub(crate) fn text_by<W: Way>(
    way: W,
    alloc: Global,
    limits: Limits,
    script: &Script<'_>,
) -> Result<(String, W::Left), RunFault>
    requires { ArePositive limits }
    ensures alone { IfOk result (λ r.
        W.alone → Gives limits (stack_of script.now) script.now (string_bytes r.0)) }
    ensures shared { IfOk result (λ r.
        GivesShared (stack_of script.now) script.now (string_bytes r.0)) }
    ensures left { IfOk result (λ r. W.is_left r.1) }
    ensures fault { IfErr result (λ fault. fault ≡ RunFault.Memory) }
{
    match script.stack() {
        StackName::Plain => text_of_stack(way, alloc, script, plain(alloc, limits)),
        StackName::Pair => text_of_stack(way, alloc, script, pair(alloc, limits)),
        StackName::Nested => text_of_stack(way, alloc, script, nested(alloc, limits)),
        StackName::Veto => text_of_stack(way, alloc, script, veto(alloc, limits)),
        StackName::Absent => text_of_stack(way, alloc, script, absent(alloc, limits)),
        StackName::Directives => text_of_stack(way, alloc, script, directives(alloc, limits)),
    }
}

/// Puts a layer on a stack that has room for its filters.
fn put<S: Subscriber + Drop, L: Layer<S> + Drop>(stack: S, layer: L) -> Layered<L, S>
    requires layer { L.usable layer }
    requires stack { S.usable stack }
    requires room { HasRoom S.registry L.has_form layer stack }
    ensures { Attaches S.registry S.with_registry S.usable L.usable L.has_form L.attached layer
        stack result }
{
    match stack.with(layer) {
        Ok(made) => made,
        Err(_) => unreachable!(), // There is room.
    }
}

/// The stack `plain`.
pub(crate) fn plain(alloc: Global, limits: Limits) -> Plain
    requires { ArePositive limits }
    ensures { BeginsPlain limits result }
{
    put(Registry::with_limits(alloc, limits), Recorder::new(alloc))
}

/// The stack `pair`.
pub(crate) fn pair(alloc: Global, limits: Limits) -> Pair
    requires { ArePositive limits }
    ensures { BeginsPair limits result }
{
    let a = Recorder::new(alloc).with_filter(LevelFilter::TRACE);
    let b = Recorder::new(alloc).with_filter(LevelFilter::INFO);
    put(Registry::with_limits(alloc, limits), a.and_then(b))
}

/// The stack `nested`.
pub(crate) fn nested(alloc: Global, limits: Limits) -> Nested
    requires { ArePositive limits }
    ensures { BeginsNested limits result }
{
    let deep = Recorder::new(alloc).with_filter(LevelFilter::INFO);
    put(plain(alloc, limits), deep.with_filter(Mute))
}

/// The recorders of the stack `veto`.
fn warned(alloc: Global, limits: Limits) -> Warned
    requires { ArePositive limits }
    ensures { BeginsWarned limits result }
{
    let warn = Recorder::new(alloc).with_filter(LevelFilter::WARN);
    put(plain(alloc, limits), warn)
}

/// Puts two layers that veto on a stack: one muted events, and outside it one what is more verbose
/// than info.
fn vetoed<S: Subscriber + Drop>(stack: S) -> Layered<LevelFilter, Layered<MuteVeto, S>>
    requires usable { S.usable stack }
    requires filters { (S.registry stack).filters ≤ LIMIT }
    ensures level { outer_of result ≡ INFO }
    ensures below { inner_of (inner_of result) ≡ stack }
{
    let muted = put(stack, MuteVeto);
    put(muted, LevelFilter::INFO)
}

/// The stack `veto`.
pub(crate) fn veto(alloc: Global, limits: Limits) -> Veto
    requires { ArePositive limits }
    ensures { BeginsVeto limits result }
{
    vetoed(warned(alloc, limits))
}

/// The stack `absent`.
pub(crate) fn absent(alloc: Global, limits: Limits) -> Absent
    requires { ArePositive limits }
    ensures { BeginsAbsent limits result }
{
    let none: Option<Recorder> = None;
    let below = put(Registry::with_limits(alloc, limits), none);
    put(below, Recorder::new(alloc))
}

/// The stack `directives`.
pub(crate) fn directives(alloc: Global, limits: Limits) -> Directives
    requires { ArePositive limits }
    ensures { BeginsDirectives limits result }
{
    let chosen = Recorder::new(alloc).with_filter(Setting::Level(LevelFilter::TRACE));
    put(plain(alloc, limits), chosen)
}

/// What a script prints, where this stack serves its requests in this way.
///
/// It names no script, since requests have parts that live for good: where a stack has some too,
/// the borrow checker follows no call with both.
fn text_of_stack<'a, W: Way, A: Scripted<'a>, S: ScriptStack + Subscriber + Drop>(
    way: W,
    alloc: Global,
    scripted: &A,
    stack: S,
) -> Result<(String, W::Left), RunFault>
    requires usable { S.usable stack }
    requires fresh { IsFresh (S.registry stack) }
    ensures alone { IfOk result (λ r. W.alone →
        PrintsInUse S.Subscriber S.sections S.whole (A.held scripted.now) stack
        (string_bytes r.0)) }
    ensures shared { IfOk result (λ r.
        GivesShared S.name (A.held scripted.now) (string_bytes r.0)) }
    ensures left { IfOk result (λ r. W.is_left r.1) }
    ensures fault { IfErr result (λ fault. fault ≡ RunFault.Memory) }
{
    let lent = scripted.script();
    let (answers, dispatch, left) = way.serve(alloc, stack, lent.requests())?;
    let text = dispatch.stack().text(alloc, lent, &answers)?;
    Ok((text, left))
}

/// What is printed of these answers and of the recorder `base`, unless memory was refused to it.
pub(crate) fn text_of_one(
    alloc: Global,
    script: &Script<'_>,
    answers: &[Answer],
    base: &Recorder,
) -> Result<String, RunFault>
    ensures printed { IfOk result
        (λ s. IsPrinted (lines_of script.now) answers.now ((codes "base", base.now.notices) ∷ [])
        (string_bytes s)) }
    ensures whole { IfOk result (λ s. base.now.failed ≡ false) }
    ensures fault { IfErr result (λ fault. fault ≡ RunFault.Memory) }
{
    if base.failed() {
        return Err(RunFault::Memory);
    }
    let sections = [Section {
        name: "base",
        notices: base.notices(),
    }];
    Ok(text_of(alloc, script.lines(), answers, &sections)?)
}

/// What is printed of these answers and of two recorders by their names, unless memory was refused
/// to one.
pub(crate) fn text_of_two(
    alloc: Global,
    script: &Script<'_>,
    answers: &[Answer],
    names: (&'static str, &'static str),
    inner: &Recorder,
    outer: &Recorder,
) -> Result<String, RunFault>
    ensures printed { IfOk result
        (λ s. IsPrinted (lines_of script.now) answers.now
        ((names.entry.0.now, inner.now.notices) ∷ (names.entry.1.now, outer.now.notices) ∷ [])
        (string_bytes s)) }
    ensures inner { IfOk result (λ s. inner.now.failed ≡ false) }
    ensures outer { IfOk result (λ s. outer.now.failed ≡ false) }
    ensures fault { IfErr result (λ fault. fault ≡ RunFault.Memory) }
{
    if inner.failed() {
        return Err(RunFault::Memory);
    }
    if outer.failed() {
        return Err(RunFault::Memory);
    }
    let sections = [
        Section {
            name: names.0,
            notices: inner.notices(),
        },
        Section {
            name: names.1,
            notices: outer.notices(),
        },
    ];
    Ok(text_of(alloc, script.lines(), answers, &sections)?)
}
