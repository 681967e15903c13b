//! A script: its lines, and the requests that they ask for.
ghost use Rattle.std.specs.Prelude.{◌≡◌, ◌∷◌, [], ◌++◌, ◌<◌, ◌^◌, IfNone, IfOk, IfErr, OnOk, IfSome};
ghost use Rattle.span_script.specs.Fault.{Blames, IsLineFaultAt, IsScriptFault, IsTakenAt, IsUnasked, IsWrongFor};
ghost use Rattle.span_script.specs.Misfit.{column_after};
ghost use Rattle.span_script.specs.Reason.{first_reason, names_of_parent, IsUndeclared};
ghost use Rattle.span_script.specs.Script.{cut, lines_of, mute_values, words_of, read_in, requests_of, stack_of, texts_in, values_in, Asks, Declares, HoldsOfNone, IsLine, IsScript, IsSpelled, Means, MeansParent, ReadsText};

use crate::fault::{ScriptFault, WrongLine};
use crate::line::{Line, MuteField, Name, ParentName};
use crate::misfit::column_after;
use crate::reason::Reason;
use crate::stack_name::StackName;
use crate::unasked::{Unasked, directives};
use span_core::{FieldValue, Id, Lane};
use span_dispatch::{Request, Which, WhichParent};
use span_targets::Setting;
use std::alloc::{AllocError, Global};
use std::collections::BTreeMap;

/// The place of the label among the words of a line that declares one.
const LABEL_PLACE: usize = 3;

/// The values of an event whose line ends with `mute`.
const MUTED: &[(&str, FieldValue<'static>)] = &[("mute", FieldValue::Bool(true))];

/// A script: the stack that its first line names, the lines after that, the request that each asks
/// for, and the places of those that declare a label.
pub struct Script<'a> {
    stack: StackName,
    lines: Vec<Line<'a>>,
    requests: Vec<Request<'static>>,
    labels: BTreeMap<&'a str, usize>,
}

impl Drop for Script<'_> {
    fn drop(self) {
        let Script {
            stack,
            lines,
            requests,
            labels,
        } = self;
    }
}

impl<'a> Script<'a> {
    /// The script that a text spells.
    ///
    /// Where it is none, the fault is `Wrong`, with its first line that is wrong and why it is.
    /// A line's words are looked at from the left, and its labels and directives once its words
    /// are right. Directives are never given back.
    pub fn parse(alloc: Global, text: &'a str) -> Result<Script<'a>, ScriptFault>
        ensures script { IfOk result IsScript }
        ensures spelled { IfOk result (λ s. IsSpelled text.now (stack_of s) (lines_of s)) }
        ensures fault { IfErr result (IsScriptFault text.now) }
    {
        let texts = parts_of(alloc, text, '\n')?;
        let mut script = None;
        for (place, text) in texts.iter().enumerate() {
            script = next(alloc, script, text, place as u64 + 1)?;
        }
        script.ok_or(wrong(1, 1, Reason::NoStack))
    }

    /// The stack that the first line names.
    pub fn stack(&self) -> StackName
        ensures { result ≡ stack_of self.now }
    {
        self.stack
    }

    /// The lines after the first, in their order.
    pub fn lines(&self) -> &[Line<'a>]
        ensures { result.now ≡ lines_of self.now }
    {
        &self.lines
    }

    /// The request that each line asks for.
    pub fn requests(&self) -> &[Request<'static>]
        ensures { result.now ≡ requests_of self.now }
    {
        &self.requests
    }

    fn new(alloc: Global, stack: StackName) -> Script<'a>
        ensures script { IsScript result }
        ensures stack { stack_of result ≡ stack }
        ensures lines { lines_of result ≡ [] }
    {
        Script {
            stack,
            lines: Vec::new(alloc),
            requests: Vec::new(alloc),
            labels: BTreeMap::new(alloc),
        }
    }

    /// Adds a line. Where it names what no line before it declares, or declares what one does, or
    /// its text is wrong, the line of this number is wrong.
    fn add(
        &mut self,
        alloc: Global,
        line: Line<'a>,
        words: &[&str],
        number: u64,
    ) -> Result<(), ScriptFault>
        requires script { IsScript self.old }
        requires line { IsLine line }
        requires words { texts_in words.now ≡ words_of line }
        requires fits { column_after (texts_in words.now) < 2 ^ 64 }
        ensures script { OnOk result (IsScript self.new) }
        ensures stack { OnOk result (stack_of self.new ≡ stack_of self.old) }
        ensures lines { OnOk result (lines_of self.new ≡ lines_of self.old ++ line.entry ∷ []) }
        ensures fault { IfErr result
            (Blames number (IsLineFaultAt (lines_of self.old) line.entry (texts_in words.now))) }
    {
        let request = match self.asked(alloc, line) {
            Ok(request) => request,
            Err(Unasked::At(place, reason)) => {
                let column = column_after(&words[..place]);
                return Err(wrong(number, column, reason));
            }
            Err(Unasked::Memory) => return Err(ScriptFault::Memory),
        };
        self.declare(line, words, number)?;
        self.lines.push(line)?;
        self.requests.push(request)?;
        Ok(())
    }

    /// Keeps the place of the label that the next line declares.
    fn declare(&mut self, line: Line<'a>, words: &[&str], number: u64) -> Result<(), ScriptFault>
        requires script { IsScript self.old }
        requires words { texts_in words.now ≡ words_of line }
        requires fits { column_after (texts_in words.now) < 2 ^ 64 }
        ensures stack { self.new.stack ≡ self.old.stack }
        ensures lines { self.new.lines ≡ self.old.lines }
        ensures requests { self.new.requests ≡ self.old.requests }
        ensures labels { OnOk result (Declares self.old line.entry self.new) }
        ensures fault { IfErr result
            (Blames number (IsTakenAt (lines_of self.old) line.entry (texts_in words.now))) }
    {
        match line {
            Line::New(_, _, label, _) => {
                if self.labels.contains_key(&label) {
                    let column = column_after(&words[..LABEL_PLACE]);
                    return Err(wrong(number, column, Reason::DeclaredBefore));
                }
                self.labels.insert(label, self.lines.len())?;
                Ok(())
            }
            _ => Ok(()),
        }
    }

    /// The request that a line asks for, if earlier lines declare what it names, and its text is
    /// right. Else what is not: the first of its names, or its text.
    fn asked(&self, alloc: Global, line: Line<'a>) -> Result<Request<'static>, Unasked>
        requires { IsScript self.now }
        ensures request { IfOk result (Asks (lines_of self.now) line.entry) }
        ensures fault { IfErr result (IsUnasked (lines_of self.now) line.entry) }
    {
        match line {
            Line::New(lane, site, _, parent) => {
                Ok(Request::NewSpan {
                    lane,
                    metadata: site,
                    parent: self.parent(parent, 4)?,
                    values: &[],
                })
            }
            Line::Event(lane, site, parent, mute) => {
                let parent = self.parent(parent, 3)?;
                Ok(Request::Event {
                    lane,
                    metadata: site,
                    parent,
                    values: values_of(mute),
                })
            }
            Line::Enter(lane, name) => Ok(Request::Enter(lane, self.which(name, 2)?)),
            Line::Exit(lane, name) => Ok(Request::Exit(lane, self.which(name, 2)?)),
            Line::Record(lane, name) => Ok(Request::Record(lane, self.which(name, 2)?, &[])),
            Line::Follows(lane, name, other) => {
                let which = self.which(name, 2)?;
                Ok(Request::Follows(lane, which, self.which(other, 3)?))
            }
            Line::Clone(name) => Ok(Request::Clone(Lane(0), self.which(name, 1)?)),
            Line::Drop(lane, name) => Ok(Request::Drop(lane, self.which(name, 2)?)),
            Line::Enabled(lane, site) => Ok(Request::Enabled(lane, site)),
            Line::Current(lane) => Ok(Request::Current(lane)),
            Line::Level(number, level) => Ok(Request::Reload(number, Setting::Level(level))),
            Line::Targets(number, text) => Ok(Request::Reload(number, directives(alloc, text)?)),
        }
    }

    /// The parent that is named by the words from this place on, if an earlier line declares it.
    /// Else the place of its name.
    fn parent(&self, parent: ParentName<'a>, place: usize) -> Result<WhichParent, usize>
        requires script { IsScript self.now }
        requires place { place < 10 }
        ensures parent { IfOk result (MeansParent (lines_of self.now) parent.entry) }
        ensures none { IfErr result
            (λ _. HoldsOfNone (MeansParent (lines_of self.now) parent.entry)) }
        ensures place { IfErr result
            (IsUndeclared (lines_of self.now) (names_of_parent place parent.entry)) }
    {
        match parent {
            ParentName::Contextual => Ok(WhichParent::Contextual),
            ParentName::Root => Ok(WhichParent::Root),
            ParentName::In(name) => Ok(WhichParent::Explicit(self.which(name, place + 1)?)),
        }
    }

    /// The span that is named by the word at this place, if an earlier line declares it. Else
    /// the place.
    fn which(&self, name: Name<'a>, place: usize) -> Result<Which, usize>
        requires { IsScript self.now }
        ensures span { IfOk result (Means (lines_of self.now) name.entry) }
        ensures none { IfErr result (λ _. HoldsOfNone (Means (lines_of self.now) name.entry)) }
        ensures place { IfErr result (λ at. at ≡ place) }
    {
        match name {
            Name::Nobody => Ok(Which::Known(Id::from_u64(0))),
            Name::Label(label) => match self.labels.get(&label) {
                Some(made) => Ok(Which::Made(*made)),
                None => Err(place),
            },
        }
    }
}

/// The script with one line of text more. There is none before its first line.
fn next<'a>(
    alloc: Global,
    script: Option<Script<'a>>,
    text: &'a str,
    number: u64,
) -> Result<Option<Script<'a>>, ScriptFault>
    requires { IfSome script IsScript }
    ensures script { IfOk result (λ after. IfSome after IsScript) }
    ensures words { IfOk result (ReadsText script.entry text.now) }
    ensures fault { IfErr result
        (Blames number (IsWrongFor (read_in script.entry) text.now)) }
{
    if text.is_empty() {
        return Ok(script);
    }
    let words = parts_of(alloc, text, ' ')?;
    match script {
        None => match StackName::of(&words) {
            Ok(stack) => Ok(Some(Script::new(alloc, stack))),
            Err(misfit) => {
                let column = misfit.column(&words);
                let reason = first_reason(column, misfit.reason);
                Err(wrong(number, column, reason))
            }
        },
        Some(mut script) => match Line::of(&words) {
            Ok(line) => {
                script.add(alloc, line, &words, number)?;
                Ok(Some(script))
            }
            Err(misfit) => Err(wrong(number, misfit.column(&words), misfit.reason)),
        },
    }
}

/// The reason as a first line's.
fn first_reason(column: usize, reason: Reason) -> Reason
    ensures { result ≡ first_reason column reason }
{
    match reason {
        Reason::UnknownWord if column == 1 => Reason::NoStack,
        Reason::UnknownWord => Reason::UnknownStack,
        _ => reason,
    }
}

/// The fault of the line with this number, for this reason, at this column.
fn wrong(line: u64, column: usize, reason: Reason) -> ScriptFault
    ensures { result ≡ ScriptFault.Wrong
        (record { line = line; column = column; reason = reason }) }
{
    ScriptFault::Wrong(WrongLine {
        line,
        column,
        reason,
    })
}

/// The values that an event is given.
fn values_of(mute: MuteField) -> &'static [(&'static str, FieldValue<'static>)]
    ensures { values_in result ≡ mute_values mute }
{
    match mute {
        MuteField::Absent => &[],
        MuteField::Given => MUTED,
    }
}

/// The parts of a text between these characters.
fn parts_of<'a>(alloc: Global, text: &'a str, separator: char) -> Result<Vec<&'a str>, AllocError>
    requires { separator < 128 }
    ensures { IfOk result (λ parts. texts_in parts.items ≡ cut separator text.now) }
{
    text.split(separator).collect(alloc)
}
