//! What a script prints.
ghost use Rattle.std.specs.Prelude.{◌≡◌, OnOk, IfOk, slice_get, string_bytes};
ghost use Rattle.span_script.specs.Printed.{all_sections, labels_in, name_in, notice_text, replies, reply_text, section_in, section_text, yes_text, AreLabels, IsContinued, IsNaming, IsPrinted};

use crate::line::Line;
use span_core::Id;
use span_dispatch::{Answer, Recorded};
use std::alloc::{AllocError, Global};
use std::collections::BTreeMap;

/// What is printed of one recorder: its name, and the notices that it kept.
#[derive(Clone, Copy, Debug)]
pub struct Section<'a> {
    /// The name.
    pub name: &'a str,
    /// The notices, in their order.
    pub notices: &'a [Recorded],
}

/// The labels of the spans that were made, by the numbers of their ids.
struct Names<'a> {
    labels: BTreeMap<u64, &'a str>,
}

impl Drop for Names<'_> {
    fn drop(self) {
        let Names { labels } = self;
    }
}

impl<'a> Names<'a> {
    /// The names that the lines give to the spans that these answers made.
    fn new(alloc: Global, lines: &[Line<'a>], answers: &[Answer]) -> Result<Names<'a>, AllocError>
        ensures { IfOk result (λ names. AreLabels lines.now answers.now (labels_in names)) }
    {
        let mut labels = BTreeMap::new(alloc);
        for (place, line) in lines.iter().enumerate() {
            if let Some((number, label)) = named(line, answers, place) {
                labels.insert(number, label)?;
            }
        }
        Ok(Names { labels })
    }

    /// The label of a span, or `?` where no line made it.
    fn of(&self, id: Id) -> &'a str
        ensures { result.now ≡ name_in self.now id }
    {
        match self.labels.get(&id.into_u64()) {
            Some(label) => *label,
            None => "?",
        }
    }
}

/// The number of the span that the line at this place made, and the label that it declares.
fn named<'a>(line: &Line<'a>, answers: &[Answer], place: usize) -> Option<(u64, &'a str)>
    ensures { IsNaming line.now (slice_get answers.now place) result }
{
    match (line, answers.get(place)) {
        (Line::New(_, _, label, _), Some(Answer::Made(id))) => Some((id.into_u64(), *label)),
        _ => None,
    }
}

/// What is printed for the lines of a script: a line for each answer, and then what each recorder
/// kept, in the order in which they are given.
pub fn text_of(
    alloc: Global,
    lines: &[Line<'_>],
    answers: &[Answer],
    sections: &[Section<'_>],
) -> Result<String, AllocError>
    ensures { IfOk result (λ s.
        IsPrinted lines.now answers.now (all_sections sections.now) (string_bytes s)) }
{
    let names = Names::new(alloc, lines, answers)?;
    let mut text = String::new(alloc);
    write_replies(&mut text, &names, lines, answers)?;
    for section in sections {
        write_section(&mut text, &names, section)?;
    }
    Ok(text)
}

fn write_replies(
    text: &mut String,
    names: &Names<'_>,
    lines: &[Line<'_>],
    answers: &[Answer],
) -> Result<(), AllocError>
    ensures { OnOk result
        (IsContinued text.old text.new (replies (name_in names.now) lines.now answers.now)) }
{
    for (line, answer) in lines.iter().zip(answers) {
        write_answer(text, names, line, *answer)?;
    }
    Ok(())
}

fn write_answer(
    text: &mut String,
    names: &Names<'_>,
    line: &Line<'_>,
    answer: Answer,
) -> Result<(), AllocError>
    ensures { OnOk result
        (IsContinued text.old text.new (reply_text (name_in names.now) line.now answer)) }
{
    match answer {
        Answer::Made(id) => writeln!(text, "{}", names.of(id)),
        Answer::Current(Some(id)) => writeln!(text, "{}", names.of(id)),
        Answer::Dropped | Answer::Current(None) => writeln!(text, "none"),
        Answer::Done => writeln!(text, "ok"),
        Answer::Yes(yes) => write_yes(text, line, yes),
        Answer::Refused(error) => writeln!(text, "refused {}", error.number()),
    }
}

/// A drop says `ok`, whether or not its span closed by it.
fn write_yes(text: &mut String, line: &Line<'_>, yes: bool) -> Result<(), AllocError>
    ensures { OnOk result (IsContinued text.old text.new (yes_text line.now yes)) }
{
    match line {
        Line::Enabled(_, _) => writeln!(text, "{yes}"),
        _ => writeln!(text, "ok"),
    }
}

fn write_section(
    text: &mut String,
    names: &Names<'_>,
    section: &Section<'_>,
) -> Result<(), AllocError>
    ensures { OnOk result
        (IsContinued text.old text.new
        (section_text (name_in names.now) (section_in section.now))) }
{
    writeln!(text, "== {}", section.name)?;
    for notice in section.notices {
        write_notice(text, names, *notice)?;
    }
    Ok(())
}

fn write_notice(text: &mut String, names: &Names<'_>, notice: Recorded) -> Result<(), AllocError>
    ensures { OnOk result (IsContinued text.old text.new (notice_text (name_in names.now) notice)) }
{
    match notice {
        Recorded::New(_, id) => writeln!(text, "new {}", names.of(id)),
        Recorded::Record(_, id) => writeln!(text, "record {}", names.of(id)),
        Recorded::Follows(_, id, other) => {
            writeln!(text, "follows {} {}", names.of(id), names.of(other))
        }
        Recorded::Event(_, callsite) => writeln!(text, "event {callsite}"),
        Recorded::Enter(_, id) => writeln!(text, "enter {}", names.of(id)),
        Recorded::Exit(_, id) => writeln!(text, "exit {}", names.of(id)),
        // No stack of scripts changes ids, so this is never written.
        Recorded::IdChange(_, id, other) => writeln!(
            text,
            "id {} {}",
            names.of(id),
            names.of(other)
        ),
        Recorded::Close(_, id) => writeln!(text, "close {}", names.of(id)),
    }
}
