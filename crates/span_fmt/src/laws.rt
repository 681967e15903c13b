//! Laws for callers: functions whose contract is the law, and that do nothing.
ghost use Rattle.span_fmt.specs.Between.{LinesTellTheirTexts};
ghost use Rattle.span_fmt.specs.Escape.{EscapedTextsDiffer};
ghost use Rattle.span_fmt.specs.FormsTold.{LinesFormsGiveEvents, TreeFormsGiveAll};
ghost use Rattle.span_fmt.specs.Quote.{QuotedTextsEnd};
ghost use Rattle.span_fmt.specs.Streamed.{StreamsWriteAll};
ghost use Rattle.span_fmt.specs.Told.{KnowsWhatWasGiven, LinesWriteEvents, TreesWriteAll};
ghost use Rattle.span_fmt.specs.TreeBetween.{TreesTellTheirTexts};

use crate::form::Form;
use span_registry::Subscriber;
use std::io::Write;

/// A tree writes the lines of all that it is notified of, in order, wherever it stands in a stack,
/// unless it failed.
pub fn a_tree_writes_what_it_is_told()
    ensures { TreesWriteAll }
{}

/// `Lines` writes a line for each event that it is notified of, in order, wherever it stands in a
/// stack, unless it failed.
pub fn lines_are_of_what_they_are_told()
    ensures { LinesWriteEvents }
{}

/// Until a span closes, the values that it was given, at its opening and by records, are known in
/// order.
pub fn what_spans_were_given_is_known()
    ensures { KnowsWhatWasGiven }
{}

/// Texts that are escaped alike are the same: none poses as another.
pub fn escaped_texts_differ()
    ensures { EscapedTextsDiffer }
{}

/// A text in quotes ends at the first quote that no backslash guards, whatever it says: it poses as
/// nothing that stands behind it.
pub fn a_quoted_text_ends_at_its_quote()
    ensures { QuotedTextsEnd }
{}

/// What a line of `Lines` has between its quotes are the texts that it tells, in order, whatever
/// they say: none ends early, or poses as another. So of lines that are the same the texts are.
/// Targets, names of callsites and fields, and floats' texts, which are the program's own, are to
/// have no quotes.
pub fn lines_tell_their_texts()
    ensures { LinesTellTheirTexts }
{}

/// What a line of `Tree` or `TreeForm` has between its quotes are the texts that it tells, in order,
/// whatever they say. So of lines that are the same the texts are. Targets, names of callsites and
/// fields, and floats' texts, which are the program's own, are to have no quotes.
pub fn trees_tell_their_texts()
    ensures { TreesTellTheirTexts }
{}

/// A stream hands its writer a piece of each line that its form gives, in order, wherever it stands
/// in a stack: the whole line, or a beginning of it, and then it counts that line as lost. Where it
/// lost none, the writer got exactly the lines.
pub fn a_stream_writes_what_it_is_told<S: Subscriber, F: Form<S>, W: Write>()
    ensures { StreamsWriteAll F.gives F.misses W.contents }
{}

/// Where memory is found, a tree's form gives the lines of all that it is notified of, in order.
pub fn a_tree_form_gives_its_lines()
    ensures { TreeFormsGiveAll }
{}

/// Where memory is found, the form of `Lines` gives a line for each event, in order.
pub fn a_lines_form_gives_its_lines()
    ensures { LinesFormsGiveEvents }
{}
