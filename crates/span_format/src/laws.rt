//! Laws for callers: functions whose contract is the law, and that do nothing.
ghost use Rattle.span_format.specs.Between.{FormatsTellTheirTexts};
ghost use Rattle.span_format.specs.Told.{FormatsGiveEvents, KeepsWhatWasGiven};
ghost use Rattle.span_format.specs.Written.{FormatsAreWritten};

use crate::format::Format;
use span_registry::Subscriber;
use std::io::Write;

/// A format gives a line for each event that it is notified of, in order, each in its own view and
/// with the fields that open spans were given by then; and it looks the same all the time.
pub fn a_format_gives_its_lines()
    ensures { FormatsGiveEvents }
{}

/// Where a stream loses no line, and none before was cut, the bytes that its writer holds, if they
/// are known, grow by exactly the lines of its format, wherever the stream stands in a stack.
pub fn a_format_is_written_as_it_is_given<S: Subscriber, W: Write>()
    ensures { FormatsAreWritten W.contents }
{
    span_fmt::laws::a_stream_writes_what_it_is_told::<S, Format, W>();
}

/// Until a span closes, the fields that it was given, at its opening and by records, are kept in
/// order; and once it has closed, nothing of it is kept.
pub fn what_open_spans_were_given_is_kept()
    ensures { KeepsWhatWasGiven }
{}

/// What a line of any layout has between its quotes are the texts that it tells, in order, whatever
/// they say: none ends early, or poses as another. So of lines that are the same the texts are.
/// Names and floats' texts, which are the program's own, are to have no quotes.
pub fn lines_tell_their_texts()
    ensures { FormatsTellTheirTexts }
{}
