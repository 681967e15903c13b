//! What a run is asked for.

use span_format::Layout;

/// The form of the lines.
#[derive(Clone, Copy, Debug, PartialEq, Eq)]
pub enum Shape {
    /// `LinesForm`.
    Lines,
    /// `Format` in a layout.
    Plain(Layout),
    /// `Format` in a layout, each line behind its time in UTC.
    Stamped(Layout),
    /// `JsonForm` with times in UTC.
    Json,
    /// `TreeForm`.
    Tree,
    /// OpenTelemetry's spans, for a collector.
    Otlp,
}

impl Shape {
    /// The form with this name.
    fn of(name: &str) -> Option<Shape> {
        match name {
            "lines" => Some(Shape::Lines),
            "full" => Some(Shape::Plain(Layout::Full)),
            "full_time" => Some(Shape::Stamped(Layout::Full)),
            "compact" => Some(Shape::Plain(Layout::Compact)),
            "pretty" => Some(Shape::Plain(Layout::Pretty)),
            "json" => Some(Shape::Json),
            "tree" => Some(Shape::Tree),
            "otlp" => Some(Shape::Otlp),
            _ => None,
        }
    }
}

/// What a round does.
#[derive(Clone, Copy, Debug, PartialEq, Eq)]
pub enum Work {
    /// An event with a number and a text, in no span.
    Event,
    /// The same event, in three spans with a field each.
    Deep,
    /// A span with three fields, entered and left, and an event in it.
    Span,
}

impl Work {
    /// The work with this name.
    fn of(name: &str) -> Option<Work> {
        match name {
            "event" => Some(Work::Event),
            "deep" => Some(Work::Deep),
            "span" => Some(Work::Span),
            _ => None,
        }
    }
}

/// Some rounds of a work, whose lines nobody keeps.
#[derive(Clone, Copy, Debug, PartialEq, Eq)]
pub struct Order {
    /// The form of the lines.
    pub shape: Shape,
    /// What a round does.
    pub work: Work,
    /// How many rounds.
    pub rounds: u64,
}

impl Order {
    /// What a line asks for, if it is a form's name, a work's and a number with one space between.
    pub fn of(line: &str) -> Option<Order> {
        let (shape, rest) = line.split_once(' ')?;
        let (work, rounds) = rest.split_once(' ')?;
        Some(Order {
            shape: Shape::of(shape)?,
            work: Work::of(work)?,
            rounds: rounds.parse::<u64>().ok()?,
        })
    }
}
