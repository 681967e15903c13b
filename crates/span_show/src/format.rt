//! What a script can be shown as.
ghost use Rattle.std.specs.Prelude.{◌≡◌, ◌≢◌, IfNone, IfSome};
ghost use Rattle.span_show.specs.Show.{format_word};

/// What is shown of a script.
#[derive(Clone, Copy, Debug, PartialEq, Eq)]
pub enum Format {
    /// A line for each new span, record, close and event.
    Tree,
    /// A line for each event, with the spans around it.
    Lines,
    /// What happened when, for another tool.
    Points(Export),
}

/// What points are exported as.
#[derive(Clone, Copy, Debug, PartialEq, Eq)]
pub enum Export {
    /// Chrome's trace format, which Perfetto opens.
    Chrome,
    /// OpenTelemetry's spans, a line for each.
    Otlp,
    /// Folded stacks, of which flame graphs are made.
    Folded,
    /// Folded stacks by scope.
    Scopes,
    /// A table of how long spans took, and how often events came.
    Timing,
    /// A picture.
    Svg,
    /// A picture in a page, to zoom and search.
    Page,
}

impl Format {
    /// The format that a word names, if it names one.
    pub fn of(word: &str) -> Option<Format>
        ensures spelled { IfSome result (λ format. word.now ≡ format_word format) }
        ensures none { IfNone result ((format : Format) → word.now ≢ format_word format) }
    {
        match word {
            "tree" => Some(Format::Tree),
            "lines" => Some(Format::Lines),
            "chrome" => Some(Format::Points(Export::Chrome)),
            "otlp" => Some(Format::Points(Export::Otlp)),
            "folded" => Some(Format::Points(Export::Folded)),
            "scopes" => Some(Format::Points(Export::Scopes)),
            "timing" => Some(Format::Points(Export::Timing)),
            "svg" => Some(Format::Points(Export::Svg)),
            "page" => Some(Format::Points(Export::Page)),
            _ => None,
        }
    }
}
