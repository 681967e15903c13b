//! What passes within spans.
ghost use Rattle.std.specs.Prelude.{◌≡◌, IfOk};
ghost use Rattle.span_targets.specs.EnvFilter.{most_within, passes_somewhere, passes_within};

use crate::order::greater;
use span_core::{Level, LevelFilter, Metadata};
use std::alloc::{AllocError, Global};

/// The levels that pass within spans of a name, whose target begins with this one.
#[derive(Debug, Drop)]
pub struct SpanDirective {
    target: String,
    name: String,
    level: LevelFilter,
}

impl SpanDirective {
    ghost use Rattle.span_targets.specs.EnvFilter.{IsDirective, level_within, name_within, names_span, target_within};

    /// A directive of these parts.
    pub(crate) fn new(
        alloc: Global,
        target: &str,
        name: &str,
        level: LevelFilter,
    ) -> Result<SpanDirective, AllocError>
        ensures { IfOk result (IsDirective target.now name.now level) }
    {
        let target = String::from_str(alloc, target)?;
        let name = String::from_str(alloc, name)?;
        Ok(SpanDirective {
            target,
            name,
            level,
        })
    }

    /// What the spans' target begins with.
    pub fn target(&self) -> &str
        ensures { result.now ≡ target_within self.now }
    {
        self.target.as_str()
    }

    /// The spans' name.
    pub fn name(&self) -> &str
        ensures { result.now ≡ name_within self.now }
    {
        self.name.as_str()
    }

    /// The levels that pass within the spans.
    pub fn level(&self) -> LevelFilter
        ensures { result ≡ level_within self.now }
    {
        self.level
    }

    /// Whether a span with this metadata is one that the directive names.
    pub fn names_span(&self, meta: &Metadata) -> bool
        ensures { result ≡ names_span meta.now self.now }
    {
        self.name() == meta.name()
            && meta
                .target()
                .as_bytes()
                .starts_with(self.target().as_bytes())
    }
}

/// Whether the level passes within a span with this metadata, by one of the directives.
pub(crate) fn passes_within(spans: &[SpanDirective], meta: &Metadata, level: Level) -> bool
    ensures { result ≡ passes_within spans.now meta.now level }
{
    spans
        .iter()
        .any(|span| span.names_span(meta) && span.level().passes(level))
}

/// Whether the level passes within some span.
pub(crate) fn passes_somewhere(spans: &[SpanDirective], level: Level) -> bool
    ensures { result ≡ passes_somewhere spans.now level }
{
    spans.iter().any(|span| span.level().passes(level))
}

/// The most that passes within a span, or what is at hand.
pub(crate) fn most_within(spans: &[SpanDirective], most: LevelFilter) -> LevelFilter
    ensures { result ≡ most_within most spans.now }
{
    let mut most = most;
    for span in spans {
        most = greater(most, span.level());
    }
    most
}
