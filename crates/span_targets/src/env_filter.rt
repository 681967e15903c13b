//! A filter by targets, and by the spans that a lane is in.
ghost use Rattle.std.specs.Prelude.{◌≡◌, [], OnErr, OnOk};
ghost use Rattle.std.specs.Option.{option_copied};
ghost use Rattle.span_targets.specs.EnvFilter.{most_of_all, passes_anywhere, passes_somewhere, passes_within, spans_of, targets_in};
ghost use Rattle.span_targets.specs.Names.{naming};
ghost use Rattle.span_targets.specs.Targets.{names_of};

use crate::read::Said;
use crate::span_directive::{SpanDirective, most_within, passes_somewhere, passes_within};
use crate::targets::Targets;
use span_core::{Level, LevelFilter, Metadata};
use std::alloc::{AllocError, Global};

/// Decides by target and level as `Targets` does, and lets more by within spans of some names.
///
/// Metadata pass by `[job]=debug` where their level is debug at most, and the lane is in a span
/// `job` or in one whose parents lead there, or they are such a span's own. By `db[job]=debug` the
/// span's target has to begin with `db`. Spans are those that the filter's own context shows: one
/// that the filter refused is none.
///
/// Stands for `tracing_subscriber::filter::EnvFilter`, which knows fields too.
#[derive(Debug, Drop)]
pub struct EnvFilter {
    targets: Targets,
    spans: Vec<SpanDirective>,
}

impl EnvFilter {
    ghost use Rattle.span_targets.specs.EnvFilter.{AddsSpan, IsSameFilter};

    /// A filter that goes by targets alone.
    pub fn new(alloc: Global, targets: Targets) -> EnvFilter
        ensures targets { targets_in result ≡ targets }
        ensures spans { spans_of result ≡ [] }
    {
        EnvFilter {
            targets,
            spans: Vec::new(alloc),
        }
    }

    /// Lets these levels pass within spans of this name, whose target begins with this one, too.
    ///
    /// Stands for a part of `EnvFilter::add_directive`.
    pub fn add_span(
        &mut self,
        target: &str,
        name: &str,
        level: LevelFilter,
    ) -> Result<(), AllocError>
        ensures ok { OnOk result (AddsSpan target.now name.now level self.old self.new) }
        ensures err { OnErr result (IsSameFilter self.old self.new) }
    {
        let span = SpanDirective::new(*self.spans.allocator(), target, name, level)?;
        self.spans.push(span)?;
        Ok(())
    }

    /// Takes what a directive says of targets.
    pub(crate) fn set(&mut self, said: Said<'_>) -> Result<(), AllocError>
        ensures targets { OnOk result (names_of (targets_in self.new)
            ≡ naming (option_copied said.entry.target) said.entry.level
            (names_of (targets_in self.old))) }
        ensures spans { spans_of self.new ≡ spans_of self.old }
    {
        self.targets.set(said)
    }

    /// What passes by targets.
    pub fn targets(&self) -> &Targets
        ensures { result.now ≡ targets_in self.now }
    {
        &self.targets
    }

    /// The directives by which more passes within spans.
    pub fn spans(&self) -> &[SpanDirective]
        ensures { result.now ≡ spans_of self.now }
    {
        &self.spans
    }

    /// Whether metadata pass on each lane: by their target, or as those of a span that is named.
    pub fn passes_anywhere(&self, meta: &Metadata) -> bool
        ensures { result ≡ passes_anywhere self.now meta.now }
    {
        self.targets.would_enable(meta.target(), meta.level())
            || (meta.is_span() && passes_within(&self.spans, meta, meta.level()))
    }

    /// Whether the level passes within a span with this metadata.
    pub fn passes_within(&self, span: &Metadata, level: Level) -> bool
        ensures { result ≡ passes_within (spans_of self.now) span.now level }
    {
        passes_within(&self.spans, span, level)
    }

    /// Whether the level passes within some span.
    pub fn passes_somewhere(&self, level: Level) -> bool
        ensures { result ≡ passes_somewhere (spans_of self.now) level }
    {
        passes_somewhere(&self.spans, level)
    }

    /// The most that passes anywhere.
    pub fn max_level(&self) -> LevelFilter
        ensures { result ≡ most_of_all self.now }
    {
        most_within(&self.spans, self.targets.max_level())
    }
}
