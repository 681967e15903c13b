//! What passes within spans that were given a value.
ghost use Rattle.std.specs.Prelude.{◌≡◌, IfOk};
ghost use Rattle.span_fields.specs.Directive.{is_met, most_of, names_span, passes_somewhere, passes_within};

use crate::value::{ValueMatch, is_given};
use span_core::{FieldValue, Level, LevelFilter, Metadata};
use std::alloc::{AllocError, Global};

/// The levels that pass within spans of a name, whose target begins with this one, once they were
/// given a value.
#[derive(Debug, Drop)]
pub struct FieldDirective {
    target: String,
    name: String,
    field: String,
    value: ValueMatch,
    level: LevelFilter,
}

impl FieldDirective {
    ghost use Rattle.span_fields.specs.Directive.{IsDirective, field_of, level_by, name_of, target_of, value_of};

    /// A directive of these parts.
    pub fn new(
        alloc: Global,
        target: &str,
        name: &str,
        field: &str,
        value: ValueMatch,
        level: LevelFilter,
    ) -> Result<FieldDirective, AllocError>
        ensures { IfOk result (IsDirective target.now name.now field.now value level) }
    {
        let target = String::from_str(alloc, target)?;
        let name = String::from_str(alloc, name)?;
        let field = String::from_str(alloc, field)?;
        Ok(FieldDirective {
            target,
            name,
            field,
            value,
            level,
        })
    }

    /// What the spans' target begins with.
    pub fn target(&self) -> &str
        ensures { result.now ≡ target_of self.now }
    {
        self.target.as_str()
    }

    /// The spans' name.
    pub fn name(&self) -> &str
        ensures { result.now ≡ name_of self.now }
    {
        self.name.as_str()
    }

    /// The field that they were given.
    pub fn field(&self) -> &str
        ensures { result.now ≡ field_of self.now }
    {
        self.field.as_str()
    }

    /// The value of that field.
    pub fn value(&self) -> &ValueMatch
        ensures { result.now ≡ value_of self.now }
    {
        &self.value
    }

    /// The levels that pass within the spans.
    pub fn level(&self) -> LevelFilter
        ensures { result ≡ level_by self.now }
    {
        self.level
    }

    /// Whether a span with this metadata is one that the directive names.
    pub fn names_span(&self, meta: &Metadata) -> bool
        ensures { result ≡ names_span meta.now self.now }
    {
        self.name() == meta.name()
            && meta
                .target()
                .as_bytes()
                .starts_with(self.target().as_bytes())
    }

    /// Whether a span with this metadata is one that the directive names, and these values have
    /// the directive's.
    pub fn is_met(&self, meta: &Metadata, values: &[(&'static str, FieldValue<'_>)]) -> bool
        ensures { result ≡ is_met meta.now values.now self.now }
    {
        self.names_span(meta) && is_given(self.field(), &self.value, values)
    }
}

/// Whether metadata of a span pass by one of the directives that name it.
pub(crate) fn passes_within(directives: &[FieldDirective], meta: &Metadata) -> bool
    ensures { result ≡ passes_within directives.now meta.now }
{
    directives.iter().any(|directive| directive.names_span(meta)
        && directive.level().passes(meta.level()))
}

/// Whether the level passes by one of the directives.
pub(crate) fn passes_somewhere(directives: &[FieldDirective], level: Level) -> bool
    ensures { result ≡ passes_somewhere directives.now level }
{
    directives
        .iter()
        .any(|directive| directive.level().passes(level))
}

/// The most that passes by one of the directives, or by this level.
pub(crate) fn most_of(directives: &[FieldDirective], level: LevelFilter) -> LevelFilter
    ensures { result ≡ most_of level directives.now }
{
    let mut most = level;
    for directive in directives {
        if most <= directive.level() {
            most = directive.level();
        }
    }
    most
}
