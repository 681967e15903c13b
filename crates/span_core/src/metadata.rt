//! What a callsite says of its spans or events.
ghost use Rattle.std.specs.Prelude.{◌≡◌, ◌↔◌, IsTrue};
ghost use Rattle.span_core.specs.Metadata.{callsite_of, fields_of, kind_of, level_of};
ghost use Rattle.span_core.specs.Metadata.{ShowSame, name_of, target_of};

use crate::field::FieldSet;
use crate::level::Level;
use crate::text::same_text;

/// Whether a callsite makes spans or events.
///
/// Stands for `tracing_core::Kind`, which can be a hint too.
#[derive(Clone, Copy, Debug, PartialEq, Eq, Hash)]
pub struct Kind(Makes);

#[derive(Clone, Copy, Debug, PartialEq, Eq, Hash)]
enum Makes {
    Spans,
    Events,
}

impl Kind {
    /// The callsite makes spans.
    pub const SPAN: Kind = Kind(Makes::Spans);

    /// The callsite makes events.
    pub const EVENT: Kind = Kind(Makes::Events);
}

/// What a callsite says of its spans or events: a value that is copied, with the callsite's number.
///
/// Stands for `tracing_core::Metadata`, which is borrowed for good and known by its address.
#[derive(Clone, Copy, Debug, PartialEq, Eq)]
pub struct Metadata {
    callsite: u64,
    name: &'static str,
    target: &'static str,
    level: Level,
    kind: Kind,
    fields: FieldSet,
}

impl Metadata {
    /// The metadata made of these parts.
    pub fn new(
        callsite: u64,
        name: &'static str,
        target: &'static str,
        level: Level,
        kind: Kind,
        fields: FieldSet,
    ) -> Metadata
        ensures callsite { callsite_of result ≡ callsite }
        ensures name { name_of result ≡ name.now }
        ensures target { target_of result ≡ target.now }
        ensures level { level_of result ≡ level }
        ensures kind { kind_of result ≡ kind }
        ensures fields { fields_of result ≡ fields }
    {
        Metadata {
            callsite,
            name,
            target,
            level,
            kind,
            fields,
        }
    }

    /// The callsite's number.
    pub fn callsite(&self) -> u64
        ensures { result ≡ callsite_of self.now }
    {
        self.callsite
    }

    /// The name.
    pub fn name(&self) -> &'static str
        ensures { result.now ≡ name_of self.now }
    {
        self.name
    }

    /// The part of the program that the callsite stands in.
    pub fn target(&self) -> &'static str
        ensures { result.now ≡ target_of self.now }
    {
        self.target
    }

    /// The level.
    pub fn level(&self) -> Level
        ensures { result ≡ level_of self.now }
    {
        self.level
    }

    /// Whether the callsite makes spans or events.
    pub fn kind(&self) -> Kind
        ensures { result ≡ kind_of self.now }
    {
        self.kind
    }

    /// The names of the fields.
    pub fn fields(&self) -> FieldSet
        ensures { result ≡ fields_of self.now }
    {
        self.fields
    }

    /// Whether the callsite makes spans.
    pub fn is_span(&self) -> bool
        ensures { IsTrue result ↔ (kind_of self.now ≡ Kind.SPAN) }
    {
        self.kind == Kind::SPAN
    }

    /// Whether the callsite makes events.
    pub fn is_event(&self) -> bool
        ensures { IsTrue result ↔ (kind_of self.now ≡ Kind.EVENT) }
    {
        self.kind == Kind::EVENT
    }

    /// Whether two metadata show the same: callsite, name, target, level, kind and the fields'
    /// names, as `==` answers too.
    ///
    /// Own to this port: the crate knows metadata by their address.
    #[inline(always)]
    pub fn shows_same(&self, other: &Metadata) -> bool
        ensures { IsTrue result ↔ ShowSame self.now other.now }
    {
        self.callsite == other.callsite
            && same_level(self.level, other.level)
            && same_kind(self.kind, other.kind)
            && same_text(self.name, other.name)
            && same_text(self.target, other.target)
            && self.fields.has_same_names(&other.fields)
    }
}

fn same_level(a: Level, b: Level) -> bool
    ensures { IsTrue result ↔ (a ≡ b) }
{
    a == b
}

fn same_kind(a: Kind, b: Kind) -> bool
    ensures { IsTrue result ↔ (a ≡ b) }
{
    a == b
}
