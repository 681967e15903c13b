//! Metadata of callsites, numbered by all else that they show.
ghost use Rattle.std.specs.Prelude.{◌≡◌, codes};
ghost use Rattle.span_core.specs.Metadata.{fields_of, kind_of, level_of, name_of, target_of};
ghost use Rattle.span_macros.specs.Metadata.{IsNumbered};

use crate::number::{first_state, state_after};
use span_core::{FieldSet, Kind, Level, Metadata};

/// The metadata of a callsite. Its number is a hash of all else that the metadata show.
///
/// Callsites that show the same have one number, and are one to a dispatcher. A hash can't rule out
/// that two that don't have one: then a dispatcher refuses the later one (`CallsiteMismatch`) as
/// long as the other's interest is cached. What knows callsites by their numbers alone, as
/// timelines do, takes the two for one.
///
/// Own to this port: in `tracing` a callsite is a static, known by its address.
#[inline(always)] // LLVM computes the number where the parts are literals.
pub fn numbered_metadata(
    kind: Kind,
    level: Level,
    name: &'static str,
    target: &'static str,
    fields: FieldSet,
) -> Metadata
    ensures kind { kind_of result ≡ kind }
    ensures level { level_of result ≡ level }
    ensures name { name_of result ≡ name.now }
    ensures target { target_of result ≡ target.now }
    ensures fields { fields_of result ≡ fields }
    ensures numbered { IsNumbered result }
{
    let mut state = first_state();
    state = state_after(state, kind_text(kind).as_bytes());
    state = state_after(state, level.as_str().as_bytes());
    state = state_after(state, name.as_bytes());
    state = state_after(state, target.as_bytes());
    for field in fields.names() {
        state = state_after(state, field.as_bytes());
    }
    Metadata::new(state, name, target, level, kind, fields)
}

/// The name of a kind.
#[inline(always)]
fn kind_text(kind: Kind) -> &'static str
    ensures span { kind ≡ Kind.SPAN → result.now ≡ codes "SPAN" }
    ensures event { kind ≡ Kind.EVENT → result.now ≡ codes "EVENT" }
{
    if kind == Kind::SPAN { "SPAN" } else { "EVENT" }
}
