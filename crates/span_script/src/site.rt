//! The callsites that a script names by one digit.
ghost use Rattle.std.specs.Prelude.{◌≡◌, ◌∷◌, [], IfErr, IfOk, codes};
ghost use Rattle.span_core.specs.Metadata.{callsite_of, fields_of, kind_of, level_of, name_of, names_of, target_of};
ghost use Rattle.span_script.specs.Misfit.{IsNoFirst};
ghost use Rattle.span_script.specs.Script.{site_word, texts_in, IsAnySite, IsEventSite, IsSpanSite};

use crate::misfit::{Taken, first, misfit_of};
use crate::reason::Reason;
use span_core::{FieldSet, Kind, Level, Metadata};

/// The callsite of spans that the first word names.
pub fn span_site<'w, 'a>(words: &'w [&'a str]) -> Taken<'w, 'a, Metadata>
    ensures spelled { IfOk result (λ t. texts_in words.now ≡ site_word t.0 ∷ texts_in t.1.now) }
    ensures site { IfOk result (λ t. IsSpanSite t.0) }
    ensures fault { IfErr result
        (IsNoFirst IsSpanSite site_word Reason.UnknownWord (texts_in words.now)) }
{
    let (word, behind) = first(words)?;
    let site = match word {
        "0" => site_of(0, "s0", Level::ERROR, Kind::SPAN, &[]),
        "1" => site_of(1, "s1", Level::WARN, Kind::SPAN, &[]),
        "2" => site_of(2, "s2", Level::INFO, Kind::SPAN, &[]),
        "3" => site_of(3, "s3", Level::DEBUG, Kind::SPAN, &[]),
        "4" => site_of(4, "s4", Level::TRACE, Kind::SPAN, &[]),
        _ => return Err(misfit_of(words, Reason::UnknownWord)),
    };
    Ok((site, behind))
}

/// The callsite of events that the first word names.
pub fn event_site<'w, 'a>(words: &'w [&'a str]) -> Taken<'w, 'a, Metadata>
    ensures spelled { IfOk result (λ t. texts_in words.now ≡ site_word t.0 ∷ texts_in t.1.now) }
    ensures site { IfOk result (λ t. IsEventSite t.0) }
    ensures fault { IfErr result
        (IsNoFirst IsEventSite site_word Reason.UnknownWord (texts_in words.now)) }
{
    let (word, behind) = first(words)?;
    let site = match word {
        "5" => site_of(5, "s5", Level::ERROR, Kind::EVENT, &["mute"]),
        "6" => site_of(6, "s6", Level::WARN, Kind::EVENT, &["mute"]),
        "7" => site_of(7, "s7", Level::INFO, Kind::EVENT, &["mute"]),
        "8" => site_of(8, "s8", Level::DEBUG, Kind::EVENT, &["mute"]),
        "9" => site_of(9, "s9", Level::TRACE, Kind::EVENT, &["mute"]),
        _ => return Err(misfit_of(words, Reason::UnknownWord)),
    };
    Ok((site, behind))
}

/// The callsite that the first word names.
pub fn any_site<'w, 'a>(words: &'w [&'a str]) -> Taken<'w, 'a, Metadata>
    ensures spelled { IfOk result (λ t. texts_in words.now ≡ site_word t.0 ∷ texts_in t.1.now) }
    ensures site { IfOk result (λ t. IsAnySite t.0) }
    ensures fault { IfErr result
        (IsNoFirst IsAnySite site_word Reason.UnknownWord (texts_in words.now)) }
{
    match span_site(words) {
        Ok(taken) => Ok(taken),
        Err(_) => event_site(words),
    }
}

/// A callsite of scripts, with these fields.
fn site_of(
    callsite: u64,
    name: &'static str,
    level: Level,
    kind: Kind,
    fields: &'static [&'static str],
) -> Metadata
    ensures callsite { callsite_of result ≡ callsite }
    ensures name { name_of result ≡ name.now }
    ensures target { target_of result ≡ codes "script" }
    ensures level { level_of result ≡ level }
    ensures kind { kind_of result ≡ kind }
    ensures fields { texts_in (names_of (fields_of result)) ≡ texts_in fields.now }
{
    Metadata::new(callsite, name, "script", level, kind, FieldSet::new(fields))
}
