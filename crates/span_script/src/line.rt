//! The lines of a script.
ghost use Rattle.std.specs.Prelude.{◌≡◌, ◌<◌, ◌∷◌, ⊤, codes, IfErr, IfOk, IsTrue, slice_index};
ghost use Rattle.std.specs.Char.{is_ascii_lowercase};
ghost use Rattle.std.specs.List.{list_all};
ghost use Rattle.span_script.specs.Misfit.{IsMisfit, IsNoFirst};
ghost use Rattle.span_script.specs.Script.{digit, has_return, is_keyword, is_label, is_letter_or_digit, is_text, lane_words, level_word, mute_words, parent_words, tail_words, texts_in, word_of, words_of, IsBehind, IsDigit, IsLaneAndName, IsLater, IsLine, IsName, IsParentName, IsTail, Spells};

use crate::misfit::{Misfit, Taken, end, first, misfit_of};
use crate::reason::Reason;
use crate::site::{any_site, event_site, span_site};
use span_core::{Lane, LevelFilter, Metadata};

/// The most characters that a label has.
const LABEL_LIMIT: usize = 16;

/// A span as a line names it.
#[derive(Clone, Copy, Debug)]
pub enum Name<'a> {
    /// The name `?`, of the id 0, which no span has.
    Nobody,
    /// The label of the line that makes the span.
    Label(&'a str),
}

/// The parent that a line names.
#[derive(Clone, Copy, Debug)]
pub enum ParentName<'a> {
    /// Written by nothing: the span that the lane is in.
    Contextual,
    /// Written by `root`: no parent.
    Root,
    /// Written by `in` and a name: the span of that name.
    In(Name<'a>),
}

/// The value that a line gives to an event's field `mute`.
#[derive(Clone, Copy, Debug, PartialEq, Eq)]
pub enum MuteField {
    /// Written by nothing: no value.
    Absent,
    /// True, by `mute`.
    Given,
}

/// A line after the first.
#[derive(Clone, Copy, Debug)]
pub enum Line<'a> {
    /// `new L SITE LABEL`, and then `root`, `in X` or nothing.
    New(Lane, Metadata, &'a str, ParentName<'a>),
    /// `event L SITE`, then `root`, `in X` or nothing, and then `mute` or nothing.
    Event(Lane, Metadata, ParentName<'a>, MuteField),
    /// `enter L X`
    Enter(Lane, Name<'a>),
    /// `exit L X`
    Exit(Lane, Name<'a>),
    /// `record L X`
    Record(Lane, Name<'a>),
    /// `follows L X Y`
    Follows(Lane, Name<'a>, Name<'a>),
    /// `clone X`
    Clone(Name<'a>),
    /// `drop L X`
    Drop(Lane, Name<'a>),
    /// `enabled L SITE`
    Enabled(Lane, Metadata),
    /// `current L`
    Current(Lane),
    /// `level F NAME`: the number of a filter, from 0 to 9, and the level that it is set to.
    Level(u32, LevelFilter),
    /// `targets F TEXT`: the number of a filter, from 0 to 9, and the text of the directives that
    /// it is set to.
    Targets(u32, &'a str),
}

impl<'a> Line<'a> {
    /// The line that the words are, or else which of them is wrong, and why.
    pub(crate) fn of(words: &[&'a str]) -> Result<Line<'a>, Misfit>
        ensures spelled { IfOk result (λ line. texts_in words.now ≡ words_of line) }
        ensures line { IfOk result IsLine }
        ensures fault { IfErr result (IsMisfit IsLater (texts_in words.now)) }
    {
        let (verb, behind) = first(words)?;
        match verb {
            "new" => new(behind),
            "event" => event(behind),
            "enter" => {
                let (lane, name) = lane_and_name(behind)?;
                Ok(Line::Enter(lane, name))
            }
            "exit" => {
                let (lane, name) = lane_and_name(behind)?;
                Ok(Line::Exit(lane, name))
            }
            "record" => {
                let (lane, name) = lane_and_name(behind)?;
                Ok(Line::Record(lane, name))
            }
            "drop" => {
                let (lane, name) = lane_and_name(behind)?;
                Ok(Line::Drop(lane, name))
            }
            "follows" => follows(behind),
            "clone" => clone(behind),
            "enabled" => enabled(behind),
            "current" => current(behind),
            "level" => set_level(behind),
            "targets" => set_targets(behind),
            _ => Err(misfit_of(words, Reason::UnknownWord)),
        }
    }
}

/// The line that the words behind `new` make.
fn new<'a>(words: &[&'a str]) -> Result<Line<'a>, Misfit>
    ensures spelled { IfOk result (λ line. codes "new" ∷ texts_in words.now ≡ words_of line) }
    ensures line { IfOk result IsLine }
    ensures fault { IfErr result (IsMisfit (IsBehind (codes "new")) (texts_in words.now)) }
{
    let (lane, words) = lane(words)?;
    let (site, words) = span_site(words)?;
    let (label, words) = label(words)?;
    Ok(Line::New(lane, site, label, parent(words)?))
}

/// The line that the words behind `event` make.
fn event<'a>(words: &[&'a str]) -> Result<Line<'a>, Misfit>
    ensures spelled { IfOk result (λ line. codes "event" ∷ texts_in words.now ≡ words_of line) }
    ensures line { IfOk result IsLine }
    ensures fault { IfErr result (IsMisfit (IsBehind (codes "event")) (texts_in words.now)) }
{
    let (lane, words) = lane(words)?;
    let (site, words) = event_site(words)?;
    let (parent, mute) = tail(words)?;
    Ok(Line::Event(lane, site, parent, mute))
}

/// The line that the words behind `follows` make.
fn follows<'a>(words: &[&'a str]) -> Result<Line<'a>, Misfit>
    ensures spelled { IfOk result (λ line. codes "follows" ∷ texts_in words.now ≡ words_of line) }
    ensures line { IfOk result IsLine }
    ensures fault { IfErr result (IsMisfit (IsBehind (codes "follows")) (texts_in words.now)) }
{
    let (lane, words) = lane(words)?;
    let (span, words) = span_name(words)?;
    let (other, words) = span_name(words)?;
    end(words)?;
    Ok(Line::Follows(lane, span, other))
}

/// The line that the words behind `clone` make.
fn clone<'a>(words: &[&'a str]) -> Result<Line<'a>, Misfit>
    ensures spelled { IfOk result (λ line. codes "clone" ∷ texts_in words.now ≡ words_of line) }
    ensures line { IfOk result IsLine }
    ensures fault { IfErr result (IsMisfit (IsBehind (codes "clone")) (texts_in words.now)) }
{
    let (name, words) = span_name(words)?;
    end(words)?;
    Ok(Line::Clone(name))
}

/// The line that the words behind `enabled` make.
fn enabled<'a>(words: &[&'a str]) -> Result<Line<'a>, Misfit>
    ensures spelled { IfOk result (λ line. codes "enabled" ∷ texts_in words.now ≡ words_of line) }
    ensures line { IfOk result IsLine }
    ensures fault { IfErr result (IsMisfit (IsBehind (codes "enabled")) (texts_in words.now)) }
{
    let (lane, words) = lane(words)?;
    let (site, words) = any_site(words)?;
    end(words)?;
    Ok(Line::Enabled(lane, site))
}

/// The line that the words behind `current` make.
fn current<'a>(words: &[&'a str]) -> Result<Line<'a>, Misfit>
    ensures spelled { IfOk result (λ line. codes "current" ∷ texts_in words.now ≡ words_of line) }
    ensures line { IfOk result IsLine }
    ensures fault { IfErr result (IsMisfit (IsBehind (codes "current")) (texts_in words.now)) }
{
    let (lane, words) = lane(words)?;
    end(words)?;
    Ok(Line::Current(lane))
}

/// The line that the words behind `level` make.
fn set_level<'a>(words: &[&'a str]) -> Result<Line<'a>, Misfit>
    ensures spelled { IfOk result (λ line. codes "level" ∷ texts_in words.now ≡ words_of line) }
    ensures line { IfOk result IsLine }
    ensures fault { IfErr result (IsMisfit (IsBehind (codes "level")) (texts_in words.now)) }
{
    let (number, words) = number(words)?;
    let (level, words) = level(words)?;
    end(words)?;
    Ok(Line::Level(number, level))
}

/// The line that the words behind `targets` make.
fn set_targets<'a>(words: &[&'a str]) -> Result<Line<'a>, Misfit>
    ensures spelled { IfOk result (λ line. codes "targets" ∷ texts_in words.now ≡ words_of line) }
    ensures line { IfOk result IsLine }
    ensures fault { IfErr result (IsMisfit (IsBehind (codes "targets")) (texts_in words.now)) }
{
    let (number, words) = number(words)?;
    let (text, words) = text(words)?;
    end(words)?;
    Ok(Line::Targets(number, text))
}

/// The lane and the name that the words are.
fn lane_and_name<'a>(words: &[&'a str]) -> Result<(Lane, Name<'a>), Misfit>
    ensures spelled { IfOk result (λ both. texts_in words.now ≡ lane_words both) }
    ensures both { IfOk result IsLaneAndName }
    ensures fault { IfErr result (IsMisfit (Spells IsLaneAndName lane_words) (texts_in words.now)) }
{
    let (lane, words) = lane(words)?;
    let (name, words) = span_name(words)?;
    end(words)?;
    Ok((lane, name))
}

/// The parent that the words are.
fn parent<'a>(words: &[&'a str]) -> Result<ParentName<'a>, Misfit>
    ensures spelled { IfOk result (λ parent. texts_in words.now ≡ parent_words parent) }
    ensures name { IfOk result IsParentName }
    ensures fault { IfErr result
        (IsMisfit (Spells IsParentName parent_words) (texts_in words.now)) }
{
    let Ok((word, behind)) = first(words) else {
        return Ok(ParentName::Contextual);
    };
    match word {
        "root" => {
            end(behind)?;
            Ok(ParentName::Root)
        }
        "in" => {
            let (name, behind) = span_name(behind)?;
            end(behind)?;
            Ok(ParentName::In(name))
        }
        _ => Err(misfit_of(words, Reason::UnknownWord)),
    }
}

/// The parent and the value that the last words of an event's line are.
fn tail<'a>(words: &[&'a str]) -> Result<(ParentName<'a>, MuteField), Misfit>
    ensures spelled { IfOk result (λ tail. texts_in words.now ≡ tail_words tail) }
    ensures tail { IfOk result IsTail }
    ensures fault { IfErr result (IsMisfit (Spells IsTail tail_words) (texts_in words.now)) }
{
    let Ok((word, behind)) = first(words) else {
        return Ok((ParentName::Contextual, MuteField::Absent));
    };
    match word {
        "root" => Ok((ParentName::Root, mute(behind)?)),
        "in" => {
            let (name, behind) = span_name(behind)?;
            Ok((ParentName::In(name), mute(behind)?))
        }
        "mute" => {
            end(behind)?;
            Ok((ParentName::Contextual, MuteField::Given))
        }
        _ => Err(misfit_of(words, Reason::UnknownWord)),
    }
}

/// The value that the words are.
fn mute(words: &[&str]) -> Result<MuteField, Misfit>
    ensures spelled { IfOk result (λ mute. texts_in words.now ≡ mute_words mute) }
    ensures fault { IfErr result (IsMisfit (Spells (λ _. ⊤) mute_words) (texts_in words.now)) }
{
    let Ok((word, behind)) = first(words) else {
        return Ok(MuteField::Absent);
    };
    match word {
        "mute" => {
            end(behind)?;
            Ok(MuteField::Given)
        }
        _ => Err(misfit_of(words, Reason::UnknownWord)),
    }
}

/// The lane that the first word is.
fn lane<'w, 'a>(words: &'w [&'a str]) -> Taken<'w, 'a, Lane>
    ensures spelled { IfOk result (λ t. texts_in words.now ≡ digit t.0.0 ∷ texts_in t.1.now) }
    ensures lane { IfOk result (λ t. t.0.0 < 10) }
    ensures fault { IfErr result (IsNoFirst IsDigit digit Reason.UnknownWord (texts_in words.now)) }
{
    let (number, words) = number(words)?;
    Ok((Lane(number), words))
}

/// The number that the first word, of one digit, is.
fn number<'w, 'a>(words: &'w [&'a str]) -> Taken<'w, 'a, u32>
    ensures spelled { IfOk result (λ t. texts_in words.now ≡ digit t.0 ∷ texts_in t.1.now) }
    ensures number { IfOk result (λ t. t.0 < 10) }
    ensures fault { IfErr result (IsNoFirst IsDigit digit Reason.UnknownWord (texts_in words.now)) }
{
    let (word, behind) = first(words)?;
    match word.as_bytes() {
        [number @ b'0'..=b'9'] => Ok((u32::from(*number - b'0'), behind)),
        _ => Err(misfit_of(words, Reason::UnknownWord)),
    }
}

/// The filter by level that the first word names.
fn level<'w, 'a>(words: &'w [&'a str]) -> Taken<'w, 'a, LevelFilter>
    ensures spelled { IfOk result (λ t. texts_in words.now ≡ level_word t.0 ∷ texts_in t.1.now) }
    ensures fault { IfErr result
        (IsNoFirst (λ _. ⊤) level_word Reason.UnknownWord (texts_in words.now)) }
{
    let (word, behind) = first(words)?;
    let level = match word {
        "off" => LevelFilter::OFF,
        "error" => LevelFilter::ERROR,
        "warn" => LevelFilter::WARN,
        "info" => LevelFilter::INFO,
        "debug" => LevelFilter::DEBUG,
        "trace" => LevelFilter::TRACE,
        _ => return Err(misfit_of(words, Reason::UnknownWord)),
    };
    Ok((level, behind))
}

/// The text that the first word is. A label is one too.
fn text<'w, 'a>(words: &'w [&'a str]) -> Taken<'w, 'a, &'a str>
    ensures spelled { IfOk result (λ t. texts_in words.now ≡ t.0.now ∷ texts_in t.1.now) }
    ensures text { IfOk result (λ t. IsTrue (is_text t.0.now)) }
    ensures fault { IfErr result (IsNoFirst (λ text. IsTrue (is_text text)) (λ text. text)
        Reason.NotLabel (texts_in words.now)) }
{
    let (word, behind) = first(words)?;
    if is_text(word) {
        Ok((word, behind))
    } else {
        Err(misfit_of(words, Reason::NotLabel))
    }
}

/// The name that the first word is.
fn span_name<'w, 'a>(words: &'w [&'a str]) -> Taken<'w, 'a, Name<'a>>
    ensures spelled { IfOk result (λ t. texts_in words.now ≡ word_of t.0 ∷ texts_in t.1.now) }
    ensures name { IfOk result (λ t. IsName t.0) }
    ensures fault { IfErr result (IsNoFirst IsName word_of Reason.NotLabel (texts_in words.now)) }
{
    let (word, behind) = first(words)?;
    match word {
        "?" => Ok((Name::Nobody, behind)),
        _ => {
            let (label, behind) = label(words)?;
            Ok((Name::Label(label), behind))
        }
    }
}

/// The label that the first word is.
fn label<'w, 'a>(words: &'w [&'a str]) -> Taken<'w, 'a, &'a str>
    ensures spelled { IfOk result (λ t. texts_in words.now ≡ t.0.now ∷ texts_in t.1.now) }
    ensures label { IfOk result (λ t. IsTrue (is_label t.0.now)) }
    ensures fault { IfErr result (IsNoFirst (λ label. IsTrue (is_label label)) (λ label. label)
        Reason.NotLabel (texts_in words.now)) }
{
    let (word, behind) = first(words)?;
    if is_label(word) {
        Ok((word, behind))
    } else {
        Err(misfit_of(words, Reason::NotLabel))
    }
}

/// The word isn't empty, and has no carriage return.
fn is_text(word: &str) -> bool
    ensures { result ≡ is_text word.now }
{
    !word.is_empty() && !has_return(word)
}

fn has_return(word: &str) -> bool
    ensures { result ≡ has_return word.now }
{
    word.bytes().any(|byte| byte == b'\r')
}

/// The word is made as a label is, and has no other meaning.
fn is_label(word: &str) -> bool
    ensures { result ≡ is_label word.now }
{
    if is_keyword(word) || word.len() > LABEL_LIMIT {
        return false;
    }
    begins_with_letter(word) && is_of_letters_and_digits(word)
}

fn is_of_letters_and_digits(word: &str) -> bool
    ensures { result ≡ list_all is_letter_or_digit word.now }
{
    word.bytes()
        .all(|byte| byte.is_ascii_lowercase() || byte.is_ascii_digit())
}

fn begins_with_letter(word: &str) -> bool
    ensures { result ≡ is_ascii_lowercase (slice_index word.now 0) }
{
    match word.bytes().next() {
        Some(first) => first.is_ascii_lowercase(),
        None => false,
    }
}

/// The word has a meaning of its own where a label may stand.
fn is_keyword(word: &str) -> bool
    ensures { result ≡ is_keyword word.now }
{
    matches!(word, "root" | "in" | "mute")
}
