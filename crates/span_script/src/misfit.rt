//! Words that can't be read: which of them is wrong, and why.
ghost use Rattle.std.specs.Prelude.{◌≡◌, ◌≤◌, ◌<◌, ◌+◌, ◌-◌, ◌^◌, ◌∷◌, [], false, length, take, IfOk, IfErr, MatchOption};
ghost use Rattle.span_script.specs.Misfit.{column_after, column_of, IsFault, IsReturnAt, IsSaid};
ghost use Rattle.span_script.specs.Script.{has_return, texts_in};

use crate::reason::Reason;

/// What is wrong with words.
#[derive(Clone, Copy, Debug)]
pub struct Misfit {
    /// How many words there are from the first wrong one on: 0 where one more is needed.
    pub left: usize,
    /// Where it is wrong, in bytes.
    pub offset: usize,
    /// Why it is.
    pub reason: Reason,
}

/// What words begin with, and the words behind that.
pub type Taken<'w, 'a, T> = Result<(T, &'w [&'a str]), Misfit>;

impl Misfit {
    /// The column, if the words stand between single spaces.
    pub fn column(&self, words: &[&str]) -> usize
        requires left { self.now.left ≤ length words.now }
        requires fits { column_of (texts_in words.now) self.now < 2 ^ 64 }
        ensures { result ≡ column_of (texts_in words.now) self.now }
    {
        column_after(&words[..words.len() - self.left]) + self.offset
    }
}

/// The first word, or else one more is needed.
pub fn first<'w, 'a>(words: &'w [&'a str]) -> Taken<'w, 'a, &'a str>
    ensures taken { IfOk result (λ t. texts_in words.now ≡ t.0.now ∷ texts_in t.1.now) }
    ensures none { IfErr result (λ _. texts_in words.now ≡ []) }
    ensures few { IfErr result (IsSaid Reason.TooFewWords (texts_in words.now)) }
{
    match words {
        [word, words @ ..] => Ok((word, words)),
        [] => Err(misfit_of(words, Reason::TooFewWords)),
    }
}

/// No words, or else there are too many.
pub fn end(words: &[&str]) -> Result<(), Misfit>
    ensures none { IfOk result (λ _. texts_in words.now ≡ []) }
    ensures some { IfErr result (λ _. 0 < length (texts_in words.now)) }
    ensures many { IfErr result (IsSaid Reason.TooManyWords (texts_in words.now)) }
{
    match words {
        [] => Ok(()),
        _ => Err(misfit_of(words, Reason::TooManyWords)),
    }
}

/// What is said of words of which the first is wrong: that it is empty, that a carriage return
/// stands in it, or else this; and of none, that there are too few.
pub fn misfit_of(words: &[&str], reason: Reason) -> Misfit
    ensures { IsSaid reason (texts_in words.now) result }
{
    let left = words.len();
    let (offset, reason) = match words {
        [] => (0, Reason::TooFewWords),
        [word, ..] => fault(word, reason),
    };
    Misfit {
        left,
        offset,
        reason,
    }
}

/// What is said of a word, and where in it.
fn fault(word: &str, reason: Reason) -> (usize, Reason)
    ensures { IsFault reason word.now result.0 result.1 }
{
    if word.is_empty() {
        return (0, Reason::EmptyWord);
    }
    match return_in(word) {
        Some(offset) => (offset, Reason::CarriageReturn),
        None => (0, reason),
    }
}

/// Where the first carriage return of a word stands.
fn return_in(word: &str) -> Option<usize>
    ensures { MatchOption result (has_return word.now ≡ false)
        (λ offset. (offset < length word.now) × IsReturnAt word.now offset) }
{
    for (offset, byte) in word.as_bytes().iter().enumerate() {
        if *byte == b'\r' {
            return Some(offset);
        }
    }
    None
}

/// The column behind words that each have a space behind them.
pub fn column_after(words: &[&str]) -> usize
    requires { column_after (texts_in words.now) < 2 ^ 64 }
    ensures { result ≡ column_after (texts_in words.now) }
{
    let mut column = 1;
    for word in words {
        column += word.len() + 1;
    }
    column
}
