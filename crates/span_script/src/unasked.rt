//! Lines whose words are right, and that ask for no request nevertheless.
ghost use Rattle.std.specs.Prelude.{◌≡◌, IfErr, IfOk};
ghost use Rattle.span_targets.specs.EnvText.{env_reading};
ghost use Rattle.span_targets.specs.Setting.{ReadsSetting};
ghost use Rattle.span_script.specs.Fault.{IsUnread, undeclared_at};

use crate::reason::Reason;
use span_targets::{ParseError, Setting};
use std::alloc::Global;

/// The place of the text among the words of a line that sets directives.
const TEXT_PLACE: usize = 2;

/// Why a line asks for no request.
#[derive(Clone, Copy, Debug)]
pub enum Unasked {
    /// The word at this place is wrong, for this reason.
    At(usize, Reason),
    /// Memory was refused.
    Memory,
}

impl From<usize> for Unasked {
    ghost from_gives = { λ place unasked. unasked ≡ undeclared_at place };

    fn from(place: usize) -> Unasked {
        Unasked::At(place, Reason::Undeclared)
    }
}

/// The directives that a text spells, which are never given back.
pub fn directives(alloc: Global, text: &str) -> Result<Setting, Unasked>
    ensures setting { IfOk result (λ setting. ReadsSetting (env_reading text.now) (Ok setting)) }
    ensures fault { IfErr result (IsUnread text.now) }
{
    match Setting::parse(alloc, text) {
        Ok(setting) => Ok(setting),
        Err(ParseError::Wrong(directive)) => {
            Err(Unasked::At(TEXT_PLACE, Reason::Directive(directive)))
        }
        Err(ParseError::OutOfMemory) => Err(Unasked::Memory),
    }
}
