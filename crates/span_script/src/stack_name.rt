//! The stacks that a script can name.
ghost use Rattle.std.specs.Prelude.{◌≡◌, ◌∷◌, ⊤, IfErr, IfOk};
ghost use Rattle.span_script.specs.Misfit.{IsMisfit, IsNoFirst};
ghost use Rattle.span_script.specs.Script.{first_words, stack_word, texts_in, IsFirst};

use crate::misfit::{Misfit, Taken, end, first, misfit_of};
use crate::reason::Reason;

/// A stack, by the name that the first line of a script gives.
#[derive(Clone, Copy, Debug, PartialEq, Eq)]
pub enum StackName {
    /// `plain`, with the one recorder `base`.
    Plain,
    /// `pair`, with the recorders `a` and `b`.
    Pair,
    /// `nested`, with the recorders `base` and `deep`.
    Nested,
    /// `veto`, with the recorders `base` and `warn`.
    Veto,
    /// `absent`, with the one recorder `base`.
    Absent,
    /// `directives`, with the recorders `base` and `chosen`.
    Directives,
}

impl StackName {
    /// The stack that the words of a first line name, or else which of them is wrong, and why.
    pub(crate) fn of(words: &[&str]) -> Result<StackName, Misfit>
        ensures spelled { IfOk result (λ stack. texts_in words.now ≡ first_words stack) }
        ensures fault { IfErr result (IsMisfit IsFirst (texts_in words.now)) }
    {
        let (verb, behind) = first(words)?;
        match verb {
            "stack" => {
                let (stack, behind) = stack_name(behind)?;
                end(behind)?;
                Ok(stack)
            }
            _ => Err(misfit_of(words, Reason::UnknownWord)),
        }
    }
}

/// The stack that the first word names.
fn stack_name<'w, 'a>(words: &'w [&'a str]) -> Taken<'w, 'a, StackName>
    ensures spelled { IfOk result (λ t. texts_in words.now ≡ stack_word t.0 ∷ texts_in t.1.now) }
    ensures fault { IfErr result
        (IsNoFirst (λ _. ⊤) stack_word Reason.UnknownWord (texts_in words.now)) }
{
    let (word, behind) = first(words)?;
    let stack = match word {
        "plain" => StackName::Plain,
        "pair" => StackName::Pair,
        "nested" => StackName::Nested,
        "veto" => StackName::Veto,
        "absent" => StackName::Absent,
        "directives" => StackName::Directives,
        _ => return Err(misfit_of(words, Reason::UnknownWord)),
    };
    Ok((stack, behind))
}
