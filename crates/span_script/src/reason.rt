//! Why a line is wrong.
use span_targets::WrongDirective;
use thiserror::Error;

/// Why a line of a script is wrong, at a column of it. Its words stand between single spaces.
#[derive(Clone, Copy, Debug, PartialEq, Eq, Error)]
pub enum Reason {
    /// The first line is missing, or doesn't begin with `stack`.
    #[error("a script begins with `stack` and the name of a stack")]
    NoStack,
    /// The word after `stack` names none.
    #[error("no stack has this name")]
    UnknownStack,
    /// Other words can stand here, and none of them is a label.
    #[error("no line has this word here")]
    UnknownWord,
    /// A label has to stand here, and the word is none.
    #[error("this is no label")]
    NotLabel,
    /// No line that begins so goes on.
    #[error("the line has too many words")]
    TooManyWords,
    /// Each line that begins so goes on. The column is that of the next word.
    #[error("the line has too few words")]
    TooFewWords,
    /// A word has no characters: two spaces stand together, or one at the start or the end.
    #[error("there is a space too many")]
    EmptyWord,
    /// A carriage return stands in a word.
    #[error("there is a carriage return")]
    CarriageReturn,
    /// The label names no span.
    #[error("no earlier line declares this label")]
    Undeclared,
    /// The label that the line declares is taken.
    #[error("an earlier line declares this label")]
    DeclaredBefore,
    /// The text of directives that begins at the column has a wrong one: this is its first.
    #[error("{0}")]
    Directive(WrongDirective),
}
