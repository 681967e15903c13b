//! Filters by targets, and texts. The functions make no call: what they ensure are the laws.
ghost use Rattle.span_targets.specs.Back.{CanBeWritten, IsReadBack};
ghost use Rattle.span_targets.specs.Text.{NamesLevels};

use crate::targets::Targets;

/// What a filter is written as is read as a filter by which the same passes, where no target has a
/// comma, `=` or `[`, and there are no more directives than are read.
pub fn texts_are_read_back(filter: &Targets)
    requires { CanBeWritten filter.now }
    ensures { IsReadBack filter.now }
{}

/// A text names the levels that `LevelFilter` reads of it, and no others.
pub fn levels_are_those_read(text: &str)
    ensures { NamesLevels text.now }
{}
