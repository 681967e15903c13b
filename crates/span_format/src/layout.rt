//! How an event's line is laid out.
ghost use Rattle.std.specs.Prelude.{◌≡◌};
ghost use Rattle.span_format.specs.Field.{mark, separator};

/// How an event's line is laid out.
#[derive(Clone, Copy, Debug, PartialEq, Eq)]
pub enum Layout {
    /// ` INFO outer{id=7}:inner{n=1}: target: said ok=true`, a line.
    ///
    /// Stands for `tracing_subscriber::fmt::format::Full`.
    Full,
    /// ` INFO outer:inner: target: said ok=true id=7 n=1`, a line.
    ///
    /// Stands for `tracing_subscriber::fmt::format::Compact`.
    Compact,
    /// ` INFO said, ok: true`, and below it a line of the target, and one of each span, innermost
    /// first, as `in target::inner with n: 1`.
    ///
    /// Stands for `tracing_subscriber::fmt::format::Pretty`.
    Pretty,
}

impl Layout {
    /// What stands in front of each field.
    pub(crate) fn separator(self) -> &'static str
        ensures { result.now ≡ separator self }
    {
        match self {
            Layout::Pretty => ", ",
            _ => " ",
        }
    }

    /// What stands between a field's name and its value.
    pub(crate) fn mark(self) -> &'static str
        ensures { result.now ≡ mark self }
    {
        match self {
            Layout::Pretty => ": ",
            _ => "=",
        }
    }
}
