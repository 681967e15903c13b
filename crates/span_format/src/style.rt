//! Parts of lines in styles, as terminals show them.
ghost use Rattle.std.specs.Prelude.{◌≡◌, OnOk};
ghost use Rattle.span_fmt.specs.Escape.{escaped};
ghost use Rattle.span_fmt.specs.Text.{IsContinued};
ghost use Rattle.span_format.specs.Style.{begun, colour_of, ended, start_of, styled};

use span_core::Level;
use span_fmt::write_escaped;
use std::alloc::AllocError;

/// How a part of a line is shown.
#[derive(Clone, Copy)]
pub(crate) enum Style {
    /// In the colour of a level.
    Level(Level),
    /// Bold.
    Bold,
    /// Dimmed.
    Dim,
}

impl Style {
    /// What stands in front of a text in this style, where styles are asked for.
    pub(crate) fn begun(self, ansi: bool) -> &'static str
        ensures { result.now ≡ begun ansi self }
    {
        if ansi { self.start() } else { "" }
    }

    /// What begins this style.
    fn start(self) -> &'static str
        ensures { result.now ≡ start_of self }
    {
        match self {
            Style::Level(level) => colour(level),
            Style::Bold => "\x1b[1m",
            Style::Dim => "\x1b[2m",
        }
    }
}

/// What stands behind a text in any style, where styles are asked for.
pub(crate) fn ended(ansi: bool) -> &'static str
    ensures { result.now ≡ ended ansi }
{
    if ansi { "\x1b[0m" } else { "" }
}

/// Writes a text, escaped, in a style where styles are asked for.
pub(crate) fn write_styled(
    text: &mut String,
    ansi: bool,
    style: Style,
    words: &str,
) -> Result<(), AllocError>
    ensures { OnOk result
        (IsContinued text.old text.new (styled ansi style (escaped words.now))) }
{
    text.push_str(style.begun(ansi))?;
    write_escaped(text, words)?;
    text.push_str(ended(ansi))
}

/// What begins the colour of a level, as the crate has them.
fn colour(level: Level) -> &'static str
    ensures { result.now ≡ colour_of level }
{
    if level == Level::ERROR {
        "\x1b[31m"
    } else if level == Level::WARN {
        "\x1b[33m"
    } else if level == Level::INFO {
        "\x1b[32m"
    } else if level == Level::DEBUG {
        "\x1b[34m"
    } else {
        "\x1b[35m"
    }
}
