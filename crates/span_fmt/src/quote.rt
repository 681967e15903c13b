//! Texts in quotes.
ghost use Rattle.std.specs.Prelude.{◌≡◌, ◌==◌, ◌&&◌, ◌||◌, not, OnOk, true};
ghost use Rattle.std.specs.Str.{encode_utf8_all};
ghost use Rattle.span_fmt.specs.Escape.{is_among, is_escaped};
ghost use Rattle.span_fmt.specs.Quote.{inside_quotes, quote_inside, quoted};
ghost use Rattle.span_fmt.specs.Text.{IsContinued};

use crate::escape::{is_escaped, is_plain_byte, write_character};
use std::alloc::AllocError;

/// Writes a text in quotes, so that none poses as what stands behind it: in it a quote is `\"`, and
/// all else is as `write_escaped` has it.
///
/// Where memory is refused, no clause says what of it is written: throw the text away.
pub fn write_quoted(text: &mut String, words: &str) -> Result<(), AllocError>
    ensures { OnOk result (IsContinued text.old text.new (quoted words.now)) }
{
    text.push_str("\"")?;
    write_inside(text, words)?;
    text.push_str("\"")
}

/// Writes what stands between the quotes.
fn write_inside(text: &mut String, words: &str) -> Result<(), AllocError>
    ensures { OnOk result (IsContinued text.old text.new (inside_quotes words.now)) }
{
    if stays_inside(words) {
        return text.push_str(words);
    }
    for character in words.chars() {
        write_between(text, character)?;
    }
    Ok(())
}

/// Whether a text stays as it is between quotes.
fn stays_inside(words: &str) -> bool
    ensures { result ≡ true → inside_quotes words.now ≡ words.now }
{
    // Bytes are read faster than characters.
    words.as_bytes().iter().all(|byte| is_bare_byte(*byte)) || !words.chars().any(is_guarded)
}

/// Whether a byte is a character by itself that stays as it is between quotes.
fn is_bare_byte(byte: u8) -> bool
    ensures { result ≡ ((is_among 32 126 byte && not (byte == 92)) && not (byte == 34)) }
{
    is_plain_byte(byte) && byte != b'"'
}

/// Whether a character is written otherwise between quotes.
fn is_guarded(character: char) -> bool
    ensures { result ≡ (character == 34 || is_escaped character) }
{
    character == '"' || is_escaped(character)
}

/// Writes a character between quotes.
fn write_between(text: &mut String, character: char) -> Result<(), AllocError>
    ensures { OnOk result
        (IsContinued text.old text.new (encode_utf8_all (quote_inside character))) }
{
    if character == '"' {
        return text.push_str("\\\"");
    }
    write_character(text, character)
}
