//! JSON that acts on no terminal.
ghost use Rattle.std.specs.Prelude.{◌≡◌, ◌<◌, IfOk, OnOk, true, string_bytes, ◌++◌};
ghost use Rattle.std.specs.Char.{digit_char};
ghost use Rattle.std.specs.Str.{encode_utf8_all};
ghost use Rattle.span_fmt.specs.Escape.{is_among};
ghost use Rattle.span_stream.specs.Inert.{inert, inertly, may_act, unicode_escape};

use span_fmt::is_escaped;
use std::alloc::{AllocError, Global};

/// How many bytes an escape takes.
const ESCAPE: usize = 6;

/// JSON in which each character that may act on a terminal is escaped: control characters, the
/// separators of lines and paragraphs, and what turns the direction of writing.
pub(crate) fn made_inert(alloc: Global, json: String) -> Result<String, AllocError>
    ensures { IfOk result (λ text. string_bytes text ≡ inert (string_bytes json)) }
{
    if is_inert(json.as_str()) {
        return Ok(json);
    }
    let mut text = String::with_capacity(alloc, json.len().saturating_add(ESCAPE))?;
    write_inert(&mut text, json.as_str())?;
    Ok(text)
}

/// Whether a text stays as it is.
fn is_inert(text: &str) -> bool
    ensures { result ≡ true → inert text.now ≡ text.now }
{
    // Bytes are read faster than characters.
    text.as_bytes().iter().all(|byte| is_printable(*byte)) || !text.chars().any(may_act)
}

/// Whether a byte is a printable character of ASCII.
fn is_printable(byte: u8) -> bool
    ensures { result ≡ is_among 32 126 byte }
{
    (b' '..=b'~').contains(&byte)
}

/// Whether a character may act on a terminal.
fn may_act(character: char) -> bool
    ensures { result ≡ may_act character }
{
    is_escaped(character) && character != '\\'
}

/// Writes a text, and escapes what may act on a terminal.
fn write_inert(text: &mut String, json: &str) -> Result<(), AllocError>
    ensures { OnOk result (string_bytes text.new ≡ string_bytes text.old ++ inert json.now) }
{
    for character in json.chars() {
        write_inertly(text, character)?;
    }
    Ok(())
}

/// Writes a character, and escapes it where it may act on a terminal.
fn write_inertly(text: &mut String, character: char) -> Result<(), AllocError>
    ensures { OnOk result (string_bytes text.new
        ≡ string_bytes text.old ++ encode_utf8_all (inertly character)) }
{
    if !may_act(character) {
        return text.push(character);
    }
    write_escape(text, u32::from(character))
}

/// Writes the escape of a character with this code: `\u` and four hexadecimal digits.
fn write_escape(text: &mut String, code: u32) -> Result<(), AllocError>
    ensures { OnOk result (string_bytes text.new
        ≡ string_bytes text.old ++ encode_utf8_all (unicode_escape code)) }
{
    text.push_str("\\u")?;
    text.push(hex_digit(code / 0x1000 % 16))?;
    text.push(hex_digit(code / 0x100 % 16))?;
    text.push(hex_digit(code / 0x10 % 16))?;
    text.push(hex_digit(code % 16))
}

/// The hexadecimal digit of a number.
fn hex_digit(value: u32) -> char
    requires { value < 16 }
    ensures { result ≡ digit_char value }
{
    char::from_digit(value, 16).unwrap_or('0')
}
