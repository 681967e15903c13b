//! Texts in which control characters and the like are escaped.
ghost use Rattle.std.specs.Prelude.{◌≡◌, ◌==◌, ◌&&◌, ◌++◌, not, OnOk, string_bytes, true};
ghost use Rattle.std.specs.Str.{encode_utf8_all};
ghost use Rattle.span_fmt.specs.Escape.{escape, escaped, is_among, is_escaped};

use std::alloc::AllocError;

/// Writes a text so that it acts on no terminal and stays in its line: in it `\n`, `\r`, `\t` and
/// `\\` stand for a line feed, a carriage return, a tab and a backslash, and the like of `\u{1b}`
/// for each other control character, for the separators of lines and paragraphs, and for what turns
/// the direction of writing.
///
/// Where memory is refused, no clause says what of it is written: throw the text away.
pub fn write_escaped(text: &mut String, words: &str) -> Result<(), AllocError>
    ensures { OnOk result
        (string_bytes text.new ≡ string_bytes text.old ++ escaped words.now) }
{
    if is_plain(words) {
        return text.push_str(words);
    }
    for character in words.chars() {
        write_character(text, character)?;
    }
    Ok(())
}

/// Whether a text stays as it is.
fn is_plain(words: &str) -> bool
    ensures { result ≡ true → escaped words.now ≡ words.now }
{
    // Bytes are read faster than characters.
    words.as_bytes().iter().all(|byte| is_plain_byte(*byte)) || !words.chars().any(is_escaped)
}

/// Whether a byte is a character by itself that isn't escaped.
pub(crate) fn is_plain_byte(byte: u8) -> bool
    ensures { result ≡ (is_among 32 126 byte && not (byte == 92)) }
{
    (b' '..=b'~').contains(&byte) && byte != b'\\'
}

/// Writes a character, escaped if it has to be.
pub(crate) fn write_character(text: &mut String, character: char) -> Result<(), AllocError>
    ensures { OnOk result (string_bytes text.new
        ≡ string_bytes text.old ++ encode_utf8_all (escape character)) }
{
    if !is_escaped(character) {
        return text.push(character);
    }
    for part in character.escape_default() {
        text.push(part)?;
    }
    Ok(())
}

/// Whether `write_escaped` escapes a character: a backslash, a control character, a separator of
/// lines or paragraphs, or what turns the direction of writing.
pub fn is_escaped(character: char) -> bool
    ensures { result ≡ is_escaped character }
{
    match character {
        '\\'
        | '\u{0}'..='\u{1F}'
        | '\u{7F}'..='\u{9F}'
        | '\u{61C}'
        | '\u{200E}'..='\u{200F}'
        | '\u{2028}'..='\u{202E}'
        | '\u{2066}'..='\u{2069}' => true,
        _ => false,
    }
}
