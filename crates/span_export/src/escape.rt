//! Texts in which characters are written in another way.
ghost use Rattle.std.specs.Prelude.{◌≡◌, ◌<◌, ◌++◌, IfOk, OnOk, string_bytes};
ghost use Rattle.span_export.specs.Escape.{is_in_xml, replace, xml_of, xml_text};

use std::alloc::{AllocError, Global};

/// A text within XML: for what would begin or end a tag, or begin an entity, an entity stands, and
/// for what XML doesn't have, U+FFFD.
pub(crate) fn xml_text(alloc: Global, text: &str) -> Result<String, AllocError>
    ensures { IfOk result (λ new. string_bytes new ≡ xml_text text.now) }
{
    let mut new = String::new(alloc);
    for character in text.chars() {
        write_in_xml(&mut new, character)?;
    }
    Ok(new)
}

/// Writes a character as it stands within XML.
fn write_in_xml(text: &mut String, character: char) -> Result<(), AllocError>
    ensures { OnOk result
        (string_bytes text.new ≡ string_bytes text.old ++ xml_of character) }
{
    match character {
        '&' => text.push_str("&amp;"),
        '<' => text.push_str("&lt;"),
        '>' => text.push_str("&gt;"),
        _ if is_in_xml(character) => text.push(character),
        _ => text.push('\u{FFFD}'),
    }
}

/// Whether XML has this character: below the space it has the tab, the line feed and the carriage
/// return alone, and it has not the two that stand for none.
fn is_in_xml(character: char) -> bool
    ensures { result ≡ is_in_xml character }
{
    match character {
        '\t' | '\n' | '\r' => true,
        '\u{FFFE}' | '\u{FFFF}' => false,
        _ => character >= ' ',
    }
}

/// A text in which this character is written so.
pub(crate) fn replaced(
    alloc: Global,
    text: &str,
    character: char,
    so: &str,
) -> Result<String, AllocError>
    requires { character < 128 }
    ensures { IfOk result (λ new. string_bytes new ≡ replace character so.now text.now) }
{
    let mut new = String::new(alloc);
    let mut rest = text;
    while let Some((front, back)) = rest.split_once(character) {
        new.push_str(front)?;
        new.push_str(so)?;
        rest = back;
    }
    new.push_str(rest)?;
    Ok(new)
}
