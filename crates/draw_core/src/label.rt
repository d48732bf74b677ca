//! Ids as the text of an XML element.

ghost use Rattle.std.specs.Prelude.{◌≡◌, ◌++◌, OnOk};
ghost use Rattle.std.specs.String.{string_bytes};
ghost use Rattle.draw_core.specs.Labels.{is_xml_char, label_char, label};

use std::alloc::AllocError;

/// Replaces each character that XML text may not contain.
const REPLACEMENT: char = '\u{FFFD}';

/// Whether XML text may contain the character (XML 1.0, section 2.2).
fn is_xml_char(c: char) -> bool
    ensures { result ≡ is_xml_char c }
{
    c == '\t' || c == '\n' || c == '\r' || c >= ' ' && c != '\u{FFFE}' && c != '\u{FFFF}'
}

/// Adds a character, as a reference if it is a character of the markup (XML 1.0, section 2.4).
fn push_char(text: &mut String, c: char) -> Result<(), AllocError>
    ensures { OnOk result (string_bytes text.new ≡ string_bytes text.old ++ label_char c) }
{
    match c {
        '&' => text.push_str("&amp;"),
        '<' => text.push_str("&lt;"),
        '>' => text.push_str("&gt;"),
        '"' => text.push_str("&quot;"),
        '\'' => text.push_str("&apos;"),
        _ if is_xml_char(c) => text.push(c),
        _ => text.push(REPLACEMENT),
    }
}

/// Adds an id. An XML reader gives it back, except for the characters that XML forbids.
pub(crate) fn push_label(text: &mut String, id: &str) -> Result<(), AllocError>
    ensures { OnOk result (string_bytes text.new ≡ string_bytes text.old ++ label id.now) }
{
    for c in id.chars() {
        push_char(text, c)?;
    }
    Ok(())
}
