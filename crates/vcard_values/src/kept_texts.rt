//! Values that keep a text as it is, for what no property of vCard 4.0 can hold.
ghost use Rattle.std.specs.Prelude.{◌≡◌, false, IfOk, string_bytes};
ghost use Rattle.vcard_lines.specs.Grammar.{AllInClass, is_permitted};
ghost use Rattle.vcard_lines.specs.TextValues.{unescaped_text};
ghost use Rattle.vcard_values.specs.KeptTexts.{has_control, kept_char, kept_text};

use base_types::NoMemory;
use std::alloc::Global;
use vcard_lines::escape;

/// The character, or a space for a control character of ASCII but the tab and the line feed.
fn kept_char(c: char) -> char
    ensures { result ≡ kept_char c }
{
    if (c < ' ' || c == '\u{7F}') && c != '\t' && c != '\n' {
        ' '
    } else {
        c
    }
}

/// The text with a space for each such character.
fn kept_text(alloc: Global, text: &str) -> Result<String, NoMemory>
    ensures { IfOk result (λ kept. string_bytes kept ≡ kept_text text.now) }
{
    let mut out = String::new(alloc);
    for c in text.chars() {
        out.push(kept_char(c))?;
    }
    Ok(out)
}

/// The value that encodes a text, with a space for each control character of ASCII but the tab and
/// the line feed. The only `Err` is out of memory.
pub fn text_value(alloc: Global, text: &str) -> Result<String, NoMemory>
    ensures permitted { IfOk result (λ value. AllInClass is_permitted (string_bytes value)) }

    // The value encodes the text, but for these control characters.
    ensures kept { IfOk result (λ value.
        unescaped_text (string_bytes value) ≡ kept_text text.now) }

    // It encodes the text, if that has no control character.
    ensures text { has_control text.now ≡ false
        → IfOk result (λ value. unescaped_text (string_bytes value) ≡ text.now) }
{
    let text = kept_text(alloc, text)?;
    escape(alloc, text.as_str())
}
