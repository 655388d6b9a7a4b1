//! Escaping and unescaping of text values (RFC 6350, section 3.4), and splitting them into
//! components at semicolons (section 3.3).
ghost use Rattle.std.specs.Prelude.{◌≡◌, ◌++◌, ◌+◌, OnOk, IfOk, string_bytes, map, length};
ghost use Rattle.std.specs.Prelude.{count_by};
ghost use Rattle.std.specs.Str.{chars, encode_utf8_all};
ghost use Rattle.base_types.specs.Octets.{semicolon};
ghost use Rattle.vcard_lines.specs.TextValues.{written_chars, text_char_of, is_plain, text_chars};
ghost use Rattle.vcard_lines.specs.TextValues.{unescaped_text, escaped_value, components};
ghost use Rattle.vcard_lines.specs.TextValues.{IsFullyEscaped};
ghost use Rattle.vcard_lines.specs.internal.UnescapeLoop.{unescape_state, unescape_char};
ghost use Rattle.vcard_lines.specs.internal.UnescapeLoop.{finished_text, split_state, split_char};

use base_types::NoMemory;
use std::alloc::Global;
use std::mem;

/// Appends a character in escaped form: a newline as `\n`; a backslash, a comma or a semicolon with
/// a backslash before it.
fn push_escaped(value: &mut String, c: char) -> Result<(), NoMemory>
    ensures { OnOk result (string_bytes value.new ≡ string_bytes value.old
        ++ encode_utf8_all (written_chars (text_char_of c))) }
{
    match c {
        '\n' => value.push_str("\\n")?,
        '\\' | ',' | ';' => {
            value.push('\\')?;
            value.push(c)?;
        }
        _ => value.push(c)?,
    }
    Ok(())
}

/// Escapes a text into a value: a newline becomes `\n`, and a backslash, a comma and a semicolon
/// get a backslash before them (RFC 6350, section 3.4). The only `Err` is out of memory.
pub fn escape(alloc: Global, text: &str) -> Result<String, NoMemory>
    ensures value { IfOk result (λ value. string_bytes value ≡ escaped_value text.now) }

    // Unescaping the value returns the text.
    ensures round_trip { IfOk result (λ value. unescaped_text (string_bytes value) ≡ text.now) }

    // The value has no newline, and no comma or semicolon without a backslash.
    ensures delimiters_escaped { IfOk result (λ value. IsFullyEscaped (string_bytes value)) }
{
    let mut value = String::new(alloc);
    for c in text.chars() {
        push_escaped(&mut value, c)?;
    }
    Ok(value)
}

/// Unescapes one character of a value and appends the result to the text so far.
fn unescape_char(text: &mut String, is_escaped: &mut bool, c: char) -> Result<(), NoMemory>
    ensures { OnOk result (unescape_state (string_bytes text.new) is_escaped.new
        ≡ unescape_char (unescape_state (string_bytes text.old) is_escaped.old) c) }
{
    if *is_escaped {
        *is_escaped = false;
        text.push(if matches!(c, 'n' | 'N') { '\n' } else { c })?;
    } else if c == '\\' {
        *is_escaped = true;
    } else {
        text.push(c)?;
    }
    Ok(())
}

/// Finishes the text at the end of its value: a trailing backslash is kept as it is.
fn end_text(text: &mut String, is_escaped: bool) -> Result<(), NoMemory>
    ensures { OnOk result (string_bytes text.new ≡ finished_text
        (unescape_state (string_bytes text.old) is_escaped)) }
{
    if is_escaped {
        text.push('\\')?;
    }
    Ok(())
}

/// Unescapes a value: `\n` and `\N` become a newline, a backslash before any other character is
/// dropped, and a backslash at the end is kept (RFC 6350, section 3.4). The only `Err` is out of
/// memory.
pub fn unescape(alloc: Global, value: &str) -> Result<String, NoMemory>
    ensures { IfOk result (λ text. string_bytes text ≡ unescaped_text value.now) }
{
    let mut text = String::new(alloc);
    let mut is_escaped = false;
    for c in value.chars() {
        unescape_char(&mut text, &mut is_escaped, c)?;
    }
    end_text(&mut text, is_escaped)?;
    Ok(text)
}

/// Unescapes one character into the current component. A plain semicolon begins the next one.
fn split_char(
    alloc: Global,
    parts: &mut Vec<String>,
    text: &mut String,
    is_escaped: &mut bool,
    c: char,
) -> Result<(), NoMemory>
    ensures { OnOk result (split_state (map string_bytes parts.new.items)
        (unescape_state (string_bytes text.new) is_escaped.new)
        ≡ split_char (split_state (map string_bytes parts.old.items)
        (unescape_state (string_bytes text.old) is_escaped.old)) c) }
{
    if c == ';' && !*is_escaped {
        let part = mem::replace(text, String::new(alloc));
        parts.push(part)?;
    } else {
        unescape_char(text, is_escaped, c)?;
    }
    Ok(())
}

/// The components of a value (RFC 6350, section 3.3): the value is split at each unescaped
/// semicolon, and each piece is unescaped. The only `Err` is out of memory.
pub fn components(alloc: Global, value: &str) -> Result<Vec<String>, NoMemory>
    ensures components { IfOk result (λ parts. map string_bytes parts.items
        ≡ components value.now) }

    // There is one component more than unescaped semicolons, so there is always one.
    ensures count { IfOk result (λ parts. length parts.items
        ≡ 1 + count_by (is_plain semicolon) (text_chars (chars value.now))) }
{
    let mut parts = Vec::new(alloc);
    let mut text = String::new(alloc);
    let mut is_escaped = false;
    for c in value.chars() {
        split_char(alloc, &mut parts, &mut text, &mut is_escaped, c)?;
    }
    end_text(&mut text, is_escaped)?;
    parts.push(text)?;
    Ok(parts)
}
