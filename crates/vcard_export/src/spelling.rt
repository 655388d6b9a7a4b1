//! How the characters of a text in vCard 4.0 are written in vCard 3.0 (RFC 2426, section 4).
ghost use Rattle.std.specs.Prelude.{◌≡◌, ◌∷◌, ◌++◌, OnOk, string_bytes};
ghost use Rattle.std.specs.Str.{encode_utf8_all};
ghost use Rattle.vcard_lines.specs.TextValues.{Escaped, decoded_char};
ghost use Rattle.vcard_export.specs.Spellings.{label_char, mark_of, marked_char, param_char};
ghost use Rattle.vcard_export.specs.Spellings.{plain_char, spelled, text_char, uri_char};
ghost use Rattle.vcard_export.specs.internal.SpellingLoop.{finished, spell_char, spelling_state};
ghost use Rattle.base_types.specs.Octets.{backslash};

use vcard_text::NoMemory;

/// What a text is, as far as its characters go.
#[derive(Clone, Copy)]
pub(crate) enum Spelling {
    /// A value in which commas or semicolons may separate parts.
    Listed,
    /// A text without lists, so that a comma is escaped. That of ORG has components.
    Whole,
    /// A text that becomes a component, so that a semicolon is escaped too.
    Component,
    /// A URI, in which a backslash is escaped.
    Uri,
    /// The coordinates of a `geo:` URI.
    Place,
    /// A value of a parameter, with the escapes of RFC 6868, that stays one.
    Param,
    /// A value of a parameter, with the escapes of RFC 6868, that becomes the value of a property.
    Label,
}

/// Appends a character of a text: a newline as `\n`, and a backslash before a backslash, a comma
/// and a semicolon.
fn push_text_char(out: &mut String, c: char) -> Result<(), NoMemory>
    ensures { OnOk result (string_bytes out.new
        ≡ string_bytes out.old ++ encode_utf8_all (text_char c)) }
{
    match c {
        '\n' => out.push_str("\\n")?,
        '\\' | ',' | ';' => {
            out.push('\\')?;
            out.push(c)?;
        }
        _ => out.push(c)?,
    }
    Ok(())
}

/// Appends a character of a URI, with a backslash before a backslash.
fn push_uri_char(out: &mut String, c: char) -> Result<(), NoMemory>
    ensures { OnOk result (string_bytes out.new
        ≡ string_bytes out.old ++ encode_utf8_all (uri_char c)) }
{
    if c == '\\' {
        out.push('\\')?;
    }
    out.push(c)?;
    Ok(())
}

/// Appends a character that no mark precedes.
fn push_plain_char(out: &mut String, c: char, spelling: Spelling) -> Result<(), NoMemory>
    ensures { OnOk result (string_bytes out.new
        ≡ string_bytes out.old ++ encode_utf8_all (plain_char spelling c)) }
{
    match spelling {
        Spelling::Whole if c == ',' => out.push_str("\\,")?,
        Spelling::Place if c == ',' => out.push(';')?,
        Spelling::Component | Spelling::Label => push_text_char(out, c)?,
        _ => out.push(c)?,
    }
    Ok(())
}

/// The character that an escape of vCard 4.0 stands for.
fn escaped_char(c: char) -> char
    ensures { result ≡ decoded_char (Escaped c) }
{
    if matches!(c, 'n' | 'N') { '\n' } else { c }
}

/// Appends a character after a caret in the value of a parameter that stays one. It can hold no
/// newline and no quote.
fn push_param_char(out: &mut String, c: char) -> Result<(), NoMemory>
    ensures { OnOk result (string_bytes out.new
        ≡ string_bytes out.old ++ encode_utf8_all (param_char c)) }
{
    match c {
        'n' => out.push(' ')?,
        '\'' | '^' => out.push(c)?,
        _ => {
            out.push('^')?;
            out.push(c)?;
        }
    }
    Ok(())
}

/// Appends a character after a caret in the value of a parameter that becomes the value of a
/// property.
fn push_label_char(out: &mut String, c: char) -> Result<(), NoMemory>
    ensures { OnOk result (string_bytes out.new
        ≡ string_bytes out.old ++ encode_utf8_all (label_char c)) }
{
    match c {
        'n' => out.push_str("\\n")?,
        '\'' => out.push('"')?,
        '^' => out.push('^')?,
        _ => {
            out.push('^')?;
            push_text_char(out, c)?;
        }
    }
    Ok(())
}

/// Appends a character of a URI after a backslash, which is one of the URI.
fn push_after_backslash(out: &mut String, c: char) -> Result<(), NoMemory>
    ensures { OnOk result (string_bytes out.new
        ≡ string_bytes out.old ++ encode_utf8_all (backslash ∷ backslash ∷ uri_char c)) }
{
    out.push_str("\\\\")?;
    push_uri_char(out, c)
}

/// Appends a character after a mark.
fn push_marked_char(out: &mut String, c: char, spelling: Spelling) -> Result<(), NoMemory>
    ensures { OnOk result (string_bytes out.new
        ≡ string_bytes out.old ++ encode_utf8_all (marked_char spelling c)) }
{
    match spelling {
        Spelling::Listed | Spelling::Whole | Spelling::Component => {
            push_text_char(out, escaped_char(c))
        }
        Spelling::Uri | Spelling::Place => push_after_backslash(out, c),
        Spelling::Param => push_param_char(out, c),
        Spelling::Label => push_label_char(out, c),
    }
}

/// The character that begins an escape.
fn mark_of(spelling: Spelling) -> char
    ensures { result ≡ mark_of spelling }
{
    match spelling {
        Spelling::Param | Spelling::Label => '^',
        _ => '\\',
    }
}

/// Appends one character, or notes that it is a mark.
fn push_char(
    out: &mut String,
    is_marked: &mut bool,
    c: char,
    spelling: Spelling,
) -> Result<(), NoMemory>
    ensures { OnOk result (spelling_state (string_bytes out.new) is_marked.new
        ≡ spell_char spelling (spelling_state (string_bytes out.old) is_marked.old) c) }
{
    if *is_marked {
        *is_marked = false;
        push_marked_char(out, c, spelling)?;
    } else if c == mark_of(spelling) {
        *is_marked = true;
    } else {
        push_plain_char(out, c, spelling)?;
    }
    Ok(())
}

/// Appends what a mark at the end of the text stands for.
fn push_end(out: &mut String, is_marked: bool, spelling: Spelling) -> Result<(), NoMemory>
    ensures { OnOk result (string_bytes out.new
        ≡ finished spelling (spelling_state (string_bytes out.old) is_marked)) }
{
    if is_marked {
        match spelling {
            Spelling::Param | Spelling::Label => out.push('^')?,
            _ => out.push_str("\\\\")?,
        }
    }
    Ok(())
}

/// Appends the text as vCard 3.0 writes it.
pub(crate) fn push_spelled(out: &mut String, text: &str, spelling: Spelling) -> Result<(), NoMemory>
    ensures { OnOk result (string_bytes out.new
        ≡ string_bytes out.old ++ spelled spelling text.now) }
{
    let mut is_marked = false;
    for c in text.chars() {
        push_char(out, &mut is_marked, c, spelling)?;
    }
    push_end(out, is_marked, spelling)
}
