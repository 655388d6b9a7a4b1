//! Rewrites the escapes of a value for vCard 4.0 (RFC 6350, section 3.4).
ghost use Rattle.std.specs.Prelude.{◌≡◌, ◌++◌, OnOk, IfOk, flat_map, string_bytes};
ghost use Rattle.std.specs.Str.{chars, encode_utf8_all};
ghost use Rattle.vcard_lines.specs.TextValues.{Escaped, Plain, TrailingBackslash};
ghost use Rattle.vcard_lines.specs.TextValues.{text_char_of, text_chars, written_chars};
ghost use Rattle.vcard_values.specs.Escapes.{SpellsSame, begins_with_drive, cleaned};
ghost use Rattle.vcard_values.specs.Escapes.{escaped_units, escaped_uri_chars, is_path};
ghost use Rattle.vcard_values.specs.Escapes.{plain_units, plain_uri_chars, rewritten_value};
ghost use Rattle.vcard_values.specs.Escapes.{spelled_units, unit_chars};
ghost use Rattle.vcard_values.specs.internal.RewriteLoop.{finished_octets, rewrite_char};
ghost use Rattle.vcard_values.specs.internal.RewriteLoop.{rewrite_state, rewritten_chars};
ghost use Rattle.vcard_values.specs.internal.RewriteLoop.{rewritten_octets};

use base_types::NoMemory;
use std::alloc::Global;

/// How a text is written.
#[derive(Clone, Copy)]
pub struct TextForm {
    /// Whether a comma is a part of the text, and needs no backslash.
    pub commas_are_text: bool,
    /// Whether it is of vCard 2.1, where a text that begins as a path has no escapes.
    pub is_old: bool,
}

/// What a value is, as far as its escapes go.
#[derive(Clone, Copy)]
pub enum ValueForm {
    /// A URI or the like: no character is escaped in it.
    Uri,
    Text(TextForm),
}

/// The character, or a space for a control character but the tab and the line feed.
fn cleaned(c: char) -> char
    ensures { result ≡ cleaned c }
{
    if c.is_control() && !(c == '\t' || c == '\n') {
        ' '
    } else {
        c
    }
}

/// Appends a character of a URI that no backslash precedes.
fn push_plain_uri(out: &mut String, c: char) -> Result<(), NoMemory>
    ensures { OnOk result (string_bytes out.new ≡ string_bytes out.old
        ++ encode_utf8_all (plain_uri_chars c)) }
{
    if c == '\r' || c == '\n' {
        return Ok(());
    }
    out.push(cleaned(c))?;
    Ok(())
}

/// Appends a character after a backslash to a URI. Programs write a backslash only before these
/// characters; any other backslash is one of the value.
fn push_escaped_uri(out: &mut String, c: char) -> Result<(), NoMemory>
    ensures { OnOk result (string_bytes out.new ≡ string_bytes out.old
        ++ encode_utf8_all (escaped_uri_chars c)) }
{
    if c == ':' || c == ',' || c == ';' || c == '\\' {
        out.push(c)?;
        return Ok(());
    }
    out.push('\\')?;
    push_plain_uri(out, c)
}

/// Appends a character of a text in its escaped form.
fn push_char(out: &mut String, c: char) -> Result<(), NoMemory>
    ensures { OnOk result (string_bytes out.new ≡ string_bytes out.old
        ++ encode_utf8_all (written_chars (text_char_of c))) }
{
    match c {
        '\n' => out.push_str("\\n")?,
        '\\' | ',' | ';' => {
            out.push('\\')?;
            out.push(c)?;
        }
        _ => out.push(c)?,
    }
    Ok(())
}

/// Appends what a character spells that no backslash precedes.
fn push_plain(out: &mut String, c: char, form: TextForm) -> Result<(), NoMemory>
    ensures { OnOk result (string_bytes out.new ≡ string_bytes out.old
        ++ encode_utf8_all (flat_map unit_chars (plain_units form c))) }
{
    if c == '\r' {
        return Ok(());
    }
    if c == ';' || (c == ',' && !form.commas_are_text) {
        out.push(c)?;
        return Ok(());
    }
    push_char(out, cleaned(c))
}

/// Appends what a character spells after a backslash.
fn push_escaped(out: &mut String, c: char, form: TextForm) -> Result<(), NoMemory>
    ensures { OnOk result (string_bytes out.new ≡ string_bytes out.old
        ++ encode_utf8_all (flat_map unit_chars (escaped_units form c))) }
{
    match c {
        'n' | 'N' => push_char(out, '\n'),
        '\\' | ',' | ';' | ':' => push_char(out, c),
        _ => {
            push_char(out, '\\')?;
            push_plain(out, c, form)
        }
    }
}

/// Appends a character that no backslash precedes.
fn push_unescaped(out: &mut String, c: char, form: ValueForm) -> Result<(), NoMemory>
    ensures { OnOk result (string_bytes out.new ≡ string_bytes out.old
        ++ rewritten_octets form (Plain c)) }
{
    match form {
        ValueForm::Uri => push_plain_uri(out, c),
        ValueForm::Text(form) => push_plain(out, c, form),
    }
}

/// Appends a character after a backslash.
fn push_after_backslash(out: &mut String, c: char, form: ValueForm) -> Result<(), NoMemory>
    ensures { OnOk result (string_bytes out.new ≡ string_bytes out.old
        ++ rewritten_octets form (Escaped c)) }
{
    match form {
        ValueForm::Uri => push_escaped_uri(out, c),
        ValueForm::Text(form) => push_escaped(out, c, form),
    }
}

/// Appends a backslash at the end of a value. It is one of the value.
fn push_last(out: &mut String, form: ValueForm) -> Result<(), NoMemory>
    ensures { OnOk result (string_bytes out.new ≡ string_bytes out.old
        ++ rewritten_octets form TrailingBackslash) }
{
    match form {
        ValueForm::Uri => out.push('\\')?,
        ValueForm::Text(_) => push_char(out, '\\')?,
    }
    Ok(())
}

/// Rewrites one character of a value.
fn rewrite_char(
    out: &mut String,
    is_escaped: &mut bool,
    c: char,
    form: ValueForm,
) -> Result<(), NoMemory>
    ensures { OnOk result (rewrite_state (string_bytes out.new) is_escaped.new
        ≡ rewrite_char form (rewrite_state (string_bytes out.old) is_escaped.old) c) }
{
    if *is_escaped {
        *is_escaped = false;
        push_after_backslash(out, c, form)?;
    } else if c == '\\' {
        *is_escaped = true;
    } else {
        push_unescaped(out, c, form)?;
    }
    Ok(())
}

/// Finishes a value: a backslash at its end is one of it.
fn end_value(out: &mut String, is_escaped: bool, form: ValueForm) -> Result<(), NoMemory>
    ensures { OnOk result (string_bytes out.new
        ≡ finished_octets form (rewrite_state (string_bytes out.old) is_escaped)) }
{
    if is_escaped {
        push_last(out, form)?;
    }
    Ok(())
}

/// The value with the escapes of vCard 4.0, if it has escapes.
fn escaped_value(alloc: Global, value: &str, form: ValueForm) -> Result<String, NoMemory>
    ensures { IfOk result (λ new. string_bytes new
        ≡ encode_utf8_all (flat_map (rewritten_chars form) (text_chars (chars value.now)))) }
{
    let mut out = String::new(alloc);
    let mut is_escaped = false;
    for c in value.chars() {
        rewrite_char(&mut out, &mut is_escaped, c, form)?;
    }
    end_value(&mut out, is_escaped, form)?;
    Ok(out)
}

/// Whether the octets begin with a letter, a colon and a backslash.
fn begins_with_drive(octets: &[u8]) -> bool
    ensures { result ≡ begins_with_drive octets.now }
{
    match octets.split_first() {
        Some((letter, rest)) => letter.is_ascii_alphabetic() && rest.starts_with(b":\\"),
        None => false,
    }
}

/// Whether a text begins as the path of a file in Windows does, as `C:\new` or `\\host`.
fn is_path(text: &str) -> bool
    ensures { result ≡ is_path text.now }
{
    text.as_bytes().starts_with(b"\\\\") || begins_with_drive(text.as_bytes())
}

/// The value of vCard 4.0 for the path of a file, in which each backslash is one of the text.
fn path_value(alloc: Global, value: &str, form: TextForm) -> Result<String, NoMemory>
    ensures { IfOk result (λ new. string_bytes new
        ≡ encode_utf8_all (flat_map unit_chars (flat_map (plain_units form) (chars value.now)))) }
{
    let mut out = String::new(alloc);
    for c in value.chars() {
        push_plain(&mut out, c, form)?;
    }
    Ok(out)
}

/// The text with the escapes of vCard 4.0. In vCard 2.1 a backslash escapes little, so that a path
/// of Windows keeps all of its own.
fn escaped_text(alloc: Global, value: &str, form: TextForm) -> Result<String, NoMemory>
    ensures { IfOk result (λ new. string_bytes new
        ≡ encode_utf8_all (flat_map unit_chars (spelled_units form value.now))) }
{
    if form.is_old && is_path(value) {
        return path_value(alloc, value, form);
    }
    escaped_value(alloc, value, ValueForm::Text(form))
}

/// The value with the escapes of vCard 4.0.
pub fn with_escapes(alloc: Global, value: &str, form: ValueForm) -> Result<String, NoMemory>
    ensures value { IfOk result (λ new. string_bytes new ≡ rewritten_value form value.now) }

    // It spells the same, as vCard 4.0 reads it.
    ensures spells { IfOk result (λ new. SpellsSame form value.now (string_bytes new)) }
{
    match form {
        ValueForm::Uri => escaped_value(alloc, value, form),
        ValueForm::Text(form) => escaped_text(alloc, value, form),
    }
}
