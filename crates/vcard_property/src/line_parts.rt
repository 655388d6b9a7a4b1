//! Makes parameters.

use std::alloc::Global;
use vcard_text::{Items, NoMemory, Param, ParamValue, Text};

/// Whether a parameter's value with the character must be in double quotes.
fn needs_quotes(c: char) -> bool {
    matches!(c, ';' | ':' | ',')
}

/// A value of a parameter without the characters that none may have. It is in double quotes if it
/// must be, or was.
pub(crate) fn make_value(
    alloc: Global,
    text: &str,
    was_quoted: bool,
) -> Result<ParamValue, NoMemory> {
    let mut value = String::new(alloc);
    let mut quoted = was_quoted;
    for c in text.chars() {
        quoted = quoted || needs_quotes(c);
        match c {
            '\n' => value.push_str("^n")?,
            '"' => value.push_str("^'")?,
            _ => value.push(if c.is_control() { ' ' } else { c })?,
        }
    }
    let text = Text::new(value);
    Ok(ParamValue { quoted, text })
}

/// The text as RFC 6868 writes it in a parameter, but for newlines and quotes.
pub(crate) fn with_carets(alloc: Global, text: &str) -> Result<String, NoMemory> {
    let mut out = String::new(alloc);
    for c in text.chars() {
        if c == '^' {
            out.push('^')?;
        }
        out.push(c)?;
    }
    Ok(out)
}

/// A parameter with one value.
pub(crate) fn make_param(alloc: Global, name: &str, text: &str) -> Result<Param, NoMemory> {
    let mut values = Items::new(alloc);
    values.push(make_value(alloc, text, false)?)?;
    let name = Text::copy_of(alloc, name)?;
    Ok(Param { name, values })
}
