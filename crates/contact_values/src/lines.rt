//! Makes the parameters of lines.
ghost use Rattle.std.specs.Prelude.{◌≡◌, ◌++◌, IfOk, OnOk, string_bytes};
ghost use Rattle.std.specs.Str.{encode_utf8_all};
ghost use Rattle.contact_values.specs.Carets.{caret_char, caret_text};

use base_types::{Items, NoMemory, Text};
use std::alloc::Global;
use vcard_lines::{Param, ParamValue};

/// Whether a parameter's value with the character must be in double quotes.
fn needs_quotes(c: char) -> bool {
    matches!(c, ';' | ':' | ',')
}

/// Appends a character as RFC 6868 writes it in a parameter.
fn push_caret(value: &mut String, c: char) -> Result<(), NoMemory>
    ensures { OnOk result (string_bytes value.new
        ≡ string_bytes value.old ++ encode_utf8_all (caret_char c)) }
{
    if c == '^' {
        value.push_str("^^")?;
    } else if c == '\n' {
        value.push_str("^n")?;
    } else if c == '"' {
        value.push_str("^'")?;
    } else {
        value.push(c)?;
    }
    Ok(())
}

/// The text as RFC 6868 writes it in a parameter. The only `Err` is out of memory.
pub fn caret_text(alloc: Global, text: &str) -> Result<String, NoMemory>
    ensures { IfOk result (λ value. string_bytes value ≡ caret_text text.now) }
{
    let mut value = String::new(alloc);
    for c in text.chars() {
        push_caret(&mut value, c)?;
    }
    Ok(value)
}

/// A value of a parameter that is this text.
fn param_value(alloc: Global, text: &str) -> Result<ParamValue, NoMemory> {
    let quoted = text.chars().any(needs_quotes);
    let text = Text::new(caret_text(alloc, text)?);
    Ok(ParamValue { quoted, text })
}

/// Appends a value of a parameter that is this text.
fn push_text(alloc: Global, values: &mut Items<ParamValue>, text: &str) -> Result<(), NoMemory> {
    values.push(param_value(alloc, text)?)?;
    Ok(())
}

fn named_param(alloc: Global, name: &str, values: Items<ParamValue>) -> Result<Param, NoMemory> {
    let name = Text::copy_of(alloc, name)?;
    Ok(Param { name, values })
}

/// A parameter with one value.
pub(crate) fn make_param(alloc: Global, name: &str, text: &str) -> Result<Param, NoMemory> {
    let mut values = Items::new(alloc);
    push_text(alloc, &mut values, text)?;
    named_param(alloc, name, values)
}

/// A TYPE parameter with values that have commas between them.
pub(crate) fn type_param(alloc: Global, types: &str) -> Result<Param, NoMemory> {
    let mut values = Items::new(alloc);
    for kind in types.split(',') {
        push_text(alloc, &mut values, kind)?;
    }
    named_param(alloc, "TYPE", values)
}

/// A TYPE parameter with these values.
pub(crate) fn label_param(alloc: Global, types: &[&str]) -> Result<Param, NoMemory> {
    let mut values = Items::new(alloc);
    for kind in types {
        push_text(alloc, &mut values, kind)?;
    }
    named_param(alloc, "TYPE", values)
}
