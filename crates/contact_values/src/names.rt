//! The formatted name of a row that has none.

use crate::row_lines::RowLines;
use base_types::NoMemory;
use std::alloc::Global;
use vcard_lines::{Line, components, escape};

/// Appends a word, after a space if there is one before it.
fn push_word(name: &mut String, word: &str) -> Result<(), NoMemory> {
    let word = word.trim();
    if word.is_empty() {
        return Ok(());
    }
    if !name.is_empty() {
        name.push(' ')?;
    }
    name.push_str(word)?;
    Ok(())
}

/// The order of N's components in a formatted name: prefixes, given, additional and family names,
/// suffixes (RFC 6350, section 6.2.2). The first component of another property.
fn word_order(name: &str) -> &'static [usize] {
    if name == "N" { &[3, 1, 2, 0, 4] } else { &[0] }
}

/// The name that a line gives.
fn name_of_line(alloc: Global, line: &Line) -> Result<String, NoMemory> {
    let parts = components(alloc, line.value.as_str())?;
    let mut name = String::new(alloc);
    for place in word_order(line.name.as_str()) {
        if let Some(part) = parts.get(*place) {
            push_word(&mut name, part.as_str())?;
        }
    }
    Ok(name)
}

/// The first name that a line of this property gives. Empty if none does.
fn name_from(alloc: Global, lines: &[Line], source: &str) -> Result<String, NoMemory> {
    for line in lines {
        if line.name.as_str() == source {
            let name = name_of_line(alloc, line)?;
            if !name.is_empty() {
                return Ok(name);
            }
        }
    }
    Ok(String::new(alloc))
}

/// Appends an FN if there is none: from N, or else from NICKNAME, ORG, EMAIL or TEL. It is empty if
/// none of them gives a name.
pub(crate) fn push_missing_name(alloc: Global, made: &mut RowLines) -> Result<(), NoMemory> {
    if made
        .lines
        .as_slice()
        .iter()
        .any(|line| line.name.as_str() == "FN")
    {
        return Ok(());
    }
    let mut name = String::new(alloc);
    for source in ["N", "NICKNAME", "ORG", "EMAIL", "TEL"] {
        if name.is_empty() {
            name = name_from(alloc, made.lines.as_slice(), source)?;
        }
    }
    let value = escape(alloc, name.as_str())?;
    made.push_plain(alloc, "FN", value)
}
