//! The names of the lines of a piece.

use base_types::NoMemory;
use std::alloc::Global;

/// The most characters of a name in a report.
const NAME_CHARS_MAX: usize = 60;

/// What stands before the value and the parameters of a line, without its group and white space.
pub fn head_of(line: &[u8]) -> &[u8] {
    let end = line
        .iter()
        .position(|octet| *octet == b':' || *octet == b';')
        .unwrap_or(line.len());
    let head = line.get(..end).unwrap_or(line);
    let name = match head.iter().rposition(|octet| *octet == b'.') {
        Some(dot) => head.get(dot + 1..).unwrap_or(head),
        None => head,
    };
    name.trim_ascii()
}

/// The name of a line in upper case, with a hyphen for each octet that no name may have.
pub(crate) fn name_of(alloc: Global, line: &[u8]) -> Result<String, NoMemory> {
    let mut name = String::new(alloc);
    for octet in head_of(line).iter().take(NAME_CHARS_MAX) {
        if octet.is_ascii_alphanumeric() {
            name.push(char::from(octet.to_ascii_uppercase()))?;
        } else {
            name.push('-')?;
        }
    }
    Ok(name)
}

/// The name with X- before it, unless it begins so.
pub(crate) fn aside_name(alloc: Global, name: &str) -> Result<String, NoMemory> {
    if name.starts_with("X-") {
        return Ok(String::from_str(alloc, name)?);
    }
    Ok(format!(in alloc; "X-{name}")?)
}

/// Whether nothing but white space follows the head of the line, whose name is FN.
pub(crate) fn is_empty_name(name: &str, line: &[u8]) -> bool {
    let end = line
        .iter()
        .position(|octet| *octet == b':')
        .unwrap_or(line.len());
    let value = line.get(end..).unwrap_or(&[]);
    name == "FN"
        && value
            .iter()
            .all(|octet| *octet == b':' || octet.is_ascii_whitespace())
}
