//! Makes names of groups, properties and parameters legal (RFC 6350, section 3.3).
use std::alloc::Global;
use vcard_text::{NoMemory, Text};

/// Whether the name is one of these.
pub(crate) fn is_one_of(name: &str, names: &[&str]) -> bool {
    names.iter().any(|other| *other == name)
}

/// The properties with binary values (RFC 6350, sections 6.2.4, 6.6.3, 6.7.5 and 6.8.1).
const BINARY_NAMES: [&str; 4] = ["PHOTO", "LOGO", "SOUND", "KEY"];

/// Whether the values of the name are binary.
pub(crate) fn is_binary_name(name: &str) -> bool {
    is_one_of(name, &BINARY_NAMES)
}

fn legal_char(c: char) -> char {
    if c.is_ascii_alphanumeric() { c } else { '-' }
}

/// The name without white space around it, each character that no name may have as a hyphen.
/// `None` if it is empty.
pub(crate) fn legal_name(alloc: Global, name: &str) -> Result<Option<Text>, NoMemory> {
    let mut legal = String::new(alloc);
    for c in name.trim().chars() {
        legal.push(legal_char(c))?;
    }
    if legal.is_empty() {
        return Ok(None);
    }
    Ok(Some(Text::new(legal)))
}

/// The name as `legal_name` makes it, in upper case. `None` if it is empty.
pub(crate) fn upper_name(alloc: Global, name: &str) -> Result<Option<Text>, NoMemory> {
    let Some(name) = legal_name(alloc, name)? else {
        return Ok(None);
    };
    let mut name = name.into_string();
    name.make_ascii_uppercase();
    Ok(Some(Text::new(name)))
}
