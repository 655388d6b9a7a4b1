//! Cuts a line into its head and its value, and its head into parts.

use std::alloc::Global;
use vcard_text::NoMemory;

/// The place of the first such octet that isn't in double quotes.
fn place_outside_quotes(octets: &[u8], octet: u8) -> Option<usize> {
    let mut quoted = false;
    for (place, found) in octets.iter().enumerate() {
        if *found == b'"' {
            quoted = !quoted;
        } else if *found == octet && !quoted {
            return Some(place);
        }
    }
    None
}

/// The texts before and after the first such octet that isn't in double quotes. The octet is ASCII.
fn split_outside_quotes(text: &str, octet: u8) -> Option<(&str, &str)> {
    let place = place_outside_quotes(text.as_bytes(), octet)?;
    let (before, rest) = text.split_at_checked(place)?;
    let (_, after) = rest.split_at_checked(1)?;
    Some((before, after))
}

/// The head and the value of a line: what is before and after its first colon. A colon in double
/// quotes doesn't count, unless there is no other.
pub(crate) fn split_line(text: &str) -> Option<(&str, &str)> {
    match split_outside_quotes(text, b':') {
        Some(parts) => Some(parts),
        None => text.split_once(':'),
    }
}

/// The octets of the value of a line with these octets.
pub(crate) fn after_head(octets: &[u8]) -> &[u8] {
    let found = place_outside_quotes(octets, b':');
    let colon = match found {
        Some(place) => Some(place),
        None => octets.iter().position(|octet| *octet == b':'),
    };
    let Some(place) = colon else {
        return octets;
    };
    let rest = octets.get(place..).unwrap_or(octets);
    match rest.split_first() {
        Some((_, after)) => after,
        None => rest,
    }
}

/// The parts of a text between such octets that aren't in double quotes.
pub(crate) fn split_parts(alloc: Global, text: &str, octet: u8) -> Result<Vec<&str>, NoMemory> {
    let mut parts = Vec::new(alloc);
    let mut rest = text;
    for _ in 0..text.len() {
        let Some((part, tail)) = split_outside_quotes(rest, octet) else {
            break;
        };
        parts.push(part)?;
        rest = tail;
    }
    parts.push(rest)?;
    Ok(parts)
}

/// The group, if there is one, and the name.
pub(crate) fn split_group(head: &str) -> (Option<&str>, &str) {
    match head.rsplit_once('.') {
        Some((group, name)) => (Some(group), name),
        None => (None, head),
    }
}
