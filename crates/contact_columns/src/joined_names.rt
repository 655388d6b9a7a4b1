//! Names of columns whose words are written together or apart, as `givenName` and `E Mail`.

use crate::known_names::KnownName;
use std::alloc::{AllocError, Global};

/// What a table has for a name without what parts its words.
#[derive(Clone, Copy)]
pub(crate) enum Joined {
    /// No name is the same without it.
    None,
    /// Those that are mean the column that has this name in English.
    One(&'static str),
    /// They mean several.
    Several,
}

/// Whether the octet only parts the words of a name.
fn is_gap(octet: u8) -> bool {
    matches!(octet, b' ' | b'-' | b'_' | b'.')
}

/// The octets of a name without what parts its words.
pub(crate) fn without_gaps(alloc: Global, name: &str) -> Result<Vec<u8>, AllocError> {
    let mut octets = Vec::new(alloc);
    for octet in name.as_bytes() {
        if !is_gap(*octet) {
            octets.push(*octet)?;
        }
    }
    Ok(octets)
}

/// Whether the octet is at the place.
fn is_at(octets: &[u8], place: usize, octet: u8) -> bool {
    match octets.get(place) {
        Some(found) => *found == octet,
        None => false,
    }
}

/// Whether these are the octets of the name without what parts its words.
fn is_joined(name: &[u8], joined: &[u8]) -> bool {
    let mut place: usize = 0;
    for octet in name {
        if !is_gap(*octet) {
            if !is_at(joined, place, *octet) {
                return false;
            }
            place = place.saturating_add(1);
        }
    }
    place == joined.len()
}

/// What was found with one more name in English.
fn with_name(found: Joined, english: &'static str) -> Joined {
    match found {
        Joined::None => Joined::One(english),
        Joined::One(other) if other == english => found,
        _ => Joined::Several,
    }
}

/// What was found with the names of the table that are these octets without what parts their words.
pub(crate) fn joined_in(table: &[KnownName], joined: &[u8], found: Joined) -> Joined {
    let mut found = found;
    for (known, english) in table {
        if is_joined(known.as_bytes(), joined) {
            found = with_name(found, *english);
        }
    }
    found
}
