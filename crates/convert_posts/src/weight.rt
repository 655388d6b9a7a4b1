//! How much work a text is, so that a part is small for any text. One unit is about that of an
//! octet of a photo; what costs more is a line, a parameter, a cell.

/// The weight of a line of a card.
const LINE_WEIGHT: u64 = 100;

/// The weight of a separator among parameters, components or values.
const PARAM_WEIGHT: u64 = 50;

/// The weight of a cell with a value.
const CELL_WEIGHT: u64 = 300;

/// The weight of a colon after another one: `:::` is between the values of a cell.
const COLON_WEIGHT: u64 = 150;

/// How many octets that are only looked at weigh one unit.
const LOOKED_OCTETS: u64 = 32;

/// The weight of octets that are looked at to know where a row ends, and aren't taken with it.
pub(crate) fn scan_weight(octets: &[u8]) -> u64 {
    octets.len() as u64 / LOOKED_OCTETS
}

/// The weight of an octet of cards. A line that goes on after a space isn't another one.
fn card_octet_weight(before: u8, octet: u8) -> u64 {
    match octet {
        b';' | b',' => PARAM_WEIGHT,
        b' ' | b'\t' => 1,
        _ if before == b'\n' => LINE_WEIGHT,
        _ => 1,
    }
}

/// The weight of an octet of rows. Separators without a value between them are empty cells.
fn row_octet_weight(before: u8, octet: u8) -> u64 {
    match octet {
        b',' | b';' | b'\t' | b'|' if before != octet => CELL_WEIGHT,
        b':' if before == octet => COLON_WEIGHT,
        _ => 1,
    }
}

/// The weight of octets of cards.
pub(crate) fn card_weight(octets: &[u8]) -> u64 {
    let mut weight: u64 = 0;
    let mut before = b'\n';
    for octet in octets {
        weight = weight.saturating_add(card_octet_weight(before, *octet));
        before = *octet;
    }
    weight
}

/// The weight of octets of rows.
pub(crate) fn row_weight(octets: &[u8]) -> u64 {
    let mut weight: u64 = 0;
    let mut before = b'\n';
    for octet in octets {
        weight = weight.saturating_add(row_octet_weight(before, *octet));
        before = *octet;
    }
    weight
}
