//! A column `Name` beside one of given names or of family names, whose cell is the whole name.

use crate::entries::{cell_at, push_lines};
use crate::row_lines::RowLines;
use base_types::{Items, NoMemory, Text};
use contact_columns::{Column, Part, Slot};
use std::alloc::Global;
use vcard_lines::escape;

/// Whether the column has this name in its file, which is that of a whole name elsewhere.
fn is_name_column(column: &Column) -> bool {
    let name = column.name.as_str();
    name.eq_ignore_ascii_case("name") || name.eq_ignore_ascii_case("nom")
}

/// Whether the character belongs to a word: a letter, a digit, or a hyphen as in `Paul-Meyer`.
fn is_of_word(c: char) -> bool {
    c.is_alphanumeric() || c == '-'
}

/// Whether the text ends within a word.
fn ends_in_word(text: &str) -> bool {
    let mut is_in_word = false;
    for c in text.chars() {
        is_in_word = is_of_word(c);
    }
    is_in_word
}

/// Whether the text begins within a word.
fn begins_in_word(text: &str) -> bool {
    match text.chars().next() {
        Some(c) => is_of_word(c),
        None => false,
    }
}

/// Whether the text begins with the word.
fn begins_with(text: &str, word: &str) -> bool {
    match text.strip_prefix(word) {
        Some(rest) => !begins_in_word(rest),
        None => false,
    }
}

/// Whether the text ends with the word.
fn ends_with(text: &str, word: &str) -> bool {
    match text.strip_suffix(word) {
        Some(front) => !ends_in_word(front),
        None => false,
    }
}

/// Whether the cell is a whole name, of which the other cell is a part. The same text twice is two
/// names, as those of Martin Martin.
fn is_whole(cell: &str, other: &str) -> bool {
    let cell = cell.trim();
    let other = other.trim();
    let is_part = !other.is_empty() && other.len() < cell.len();
    is_part && (begins_with(cell, other) || ends_with(cell, other))
}

/// The index of the column `Name` if it is the one component of the slot, and its cell is the whole
/// name, of which that of the other component is a part.
fn whole_place(columns: &[Column], slot: &Slot, cells: &[Text]) -> Option<usize> {
    let family = slot.place_of(Part::Component(0))?;
    let given = slot.place_of(Part::Component(1))?;
    for (place, other) in [(family, given), (given, family)] {
        let is_name = columns.get(place).map_or(false, is_name_column);
        if is_name && is_whole(cell_at(cells, Some(place)), cell_at(cells, Some(other))) {
            return Some(place);
        }
    }
    None
}

/// The cells, with an empty one at the index.
fn cells_without(alloc: Global, cells: &[Text], place: usize) -> Result<Items<Text>, NoMemory> {
    let mut others = Items::new(alloc);
    for index in 0..cells.len() {
        let text = if index == place {
            ""
        } else {
            cells[index].as_str()
        };
        others.push(Text::copy_of(alloc, text)?)?;
    }
    Ok(others)
}

/// Appends the lines of the slot, as if the cell at the index were empty.
fn push_without(
    alloc: Global,
    made: &mut RowLines,
    slot: &Slot,
    cells: &[Text],
    place: usize,
) -> Result<(), NoMemory> {
    let others = cells_without(alloc, cells, place)?;
    push_lines(alloc, made, slot, others.as_slice())
}

/// Appends the lines of a slot. A whole name in a column of a part of names is the formatted name,
/// and no part.
pub(crate) fn push_slot_lines(
    alloc: Global,
    made: &mut RowLines,
    columns: &[Column],
    slot: &Slot,
    cells: &[Text],
) -> Result<(), NoMemory> {
    if slot.property.as_str() != "N" {
        return push_lines(alloc, made, slot, cells);
    }
    let Some(place) = whole_place(columns, slot, cells) else {
        return push_lines(alloc, made, slot, cells);
    };
    push_without(alloc, made, slot, cells, place)?;
    let name = escape(alloc, cell_at(cells, Some(place)).trim())?;
    made.push_plain(alloc, "FN", name)
}
