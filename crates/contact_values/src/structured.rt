//! The lines of a property whose value has components (RFC 6350, section 3.3). Google writes
//! several addresses into the same columns.

use crate::entries::cell_at;
use crate::lines::make_param;
use crate::row_lines::RowLines;
use base_types::{NoMemory, Part as Copied, Text};
use contact_columns::{Part, Slot, component_count, is_void};
use std::alloc::Global;
use vcard_lines::{Line, escape};

/// What Google writes between the values of a cell.
pub const JOINER: &str = " ::: ";

/// The texts of one value: its components, and after them the address as it is printed.
fn value_parts<'a>(
    alloc: Global,
    slot: &Slot,
    cells: &'a [Text],
) -> Result<Vec<&'a str>, NoMemory> {
    let mut parts = Vec::new(alloc);
    for place in 0..component_count(slot.property.as_str()) {
        parts.push(cell_at(cells, slot.place_of(Part::Component(place))))?;
    }
    parts.push(cell_at(cells, slot.place_of(Part::Formatted)))?;
    Ok(parts)
}

/// Whether one of the texts isn't void.
fn has_value(parts: &[&str]) -> bool {
    parts.iter().any(|part| !is_void(*part))
}

/// Whether the row has a component of the slot, or the address as it is printed.
pub(crate) fn has_parts(alloc: Global, slot: &Slot, cells: &[Text]) -> Result<bool, NoMemory> {
    let parts = value_parts(alloc, slot, cells)?;
    Ok(has_value(parts.as_slice()))
}

/// The values that Google has joined in a cell; none if it is void.
fn joined_values(alloc: Global, part: &str) -> Result<Vec<&str>, NoMemory> {
    let mut values = Vec::new(alloc);
    if is_void(part) {
        return Ok(values);
    }
    for value in part.split(JOINER) {
        values.push(value)?;
    }
    Ok(values)
}

/// The values of each cell.
fn values_of_each<'a>(alloc: Global, parts: &[&'a str]) -> Result<Vec<Vec<&'a str>>, NoMemory> {
    let mut cells = Vec::new(alloc);
    for part in parts {
        cells.push(joined_values(alloc, *part)?)?;
    }
    Ok(cells)
}

/// The number of addresses whose parts these are, each at its place in each cell. One, if the cells
/// that have values don't have as many of them each.
fn address_count(cells: &[Vec<&str>]) -> usize {
    let mut count: usize = 0;
    for values in cells {
        let found = values.len();
        if found > 0 && count > 0 && found != count {
            return 1;
        }
        if found > 0 {
            count = found;
        }
    }
    count
}

/// The number of components that are written: those of ORG may be fewer.
fn written_count(property: &str, parts: &[&str]) -> usize {
    let count = component_count(property);
    if property == "ORG" && is_void(part_at(parts, 1)) {
        return 1;
    }
    count
}

/// The text at the index, or an empty one.
fn part_at<'a>(parts: &[&'a str], place: usize) -> &'a str {
    match parts.get(place) {
        Some(part) => *part,
        None => "",
    }
}

/// Appends a component, after a semicolon unless it is the first.
fn push_component(
    alloc: Global,
    value: &mut String,
    place: usize,
    part: &str,
) -> Result<(), NoMemory> {
    if place > 0 {
        value.push(';')?;
    }
    value.push_str(escape(alloc, part)?.as_str())?;
    Ok(())
}

/// The components with semicolons between them.
fn structured_value(alloc: Global, property: &str, parts: &[&str]) -> Result<String, NoMemory> {
    let mut value = String::new(alloc);
    for place in 0..written_count(property, parts) {
        push_component(alloc, &mut value, place, part_at(parts, place))?;
    }
    Ok(value)
}

/// Gives an address its parameter LABEL (RFC 6350, section 6.3.1), if it has one.
fn push_formatted(alloc: Global, line: &mut Line, formatted: &str) -> Result<(), NoMemory> {
    if !is_void(formatted) {
        line.params.push(make_param(alloc, "LABEL", formatted)?)?;
    }
    Ok(())
}

/// Appends the line of one value, unless all its parts are void.
fn push_structured_line(
    alloc: Global,
    made: &mut RowLines,
    model: &Line,
    parts: &[&str],
) -> Result<(), NoMemory> {
    if !has_value(parts) {
        return Ok(());
    }
    let property = model.name.as_str();
    let formatted = part_at(parts, component_count(property));
    let value = structured_value(alloc, property, parts)?;
    let mut line = model.try_copy()?;
    line.value = Text::new(value);
    push_formatted(alloc, &mut line, formatted)?;
    made.push(alloc, line)
}

/// The value of each cell at the index.
fn values_at<'a>(
    alloc: Global,
    cells: &[Vec<&'a str>],
    place: usize,
) -> Result<Vec<&'a str>, NoMemory> {
    let mut parts = Vec::new(alloc);
    for values in cells {
        parts.push(part_at(values.as_slice(), place))?;
    }
    Ok(parts)
}

/// Appends a line for each address whose parts these are, or one line of all parts.
fn push_each_address(
    alloc: Global,
    made: &mut RowLines,
    model: &Line,
    parts: &[&str],
    cells: &[Vec<&str>],
) -> Result<(), NoMemory> {
    let count = address_count(cells);
    if count <= 1 {
        return push_structured_line(alloc, made, model, parts);
    }
    for place in 0..count {
        let values = values_at(alloc, cells, place)?;
        push_structured_line(alloc, made, model, values.as_slice())?;
    }
    Ok(())
}

/// Appends a line for each address that Google has joined in the cells. If these don't have as many
/// values each, it isn't clear what belongs together, and they are one address.
fn push_addresses(
    alloc: Global,
    made: &mut RowLines,
    model: &Line,
    parts: &[&str],
) -> Result<(), NoMemory> {
    let cells = values_of_each(alloc, parts)?;
    push_each_address(alloc, made, model, parts, cells.as_slice())
}

/// Appends the lines of the slot, whose columns are components.
pub(crate) fn push_structured_lines(
    alloc: Global,
    made: &mut RowLines,
    slot: &Slot,
    model: &Line,
    cells: &[Text],
) -> Result<(), NoMemory> {
    let parts = value_parts(alloc, slot, cells)?;
    if slot.property.as_str() == "ADR" {
        return push_addresses(alloc, made, model, parts.as_slice());
    }
    push_structured_line(alloc, made, model, parts.as_slice())
}
