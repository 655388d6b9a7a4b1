//! The lines of one property of a row.

use crate::labels::label_types;
use crate::lines::{label_param, make_param, type_param};
use crate::row_lines::RowLines;
use crate::structured::{has_parts, push_structured_lines};
use crate::values::{gender_value, takes_text};
use base_types::{Items, NoMemory, Part as Copied, Text};
use contact_columns::{DateOrder, Part, Slot, basic_date, component_count, is_void};
use std::alloc::Global;
use vcard_lines::{Line, Param, escape};

/// The text of the cell at the index, or an empty one.
pub(crate) fn cell_at(cells: &[Text], place: Option<usize>) -> &str {
    let Some(place) = place else {
        return "";
    };
    match cells.get(place) {
        Some(cell) => cell.as_str(),
        None => "",
    }
}

/// What a label says of a value.
#[derive(Clone, Copy)]
struct Label<'a> {
    /// The label, without the mark of a preferred value.
    text: &'a str,
    /// Whether Google marks the value as preferred.
    is_preferred: bool,
}

/// The label in a cell: Google puts `* ` before that of a preferred value.
fn label_of(cell: &str) -> Label<'_> {
    match cell.strip_prefix("* ") {
        Some(text) => Label {
            text,
            is_preferred: true,
        },
        None => Label {
            text: cell,
            is_preferred: false,
        },
    }
}

impl Label<'_> {
    /// Whether the label needs a line of its own.
    fn is_custom(self) -> bool {
        !is_void(self.text) && label_types(self.text).is_empty()
    }
}

/// Appends the types that the column's name gives.
fn push_types(alloc: Global, params: &mut Items<Param>, slot: &Slot) -> Result<(), NoMemory> {
    if !slot.types.is_empty() {
        params.push(type_param(alloc, slot.types.as_str())?)?;
    }
    Ok(())
}

/// Appends the types that the label is.
fn push_label_types(
    alloc: Global,
    params: &mut Items<Param>,
    label: Label<'_>,
) -> Result<(), NoMemory> {
    let types = label_types(label.text);
    if !types.is_empty() {
        params.push(label_param(alloc, types)?)?;
    }
    Ok(())
}

/// Appends that the value is preferred, if the label says so.
fn push_preference(
    alloc: Global,
    params: &mut Items<Param>,
    label: Label<'_>,
) -> Result<(), NoMemory> {
    if label.is_preferred {
        params.push(make_param(alloc, "PREF", "1")?)?;
    }
    Ok(())
}

/// The parameters that the column's name and the label give.
fn label_params(alloc: Global, slot: &Slot, label: Label<'_>) -> Result<Items<Param>, NoMemory> {
    let mut params = Items::new(alloc);
    push_types(alloc, &mut params, slot)?;
    push_label_types(alloc, &mut params, label)?;
    push_preference(alloc, &mut params, label)?;
    Ok(params)
}

/// Whether the separator has an address of electronic mail before it and after it.
fn separates_mails(cell: &str, separator: &str) -> bool {
    match cell.split_once(separator) {
        Some((first, rest)) => first.contains("@") && rest.contains("@"),
        None => false,
    }
}

/// What separates several addresses of electronic mail in a cell that people have filled.
fn mail_separator(cell: &str) -> &'static str {
    for separator in [";", ",", "\n", " "] {
        if separates_mails(cell, separator) {
            return separator;
        }
    }
    " ::: "
}

/// The least digits of a telephone number that is looked for beside another in a cell.
const NUMBER_DIGITS_MIN: usize = 5;

/// Whether the text has as many digits as a telephone number.
fn has_number(text: &str) -> bool {
    let octets = text.as_bytes();
    octets.iter().filter(|octet| octet.is_ascii_digit()).count() >= NUMBER_DIGITS_MIN
}

/// Whether the text begins as a whole telephone number, and not as the end of one.
fn begins_number(text: &str) -> bool {
    let text = text.trim_start();
    text.starts_with("+") || text.starts_with("0") || text.starts_with("(")
}

/// Whether the separator has a telephone number before it and after it.
fn separates_numbers(cell: &str, separator: &str) -> bool {
    match cell.split_once(separator) {
        Some((first, rest)) => has_number(first) && begins_number(rest) && has_number(rest),
        None => false,
    }
}

/// What separates several telephone numbers in a cell that people have filled.
fn number_separator(cell: &str) -> &'static str {
    for separator in [";", "\n", " / "] {
        if separates_numbers(cell, separator) {
            return separator;
        }
    }
    " ::: "
}

/// What separates several values in a cell of the property; empty if a cell has one value.
fn separator_of(property: &str, cell: &str) -> &'static str {
    match property {
        "EMAIL" if !cell.contains(" ::: ") => mail_separator(cell),
        "TEL" if !cell.contains(" ::: ") => number_separator(cell),
        "EMAIL" | "TEL" | "URL" | "RELATED" => " ::: ",
        "CATEGORIES" if cell.contains(" ::: ") => " ::: ",
        "CATEGORIES" => ";",
        _ => "",
    }
}

/// Whether the property's value is a URI or a language tag, in which nothing is escaped.
fn is_uri_property(property: &str) -> bool {
    matches!(property, "URL" | "PHOTO" | "FBURL" | "IMPP" | "LANG")
}

fn is_date_property(property: &str) -> bool {
    matches!(property, "BDAY" | "ANNIVERSARY")
}

/// A line with a date: in the form of vCard 4.0, or as a text if it is no date, or may be two.
fn set_date(alloc: Global, line: &mut Line, text: &str, order: DateOrder) -> Result<(), NoMemory> {
    match basic_date(alloc, text, order)? {
        Some(date) => line.value = Text::new(date),
        None => {
            line.params.push(make_param(alloc, "VALUE", "text")?)?;
            line.value = Text::new(escape(alloc, text)?);
        }
    }
    Ok(())
}

/// Gives the line its value.
fn set_value(alloc: Global, line: &mut Line, text: &str, order: DateOrder) -> Result<(), NoMemory> {
    if is_date_property(line.name.as_str()) {
        return set_date(alloc, line, text, order);
    }
    if is_uri_property(line.name.as_str()) {
        line.value = Text::copy_of(alloc, text)?;
        return Ok(());
    }
    if line.name.as_str() == "GENDER" {
        line.value = Text::new(gender_value(alloc, text)?);
        return Ok(());
    }
    if line.name.as_str() == "RELATED" {
        line.params.push(make_param(alloc, "VALUE", "text")?)?;
    }
    line.value = Text::new(escape(alloc, text)?);
    Ok(())
}

/// Appends a line as this one, with the value.
fn push_with_value(
    alloc: Global,
    made: &mut RowLines,
    model: &Line,
    text: &str,
) -> Result<(), NoMemory> {
    let mut line = model.try_copy()?;
    set_value(alloc, &mut line, text, made.dates)?;
    made.push(alloc, line)
}

fn is_mail(line: &Line) -> bool {
    line.name.as_str() == "EMAIL"
}

/// Appends the line, with this value, unless it is void.
fn push_part(alloc: Global, made: &mut RowLines, model: &Line, part: &str) -> Result<(), NoMemory> {
    if is_void(part) {
        return Ok(());
    }
    let text = part.strip_prefix("* ").unwrap_or(part);
    let text = if is_mail(model) { text.trim() } else { text };
    if !takes_text(model.name.as_str(), text) {
        return Ok(());
    }
    push_with_value(alloc, made, model, text)
}

/// Appends a line for each value of the cell. A cell that the property can't have is kept aside.
fn push_parts(
    alloc: Global,
    made: &mut RowLines,
    model: &Line,
    cell: &str,
) -> Result<(), NoMemory> {
    let property = model.name.as_str();
    let separator = separator_of(property, cell);
    if separator.is_empty() {
        if !takes_text(property, cell) {
            return Ok(());
        }
        return push_with_value(alloc, made, model, cell);
    }
    let is_trimmed = property == "TEL" && separator != " ::: ";
    for part in cell.split(separator) {
        push_part(
            alloc,
            made,
            model,
            if is_trimmed { part.trim() } else { part },
        )?;
    }
    Ok(())
}

/// The name of the property: Google has the anniversary among its events.
fn property_name<'a>(slot: &'a Slot, label: Label<'_>) -> &'a str {
    if slot.property.as_str() == "X-ABDATE" && label.text.eq_ignore_ascii_case("anniversary") {
        "ANNIVERSARY"
    } else {
        slot.property.as_str()
    }
}

/// Appends the label of a group.
fn push_label(
    alloc: Global,
    made: &mut RowLines,
    group: Text,
    label: &str,
) -> Result<(), NoMemory> {
    let line = Line {
        group: Some(group),
        name: Text::copy_of(alloc, "X-ABLABEL")?,
        params: Items::new(alloc),
        value: Text::new(escape(alloc, label)?),
    };
    made.push(alloc, line)
}

/// A line of the slot without a value.
fn line_of(
    alloc: Global,
    slot: &Slot,
    label: Label<'_>,
    group: Option<Text>,
) -> Result<Line, NoMemory> {
    Ok(Line {
        group,
        name: Text::copy_of(alloc, property_name(slot, label))?,
        params: label_params(alloc, slot, label)?,
        value: Text::new(String::new(alloc)),
    })
}

/// Appends the lines of a value in a group.
fn push_in_group(
    alloc: Global,
    made: &mut RowLines,
    slot: &Slot,
    label: Label<'_>,
    cells: &[Text],
    value: &str,
    group: &Text,
) -> Result<(), NoMemory> {
    let model = line_of(alloc, slot, label, Some(group.try_copy()?))?;
    push_value(alloc, made, slot, &model, cells, value)
}

/// Appends the lines of a value with a label that vCard 4.0 has no type for.
fn push_labelled(
    alloc: Global,
    made: &mut RowLines,
    slot: &Slot,
    label: Label<'_>,
    cells: &[Text],
    value: &str,
) -> Result<(), NoMemory> {
    let group = made.new_group(alloc)?;
    push_in_group(alloc, made, slot, label, cells, value, &group)?;
    made.set_home(slot.place_of(Part::Label));
    push_label(alloc, made, group, label.text)
}

/// Appends the lines of a value, or those of components.
fn push_value(
    alloc: Global,
    made: &mut RowLines,
    slot: &Slot,
    model: &Line,
    cells: &[Text],
    value: &str,
) -> Result<(), NoMemory> {
    if component_count(slot.property.as_str()) == 0 {
        return push_parts(alloc, made, model, value);
    }
    push_structured_lines(alloc, made, slot, model, cells)
}

/// Appends the lines of the slot, whose label needs no line of its own.
fn push_unlabelled(
    alloc: Global,
    made: &mut RowLines,
    slot: &Slot,
    label: Label<'_>,
    cells: &[Text],
    value: &str,
) -> Result<(), NoMemory> {
    made.set_home(slot.place_of(Part::Label));
    let model = line_of(alloc, slot, label, None)?;
    push_value(alloc, made, slot, &model, cells, value)
}

/// Appends the lines of the slot, whose value is this; it is empty if the slot has components.
fn push_slot(
    alloc: Global,
    made: &mut RowLines,
    slot: &Slot,
    cells: &[Text],
    value: &str,
) -> Result<(), NoMemory> {
    let label = label_of(cell_at(cells, slot.place_of(Part::Label)));
    let name = property_name(slot, label);
    if label.is_custom() && name == slot.property.as_str() {
        push_labelled(alloc, made, slot, label, cells, value)
    } else {
        push_unlabelled(alloc, made, slot, label, cells, value)
    }
}

/// Appends the lines of components, if the row has one.
fn push_structured(
    alloc: Global,
    made: &mut RowLines,
    slot: &Slot,
    cells: &[Text],
) -> Result<(), NoMemory> {
    if !has_parts(alloc, slot, cells)? {
        return Ok(());
    }
    for column in &slot.columns {
        made.set_home(Some(column.place));
    }
    push_slot(alloc, made, slot, cells, "")
}

/// The date whose year, month and day the cells have, or without a year; empty if the month or the
/// day is void.
fn parted_date(alloc: Global, slot: &Slot, cells: &[Text]) -> Result<String, NoMemory> {
    let year = cell_at(cells, slot.place_of(Part::Year)).trim();
    let month = cell_at(cells, slot.place_of(Part::Month)).trim();
    let day = cell_at(cells, slot.place_of(Part::Day)).trim();
    if is_void(month) || is_void(day) {
        return Ok(String::new(alloc));
    }
    if is_void(year) {
        return Ok(format!(in alloc; "--{month}-{day}")?);
    }
    Ok(format!(in alloc; "{year}-{month}-{day}")?)
}

/// Appends the line of a date whose parts are in several columns. What is no date is kept aside.
fn push_parted(
    alloc: Global,
    made: &mut RowLines,
    slot: &Slot,
    cells: &[Text],
) -> Result<(), NoMemory> {
    let text = parted_date(alloc, slot, cells)?;
    if basic_date(alloc, text.as_str(), made.dates)?.is_none() {
        return Ok(());
    }
    for column in &slot.columns {
        made.set_home(Some(column.place));
    }
    push_slot(alloc, made, slot, cells, text.as_str())
}

/// Appends the lines of the slot, if the row has its value.
pub(crate) fn push_lines(
    alloc: Global,
    made: &mut RowLines,
    slot: &Slot,
    cells: &[Text],
) -> Result<(), NoMemory> {
    if component_count(slot.property.as_str()) > 0 {
        return push_structured(alloc, made, slot, cells);
    }
    let place = slot.place_of(Part::Value);
    let value = cell_at(cells, place);
    if is_void(value) {
        return push_parted(alloc, made, slot, cells);
    }
    made.set_home(place);
    push_slot(alloc, made, slot, cells, value)
}
