//! Whether a line of a card holds a cell.
ghost use Rattle.std.specs.Prelude.{◌≡◌, ◌<◌, ◌++◌, ◌&&◌, [], ℕ, List, true, IfOk, IfSome, IsTrue};
ghost use Rattle.std.specs.Prelude.{bytes_eq, codes, get_or, length, map, string_bytes};
ghost use Rattle.std.specs.List.{list_any};
ghost use Rattle.vcard_lines.specs.TextValues.{components};
ghost use Rattle.contact_csv.specs.Carrying.{param_has, has_text, is_held, IsPartHeld};
ghost use Rattle.contact_csv.specs.Carrying.{ArePartsHeld, IsComponentPart};
ghost use Rattle.contact_csv.specs.Carrying.{has_types, IsLabel, IsLabelHeld};
ghost use Rattle.contact_csv.specs.Carrying.{is_component_held, is_date_name, is_date_column};
ghost use Rattle.contact_values.specs.Carets.{caret_text};

use contact_columns::is_void;
use contact_values::{caret_text, label_types};
use std::alloc::Global;
use vcard_text::{Line, NoMemory, Param, ParamValue, components, escape};

/// Whether a part is the text.
fn has_part(parts: &[String], text: &str) -> bool
    ensures { result ≡ list_any (λ part. bytes_eq (string_bytes part) text.now) parts.now }
{
    parts.iter().any(|part| part.as_str() == text)
}

/// Whether the part at the index is the text.
fn is_part(parts: &[String], index: usize, text: &str) -> bool
    ensures { IsTrue result
        → bytes_eq (get_or (map string_bytes parts.now) index []) text.now ≡ true }
{
    if index >= parts.len() {
        return false;
    }
    parts[index].as_str() == text
}

/// Whether the component of the value at the index is the text (RFC 6350, section 3.3).
fn is_component(alloc: Global, value: &str, index: usize, text: &str) -> Result<bool, NoMemory>
    ensures { IfOk result (λ is. IsTrue is
        → bytes_eq (get_or (components value.now) index []) text.now ≡ true) }
{
    let parts = components(alloc, value)?;
    Ok(is_part(parts.as_slice(), index, text))
}

/// Whether a component of the value is the text (RFC 6350, section 3.3).
fn has_component(alloc: Global, value: &str, text: &str) -> Result<bool, NoMemory>
    ensures { IfOk result (λ has. has
        ≡ list_any (λ part. bytes_eq part text.now) (components value.now)) }
{
    let parts = components(alloc, value)?;
    Ok(has_part(parts.as_slice(), text))
}

/// Whether a value of the parameter is the text, which is written as a parameter's.
fn param_has(param: &Param, text: &str) -> bool
    ensures { result ≡ param_has text.now param.now }
{
    param
        .values
        .as_slice()
        .iter()
        .any(|value| value.text.as_str() == text)
}

/// Whether a value of a parameter is the text.
fn has_param(alloc: Global, params: &[Param], text: &str) -> Result<bool, NoMemory>
    ensures { IfOk result (λ has. has ≡ list_any (param_has (caret_text text.now)) params.now) }
{
    let text = caret_text(alloc, text)?;
    Ok(params.iter().any(|param| param_has(param, text.as_str())))
}

/// Whether the line has the text: as its value, as a component of it, or as a parameter.
fn has_text(alloc: Global, line: &Line, text: &str) -> Result<bool, NoMemory>
    ensures { IfOk result (λ has. has ≡ has_text text.now line.now) }
{
    let value = line.value.as_str();
    if value == text {
        return Ok(true);
    }
    let escaped = escape(alloc, text)?;
    if value == escaped.as_str() {
        return Ok(true);
    }
    if has_component(alloc, value, text)? {
        return Ok(true);
    }
    has_param(alloc, line.params.as_slice(), text)
}

/// Whether the line at the index has the name and the text.
pub(crate) fn holds_text(
    alloc: Global,
    lines: &[Line],
    home: usize,
    property: &str,
    text: &str,
) -> Result<bool, NoMemory>
    ensures { IfOk result (λ holds. holds ≡ true
        → is_held property.now text.now lines.now ≡ true) }
{
    if home >= lines.len() {
        return Ok(false);
    }
    let line = &lines[home];
    if line.name.as_str() != property {
        return Ok(false);
    }
    has_text(alloc, line, text)
}

/// Whether the line at the index `home` has the name, and the text in its component at `index`.
pub(crate) fn holds_component(
    alloc: Global,
    lines: &[Line],
    home: usize,
    property: &str,
    index: usize,
    text: &str,
) -> Result<bool, NoMemory>
    ensures { IfOk result (λ holds. IsTrue holds
        → is_component_held property.now index text.now lines.now ≡ true) }
{
    if home >= lines.len() {
        return Ok(false);
    }
    let line = &lines[home];
    if line.name.as_str() != property {
        return Ok(false);
    }
    is_component(alloc, line.value.as_str(), index, text)
}

/// The text before the first separator, and the text after it. `None` without a separator.
fn split_at<'a>(text: &'a str, separator: &str) -> Option<(&'a str, &'a str)>
    ensures { IfSome result (λ split. text.now
        ≡ split.0.now ++ separator.now ++ split.1.now) }
{
    text.split_once(separator)
}

/// The text after Google's mark of a preferred value, if it begins with the mark.
fn without_star(text: &str) -> Option<&str>
    ensures { IfSome result (λ rest. text.now ≡ codes "* " ++ rest.now) }
{
    match split_at(text, "* ") {
        Some((front, rest)) if front.is_empty() => Some(rest),
        _ => None,
    }
}

/// Whether the part has no value, or the line at the index has the name and the part. Google puts
/// `* ` before a category.
fn holds_part(
    alloc: Global,
    lines: &[Line],
    home: usize,
    property: &str,
    part: &str,
) -> Result<bool, NoMemory>
    ensures { IfOk result (λ holds. holds ≡ true → IsPartHeld property.now part.now lines.now) }
{
    if is_void(part) {
        return Ok(true);
    }
    if holds_text(alloc, lines, home, property, part)? {
        return Ok(true);
    }
    match without_star(part) {
        Some(text) => holds_text(alloc, lines, home, property, text),
        None => Ok(false),
    }
}

/// The index of the line that should hold the part after this one. A part without a value has no
/// line, but an address of which another cell has a value does.
fn place_after(place: usize, property: &str, part: &str) -> usize {
    if is_void(part) && property != "ADR" {
        place
    } else {
        place.saturating_add(1)
    }
}

/// Whether the lines from the index on hold the parts of the text that the separator separates.
pub(crate) fn holds_parts(
    alloc: Global,
    lines: &[Line],
    home: usize,
    property: &str,
    text: &str,
    separator: &str,
) -> Result<bool, NoMemory>
    requires { 0 < length separator.now }
    ensures { IfOk result (λ holds. holds ≡ true
        → ArePartsHeld separator.now (λ part. IsPartHeld property.now part lines.now) text.now) }
{
    let mut rest = text;
    let mut place = home;
    while let Some((part, tail)) = split_at(rest, separator) {
        if !holds_part(alloc, lines, place, property, part)? {
            return Ok(false);
        }
        place = place_after(place, property, part);
        rest = tail;
    }
    holds_part(alloc, lines, place, property, rest)
}

/// Whether the part has no value, or the line at the index `home` has the name, and the part in its
/// component at `index`.
fn holds_component_part(
    alloc: Global,
    lines: &[Line],
    home: usize,
    property: &str,
    index: usize,
    part: &str,
) -> Result<bool, NoMemory>
    ensures { IfOk result (λ holds. IsTrue holds
        → IsComponentPart property.now index part.now lines.now) }
{
    if is_void(part) {
        return Ok(true);
    }
    holds_component(alloc, lines, home, property, index, part)
}

/// Whether the lines from the index `home` on have the parts of the text that Google's separator
/// separates, each in its component at `index`.
pub(crate) fn holds_components(
    alloc: Global,
    lines: &[Line],
    home: usize,
    property: &str,
    index: usize,
    text: &str,
) -> Result<bool, NoMemory>
    ensures { IfOk result (λ holds. IsTrue holds → ArePartsHeld (codes " ::: ")
        (λ part. IsComponentPart property.now index part lines.now) text.now) }
{
    let mut rest = text;
    let mut place = home;
    while let Some((part, tail)) = split_at(rest, " ::: ") {
        if !holds_component_part(alloc, lines, place, property, index, part)? {
            return Ok(false);
        }
        place = place.saturating_add(1);
        rest = tail;
    }
    holds_component_part(alloc, lines, place, property, index, rest)
}

/// Whether the value is this text.
fn is_text(value: &ParamValue, text: &str) -> bool
    ensures { IsTrue result → value.now.text ≡ text.now }
{
    value.text.as_str() == text
}

/// Whether the values are these texts.
fn are_texts(values: &[ParamValue], texts: &[&str]) -> bool
    ensures { IsTrue result → (map (λ value. value.text) values.now
        ≡ map (λ text. text.now) texts.now) }
{
    if values.len() != texts.len() {
        return false;
    }
    for place in 0..texts.len() {
        if !is_text(&values[place], texts[place]) {
            return false;
        }
    }
    true
}

/// Whether the parameter is a TYPE with these values.
fn is_type_param(param: &Param, types: &[&str]) -> bool
    ensures { IsTrue result → (param.now.name ≡ codes "TYPE")
        × (map (λ value. value.text) param.now.values ≡ map (λ text. text.now) types.now) }
{
    param.name.as_str() == "TYPE" && are_texts(param.values.as_slice(), types)
}

/// Whether the line has a parameter TYPE with these values.
fn has_types(line: &Line, types: &[&str]) -> bool
    ensures { IsTrue result → has_types (map (λ text. text.now) types.now) line.now }
{
    for place in 0..line.params.len() {
        if is_type_param(&line.params.as_slice()[place], types) {
            return true;
        }
    }
    false
}

/// The label without Google's mark of a preferred value.
fn plain_label(text: &str) -> &str
    ensures { IsLabel text.now result.now }
{
    match without_star(text) {
        Some(label) => label,
        None => text,
    }
}

/// Whether the line at the index has the types that the label is, or is named as the label.
fn has_label(lines: &[Line], home: usize, label: &str) -> bool
    ensures { IsTrue result → IsLabelHeld label.now lines.now }
{
    if home >= lines.len() {
        return false;
    }
    let line = &lines[home];
    let types = label_types(label);
    if !types.is_empty() && has_types(line, types) {
        return true;
    }
    line.name.as_str().eq_ignore_ascii_case(label)
}

/// Whether the line at the index has the label of the cell: as its types, as its name, or as the
/// text of X-ABLABEL.
pub(crate) fn holds_label(
    alloc: Global,
    lines: &[Line],
    home: usize,
    cell: &str,
) -> Result<bool, NoMemory>
    ensures { IfOk result (λ holds. IsTrue holds → (label : List ℕ)
        × IsLabel cell.now label × IsLabelHeld label lines.now) }
{
    let label = plain_label(cell);
    if has_label(lines, home, label) {
        return Ok(true);
    }
    holds_text(alloc, lines, home, "X-ABLABEL", label)
}

/// Whether the name is that of a property with a date.
fn is_date_name(name: &str) -> bool
    ensures { result ≡ is_date_name name.now }
{
    name == "BDAY" || name == "ANNIVERSARY"
}

/// Whether the column has dates, and the line at the index is a date.
pub(crate) fn is_dated(lines: &[Line], home: usize, property: &str) -> bool
    ensures column { IsTrue result → is_date_column property.now ≡ true }
    ensures line { IsTrue result → list_any (λ line. is_date_name line.name) lines.now ≡ true }
{
    if !is_date_name(property) && property != "X-ABDATE" {
        return false;
    }
    home < lines.len() && is_date_name(lines[home].name.as_str())
}

/// Whether the line at the index has the text, and is a date that is a text, and the column has
/// dates.
pub(crate) fn holds_date_text(
    alloc: Global,
    lines: &[Line],
    home: usize,
    property: &str,
    text: &str,
) -> Result<bool, NoMemory>
    ensures column { IfOk result (λ holds. IsTrue holds → is_date_column property.now ≡ true) }
    ensures line { IfOk result (λ holds. IsTrue holds → list_any (λ line. is_date_name line.name
        && has_text text.now line) lines.now ≡ true) }
{
    if !is_date_text(lines, home, property) || home >= lines.len() {
        return Ok(false);
    }
    let line = &lines[home];
    if !is_date_name(line.name.as_str()) {
        return Ok(false);
    }
    has_text(alloc, line, text)
}

/// Whether the line at the index is a date that is a text, and the column has dates.
pub(crate) fn is_date_text(lines: &[Line], home: usize, property: &str) -> bool
    ensures { IsTrue result → is_date_column property.now ≡ true }
{
    if !is_dated(lines, home, property) {
        return false;
    }
    match lines.get(home) {
        Some(line) => line
            .params
            .as_slice()
            .iter()
            .any(|it| it.name.as_str() == "VALUE"),
        None => false,
    }
}
