//! The lines of the report: one for each row with a cell that no property holds, and one for each
//! row that isn't carried; and for the file of the report one for each cell.

use crate::contacts::broken_lines::BrokenLines;
use crate::contacts::fate::RowFate;
use base_types::NoMemory;
use contact_csv::{Column, RowFault};
use convert_report::{ConversionFault, FormKind, Parts, Report, Weight, guess_words, lost_words};
use std::alloc::Global;
use std::io::Write;
use vcard_changes::{Change, ChangeKind, Conversion};
use vcard_text::Line;

/// Where a row is: its number without the header, its first line in the file, and the line after
/// it, all from 1; and whether it is a broken one that may have a cell of too many lines.
#[derive(Clone, Copy)]
pub(crate) struct RowPlace {
    pub(crate) row: u64,
    pub(crate) line: u64,
    pub(crate) end: u64,
    pub(crate) may_be_long: bool,
}

/// The most characters of a name in a report.
const NAME_CHARS_MAX: usize = 60;

/// The front of a name, with spaces for control characters.
fn shown_name(alloc: Global, name: &str) -> Result<String, NoMemory> {
    let mut shown = String::new(alloc);
    for c in name.chars().take(NAME_CHARS_MAX) {
        shown.push(if c.is_control() { ' ' } else { c })?;
    }
    Ok(shown)
}

/// The name of the column at the index, or its number if it has none.
fn column_name(alloc: Global, columns: &[Column], place: usize) -> Result<String, NoMemory> {
    match columns.get(place) {
        Some(column) if !column.name.is_empty() => shown_name(alloc, column.name.as_str()),
        _ => {
            let number = (place as u64).saturating_add(1);
            Ok(format!(in alloc; "column {number}")?)
        }
    }
}

/// The lines at the end of the card that keep cells aside, in the order of the changes.
fn aside_lines(conversion: &Conversion) -> &[Line] {
    let lines = conversion.card.lines();
    let count = conversion
        .changes
        .as_slice()
        .iter()
        .filter(|change| change.kind == ChangeKind::KeptAside)
        .count();
    lines
        .get(lines.len().saturating_sub(count)..)
        .unwrap_or(&[])
}

/// The words for a change of the cell of a column, such as `kept as X-GENDER`.
fn change_words(alloc: Global, aside: &mut &[Line], change: &Change) -> Result<String, NoMemory> {
    if change.kind == ChangeKind::KeptAside {
        if let Some((line, rest)) = aside.split_first() {
            *aside = rest;
            let kept = shown_name(alloc, line.name.as_str())?;
            return Ok(format!(in alloc; "kept as {kept}")?);
        }
    }
    if change.kind == ChangeKind::Unreadable {
        return Ok(String::from_str(alloc, "kept as text: its day, month or year isn't certain")?);
    }
    let kind = change.kind;
    Ok(format!(in alloc; "{kind}")?)
}

/// The line for a row, with these words.
fn row_line(alloc: Global, place: RowPlace, words: &str) -> Result<String, NoMemory> {
    let row = place.row;
    let line = place.line;
    Ok(format!(in alloc; "row {row}, line {line}: {words}")?)
}

/// Whether the change is one of form: the cell is written as vCard 4.0 writes it.
fn is_form(change: &Change) -> bool {
    change.kind == ChangeKind::Rewritten
}

/// Reports one cell: a change of form is counted, and one of content is a part of the row's line.
fn report_cell<E: Write, T: Write>(
    alloc: Global,
    place: RowPlace,
    name: &str,
    words: &str,
    is_form: bool,
    parts: &mut Parts,
    report: &mut Report<E, T>,
) -> Result<(), ConversionFault> {
    let text = format!(in alloc; "the cell of {name} {words}")?;
    report.list_line(alloc, row_line(alloc, place, text.as_str())?.as_str())?;
    if is_form {
        report.count(alloc, FormKind::Cell, name)?;
    } else {
        parts.add(Weight::Moved, text.as_str())?;
    }
    Ok(())
}

/// Reports the cells of a row.
fn report_cells<E: Write, T: Write>(
    alloc: Global,
    place: RowPlace,
    columns: &[Column],
    conversion: &Conversion,
    parts: &mut Parts,
    report: &mut Report<E, T>,
) -> Result<(), ConversionFault> {
    let mut aside = aside_lines(conversion);
    if !aside.is_empty() {
        report.count_aside();
    }
    for change in conversion.changes.as_slice() {
        let name = column_name(alloc, columns, change.place)?;
        let words = change_words(alloc, &mut aside, change)?;
        let is_form = is_form(change);
        report_cell(
            alloc,
            place,
            name.as_str(),
            words.as_str(),
            is_form,
            parts,
            report,
        )?;
    }
    Ok(())
}

/// Reports the card of a row.
fn report_card<E: Write, T: Write>(
    alloc: Global,
    place: RowPlace,
    columns: &[Column],
    conversion: &Conversion,
    report: &mut Report<E, T>,
) -> Result<(), ConversionFault> {
    let mut parts = Parts::new(alloc);
    report_cells(alloc, place, columns, conversion, &mut parts, report)?;
    if let Some(words) = lost_words(alloc, conversion.card.lines())? {
        report.list_line(alloc, row_line(alloc, place, words.as_str())?.as_str())?;
        parts.add(Weight::Lost, words.as_str())?;
    }
    if parts.is_empty() {
        return Ok(());
    }
    let text = parts.text(alloc)?;
    report.write_line(
        alloc,
        parts.weight,
        row_line(alloc, place, text.as_str())?.as_str(),
    )
}

/// Reports a row that isn't carried, with the reason in words.
fn report_refused<E: Write, T: Write>(
    alloc: Global,
    place: RowPlace,
    why: &str,
    report: &mut Report<E, T>,
) -> Result<(), ConversionFault> {
    let words = format!(in alloc; "not carried: {why}")?;
    let line = row_line(alloc, place, words.as_str())?;
    report.write_to_both(alloc, Weight::NotCarried, line.as_str())
}

/// Lists a row of which a broken row before it speaks.
fn list_refused<E: Write, T: Write>(
    alloc: Global,
    place: RowPlace,
    why: &str,
    report: &mut Report<E, T>,
) -> Result<(), ConversionFault> {
    let words = format!(in alloc; "not carried: {why}")?;
    report.list_line(alloc, row_line(alloc, place, words.as_str())?.as_str())
}

/// Why a row of this number of cells isn't carried.
fn width_words(alloc: Global, cells: usize, columns: &[Column]) -> Result<String, NoMemory> {
    let things = if cells == 1 { "cell" } else { "cells" };
    let cells = cells as u64;
    let columns = columns.len() as u64;
    Ok(format!(in alloc; "the row has {cells} {things} in place of {columns}")?)
}

/// Why a row isn't carried whose cells are the names of the columns.
const HEADER_AGAIN: &str = "it is the header again";

/// Why a row isn't carried whose card would be another one under the UID of an earlier card.
const TAKEN: &str = "an earlier file has another card under the same UID";

/// Why a row with a quote that isn't closed isn't carried.
const UNCLOSED: &str = "a quote isn't closed in its row";

/// Why a row with a quote that isn't closed within 200 lines isn't carried.
const LONG: &str = "a cell has more than 200 lines, or a quote isn't closed";

/// Why a broken row isn't carried.
fn broken_words(place: RowPlace) -> &'static str {
    if place.may_be_long { LONG } else { UNCLOSED }
}

/// Tells of the lines of a broken row, and of the rows after it that aren't carried either, if
/// there are some that weren't told.
pub(crate) fn report_broken<E: Write, T: Write>(
    alloc: Global,
    broken: &mut BrokenLines,
    report: &mut Report<E, T>,
) -> Result<(), ConversionFault> {
    let Some((place, lines)) = broken.take() else {
        return Ok(());
    };
    let why = broken_words(place);
    let words = if lines > 1 {
        format!(in alloc; "not carried: {why}, and {lines} lines are lost with it")?
    } else {
        format!(in alloc; "not carried: {why}")?
    };
    let line = row_line(alloc, place, words.as_str())?;
    report.write_line(alloc, Weight::NotCarried, line.as_str())
}

/// Reports a row of this number of cells. After a broken row it is mostly one of its lines.
fn report_width<E: Write, T: Write>(
    alloc: Global,
    place: RowPlace,
    cells: usize,
    columns: &[Column],
    broken: &mut BrokenLines,
    report: &mut Report<E, T>,
) -> Result<(), ConversionFault> {
    let why = width_words(alloc, cells, columns)?;
    if broken.is_open() {
        broken.add(place);
        return list_refused(alloc, place, why.as_str(), report);
    }
    report_refused(alloc, place, why.as_str(), report)
}

/// Reports a row that isn't converted. One without a value is no loss.
fn report_fault<E: Write, T: Write>(
    alloc: Global,
    place: RowPlace,
    columns: &[Column],
    fault: &RowFault,
    broken: &mut BrokenLines,
    report: &mut Report<E, T>,
) -> Result<(), ConversionFault> {
    match fault {
        RowFault::Empty => Ok(()),
        RowFault::Broken => {
            broken.begin(place);
            list_refused(alloc, place, broken_words(place), report)
        }
        RowFault::Nul(at) => {
            let name = column_name(alloc, columns, *at)?;
            let why = format!(in alloc; "the cell of {name} has a NUL")?;
            report_refused(alloc, place, why.as_str(), report)
        }
        RowFault::Width(cells) => { report_width(alloc, place, *cells, columns, broken, report) }
        RowFault::Header => report_refused(alloc, place, HEADER_AGAIN, report),
        RowFault::Card(fault) => {
            let why = format!(in alloc; "{fault}")?;
            report_refused(alloc, place, why.as_str(), report)
        }
    }
}

/// Reports a row with the cells of an earlier one.
fn report_repeated<E: Write, T: Write>(
    alloc: Global,
    place: RowPlace,
    report: &mut Report<E, T>,
) -> Result<(), ConversionFault> {
    report.count(alloc, FormKind::SameRow, "")?;
    let line = row_line(alloc, place, "an earlier row has the same cells")?;
    report.list_line(alloc, line.as_str())
}

/// Reports how many cells of a row were read as Windows-1252, if there are some.
pub(crate) fn report_guesses<E: Write, T: Write>(
    alloc: Global,
    place: RowPlace,
    count: u64,
    report: &mut Report<E, T>,
) -> Result<(), ConversionFault> {
    if count == 0 {
        return Ok(());
    }
    report.count_guessed_cells(count);
    let words = guess_words(alloc, count, "cell")?;
    report.list_line(alloc, row_line(alloc, place, words.as_str())?.as_str())
}

/// Reports what became of a row at the place. A broken row is told before the first row after it
/// that isn't one of its lines.
pub(crate) fn report_row<E: Write, T: Write>(
    alloc: Global,
    place: RowPlace,
    columns: &[Column],
    fate: &RowFate,
    broken: &mut BrokenLines,
    report: &mut Report<E, T>,
) -> Result<(), ConversionFault> {
    if !matches!(
        fate,
        RowFate::Refused(RowFault::Width(_) | RowFault::Broken)
    ) {
        report_broken(alloc, broken, report)?;
    }
    match fate {
        RowFate::Refused(fault) => report_fault(alloc, place, columns, fault, broken, report),
        RowFate::Repeated(_) => report_repeated(alloc, place, report),
        RowFate::Taken(_) => report_refused(alloc, place, TAKEN, report),
        RowFate::Declined(_, why) => report_refused(alloc, place, why.as_str(), report),
        RowFate::Written(conversion) => report_card(alloc, place, columns, conversion, report),
    }
}
