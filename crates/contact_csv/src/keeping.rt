//! Keeps aside what the lines of a row don't hold, and reports it.
ghost use Rattle.std.specs.Prelude.{◌≡◌, ◌≢◌, ◌∷◌, ◌++◌, [], ℕ, List, IfOk, OnOk, string_bytes};
ghost use Rattle.std.specs.Prelude.{length, map, codes, get_or, IsTrue};
ghost use Rattle.vcard_lines.specs.TextValues.{escaped_value};
ghost use Rattle.vcard_text.specs.Making.{upper_line, upper_lines};
ghost use Rattle.vcard_changes.specs.declared.change.Change.{Change};
ghost use Rattle.contact_csv.specs.Carrying.{IsCarried, IsAsideName, change};
ghost use Rattle.contact_csv.specs.Carrying.{column_at, extra_column};
ghost use Rattle.contact_csv.specs.internal.Keeping.{BeginsWithUid, IsCarriedWhole, KeepsAside};
ghost use Rattle.contact_csv.specs.internal.Keeping.{IsComponentCarried};
ghost use Rattle.contact_csv.specs.internal.Keeping.{KeepsCell, Keeps, ReportsOnly};

use crate::carried::{
    holds_component, holds_components, holds_date_text, holds_label, holds_parts, holds_text,
    is_date_text, is_dated,
};
use crate::uid::is_uid_column;
use contact_columns::{Column, component_of, is_void, row_field};
use contact_values::{JOINER, RowLines};
use csv::ByteRecord;
use std::alloc::Global;
use vcard_changes::{Change, ChangeKind, plain_line, with_upper_name};
use vcard_text::{Items, Line, NoMemory, Text, escape};

/// The lines of a card and the changes so far.
#[derive(Drop)]
pub(crate) struct Kept {
    pub(crate) lines: Items<Line>,
    pub(crate) changes: Items<Change>,
}

/// The line of the UID, and then the lines with their names in upper case.
fn lines_with_uid(alloc: Global, uid: String, lines: Items<Line>) -> Result<Items<Line>, NoMemory>
    ensures { IfOk result (λ made. BeginsWithUid (string_bytes uid) made) }
{
    let mut made = Items::new(alloc);
    made.push(plain_line(alloc, "UID", uid)?)?;
    for line in lines.into_vec() {
        made.push(with_upper_name(line))?;
    }
    Ok(made)
}

/// A character of a name of a property.
fn name_char(c: char) -> char {
    if c.is_ascii_alphanumeric() { c } else { '-' }
}

/// The name of the property that keeps a cell of the column: `X-` and the column's name.
fn extension_name(alloc: Global, column: &str) -> Result<String, NoMemory>
    ensures { IfOk result (λ name. IsAsideName (string_bytes name)) }
{
    let mut rest = String::new(alloc);
    for c in column.chars() {
        rest.push(name_char(c))?;
    }
    let mut name = String::from_str(alloc, "X-")?;
    name.push_str(rest.as_str())?;
    Ok(name)
}

/// The line that keeps a cell.
fn extension_line(alloc: Global, column: &str, text: &str) -> Result<Line, NoMemory>
    ensures name { IfOk result (λ line. IsAsideName line.name) }
    ensures value { IfOk result (λ line. line.value ≡ escaped_value text.now) }
    ensures upper { IfOk result (λ line. upper_line line ≡ line) }
{
    let name = extension_name(alloc, column)?;
    let value = escape(alloc, text)?;
    Ok(with_upper_name(plain_line(alloc, name.as_str(), value)?))
}

/// Whether a void text (see `is_void`) stands for no value in a column of the property, which is
/// empty if it isn't known: Google's `* ` does in one of labels, and Outlook's `0/0/00` and
/// `0.0.00` do in one of dates.
fn is_no_value(property: &str, text: &str) -> bool {
    match text {
        "* " => matches!(property, "" | "X-ABLABEL"),
        "0/0/00" | "0.0.00" => matches!(property, "" | "BDAY" | "ANNIVERSARY" | "X-ABDATE"),
        _ => true,
    }
}

/// Whether the lines carry the cell of the column as it is.
fn is_carried(
    alloc: Global,
    lines: &[Line],
    home: usize,
    column: &Column,
    text: &str,
) -> Result<bool, NoMemory>
    ensures { IfOk result (λ carried. IsTrue carried → (place : ℕ) (changes : List Change)
        → IsCarried column.now place text.now lines.now changes) }
{
    if column.is_left_out {
        return Ok(true);
    }
    let property = column.property.as_str();
    if is_void(text) {
        return Ok(is_no_value(property, text));
    }
    if property == "X-ABLABEL" {
        return holds_label(alloc, lines, home, text);
    }
    match component_of(property, column.known.as_str()) {
        Some(index) => is_component_carried(alloc, lines, home, property, index, text),
        None => is_carried_whole(alloc, lines, home, property, text),
    }
}

/// Whether the cell has several addresses, as Google writes them.
fn are_addresses(property: &str, text: &str) -> bool
    ensures { IsTrue result → property.now ≡ codes "ADR" }
{
    property == "ADR" && text.contains(JOINER)
}

/// Whether the lines carry the text, which is the component at the index. If it has several
/// addresses, each of them must be a line.
fn is_component_carried(
    alloc: Global,
    lines: &[Line],
    home: usize,
    property: &str,
    index: usize,
    text: &str,
) -> Result<bool, NoMemory>
    ensures { IfOk result (λ carried. IsTrue carried
        → IsComponentCarried property.now index text.now lines.now) }
{
    if are_addresses(property, text) {
        return holds_components(alloc, lines, home, property, index, text);
    }
    holds_component(alloc, lines, home, property, index, text)
}

/// Whether the lines carry the text, which is no component. If it has several addresses, each of
/// them must be a line.
fn is_carried_whole(
    alloc: Global,
    lines: &[Line],
    home: usize,
    property: &str,
    text: &str,
) -> Result<bool, NoMemory>
    ensures { IfOk result (λ carried. IsTrue carried
        → IsCarriedWhole property.now text.now lines.now) }
{
    if !are_addresses(property, text) && holds_text(alloc, lines, home, property, text)? {
        return Ok(true);
    }
    if holds_parts(alloc, lines, home, property, text, " ::: ")? {
        return Ok(true);
    }
    if property != "CATEGORIES" {
        return Ok(false);
    }
    holds_parts(alloc, lines, home, property, text, ";")
}

impl Kept {
    /// Reports the cell at the index of the row.
    fn report(&mut self, place: usize, kind: ChangeKind) -> Result<(), NoMemory>
        ensures lines { OnOk result (self.new.lines ≡ self.old.lines) }
        ensures changes { OnOk result (self.new.changes
            ≡ self.old.changes ++ change place kind ∷ []) }
    {
        self.changes.push(Change { place, kind })?;
        Ok(())
    }

    /// Reports a cell with a date that is kept as a text.
    fn report_text(&mut self, column: &Column, place: usize, home: usize) -> Result<(), NoMemory>
        ensures { OnOk result (ReportsOnly self.old self.new) }
    {
        if is_date_text(self.lines.as_slice(), home, column.property.as_str()) {
            return self.report(place, ChangeKind::Unreadable);
        }
        Ok(())
    }

    /// Appends a line that keeps the cell, and reports it.
    fn keep_aside(
        &mut self,
        alloc: Global,
        column: &str,
        place: usize,
        text: &str,
    ) -> Result<(), NoMemory>
        ensures { OnOk result (KeepsAside place text.now self.old self.new) }
    {
        let line = extension_line(alloc, column, text)?;
        self.lines.push(line)?;
        self.report(place, ChangeKind::KeptAside)
    }

    /// Keeps the cell aside or reports it, unless the lines carry it as it is.
    fn keep_cell(
        &mut self,
        alloc: Global,
        column: &Column,
        place: usize,
        text: &str,
        home: usize,
    ) -> Result<(), NoMemory>
        ensures { OnOk result
            (KeepsCell column.now place text.now self.old self.new) }
    {
        let lines = self.lines.as_slice();
        if is_carried(alloc, lines, home, column, text)? {
            return self.report_text(column, place, home);
        }
        let property = column.property.as_str();
        if holds_date_text(alloc, lines, home, property, text)? {
            return self.report(place, ChangeKind::Unreadable);
        }
        if is_dated(lines, home, property) {
            return self.report(place, ChangeKind::Rewritten);
        }
        self.keep_aside(alloc, column.name.as_str(), place, text)
    }
}

/// Whether the cell has a control character that its text has as a space (see `cell_text`).
fn has_controls(octets: &[u8]) -> bool {
    octets.iter().any(|octet| octet.is_ascii_control() && !matches!(*octet, b'\t' | b'\n' | b'\r'))
}

/// Whether the user leaves the column at the index out.
fn is_left_out(columns: &[Column], place: usize) -> bool {
    columns
        .get(place)
        .map_or(false, |column| column.is_left_out)
}

impl Kept {
    /// Reports each cell with a control character that became a space.
    fn report_controls(&mut self, columns: &[Column], row: &ByteRecord) -> Result<(), NoMemory>
        ensures { OnOk result (ReportsOnly self.old self.new) }
    {
        for place in 0..row.len() {
            if has_controls(row_field(row, place)) && !is_left_out(columns, place) {
                self.report(place, ChangeKind::Rewritten)?;
            }
        }
        Ok(())
    }
}

/// The column of cells to which the header gives none.
pub(crate) fn extra_column(alloc: Global) -> Result<Column, NoMemory>
    ensures { IfOk result (λ column. column ≡ extra_column) }
{
    Ok(Column {
        name: Text::copy_of(alloc, "COLUMN")?,
        known: Text::copy_of(alloc, "COLUMN")?,
        property: Text::copy_of(alloc, "")?,
        is_left_out: false,
    })
}

/// The index of the line that should hold the cell of the column: that of the UID, or one after it.
fn home_of(homes: &[usize], column: &Column, place: usize) -> usize {
    if is_uid_column(column) {
        return 0;
    }
    match homes.get(place) {
        Some(home) => home.saturating_add(1),
        None => 0,
    }
}

/// The column at the index, or the extra one.
pub(crate) fn column_at<'a>(columns: &'a [Column], place: usize, extra: &'a Column) -> &'a Column
    requires { extra.now ≡ extra_column }
    ensures { result.now ≡ column_at columns.now place }
{
    if place < columns.len() {
        return &columns[place];
    }
    extra
}

/// The lines of the card with this UID, and the changes: those of the draft, and a line for each
/// cell that they don't hold. `extra` is the column of cells to which the header gives none.
fn keep_cells(
    alloc: Global,
    columns: &[Column],
    extra: &Column,
    uid: String,
    cells: &[Text],
    draft: RowLines,
) -> Result<Kept, NoMemory>
    requires { extra.now ≡ extra_column }
    ensures { IfOk result (λ made. Keeps (string_bytes uid) columns.now cells.now
        (length cells.now) made) }
{
    let RowLines {
        lines,
        homes,
        groups: _,
        dates: _,
    } = draft;
    let mut made = Kept {
        lines: lines_with_uid(alloc, uid, lines)?,
        changes: Items::new(alloc),
    };
    for place in 0..cells.len() {
        let column = column_at(columns, place, extra);
        let home = home_of(homes.as_slice(), column, place);
        made.keep_cell(alloc, column, place, cells[place].as_str(), home)?;
    }
    Ok(made)
}

/// What is kept of a row whose cells have these texts, and what is reported of it. A control
/// character of a cell that its text has as a space is reported, too.
pub(crate) fn keep_row(
    alloc: Global,
    columns: &[Column],
    extra: &Column,
    uid: String,
    row: &ByteRecord,
    cells: &[Text],
    draft: RowLines,
) -> Result<Kept, NoMemory>
    requires { extra.now ≡ extra_column }
    ensures { IfOk result (λ made. Keeps (string_bytes uid) columns.now cells.now
        (length cells.now) made) }
{
    let mut made = keep_cells(alloc, columns, extra, uid, cells, draft)?;
    made.report_controls(columns, row)?;
    Ok(made)
}
