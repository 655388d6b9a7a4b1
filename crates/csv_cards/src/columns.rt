//! Converts a row of columns into property lines.
ghost use Rattle.std.specs.Prelude.{◌≡◌, ◌++◌, ◌∷◌, [], IfOk, OnOk, IsTrue, string_bytes};
ghost use Rattle.std.specs.Str.{chars, encode_utf8_all};
ghost use Rattle.csv.specs.Records.{AllText, fields_of};
ghost use Rattle.csv_cards.specs.Columns.{column, column_lines, nonempty_line, nonempty_name_line};
ghost use Rattle.csv_cards.specs.Columns.{name_value, plain_line, with_lf_line_ends};
ghost use Rattle.csv_cards.specs.Rows.{row_field};
ghost use Rattle.csv_cards.specs.internal.LineEnds.{flushed_text, flush_return, append_char};
ghost use Rattle.csv_cards.specs.internal.LineEnds.{line_end_state};

use crate::records::row_field;
use csv::ByteRecord;
use std::alloc::Global;
use vcard_text::{Items, Line, NoMemory, Text, escape};

/// Appends the carriage return that was held back, unless a line feed follows.
fn flush_return(text: &mut String, is_held: bool, c: char) -> Result<(), NoMemory>
    ensures { OnOk result (string_bytes text.new
        ≡ flush_return (line_end_state (string_bytes text.old) is_held) c) }
{
    if is_held && c != '\n' {
        text.push('\r')?;
    }
    Ok(())
}

/// Appends a character to the text so far. A carriage return is held back until the next character
/// is known.
fn append_char(text: &mut String, is_held: &mut bool, c: char) -> Result<(), NoMemory>
    ensures { OnOk result (line_end_state (string_bytes text.new) is_held.new
        ≡ append_char (line_end_state (string_bytes text.old) is_held.old) c) }
{
    flush_return(text, *is_held, c)?;
    if c == '\r' {
        *is_held = true;
        return Ok(());
    }
    *is_held = false;
    text.push(c)?;
    Ok(())
}

/// Finishes the text: appends a carriage return that was held back.
fn end_text(text: &mut String, is_held: bool) -> Result<(), NoMemory>
    ensures { OnOk result (string_bytes text.new ≡ flushed_text
        (line_end_state (string_bytes text.old) is_held)) }
{
    if is_held {
        text.push('\r')?;
    }
    Ok(())
}

/// The text without the carriage returns that come directly before a line feed.
fn with_lf_line_ends(alloc: Global, text: &str) -> Result<String, NoMemory>
    ensures { IfOk result (λ plain. string_bytes plain
        ≡ encode_utf8_all (with_lf_line_ends (chars text.now))) }
{
    let mut plain = String::new(alloc);
    let mut is_held = false;
    for c in text.chars() {
        append_char(&mut plain, &mut is_held, c)?;
    }
    end_text(&mut plain, is_held)?;
    Ok(plain)
}

/// The field at the index, with CRLF replaced by LF.
pub(crate) fn column(alloc: Global, row: &ByteRecord, place: usize) -> Result<String, NoMemory>
    requires { AllText (fields_of row.now) }
    ensures { IfOk result (λ text. string_bytes text ≡ column (fields_of row.now) place) }
{
    match str::from_utf8(row_field(row, place)) {
        Ok(text) => with_lf_line_ends(alloc, text),
        Err(_) => Err(NoMemory),
    }
}

/// A line without group and parameters.
fn plain_line(alloc: Global, name: &str, value: String) -> Result<Line, NoMemory>
    ensures { IfOk result (λ line. line ≡ plain_line name.now (string_bytes value)) }
{
    Ok(Line {
        group: None,
        name: Text::copy_of(alloc, name)?,
        params: Items::new(alloc),
        value: Text::new(value),
    })
}

/// Appends a line with the name and the escaped text, unless the text is empty.
fn push_text(alloc: Global, lines: &mut Vec<Line>, name: &str, text: &str) -> Result<(), NoMemory>
    ensures { OnOk result (lines.new.items ≡ lines.old.items ++ nonempty_line name.now text.now) }
{
    if text.is_empty() {
        return Ok(());
    }
    lines.push(plain_line(alloc, name, escape(alloc, text)?)?)?;
    Ok(())
}

/// The value of the N line. Its other three components are empty.
fn name_value(alloc: Global, family: &str, given: &str) -> Result<String, NoMemory>
    ensures { IfOk result (λ value. string_bytes value ≡ name_value family.now given.now) }
{
    let mut value = escape(alloc, family)?;
    value.push_str(";")?;
    value.push_str(escape(alloc, given)?.as_str())?;
    value.push_str(";;;")?;
    Ok(value)
}

/// Appends the N line with the family and given names, unless both are empty.
fn push_name(
    alloc: Global,
    lines: &mut Vec<Line>,
    family: &str,
    given: &str,
) -> Result<(), NoMemory>
    ensures { OnOk result (lines.new.items
        ≡ lines.old.items ++ nonempty_name_line family.now given.now) }
{
    if family.is_empty() && given.is_empty() {
        return Ok(());
    }
    lines.push(plain_line(alloc, "N", name_value(alloc, family, given)?)?)?;
    Ok(())
}

/// The property lines that the row's columns describe.
pub(crate) fn column_lines(alloc: Global, row: &ByteRecord) -> Result<Vec<Line>, NoMemory>
    requires { AllText (fields_of row.now) }
    ensures { IfOk result (λ lines. lines.items ≡ column_lines (fields_of row.now)) }
{
    let mut lines = Vec::new(alloc);
    lines.push(plain_line(alloc, "UID", column(alloc, row, 0)?)?)?;
    let name = escape(alloc, column(alloc, row, 1)?.as_str())?;
    lines.push(plain_line(alloc, "FN", name)?)?;
    let family = column(alloc, row, 2)?;
    let given = column(alloc, row, 3)?;
    push_name(alloc, &mut lines, family.as_str(), given.as_str())?;
    push_column(alloc, &mut lines, "EMAIL", row, 4)?;
    push_column(alloc, &mut lines, "TEL", row, 5)?;
    push_column(alloc, &mut lines, "ORG", row, 6)?;
    push_column(alloc, &mut lines, "NOTE", row, 7)?;
    Ok(lines)
}

/// Appends a line with the name and the text of the column, unless that is empty.
fn push_column(
    alloc: Global,
    lines: &mut Vec<Line>,
    name: &str,
    row: &ByteRecord,
    place: usize,
) -> Result<(), NoMemory>
    requires { AllText (fields_of row.now) }
    ensures { OnOk result (lines.new.items
        ≡ lines.old.items ++ nonempty_line name.now (column (fields_of row.now) place)) }
{
    let text = column(alloc, row, place)?;
    push_text(alloc, lines, name, text.as_str())
}
