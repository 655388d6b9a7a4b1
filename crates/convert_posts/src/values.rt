//! Replies as JSON values.
ghost use Rattle.std.specs.Prelude.{◌≡◌, IfOk, OnOk, fold, map};
ghost use Rattle.serde_json.specs.Data.{no_members, put, string};
ghost use Rattle.serde_json.specs.View.{members_view, view};
ghost use Rattle.http_replies.specs.Objects.{json_number, with_number};
ghost use Rattle.convert_posts.specs.PartValues.{dates_word, kind_word, line_value, part_value};
ghost use Rattle.convert_posts.specs.PartValues.{row_value, unconverted_value};
ghost use Rattle.convert_posts.specs.internal.Members.{named_number, part_numbers, with_lists};
ghost use Rattle.convert_posts.specs.internal.Members.{with_words};

use crate::part::{CardRow, Dates, Kind, Part, ReportLine};
use crate::unconverted::Unconverted;
use base_types::NoMemory;
use serde_json::{Map, Value, json, put};
use std::alloc::Global;

/// The word for what a file has.
fn kind_word(kind: Kind) -> &'static str
    ensures { result.now ≡ kind_word kind }
{
    match kind {
        Kind::Cards => "cards",
        Kind::Contacts => "contacts",
        Kind::Rows => "rows",
    }
}

/// The word for what is known of dates.
fn dates_word(dates: Dates) -> &'static str
    ensures { result.now ≡ dates_word dates }
{
    match dates {
        Dates::Day => "day",
        Dates::Month => "month",
        Dates::Unknown => "unknown",
        Dates::None => "none",
    }
}

/// `{"card":1,"line":2,"text":".."}`
fn line_value(alloc: Global, line: &ReportLine) -> Result<Value, NoMemory>
    ensures { IfOk result (λ value. view value ≡ line_value line.now) }
{
    let (card, number, text) = (line.card, line.line, line.text.as_str());
    Ok(json!(in alloc; {"card": card, "line": number, "text": text})?)
}

/// The lines of a report.
fn line_values(alloc: Global, lines: &[ReportLine]) -> Result<Vec<Value>, NoMemory>
    ensures { IfOk result (λ values. map view values.items ≡ map line_value lines.now) }
{
    let mut values = Vec::new(alloc);
    for line in lines {
        let value = line_value(alloc, line)?;
        values.push(value)?;
    }
    Ok(values)
}

/// `{"card":1,"line":1,"uid":"..","vcard":".."}`
fn row_value(alloc: Global, row: &CardRow) -> Result<Value, NoMemory>
    ensures { IfOk result (λ value. view value ≡ row_value row.now) }
{
    let (card, line) = (row.card, row.line);
    let (uid, vcard) = (row.uid.as_str(), row.vcard.as_str());
    Ok(json!(in alloc; {"card": card, "line": line, "uid": uid, "vcard": vcard})?)
}

/// The cards that were written.
fn row_values(alloc: Global, rows: &[CardRow]) -> Result<Vec<Value>, NoMemory>
    ensures { IfOk result (λ values. map view values.items ≡ map row_value rows.now) }
{
    let mut values = Vec::new(alloc);
    for row in rows {
        let value = row_value(alloc, row)?;
        values.push(value)?;
    }
    Ok(values)
}

/// Adds a number under its name.
fn put_number(
    members: &mut Map<String, Value>,
    alloc: Global,
    name: &str,
    number: u64,
) -> Result<(), NoMemory>
    ensures { OnOk result (members_view members.new.entries
        ≡ put name.now (json_number number) (members_view members.old.entries)) }
{
    Ok(put(members, alloc, name, Value::from(number))?)
}

/// Adds a text under its name.
fn put_text(
    members: &mut Map<String, Value>,
    alloc: Global,
    name: &str,
    text: &str,
) -> Result<(), NoMemory>
    ensures { OnOk result (members_view members.new.entries
        ≡ put name.now (string text.now) (members_view members.old.entries)) }
{
    let text = String::from_str(alloc, text)?;
    Ok(put(members, alloc, name, Value::String(text))?)
}

/// The numbers of a part, by name.
fn part_numbers(part: &Part) -> [(&'static str, u64); 7]
    ensures { map named_number result ≡ part_numbers part.now }
{
    let summary = part.summary;
    [
        ("card", part.card),
        ("changed", summary.changed),
        ("header", part.header as u64),
        ("line", part.line),
        ("not_carried", summary.refused),
        ("taken", part.taken as u64),
        ("written", summary.written),
    ]
}

/// The members with the numbers of a part.
fn number_members(alloc: Global, rows: &[(&str, u64)]) -> Result<Map<String, Value>, NoMemory>
    ensures { IfOk result (λ members. members_view members.entries
        ≡ fold with_number no_members (map named_number rows.now)) }
{
    let mut members = Map::new(alloc);
    for (name, number) in rows {
        put_number(&mut members, alloc, name, *number)?;
    }
    Ok(members)
}

/// Adds the words of a part.
fn put_words(members: &mut Map<String, Value>, alloc: Global, part: &Part) -> Result<(), NoMemory>
    ensures { OnOk result (members_view members.new.entries
        ≡ with_words part.now (members_view members.old.entries)) }
{
    put_text(members, alloc, "columns", part.columns.as_str())?;
    put_text(members, alloc, "dates", dates_word(part.dates))?;
    put_text(members, alloc, "kind", kind_word(part.kind))
}

/// Adds the lists of a part.
fn put_lists(members: &mut Map<String, Value>, alloc: Global, part: &Part) -> Result<(), NoMemory>
    ensures { OnOk result (members_view members.new.entries
        ≡ with_lists part.now (members_view members.old.entries)) }
{
    let report = line_values(alloc, part.report.as_slice())?;
    put(members, alloc, "report", Value::Array(report))?;
    let rows = row_values(alloc, part.rows.as_slice())?;
    Ok(put(members, alloc, "rows", Value::Array(rows))?)
}

/// The value of a part. Its members are added one kind after another: one object with all twelve is
/// too much for the prover.
pub(crate) fn part_value(alloc: Global, part: &Part) -> Result<Value, NoMemory>
    ensures { IfOk result (λ value. view value ≡ part_value part.now) }
{
    let mut members = number_members(alloc, &part_numbers(part))?;
    put_words(&mut members, alloc, part)?;
    put_lists(&mut members, alloc, part)?;
    Ok(Value::Object(members))
}

/// `{"columns":"..","fault":"not-converted","number":35,"text":".."}`
pub(crate) fn unconverted_value(alloc: Global, fault: &Unconverted) -> Result<Value, NoMemory>
    ensures { IfOk result (λ value. view value ≡ unconverted_value fault.now) }
{
    let (columns, text) = (fault.columns.as_str(), fault.text.as_str());
    let number: u64 = 35;
    Ok(json!(in alloc; {
        "columns": columns,
        "fault": "not-converted",
        "number": number,
        "text": text
    })?)
}
