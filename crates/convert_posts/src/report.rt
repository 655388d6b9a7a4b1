//! The lines of a report.

use crate::part::ReportLine;
use crate::row_list::Origin;
use base_types::{Items, NoMemory, Text};
use std::alloc::Global;

/// The number of the card or row and what is after it; 0 for a text that is no card.
fn card_in(line: &str) -> Option<(u64, &str)> {
    let rest = line.strip_prefix("card ").or(line.strip_prefix("row "));
    match rest {
        Some(rest) => {
            let (number, rest) = rest.split_once(", line ")?;
            Some((number.parse::<u64>().unwrap_or(0), rest))
        }
        None => Some((0, line.strip_prefix("line ")?)),
    }
}

/// The numbers of the card and of the line, and what is said.
fn parts_of(line: &str) -> Option<(u64, u64, &str)> {
    let (card, rest) = card_in(line)?;
    let (number, words) = rest.split_once(": ")?;
    Some((card, number.parse::<u64>().unwrap_or(0), words))
}

/// The line of the report that says this of a part.
fn report_line(
    alloc: Global,
    origin: Origin,
    parts: (u64, u64, &str),
) -> Result<ReportLine, NoMemory> {
    let (card, line, words) = parts;
    Ok(ReportLine {
        card: if card == 0 { 0 } else { origin.card_at(card) },
        line: origin.line_after(line.saturating_sub(1)),
        text: Text::copy_of(alloc, words)?,
    })
}

/// The lines of a report that has all of them, as the file of a `Report` gets it: `card 1, line 2:
/// ..`, `row 1, line 2: ..` or `line 2: ..`.
pub(crate) fn report_lines(
    alloc: Global,
    origin: Origin,
    report: &[u8],
) -> Result<Items<ReportLine>, NoMemory> {
    let mut lines = Items::new(alloc);
    let Ok(text) = str::from_utf8(report) else {
        return Ok(lines);
    };
    for line in text.lines() {
        if let Some(parts) = parts_of(line) {
            lines.push(report_line(alloc, origin, parts)?)?;
        }
    }
    Ok(lines)
}

/// The line of the report for a card or row that isn't converted, for this reason, and comes after
/// this many line feeds.
pub(crate) fn passed_line(
    alloc: Global,
    origin: Origin,
    feeds: u64,
    words: &str,
) -> Result<ReportLine, NoMemory> {
    report_line(alloc, origin, (1, feeds.saturating_add(1), words))
}
