//! The lines above the header: which of them are counted, and what is said of them.
ghost use Rattle.std.specs.Prelude.{◌≡◌};
ghost use Rattle.card_conversion.specs.AboveLines.{with_line_above, with_lines_above};

use contact_csv::AboveLine;
use convert_report::{ConversionFault, Report, Summary, Weight};
use std::alloc::Global;
use std::io::Write;

/// Counts a line above the header, if it may be a person.
fn count_line(summary: &mut Summary, line: AboveLine)
    ensures { summary.new ≡ with_line_above summary.old line }
{
    match line {
        AboveLine::Row => summary.refused = summary.refused.saturating_add(1),
        AboveLine::Blank | AboveLine::Note => {}
    }
}

/// Counts each line above the header that may be a person as one that isn't carried.
pub(crate) fn count_above(summary: &mut Summary, lines: &[AboveLine])
    ensures { summary.new ≡ with_lines_above summary.old lines.now }
{
    for line in lines {
        count_line(summary, *line);
    }
}

/// How many of the lines are notes. (A number of this type is formatted by less proof.)
fn count_notes(lines: &[AboveLine]) -> u64 {
    lines
        .iter()
        .filter(|line| **line == AboveLine::Note)
        .count() as u64
}

/// Reports notes, of which the first is this line.
fn report_notes<E: Write, T: Write>(
    alloc: Global,
    number: u64,
    count: u64,
    report: &mut Report<E, T>,
) -> Result<(), ConversionFault> {
    let text = if count > 1 {
        format!(in alloc; "line {number}: {count} lines above the header aren't carried")?
    } else {
        format!(in alloc; "line {number}: a line above the header isn't carried")?
    };
    report.write_to_both(alloc, Weight::Moved, text.as_str())
}

/// Reports a line above the header that may be a person.
fn report_person<E: Write, T: Write>(
    alloc: Global,
    number: u64,
    report: &mut Report<E, T>,
) -> Result<(), ConversionFault> {
    let text = format!(in alloc; "line {number}: not carried: it is above the header")?;
    report.write_to_both(alloc, Weight::NotCarried, text.as_str())
}

/// Reports the lines above the header: each one that may be a person, and the notes once, at the
/// first of them.
pub(crate) fn report_above<E: Write, T: Write>(
    alloc: Global,
    lines: &[AboveLine],
    report: &mut Report<E, T>,
) -> Result<(), ConversionFault> {
    let notes = count_notes(lines);
    let mut are_reported = false;
    let mut number: u64 = 0;
    for line in lines {
        number = number.saturating_add(1);
        match line {
            AboveLine::Row => report_person(alloc, number, report)?,
            AboveLine::Note if !are_reported => {
                report_notes(alloc, number, notes, report)?;
                are_reported = true;
            }
            _ => {}
        }
    }
    Ok(())
}
