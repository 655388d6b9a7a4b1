//! Converts all contacts of a file.
ghost use Rattle.std.specs.Prelude.{ℕ, List, IfOk, OnOk};
ghost use Rattle.contact_csv.specs.Contacts.{IsReady};
ghost use Rattle.card_conversion.specs.ContactAccounts.{ConvertsContacts};
ghost use Rattle.card_conversion.specs.Courses.{ConvertsRows, Knows};

use crate::CardSink;
use crate::contacts::broken_lines::BrokenLines;
use crate::contacts::report::{RowPlace, report_broken, report_guesses, report_row};
use crate::contacts::rows::{next_row, take_row};
use crate::contacts::tally::count_row;
use crate::course::Course;
use contact_csv::ContactReader;
use convert_report::{ConversionFault, Report, Summary, guessed_cells};
use std::alloc::Global;
use std::io::{Read, Write};

/// Converts all contacts of one more file, and writes their cards to the sink, in order. Reports
/// each cell that its card holds in another form, and each row that can't be carried.
///
/// A row whose card has the UID of an earlier card is passed. An `Err` is as that of
/// `convert_contacts`.
pub fn convert_more_contacts<R: Read + Drop, O: CardSink, E: Write, T: Write>(
    alloc: Global,
    course: &mut Course,
    reader: ContactReader<R>,
    sink: &mut O,
    report: &mut Report<E, T>,
) -> Result<(), ConversionFault>
    ensures { OnOk result (IsReady reader → (uids : List (List ℕ)) → Knows course.old uids
        → ConvertsRows O.writes R.remaining reader uids course.old course.new sink.old
        sink.new) }
{
    let mut contacts = reader;
    let mut broken = BrokenLines::new();
    for row_number in 1..u64::MAX {
        let Some(row) = next_row(alloc, &mut contacts)? else {
            report_broken(alloc, &mut broken, report)?;
            return Ok(());
        };
        let guessed = guessed_cells(alloc, contacts.row())?;
        let number = course.ledger.next_number();
        let fate = take_row(
            alloc,
            &mut course.uids,
            &mut course.row_cards,
            number,
            row,
            sink,
        )?;
        let place = RowPlace {
            row: row_number,
            line: contacts.line(),
            end: contacts.end_line(),
            may_be_long: contacts.may_be_long(),
        };
        let columns = contacts.columns().columns.as_slice();
        report_row(alloc, place, columns, &fate, &mut broken, report)?;
        report_guesses(alloc, place, guessed, report)?;
        count_row(&mut course.ledger.summary, &fate);
    }
    Err(ConversionFault::Input)
}

/// Converts all contacts of a file that Google or Outlook exported, and writes their cards to the
/// sink, in order. Reports each row with a cell that no property holds, each row that can't be
/// carried, and at last how often each change of form came, what to look at first, and the numbers
/// of cards.
///
/// An `Err` is `Input` if the file can't be read to its end, `Output` if the sink takes no more
/// cards, `Report` if the report can't be written, or `Memory`. Cards that were written before it
/// remain.
pub fn convert_contacts<R: Read + Drop, O: CardSink, E: Write>(
    alloc: Global,
    reader: ContactReader<R>,
    sink: &mut O,
    errors: &mut E,
) -> Result<Summary, ConversionFault>
    ensures { IsReady reader → IfOk result (λ summary.
        ConvertsContacts O.writes R.remaining reader sink.old sink.new summary) }
{
    let mut course = Course::new(alloc);
    let mut report: Report<&mut E, Vec<u8>> = Report::new(alloc, errors);
    convert_more_contacts(alloc, &mut course, reader, sink, &mut report)?;
    let summary = course.summary();
    report.finish(alloc, summary, None)?;
    Ok(summary)
}
