//! Converts all contacts of a file that may have lines above its header.
ghost use Rattle.std.specs.Prelude.{ℕ, List, OnOk};
ghost use Rattle.contact_csv.specs.Contacts.{IsReady};
ghost use Rattle.card_conversion.specs.AboveLines.{ConvertsUnder};
ghost use Rattle.card_conversion.specs.Courses.{Knows};

use crate::CardSink;
use crate::contacts::above::{count_above, report_above};
use crate::contacts::run::convert_more_contacts;
use crate::course::Course;
use contact_csv::{AboveLine, ContactReader};
use convert_report::{ConversionFault, Report};
use std::alloc::Global;
use std::io::{Read, Write};

/// Converts all contacts of one more file, as `convert_more_contacts` does. `above` are the lines
/// above its header, from the first on (see `Header`): those that may be persons are reported and
/// counted as not carried, and notes are reported.
pub fn convert_contacts_under<R: Read + Drop, O: CardSink, E: Write, T: Write>(
    alloc: Global,
    course: &mut Course,
    above: &[AboveLine],
    reader: ContactReader<R>,
    sink: &mut O,
    report: &mut Report<E, T>,
) -> Result<(), ConversionFault>
    ensures { OnOk result (IsReady reader → (uids : List (List ℕ)) → Knows course.old uids
        → ConvertsUnder O.writes R.remaining above.now reader
        uids course.old course.new sink.old sink.new) }
{
    count_above(&mut course.ledger.summary, above);
    report_above(alloc, above, report)?;
    convert_more_contacts(alloc, course, reader, sink, report)
}
