//! Converts contacts to the rows of an import.
ghost use Rattle.std.specs.Prelude.{IfOk};
ghost use Rattle.contact_csv.specs.Contacts.{IsReady};
ghost use Rattle.card_conversion.specs.ContactAccounts.{ContactsToRows};

use crate::RowsSink;
use crate::contacts::run::convert_contacts;
use crate::laws::written_rows_are_read;
use contact_csv::ContactReader;
use convert_report::{ConversionFault, Summary};
use std::alloc::Global;
use std::io::{Read, Write};

/// Converts all contacts of a file, as `convert_contacts` does, to a header and rows on the writer.
pub fn convert_contacts_to_rows<R: Read + Drop, W: Write, E: Write>(
    alloc: Global,
    reader: ContactReader<R>,
    sink: &mut RowsSink<W>,
    errors: &mut E,
) -> Result<Summary, ConversionFault>
    // The rows that the reader has left have their fates. The header and the rows of the cards
    // among them were written. `read_rows` reads them as these cards, of which no two have one UID.
    ensures { IsReady reader → IfOk result (λ summary. ContactsToRows R.remaining reader
        (W.contents sink.old.writer) (W.contents sink.new.writer) summary) }
{
    // A law: the header and the rows of cards with different UIDs are read back as these cards.
    written_rows_are_read();

    sink.start(alloc)?;
    convert_contacts(alloc, reader, sink, errors)
}
