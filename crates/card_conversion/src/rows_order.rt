//! Converts a file to the rows of an import.
ghost use Rattle.std.specs.Prelude.{IfOk, option_map};
ghost use Rattle.import_text.specs.Texts.{text_octets};
ghost use Rattle.card_conversion.specs.Accounts.{ConvertsToRows};

use crate::file::convert_file;
use crate::laws::written_rows_are_read;
use crate::rows_sink::RowsSink;
use convert_report::{ConversionFault, Summary};
use std::alloc::Global;
use std::io::{Read, Write};

/// Converts all cards of a file, as `convert_file` does, to a header and rows on the writer.
pub fn convert_to_rows<R: Read + Drop, W: Write, E: Write>(
    alloc: Global,
    reader: R,
    sink: &mut RowsSink<W>,
    errors: &mut E,
) -> Result<Summary, ConversionFault>
    // The pieces of the file's octets have their fates. The header and the rows of the cards among
    // them were written. `read_rows` reads them as these cards, of which no two have one UID.
    ensures { IfOk result (λ summary.
        ConvertsToRows (option_map text_octets (R.remaining reader))
        (W.contents sink.old.writer) (W.contents sink.new.writer) summary) }
{
    // A law: the header and the rows of cards with different UIDs are read back as these cards.
    written_rows_are_read();

    sink.start(alloc)?;
    convert_file(alloc, reader, sink, errors)
}
