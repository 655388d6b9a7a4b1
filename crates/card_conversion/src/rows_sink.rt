//! A sink that writes rows to one writer.
ghost use Rattle.std.specs.Prelude.{OnOk};
ghost use Rattle.std.specs.Io.KnownBytes.{Appends};
ghost use Rattle.card_conversion.specs.RowTexts.{header_row_text};

use crate::card_sink::{CardSink, Delivery};
use crate::rows::{header_text, row_text};
use base_types::Text;
use convert_report::SinkFault;
use std::alloc::Global;
use std::io::Write;
use vcard_text::Card;

/// Writes the rows of an import to a writer, one for each card.
#[derive(Drop)]
pub struct RowsSink<W> {
    /// The writer.
    pub writer: W,
}

/// Writes all octets and flushes them.
fn write_octets<W: Write>(alloc: Global, writer: &mut W, octets: &[u8]) -> Result<(), SinkFault>
    ensures { OnOk result (Appends (W.contents writer.old) (W.contents writer.new) octets.now) }
{
    if writer.write_all(octets).is_ok() && writer.flush().is_ok() {
        return Ok(());
    }
    let words = Text::copy_of(alloc, "standard output can't be written")?;
    Err(SinkFault::Failed(words))
}

impl<W: Write> RowsSink<W> {
    /// Writes the header, which comes before all rows.
    pub fn start(&mut self, alloc: Global) -> Result<(), SinkFault>
        ensures { OnOk result (Appends (W.contents self.old.writer) (W.contents self.new.writer)
            header_row_text) }
    {
        let text = header_text(alloc)?;
        write_octets(alloc, &mut self.writer, text.as_slice())
    }
}

impl<W: Write> CardSink for RowsSink<W> {
    ghost use Rattle.std.specs.Io.KnownBytes.{Appends};
    ghost use Rattle.card_conversion.specs.RowTexts.{card_row_text};

    ghost writes = { λ card before after.
        Appends (W.contents before.writer) (W.contents after.writer) (card_row_text card) };

    fn put(&mut self, alloc: Global, _number: u64, card: &Card) -> Result<Delivery, SinkFault> {
        let text = row_text(alloc, card)?;
        write_octets(alloc, &mut self.writer, text.as_slice())?;
        Ok(Delivery::Written)
    }
}
