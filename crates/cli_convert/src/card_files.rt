//! A sink that writes a file for each card into a folder.

use crate::create::write_new;
use crate::file_system::FileSystem;
use crate::names::card_path;
use base_types::Text;
use card_conversion::{CardSink, Delivery, SinkFault};
use std::alloc::Global;
use vcard_text::{Card, write_card};

/// Writes a file for each card into a folder.
#[derive(Drop)]
pub(crate) struct CardFiles<'a, F> {
    pub(crate) files: &'a F,
    pub(crate) folder: &'a str,
}

impl<'a, F: FileSystem> CardSink for CardFiles<'a, F> {
    ghost use Rattle.std.specs.Prelude.{◌≡◌};
    ghost use Rattle.cli_convert.specs.CardFolders.{IsCardFile};

    // A file is made for the card, and its canonical text is written to it: once exactly this text
    // was in it.
    ghost writes = { λ card before after. (after ≡ before)
        × IsCardFile (F.place before.files.now) (F.written before.files.now) before.folder.now
        card };

    fn put(&mut self, alloc: Global, number: u64, card: &Card) -> Result<Delivery, SinkFault> {
        let text = write_card(alloc, card)?;
        let path = card_path(alloc, self.folder, number, card.uid())?;
        let path = path.as_str();
        if write_new(alloc, self.files, path, text.as_slice())? {
            return Ok(Delivery::Written);
        }
        let words = format!(in alloc; "the file {path} exists")?;
        Ok(Delivery::Refused(Text::new(words)))
    }
}
