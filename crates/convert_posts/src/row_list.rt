//! `RowList`: a sink that keeps the cards of a part.
ghost use Rattle.std.specs.Prelude.{◌≡◌, [], IfOk};
ghost use Rattle.vcard_text.specs.Cards.{canonical_text};

use crate::part::CardRow;
use base_types::{Items, NoMemory, Text};
use card_conversion::{CardSink, Delivery, SinkFault};
use std::alloc::Global;
use vcard_text::{Card, write_card};

/// Where a part is in its file.
#[derive(Clone, Copy)]
pub(crate) struct Origin {
    /// The number of its first card or row, from 1.
    pub(crate) card: u64,
    /// The number of the line in the file that comes after `feeds` line feeds of the text.
    pub(crate) line: u64,
    /// The number of line feeds in the text before the part's own lines.
    pub(crate) feeds: u64,
}

impl Origin {
    /// The number in the file of a card that is counted from 1 in the text.
    pub(crate) fn card_at(self, number: u64) -> u64 {
        self.card.saturating_add(number).saturating_sub(1)
    }

    /// The number in the file of the line after this many line feeds of the text.
    pub(crate) fn line_after(self, feeds: u64) -> u64 {
        self.line.saturating_add(feeds).saturating_sub(self.feeds)
    }
}

/// Keeps the cards of a part, with their places in the file.
#[derive(Drop)]
pub(crate) struct RowList<'a> {
    pub(crate) origin: Origin,
    /// For each card or row, the number of line feeds before it.
    pub(crate) starts: &'a [u64],
    /// The cards so far.
    pub(crate) rows: Items<CardRow>,
}

/// The card's canonical text.
fn card_text(alloc: Global, card: &Card) -> Result<Text, NoMemory>
    ensures { IfOk result (λ text. text ≡ canonical_text card.now) }
{
    let text = write_card(alloc, card)?;
    Ok(Text::new(String::from_utf8(text).unwrap()))
}

impl<'a> RowList<'a> {
    /// No cards yet.
    pub(crate) fn new(alloc: Global, origin: Origin, starts: &'a [u64]) -> RowList<'a>
        ensures { result.rows ≡ [] }
    {
        RowList {
            origin,
            starts,
            rows: Items::new(alloc),
        }
    }

    /// The number of the line at which a card begins that is counted from 1 in the text.
    fn line_of(&self, number: u64) -> u64 {
        let place = usize::try_from(number.saturating_sub(1)).unwrap_or(0);
        let feeds = self.starts.get(place).copied().unwrap_or(0);
        self.origin.line_after(feeds)
    }
}

impl<'a> CardSink for RowList<'a> {
    ghost use Rattle.convert_posts.specs.Parts.{AddsRow};

    ghost writes = { λ card before after. AddsRow card before.rows after.rows };

    fn put(&mut self, alloc: Global, number: u64, card: &Card) -> Result<Delivery, SinkFault> {
        let row = CardRow {
            card: self.origin.card_at(number),
            line: self.line_of(number),
            uid: Text::copy_of(alloc, card.uid())?,
            vcard: card_text(alloc, card)?,
        };
        match self.rows.push(row) {
            Ok(()) => Ok(Delivery::Written),
            Err(_) => Err(SinkFault::Memory),
        }
    }
}
