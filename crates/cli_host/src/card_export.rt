//! The output of `export --vcf`: the cards of a book as one file of vCards.
ghost use Rattle.std.specs.Prelude.{◌≡◌, ◌++◌, IfErr, IfOk, OnOk, List, flat_map, map};
ghost use Rattle.std.specs.FinMap as finite;
ghost use Rattle.base_types.specs.TextMaps.{octet_map};
ghost use Rattle.book_service.specs.WholeBooks.{lines_by_uid};
ghost use Rattle.cli_host.specs.CardFiles.{Exports, PrintsCards, StopsCards, cards_text};
ghost use Rattle.cli_host.specs.CardFiles.{one_text};
ghost use Rattle.cli_orders.specs.Outputs.{Flushes};

use base_types::{Items, NoMemory};
use cli_orders::{Output, Stop, write_out};
use std::alloc::Global;
use std::collections::BTreeMap;
use sync_core::{BookStore, Denied, Stored};
use vcard_export::write_older_card;
use vcard_text::{Card, write_card};

/// The cards, borrowed, in byte order of their UIDs.
fn cards_in_order(alloc: Global, cards: &BTreeMap<String, Stored>) -> Result<Vec<&Card>, NoMemory>
    ensures { IfOk result (λ list. map (λ card. card.now) list.items
        ≡ finite.values (lines_by_uid (octet_map cards.now))) }
{
    let mut list = Vec::new(alloc);
    for (_, stored) in cards.iter() {
        list.push(&stored.card)?;
    }
    Ok(list)
}

/// The text of a card, as vCard 3.0 or as its canonical text.
fn one_text(alloc: Global, card: &Card, is_older: bool) -> Result<Vec<u8>, NoMemory>
    ensures { IfOk result (λ text. text.items ≡ one_text is_older card.now) }
{
    if is_older {
        return write_older_card(alloc, card);
    }
    write_card(alloc, card)
}

/// The texts of the cards, one after another.
fn cards_text(alloc: Global, cards: &[&Card], is_older: bool) -> Result<Vec<u8>, NoMemory>
    ensures { IfOk result (λ text. text.items
        ≡ flat_map (one_text is_older) (map (λ card. card.now) cards.now)) }
{
    let mut out = Vec::new(alloc);
    for card in cards {
        let text = one_text(alloc, *card, is_older)?;
        out.extend_from_slice(text.as_slice())?;
    }
    Ok(out)
}

/// The texts of the book's live cards, in byte order of UID.
fn export<S: BookStore>(
    alloc: Global,
    store: &mut S,
    book: &str,
    is_older: bool,
) -> Result<Items<u8>, Denied>
    ensures { Exports S.model store.old book.now is_older result store.new }
{
    let stored = store.cards(book)?;
    let list = cards_in_order(alloc, &stored)?;
    let text = cards_text(alloc, list.as_slice(), is_older)?;
    Ok(Items::from_vec(text))
}

/// Prints the live cards of a book as vCards, one after another, in byte order of UID: as vCard
/// 3.0, or else each as its canonical text. The whole text is built before any of it is written.
/// The store isn't changed.
///
/// Stops with `NoSuchBook`; with a fault of the store; with `Memory` if an allocation fails; and
/// with `Device` if the writer fails.
pub(crate) fn run_card_export<S: BookStore, W: Output>(
    alloc: Global,
    store: &mut S,
    book: &str,
    is_older: bool,
    writer: &mut W,
) -> Result<(), Stop>
    ensures printed { OnOk result (PrintsCards S.model store.old book.now is_older
        (W.contents writer.old) (W.contents writer.new) store.new) }
    ensures stopped { IfErr result (λ stop. StopsCards S.model store.old book.now is_older stop
        (W.contents writer.old) (W.contents writer.new) store.new) }
    ensures flushed { Flushes W.contents W.flushed writer.old writer.new result }
{
    let text = export(alloc, store, book, is_older)?;
    write_out(writer, text.as_slice())
}
