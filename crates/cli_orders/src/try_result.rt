//! Puts one card into an empty book and gets the book's initial sync report.
ghost use Rattle.std.specs.Prelude.{◌≡◌, List, IfOk, IfErr};
ghost use Rattle.vcard_lines.specs.declared.line.Line.{Line};
ghost use Rattle.vcard_text.specs.Spelling.{Spells};
ghost use Rattle.book_model.specs.CallOutcomes.{denied_no_memory};
ghost use Rattle.cli_orders.specs.TryResults.{IsResultForCard, IsTryResult};
ghost use Rattle.cli_orders.specs.TryStops.{IsTryStop};
ghost use Rattle.cli_orders.specs.Stops.{stop_of};

use book_laws::refinement::{
    create_refines_histories, empty_stores_have_no_histories, put_refines_histories,
    reports_refine_histories,
};
use std::alloc::Global;
use sync_core::{BookStore, Denied, Limits, Page, PlainStore, PutAnswer};
use vcard_text::{Card, read_card};

/// The answer of the put, and the initial report after it.
#[derive(Debug, Drop, PartialEq, Eq)]
pub struct FirstPath {
    /// The answer of the put.
    pub put: PutAnswer,
    /// The book's initial report after the put.
    pub page: Page,
}

/// Puts the card into the empty book `try` of a new store in memory, and gets the initial report.
fn put_and_report(alloc: Global, card: &Card) -> Result<FirstPath, Denied>
    ensures result_is { IfOk result (IsResultForCard card.now) }
    ensures only_memory { IfErr result (λ denied. denied ≡ denied_no_memory) }
{
    // These are laws and do nothing. They say that the answers that a store computes from its rows
    // are those of its histories.
    empty_stores_have_no_histories();
    create_refines_histories();
    put_refines_histories();
    reports_refine_histories();

    let mut store = PlainStore::new(alloc, Limits::standard());
    store.create_book("try")?;
    let put = store.put("try", card, None)?;
    let page = store.report("try", None, None)?;
    Ok(FirstPath { put, page })
}

/// Reads a card, puts it into the empty book `try` of a new store in memory, and gets the initial
/// report.
///
/// `BadCard` with the text's first fault if the text is no card, and `Memory` if an allocation
/// fails.
pub fn first_path(alloc: Global, text: &[u8]) -> Result<FirstPath, Denied>
    // The text is a card, the put created it with version 1, and the report has only this card.
    ensures result_is { IfOk result (IsTryResult text.now) }

    // For a text that is a card the only error is out of memory.
    ensures only_memory { (lines : List Line) → Spells text.now lines
        → IfErr result (λ denied. denied ≡ denied_no_memory) }

    // A refusal is the text's first fault.
    ensures first_fault { IfErr result (λ denied. IsTryStop text.now (stop_of denied)) }
{
    let card = read_card(alloc, text)?;
    put_and_report(alloc, &card)
}
