//! The output of `books` and of `verify`.
ghost use Rattle.std.specs.Prelude.{◌≡◌, ◌++◌, IfErr, IfOk, OnOk, flat_map};
ghost use Rattle.book_model.specs.CallOutcomes.{IfFault};
ghost use Rattle.book_service.specs.Faults.{IsOutOfMemoryOr};
ghost use Rattle.cli_host.specs.Listings.{IsListingDenial, PrintsListing, StopsListing};
ghost use Rattle.cli_host.specs.Listings.{book_row, last_line, listed_row, listing_output};
ghost use Rattle.cli_host.specs.internal.ListingSteps.{IsLineDenial, IsLinesDenial};
ghost use Rattle.sync_core.specs.StoreModels.{KeepsBooks};
ghost use Rattle.cli_orders.specs.Outputs.{Flushes};

use book_resync::AdminStore;
use cli_orders::{Output, Stop, write_out};
use std::alloc::Global;
use sync_core::{BookLine, Denied, Tally};
use vcard_text::NoMemory;

/// Which listing of the books is printed.
#[derive(Clone, Copy)]
pub enum Listing {
    /// A line for each book.
    Books,
    /// A line for each book, and at the end the number of books.
    Verified,
}

/// Appends the line of a book.
fn write_row(out: &mut Vec<u8>, line: &BookLine, tally: &Tally, keep: u64) -> Result<(), NoMemory>
    ensures { OnOk result (out.new.items ≡ out.old.items ++ book_row line.now tally.now keep) }
{
    let alloc = *out.allocator();
    let name = line.name.as_str();
    let BookLine {
        id,
        number,
        horizon,
        ..
    } = line;
    let cards = tally.cards;
    let row = format!(in alloc;
        "name {name} id {id} cards {cards} number {number} horizon {horizon} keep {keep}\n"
    )?;
    out.extend_from_slice(row.as_bytes())?;
    Ok(())
}

/// Appends the line of a book of the store, with the number of its live cards and its keep.
fn write_book<S: AdminStore>(
    store: &mut S,
    out: &mut Vec<u8>,
    line: &BookLine,
) -> Result<(), Denied>
    ensures premise { S.model.premise store.new → S.model.premise store.old }
    ensures kept { KeepsBooks S.model store.old store.new }
    ensures fault { IfFault result (IsOutOfMemoryOr S.model.may_fault) }
    ensures written { OnOk result (S.model.premise store.new →
        out.new.items ≡ out.old.items ++ listed_row (S.model.books store.old) line.now) }
    ensures denied { IfErr result (λ denied. S.model.premise store.new →
        IsLineDenial (S.model.books store.old) line.now denied) }
{
    let tally = store.tally(line.name.as_str())?;
    let keep = store.keep(line.name.as_str())?;
    write_row(out, line, &tally, keep)?;
    Ok(())
}

/// Appends the lines of books of the store.
fn write_books<S: AdminStore>(
    store: &mut S,
    out: &mut Vec<u8>,
    lines: &[BookLine],
) -> Result<(), Denied>
    ensures premise { S.model.premise store.new → S.model.premise store.old }
    ensures kept { KeepsBooks S.model store.old store.new }
    ensures fault { IfFault result (IsOutOfMemoryOr S.model.may_fault) }
    ensures written { OnOk result (S.model.premise store.new → out.new.items
        ≡ out.old.items ++ flat_map (listed_row (S.model.books store.old)) lines.now) }
    ensures denied { IfErr result (λ denied. S.model.premise store.new →
        IsLinesDenial (S.model.books store.old) lines.now denied) }
{
    for line in lines {
        write_book(store, out, line)?;
    }
    Ok(())
}

/// Appends the last line, if the listing has one.
fn write_last(out: &mut Vec<u8>, what: Listing, count: usize) -> Result<(), NoMemory>
    ensures { OnOk result (out.new.items ≡ out.old.items ++ last_line what count) }
{
    match what {
        Listing::Books => Ok(()),
        Listing::Verified => {
            let alloc = *out.allocator();
            let line = format!(in alloc; "verified {count}\n")?;
            out.extend_from_slice(line.as_bytes())?;
            Ok(())
        }
    }
}

/// The text that lists the books of the store.
fn listing_text<S: AdminStore>(
    alloc: Global,
    store: &mut S,
    what: Listing,
) -> Result<Vec<u8>, Denied>
    ensures kept { KeepsBooks S.model store.old store.new }
    ensures fault { IfFault result (IsOutOfMemoryOr S.model.may_fault) }
    ensures text { IfOk result (λ text. S.model.premise store.new →
        text.items ≡ listing_output what (S.model.books store.old)) }
    ensures denied { IfErr result (λ denied. S.model.premise store.new →
        IsListingDenial (S.model.books store.old) denied) }
{
    let lines = store.books()?;
    let mut out = Vec::new(alloc);
    write_books(store, &mut out, lines.as_slice())?;
    write_last(&mut out, what, lines.len())?;
    Ok(out)
}

/// Prints a line for each book of the store, in byte order of name: its name, its id, the number of
/// its live cards, the number of its last change, its horizon, and the most tombstones that it
/// keeps. For `Verified` a last line has the number of books. The store isn't changed.
///
/// Stops with a fault of the store, with `Memory` if an allocation fails, and with `Device` if the
/// writer fails.
pub fn run_listing<S: AdminStore, W: Output>(
    alloc: Global,
    store: &mut S,
    what: Listing,
    writer: &mut W,
) -> Result<(), Stop>
    ensures printed { OnOk result (PrintsListing S.model what store.old
        (W.contents writer.old) (W.contents writer.new) store.new) }
    ensures stopped { IfErr result (λ stop. StopsListing S.model what store.old stop
        (W.contents writer.old) (W.contents writer.new) store.new) }
    ensures flushed { Flushes W.contents W.flushed writer.old writer.new result }
{
    let text = listing_text(alloc, store, what)?;
    write_out(writer, text.as_slice())
}
