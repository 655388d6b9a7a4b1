//! Copying a whole book to a new device.
ghost use Rattle.std.specs.Prelude.{◌≡◌, IfOk, IfErr};
ghost use Rattle.book_model.specs.CallOutcomes.{IfFault};
ghost use Rattle.book_service.specs.Faults.{IsOutOfMemoryOr};
ghost use Rattle.book_service.specs.Mirrors.{IsMirrorRun, IsMirrorDenied, HasExactPageCount};
ghost use Rattle.book_service.specs.Runs.{FromEachState};
ghost use Rattle.sync_core.specs.StoreModels.{KeepsBooks};

use crate::device_pages::next_page;
use book_laws::devices::{
    devices_stay_consistent_among_books, due_members_are_counted, last_pages_complete_copies,
};
use book_laws::runs::fresh_tokens_are_accepted;
use std::alloc::Global;
use sync_core::{BookStore, Denied, Device};

/// The result of `mirror`: the device and the number of its pages.
#[derive(Debug, Drop, PartialEq, Eq)]
pub struct Mirrored {
    /// The device, with all pages applied.
    pub device: Device,
    /// The number of applied pages.
    pub pages: u64,
    /// Whether the last page wasn't truncated; if so, the copy is complete.
    pub done: bool,
}

/// Copies a book: a new device requests pages of at most `limit` entries and applies them, until
/// one isn't truncated or it has `max_pages` of them (RFC 6578, section 3.6). Only reads the store.
///
/// With `max_pages` 0 it requests nothing, even if the book doesn't exist. Refused as its initial
/// report is: with `NoSuchBook`, then with `BadLimit` if the limit is 0.
pub fn mirror<S: BookStore>(
    alloc: Global,
    store: &mut S,
    book: &str,
    limit: u64,
    max_pages: u64,
) -> Result<Mirrored, Denied>
    ensures premise { S.model.premise store.new → S.model.premise store.old }
    ensures limits { S.model.limits store.new ≡ S.model.limits store.old }
    ensures reads_only { KeepsBooks S.model store.old store.new }

    // A fault is out of memory, or one that the store may return.
    ensures fault { IfFault result (IsOutOfMemoryOr S.model.may_fault) }

    // From every system state that matches the store's rows, a new device made this run, and if it
    // is done, its copy is the live cards.
    ensures mirrors { IfOk result (λ mirrored. FromEachState S.model store.old store.new (λ now.
        IsMirrorRun now book.now limit max_pages mirrored)) }

    // The number of pages is exactly what the book's members need, or `max_pages` if that is less.
    ensures pages { IfOk result (λ mirrored. FromEachState S.model store.old store.new (λ now.
        HasExactPageCount now book.now limit max_pages mirrored)) }

    // A refusal is that of the initial report.
    ensures denied { IfErr result (λ denied. FromEachState S.model store.old store.new (λ now.
        IsMirrorDenied now book.now limit max_pages denied)) }
{
    // Laws, no code: the device stays consistent, no page's token is refused, and the pages are
    // counted.
    devices_stay_consistent_among_books();
    last_pages_complete_copies();
    fresh_tokens_are_accepted();
    due_members_are_counted();

    let mut device = Device::new(alloc, book)?;
    for pages in 0..max_pages {
        let page = next_page(store, &mut device, Some(limit))?;
        if !page.truncated {
            return Ok(Mirrored {
                device,
                pages: pages + 1,
                done: true,
            });
        }
    }
    Ok(Mirrored {
        device,
        pages: max_pages,
        done: false,
    })
}
