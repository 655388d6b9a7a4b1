//! A device that applies a page of three entries.

use crate::oom::harness::Harness;
use crate::oom::stores::{InMemory, filled_store, replies_to};
use crate::supply::Supply;
use sync_core::{BookStore, Device, Page, PlainStore};

/// Changes of the book: a card is moved in, one is removed and put again, and one is removed.
const CHANGES: &str = "move clients x staff
remove staff a
card staff a FN:Ann\\nEMAIL:ann@office.invalid
remove staff c";

/// A device that applied the pages.
fn device_after(pages: &[&Page], supply: &mut Supply) -> Option<Device> {
    let mut made = supply.keep(Device::new(supply.alloc, "staff"));
    if let Some(device) = &mut made {
        for page in pages {
            supply.note(device.apply(*page));
        }
    }
    made
}

/// Whether the device's copy is that of a device which applied the pages.
fn has_copy_after(pages: &[&Page], device: &Device, supply: &mut Supply) -> bool {
    match device_after(pages, supply) {
        Some(other) => device.copy() == other.copy(),
        None => false,
    }
}

/// Whether the device is one that applied the pages.
fn is_device_after(pages: &[&Page], device: &Device, supply: &mut Supply) -> bool {
    match device_after(pages, supply) {
        Some(other) => *device == other,
        None => false,
    }
}

/// Whether the copy of the device, which applied the first page, has also the first `count` entries
/// of the next page.
fn has_entries(
    store: &mut PlainStore,
    first: &Page,
    count: u64,
    device: &Device,
    supply: &mut Supply,
) -> bool {
    match supply.keep(store.report("staff", Some(first.token()), Some(count))) {
        Some(front) => has_copy_after(&[first, &front], device, supply),
        None => false,
    }
}

/// Whether the copy of the device, which applied the first page, has also the first entries of the
/// next page up to some entry, and its token is still the old one.
fn has_first_entries(
    store: &mut PlainStore,
    first: &Page,
    device: &Device,
    supply: &mut Supply,
) -> bool {
    let mut has = has_copy_after(&[first], device, supply);
    for count in [1, 2, 3] {
        has = has_entries(store, first, count, device, supply) || has;
    }
    has && device.token() == Some(first.token())
}

/// The next page since the token of the first one, or the initial one.
fn page_since(store: &mut PlainStore, first: Option<&Page>, supply: &mut Supply) -> Option<Page> {
    let token = match first {
        Some(page) => Some(page.token()),
        None => None,
    };
    supply.keep(store.report("staff", token, None))
}

/// Reports the outcome of applying the page.
fn report_applied(
    harness: &mut Harness,
    store: &mut PlainStore,
    first: &Page,
    next: &Page,
    device: &mut Device,
    is_applied: bool,
) {
    if is_applied {
        let same = is_device_after(&[first, next], device, &mut harness.supply);
        harness.report_answer(same, device);
    } else {
        let left = has_first_entries(store, first, device, &mut harness.supply);
        let applied = device.apply(next).is_ok();
        let again = is_device_after(&[first, next], device, &mut harness.supply);
        harness.report_no_memory(left, applied && again, device);
    }
}

/// Applies the next page, in a window, to a device that applied the first.
fn run_page(
    harness: &mut Harness,
    store: &mut PlainStore,
    first: &Page,
    next: &Page,
    device: &mut Device,
) {
    harness.open_window("Device::apply");
    let is_applied = device.apply(next).is_ok();
    harness.close_window();
    report_applied(harness, store, first, next, device, is_applied);
}

/// Changes the book after its first page, and applies the page since then.
fn run_next_page(harness: &mut Harness, store: &mut PlainStore, first: &Page) {
    drop(replies_to(store, CHANGES, &mut harness.supply));
    let next = page_since(store, Some(first), &mut harness.supply);
    let device = device_after(&[first], &mut harness.supply);
    if let (Some(next), Some(mut device)) = (next, device) {
        run_page(harness, store, first, &next, &mut device);
    }
}

/// Applies pages of the store.
fn run_pages(harness: &mut Harness, store: &mut PlainStore) {
    if let Some(first) = page_since(store, None, &mut harness.supply) {
        run_next_page(harness, store, &first);
    }
}

/// Applies a page of an edited card, a new one and a removed one. When out of memory, the device's
/// copy must have the first entries of it up to some entry.
pub fn run_device(harness: &mut Harness) {
    if harness.is_selected("Device::apply") {
        if let Some(mut store) = filled_store(&InMemory, &mut harness.supply) {
            run_pages(harness, &mut store);
        }
    }
}
