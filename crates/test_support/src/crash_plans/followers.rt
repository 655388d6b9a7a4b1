//! Devices that follow the books while the list is performed, and after a stop.

use crate::crash_plans::mismatch::Mismatch;
use crate::supply::Supply;
use std::collections::BTreeMap;
use sync_core::{BookStore, Denied, Device, Page, Refusal, Stored, TokenCause};

/// The most pages that a device asks for until one comes untruncated.
const PAGES_MAX: usize = 60;

/// A device, and the pages that it applied.
#[derive(Drop)]
struct Follower {
    device: Device,
    pages: Vec<Page>,
}

impl Follower {
    fn new(book: &str, supply: &mut Supply) -> Option<Follower> {
        let device = Device::new(supply.alloc, book);
        match supply.keep(device) {
            Some(device) => Some(Follower {
                device,
                pages: Vec::new(supply.alloc),
            }),
            None => None,
        }
    }

    /// Applies the page, and keeps it.
    fn apply(&mut self, page: Page, supply: &mut Supply) {
        supply.note(self.device.apply(&page));
        supply.note(self.pages.push(page));
    }

    /// Asks for a page of one entry. Returns whether the store returned a fault. If the page is
    /// refused, the device doesn't change.
    fn ask<S: BookStore>(&mut self, store: &mut S, supply: &mut Supply) -> bool {
        match store.report(self.device.book(), self.device.token(), Some(1)) {
            Ok(page) => {
                self.apply(page, supply);
                false
            }
            Err(Denied::Refused(_)) => false,
            Err(Denied::Fault(_)) => true,
        }
    }

    /// A copy of the device, made by its pages.
    fn copy_device(&self, supply: &mut Supply) -> Option<Device> {
        let mut copy = supply.keep(Device::new(supply.alloc, self.device.book()));
        if let Some(device) = &mut copy {
            for page in self.pages.as_slice() {
                supply.note(device.apply(page));
            }
        }
        copy
    }

    /// A copy of the device continues from its token over another store, and must reach the copy of
    /// its book. Counts tokens that are refused as too old.
    fn catch_up_over<S: BookStore>(
        &self,
        store: &mut S,
        anew: &mut u64,
        supply: &mut Supply,
    ) -> Result<(), Mismatch> {
        match self.copy_device(supply) {
            Some(device) => {
                let mut device = device;
                catch_up(store, &mut device, anew, supply)
            }
            None => Ok(()),
        }
    }
}

/// Asks for the next page of one entry. Returns whether to ask again. A token that is too old is
/// dropped, and counted.
fn ask_next_page<S: BookStore>(
    store: &mut S,
    device: &mut Device,
    anew: &mut u64,
    supply: &mut Supply,
) -> Result<bool, Mismatch> {
    match store.report(device.book(), device.token(), Some(1)) {
        Ok(page) => {
            supply.note(device.apply(&page));
            Ok(page.truncated)
        }
        Err(Denied::Refused(Refusal::BadToken(TokenCause::TooOld))) => {
            device.restart();
            *anew = anew.saturating_add(1);
            Ok(true)
        }
        Err(Denied::Refused(Refusal::NoSuchBook)) => Ok(false),
        Err(_) => Err(Mismatch("a device is refused")),
    }
}

/// Asks until a page comes untruncated.
fn ask_until_complete<S: BookStore>(
    store: &mut S,
    device: &mut Device,
    anew: &mut u64,
    supply: &mut Supply,
) -> Result<(), Mismatch> {
    for _page in 0..PAGES_MAX {
        if !ask_next_page(store, device, anew, supply)? {
            return Ok(());
        }
    }
    Err(Mismatch("pages come without an end"))
}

/// Whether the copy has each of the cards, and no other.
fn is_copy_of(copy: &BTreeMap<String, Stored>, cards: &BTreeMap<String, Stored>) -> bool {
    for (uid, stored) in cards.iter() {
        if copy.get(uid.as_str()) != Some(stored) {
            return false;
        }
    }
    copy.len() == cards.len()
}

/// Whether the device has exactly the cards of its book; none if the book doesn't exist.
fn has_its_book<S: BookStore>(store: &mut S, device: &Device) -> bool {
    match store.cards(device.book()) {
        Ok(cards) => is_copy_of(device.copy(), &cards),
        Err(_) => device.copy().is_empty(),
    }
}

/// Asks until a page comes untruncated. Then the device must have its book's cards.
fn catch_up<S: BookStore>(
    store: &mut S,
    device: &mut Device,
    anew: &mut u64,
    supply: &mut Supply,
) -> Result<(), Mismatch> {
    ask_until_complete(store, device, anew, supply)?;
    if has_its_book(store, device) {
        Ok(())
    } else {
        Err(Mismatch("a device holds another book"))
    }
}

/// A device for each of the two books.
#[derive(Drop)]
pub struct Followers {
    devices: Vec<Follower>,
}

impl Followers {
    /// New devices.
    pub fn new(supply: &mut Supply) -> Followers {
        let mut devices = Vec::new(supply.alloc);
        for book in ["staff", "clients"] {
            if let Some(follower) = Follower::new(book, supply) {
                supply.note(devices.push(follower));
            }
        }
        Followers { devices }
    }

    /// Each asks for a page of one entry. Returns whether the store returned a fault.
    pub fn ask<S: BookStore>(&mut self, store: &mut S, supply: &mut Supply) -> bool {
        for follower in self.devices.iter_mut() {
            if follower.ask(store, supply) {
                return true;
            }
        }
        false
    }

    /// A copy of each continues from its token over another store, and must reach the copy of its
    /// book.
    pub fn catch_up_over<S: BookStore>(
        &self,
        store: &mut S,
        anew: &mut u64,
        supply: &mut Supply,
    ) -> Result<(), Mismatch> {
        for follower in self.devices.as_slice() {
            follower.catch_up_over(store, anew, supply)?;
        }
        Ok(())
    }
}
