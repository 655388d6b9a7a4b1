//! A device that asks a store that returns a fault from each call, and one that asks a store which
//! is behind. (The rows test the replies of such a store over HTTP.)
use crate::checks::check;
use crate::service::new_store;
use base_types::NoMemory;
use book_service::{Event, Reply};
use std::alloc::Global;
use sync_core::{BookStore, Denied, Device, Fault};
use test_support::scripts::{FailingStore, format_reply, mirror_of, replies_to_events, run_script};
use test_support::{Printout, Supply};

/// A device of the book `staff`.
fn device_of_staff(supply: &mut Supply) -> Vec<Device> {
    let mut devices = Vec::new(supply.alloc);
    if let Some(device) = supply.keep(Device::new(supply.alloc, "staff")) {
        supply.note(devices.push(device));
    }
    devices
}

/// The replies to the device that asks the store.
fn replies_of<S: BookStore>(
    alloc: Global,
    store: &mut S,
    devices: &mut Vec<Device>,
) -> Result<Vec<Reply>, NoMemory> {
    let ask = Event::Ask {
        device: 0,
        limit: None,
    };
    replies_to_events(alloc, store, devices, &[ask])
}

/// Checks that a device and a mirror get the fault.
fn check_fault(fault: Fault, out: &mut Printout) {
    let mut store = FailingStore::new(fault);
    let mut devices = device_of_staff(&mut out.supply);
    match replies_of(out.alloc(), &mut store, &mut devices) {
        Ok(replies) => check(
            replies.first() == Some(&Reply::Fault(fault)),
            "the reply to the device",
            out,
        ),
        Err(_) => out.supply.ran_out = true,
    }
    let denied = mirror_of(out.alloc(), &mut store, "staff", 1, 1).err();
    check(denied == Some(Denied::Fault(fault)), "the mirror", out);
}

pub(crate) fn passes_on_faults(out: &mut Printout) {
    check_fault(Fault::Store, out);
    check_fault(Fault::Memory, out);
}

/// Checks how the reply to the device that asks begins, over a new store with these commands.
fn check_asks(devices: &mut Vec<Device>, commands: &str, expected: &[u8], out: &mut Printout) {
    let mut store = new_store(out.alloc());
    let mut printed = Printout::new(out.alloc());
    run_script(&mut store, commands, &mut printed);
    out.supply.note(printed.result());
    let mut line = Printout::new(out.alloc());
    match replies_of(out.alloc(), &mut store, devices) {
        Ok(replies) => {
            for reply in replies.as_slice() {
                format_reply(reply, &mut line);
            }
        }
        Err(_) => out.supply.ran_out = true,
    }
    check(line.as_slice().starts_with(expected), commands, out);
}

/// The device of a book with two changes asks another store, whose book has one: its token is too
/// new. It drops the token, and so gets the whole book then.
pub(crate) fn drops_a_refused_token(out: &mut Printout) {
    let mut devices = device_of_staff(&mut out.supply);
    let two = "create staff\ncard staff a FN:Ann\nremove staff a";
    let one = "create staff\ncard staff z FN:Zoe";
    check_asks(&mut devices, two, b"page 1/2/2", out);
    check_asks(&mut devices, one, b"refused 10 cause 3", out);
    check_asks(&mut devices, one, b"page 1/1/1 | z 1 ", out);
}
