//! Runs a line over a store and devices of its books.

use crate::printout::Printout;
use crate::scripts::devices::format_device;
use crate::scripts::events::parse_event;
use crate::scripts::replies::format_reply;
use crate::scripts::running::{mirror_of, print_reply_to, replies_to_events};
use base_types::NoMemory;
use book_service::{Event, Mirrored, Reply};
use sync_core::{BookStore, Denied, Device};

/// `device BOOK` adds a new device of the book.
fn add_device(devices: &mut Vec<Device>, book: &str, out: &mut Printout) {
    out.add_count("device ", devices.len());
    let device = Device::new(out.alloc(), book);
    if let Some(device) = out.supply.keep(device) {
        out.supply.note(devices.push(device));
    }
}

/// `copy DEVICE` prints the device's token and copy.
fn print_copy(devices: &[Device], device: &str, out: &mut Printout) {
    let place = device.parse::<usize>().unwrap_or(usize::MAX);
    match devices.get(place) {
        Some(device) => {
            out.add("copy ");
            format_device(device, out);
        }
        None => out.add("** no such device **"),
    }
}

/// The number of pages, whether the mirror is complete, and the copy.
fn print_mirrored(mirrored: &Mirrored, out: &mut Printout) {
    out.add_labelled("pages ", mirrored.pages);
    out.add(if mirrored.done { " done " } else { " more " });
    format_device(&mirrored.device, out);
}

/// The refusal or the fault of a mirror.
fn print_denied(denied: Denied, out: &mut Printout) {
    let reply = match denied {
        Denied::Refused(refusal) => Reply::Refused(refusal),
        Denied::Fault(fault) => Reply::Fault(fault),
    };
    format_reply(&reply, out);
}

/// `mirror BOOK LIMIT PAGES` mirrors the book.
fn run_mirror<B: BookStore>(store: &mut B, words: &str, out: &mut Printout) {
    let (book, numbers) = words.split_once(' ').unwrap_or((words, ""));
    let (limit, pages) = numbers.split_once(' ').unwrap_or((numbers, ""));
    let limit = limit.parse::<u64>().unwrap_or(0);
    let pages = pages.parse::<u64>().unwrap_or(0);
    match mirror_of(out.alloc(), store, book, limit, pages) {
        Ok(mirrored) => print_mirrored(&mirrored, out),
        Err(denied) => print_denied(denied, out),
    }
}

/// Prints the first of the replies to the ask.
fn print_first(replies: Result<Vec<Reply>, NoMemory>, out: &mut Printout) {
    if let Some(replies) = out.supply.keep(replies) {
        match replies.first() {
            Some(reply) => format_reply(reply, out),
            None => out.add("** no reply **"),
        }
    }
}

/// Performs a command, or drives an ask of a device.
fn run_event<B: BookStore>(
    store: &mut B,
    devices: &mut Vec<Device>,
    line: &str,
    out: &mut Printout,
) {
    match parse_event(line, &mut out.supply) {
        Event::Do(command) => print_reply_to(store, &command, out),
        ask => {
            let replies = replies_to_events(out.alloc(), store, devices, &[ask]);
            print_first(replies, out);
        }
    }
}

/// Runs the line, and prints the result as one line without a line feed.
pub fn run_store_line<B: BookStore>(
    store: &mut B,
    devices: &mut Vec<Device>,
    line: &str,
    out: &mut Printout,
) {
    if let Some(book) = line.strip_prefix("device ") {
        add_device(devices, book, out);
    } else if let Some(device) = line.strip_prefix("copy ") {
        print_copy(devices.as_slice(), device, out);
    } else if let Some(words) = line.strip_prefix("mirror ") {
        run_mirror(store, words, out);
    } else {
        run_event(store, devices, line, out);
    }
}
