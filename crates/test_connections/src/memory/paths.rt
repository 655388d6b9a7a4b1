//! What the program does with its words: an order, and the order `try`, one card through the program
//! without arguments.

use cli_args::{LineFault, Order, read_order};
use cli_orders::first_path;
use sync_core::{Denied, Fault};
use test_support::Supply;
use test_support::oom::{CARD, Harness};

/// Reads a card, puts it into an empty book, and asks for the report.
pub fn run_first_path(harness: &mut Harness) {
    if !harness.is_selected("first_path") {
        return;
    }
    let alloc = harness.alloc();
    let expected = first_path(alloc, CARD.as_bytes());
    harness.open_window("first_path");
    let answer = first_path(alloc, CARD.as_bytes());
    harness.close_window();
    let again = first_path(alloc, CARD.as_bytes());
    let ran_out = matches!(&answer, Err(Denied::Fault(Fault::Memory)));
    harness.report_stateless(expected, ran_out, answer, again);
}

/// The words of an order.
fn words(supply: &mut Supply) -> Vec<String> {
    let mut words = Vec::new(supply.alloc);
    for word in ["tally", "FILE", "staff"] {
        let copy = supply.string(word);
        supply.note(words.push(copy));
    }
    words
}

/// Whether the order is the one that the words spell, or why there is none.
fn is_tally(order: Result<Order, LineFault>) -> Result<bool, LineFault> {
    match order {
        Ok(Order::Tally { file, book }) => Ok(file.as_str() == "FILE" && book.as_str() == "staff"),
        Ok(_) => Ok(false),
        Err(fault) => Err(fault),
    }
}

/// Reads an order.
pub fn run_read_order(harness: &mut Harness) {
    if !harness.is_selected("read_order") {
        return;
    }
    let alloc = harness.alloc();
    let words = words(&mut harness.supply);
    let expected = is_tally(read_order(alloc, words.as_slice()));
    harness.open_window("read_order");
    let answer = read_order(alloc, words.as_slice());
    harness.close_window();
    let again = is_tally(read_order(alloc, words.as_slice()));
    let ran_out = matches!(&answer, Err(LineFault::Memory));
    harness.report_stateless(expected, ran_out, is_tally(answer), again);
}
