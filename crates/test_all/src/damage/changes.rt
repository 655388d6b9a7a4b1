//! The calls that change books, over a connection outside a transaction.
ghost use Rattle.std.specs.Prelude.{◌≡◌, false};

use crate::damage::answers::{print_denied, print_import, print_number, print_put};
use book_model::TombstoneCounts;
use csv_cards::read_rows;
use sqlite::{Alter, Connection};
use store_inserts::creating::create_in_tables;
use store_inserts::importing::import_in_book;
use store_removals::move_call::move_in_tables;
use store_removals::remove_call::remove_in_book;
use store_writes::forgetting::forget_in_book;
use store_writes::put_call::put_in_book;
use sync_core::Limits;
use test_support::Printout;
use vcard_text::{Card, read_card};

/// Another card of Ann.
const ANN: &[u8] = b"BEGIN:VCARD\nVERSION:4.0\nUID:ann\nFN:Ann Lee\nEND:VCARD\n";

/// Another card of Ann, and a card of Zoe.
const ROWS: &[u8] = b"uid,fn,family,given,email,tel,org,note\nann,Ann Day,,,,,,\nzoe,Zoe,,,,,,\n";

pub(crate) fn create_book<S: Alter>(conn: &mut Connection<S>, limits: Limits, out: &mut Printout)
    requires { conn.old.in_transaction ≡ false }
{
    print_number("book ", create_in_tables(conn, limits, "new"), out);
}

fn put_card<S: Alter>(conn: &mut Connection<S>, limits: Limits, card: &Card, out: &mut Printout)
    requires { conn.old.in_transaction ≡ false }
{
    let mut counts = TombstoneCounts::new(out.alloc());
    match put_in_book(out.alloc(), conn, &mut counts, limits, "staff", card, None) {
        Ok(answer) => print_put(answer, out),
        Err(denied) => print_denied(denied, out),
    }
}

pub(crate) fn put<S: Alter>(conn: &mut Connection<S>, limits: Limits, out: &mut Printout)
    requires { conn.old.in_transaction ≡ false }
{
    match read_card(out.alloc(), ANN) {
        Ok(card) => put_card(conn, limits, &card, out),
        Err(_) => out.supply.ran_out = true,
    }
}

pub(crate) fn remove<S: Alter>(conn: &mut Connection<S>, limits: Limits, out: &mut Printout)
    requires { conn.old.in_transaction ≡ false }
{
    let alloc = out.alloc();
    let mut counts = TombstoneCounts::new(alloc);
    let number = remove_in_book(alloc, conn, &mut counts, limits, "staff", "ann", None);
    print_number("gone ", number, out);
}

pub(crate) fn move_card<S: Alter>(conn: &mut Connection<S>, limits: Limits, out: &mut Printout)
    requires { conn.old.in_transaction ≡ false }
{
    let alloc = out.alloc();
    let mut counts = TombstoneCounts::new(alloc);
    let moved = move_in_tables(
        alloc,
        conn,
        &mut counts,
        limits,
        "staff",
        "clients",
        "ann",
        None,
    );
    match moved {
        Ok(moved) => out.add_numbers("moved", &[moved.from, moved.version]),
        Err(denied) => print_denied(denied, out),
    }
}

/// Forgets the tombstones of `staff` up to its fifth change.
pub(crate) fn forget<S: Alter>(conn: &mut Connection<S>, out: &mut Printout)
    requires { conn.old.in_transaction ≡ false }
{
    let mut counts = TombstoneCounts::new(out.alloc());
    print_number(
        "forgot ",
        forget_in_book(conn, &mut counts, "staff", 5),
        out,
    );
}

pub(crate) fn import<S: Alter>(conn: &mut Connection<S>, limits: Limits, out: &mut Printout)
    requires { conn.old.in_transaction ≡ false }
{
    let alloc = out.alloc();
    let Ok(cards) = read_rows(alloc, ROWS) else {
        out.supply.ran_out = true;
        return;
    };
    let mut counts = TombstoneCounts::new(alloc);
    let tally = import_in_book(
        alloc,
        conn,
        &mut counts,
        limits,
        "staff",
        "k3",
        cards.as_slice(),
    );
    match tally {
        Ok(tally) => print_import(tally, out),
        Err(denied) => print_denied(denied, out),
    }
}
