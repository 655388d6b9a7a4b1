//! Makes each call over damaged tables, and prints the answer and whether a row was changed.
ghost use Rattle.std.specs.Prelude.{◌≡◌, false};

use crate::damage::changes::{create_book, forget, import, move_card, put, remove};
use crate::damage::damage::{Damage, apply_damage};
use crate::damage::fixture::limits;
use crate::damage::reads::{book, books, cards, get, keep, kept_import, report, tally};
use crate::damage::rows::{TABLES, print_if_changed, table_rows};
use sqlite::{Alter, Connection};
use sync_core::{Limits, Mark, Token};
use test_support::Printout;

/// The calls of a store; `report` without a token and with one.
#[derive(Clone, Copy)]
pub(crate) enum Call {
    CreateBook,
    Put,
    Remove,
    MoveCard,
    Forget,
    Import,
    KeptImport,
    Get,
    Books,
    Book,
    Cards,
    Tally,
    Keep,
    Report,
    ReportAll,
}

/// All calls, with their names.
pub(crate) const CALLS: [(&str, Call); 15] = [
    ("create_book", Call::CreateBook),
    ("put", Call::Put),
    ("remove", Call::Remove),
    ("move_card", Call::MoveCard),
    ("forget", Call::Forget),
    ("import", Call::Import),
    ("kept_import", Call::KeptImport),
    ("get", Call::Get),
    ("books", Call::Books),
    ("book", Call::Book),
    ("cards", Call::Cards),
    ("tally", Call::Tally),
    ("keep", Call::Keep),
    ("report", Call::Report),
    ("report with a token", Call::ReportAll),
];

/// A token that is older than each removal.
const OLD_TOKEN: Token = Token {
    book: 1,
    mark: Mark { at: 0, base: 0 },
};

/// Makes the call, and prints its answer.
fn print_answer<S: Alter>(conn: &mut Connection<S>, limits: Limits, call: Call, out: &mut Printout)
    requires { conn.old.in_transaction ≡ false }
{
    match call {
        Call::CreateBook => create_book(conn, limits, out),
        Call::Put => put(conn, limits, out),
        Call::Remove => remove(conn, limits, out),
        Call::MoveCard => move_card(conn, limits, out),
        Call::Forget => forget(conn, out),
        Call::Import => import(conn, limits, out),
        Call::KeptImport => kept_import(conn, out),
        Call::Get => get(conn, out),
        Call::Books => books(conn, out),
        Call::Book => book(conn, out),
        Call::Cards => cards(conn, out),
        Call::Tally => tally(conn, out),
        Call::Keep => keep(conn, out),
        Call::Report => report(conn, limits, None, out),
        Call::ReportAll => report(conn, limits, Some(OLD_TOKEN), out),
    }
}

/// Makes the call outside a transaction, and prints its answer.
fn print_settled<S: Alter>(
    conn: &mut Connection<S>,
    limits: Limits,
    call: Call,
    out: &mut Printout,
) {
    if conn.is_autocommit() {
        print_answer(conn, limits, call, out);
    } else {
        out.supply.ran_out = true;
    }
}

/// Makes the call over tables with these rows, and prints its answer and whether a row was changed.
fn print_call<S: Alter>(conn: &mut Connection<S>, call: Call, rows: &Printout, out: &mut Printout) {
    match limits() {
        Some(limits) => print_settled(conn, limits, call, out),
        None => out.supply.ran_out = true,
    }
    print_if_changed(conn, &TABLES, rows, ", rows changed", out);
}

/// Damages the tables, makes the call, and prints its answer and whether a row was changed.
pub(crate) fn run_call<S: Alter>(
    conn: &mut Connection<S>,
    damage: Damage<'_>,
    call: Call,
    out: &mut Printout,
) {
    if apply_damage(conn, damage, out) {
        let rows = table_rows(conn, &TABLES, &mut out.supply);
        print_call(conn, call, &rows, out);
    }
}
