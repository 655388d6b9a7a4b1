//! The calls that only read, over a connection.
use crate::damage::answers::{
    print_book_line, print_book_lines, print_card, print_denied, print_import, print_number,
    print_page, print_tally,
};
use book_model::TombstoneCounts;
use sqlite::{Alter, Connection};
use store_queries::book_queries::{
    import_of_book, keep_of_book, line_of_book, stored_of_book, tally_of_book,
};
use store_queries::list_queries::{cards_of_book, lines_of_books};
use store_queries::report_queries::page_of_book;
use sync_core::{Limits, Token};
use test_support::Printout;

pub(crate) fn kept_import<S: Alter>(conn: &mut Connection<S>, out: &mut Printout) {
    match import_of_book(conn, "staff", "k1") {
        Ok(Some(tally)) => print_import(tally, out),
        Ok(None) => out.add("none"),
        Err(denied) => print_denied(denied, out),
    }
}

/// The card's version, and its own UID.
pub(crate) fn get<S: Alter>(conn: &mut Connection<S>, out: &mut Printout) {
    match stored_of_book(out.alloc(), conn, "staff", "ann") {
        Ok(stored) => {
            out.add("card");
            print_card(stored.version, &stored.card, out);
        }
        Err(denied) => print_denied(denied, out),
    }
}

pub(crate) fn books<S: Alter>(conn: &mut Connection<S>, out: &mut Printout) {
    match lines_of_books(out.alloc(), conn) {
        Ok(lines) => print_book_lines(lines.as_slice(), out),
        Err(denied) => print_denied(denied, out),
    }
}

pub(crate) fn book<S: Alter>(conn: &mut Connection<S>, out: &mut Printout) {
    match line_of_book(out.alloc(), conn, "staff") {
        Ok(line) => print_book_line(&line, out),
        Err(denied) => print_denied(denied, out),
    }
}

/// The number of cards.
pub(crate) fn cards<S: Alter>(conn: &mut Connection<S>, out: &mut Printout) {
    match cards_of_book(out.alloc(), conn, "staff") {
        Ok(cards) => out.add_count("cards ", cards.len()),
        Err(denied) => print_denied(denied, out),
    }
}

pub(crate) fn tally<S: Alter>(conn: &mut Connection<S>, out: &mut Printout) {
    let mut counts = TombstoneCounts::new(out.alloc());
    match tally_of_book(conn, &mut counts, "staff") {
        Ok(tally) => print_tally(&tally, out),
        Err(denied) => print_denied(denied, out),
    }
}

pub(crate) fn keep<S: Alter>(conn: &mut Connection<S>, out: &mut Printout) {
    print_number("keep ", keep_of_book(conn, "staff"), out);
}

/// A report, since the token if there is one.
pub(crate) fn report<S: Alter>(
    conn: &mut Connection<S>,
    limits: Limits,
    token: Option<Token>,
    out: &mut Printout,
) {
    match page_of_book(out.alloc(), conn, limits, "staff", token, None) {
        Ok(page) => print_page(&page, out),
        Err(denied) => print_denied(denied, out),
    }
}
