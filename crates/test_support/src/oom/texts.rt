//! Calls that read and write texts, and keep no state.

use crate::oom::harness::Harness;
use crate::oom::stores::{InMemory, filled_store};
use crate::printout::Printout;
use crate::supply::Supply;
use card_core::{GroupFault, expand};
use csv_cards::{CsvCause, CsvFault, Form, read_rows, write_rows};
use page_json::{ReportFault, read_report, write_report};
use std::collections::BTreeMap;
use sync_core::{BookStore, Page, PlainStore};
use vcard_text::{Card, CardFault, read_card, write_card};

/// A card with a fold, a group, parameters with and without quotes, and a line that must be folded.
pub const CARD: &str = "BEGIN:VCARD\r\nVERSION:4.0\r\nUID:a\r\nfn;LANGUAGE=en:An\r\n n Example\r\n\
    home.TEL;TYPE=\"home,voice\";PREF=1:+1 555 0100\r\nN:Example;Ann;;;\r\n\
    NOTE:She is in the office on Mondays and Tuesdays\\, and elsewhere on the other days\r\n\
    END:VCARD\r\n";

/// A group that reaches another one, a cycle, and a missing member.
const GROUPS: [&str; 4] = [
    "UID:g\r\nFN:All\r\nKIND:group\r\nMEMBER:a\r\nMEMBER:urn:uuid:h\r\nMEMBER:nobody\r\n",
    "UID:h\r\nFN:Some\r\nKIND:group\r\nMEMBER:b\r\nMEMBER:g\r\nMEMBER:a\r\n",
    "UID:a\r\nFN:Ann\r\nN:Example;Ann;;;\r\nEMAIL:ann@office.invalid\r\n",
    "UID:b\r\nFN:Bob\r\nNOTE:one\\, two\\; \"three\"\r\n",
];

/// Rows of columns, some of them in quotes.
const COLUMNS: &str = "uid,fn,family,given,email,tel,org,note\r\na,Ann,Example,Ann,,,Office,\r\n\
    b,\"Bob, of the desk\",,,bob@office.invalid,1,,\"one\n\"\"two\"\"\"\r\nc,Cy,,,,,,\r\n";

/// Rows of a UID and a card's text.
const ROWS: &str = "uid,vcard\na,\"BEGIN:VCARD\nVERSION:4.0\nUID:a\nFN:Ann\nEND:VCARD\n\"\n\
    ,\"BEGIN:VCARD\nVERSION:4.0\nUID:b\nFN:Bob\nEND:VCARD\n\"\n";

fn read_card_case(harness: &mut Harness) {
    if !harness.is_selected("read_card") {
        return;
    }
    let alloc = harness.alloc();
    let expected = read_card(alloc, CARD.as_bytes());
    harness.open_window("read_card");
    let answer = read_card(alloc, CARD.as_bytes());
    harness.close_window();
    let again = read_card(alloc, CARD.as_bytes());
    let ran_out = matches!(&answer, Err(CardFault::Memory));
    harness.report_stateless(expected, ran_out, answer, again);
}

fn write_card_case(harness: &mut Harness, card: &Card) {
    let alloc = harness.alloc();
    let expected = write_card(alloc, card);
    harness.open_window("write_card");
    let answer = write_card(alloc, card);
    harness.close_window();
    let again = write_card(alloc, card);
    harness.report_stateless(expected, answer.is_err(), answer, again);
}

fn read_rows_case(harness: &mut Harness, name: &str, rows: &str) {
    if !harness.is_selected(name) {
        return;
    }
    let alloc = harness.alloc();
    let expected = read_rows(alloc, rows.as_bytes());
    harness.open_window(name);
    let answer = read_rows(alloc, rows.as_bytes());
    harness.close_window();
    let again = read_rows(alloc, rows.as_bytes());
    let ran_out = is_out_of_memory(&answer);
    harness.report_stateless(expected, ran_out, answer, again);
}

fn is_out_of_memory(read: &Result<Vec<Card>, CsvFault>) -> bool {
    match read {
        Ok(_) => false,
        Err(fault) => matches!(fault.cause, CsvCause::Memory),
    }
}

/// The card with the lines.
fn card_of(lines: &str, supply: &mut Supply) -> Option<Card> {
    let mut text = Printout::new(supply.alloc);
    text.add_all(&["BEGIN:VCARD\r\nVERSION:4.0\r\n", lines, "END:VCARD\r\n"]);
    supply.note(text.result());
    supply.keep(read_card(supply.alloc, text.as_slice()))
}

/// Inserts the card at its UID.
fn insert_card(cards: &mut BTreeMap<String, Card>, card: Card, supply: &mut Supply) {
    let uid = supply.string(card.uid());
    match cards.insert(uid, card) {
        Ok(_) => {}
        Err(_) => supply.ran_out = true,
    }
}

/// The cards of the groups, by UID.
fn group_cards(supply: &mut Supply) -> BTreeMap<String, Card> {
    let mut cards = BTreeMap::new(supply.alloc);
    for lines in GROUPS {
        if let Some(card) = card_of(lines, supply) {
            insert_card(&mut cards, card, supply);
        }
    }
    cards
}

fn write_rows_case(harness: &mut Harness, name: &str, form: Form) {
    if !harness.is_selected(name) {
        return;
    }
    let alloc = harness.alloc();
    let cards = group_cards(&mut harness.supply);
    let expected = write_rows(alloc, &cards, form);
    harness.open_window(name);
    let answer = write_rows(alloc, &cards, form);
    harness.close_window();
    let again = write_rows(alloc, &cards, form);
    harness.report_stateless(expected, answer.is_err(), answer, again);
}

fn expand_case(harness: &mut Harness) {
    if !harness.is_selected("expand") {
        return;
    }
    let alloc = harness.alloc();
    let cards = group_cards(&mut harness.supply);
    let expected = expand(alloc, &cards, "g");
    harness.open_window("expand");
    let answer = expand(alloc, &cards, "g");
    harness.close_window();
    let again = expand(alloc, &cards, "g");
    let ran_out = matches!(&answer, Err(GroupFault::Memory));
    harness.report_stateless(expected, ran_out, answer, again);
}

/// A page of the store, of cards and of a removed one, since the first entry.
fn page_of(store: &mut PlainStore, supply: &mut Supply) -> Option<Page> {
    let first = match supply.keep(store.report("staff", None, Some(1))) {
        Some(page) => Some(page.token()),
        None => None,
    };
    if supply.keep(store.remove("staff", "c", None)).is_none() {
        return None;
    }
    supply.keep(store.report("staff", first, None))
}

/// A page of the filled store.
fn some_page(supply: &mut Supply) -> Option<Page> {
    match filled_store(&InMemory, supply) {
        Some(store) => {
            let mut store = store;
            page_of(&mut store, supply)
        }
        None => None,
    }
}

fn write_report_case(harness: &mut Harness, page: &Page) {
    let alloc = harness.alloc();
    let expected = write_report(alloc, page);
    harness.open_window("write_report");
    let answer = write_report(alloc, page);
    harness.close_window();
    let again = write_report(alloc, page);
    harness.report_stateless(expected, answer.is_err(), answer, again);
}

fn read_report_case(harness: &mut Harness, text: &[u8]) {
    let alloc = harness.alloc();
    let expected = read_report(alloc, text);
    harness.open_window("read_report");
    let answer = read_report(alloc, text);
    harness.close_window();
    let again = read_report(alloc, text);
    let ran_out = matches!(&answer, Err(ReportFault::Memory));
    harness.report_stateless(expected, ran_out, answer, again);
}

/// Runs the selected cases that write and read a page.
fn run_page(harness: &mut Harness, page: &Page) {
    if harness.is_selected("write_report") {
        write_report_case(harness, page);
    }
    if harness.is_selected("read_report") {
        let text = write_report(harness.alloc(), page);
        if let Some(text) = harness.supply.keep(text) {
            read_report_case(harness, text.as_slice());
        }
    }
}

/// Runs the selected cases with a page of the filled store.
fn run_pages(harness: &mut Harness) {
    if let Some(page) = some_page(&mut harness.supply) {
        run_page(harness, &page);
    }
}

/// Runs the selected cases of one card's text.
pub fn run_cards(harness: &mut Harness) {
    read_card_case(harness);
    if harness.is_selected("write_card") {
        let card = read_card(harness.alloc(), CARD.as_bytes());
        if let Some(card) = harness.supply.keep(card) {
            write_card_case(harness, &card);
        }
    }
}

/// Runs the selected cases of other texts.
pub fn run_texts(harness: &mut Harness) {
    read_rows_case(harness, "read_rows, of columns", COLUMNS);
    read_rows_case(harness, "read_rows, of cards", ROWS);
    write_rows_case(harness, "write_rows, as columns", Form::Columns);
    write_rows_case(harness, "write_rows, as cards", Form::Cards);
    expand_case(harness);
    if harness.is_selected("write_report") || harness.is_selected("read_report") {
        run_pages(harness);
    }
}
