//! Prints replies as lines.
use crate::printout::Printout;
use book_service::Reply;
use card_core::Expansion;
use sync_core::{BookLine, Entry, ImportTally, Page, PutAnswer, Refusal, Tally};
use vcard_text::{Card, Text, write_card};

/// Adds the octets as text in one line.
fn print_octets(octets: &[u8], out: &mut Printout) {
    match str::from_utf8(octets) {
        Ok(text) => out.add_escaped(text),
        Err(_) => out.add("** not UTF-8 **"),
    }
}

/// Prints the card's UID, version and text.
pub(crate) fn print_card(uid: &str, version: u64, card: &Card, out: &mut Printout) {
    out.add(uid);
    out.add_labelled(" ", version);
    out.add(" ");
    let written = write_card(out.alloc(), card);
    if let Some(text) = out.supply.keep(written) {
        print_octets(text.as_slice(), out);
    }
}

/// `books`, then each book's name, id, number and horizon.
fn print_books(lines: &[BookLine], out: &mut Printout) {
    out.add("books");
    for line in lines {
        out.add_all(&[" | ", line.name.as_str()]);
        out.add_numbers("", &[line.id, line.number, line.horizon]);
    }
}

fn print_put(answer: &PutAnswer, out: &mut Printout) {
    match answer {
        PutAnswer::Created { version } => out.add_labelled("created ", *version),
        PutAnswer::Edited { version } => out.add_labelled("edited ", *version),
        PutAnswer::Unchanged { version } => out.add_labelled("unchanged ", *version),
    }
}

fn print_entry(entry: &Entry, out: &mut Printout) {
    match entry {
        Entry::Changed { uid, version, card } => print_card(uid.as_str(), *version, card, out),
        Entry::Removed { uid } => out.add_all(&[uid.as_str(), " gone"]),
    }
}

/// The numbers of the page's token, whether it is truncated, and the entries.
fn print_page(page: &Page, out: &mut Printout) {
    out.add_labelled("page ", page.book);
    out.add_labelled("/", page.mark.at);
    out.add_labelled("/", page.mark.base);
    out.add(if page.truncated { " and more" } else { "" });
    for entry in page.entries.as_slice() {
        out.add(" | ");
        print_entry(entry, out);
    }
}

fn print_import(tally: &ImportTally, out: &mut Printout) {
    out.add_labelled("added ", tally.added);
    out.add_labelled(" edited ", tally.edited);
    out.add_labelled(" same ", tally.same);
    out.add_labelled(" number ", tally.number);
}

/// The numbers of a tally, each after its name.
fn print_tally(tally: &Tally, out: &mut Printout) {
    let mut space = "";
    for (name, number) in tally.named() {
        out.add_all(&[space, name, " "]);
        out.add_number(number);
        space = " ";
    }
}

/// Adds each text after a space.
fn print_texts(texts: &[Text], out: &mut Printout) {
    for text in texts {
        out.add_all(&[" ", text.as_str()]);
    }
}

/// `people` and each UID, then `missing` and each value.
fn print_people(expansion: &Expansion, out: &mut Printout) {
    out.add("people");
    print_texts(expansion.people.as_slice(), out);
    out.add(" | missing");
    print_texts(expansion.missing.as_slice(), out);
}

/// The refusal's number, and its cause or the current version.
fn print_refusal(refusal: &Refusal, out: &mut Printout) {
    out.add_labelled("refused ", u64::from(refusal.number()));
    match refusal {
        Refusal::BadToken(cause) => out.add_labelled(" cause ", u64::from(cause.number())),
        Refusal::BadCard(fault) => out.add_labelled(" fault ", u64::from(fault.number())),
        Refusal::BadImport { row, cause } => {
            out.add_labelled(" row ", *row);
            out.add_labelled(" cause ", u64::from(*cause));
        }
        Refusal::VersionMismatch { has } => out.add_labelled(" has ", *has),
        _ => {}
    }
}

/// Prints a reply in one line, without a line feed: its kind with its numbers and cards, and the
/// items of a list after bars.
pub fn format_reply(reply: &Reply, out: &mut Printout) {
    match reply {
        Reply::Created { id } => out.add_labelled("book ", *id),
        Reply::Books(lines) => print_books(lines.as_slice(), out),
        Reply::Card { uid, version, card } => {
            out.add("card ");
            print_card(uid.as_str(), *version, card, out);
        }
        Reply::Put(answer) => print_put(answer, out),
        Reply::Gone { number } => out.add_labelled("gone ", *number),
        Reply::Moved(numbers) => out.add_numbers("moved", &[numbers.from, numbers.version]),
        Reply::Page(page) => print_page(page, out),
        Reply::Imported(tally) => print_import(tally, out),
        Reply::Forgot { dropped, horizon } => {
            out.add_labelled("forgot ", *dropped);
            out.add_labelled(" horizon ", *horizon);
        }
        Reply::Tally(tally) => print_tally(tally, out),
        Reply::Csv(text) => {
            out.add("rows ");
            print_octets(text.as_slice(), out);
        }
        Reply::People(expansion) => print_people(expansion, out),
        Reply::Refused(refusal) => print_refusal(refusal, out),
        Reply::Fault(fault) => out.add_labelled("fault ", u64::from(fault.number())),
    }
}
