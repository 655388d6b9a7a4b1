//! Prints answers in one line.
use sync_core::{BookLine, Denied, Entry, ImportTally, Page, PutAnswer, Tally};
use test_support::Printout;
use vcard_text::Card;

/// The refusal's number, or the fault's.
pub(crate) fn print_denied(denied: Denied, out: &mut Printout) {
    match denied {
        Denied::Refused(refusal) => out.add_labelled("refused ", u64::from(refusal.number())),
        Denied::Fault(fault) => out.add_labelled("fault ", u64::from(fault.number())),
    }
}

/// The label and the number of an answer, or why there is none.
pub(crate) fn print_number(label: &str, answer: Result<u64, Denied>, out: &mut Printout) {
    match answer {
        Ok(number) => out.add_labelled(label, number),
        Err(denied) => print_denied(denied, out),
    }
}

/// The book's name, id, number and horizon.
pub(crate) fn print_book_line(line: &BookLine, out: &mut Printout) {
    let numbers = [line.id, line.number, line.horizon];
    out.add_numbers(line.name.as_str(), &numbers);
}

/// The lines, each after a bar.
pub(crate) fn print_book_lines(lines: &[BookLine], out: &mut Printout) {
    out.add("books");
    for line in lines {
        out.add(" | ");
        print_book_line(line, out);
    }
}

/// The kind of the put, and the card's version.
pub(crate) fn print_put(answer: PutAnswer, out: &mut Printout) {
    match answer {
        PutAnswer::Created { version } => out.add_labelled("created ", version),
        PutAnswer::Edited { version } => out.add_labelled("edited ", version),
        PutAnswer::Unchanged { version } => out.add_labelled("unchanged ", version),
    }
}

/// The numbers of an import, in the order of its fields.
pub(crate) fn print_import(tally: ImportTally, out: &mut Printout) {
    let ImportTally {
        added,
        edited,
        same,
        number,
    } = tally;
    out.add_numbers("import", &[added, edited, same, number]);
}

/// The numbers of a tally, in the byte order of their names.
pub(crate) fn print_tally(tally: &Tally, out: &mut Printout) {
    out.add("tally");
    for (_, number) in tally.named() {
        out.add_labelled(" ", number);
    }
}

/// The card's version, and the card's own UID.
pub(crate) fn print_card(version: u64, card: &Card, out: &mut Printout) {
    out.add_labelled(" ", version);
    out.add(" ");
    out.add(card.uid());
}

/// A live member's UID, its version and the UID of its card; or that the member is removed.
fn print_entry(entry: &Entry, out: &mut Printout) {
    match entry {
        Entry::Changed { uid, version, card } => {
            out.add(uid.as_str());
            print_card(*version, card, out);
        }
        Entry::Removed { uid } => {
            out.add(uid.as_str());
            out.add(" gone");
        }
    }
}

/// The numbers of the page's token, and each entry after a comma.
pub(crate) fn print_page(page: &Page, out: &mut Printout) {
    out.add_labelled("page ", page.book);
    out.add_labelled("/", page.mark.at);
    out.add_labelled("/", page.mark.base);
    out.add(if page.truncated { " and more" } else { "" });
    for entry in page.entries.as_slice() {
        out.add(", ");
        print_entry(entry, out);
    }
}
