//! Pages of reports in JSON.

use crate::printout::Printout;
use book_model::{Entry, Page};
use page_json::{read_report, write_report};
use sync_core::token_text;
use vcard_text::write_card;

/// Prints an entry: the UID, and that the member is removed, or its version and the length of its
/// card's text in octets.
fn print_entry(entry: &Entry, out: &mut Printout) {
    match entry {
        Entry::Changed { uid, version, card } => {
            out.add(uid.as_str());
            out.add_labelled(" version ", *version);
            let written = write_card(out.alloc(), card);
            if let Some(text) = out.supply.keep(written) {
                out.add_count(" octets ", text.len());
            }
        }
        Entry::Removed { uid } => out.add_all(&[uid.as_str(), " removed"]),
    }
    out.add(", ");
}

/// Prints the page's token.
fn print_token(page: &Page, out: &mut Printout) {
    let text = token_text(out.alloc(), &page.token());
    if let Some(text) = out.supply.keep(text) {
        out.add(text.as_str());
    }
}

/// Prints each entry, the token and whether the page is truncated, and below them the text that is
/// written for the page.
fn print_page(page: &Page, out: &mut Printout) {
    for entry in page.entries.as_slice() {
        print_entry(entry, out);
    }
    print_token(page, out);
    out.add(", truncated ");
    out.add_bool(page.truncated);
    out.add("\n");
    let written = write_report(out.alloc(), page);
    if let Some(text) = out.supply.keep(written) {
        out.add_octets(text.as_slice());
    }
}

/// `page TEXT`: the page that is read, and the text that is written for it; or the fault's number.
pub(crate) fn run_page(text: &[u8], out: &mut Printout) {
    match read_report(out.alloc(), text) {
        Ok(page) => print_page(&page, out),
        Err(fault) => out.add_labelled("fault ", u64::from(fault.number())),
    }
}
