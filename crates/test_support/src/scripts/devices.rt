//! Prints devices as lines.
use crate::printout::Printout;
use crate::scripts::replies::print_card;
use sync_core::{Device, Token};

/// Prints the three numbers of the token, or `none`.
fn print_token(token: Option<Token>, out: &mut Printout) {
    match token {
        Some(Token { book, mark }) => {
            out.add_number(book);
            out.add_labelled("/", mark.at);
            out.add_labelled("/", mark.base);
        }
        None => out.add("none"),
    }
}

/// Prints a device in one line, without a line feed: the numbers of its token, and the cards of its
/// copy, each after a bar.
pub fn format_device(device: &Device, out: &mut Printout) {
    print_token(device.token(), out);
    for (uid, stored) in device.copy().iter() {
        out.add(" | ");
        print_card(uid.as_str(), stored.version, &stored.card, out);
    }
}
