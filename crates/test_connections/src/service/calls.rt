//! Calls of a store that no command makes.
use crate::checks::check;
use crate::service::new_store;
use sync_core::{BookStore, Denied, ImportTally, Mark, PlainStore, Refusal, Token, TokenCause};
use test_support::Printout;
use test_support::scripts::run_script;

/// A book, and an import into it.
const SETUP: &str = "create staff
import staff k1 uid,fn,family,given,email,tel,org,note\\np,Pat,,,,,,\\nq,Quin,,,,,,\\nr,Rae,,,,,,\
\\n";

/// The tally of the import.
const THREE_ADDED: ImportTally = ImportTally {
    added: 3,
    edited: 0,
    same: 0,
    number: 3,
};

/// A token whose numbers are in the wrong order. No text is read as such a token.
const UNORDERED: Token = Token {
    book: 1,
    mark: Mark { at: 4, base: 0 },
};

/// Imports no cards into the book.
fn import_nothing(store: &mut PlainStore, book: &str, key: &str) -> Result<ImportTally, Denied> {
    store.import(book, key, &[])
}

/// Checks that a report since the unordered token is refused.
fn check_no_report(store: &mut PlainStore, out: &mut Printout) {
    let too_new = Denied::Refused(Refusal::BadToken(TokenCause::TooNew));
    let refused = store.report("staff", Some(UNORDERED), None).err();
    check(refused == Some(too_new), "an unordered token", out);
}

/// An import under a kept key, which changes nothing, and under illegal keys; and a report since an
/// unordered token. Commands test for these before they call the store.
pub(crate) fn answers_calls_that_no_command_makes(out: &mut Printout) {
    let mut store = new_store(out.alloc());
    let mut replies = Printout::new(out.alloc());
    run_script(&mut store, SETUP, &mut replies);
    let expected: &[u8] = b"book 1\nadded 3 edited 0 same 0 number 3\n";
    check(replies.as_slice() == expected, "the setup", out);
    let kept = import_nothing(&mut store, "staff", "k1");
    check(kept == Ok(THREE_ADDED), "a kept key", out);
    let bad = import_nothing(&mut store, "staff", "k/3");
    check(
        bad == Err(Denied::Refused(Refusal::BadKey)),
        "a bad key",
        out,
    );
    let lost = import_nothing(&mut store, "clients", "k/3");
    let is_lost = lost == Err(Denied::Refused(Refusal::NoSuchBook));
    check(is_lost, "no book and a bad key", out);
    check_no_report(&mut store, out);
}
