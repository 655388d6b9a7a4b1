//! Commands over filled stores. They make each of the calls of a store.

use crate::oom::books::{has_books, is_no_memory, query_books};
use crate::oom::harness::Harness;
use crate::oom::stores::{Stores, filled_store};
use crate::scripts::{parse_command, reply_to};
use crate::supply::Supply;
use book_service::{Command, Reply};
use sync_core::BookStore;

/// The cases: a name, and the command whose allocations are refused.
const CASES: &[(&str, &str)] = &[
    ("create_book", "create third"),
    (
        "put, created",
        "card staff e FN:Eve\\nTEL;TYPE=\"home,cell\":1",
    ),
    (
        "put, edited",
        "card staff a FN:Anna\\nEMAIL:anna@office.invalid",
    ),
    ("put, unchanged", "card staff c FN:Cy"),
    ("book, before a bad card", "card staff c nonsense"),
    ("get", "get staff b"),
    ("remove", "remove clients h"),
    ("remove, and forget another", "remove staff c"),
    ("move_card, and forget another", "move staff c clients"),
    ("forget", "forget staff 6"),
    ("kept_import", "import clients k nonsense"),
    (
        "import",
        "import staff k2 uid,fn,family,given,email,tel,org,note\\na,Anna,,,,,,\\nc,Cy,,,,,,\\n\
            d,Dee,Dee,Dora,,,,\\nk,Kay,,,k@office.invalid,1,,\\n",
    ),
    (
        "import, refused",
        "import staff k2 uid,vcard\\na,nonsense\\n",
    ),
    ("books", "books"),
    ("cards, exported as cards", "export staff cards"),
    ("cards, exported as columns", "export staff columns"),
    ("cards, for people", "people staff g"),
    ("tally", "tally staff"),
    ("report, initial", "report staff"),
    (
        "report, since a token",
        "report staff http://contacts.invalid/sync/1/2/2 3",
    ),
];

/// The reply to a command if memory suffices, and the books before and after it.
#[derive(Drop)]
struct Expected {
    before: Vec<Reply>,
    reply: Reply,
    after: Vec<Reply>,
}

fn expected_from<S: BookStore>(twin: &mut S, command: &Command, supply: &mut Supply) -> Expected {
    Expected {
        before: query_books(twin, supply),
        reply: reply_to(supply.alloc, twin, command),
        after: query_books(twin, supply),
    }
}

/// Whether the reply and the books are the expected ones when the command is performed again.
fn repeats_as_expected<S: BookStore>(
    store: &mut S,
    command: &Command,
    expected: &Expected,
    supply: &mut Supply,
) -> bool {
    let again = reply_to(supply.alloc, store, command) == expected.reply;
    has_books(store, expected.after.as_slice(), supply) && again
}

/// Reports the outcome of the command, from its reply and the books.
fn report_reply<S: BookStore>(
    harness: &mut Harness,
    store: &mut S,
    command: &Command,
    expected: &Expected,
    reply: &Reply,
) {
    let left = query_books(store, &mut harness.supply);
    if is_no_memory(reply) {
        let again = repeats_as_expected(store, command, expected, &mut harness.supply);
        harness.report_no_memory(left.as_slice() == expected.before.as_slice(), again, &left);
    } else {
        let same = *reply == expected.reply && left.as_slice() == expected.after.as_slice();
        harness.report_answer(same, reply);
    }
}

/// Performs the command over the store in a window, and reports the outcome. The twin store has the
/// same books.
fn run_command_case<S: BookStore>(
    harness: &mut Harness,
    store: &mut S,
    twin: &mut S,
    command: &Command,
    name: &str,
    over: &str,
) {
    let expected = expected_from(twin, command, &mut harness.supply);
    harness.open_window_over(name, over);
    let reply = reply_to(harness.alloc(), store, command);
    harness.close_window();
    report_reply(harness, store, command, &expected, &reply);
}

/// Runs the case of the line over stores of the kind.
fn run_line_case<K: Stores>(harness: &mut Harness, kind: &K, name: &str, line: &str) {
    let command = parse_command(line, &mut harness.supply);
    let store = filled_store(kind, &mut harness.supply);
    let twin = filled_store(kind, &mut harness.supply);
    if let (Some(mut store), Some(mut twin)) = (store, twin) {
        run_command_case(harness, &mut store, &mut twin, &command, name, kind.over());
    }
}

/// Runs the selected commands over stores of the kind.
pub fn run_commands<K: Stores>(harness: &mut Harness, kind: &K) {
    for (name, line) in CASES {
        if harness.is_selected_over(name, kind.over()) {
            run_line_case(harness, kind, name, line);
        }
    }
}
