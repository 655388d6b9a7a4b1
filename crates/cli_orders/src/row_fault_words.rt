//! The words for what is wrong with a row of a damaged file.
ghost use Rattle.std.specs.Prelude.{◌≡◌};
ghost use Rattle.cli_orders.specs.RowFaultWords.{book_fault_words, import_fault_words};
ghost use Rattle.cli_orders.specs.RowFaultWords.{keep_fault_words, member_fault_words};
ghost use Rattle.cli_orders.specs.RowFaultWords.{row_fault_words};

use store_check::faults::{BookFault, ImportFault, KeepFault, MemberFault, RowFault};

fn book_fault_words(fault: BookFault) -> &'static str
    ensures { result.now ≡ book_fault_words fault }
{
    match fault {
        BookFault::Columns => "the name isn't a text, or a number is missing or negative",
        BookFault::TooMany => "there are more books than a store may have",
        BookFault::Id => "the id isn't from 1 to the number of books",
        BookFault::Name => "the name isn't a legal name of a book",
        BookFault::Numbers => {
            "the counts don't add up to the number, or the number or the horizon is too large"
        }
        BookFault::Keep => "the keep is missing or 0, or there are more tombstones than it allows",
        BookFault::Cards => "the counts don't add up to the number of cards",
    }
}

fn member_fault_words(fault: MemberFault) -> &'static str
    ensures { result.now ≡ member_fault_words fault }
{
    match fault {
        MemberFault::Columns => {
            "the UID isn't a text, the card is neither a text nor null, or a number is missing"
        }
        MemberFault::NoBook => "no book has the id of its book",
        MemberFault::Number => "its change isn't numbered from 1 to the book's number",
        MemberFault::Card => "the card isn't a card's canonical text",
        MemberFault::Uid => "the UID isn't legal, or the card has another one",
        MemberFault::Tombstone => "the tombstone isn't above the book's horizon",
    }
}

fn import_fault_words(fault: ImportFault) -> &'static str
    ensures { result.now ≡ import_fault_words fault }
{
    match fault {
        ImportFault::Columns => "the key isn't a text, or a number is missing or negative",
        ImportFault::NoBook => "no book has the id of its book",
        ImportFault::Key => "the key isn't a legal key of an import",
        ImportFault::Number => "its number is above the book's number",
    }
}

fn keep_fault_words(fault: KeepFault) -> &'static str
    ensures { result.now ≡ keep_fault_words fault }
{
    match fault {
        KeepFault::Columns => "a number is missing or negative",
        KeepFault::NoBook => "no book has the id of its book",
    }
}

/// The words for a fault, such as `the card isn't a card's canonical text`.
pub(crate) fn row_fault_words(fault: RowFault) -> &'static str
    ensures { result.now ≡ row_fault_words fault }
{
    match fault {
        RowFault::Book(fault) => book_fault_words(fault),
        RowFault::Member(fault) => member_fault_words(fault),
        RowFault::Import(fault) => import_fault_words(fault),
        RowFault::Keep(fault) => keep_fault_words(fault),
    }
}
