//! Whether a book may be created.
ghost use Rattle.std.specs.Prelude.{◌≡◌, ◌≤◌, IfOk};
ghost use Rattle.book_model.specs.BookNames.{is_legal_name, is_octet_of_name};
ghost use Rattle.book_model.specs.Creating.{new_id};

use crate::limits::Limits;
use crate::refusal::Refusal;

fn is_octet_of_name(octet: u8) -> bool
    ensures { result ≡ is_octet_of_name octet }
{
    matches!(octet, b'a'..=b'z' | b'0'..=b'9' | b'-')
}

/// Whether a book may have the name: 1 to 40 of `a` to `z`, `0` to `9` and the hyphen.
pub fn is_book_name(name: &str) -> bool
    ensures { result ≡ is_legal_name name.now }
{
    let octets = name.as_bytes();
    if octets.is_empty() || octets.len() > 40 {
        return false;
    }
    for octet in octets {
        if !is_octet_of_name(*octet) {
            return false;
        }
    }
    true
}

/// The id of a new book of the name, in a store that has this number of books.
///
/// Refused, by the first that applies, with `BadBookName`; `BookExists` where a book has the name;
/// `TooManyBooks` where the store has as many books as its limit.
pub fn id_of_new_book(
    limits: Limits,
    name: &str,
    name_exists: bool,
    books: u64,
) -> Result<u64, Refusal>
    ensures id { result ≡ new_id limits name.now name_exists books }
    ensures within { IfOk result (λ id. id ≤ limits.books_max) }
    ensures least { IfOk result (λ id. 1 ≤ id) }
{
    if !is_book_name(name) {
        return Err(Refusal::BadBookName);
    }
    if name_exists {
        return Err(Refusal::BookExists);
    }
    if books >= limits.books_max() {
        return Err(Refusal::TooManyBooks);
    }
    Ok(books + 1)
}
