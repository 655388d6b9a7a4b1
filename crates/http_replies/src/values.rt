//! Replies as JSON values. The members of each object are in the order of the octets of their
//! names.
ghost use Rattle.std.specs.Prelude.{◌≡◌, IfOk};
ghost use Rattle.serde_json.specs.View.{view};
ghost use Rattle.http_replies.specs.ReplyValues.{books_value, created_value};
ghost use Rattle.http_replies.specs.ReplyValues.{forgot_value, gone_value, imported_value};
ghost use Rattle.http_replies.specs.ReplyValues.{moved_value, people_value, put_object, put_value};
ghost use Rattle.http_replies.specs.ReplyValues.{tally_value};

use crate::lists::{book_values, numbers_value, text_values};
use book_model::{BookLine, ImportTally, Moved, PutAnswer, Tally};
use card_core::Expansion;
use serde_json::{Value, json};
use std::alloc::Global;
use vcard_text::{Items, NoMemory};

/// `{"id":1}`: the id of the new book.
pub(crate) fn created_value(alloc: Global, id: u64) -> Result<Value, NoMemory>
    ensures { IfOk result (λ value. view value ≡ created_value id) }
{
    Ok(json!(in alloc; {"id": id})?)
}

fn put_object(alloc: Global, what: &str, version: u64) -> Result<Value, NoMemory>
    ensures { IfOk result (λ value. view value ≡ put_object what.now version) }
{
    Ok(json!(in alloc; {"put": what, "version": version})?)
}

/// `{"put":"created","version":1}`: what was done, and the card's version afterwards.
pub(crate) fn put_value(alloc: Global, answer: PutAnswer) -> Result<Value, NoMemory>
    ensures { IfOk result (λ value. view value ≡ put_value answer) }
{
    match answer {
        PutAnswer::Created { version } => put_object(alloc, "created", version),
        PutAnswer::Edited { version } => put_object(alloc, "edited", version),
        PutAnswer::Unchanged { version } => put_object(alloc, "unchanged", version),
    }
}

/// `{"number":4}`: the number of the removal.
pub(crate) fn gone_value(alloc: Global, number: u64) -> Result<Value, NoMemory>
    ensures { IfOk result (λ value. view value ≡ gone_value number) }
{
    Ok(json!(in alloc; {"number": number})?)
}

/// `{"from":5,"version":1}`: the number of the removal in the source, the version in the target.
pub(crate) fn moved_value(alloc: Global, moved: Moved) -> Result<Value, NoMemory>
    ensures { IfOk result (λ value. view value ≡ moved_value moved) }
{
    let Moved { from, version } = moved;
    Ok(json!(in alloc; {"from": from, "version": version})?)
}

/// `{"edited":0,"new":1,"number":2,"same":0}`: the cards that were new, edited and the same, and
/// the book's number after the import.
pub(crate) fn imported_value(alloc: Global, tally: ImportTally) -> Result<Value, NoMemory>
    ensures { IfOk result (λ value. view value ≡ imported_value tally) }
{
    let ImportTally {
        added,
        edited,
        same,
        number,
    } = tally;
    Ok(json!(in alloc; {"edited": edited, "new": added, "number": number, "same": same})?)
}

/// `{"dropped":1,"horizon":4}`: the number of dropped tombstones, and the new horizon.
pub(crate) fn forgot_value(alloc: Global, dropped: u64, horizon: u64) -> Result<Value, NoMemory>
    ensures { IfOk result (λ value. view value ≡ forgot_value dropped horizon) }
{
    Ok(json!(in alloc; {"dropped": dropped, "horizon": horizon})?)
}

/// `{"books":[{"horizon":0,"id":1,"name":"staff","number":5}]}`: an object for each book.
pub(crate) fn books_value(alloc: Global, books: &Items<BookLine>) -> Result<Value, NoMemory>
    ensures { IfOk result (λ value. view value ≡ books_value books.now) }
{
    let books = book_values(alloc, books.as_slice())?;
    Ok(json!(in alloc; {"books": books})?)
}

/// The eleven numbers of a tally, by name.
pub(crate) fn tally_value(alloc: Global, tally: Tally) -> Result<Value, NoMemory>
    ensures { IfOk result (λ value. view value ≡ tally_value tally) }
{
    numbers_value(alloc, &tally.named())
}

/// `{"missing":[..],"people":[..]}`: the member values that name no card, and the people reached.
pub(crate) fn people_value(alloc: Global, reached: &Expansion) -> Result<Value, NoMemory>
    ensures { IfOk result (λ value. view value ≡ people_value reached.now) }
{
    let missing = text_values(alloc, reached.missing.as_slice())?;
    let people = text_values(alloc, reached.people.as_slice())?;
    Ok(json!(in alloc; {"missing": missing, "people": people})?)
}
