//! The body of each reply.
ghost use Rattle.std.specs.Prelude.{◌≡◌, false, IfOk, string_bytes};
ghost use Rattle.serde_json.specs.Data.{Data};
ghost use Rattle.serde_json.specs.View.{view};
ghost use Rattle.serde_json.specs.Written.{compact_text, has_float};
ghost use Rattle.http_replies.specs.Replies.{body_octets, media_type, reply_body};
ghost use Rattle.http_replies.specs.ReplyValues.{fault_value};

use crate::card::write_card_reply;
use crate::refusals::{fault_value, refusal_value};
use crate::values::{
    books_value, created_value, forgot_value, gone_value, imported_value, moved_value,
    people_value, put_value, tally_value,
};
use book_commands::Reply;
use page_json::write_report;
use serde_json::Value;
use std::alloc::Global;
use vcard_text::NoMemory;

pub(crate) const JSON: &str = "application/json";

pub(crate) const CSV: &str = "text/csv";

/// The compact JSON text of a value, or the error of building the value.
fn text_of(alloc: Global, value: Result<Value, NoMemory>) -> Result<Vec<u8>, NoMemory>
    ensures { (expected : Data) → has_float expected ≡ false
        → IfOk value (λ value. view value ≡ expected)
        → IfOk result (λ text. text.items ≡ compact_text expected) }
{
    let value = value?;
    Ok(value.to_vec(alloc)?)
}

/// The JSON of a fault with this text and number.
pub(crate) fn fault_json(alloc: Global, word: &str, number: u8) -> Result<Vec<u8>, NoMemory>
    ensures { IfOk result (λ text. text.items ≡ compact_text (fault_value word.now number)) }
{
    text_of(alloc, fault_value(alloc, word, number))
}

/// The media type of a reply's body (RFC 9110, section 8.3).
pub(crate) fn media_type_of(reply: &Reply) -> &'static str
    ensures { result.now ≡ media_type (reply_body reply.now) }
{
    match reply {
        Reply::Csv(_) => CSV,
        _ => JSON,
    }
}

/// The octets of a reply's body. Rows of CSV are moved, not copied.
pub(crate) fn body_of(alloc: Global, reply: Reply) -> Result<Vec<u8>, NoMemory>
    ensures { IfOk result (λ body. body.items ≡ body_octets (reply_body reply)) }
{
    match reply {
        Reply::Created { id } => text_of(alloc, created_value(alloc, id)),
        Reply::Books(books) => text_of(alloc, books_value(alloc, &books)),
        Reply::Card { uid, version, card } => {
            write_card_reply(alloc, uid.as_str(), version, &card)
        }
        Reply::Put(answer) => text_of(alloc, put_value(alloc, answer)),
        Reply::Gone { number } => text_of(alloc, gone_value(alloc, number)),
        Reply::Moved(moved) => text_of(alloc, moved_value(alloc, moved)),
        Reply::Page(page) => write_report(alloc, &page),
        Reply::Imported(tally) => text_of(alloc, imported_value(alloc, tally)),
        Reply::Forgot { dropped, horizon } => text_of(alloc, forgot_value(alloc, dropped, horizon)),
        Reply::Tally(tally) => text_of(alloc, tally_value(alloc, tally)),
        Reply::Csv(rows) => Ok(rows.into_vec()),
        Reply::People(reached) => text_of(alloc, people_value(alloc, &reached)),
        Reply::Refused(refusal) => text_of(alloc, refusal_value(alloc, refusal)),
        Reply::Fault(fault) => fault_json(alloc, fault.text(), fault.number()),
    }
}
