//! Lists of books, of texts and of numbers as JSON values.
ghost use Rattle.std.specs.Prelude.{◌≡◌, IfOk, OnOk, fold, map};
ghost use Rattle.serde_json.specs.Data.{no_members, object, put, string};
ghost use Rattle.serde_json.specs.View.{members_view, view};
ghost use Rattle.book_model.specs.BookQueries.{named_number};
ghost use Rattle.http_replies.specs.Objects.{json_number, with_number};
ghost use Rattle.http_replies.specs.ReplyValues.{book_value};

use book_model::BookLine;
use serde_json::{Map, Value, json, put};
use std::alloc::Global;
use vcard_text::{NoMemory, Text};

fn book_value(alloc: Global, book: &BookLine) -> Result<Value, NoMemory>
    ensures { IfOk result (λ value. view value ≡ book_value book.now) }
{
    let (horizon, id, number) = (book.horizon, book.id, book.number);
    let name = book.name.as_str();
    Ok(json!(in alloc; {"horizon": horizon, "id": id, "name": name, "number": number})?)
}

pub(crate) fn book_values(alloc: Global, books: &[BookLine]) -> Result<Vec<Value>, NoMemory>
    ensures { IfOk result (λ values. map view values.items ≡ map book_value books.now) }
{
    let mut values = Vec::new(alloc);
    for book in books {
        let value = book_value(alloc, book)?;
        values.push(value)?;
    }
    Ok(values)
}

fn text_value(alloc: Global, text: &Text) -> Result<Value, NoMemory>
    ensures { IfOk result (λ value. view value ≡ string text.now) }
{
    Ok(Value::String(String::from_str(alloc, text.as_str())?))
}

pub(crate) fn text_values(alloc: Global, texts: &[Text]) -> Result<Vec<Value>, NoMemory>
    ensures { IfOk result (λ values. map view values.items ≡ map string texts.now) }
{
    let mut values = Vec::new(alloc);
    for text in texts {
        let value = text_value(alloc, text)?;
        values.push(value)?;
    }
    Ok(values)
}

fn put_number(
    members: &mut Map<String, Value>,
    alloc: Global,
    name: &str,
    number: u64,
) -> Result<(), NoMemory>
    ensures { OnOk result (members_view members.new.entries
        ≡ put name.now (json_number number) (members_view members.old.entries)) }
{
    Ok(put(members, alloc, name, Value::from(number))?)
}

/// An object with the numbers under their names.
pub(crate) fn numbers_value(alloc: Global, rows: &[(&str, u64)]) -> Result<Value, NoMemory>
    ensures { IfOk result (λ value. view value
        ≡ object (fold with_number no_members (map named_number rows.now))) }
{
    let mut members = Map::new(alloc);
    for (name, number) in rows {
        put_number(&mut members, alloc, name, *number)?;
    }
    Ok(Value::Object(members))
}
