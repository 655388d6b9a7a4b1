//! Pages of a book's sync report: the members that are due at a mark.
ghost use Rattle.std.specs.Prelude.{◌≡◌, ◌≤◌, IfOk, map};
ghost use Rattle.std.specs.Map.Iter.{deref_pair};
ghost use Rattle.book_model.specs.Pages.{due_rows, IsOrderedByNumber, entry_of_row, IsReport};

use crate::plain_book::PlainBook;
use book_model::decisions::{is_due, truncated_page, whole_page};
use book_model::{Entry, Mark, Page, Row};
use std::alloc::Global;
use vcard_text::{Items, NoMemory, Text, TextMap};

/// The page entry of a member: its card, or that it was removed.
fn entry(alloc: Global, uid: &str, row: &Row) -> Result<Entry, NoMemory>
    ensures { IfOk result (λ entry. entry ≡ entry_of_row (uid.now, row.now)) }
{
    let uid = Text::copy_of(alloc, uid)?;
    match &row.card {
        Some(card) => Ok(Entry::Changed {
            uid,
            version: row.changed,
            card: card.try_copy()?,
        }),
        None => Ok(Entry::Removed { uid }),
    }
}

fn entries(alloc: Global, members: &[(&str, &Row)]) -> Result<Items<Entry>, NoMemory>
    ensures { IfOk result (λ entries. entries ≡ map entry_of_row (map deref_pair members.now)) }
{
    let mut entries = Vec::with_capacity(alloc, members.len())?;
    for member in members {
        let entry = entry(alloc, member.0, member.1)?;
        entries.push(entry)?;
    }
    Ok(Items::from_vec(entries))
}

/// The due members in the order of the octets of their UIDs. Reads all rows of the book, however
/// few are due.
fn due_members<'a>(
    alloc: Global,
    members: &'a TextMap<Row>,
    mark: Mark,
) -> Result<Vec<(&'a str, &'a Row)>, NoMemory>
    ensures { IfOk result (λ due. map deref_pair due.items ≡ due_rows members.now mark) }
{
    let rows = members.as_map();
    let mut due = Vec::new(alloc);
    for (uid, row) in rows.iter() {
        if is_due(row, mark) {
            due.push((uid.as_str(), row))?;
        }
    }
    Ok(due)
}

/// The due members in the order of their numbers.
fn due_by_number<'a>(
    alloc: Global,
    members: &'a TextMap<Row>,
    mark: Mark,
) -> Result<Vec<(&'a str, &'a Row)>, NoMemory>
    ensures { IfOk result (λ due. IsOrderedByNumber (due_rows members.now mark)
        (map deref_pair due.items)) }
{
    let mut due = due_members(alloc, members, mark)?;
    due.sort_by_key(|member| member.1.changed)?;
    Ok(due)
}

/// The first `size` due members in the order of their numbers, as they are now. Reads no row if the
/// mark is at the book's number.
pub fn page(alloc: Global, book: &PlainBook, mark: Mark, size: u64) -> Result<Page, NoMemory>
    requires { 1 ≤ size }
    ensures { IfOk result (IsReport (record { book = book.now; mark = mark; size = size })) }
{
    if book.is_unchanged_since(mark) {
        return Ok(whole_page(book.id(), book.number(), Items::new(alloc)));
    }
    let due = due_by_number(alloc, book.members(), mark)?;
    let size = size as usize;
    if size < due.len() {
        let last = due[size - 1].1.changed;
        let entries = entries(alloc, &due[..size])?;
        Ok(truncated_page(book.id(), mark, entries, last))
    } else {
        let entries = entries(alloc, due.as_slice())?;
        Ok(whole_page(book.id(), book.number(), entries))
    }
}
