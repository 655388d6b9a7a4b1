//! What is wrong with what the user says of the columns of a file.

use crate::columns::{Column, column_names, columns_of};
use crate::doubts::is_doubtful;
use crate::header::{Header, find_header, first_row, is_missing};
use crate::headerless::{number_names, row_width};
use crate::suggestion::first_names;
use crate::targets::{TARGET_WORDS, target_of};
use crate::wishes::{
    Wish, chosen_wishes, entry_parts, has_column, is_zero, push_listed, read_wishes, says_header,
    says_rows, types_in,
};
use base_types::{Items, NoMemory, Text};
use std::alloc::{AllocError, Global};

/// These words, for what is wrong.
fn said(words: Result<String, AllocError>) -> Result<Option<Text>, NoMemory> {
    Ok(Some(Text::new(words?)))
}

/// What is wrong with the parameters after a word whose property may have types or not.
fn params_fault(
    alloc: Global,
    parts: (&str, &str, &str),
    has_types: bool,
) -> Result<Option<Text>, NoMemory> {
    let (column, word, params) = parts;
    match types_in(alloc, params)? {
        None => said(format!(in alloc;
            "';{params}' after '{column}={word}' isn't ;type=WORD, once for each type"
        )),
        Some(types) if !types.is_empty() && !has_types => {
            said(format!(in alloc; "'{word}' has no types"))
        }
        Some(_) => Ok(None),
    }
}

/// What is wrong with an entry, whatever the file is.
fn entry_fault(alloc: Global, entry: &str) -> Result<Option<Text>, NoMemory> {
    if says_header(entry) || says_rows(entry) {
        return Ok(None);
    }
    let Some(parts) = entry_parts(entry) else {
        return said(format!(in alloc; "'{entry}' isn't COLUMN=PROPERTY"));
    };
    let (column, word, _) = parts;
    if is_zero(column) {
        return said(format!(in alloc; "there is no column '{column}': columns are counted from 1"));
    }
    match target_of(word) {
        Some(target) => params_fault(alloc, parts, target.has_types),
        None => said(format!(in alloc; "'{word}' is no property here; there are {TARGET_WORDS}")),
    }
}

/// The most entries. Each of them is compared with each column.
const ENTRIES_MAX: usize = 1_000;

/// What is wrong with the first faulty entry, or with the number of entries.
fn first_fault(alloc: Global, wished: &str) -> Result<Option<Text>, NoMemory> {
    for (count, entry) in wished.split(',').enumerate() {
        if count >= ENTRIES_MAX {
            return said(format!(in alloc;
                "it has more than 1,000 entries; name only some columns"
            ));
        }
        if let Some(words) = entry_fault(alloc, entry)? {
            return Ok(Some(words));
        }
    }
    Ok(None)
}

/// The names of the columns of a header, in a file that begins with these octets.
fn header_names(alloc: Global, head: &[u8], header: Header<'_>) -> Result<Items<Text>, NoMemory> {
    let rest = head.get(header.start..).unwrap_or(&[]);
    let row = first_row(alloc, rest, header.delimiter)?;
    column_names(alloc, &row)
}

/// The names of the columns of the header, if a row has all columns of the wishes; their numbers,
/// if the file has no header.
fn wished_names(alloc: Global, head: &[u8], wished: &str) -> Result<Option<Items<Text>>, NoMemory> {
    if is_missing(alloc, head, wished)? {
        return number_names(alloc, head, wished);
    }
    match find_header(alloc, head, wished)? {
        Some(header) => Ok(Some(header_names(alloc, head, header)?)),
        None => Ok(None),
    }
}

/// The most columns of a file that are named.
const NAMES_MAX: usize = 100;

/// The names with commas between them, at most 100, and two dots for more.
fn listed(alloc: Global, names: &[Text]) -> Result<String, NoMemory> {
    let mut list = String::new(alloc);
    for (count, name) in names.iter().enumerate() {
        if count >= NAMES_MAX {
            push_listed(&mut list, "..")?;
            break;
        }
        push_listed(&mut list, name.as_str())?;
    }
    Ok(list)
}

/// The first column of a wish that isn't among these.
fn first_missing<'a>(
    alloc: Global,
    wishes: &[Wish<'a>],
    names: &[Text],
) -> Result<Option<&'a str>, NoMemory> {
    for wish in wishes {
        if !has_column(alloc, wish, names)? {
            return Ok(Some(wish.column));
        }
    }
    Ok(None)
}

/// The words for the first column of a wish that isn't among these.
fn missing_column(
    alloc: Global,
    wishes: &[Wish<'_>],
    names: &[Text],
) -> Result<Option<Text>, NoMemory> {
    let Some(column) = first_missing(alloc, wishes, names)? else {
        return said(format!(in alloc; "no row has all these columns"));
    };
    let list = listed(alloc, names)?;
    let list = list.as_str();
    said(format!(in alloc; "there is no column '{column}'; there are: {list}"))
}

/// The words for the first column of a wish that rows with so many cells don't have. The file has
/// no header, so its cells are no names to be told.
fn missing_number(
    alloc: Global,
    wishes: &[Wish<'_>],
    width: usize,
) -> Result<Option<Text>, NoMemory> {
    let count = width as u64;
    for wish in wishes {
        if !wish.place().is_some_and(|place| place < width) {
            let column = wish.column;
            return said(format!(in alloc;
                "there is no column '{column}'; the number of columns is {count}"
            ));
        }
    }
    said(format!(in alloc; "the file has no rows"))
}

/// The words for the first wish about columns that earlier ones are about.
fn second_wish(
    alloc: Global,
    wishes: &[Wish<'_>],
    chosen: &[usize],
) -> Result<Option<Text>, NoMemory> {
    for index in 0..wishes.len() {
        if !chosen.iter().any(|it| *it == index) {
            let column = wishes[index].column;
            return said(format!(in alloc; "'{column}' is given more than once"));
        }
    }
    Ok(None)
}

/// The words for the first of the columns that is given to a property which another one has.
fn doubled_column(
    alloc: Global,
    wishes: &[Wish<'_>],
    columns: &[Column],
    chosen: &[usize],
) -> Result<Option<Text>, NoMemory> {
    for place in 0..columns.len() {
        let index = chosen.get(place).copied().unwrap_or(wishes.len());
        let column = &columns[place];
        if let Some(wish) = wishes.get(index) {
            if column.property.is_empty() && !column.is_left_out {
                let name = column.name.as_str();
                let word = wish.word;
                return said(format!(in alloc; "'{name}' isn't the only column given to {word}"));
            }
        }
    }
    Ok(None)
}

/// The words for the first column of these names that is given to a property which another one has.
fn second_column(
    alloc: Global,
    wishes: &[Wish<'_>],
    names: &[Text],
    chosen: &[usize],
) -> Result<Option<Text>, NoMemory> {
    let read = columns_of(alloc, names, wishes)?;
    doubled_column(alloc, wishes, read.columns.as_slice(), chosen)
}

/// The words for what is wrong with the wishes of a header that has all their columns.
fn doubled(alloc: Global, wishes: &[Wish<'_>], names: &[Text]) -> Result<Option<Text>, NoMemory> {
    let chosen = chosen_wishes(alloc, names, wishes)?;
    if let Some(words) = second_wish(alloc, wishes, chosen.as_slice())? {
        return Ok(Some(words));
    }
    second_column(alloc, wishes, names, chosen.as_slice())
}

/// The words for a first row that may be a header or a person.
const DOUBT: &str =
    "the first row looks like a header: add the entry 'header', or 'rows' if it is a \
     person";

/// What is wrong with entries that can be read: a column that there isn't, a column with two
/// entries, or two columns for one value.
fn fault_of_wishes(alloc: Global, head: &[u8], wished: &str) -> Result<Option<Text>, NoMemory> {
    let wishes = read_wishes(alloc, wished)?;
    match wished_names(alloc, head, wished)? {
        Some(names) => doubled(alloc, wishes.as_slice(), names.as_slice()),
        None => missing(alloc, head, wished, wishes.as_slice()),
    }
}

/// The words for a column that there isn't, in a file that hasn't all columns of the wishes.
fn missing(
    alloc: Global,
    head: &[u8],
    wished: &str,
    wishes: &[Wish<'_>],
) -> Result<Option<Text>, NoMemory> {
    if is_missing(alloc, head, wished)? {
        return missing_number(alloc, wishes, row_width(alloc, head, wished)?);
    }
    let names = first_names(alloc, head)?;
    missing_column(alloc, wishes, names.as_slice())
}

/// What is wrong with what the user says of the columns of a file, in words: an entry that can't be
/// read, a column that no row among the first lines has, a column with two entries, two columns for
/// one value, or that each is given by its number though the first row looks like a header. `None`
/// if nothing is. `head` is the beginning of the file. The only `Err` is out of memory.
///
/// The doubt comes last: for it the cell of each entry is read, and each entry has a column of its
/// own then.
pub fn wish_fault(alloc: Global, head: &[u8], wished: &str) -> Result<Option<Text>, NoMemory> {
    if let Some(words) = first_fault(alloc, wished)? {
        return Ok(Some(words));
    }
    if let Some(words) = fault_of_wishes(alloc, head, wished)? {
        return Ok(Some(words));
    }
    if is_doubtful(alloc, head, wished)? {
        return Ok(Some(Text::copy_of(alloc, DOUBT)?));
    }
    Ok(None)
}
