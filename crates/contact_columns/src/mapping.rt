//! What becomes of each column, in the words of what a user says of them.

use crate::columns::{Column, ContactColumns};
use crate::header::Header;
use crate::slots::Slot;
use crate::suggestion::push_entry;
use crate::targets::{part_word, target_of};
use crate::wishes::{RowForm, push_header_entry, push_rows_entry};
use base_types::{NoMemory, Text};
use std::alloc::Global;

/// The word with the types after it, as `tel;type=work`, if its property may have types.
fn word_with_types(alloc: Global, word: &str, types: &str) -> Result<String, NoMemory> {
    let mut text = String::from_str(alloc, word)?;
    if !types.is_empty() && target_of(word).is_some_and(|target| target.has_types) {
        push_types(&mut text, types)?;
    }
    Ok(text)
}

/// Appends types that have commas between them, each as `;type=work`.
fn push_types(text: &mut String, types: &str) -> Result<(), NoMemory> {
    for each in types.split(',') {
        text.push_str(";type=")?;
        text.push_str(each)?;
    }
    Ok(())
}

/// Sets the words for the columns of a slot.
fn set_words(alloc: Global, words: &mut Vec<String>, slot: &Slot) -> Result<(), NoMemory> {
    for column in slot.columns.as_slice() {
        let word = part_word(slot.property.as_str(), column.part);
        if let Some(place) = words.get_mut(column.place) {
            *place = word_with_types(alloc, word, slot.types.as_str())?;
        }
    }
    Ok(())
}

/// The words for columns that are left out and for those of UIDs; empty for others.
fn first_words(alloc: Global, columns: &[Column]) -> Result<Vec<String>, NoMemory> {
    let mut words = Vec::new(alloc);
    for column in columns {
        let word = if column.is_left_out {
            "-"
        } else if column.property.as_str() == "UID" {
            "uid"
        } else {
            ""
        };
        words.push(String::from_str(alloc, word)?)?;
    }
    Ok(words)
}

/// The words for all columns; empty where there is none.
fn words_of(alloc: Global, columns: &ContactColumns) -> Result<Vec<String>, NoMemory> {
    let mut words = first_words(alloc, columns.columns.as_slice())?;
    for slot in &columns.slots {
        set_words(alloc, &mut words, slot)?;
    }
    Ok(words)
}

/// Appends the entries of the columns for which there are words.
fn push_words(alloc: Global, text: &mut String, columns: &ContactColumns) -> Result<(), NoMemory> {
    let words = words_of(alloc, columns)?;
    let names = columns.columns.as_slice();
    for place in 0..names.len() {
        let word = words.get(place).map_or("", |word| word.as_str());
        if !word.is_empty() {
            push_entry(alloc, text, place, names[place].name.as_str(), word)?;
        }
    }
    Ok(())
}

/// What becomes of the columns, as `Name=fn,#7=-`. Columns whose cells are kept aside are missing,
/// and so are those of what a user can't say, as labels. Of a file without a header it gives the
/// form of the rows, as `rows=comma;cells=2`, and of another it says `header` if all other entries
/// name columns by their numbers. The only `Err` is out of memory.
pub fn mapped_columns(
    alloc: Global,
    columns: &ContactColumns,
    header: Header<'_>,
) -> Result<Text, NoMemory> {
    let mut text = String::new(alloc);
    push_words(alloc, &mut text, columns)?;
    if header.is_missing {
        let form = RowForm {
            delimiter: header.delimiter,
            width: header.width,
        };
        push_rows_entry(alloc, &mut text, form)?;
    } else {
        push_header_entry(&mut text)?;
    }
    Ok(Text::new(text))
}
