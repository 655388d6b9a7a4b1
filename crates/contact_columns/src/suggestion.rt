//! What to say of columns that aren't known, to begin with.

use crate::columns::{Column, column_names, columns_of};
use crate::folded::folded;
use crate::header::{DELIMITERS, first_row};
use crate::recognized::{has_names, has_word, is_other};
use crate::wishes::push_header_entry;
use base_types::{Items, NoMemory, Text};
use std::alloc::Global;

/// Parts of names of columns, and what columns with such names mostly become.
const GUESSES: &[(&str, &str)] = &[
    ("mail", "email"),
    ("smtp", "email"),
    ("position", "title"),
    ("fax", "tel;type=fax"),
    ("mobil", "tel;type=cell"),
    ("mobiel", "tel;type=cell"),
    ("móvil", "tel;type=cell"),
    ("handy", "tel;type=cell"),
    ("cell", "tel;type=cell"),
    ("tel", "tel"),
    ("phone", "tel"),
    ("phon", "tel"),
    ("téléph", "tel"),
    ("puhelin", "tel"),
    ("tweede voornaam", "n.additional"),
    ("mellem", "n.additional"),
    ("mellan", "n.additional"),
    ("voornaam", "n.given"),
    ("fornavn", "n.given"),
    ("förnamn", "n.given"),
    ("nombre", "n.given"),
    ("imię", "n.given"),
    ("achternaam", "n.family"),
    ("efternavn", "n.family"),
    ("etternavn", "n.family"),
    ("efternamn", "n.family"),
    ("apellido", "n.family"),
    ("cognome", "n.family"),
    ("nazwisko", "n.family"),
    ("bedrijf", "org"),
    ("vorname", "n.given"),
    ("first", "n.given"),
    ("given", "n.given"),
    ("nachname", "n.family"),
    ("last", "n.family"),
    ("family", "n.family"),
    ("firma", "org"),
    ("company", "org"),
    ("organi", "org"),
    ("name", "fn"),
    ("naam", "fn"),
    ("navn", "fn"),
    ("namn", "fn"),
    ("nome", "fn"),
    ("stra", "adr.street"),
    ("street", "adr.street"),
    ("plz", "adr.code"),
    ("zip", "adr.code"),
    ("postal", "adr.code"),
    ("city", "adr.city"),
    ("stadt", "adr.city"),
    ("geb", "bday"),
    ("birth", "bday"),
    ("web", "url"),
    ("notiz", "note"),
    ("bemerk", "note"),
    ("comment", "note"),
];

/// Parts of names of columns that say something of another column.
const BESIDE_OTHERS: &[&str] = &["phonet", "lautsprache", "label"];

/// Whether a column of this name says something of another one.
fn is_beside(alloc: Global, name: &str) -> Result<bool, NoMemory> {
    let name = folded(alloc, name)?;
    Ok(has_word(name.as_str(), BESIDE_OTHERS))
}

/// What a column of this name may become, which is in lower case.
fn guess_by(name: &str) -> Option<&'static str> {
    if has_word(name, BESIDE_OTHERS) {
        return None;
    }
    let is_other = is_other(name);
    for (part, word) in GUESSES {
        let is_reach = word.starts_with("email") || word.starts_with("tel");
        if name.contains(*part) && !(is_other && is_reach) {
            return Some(*word);
        }
    }
    None
}

/// What a column of this name may become.
fn guess(alloc: Global, name: &str) -> Result<Option<&'static str>, NoMemory> {
    let name = folded(alloc, name)?;
    Ok(guess_by(name.as_str()))
}

/// Whether the character may stand in the name of a column in an option between single quotes.
fn is_plain(c: char) -> bool {
    c != ',' && c != '=' && c != '\'' && !c.is_ascii_control()
}

/// Whether the column is written by its name, and not by its number.
fn is_written(name: &str) -> bool {
    !name.is_empty() && !name.starts_with("#") && name.chars().all(is_plain)
}

/// Appends what the column becomes.
pub(crate) fn push_entry(
    alloc: Global,
    text: &mut String,
    place: usize,
    name: &str,
    word: &str,
) -> Result<(), NoMemory> {
    if !text.is_empty() {
        text.push(',')?;
    }
    let number = (place as u64).saturating_add(1);
    let entry = if is_written(name) {
        format!(in alloc; "{name}={word}")?
    } else {
        format!(in alloc; "#{number}={word}")?
    };
    text.push_str(entry.as_str())?;
    Ok(())
}

/// Whether the word is one for a name or an organization.
fn names_someone(word: &str) -> bool {
    word == "fn" || word.starts_with("n.") || word.starts_with("org")
}

/// The first column for which there is no guess, and which says nothing of another one, unless
/// columns have names without it.
fn name_place(
    alloc: Global,
    columns: &[Column],
    is_named: bool,
) -> Result<Option<usize>, NoMemory> {
    let mut is_named = is_named;
    let mut free: Option<usize> = None;
    for (place, column) in columns.iter().enumerate() {
        if !column.property.is_empty() {
            continue;
        }
        match guess(alloc, column.name.as_str())? {
            Some(word) => is_named = is_named || names_someone(word),
            None => {
                if !is_beside(alloc, column.name.as_str())? {
                    free = free.or(Some(place));
                }
            }
        }
    }
    if is_named {
        return Ok(None);
    }
    Ok(free)
}

/// Appends what to say of a column: that it has names, or the guess for it, if there is one.
fn push_suggestion(
    alloc: Global,
    text: &mut String,
    place: usize,
    name: &str,
    has_names: bool,
) -> Result<(), NoMemory> {
    let word = if has_names {
        Some("fn")
    } else {
        guess(alloc, name)?
    };
    match word {
        Some(word) => push_entry(alloc, text, place, name, word),
        None => Ok(()),
    }
}

/// The number of octets from which on no more columns are suggested.
const OCTETS_MAX: usize = 4_000;

/// Appends what to say of the columns, in their order, of which the one at `named` has names.
fn push_suggestions(
    alloc: Global,
    text: &mut String,
    columns: &[Column],
    named: Option<usize>,
) -> Result<(), NoMemory> {
    for (place, column) in columns.iter().enumerate() {
        if text.len() >= OCTETS_MAX {
            break;
        }
        if column.property.is_empty() {
            push_suggestion(
                alloc,
                text,
                place,
                column.name.as_str(),
                named == Some(place),
            )?;
        }
    }
    Ok(())
}

/// Appends that the columns of addresses of electronic mail are such columns: if they are named so,
/// a file needs no names.
fn push_mails(alloc: Global, text: &mut String, columns: &[Column]) -> Result<(), NoMemory> {
    for (place, column) in columns.iter().enumerate() {
        if text.len() < OCTETS_MAX && column.property.as_str() == "EMAIL" {
            push_entry(alloc, text, place, column.name.as_str(), "email")?;
        }
    }
    Ok(())
}

/// What to say of the columns of these names, in their order: a guess for each that isn't known. If
/// none has names, the first one for which there is no guess has them. A single column, or one
/// beside columns that are all known, may only be one of addresses of electronic mail.
fn suggestion_for(alloc: Global, names: &[Text]) -> Result<String, NoMemory> {
    let read = columns_of(alloc, names, &[])?;
    let columns = read.columns.as_slice();
    let mut text = String::new(alloc);
    if columns.len() > 1 {
        let named = name_place(alloc, columns, has_names(read.slots.as_slice()))?;
        push_suggestions(alloc, &mut text, columns, named)?;
    }
    if text.is_empty() {
        push_mails(alloc, &mut text, columns)?;
    }
    Ok(text)
}

/// The names of the columns of the first row, with the delimiter that gives it most cells.
pub(crate) fn first_names(alloc: Global, head: &[u8]) -> Result<Items<Text>, NoMemory> {
    let mut names = Items::new(alloc);
    for delimiter in DELIMITERS {
        let row = first_row(alloc, head, delimiter)?;
        if row.len() > names.len() {
            names = column_names(alloc, &row)?;
        }
    }
    Ok(names)
}

/// What to say of the columns of a file to begin with, as `Mail (priv.)=email,#3=tel`: a guess for
/// each column of its first row that isn't known. It says that the row is a header if all columns
/// are named by their numbers. It stops after some 4,000 octets. Empty if the row has one cell,
/// unless that is the name of a column of addresses. The only `Err` is out of memory.
pub fn suggested_columns(alloc: Global, head: &[u8]) -> Result<Text, NoMemory> {
    let names = first_names(alloc, head)?;
    let mut text = suggestion_for(alloc, names.as_slice())?;
    push_header_entry(&mut text)?;
    Ok(Text::new(text))
}
