//! `ContactColumns`: the columns of an export.

use crate::cell::cell_text;
use crate::dates::DateOrder;
use crate::fields::row_field;
use crate::folded::folded_names;
use crate::google::{google_meaning, name_meaning};
use crate::known_names::{joined_name, known_name};
use crate::meaning::{Meaning, Part};
use crate::numbered_names::numbered_name;
use crate::outlook::outlook_meaning;
use crate::programs::{Program, program_of};
use crate::recognized::are_contacts;
use crate::signs::Signs;
use crate::slots::{Slot, add_column, add_slot, has_place};
use crate::thunderbird::thunderbird_meaning;
use crate::wishes::{Wish, chosen_wishes, have_columns, read_wishes};
use base_types::{Items, NoMemory, Text};
use csv::ByteRecord;
use std::alloc::Global;

/// A column.
#[derive(Drop)]
pub struct Column {
    /// The name, as the header has it.
    pub name: Text,
    /// The name that Google or Outlook has for it in English, or the user's word for what it
    /// becomes. The name itself if none is known.
    pub known: Text,
    /// The name of the property that holds its cells. `X-ABLABEL` for labels, which become types
    /// where vCard 4.0 has them. Empty for a column that has no property.
    pub property: Text,
    /// Whether the user leaves it out.
    pub is_left_out: bool,
}

impl Column {
    /// A column with copies of these texts.
    fn new(
        alloc: Global,
        name: &str,
        known: &str,
        property: &str,
        is_left_out: bool,
    ) -> Result<Column, NoMemory> {
        Ok(Column {
            name: Text::copy_of(alloc, name)?,
            known: Text::copy_of(alloc, known)?,
            property: Text::copy_of(alloc, property)?,
            is_left_out,
        })
    }
}

/// The columns of a file of contacts, in order.
#[derive(Drop)]
pub struct ContactColumns {
    /// The columns.
    pub columns: Items<Column>,
    /// The properties that they give, each once, in the order of their first columns.
    pub slots: Vec<Slot>,
    /// The order of day and month in the dates of the file.
    pub dates: DateOrder,
}

/// What a column means that is known by a name of Google's or Outlook's in English. `key` is its
/// name in the header.
fn meaning_of<'a>(known: &'a str, key: &'a str) -> Option<Meaning<'a>> {
    name_meaning(known)
        .or(google_meaning(known))
        .or(outlook_meaning(known, key))
        .or(thunderbird_meaning(known))
}

/// The property that holds the cells of a column with the meaning.
fn property_of(meaning: Meaning<'_>) -> &str {
    if meaning.part == Part::Label {
        "X-ABLABEL"
    } else {
        meaning.property
    }
}

/// The name in English that the tables have for one in lower case: for that very name, or else for
/// one whose words are only parted otherwise.
fn known_in_tables(
    alloc: Global,
    program: Program,
    folded: &str,
) -> Result<Option<&'static str>, NoMemory> {
    match known_name(program, folded) {
        Some(english) => Ok(Some(english)),
        None => joined_name(alloc, program, folded),
    }
}

/// The name in English that Google or Outlook has for a column of this name; the name itself if
/// none is known. `folded` is the name in lower case.
fn english_name(
    alloc: Global,
    program: Program,
    name: &str,
    folded: &str,
) -> Result<String, NoMemory> {
    match numbered_name(folded) {
        Some(it) => {
            let kind = it.kind;
            let number = it.number;
            let part = it.part;
            Ok(format!(in alloc; "{kind} {number} - {part}")?)
        }
        None => {
            let known = known_in_tables(alloc, program, folded)?;
            Ok(String::from_str(alloc, known.unwrap_or(name))?)
        }
    }
}

/// The names in English of the columns of these names (see `english_name`), in their order.
fn english_names(alloc: Global, names: &[Text]) -> Result<Items<Text>, NoMemory> {
    let folded = folded_names(alloc, names)?;
    names_in_english(alloc, names, folded.as_slice())
}

/// The names in English of the columns of these names, of which `folded` are those in lower case.
fn names_in_english(
    alloc: Global,
    names: &[Text],
    folded: &[Text],
) -> Result<Items<Text>, NoMemory> {
    let program = program_of(folded);
    let mut english = Items::new(alloc);
    for place in 0..names.len() {
        let name = names[place].as_str();
        let folded = folded.get(place).map_or(name, |it| it.as_str());
        english.push(Text::new(english_name(alloc, program, name, folded)?))?;
    }
    Ok(english)
}

/// The property of a column that has these names, or an empty text. Adds the column to the slot of
/// its property, unless another column has its place there.
fn column_property<'a>(
    alloc: Global,
    slots: &mut Vec<Slot>,
    place: usize,
    known: &'a str,
    name: &'a str,
) -> Result<&'a str, NoMemory> {
    let Some(meaning) = meaning_of(known, name) else {
        return Ok("");
    };
    if add_column(alloc, slots, place, meaning)? {
        Ok(property_of(meaning))
    } else {
        Ok("")
    }
}

/// The names of the columns that a header row has.
pub(crate) fn column_names(alloc: Global, header: &ByteRecord) -> Result<Items<Text>, NoMemory> {
    let mut names = Items::new(alloc);
    for place in 0..header.len() {
        let name = cell_text(alloc, row_field(header, place))?;
        names.push(Text::copy_of(alloc, name.as_str().trim())?)?;
    }
    Ok(names)
}

/// Which columns there are: those of these names in English, and those of wishes.
fn signs_of(english: &[Text], chosen: &[usize], wishes: &[Wish<'_>]) -> Signs {
    let mut signs = Signs::new();
    for place in 0..english.len() {
        let index = chosen.get(place).copied().unwrap_or(wishes.len());
        match wishes.get(index) {
            Some(wish) if wish.target.property == "TITLE" => signs.note("Job Title"),
            Some(wish) => signs.note(wish.target.known),
            None => signs.note(english[place].as_str()),
        }
    }
    signs
}

/// Adds columns to the slots of their properties. `chosen` has the index of the wish for each.
fn add_wished(
    alloc: Global,
    slots: &mut Vec<Slot>,
    chosen: &[usize],
    wishes: &[Wish<'_>],
) -> Result<(), NoMemory> {
    for place in 0..chosen.len() {
        if let Some(wish) = wishes.get(chosen[place]) {
            add_wish(alloc, slots, place, wish)?;
        }
    }
    Ok(())
}

/// Adds a column to the slot of its property, if the wish gives it to one that has lines.
fn add_wish(
    alloc: Global,
    slots: &mut Vec<Slot>,
    place: usize,
    wish: &Wish<'_>,
) -> Result<(), NoMemory> {
    if wish.leaves_out() || wish.target.property == "UID" {
        return Ok(());
    }
    if wish.target.is_single {
        let _is_added = add_column(alloc, slots, place, wish.meaning())?;
        return Ok(());
    }
    add_slot(alloc, slots, place, wish.meaning())
}

/// A column for which there is a wish. It has no property if another column has its place there.
fn wished_column(
    alloc: Global,
    slots: &[Slot],
    place: usize,
    name: &str,
    wish: &Wish<'_>,
) -> Result<Column, NoMemory> {
    let target = wish.target;
    let is_placed = target.property == "UID" || has_place(slots, place);
    let property = if is_placed { target.property } else { "" };
    let known = if target.known.is_empty() {
        wish.word
    } else {
        target.known
    };
    Column::new(alloc, name, known, property, wish.leaves_out())
}

/// A column that is known by its name in English, if it is.
fn known_column(
    alloc: Global,
    slots: &mut Vec<Slot>,
    place: usize,
    name: &str,
    known: &str,
) -> Result<Column, NoMemory> {
    let property = if known == "UID" {
        known
    } else {
        column_property(alloc, slots, place, known, name)?
    };
    Column::new(alloc, name, known, property, false)
}

/// The columns of these names, and what they give. Those of wishes have the first choice.
pub(crate) fn columns_of(
    alloc: Global,
    names: &[Text],
    wishes: &[Wish<'_>],
) -> Result<ContactColumns, NoMemory> {
    let english = english_names(alloc, names)?;
    let chosen = chosen_wishes(alloc, names, wishes)?;
    let mut read = ContactColumns {
        columns: Items::new(alloc),
        slots: Vec::new(alloc),
        dates: DateOrder::Unknown,
    };
    add_columns(
        alloc,
        &mut read,
        names,
        english.as_slice(),
        chosen.as_slice(),
        wishes,
    )?;
    Ok(read)
}

/// Adds the columns of these names, of which `english` are those in English, and what they give.
fn add_columns(
    alloc: Global,
    read: &mut ContactColumns,
    names: &[Text],
    english: &[Text],
    chosen: &[usize],
    wishes: &[Wish<'_>],
) -> Result<(), NoMemory> {
    let signs = signs_of(english, chosen, wishes);
    add_wished(alloc, &mut read.slots, chosen, wishes)?;
    for place in 0..names.len() {
        let name = names[place].as_str();
        let index = chosen.get(place).copied().unwrap_or(wishes.len());
        let column = match wishes.get(index) {
            Some(wish) => wished_column(alloc, read.slots.as_slice(), place, name, wish)?,
            None => {
                let known = english.get(place).map_or(name, |it| it.as_str());
                known_column(alloc, &mut read.slots, place, name, signs.settled(known))?
            }
        };
        read.columns.push(column)?;
    }
    Ok(())
}

/// The columns that a header row of contacts names: those of a name or an organization, and of
/// addresses of electronic mail, telephones or categories. `None` for any other row, and if all
/// columns that should have addresses or numbers by their names have no property.
///
/// `wished` says what columns become, as `Name=fn,#7=-`, and may be empty. If it isn't, any row
/// with these columns names them, and the others are known by their names. The only `Err` is out of
/// memory.
pub fn read_columns(
    alloc: Global,
    header: &ByteRecord,
    wished: &str,
) -> Result<Option<ContactColumns>, NoMemory> {
    let names = column_names(alloc, header)?;
    let wishes = read_wishes(alloc, wished)?;
    columns_of_names(alloc, names.as_slice(), wishes.as_slice())
}

/// The columns of these names, if they are those of contacts, or all columns that are wished.
fn columns_of_names(
    alloc: Global,
    names: &[Text],
    wishes: &[Wish<'_>],
) -> Result<Option<ContactColumns>, NoMemory> {
    if !have_columns(alloc, wishes, names)? {
        return Ok(None);
    }
    let read = columns_of(alloc, names, wishes)?;
    if !wishes.is_empty() || are_contacts(alloc, &read)? {
        Ok(Some(read))
    } else {
        Ok(None)
    }
}
