//! Whether the columns of a header are those of contacts.

use crate::columns::{Column, ContactColumns, column_names, columns_of};
use crate::folded::folded;
use crate::meaning::Part;
use crate::slots::Slot;
use crate::wishes::push_listed;
use base_types::NoMemory;
use csv::ByteRecord;
use std::alloc::Global;

/// Parts of names of columns of addresses of electronic mail.
const MAIL_WORDS: &[&str] = &["mail", "courriel", "correo", "messagerie"];

/// Parts of names of columns that have such a part in them, but neither addresses nor numbers.
const OTHER_WORDS: &[&str] = &["mailing", "voice", "phonet", "mobilit"];

/// Parts of names of columns of numbers of telephones.
const NUMBER_WORDS: &[&str] = &[
    "phone",
    "telef",
    "teléf",
    "téléph",
    "mobil",
    "mobiel",
    "móvil",
    "celular",
    "cellulare",
    "puhelin",
];

/// Parts of names of columns of names of persons, in languages of which few names are known.
const NAME_WORDS: &[&str] = &[
    "naam",
    "navn",
    "namn",
    "nombre",
    "apellido",
    "nome",
    "imię",
    "nazwisko",
    "nimi",
    "jméno",
    "příjmení",
];

fn has_slot(slots: &[Slot], property: &str) -> bool {
    slots.iter().any(|slot| slot.property.as_str() == property)
}

/// Whether the slot has family names or given names: not only what stands before or after a name.
fn is_of_names(slot: &Slot) -> bool {
    slot.property.as_str() == "N"
        && (slot.place_of(Part::Component(0)).is_some()
            || slot.place_of(Part::Component(1)).is_some())
}

/// Whether one of the properties is there that name a person.
fn has_persons(slots: &[Slot]) -> bool {
    has_slot(slots, "FN") || slots.iter().any(is_of_names)
}

/// Whether one of the properties is there that name a person or an organization.
pub(crate) fn has_names(slots: &[Slot]) -> bool {
    has_persons(slots) || has_slot(slots, "ORG")
}

/// Whether the slot has numbers at which a person is called.
fn is_of_calls(slot: &Slot) -> bool {
    slot.property.as_str() == "TEL"
        && !matches!(slot.types.as_str(), "pager" | "x-telex" | "x-isdn")
}

/// Whether one of the properties is there by which a person is reached.
fn reaches(slots: &[Slot]) -> bool {
    has_slot(slots, "EMAIL") || slots.iter().any(is_of_calls)
}

/// Whether the slots are those of contacts: of names or organizations, and of addresses of
/// electronic mail, telephones or categories.
fn are_of_contacts(slots: &[Slot]) -> bool {
    has_names(slots) && (reaches(slots) || has_slot(slots, "CATEGORIES"))
}

/// Whether the text has one of the words.
pub(crate) fn has_word(text: &str, words: &[&str]) -> bool {
    words.iter().any(|word| text.contains(*word))
}

/// Whether a column of this name, which is in lower case, has neither addresses of electronic mail
/// nor numbers, though a part of the name says so.
pub(crate) fn is_other(name: &str) -> bool {
    has_word(name, OTHER_WORDS)
}

/// What columns have by their names that have no property.
#[derive(Clone, Copy)]
struct Unread {
    mails: bool,
    numbers: bool,
    names: bool,
}

/// What a column of this name should have, which is in lower case.
fn unread_by(name: &str) -> Unread {
    Unread {
        mails: has_word(name, MAIL_WORDS) && !is_other(name),
        numbers: has_word(name, NUMBER_WORDS) && !is_other(name),
        names: has_word(name, NAME_WORDS),
    }
}

impl Unread {
    fn is_any(self) -> bool {
        self.mails || self.numbers || self.names
    }
}

/// What a column should have by its name, if it has no property.
fn unread_in(alloc: Global, column: &Column) -> Result<Unread, NoMemory> {
    if !column.property.is_empty() {
        return Ok(unread_by(""));
    }
    let name = folded(alloc, column.name.as_str())?;
    Ok(unread_by(name.as_str()))
}

/// What columns have by their names that have no property.
fn unread_of(alloc: Global, columns: &[Column]) -> Result<Unread, NoMemory> {
    let mut all = unread_by("");
    for column in columns {
        let unread = unread_in(alloc, column)?;
        all.mails = all.mails || unread.mails;
        all.numbers = all.numbers || unread.numbers;
        all.names = all.names || unread.names;
    }
    Ok(all)
}

/// Whether the columns are those of contacts. They aren't if by their names all columns of names,
/// of addresses of electronic mail, or of what reaches a person, have no property.
pub(crate) fn are_contacts(alloc: Global, read: &ContactColumns) -> Result<bool, NoMemory> {
    let slots = read.slots.as_slice();
    if !are_of_contacts(slots) {
        return Ok(false);
    }
    let unread = unread_of(alloc, read.columns.as_slice())?;
    let lacks_mails = unread.mails && !has_slot(slots, "EMAIL");
    let lacks_numbers = unread.numbers && !reaches(slots);
    let lacks_names = unread.names && !has_persons(slots);
    Ok(!lacks_mails && !lacks_numbers && !lacks_names)
}

/// The most columns that are named.
const NAMES_MAX: u32 = 20;

/// Appends the names of the columns that should have names, addresses or numbers, and that aren't
/// known, with commas between them: at most 20, and two dots for more.
fn push_unread(alloc: Global, unread: &mut String, columns: &[Column]) -> Result<(), NoMemory> {
    let mut count: u32 = 0;
    for column in columns {
        if !unread_in(alloc, column)?.is_any() {
            continue;
        }
        if count >= NAMES_MAX {
            return push_listed(unread, "..");
        }
        push_listed(unread, column.name.as_str())?;
        count = count.saturating_add(1);
    }
    Ok(())
}

/// The names of the columns of a header that should have names, addresses of electronic mail or
/// numbers of telephones, and that aren't known, with commas between them, at most 20. The only
/// `Err` is out of memory.
pub(crate) fn unread_columns(alloc: Global, header: &ByteRecord) -> Result<String, NoMemory> {
    let names = column_names(alloc, header)?;
    let read = columns_of(alloc, names.as_slice(), &[])?;
    let mut unread = String::new(alloc);
    push_unread(alloc, &mut unread, read.columns.as_slice())?;
    Ok(unread)
}
