//! The names of Google's numbered columns, as `e-mail 1 - value`, in lower case and in German.

use crate::known_names::{KnownName, name_in};

const KINDS: &[KnownName] = &[
    ("e-mail", "E-mail"),
    ("email", "E-mail"),
    ("phone", "Phone"),
    ("telefon", "Phone"),
    ("address", "Address"),
    ("adresse", "Address"),
    ("website", "Website"),
    ("webseite", "Website"),
    ("relation", "Relation"),
    ("beziehung", "Relation"),
    ("event", "Event"),
    ("termin", "Event"),
    ("ereignis", "Event"),
    ("custom field", "Custom Field"),
    ("benutzerdefiniertes feld", "Custom Field"),
    ("organization", "Organization"),
    ("organisation", "Organization"),
];

const PARTS: &[KnownName] = &[
    ("label", "Label"),
    ("type", "Type"),
    ("typ", "Type"),
    ("value", "Value"),
    ("wert", "Value"),
    ("formatted", "Formatted"),
    ("formatiert", "Formatted"),
    ("street", "Street"),
    ("strasse", "Street"),
    ("city", "City"),
    ("ort", "City"),
    ("stadt", "City"),
    ("po box", "PO Box"),
    ("postfach", "PO Box"),
    ("region", "Region"),
    ("bundesland", "Region"),
    ("postal code", "Postal Code"),
    ("postleitzahl", "Postal Code"),
    ("country", "Country"),
    ("land", "Country"),
    ("extended address", "Extended Address"),
    ("erweiterte adresse", "Extended Address"),
    ("adresszusatz", "Extended Address"),
    ("name", "Name"),
    ("department", "Department"),
    ("abteilung", "Department"),
    ("title", "Title"),
    ("titel", "Title"),
    ("job description", "Job Description"),
    ("stellenbeschreibung", "Job Description"),
];

/// The kind, the number and the part of a numbered column, in English.
#[derive(Clone, Copy)]
pub(crate) struct NumberedName<'a> {
    pub(crate) kind: &'static str,
    pub(crate) number: &'a str,
    pub(crate) part: &'static str,
}

/// The texts before and after a hyphen or an en dash between spaces.
fn split_dash(name: &str) -> Option<(&str, &str)> {
    match name.split_once(" - ") {
        Some(parts) => Some(parts),
        None => name.split_once(" – "),
    }
}

/// What the name says, if it is that of a numbered column.
pub(crate) fn numbered_name(name: &str) -> Option<NumberedName<'_>> {
    let (head, part) = split_dash(name)?;
    let (kind, number) = head.rsplit_once(' ')?;
    Some(NumberedName {
        kind: name_in(KINDS, kind)?,
        number,
        part: name_in(PARTS, part)?,
    })
}
