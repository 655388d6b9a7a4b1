//! The columns of Outlook's exports.

use crate::known_names::{KnownName, name_in};
use crate::meaning::{Meaning, NamedPart, Part, meaning_in};

/// Columns with an address of electronic mail or of the web.
const NET: &[NamedPart] = &[
    ("E-mail Address", "EMAIL", Part::Value),
    ("E-mail 2 Address", "EMAIL", Part::Value),
    ("E-mail 3 Address", "EMAIL", Part::Value),
    ("Web Page", "URL", Part::Value),
    ("Personal Web Page", "URL", Part::Value),
];

/// Columns with telephones, and their types (RFC 6350, section 6.4.1).
const PHONE_TYPES: &[KnownName] = &[
    ("Business Phone", "work"),
    ("Business Phone 2", "work"),
    ("Company Main Phone", "work,x-main"),
    ("Home Phone", "home"),
    ("Home Phone 2", "home"),
    ("Mobile Phone", "cell"),
    ("Business Fax", "work,fax"),
    ("Home Fax", "home,fax"),
    ("Other Fax", "fax"),
    ("Pager", "pager"),
    ("TTY/TDD Phone", "textphone"),
    ("Car Phone", "x-car"),
    ("Assistant's Phone", "x-assistant"),
    ("Callback", "x-callback"),
    ("ISDN", "x-isdn"),
    ("Radio Phone", "x-radio"),
    ("Telex", "x-telex"),
    ("Primary Phone", "x-primary"),
    ("Other Phone", ""),
];

/// Other columns about the person or the work.
const PERSON: &[NamedPart] = &[
    ("Company", "ORG", Part::Component(0)),
    ("Department", "ORG", Part::Component(1)),
    ("Job Title", "TITLE", Part::Value),
    ("Profession", "ROLE", Part::Value),
    ("Anniversary", "ANNIVERSARY", Part::Value),
    ("Categories", "CATEGORIES", Part::Value),
    ("Internet Free Busy", "FBURL", Part::Value),
];

/// Parts of an address.
const ADDRESS_PARTS: &[NamedPart] = &[
    ("Address PO Box", "ADR", Part::Component(0)),
    ("Street 2", "ADR", Part::Component(1)),
    ("Street", "ADR", Part::Component(2)),
    ("City", "ADR", Part::Component(3)),
    ("State", "ADR", Part::Component(4)),
    ("Postal Code", "ADR", Part::Component(5)),
    ("Country/Region", "ADR", Part::Component(6)),
    ("Country", "ADR", Part::Component(6)),
    ("Address", "ADR", Part::Formatted),
];

/// A column with an address of electronic mail or of the web. `key` is its name in the header.
fn net_meaning<'a>(name: &str, key: &'a str) -> Option<Meaning<'a>> {
    let types = if name == "Personal Web Page" {
        "home"
    } else {
        ""
    };
    meaning_in(NET, name, key, types)
}

/// A column about the person or the work.
fn person_meaning(name: &str) -> Option<Meaning<'_>> {
    match name {
        "Spouse" => Some(Meaning::value("RELATED", "Spouse", "spouse")),
        "Children" => Some(Meaning::value("RELATED", "Children", "child")),
        _ => meaning_in(PERSON, name, "", ""),
    }
}

/// A part of an address.
fn address_meaning<'a>(part: &str, types: &'a str) -> Option<Meaning<'a>> {
    meaning_in(ADDRESS_PARTS, part, "", types)
}

/// What the column of this name means, if Outlook's exports in English have it. `key` is its name
/// in the header.
pub(crate) fn outlook_meaning<'a>(name: &'a str, key: &'a str) -> Option<Meaning<'a>> {
    if let Some(types) = name_in(PHONE_TYPES, name) {
        return Some(Meaning::value("TEL", key, types));
    }
    match name.split_once(' ') {
        Some(("Business", part)) => address_meaning(part, "work"),
        Some(("Home", part)) => address_meaning(part, "home"),
        Some(("Other", part)) => address_meaning(part, "x-other"),
        _ => net_meaning(name, key).or(person_meaning(name)),
    }
}
