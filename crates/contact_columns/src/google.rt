//! The columns of Google's exports: today's (`First Name`, `E-mail 1 - Label`) and the older ones
//! (`Given Name`, `E-mail 1 - Type`).

use crate::components::name_component;
use crate::known_names::{KnownName, name_in};
use crate::meaning::{Meaning, NamedPart, Part, meaning_in};

/// Columns without a number.
const SINGLES: &[NamedPart] = &[
    ("Name", "FN", Part::Value),
    ("Nickname", "NICKNAME", Part::Value),
    ("Birthday", "BDAY", Part::Value),
    ("Notes", "NOTE", Part::Value),
    ("Photo", "PHOTO", Part::Value),
    ("Labels", "CATEGORIES", Part::Value),
    ("Group Membership", "CATEGORIES", Part::Value),
    ("Occupation", "ROLE", Part::Value),
    ("Organization Name", "ORG", Part::Component(0)),
    ("Organization Department", "ORG", Part::Component(1)),
    ("Organization Title", "TITLE", Part::Value),
];

/// Parts of an address.
const ADDRESS_PARTS: &[NamedPart] = &[
    ("PO Box", "ADR", Part::Component(0)),
    ("Extended Address", "ADR", Part::Component(1)),
    ("Street", "ADR", Part::Component(2)),
    ("City", "ADR", Part::Component(3)),
    ("Region", "ADR", Part::Component(4)),
    ("Postal Code", "ADR", Part::Component(5)),
    ("Country", "ADR", Part::Component(6)),
    ("Formatted", "ADR", Part::Formatted),
];

/// Parts of an organization.
const ORGANIZATION_PARTS: &[NamedPart] = &[
    ("Name", "ORG", Part::Component(0)),
    ("Department", "ORG", Part::Component(1)),
    ("Title", "TITLE", Part::Value),
    ("Job Description", "ROLE", Part::Value),
];

/// The kinds of the other numbered columns, and their properties.
const NUMBERED: &[KnownName] = &[
    ("E-mail", "EMAIL"),
    ("Phone", "TEL"),
    ("Address", "ADR"),
    ("Website", "URL"),
    ("Relation", "RELATED"),
    ("Event", "X-ABDATE"),
    ("Custom Field", "X-CUSTOM-FIELD"),
];

/// A column of a person's name, which both programs have.
pub(crate) fn name_meaning(name: &str) -> Option<Meaning<'_>> {
    let place = name_component(name)?;
    Some(Meaning::component("N", "", place, ""))
}

/// A column without a number. An occupation stands beside the role of an organization.
fn single_meaning(name: &str) -> Option<Meaning<'_>> {
    let key = if name == "Occupation" { name } else { "" };
    meaning_in(SINGLES, name, key, "")
}

/// A part of an organization.
fn organization_meaning<'a>(key: &'a str, part: &str) -> Option<Meaning<'a>> {
    meaning_in(ORGANIZATION_PARTS, part, key, "")
}

/// A part of an address.
fn address_meaning<'a>(key: &'a str, part: &str) -> Option<Meaning<'a>> {
    meaning_in(ADDRESS_PARTS, part, key, "")
}

/// The label of a property.
fn label_meaning<'a>(property: &'static str, key: &'a str) -> Meaning<'a> {
    Meaning {
        property,
        key,
        part: Part::Label,
        types: "",
    }
}

/// A part of a numbered property that isn't an organization.
fn property_meaning<'a>(property: &'static str, key: &'a str, part: &str) -> Option<Meaning<'a>> {
    if part == "Label" || part == "Type" {
        Some(label_meaning(property, key))
    } else if property == "ADR" {
        address_meaning(key, part)
    } else if part == "Value" {
        Some(Meaning::value(property, key, ""))
    } else {
        None
    }
}

/// A part of a numbered property, as `Value` of `Phone` and `1`.
fn numbered_meaning<'a>(kind: &str, key: &'a str, part: &str) -> Option<Meaning<'a>> {
    if kind == "Organization" {
        return organization_meaning(key, part);
    }
    let property = name_in(NUMBERED, kind)?;
    property_meaning(property, key, part)
}

/// What the column of this name means, if Google's exports in English have it.
pub(crate) fn google_meaning(name: &str) -> Option<Meaning<'_>> {
    if let Some((head, part)) = name.split_once(" - ") {
        let (kind, key) = head.rsplit_once(' ')?;
        return numbered_meaning(kind, key, part);
    }
    single_meaning(name)
}
