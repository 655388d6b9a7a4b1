//! The properties to which a column may be given by name, as `adr.street` (RFC 6350, section 6).

use crate::meaning::Part;

/// What the cells of a column become.
#[derive(Clone, Copy)]
pub(crate) struct Target {
    /// The name of the property. Empty if the column is left out.
    pub(crate) property: &'static str,
    /// What a cell is of it.
    pub(crate) part: Part,
    /// The name of Google's or Outlook's in English for such a column, which tells its component.
    pub(crate) known: &'static str,
    /// Whether the property has at most one such column.
    pub(crate) is_single: bool,
    /// Whether it may have a TYPE (RFC 6350, section 5.6).
    pub(crate) has_types: bool,
}

/// The words for targets, as they are told.
pub(crate) const TARGET_WORDS: &str = "fn, n.family, n.given, n.additional, n.prefix, n.suffix, \
     nickname, org, org.unit, title, role, email, tel, adr, adr.street, adr.city, adr.region, \
     adr.code, adr.country, adr.box, adr.extended, url, bday, anniversary, note, categories, uid, \
     gender, lang, impp, and - to leave a column out";

/// A word, the property that holds the column's cells, what a cell is of it, and the name of
/// Google's or Outlook's for such a column.
type ComponentWord = (&'static str, &'static str, Part, &'static str);

/// The words for a property, and the property.
type PropertyWord = (&'static str, &'static str);

/// The words for the components of a value, and for addresses as they are printed. A property has
/// one such column each.
const COMPONENTS: &[ComponentWord] = &[
    ("n.family", "N", Part::Component(0), "Last Name"),
    ("n.given", "N", Part::Component(1), "First Name"),
    ("n.additional", "N", Part::Component(2), "Middle Name"),
    ("n.prefix", "N", Part::Component(3), "Name Prefix"),
    ("n.suffix", "N", Part::Component(4), "Name Suffix"),
    ("org", "ORG", Part::Component(0), "Company"),
    ("org.unit", "ORG", Part::Component(1), "Department"),
    ("adr", "ADR", Part::Formatted, "Address 1 - Formatted"),
    ("adr.box", "ADR", Part::Component(0), "Address 1 - PO Box"),
    (
        "adr.extended",
        "ADR",
        Part::Component(1),
        "Address 1 - Extended Address",
    ),
    (
        "adr.street",
        "ADR",
        Part::Component(2),
        "Address 1 - Street",
    ),
    ("adr.city", "ADR", Part::Component(3), "Address 1 - City"),
    (
        "adr.region",
        "ADR",
        Part::Component(4),
        "Address 1 - Region",
    ),
    (
        "adr.code",
        "ADR",
        Part::Component(5),
        "Address 1 - Postal Code",
    ),
    (
        "adr.country",
        "ADR",
        Part::Component(6),
        "Address 1 - Country",
    ),
];

/// The words for values of which there is one column.
const SINGLES: &[PropertyWord] = &[
    ("fn", "FN"),
    ("bday", "BDAY"),
    ("anniversary", "ANNIVERSARY"),
    ("gender", "GENDER"),
    ("uid", "UID"),
    ("-", ""),
];

/// The words for values of which there may be several columns.
const VALUES: &[PropertyWord] = &[
    ("nickname", "NICKNAME"),
    ("title", "TITLE"),
    ("role", "ROLE"),
    ("email", "EMAIL"),
    ("tel", "TEL"),
    ("url", "URL"),
    ("note", "NOTE"),
    ("categories", "CATEGORIES"),
    ("lang", "LANG"),
    ("impp", "IMPP"),
];

/// The property for which a table has the word, in any case.
fn property_of(table: &[PropertyWord], word: &str) -> Option<&'static str> {
    for (known, property) in table {
        if known.eq_ignore_ascii_case(word) {
            return Some(*property);
        }
    }
    None
}

/// The word that a table has for the property.
fn word_of(table: &[PropertyWord], property: &str) -> Option<&'static str> {
    for (word, known) in table {
        if *known == property {
            return Some(*word);
        }
    }
    None
}

/// Columns of a value, of which there may be several.
fn values(property: &'static str) -> Target {
    Target {
        property,
        part: Part::Value,
        known: "",
        is_single: false,
        has_types: true,
    }
}

/// A column of a value, of which there is one.
fn single(property: &'static str) -> Target {
    Target {
        property,
        part: Part::Value,
        known: "",
        is_single: true,
        has_types: false,
    }
}

/// The component that the word names, in any case.
fn component(word: &str) -> Option<Target> {
    for (named, property, part, known) in COMPONENTS {
        if named.eq_ignore_ascii_case(word) {
            return Some(Target {
                property: *property,
                part: *part,
                known: *known,
                is_single: true,
                has_types: *property != "N",
            });
        }
    }
    None
}

/// The target that the word names, in any case.
pub(crate) fn target_of(word: &str) -> Option<Target> {
    if let Some(property) = property_of(SINGLES, word) {
        return Some(single(property));
    }
    if let Some(property) = property_of(VALUES, word) {
        return Some(values(property));
    }
    component(word)
}

/// The word for a component of the property; empty if there is none.
fn component_word(property: &str, part: Part) -> &'static str {
    for (word, known, component, _) in COMPONENTS {
        if *known == property && *component == part {
            return *word;
        }
    }
    ""
}

/// The word for a part of the property; empty if there is none, as for a label.
pub(crate) fn part_word(property: &str, part: Part) -> &'static str {
    if part == Part::Value {
        word_of(SINGLES, property)
            .or(word_of(VALUES, property))
            .unwrap_or("")
    } else {
        component_word(property, part)
    }
}
