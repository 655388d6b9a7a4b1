//! What the cells of a column mean.

/// What a cell is of its property.
#[derive(Clone, Copy, PartialEq, Eq)]
pub enum Part {
    /// A component of a structured value, counted from 0 (RFC 6350, section 3.3).
    Component(usize),
    /// The value.
    Value,
    /// What the value is for, as `Home`: a TYPE, or the label of a group.
    Label,
    /// An address as it is printed: the parameter LABEL.
    Formatted,
    /// The year of a date.
    Year,
    /// The month of a date, as a number.
    Month,
    /// The day of a date in its month.
    Day,
}

/// The property that holds a cell, and what the cell is of it.
#[derive(Clone, Copy)]
pub(crate) struct Meaning<'a> {
    /// The name of the property.
    pub(crate) property: &'a str,
    /// Columns with the same property and the same key give one property.
    pub(crate) key: &'a str,
    /// What the cell is of it.
    pub(crate) part: Part,
    /// The types that the column's name gives, with commas between them; empty if it gives none.
    pub(crate) types: &'a str,
}

impl<'a> Meaning<'a> {
    /// A column whose cells are values.
    pub(crate) fn value(property: &'a str, key: &'a str, types: &'a str) -> Meaning<'a> {
        Meaning {
            property,
            key,
            part: Part::Value,
            types,
        }
    }

    /// A column whose cells are components of a value.
    pub(crate) fn component(
        property: &'a str,
        key: &'a str,
        place: usize,
        types: &'a str,
    ) -> Meaning<'a> {
        Meaning {
            property,
            key,
            part: Part::Component(place),
            types,
        }
    }
}

/// A name of a column, the property that holds its cells, and what a cell is of it.
pub(crate) type NamedPart = (&'static str, &'static str, Part);

/// What a column means that a table has under this name, with this key and these types.
pub(crate) fn meaning_in<'a>(
    table: &[NamedPart],
    name: &str,
    key: &'a str,
    types: &'a str,
) -> Option<Meaning<'a>> {
    for (known, property, part) in table {
        if *known == name {
            return Some(Meaning {
                property: *property,
                key,
                part: *part,
                types,
            });
        }
    }
    None
}

/// The number of components of the property's value (RFC 6350, sections 6.2.2, 6.3.1 and 6.6.4), or
/// 0 if it has none.
pub fn component_count(property: &str) -> usize {
    match property {
        "N" => 5,
        "ADR" => 7,
        "ORG" => 2,
        _ => 0,
    }
}
