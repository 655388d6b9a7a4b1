//! The columns of Thunderbird's exports that no other program has.

use crate::meaning::{Meaning, NamedPart, Part, meaning_in};

/// The year, the month and the day of the birthday.
const BIRTHDAYS: &[NamedPart] = &[
    ("Birth Year", "BDAY", Part::Year),
    ("Birth Month", "BDAY", Part::Month),
    ("Birth Day", "BDAY", Part::Day),
];

/// What the column of this name means, if Thunderbird's exports in English have it.
pub(crate) fn thunderbird_meaning(name: &str) -> Option<Meaning<'_>> {
    meaning_in(BIRTHDAYS, name, "", "")
}
