//! The programs and languages whose columns have names that mean something else elsewhere.

use crate::known_names::KnownName;
use base_types::Text;

/// The program, or the language, of the columns of a file.
#[derive(Clone, Copy, PartialEq, Eq)]
pub(crate) enum Program {
    /// The list of users of Office 365.
    Office,
    /// The template for users of Office 365.
    OfficeTemplate,
    /// Thunderbird in English.
    Thunderbird,
    /// Thunderbird in German.
    ThunderbirdGerman,
    /// Another with given names in German.
    German,
    /// Another with given names in French.
    French,
    /// Any other.
    Other,
}

const OFFICE: &[KnownName] = &[
    ("title", "Job Title"),
    ("user principal name", "E-mail Address"),
    ("phone number", "Business Phone"),
    ("fax", "Business Fax"),
    ("street address", "Business Street"),
    ("city", "Business City"),
    ("state", "Business State"),
    ("postal code", "Business Postal Code"),
    ("country", "Business Country"),
    ("country/region", "Business Country"),
    ("country or region", "Business Country"),
];

const OFFICE_TEMPLATE: &[KnownName] = &[
    ("user name", "E-mail Address"),
    ("username", "E-mail Address"),
];

const THUNDERBIRD: &[KnownName] = &[
    ("home address", "Home Street"),
    ("work address", "Business Street"),
];

const THUNDERBIRD_GERMAN: &[KnownName] = &[
    ("geburtstag", "Birth Day"),
    ("geburtsmonat", "Birth Month"),
    ("geburtsjahr", "Birth Year"),
];

const GERMAN: &[KnownName] = &[("partner", "Spouse")];

const FRENCH: &[KnownName] = &[("service", "Department")];

/// The names that mean something else in the columns of the program.
pub(crate) fn own_names(program: Program) -> &'static [KnownName] {
    match program {
        Program::Office => OFFICE,
        Program::OfficeTemplate => OFFICE_TEMPLATE,
        Program::Thunderbird => THUNDERBIRD,
        Program::ThunderbirdGerman => THUNDERBIRD_GERMAN,
        Program::German => GERMAN,
        Program::French => FRENCH,
        Program::Other => &[],
    }
}

fn has_name(names: &[Text], name: &str) -> bool {
    names.iter().any(|it| it.as_str() == name)
}

/// The program that writes columns of these names, which are in lower case.
pub(crate) fn program_of(names: &[Text]) -> Program {
    if has_name(names, "user principal name") {
        Program::Office
    } else if has_name(names, "primary email") {
        Program::Thunderbird
    } else if has_name(names, "geburtsjahr") {
        Program::ThunderbirdGerman
    } else if has_name(names, "vorname") {
        Program::German
    } else if has_name(names, "prénom") {
        Program::French
    } else if has_name(names, "office number") {
        Program::OfficeTemplate
    } else {
        Program::Other
    }
}
