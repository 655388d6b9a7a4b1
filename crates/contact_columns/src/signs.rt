//! What a column means by the other columns of its file.

/// What the names of the columns of an address say after that of the address, but for its street.
const ADDRESS_PARTS: &[&str] = &[
    "City",
    "State",
    "Region",
    "Postal Code",
    "Country",
    "Country/Region",
    "PO Box",
    "Address PO Box",
    "Street 2",
    "Extended Address",
];

/// Whether these are the words for a part of an address beside its street.
fn is_part(words: &str) -> bool {
    for part in ADDRESS_PARTS {
        if *part == words {
            return true;
        }
    }
    false
}

/// Which columns of an address a file has.
#[derive(Clone, Copy)]
struct AddressSigns {
    has_street: bool,
    has_part: bool,
}

/// Which columns a file has by which others are understood.
#[derive(Clone, Copy)]
pub(crate) struct Signs {
    has_given: bool,
    has_family: bool,
    has_job: bool,
    has_suffix: bool,
    has_salutation: bool,
    plain: AddressSigns,
    work: AddressSigns,
    home: AddressSigns,
    other: AddressSigns,
}

impl AddressSigns {
    fn new() -> AddressSigns {
        AddressSigns {
            has_street: false,
            has_part: false,
        }
    }

    /// Notes a column of the address, by what its name says after that of the address.
    fn note(&mut self, part: &str) {
        if part == "Street" {
            self.has_street = true;
        } else if is_part(part) {
            self.has_part = true;
        }
    }

    /// The name of the column of a whole address: it is the street beside other parts, since a
    /// program that shows the parts would show no street.
    fn settled(self, whole: &'static str, street: &'static str) -> &'static str {
        if self.has_part && !self.has_street {
            street
        } else {
            whole
        }
    }
}

impl Signs {
    /// Those of no column.
    pub(crate) fn new() -> Signs {
        Signs {
            has_given: false,
            has_family: false,
            has_job: false,
            has_suffix: false,
            has_salutation: false,
            plain: AddressSigns::new(),
            work: AddressSigns::new(),
            home: AddressSigns::new(),
            other: AddressSigns::new(),
        }
    }

    /// Notes a column with this name of Google's or Outlook's in English.
    pub(crate) fn note(&mut self, known: &str) {
        match known {
            "First Name" | "Given Name" => self.has_given = true,
            "Last Name" | "Family Name" => self.has_family = true,
            "Ort" => self.plain.has_part = true,
            "Job Title" => self.has_job = true,
            "Suffix" | "Name Suffix" => self.has_suffix = true,
            "Salutation" | "Name Prefix" => self.has_salutation = true,
            _ => self.note_address(known),
        }
    }

    /// Notes a column of an address.
    fn note_address(&mut self, known: &str) {
        if let Some(part) = known.strip_prefix("Address 1 - ") {
            self.plain.note(part);
            return;
        }
        match known.split_once(' ') {
            Some(("Business", part)) => self.work.note(part),
            Some(("Home", part)) => self.home.note(part),
            Some(("Other", part)) => self.other.note(part),
            _ => {}
        }
    }

    /// Whether there are given names or family names.
    fn has_names(self) -> bool {
        self.has_given || self.has_family
    }

    /// What a column of names is: the part of a name that no other column has, or the whole name.
    fn name_part(self) -> &'static str {
        match (self.has_given, self.has_family) {
            (true, false) => "Last Name",
            (false, true) => "First Name",
            _ => "Name",
        }
    }

    /// Whether `Ort` is a city: Outlook in German has a column of that name for any place, beside
    /// those of cities.
    fn is_city(self) -> bool {
        self.plain.has_street || !self.work.has_part
    }

    /// Whether `Title` is what stands before a name, as in Outlook, which has a column for the job
    /// beside it, or one for what stands after a name. Elsewhere it is the job.
    fn is_title_prefix(self) -> bool {
        self.has_names() && (self.has_job || self.has_suffix && !self.has_salutation)
    }

    /// The name in English for one that the tables have, by the other columns.
    pub(crate) fn settled<'a>(self, known: &'a str) -> &'a str {
        match known {
            "Title" if !self.is_title_prefix() => "Job Title",
            "Titel" if self.has_names() => "Title",
            "Titel" => "Job Title",
            "Anrede" if self.has_names() => "Title",
            "Name or Part" => self.name_part(),
            "Ort" if self.is_city() => "Address 1 - City",
            "Address" => self
                .plain
                .settled("Address 1 - Formatted", "Address 1 - Street"),
            "Business Address" => self.work.settled("Business Address", "Business Street"),
            "Home Address" => self.home.settled("Home Address", "Home Street"),
            "Other Address" => self.other.settled("Other Address", "Other Street"),
            _ => known,
        }
    }
}
