//! `ContactFault`: why a file of contacts can't be read on.
ghost use Rattle.std.specs.Prelude.{◌≡◌};
ghost use Rattle.contact_csv.specs.declared.fault.ContactFault.TheVariants.{Memory};

use std::error::Error;
use std::fmt;
use vcard_text::NoMemory;

/// Why no contact is read from a file.
#[derive(Clone, Copy, Debug, PartialEq, Eq)]
pub enum ContactFault {
    /// The first row isn't a header of contacts that is known.
    UnknownHeader,
    /// The file can't be read.
    Unreadable,
    /// An allocation failed.
    Memory,
}

impl fmt::Display for ContactFault {
    fn fmt<W: fmt::Write>(&self, f: &mut fmt::Formatter<W>) -> fmt::Result {
        f.write_str(match self {
            ContactFault::UnknownHeader => {
                "the first row is no header of contacts that is known"
            }
            ContactFault::Unreadable => "the file can't be read",
            ContactFault::Memory => "out of memory",
        })
    }
}

impl Error for ContactFault {}

impl From<NoMemory> for ContactFault {
    ghost from_gives = { λ _ fault. fault ≡ Memory };

    fn from(_error: NoMemory) -> ContactFault {
        ContactFault::Memory
    }
}
