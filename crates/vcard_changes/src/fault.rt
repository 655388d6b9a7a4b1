//! Why a card can't be converted.
ghost use Rattle.std.specs.Prelude.{◌≡◌};
ghost use Rattle.vcard_changes.specs.declared.fault.ImportFault.TheVariants.{Memory};

use std::fmt;
use vcard_text::{NoMemory, Text};

/// Why a card can't be converted.
#[derive(Drop)]
pub enum ImportFault {
    /// An allocation failed.
    Memory,
    /// The canonical text of its lines would be too long.
    TooLong,
    /// A value depends on a character set that isn't known, of this name.
    Charset(Text),
}

impl From<NoMemory> for ImportFault {
    ghost from_gives = { λ _ fault. fault ≡ Memory };

    fn from(_error: NoMemory) -> ImportFault {
        ImportFault::Memory
    }
}

impl fmt::Display for ImportFault {
    fn fmt<W: fmt::Write>(&self, f: &mut fmt::Formatter<W>) -> fmt::Result {
        match self {
            ImportFault::Memory => f.write_str("no memory"),
            ImportFault::TooLong => f.write_str("the text is too long"),
            ImportFault::Charset(name) => {
                let name = name.as_str();
                write!(
                    f,
                    "the charset {name} isn't known: export the card in UTF-8"
                )
            }
        }
    }
}
