//! `Unconverted`: why a file isn't converted.

use base_types::{NoMemory, Text};
use contact_columns::{suggested_columns, unknown_columns};
use std::alloc::Global;

/// Why a file isn't converted.
#[derive(Drop)]
pub(crate) struct Unconverted {
    /// What is wrong, in words.
    pub(crate) text: Text,
    /// What to say of its columns to begin with; empty if that doesn't help.
    pub(crate) columns: Text,
}

impl Unconverted {
    /// A file that isn't converted whatever is said of its columns.
    pub(crate) fn with_words(alloc: Global, words: &str) -> Result<Unconverted, NoMemory> {
        Ok(Unconverted {
            text: Text::copy_of(alloc, words)?,
            columns: Text::copy_of(alloc, "")?,
        })
    }

    /// A file of which something else is said than it has, with words on it.
    pub(crate) fn with_columns(alloc: Global, words: &str) -> Result<Unconverted, NoMemory> {
        Ok(Unconverted {
            text: Text::new(format!(in alloc; "--columns: {words}")?),
            columns: Text::copy_of(alloc, "")?,
        })
    }

    /// A file whose header isn't known. `head` is its beginning.
    pub(crate) fn with_header(alloc: Global, head: &[u8]) -> Result<Unconverted, NoMemory> {
        let names = unknown_columns(alloc, head)?;
        let names = names.as_str();
        let words = if names.is_empty() {
            String::from_str(alloc, "no card, and no header of contacts that is known")?
        } else {
            format!(in alloc; "a header whose columns aren't known: {names}")?
        };
        Ok(Unconverted {
            text: Text::new(words),
            columns: suggested_columns(alloc, head)?,
        })
    }
}
