//! The numbers of tombstones by the names of books.
ghost use Rattle.book_model.specs.Counts.{AreCountsOf, CountsByName, IsWritten};
ghost use Rattle.book_model.specs.Books.{Books};
ghost use Rattle.std.specs.FinMap as finite;
ghost use Rattle.std.specs.Prelude.{◌≡◌};

use base_types::TextMap;
use std::alloc::Global;
use std::marker::Model;

/// How many tombstones some of a store's books have. A book without an entry is counted when the
/// number is next needed; an entry must be right, so a store changes it only after a commit.
#[derive(Debug, Drop)]
pub struct TombstoneCounts {
    numbers: TextMap<u64>,
    alloc: Global,
}

impl Model for TombstoneCounts {
    ghost use Rattle.book_model.specs.Counts.{CountsByName, coded_counts};

    ghost Value = { CountsByName };

    ghost coded = { coded_counts };

    ghost view = { λ counts. counts.numbers };
}

impl TombstoneCounts {
    /// No entries, which is right for any books. Allocates nothing.
    pub fn new(alloc: Global) -> TombstoneCounts
        ensures empty { result ≡ finite.empty }
        ensures right { (books : Books) → AreCountsOf result books }
    {
        TombstoneCounts {
            numbers: TextMap::new(alloc),
            alloc,
        }
    }

    /// The number of the book with this name, if there is an entry.
    pub fn get(&self, name: &str) -> Option<u64>
        ensures { result ≡ finite.get self.now name.now }
    {
        self.numbers.get(name).copied()
    }

    /// Removes the entry of the book with this name. Allocates nothing.
    pub fn clear(&mut self, name: &str)
        ensures { self.new ≡ finite.remove self.old name.now }
    {
        self.numbers.remove(name);
    }

    /// Sets the number of the book with this name. Allocates only if there is no entry; if memory
    /// runs out then, there is none afterwards.
    pub fn set(&mut self, name: &str, number: u64)
        ensures { IsWritten self.old self.new name.now number }
    {
        if self.numbers.replace(name, number).is_some() {
            return;
        }
        if let Ok(key) = String::from_str(self.alloc, name) {
            let _ = self.numbers.insert(key, number);
        }
    }
}
