//! The calls that only administrators need.
ghost use Rattle.book_resync.specs.Resyncs.{some_pairs};
ghost use Rattle.std.specs.Prelude.{◌≡◌, ◌≤◌};

use crate::files::FileBooks;
use crate::over_files::resync;
use book_model::Denied;
use book_resync::AdminStore;

/// No pairs count as one.
fn at_least_one(pairs: u64) -> u64
    ensures value { result ≡ some_pairs pairs }
    ensures some { 1 ≤ result }
{
    if pairs == 0 { 1 } else { pairs }
}

// Of the store over files alone. While it was of a store over any `Alter`, the prover stopped at
// its limit where the program calls a function over any `AdminStore`.
impl AdminStore for FileBooks {
    fn keep(&mut self, book: &str) -> Result<u64, Denied> {
        self.keep_of(book)
    }

    fn resync_books(&mut self, pairs: u64) -> Result<u64, Denied> {
        resync(self, at_least_one(pairs))
    }
}
