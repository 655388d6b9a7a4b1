//! The model of books: what a store keeps of them, what its calls answer, and how a device applies
//! the pages of reports (RFC 6578). `TombstoneCounts` is how many tombstones each book has, for stores
//! that would otherwise count rows.
#![tactic(auto)]

mod answers;
mod change;
mod counts;
pub mod decisions;
mod denied;
pub mod laws;
mod limits;
mod page;
mod refusal;
mod row;
mod token;
mod tombstone_counts;

pub use answers::{BookLine, ImportTally, Moved, PutAnswer, Stored, Tally};
pub use change::{Change, RemovalReason, StoreReason};
pub use counts::Counts;
pub use denied::{Denied, Fault};
pub use limits::Limits;
pub use page::{Entry, Page};
pub use refusal::{Refusal, TokenCause};
pub use row::Row;
pub use token::{Mark, Token};
pub use tombstone_counts::TombstoneCounts;
