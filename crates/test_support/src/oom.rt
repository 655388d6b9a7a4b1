//! Calls of the libraries, each in a window in which allocations may be refused: the harness that
//! runs and reports them, and the calls that need no tables and no HTTP.

mod ballast;
mod books;
mod commands;
mod devices;
mod events;
mod harness;
mod mirrors;
mod outcome;
mod stores;
mod texts;

pub use books::{FEW_CARDS, has_books, have_same_books, is_no_memory, query_books};
pub use commands::run_commands;
pub use devices::run_device;
pub use events::run_drive;
pub use harness::Harness;
pub use mirrors::run_mirror;
pub use outcome::Outcome;
pub use stores::{FILLING, InMemory, Stores, filled_store, limits, replies_to, store_filled_by};
pub use texts::{CARD, run_cards, run_texts};
