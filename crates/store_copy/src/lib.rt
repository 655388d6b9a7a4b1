//! Copies the tables of a store of books into a database without tables, also without some of the
//! books, and tests that the copy holds the same rows.
#![tactic(auto)]

mod comparing;
pub mod laws;
mod left_out;
mod numbers;
mod reading;
mod writing;

pub use comparing::holds_rows;
pub use left_out::{has_books, ids_named, leave_out};
pub use numbers::restarting_pairs;
pub use reading::{StoredRows, list_tables};
pub use writing::write_tables;
