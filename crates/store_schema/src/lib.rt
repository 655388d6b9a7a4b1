//! Tests whether the declared tables are those of a book store, and which schema number they have.
#![tactic(auto)]

mod check;
mod forms;
mod leftover;
mod meta;
mod open_fault;
mod schema;

pub use check::{check_first_schema, check_schema};
pub use leftover::{FileRefusal, fault_of_first_leftover, fault_of_leftover, load_schema};
pub use open_fault::{OpenFault, open_fault_of};
