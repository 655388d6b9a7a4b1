//! Tests whether the rows of stored tables represent well-formed books.
#![tactic(auto)]

pub mod books;
pub mod cells;
pub mod counts;
mod distinct;
pub mod faults;
mod imports;
mod keys;
mod labels;
pub mod laws;
mod listed;
mod members;
mod names;
pub mod opening;
mod scanning;
pub mod tables;
mod tallies;
