//! `SqlStore`: a store of books in a database, in memory or in a file. Creates and opens stores,
//! and implements the calls of `BookStore`.
#![tactic(auto)]

mod administration;
mod answering;
mod calls;
mod closing;
mod copy_fault;
mod copying;
mod faulty;
mod files;
mod keeps;
pub mod laws;
mod leaving_out;
mod named_stores;
mod opening;
mod over_files;
mod real_files;
mod restarting;
mod resyncing;
mod schema_creation;
mod sql_store;

pub use copy_fault::CopyFault;
pub use faulty::FileSearch;
pub use files::{FileBooks, FileBooksFrom};
pub use restarting::open_left;
pub use sql_store::SqlStore;
pub use store_schema::OpenFault;
