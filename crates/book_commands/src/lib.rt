//! The requests of a client to a store of address books, and the replies. These are types only;
//! `book_service` performs the commands and re-exports both types.
#![tactic(auto)]

mod command;
mod reply;

pub use command::Command;
pub use reply::Reply;
