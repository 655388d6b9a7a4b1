//! Performs commands on a store of address books, runs devices that sync with it, and proves what
//! holds over every run of both.
#![tactic(auto)]

mod calls;
mod command;
mod device_pages;
mod event;
mod importing;
pub mod laws;
pub mod lives;
mod mirrored;
mod page_tokens;
mod reply;
mod restarts;
pub mod restores;
pub mod resyncs;
pub mod store_lives;
mod texts;
mod whole_books;

pub use book_commands::{Command, Reply};
pub use command::perform;
pub use event::{Event, drive};
pub use mirrored::{Mirrored, mirror};
pub use page_tokens::page_tokens_have_texts;
pub use restarts::{Lived, Restarts, live};
