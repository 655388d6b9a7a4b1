//! Commands, events, replies and devices as lines of text, and a store that fails, for programs
//! that test stores of books.

mod commands;
mod devices;
mod events;
mod failing_store;
mod replies;
mod running;
mod store_lines;

pub use commands::parse_command;
pub use devices::format_device;
pub use events::parse_event;
pub use failing_store::FailingStore;
pub use replies::format_reply;
pub use running::{mirror_of, print_reply_to, replies_to_events, reply_to, run_script};
pub use store_lines::run_store_line;
