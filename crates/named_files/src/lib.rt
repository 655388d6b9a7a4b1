//! Files by name, over which stores are created and opened; and what the files of a database hold
//! between two runs of a program.
#![tactic(auto)]

mod laws;
mod log_names;
mod named_files;
mod opening;
mod runs;
mod system;

pub use laws::new_files_are_empty;
pub use log_names::log_name;
pub use named_files::{Connected, NamedFiles, Refused};
pub use opening::{connect_found, is_empty_without_log};
pub use runs::{crash_files, crash_left, drop_connection, into_files, into_store, open_again};
pub use system::SystemFiles;
