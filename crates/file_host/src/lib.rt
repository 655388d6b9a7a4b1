//! The host that the program runs on: its files with the stores of books in them, and its ports.
#![tactic(auto)]

mod causes;
mod file_care;
mod host;
mod keeping;
mod lost_numbers;
mod new_file;
mod old_file;
mod ports;
mod reading;
mod restoring;
mod running;
mod store_files;

pub use host::FileHost;
pub use running::{run_and_report_on_files, run_order};
