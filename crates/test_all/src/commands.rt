//! Lists of commands and of asks of devices over three new stores, one in memory, one over tables
//! in memory, and one over tables in a file.

mod runs;
mod stores;

pub(crate) use runs::run_sections;
