//! Calls with little memory: requests in one piece over a store of any kind, and what the program
//! does with its words.

mod paths;
mod requests;

pub use paths::{run_first_path, run_read_order};
pub use requests::run_feed;
