//! Parses the program's command line into an `Order`.
#![tactic(auto)]

mod arguments;
mod backup_orders;
mod convert_command;
mod export_command;
mod fault;
mod host_names;
pub mod laws;
mod matched_orders;
mod order;
mod parsing;
mod subcommands;
mod values;

pub use fault::LineFault;
pub use order::Order;
pub use parsing::read_order;
