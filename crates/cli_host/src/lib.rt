//! Runs the orders of the command line on the files and ports of a host.
#![tactic(auto)]

mod args;
mod card_export;
mod copying;
mod exit;
mod host;
mod listing;
mod naming;
mod progress;
mod resyncing;
mod running;
mod serving;
mod verifying;
mod waiting;
mod words;
mod work;

pub use args::order_of_args;
pub use book_resync::AdminStore;
pub use exit::{ProgramExit, run_and_report};
pub use host::Host;
pub use listing::{Listing, run_listing};
pub use running::run_on_host;
pub use waiting::note_waiting;
pub use work::{StoreWork, Work, work_of};
