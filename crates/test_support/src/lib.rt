//! What the test programs share: text that is printed, commands as lines of text, calls with little
//! memory, and lists of commands for a disk that stops. Also the rows that need no tables: lines
//! and cards, limits and pages.
#![tactic(auto)]

mod calls;
mod cards;
pub mod crash_plans;
mod feeding;
mod formats;
pub mod oom;
mod printout;
mod rows;
pub mod scripts;
mod supply;

pub use feeding::feed;
pub use printout::Printout;
pub use rows::check_rows;
pub use supply::Supply;
