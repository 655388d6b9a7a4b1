//! Migrates tables of the first schema, which has no keeps, to the second.
#![tactic(auto)]

mod files;
mod first_rows;
mod initial_keeps;
mod migrating;
mod planning;
mod writing;

pub use files::{migrate, migrate_in};
pub use initial_keeps::keeps_of;
pub use migrating::migrate_connection;
