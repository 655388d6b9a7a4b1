//! The resync: what a store does after it was put back from a copy, so that every device starts
//! again. Each book takes many numbers at once and forgets every removal. The laws prove that it is
//! a list of accepted commands, and that no version or token of the time that was lost comes again
//! if its number is below the new one.
#![tactic(auto)]

mod admin_store;
pub mod decisions;
pub mod laws;

pub use admin_store::AdminStore;
