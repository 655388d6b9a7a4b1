//! Changes of a store's tables: putting a card into a book, forgetting tombstones, and what all
//! changes share. A call looks up what it changes, decides by the model, and writes in one
//! transaction.
#![tactic(auto)]

pub mod columns;
pub mod counting;
pub mod forgetting;
pub mod lookups;
pub mod put_call;
pub mod putting;
