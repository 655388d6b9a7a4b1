//! The calls that take a card out of a book: the removal, and the move into another book. A call
//! looks up what it changes, decides by the model, and writes in one transaction.
#![tactic(auto)]

mod counting;
mod drop_plans;
pub mod move_call;
mod moving;
pub mod remove_call;
mod removing;
