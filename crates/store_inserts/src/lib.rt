//! The calls that add books and many cards: creating a book, and importing cards. A call looks up
//! what it changes, decides by the model, and writes in one transaction.
#![tactic(auto)]

pub mod creating;
mod import_plan;
pub mod importing;
