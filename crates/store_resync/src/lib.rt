//! The resync of a store: the call that makes every device start again after the store's file was
//! put back from a copy. It looks up all books, decides by the definitions of `book_resync`, and
//! writes in one transaction.
#![tactic(auto)]

mod planning;
pub mod resync_call;
mod stages;
mod writing;
