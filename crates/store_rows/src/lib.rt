//! Laws that relate the rows of the tables to the books of the model. Each law is a public function
//! that does nothing: its clause is the law, and a caller gets it by calling the function. One more
//! module, `canonical`, tests a stored text.
#![tactic(auto)]

pub mod adding;
pub mod canonical;
pub mod changes;
pub mod forgetting;
pub mod lookups;
pub mod opening;
pub mod reading;
pub mod tables;
