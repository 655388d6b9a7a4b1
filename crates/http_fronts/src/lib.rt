//! Fronts: what answers some requests of a server itself, before the handler of the others. A front
//! has no state, and changes no book.
#![tactic(auto)]

mod front;
mod with_front;

pub use front::Front;
pub use with_front::WithFront;
