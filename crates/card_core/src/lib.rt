//! Expands vCard groups into the people that they reach through members (RFC 6350, section 6.6.5).
#![tactic(auto)]

mod expansion;
mod fault;
mod groups;
pub mod laws;
mod lookup;
mod naming;
mod text_set;
mod walk;

pub use expansion::Expansion;
pub use fault::GroupFault;
pub use groups::expand;
pub use lookup::CardsByUid;
