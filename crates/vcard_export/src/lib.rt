//! Writes cards as vCard 3.0 (RFC 2426), as telephones and mail programs take them.
#![tactic(auto)]

mod card;
mod form;
mod line;
mod names;
mod params;
mod prefix;
mod spelling;
mod value;

pub use card::write_older_card;
