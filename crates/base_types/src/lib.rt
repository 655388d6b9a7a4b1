//! `Text`, `Items` and `TextMap`: std's `String`, `Vec` and `BTreeMap` with contracts about octets,
//! lists and finite maps instead of capacities and addresses.
#![tactic(auto)]

mod items;
mod memory;
mod part;
mod text;
mod text_map;

pub use items::Items;
pub use memory::NoMemory;
pub use part::Part;
pub use text::Text;
pub use text_map::{TextMap, value_at};
