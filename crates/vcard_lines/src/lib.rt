//! Lines of vCard 4.0 text (RFC 6350, sections 3.2 and 3.3): joins physical lines into logical
//! lines, reads property lines, and writes them folded. And text values (section 3.4): backslash
//! escapes, and components separated by semicolons.
#![tactic(auto)]

mod bounds;
mod fault;
mod folded_count;
mod folding;
mod joining;
pub mod laws;
mod legal_parts;
mod line;
mod line_reader;
mod line_writer;
mod text_value;

pub use bounds::COUNT_MAX;
pub use fault::CardFault;
pub use folded_count::{folded_len, folded_line_len};
pub use folding::write_folded;
pub use joining::{continues, join, line_so_far};
pub use legal_parts::has_legal_parts;
pub use line::{Line, Param, ParamValue};
pub use line_reader::{is_permitted_text, read_line};
pub use line_writer::write_line;
pub use text_value::{components, escape, unescape};
