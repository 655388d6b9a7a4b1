//! Makes the lines of vCard 4.0 (RFC 6350) that the cells of a row of contacts become, by the
//! columns that `contact_columns` knows.
#![tactic(auto)]

mod draft;
mod entries;
mod exchange;
mod labels;
mod lines;
mod names;
mod row_lines;
mod structured;
mod values;
mod whole_names;

pub use draft::{are_void, draft_lines};
pub use labels::label_types;
pub use lines::caret_text;
pub use row_lines::RowLines;
pub use structured::JOINER;
