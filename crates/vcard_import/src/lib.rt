//! Converts vCards of other programs, in vCard 2.1, 3.0 or 4.0, to cards of vCard 4.0 (RFC 6350),
//! with a report of the lines that were changed.
#![tactic(auto)]

mod card_lines;
mod charsets;
mod conversion;
mod delimiters;
mod ends;
mod faultless;
mod first_uid;
mod folds;
mod joined;
mod labels;
pub mod laws;
mod left_out;
mod missing_lines;
mod parsed_name;
mod rules;
mod version;

pub use conversion::{convert_card, without_bom};
pub use left_out::{is_left_out, left_out_lines};
