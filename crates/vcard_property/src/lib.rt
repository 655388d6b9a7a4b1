//! Converts one property line of vCard 2.1, 3.0 or 4.0 to a line of vCard 4.0 (RFC 6350): its name,
//! its parameters, its encoding and its value.
#![tactic(auto)]

mod content;
mod conversion;
mod decoding;
mod head;
mod kept_line;
mod labels;
mod line_parts;
mod names;
mod new_names;
mod omitted_year;
mod params;
mod property;
mod property_line;
mod same_line;
mod typed_params;
mod written_names;

pub use conversion::convert_line;
pub use decoding::unknown_charset;
pub use kept_line::text_line;
pub use labels::{AddressLine, AddressTypes, OtherParts, read_address, with_label};
pub use same_line::{are_line, has_encoding, read_uid_line};
pub use vcard_values::{Version, media_octets, text_value};
