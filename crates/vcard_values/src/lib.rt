//! What the value of a logical line of vCard 2.1, 3.0 or 4.0 spells, and how vCard 4.0 (RFC 6350)
//! writes it.
#![tactic(auto)]

mod binary;
mod components;
mod cuts;
mod dates;
mod days;
mod escapes;
mod forms;
mod geo;
mod kept_texts;
mod known_dates;
mod media;
mod own_labels;
mod types;
mod value_texts;
mod values;
mod version;

pub use binary::{data_uri, decoded_base64, is_format};
pub use components::decoded_value;
pub use cuts::{after, before, has_octet};
pub use dates::{basic_date, has_basic_date, has_fraction, is_date};
pub use escapes::{TextForm, ValueForm, with_escapes};
pub use forms::{
    has_clear_form, has_scheme, is_property, params, says_uri, value_form, written_name,
};
pub use geo::geo_value;
pub use kept_texts::text_value;
pub use known_dates::known_date;
pub use media::media_octets;
pub use own_labels::own_label_type;
pub use types::{Types, has_clear_types, types_of};
pub use value_texts::{value_text, with_line_feeds};
pub use values::{has_known_value, may_be_base64, media_of};
pub use version::Version;
