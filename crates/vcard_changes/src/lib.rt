//! What the conversion of a card or of a row of contacts gives: the card, its changes, or why it
//! can't be converted; and the lines and the UID that a conversion adds.
#![tactic(auto)]

mod change;
mod change_kind;
mod conversion;
mod fault;
mod proper_line;
mod uid;

pub use change::Change;
pub use change_kind::ChangeKind;
pub use conversion::Conversion;
pub use fault::ImportFault;
pub use proper_line::{
    extension_line, extension_name, is_proper_line, plain_line, with_upper_name,
};
pub use uid::derived_uid;
