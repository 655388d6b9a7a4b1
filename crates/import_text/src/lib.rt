//! Texts as other programs export them: the encodings of octets, the pieces of a file that are
//! cards, and the physical and logical lines of a piece, all by octets. And a reader that gives a
//! file in UTF-16 as UTF-8.
#![tactic(auto)]

mod charsets;
mod encodings;
mod filling;
mod iso_tables;
pub mod laws;
mod line_head;
mod lines;
mod mac_tables;
mod octets;
mod pieces;
mod quoted_printable;
mod raw_line;
mod reader;
mod utf16;
mod utf16_parts;
mod utf16_reader;
mod windows_tables;
mod words;

pub use charsets::{Charset, charset_named, read_charset};
pub use encodings::{is_guessed, read_text, read_windows1252};
pub use filling::{fill, joined};
pub use line_head::is_encoded_as;
pub use lines::{Folding, read_raw_lines};
pub use pieces::{count_lines, is_card, split_piece, split_text};
pub use quoted_printable::read_quoted_printable;
pub use raw_line::RawLine;
pub use reader::TextReader;
pub use utf16::read_utf16;
pub use words::{begins_with_word, is_word_line};
