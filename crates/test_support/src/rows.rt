//! Test rows: the input of a call and its expected result.
//!
//! A line of a list is a call, its input and its expected result, separated by tabs. Empty lines
//! and lines that begin with `#` are skipped. In an input and in a result a control character is
//! written as its Unicode picture (`␊` for a line feed, `␡` for delete), `¶` is CR and LF, `⊠` is
//! the octet 255, which no UTF-8 text has, and `«3*ab»` is `ababab`.

mod fields;
mod lines;

pub use lines::check_rows;
