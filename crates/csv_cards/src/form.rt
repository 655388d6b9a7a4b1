//! `Form`: the two formats of rows.

/// What the rows of a CSV text contain.
#[derive(Clone, Copy, Debug, PartialEq, Eq)]
pub enum Form {
    /// A UID and a card's text. The header is `uid,vcard`.
    Cards,
    /// A card's parts. The header is `uid,fn,family,given,email,tel,org,note`.
    Columns,
}
