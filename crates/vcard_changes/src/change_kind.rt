//! `ChangeKind`: what the conversion of a card did to one of its lines.

use std::fmt;

/// What was done to a line.
#[derive(Clone, Copy)]
pub enum ChangeKind {
    /// It is the same property in the form of vCard 4.0: its encoding, its escapes, its parameters
    /// or its value were rewritten.
    Rewritten,
    /// It was rewritten, and a part of the value is lost: vCard 4.0 has no fraction of a second.
    Shortened,
    /// It was rewritten, and control characters of the value became spaces, or were dropped.
    Cleaned,
    /// vCard 4.0 has the property under another name.
    Renamed,
    /// vCard 4.0 has no such property, or the card may not have it here: it is kept under a name
    /// that begins with X-.
    KeptAside,
    /// It isn't a property line. Its text is kept in a property named X-UNREADABLE.
    Unreadable,
    /// It wasn't in the card and was added.
    Added,
    /// It is a label, and became a parameter of the line of its address.
    Joined,
    /// It is left out: a photo or the like, with which the card would be too long.
    LeftOut,
    /// It is an address, and got the label that another line gives.
    Labelled,
}

impl fmt::Display for ChangeKind {
    fn fmt<W: fmt::Write>(&self, f: &mut fmt::Formatter<W>) -> fmt::Result {
        f.write_str(match self {
            ChangeKind::Rewritten => "rewritten",
            ChangeKind::Shortened => "rewritten without the fraction of a second",
            ChangeKind::Cleaned => "rewritten without control characters",
            ChangeKind::Renamed => "renamed",
            ChangeKind::KeptAside => "kept aside",
            ChangeKind::Unreadable => "unreadable",
            ChangeKind::Added => "added",
            ChangeKind::Joined => "joined to its ADR",
            ChangeKind::LeftOut => "left out",
            ChangeKind::Labelled => "given a LABEL",
        })
    }
}
