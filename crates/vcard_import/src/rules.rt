//! The rules that the lines of a card keep as a whole (RFC 6350, sections 6.1.4, 6.6.5 and 6.7.6).
ghost use Rattle.std.specs.Prelude.{◌≡◌, ◌==◌, ◌||◌, ◌&&◌, not, codes, find};
ghost use Rattle.std.specs.List.{list_any};
ghost use Rattle.std.specs.Option.{option_copied};
ghost use Rattle.base_types.specs.Octets.{tab};
ghost use Rattle.vcard_text.specs.Cards.{has_line_named, line_is_named, is_uid, kind_of};
ghost use Rattle.vcard_text.specs.Cards.{kind_of_value};
ghost use Rattle.vcard_text.specs.FirstFaults.{is_group};
ghost use Rattle.vcard_import.specs.internal.Steps.{breaks_rule, has_stray_members};

use vcard_property::Version;
use vcard_text::{Line, UID_OCTETS_MAX};

/// Which of the names that a card has at most once its lines have so far. It spares a search of all
/// lines for each UID and each KIND.
#[derive(Clone, Copy)]
pub(crate) struct Seen {
    pub(crate) uid: bool,
    pub(crate) kind: bool,
}

/// How logical lines are read.
#[derive(Clone, Copy)]
pub(crate) struct Reading {
    pub(crate) version: Version,
    /// Whether one of the lines may be the UID of the card.
    pub(crate) takes_uid: bool,
    /// Whether the card may have MEMBER lines, since it is a group.
    pub(crate) keeps_members: bool,
    /// Whether pictures and sounds are left out, since the card would be too long with them.
    pub(crate) leaves_out: bool,
    /// Whether labels are joined to their addresses.
    pub(crate) joins: bool,
}

pub(crate) fn is_named(line: &Line, name: &str) -> bool
    ensures { result ≡ line_is_named name.now line.now }
{
    line.name.as_str() == name
}

pub(crate) fn has_line_named(lines: &[Line], name: &str) -> bool
    ensures { result ≡ has_line_named name.now lines.now }
{
    lines.iter().any(|line| is_named(line, name))
}

impl Seen {
    /// What the lines have with one more line.
    pub(crate) fn with(self, line: &Line) -> Seen
        ensures uid { result.uid ≡ (self.uid || line_is_named (codes "UID") line.now) }
        ensures kind { result.kind ≡ (self.kind || line_is_named (codes "KIND") line.now) }
    {
        Seen {
            uid: self.uid || is_named(line, "UID"),
            kind: self.kind || is_named(line, "KIND"),
        }
    }
}

fn has_tab(value: &str) -> bool
    ensures { result ≡ list_any (λ b. b == tab) value.now }
{
    value.as_bytes().iter().any(|octet| *octet == b'\t')
}

/// Whether the value is a legal UID (RFC 6350, section 6.7.6, and the limit of this profile).
fn is_uid(value: &str) -> bool
    ensures { result ≡ is_uid value.now }
{
    1 <= value.len() && value.len() <= UID_OCTETS_MAX && !has_tab(value)
}

/// Whether a UID may not be the card's: there is another, or it is illegal.
fn is_no_uid(seen: Seen, line: &Line, reading: Reading) -> bool
    ensures { result ≡ (seen.uid || not reading.takes_uid || not (is_uid line.now.value)) }
{
    seen.uid || !reading.takes_uid || !is_uid(line.value.as_str())
}

/// Whether the line is named as one that begins or ends a card, or gives its version.
fn is_frame(line: &Line) -> bool
    ensures { result ≡ (line_is_named (codes "BEGIN") line.now
        || line_is_named (codes "END") line.now || line_is_named (codes "VERSION") line.now) }
{
    is_named(line, "BEGIN") || is_named(line, "END") || is_named(line, "VERSION")
}

/// Whether the card can't have the line after the others: it is named as a line that begins or ends
/// a card, it is an illegal or another UID, a second KIND, or a MEMBER that isn't in a group.
pub(crate) fn breaks_rule(seen: Seen, line: &Line, reading: Reading) -> bool
    ensures { result ≡ breaks_rule seen reading line.now }
{
    is_frame(line)
        || (is_named(line, "UID") && is_no_uid(seen, line, reading))
        || (is_named(line, "KIND") && seen.kind)
        || (is_named(line, "MEMBER") && !reading.keeps_members)
}

/// The first line with the name.
fn find_line_named<'a>(lines: &'a [Line], name: &str) -> Option<&'a Line>
    ensures { option_copied result ≡ find (line_is_named name.now) lines.now }
{
    lines.iter().find(|line| is_named(*line, name))
}

/// Whether the value of KIND says that the card is a group.
fn is_group(value: &str) -> bool
    ensures { result ≡ is_group (kind_of_value value.now) }
{
    !value.eq_ignore_ascii_case("individual") && value.eq_ignore_ascii_case("group")
}

/// Whether the first KIND line says that the card is a group.
fn are_group(lines: &[Line]) -> bool
    ensures { result ≡ is_group (kind_of lines.now) }
{
    match find_line_named(lines, "KIND") {
        Some(line) => is_group(line.value.as_str()),
        None => false,
    }
}

/// Whether the lines have a MEMBER but aren't those of a group.
pub(crate) fn has_stray_members(lines: &[Line]) -> bool
    ensures { result ≡ has_stray_members lines.now }
{
    has_line_named(lines, "MEMBER") && !are_group(lines)
}
