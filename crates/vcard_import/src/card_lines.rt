//! The lines of a card, one for each logical line.
ghost use Rattle.std.specs.Prelude.{◌≡◌, ◌∷◌, ◌++◌, [], true, false, IfOk, OnOk, Some};
ghost use Rattle.std.specs.Prelude.{◌<◌, codes, length, None};
ghost use Rattle.vcard_lines.specs.declared.line.Line.{Line};
ghost use Rattle.vcard_text.specs.Cards.{IsProperLine, has_line_named};
ghost use Rattle.vcard_changes.specs.Lines.{IsUidLine};
ghost use Rattle.vcard_property.specs.NewLines.{KeepsText};
ghost use Rattle.vcard_property.specs.SameLines.{is_same_in};
ghost use Rattle.vcard_values.specs.declared.version.Version.{Version};
ghost use Rattle.vcard_import.specs.Conversions.{IsLineOf, IsMadeOf};
ghost use Rattle.vcard_import.specs.FirstUid.{first_uid};
ghost use Rattle.vcard_import.specs.Labels.{HaveAddresses, fits, says_joined};
ghost use Rattle.vcard_import.specs.LeftOut.{has_left_out, may_go, says_left_out};
ghost use Rattle.vcard_import.specs.internal.Steps.{Makes, Extends, breaks_rule, found_uid};
ghost use Rattle.vcard_import.specs.internal.Steps.{IsSpelledAt, has_joined, has_stray_members};

use crate::delimiters::{begins_card, is_delimiter};
use crate::first_uid::{UidLine, first_uid};
use crate::joined::have_addresses;
use crate::labels::{Labelling, is_label, labels_of};
use crate::left_out::may_be_left_out;
use crate::parsed_name::{is_empty_name, name_for_empty};
use crate::rules::{Reading, Seen, breaks_rule, has_stray_members};
use import_text::{RawLine, is_word_line, read_text};
use std::alloc::Global;
use vcard_changes::{Change, ChangeKind, extension_line};
use vcard_property::{Version, are_line, convert_line, text_line, with_label};
use vcard_text::{Items, Line, NoMemory};

/// The lines and the changes so far.
#[derive(Drop)]
pub(crate) struct CardLines {
    pub(crate) lines: Items<Line>,
    pub(crate) changes: Items<Change>,
    pub(crate) seen: Seen,
}

/// The line for the octets of a logical line after the others, and what became of it. An empty FN
/// gets the name, a line that the card can't have gets X- before its own, and an address its label.
fn line_after(
    alloc: Global,
    seen: Seen,
    octets: &[u8],
    reading: Reading,
    name: &str,
    label: Option<&Labelling>,
) -> Result<(Line, ChangeKind), NoMemory>
    ensures proper { IfOk result (λ made. IsProperLine made.0) }
    ensures kind { IfOk result (λ made. fits made.1 made.0 ≡ true) }
    ensures allowed { IfOk result (λ made. breaks_rule seen reading made.0 ≡ false) }
    ensures made { IfOk result (λ made. IsLineOf reading.version octets.now made.0) }
{
    let (line, kind) = convert_line(alloc, octets, reading.version)?;
    if !name.is_empty() && is_empty_name(&line) {
        return Ok((text_line(alloc, "FN", name)?, ChangeKind::Rewritten));
    }
    if breaks_rule(seen, &line, reading) {
        return Ok((extension_line(alloc, line)?, ChangeKind::KeptAside));
    }
    if let Some(Labelling::Gets(text)) = label {
        if let Some(labelled) = with_label(alloc, &line, text.as_str())? {
            return Ok((labelled, ChangeKind::Labelled));
        }
    }
    Ok((line, kind))
}

/// The line for a logical line of a card within the card, which is the value of an AGENT.
fn nested_line(alloc: Global, octets: &[u8]) -> Result<Line, NoMemory>
    ensures proper { IfOk result IsProperLine }
    ensures name { IfOk result (λ line. line.name ≡ codes "X-AGENT") }
    ensures text { IfOk result (KeepsText (codes "X-AGENT") octets.now) }
{
    let text = read_text(alloc, octets)?;
    text_line(alloc, "X-AGENT", text.as_str())
}

/// How deep the cards are nested at a logical line, and after it.
pub(crate) fn depths(octets: &[u8], depth: u32) -> (u32, u32) {
    if begins_card(octets) {
        let depth = depth.saturating_add(1);
        return (depth, depth);
    }
    if is_word_line(octets, b"END:VCARD") {
        return (depth, depth.saturating_sub(1));
    }
    (depth, depth)
}

/// What becomes of the first logical line, and of the others.
fn split_label(labels: &[Labelling]) -> (Option<&Labelling>, &[Labelling]) {
    match labels.split_first() {
        Some((label, others)) => (Some(label), others),
        None => (None, labels),
    }
}

impl CardLines {
    fn new(alloc: Global) -> CardLines
        ensures makes { (version : Version) → Makes version [] result }
        ensures uid { found_uid result.lines ≡ None }
        ensures members { has_line_named (codes "MEMBER") result.lines ≡ false }
        ensures whole { has_left_out result.changes ≡ false }
        ensures unjoined { has_joined result.changes ≡ false }
    {
        CardLines {
            lines: Items::new(alloc),
            changes: Items::new(alloc),
            seen: Seen {
                uid: false,
                kind: false,
            },
        }
    }

    /// Appends the line that a logical line becomes, and its change if it doesn't spell that line.
    fn push(
        &mut self,
        alloc: Global,
        raw: &RawLine,
        line: Line,
        kind: ChangeKind,
    ) -> Result<(), NoMemory>
        ensures extends { OnOk result ((reading : Reading) → IsProperLine line
            → fits kind line ≡ true → breaks_rule self.old.seen reading line ≡ false
            → IsMadeOf reading.version raw.now.octets line
            → Extends reading (raw.now ∷ []) self.old self.new) }
        ensures lines { OnOk result (self.new.lines ≡ self.old.lines ++ line ∷ []) }
    {
        if !are_line(alloc, raw.octets.as_slice(), &line)? {
            let place = raw.place;
            self.changes.push(Change { place, kind })?;
        }
        self.seen = self.seen.with(&line);
        self.lines.push(line)?;
        Ok(())
    }

    /// Appends only a change, for a logical line that has no line of its own.
    fn leave_out(&mut self, raw: &RawLine, kind: ChangeKind) -> Result<(), NoMemory>
        ensures { OnOk result ((reading : Reading) → may_go kind raw.now ≡ true
            → (reading.leaves_out ≡ false → says_left_out kind ≡ false)
            → (reading.joins ≡ false → says_joined kind ≡ false)
            → Extends reading (raw.now ∷ []) self.old self.new) }
    {
        let place = raw.place;
        self.changes.push(Change { place, kind })?;
        Ok(())
    }

    /// Appends what a logical line becomes. One of a card within the card is kept as a text.
    fn push_raw(
        &mut self,
        alloc: Global,
        raw: &RawLine,
        is_nested: bool,
        reading: Reading,
        name: &str,
        label: Option<&Labelling>,
    ) -> Result<(), NoMemory>
        ensures { OnOk result (Extends reading (raw.now ∷ []) self.old self.new) }
    {
        let octets = raw.octets.as_slice();
        if is_nested {
            let line = nested_line(alloc, octets)?;
            return self.push(alloc, raw, line, ChangeKind::KeptAside);
        }
        if is_delimiter(octets) {
            return Ok(());
        }
        if reading.joins && matches!(label, Some(Labelling::Joined)) && is_label(raw) {
            return self.leave_out(raw, ChangeKind::Joined);
        }
        let (line, kind) = line_after(alloc, self.seen, octets, reading, name, label)?;
        if reading.leaves_out && may_be_left_out(raw, &line) {
            return self.leave_out(raw, ChangeKind::LeftOut);
        }
        self.push(alloc, raw, line, kind)
    }

    /// Appends what the logical lines become. Takes how deep the cards are nested before these
    /// lines, and returns how deep they are after them.
    fn push_raws(
        &mut self,
        alloc: Global,
        raws: &[RawLine],
        depth: u32,
        reading: Reading,
        name: &str,
        labels: &[Labelling],
    ) -> Result<u32, NoMemory>
        ensures { OnOk result (Extends reading raws.now self.old self.new) }
    {
        let mut depth = depth;
        let mut labels = labels;
        for raw in raws {
            let (label, others) = split_label(labels);
            labels = others;
            let (at, next) = depths(raw.octets.as_slice(), depth);
            self.push_raw(alloc, raw, at > 1, reading, name, label)?;
            depth = next;
        }
        Ok(depth)
    }
}

/// The lines that the logical lines become, and the changes, if one of them is the UID of the card.
fn lines_with_uid(
    alloc: Global,
    raws: &[RawLine],
    reading: Reading,
    name: &str,
    labels: &[Labelling],
    uid: UidLine,
) -> Result<CardLines, NoMemory>
    requires within { uid.index < length raws.now }
    requires legal { IsUidLine uid.line }
    requires spelled { IsSpelledAt raws.now uid.index uid.line }
    requires same { is_same_in reading.version uid.line ≡ true }
    ensures makes { IfOk result (Makes reading.version raws.now) }
    ensures uid { IfOk result (λ made. found_uid made.lines ≡ Some uid.line) }
    ensures members { reading.keeps_members ≡ false → IfOk result (λ made.
        has_line_named (codes "MEMBER") made.lines ≡ false) }
    ensures whole { reading.leaves_out ≡ false → IfOk result (λ made.
        has_left_out made.changes ≡ false) }
    ensures unjoined { reading.joins ≡ false → IfOk result (λ made.
        has_joined made.changes ≡ false) }
{
    let others = Reading {
        version: reading.version,
        takes_uid: false,
        keeps_members: reading.keeps_members,
        leaves_out: reading.leaves_out,
        joins: reading.joins,
    };
    let UidLine { line, index } = uid;
    let mut made = CardLines::new(alloc);
    let depth = made.push_raws(alloc, &raws[..index], 0, others, name, labels)?;
    made.push(alloc, &raws[index], line, ChangeKind::Rewritten)?;
    let labels = labels.get(index + 1..).unwrap_or(&[]);
    made.push_raws(alloc, &raws[index + 1..], depth, others, name, labels)?;
    Ok(made)
}

/// The lines that the logical lines become, and the changes. If a line spells a legal UID, the
/// first such line is the UID of the card; any other UID is kept aside.
fn read_lines(
    alloc: Global,
    raws: &[RawLine],
    reading: Reading,
    keeps_members: bool,
    name: &str,
    labels: &[Labelling],
) -> Result<CardLines, NoMemory>
    ensures makes { IfOk result (Makes reading.version raws.now) }
    ensures uid { (line : Line) → first_uid reading.version raws.now ≡ Some line
        → IfOk result (λ made. found_uid made.lines ≡ Some line) }
    ensures members { keeps_members ≡ false → IfOk result (λ made.
        has_line_named (codes "MEMBER") made.lines ≡ false) }
    ensures whole { reading.leaves_out ≡ false → IfOk result (λ made.
        has_left_out made.changes ≡ false) }
    ensures unjoined { reading.joins ≡ false → IfOk result (λ made.
        has_joined made.changes ≡ false) }
{
    let reading = Reading {
        version: reading.version,
        takes_uid: true,
        keeps_members,
        leaves_out: reading.leaves_out,
        joins: reading.joins,
    };
    if let Some(uid) = first_uid(alloc, raws, reading.version)? {
        return lines_with_uid(alloc, raws, reading, name, labels, uid);
    }
    let mut made = CardLines::new(alloc);
    made.push_raws(alloc, raws, 0, reading, name, labels)?;
    Ok(made)
}

/// The lines that the logical lines of a card become, and the changes. Whether the card is a group
/// is known only when all lines are read, so one that has a MEMBER and is none is read again.
fn lines_named(
    alloc: Global,
    raws: &[RawLine],
    reading: Reading,
    name: &str,
    labels: &[Labelling],
) -> Result<CardLines, NoMemory>
    ensures makes { IfOk result (Makes reading.version raws.now) }
    ensures uid { (line : Line) → first_uid reading.version raws.now ≡ Some line
        → IfOk result (λ made. found_uid made.lines ≡ Some line) }
    ensures members { IfOk result (λ made. has_stray_members made.lines ≡ false) }
    ensures whole { reading.leaves_out ≡ false → IfOk result (λ made.
        has_left_out made.changes ≡ false) }
    ensures unjoined { reading.joins ≡ false → IfOk result (λ made.
        has_joined made.changes ≡ false) }
{
    let made = read_lines(alloc, raws, reading, true, name, labels)?;
    if !has_stray_members(made.lines.as_slice()) {
        return Ok(made);
    }
    read_lines(alloc, raws, reading, false, name, labels)
}

/// The lines that the logical lines of a card become, and the changes, where an empty FN gets a
/// name. That is known only when all lines are read, so a card that has no other FN is read again.
fn lines_with_name(
    alloc: Global,
    raws: &[RawLine],
    reading: Reading,
    labels: &[Labelling],
) -> Result<CardLines, NoMemory>
    ensures makes { IfOk result (Makes reading.version raws.now) }
    ensures uid { (line : Line) → first_uid reading.version raws.now ≡ Some line
        → IfOk result (λ made. found_uid made.lines ≡ Some line) }
    ensures members { IfOk result (λ made. has_stray_members made.lines ≡ false) }
    ensures whole { reading.leaves_out ≡ false → IfOk result (λ made.
        has_left_out made.changes ≡ false) }
    ensures unjoined { reading.joins ≡ false → IfOk result (λ made.
        has_joined made.changes ≡ false) }
{
    let made = lines_named(alloc, raws, reading, "", labels)?;
    let name = name_for_empty(alloc, made.lines.as_slice())?;
    if name.is_empty() {
        return Ok(made);
    }
    lines_named(alloc, raws, reading, name.as_str(), labels)
}

/// How the logical lines of a card are read.
fn reading_of(version: Version, leaves_out: bool, joins: bool) -> Reading
    ensures version { result.version ≡ version }
    ensures leaves_out { result.leaves_out ≡ leaves_out }
    ensures joins { result.joins ≡ joins }
{
    Reading {
        version,
        takes_uid: true,
        keeps_members: true,
        leaves_out,
        joins,
    }
}

/// The lines that the logical lines of a card become, and the changes, where labels are joined to
/// their addresses. If an address can't have its label, no label is joined.
pub(crate) fn lines_of_card(
    alloc: Global,
    raws: &[RawLine],
    version: Version,
    leaves_out: bool,
) -> Result<CardLines, NoMemory>
    ensures makes { IfOk result (Makes version raws.now) }
    ensures uid { (line : Line) → first_uid version raws.now ≡ Some line
        → IfOk result (λ made. found_uid made.lines ≡ Some line) }
    ensures members { IfOk result (λ made. has_stray_members made.lines ≡ false) }
    ensures whole { leaves_out ≡ false → IfOk result (λ made.
        has_left_out made.changes ≡ false) }
    ensures labels { IfOk result (λ made. HaveAddresses made.changes) }
{
    let labels = labels_of(alloc, raws, version)?;
    let joining = reading_of(version, leaves_out, true);
    let made = lines_with_name(alloc, raws, joining, labels.as_slice())?;
    if have_addresses(made.changes.as_slice()) {
        return Ok(made);
    }
    lines_with_name(alloc, raws, reading_of(version, leaves_out, false), &[])
}
