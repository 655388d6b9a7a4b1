//! Converts one logical line.
ghost use Rattle.std.specs.Prelude.{◌≡◌, ℕ, List, true, false, IfOk, IfSome, string_bytes};
ghost use Rattle.import_text.specs.Encodings.{text_of};
ghost use Rattle.vcard_lines.specs.declared.line.Line.{Line};
ghost use Rattle.vcard_text.specs.Cards.{IsProperLine};
ghost use Rattle.vcard_values.specs.Escapes.{SpellsSame, rewritten_value};
ghost use Rattle.vcard_values.specs.Forms.{value_form};
ghost use Rattle.vcard_property.specs.Kinds.{fits_kind};
ghost use Rattle.vcard_property.specs.SameLines.{AreLine, is_same_in};
ghost use Rattle.vcard_values.specs.Values.{HasValueOf, IsUriOf, is_known};
ghost use Rattle.vcard_property.specs.Contents.{is_emptied};
ghost use Rattle.vcard_property.specs.NewLines.{Becomes, HasHeadOf};
ghost use Rattle.vcard_values.specs.ValueTexts.{value_text};

use crate::content::is_emptied;
use crate::decoding::decode;
use crate::kept_line::text_line;
use crate::new_names::renamed_line;
use crate::property::{Encoding, Property, read_property};
use crate::property_line::{Draft, binary_draft, draft_of, draft_with, is_date_name, text_draft};
use crate::same_line::read_same_line;
use crate::typed_params::typed_line;
use import_text::read_text;
use std::alloc::Global;
use vcard_changes::{ChangeKind, is_proper_line};
use vcard_text::{Line, NoMemory};
use vcard_values::{
    ValueForm, Version, has_fraction, has_known_value, known_date, media_of, value_form,
    value_text, with_escapes,
};

/// What the value of a line lost.
#[derive(Clone, Copy)]
enum Loss {
    Nothing,
    /// Control characters.
    Controls,
    /// The fraction of a second.
    Fraction,
}

/// What became of a line that keeps its name.
fn kind_with(loss: Loss) -> ChangeKind
    ensures { (name : List ℕ) → fits_kind result name ≡ true }
{
    match loss {
        Loss::Nothing => ChangeKind::Rewritten,
        Loss::Controls => ChangeKind::Cleaned,
        Loss::Fraction => ChangeKind::Shortened,
    }
}

/// Whether the text has a control character that no value of vCard 4.0 may have. A line feed is
/// escaped.
fn loses_controls(text: &str) -> bool {
    text.chars()
        .any(|c| c.is_control() && c != '\t' && c != '\n')
}

/// Whether the property is a text that has one.
fn is_cleaned(property: &Property) -> bool {
    matches!(property.encoding, Encoding::Plain) && loses_controls(property.value.as_str())
}

/// What became of a line of one name that now has the other. Its value may have lost something.
fn kind_of(old: &str, new: &str, loss: Loss) -> ChangeKind
    ensures { fits_kind result new.now ≡ true }
{
    if old == new {
        kind_with(loss)
    } else if new.starts_with("X-") {
        ChangeKind::KeptAside
    } else {
        ChangeKind::Renamed
    }
}

/// The line of a draft: with the name, the group and the types of its octets, where they are clear,
/// as vCard 4.0 has them. And what became of it. `None` if it isn't proper.
fn finished_line(
    alloc: Global,
    draft: Draft,
    octets: &[u8],
    loss: Loss,
) -> Result<Option<(Line, ChangeKind)>, NoMemory>
    ensures head { IfOk result (λ made. IfSome made (HasHeadOf octets.now)) }
    ensures value { IfOk result (λ made. IfSome made (λ new.
        new.0.value ≡ draft.line.value)) }
{
    let Draft {
        line,
        types,
        is_uri,
    } = draft;
    let old = line.name.try_copy()?;
    let line = typed_line(alloc, line, octets, types)?;
    let line = renamed_line(alloc, line, octets, is_uri)?;
    if !is_proper_line(alloc, &line)? {
        return Ok(None);
    }
    let kind = kind_of(old.as_str(), line.name.as_str(), loss);
    Ok(Some((line, kind)))
}

/// The proper line that a property of these octets becomes, with this value of that form, and what
/// became of it. `None` if its line isn't proper.
fn line_with_value(
    alloc: Global,
    property: Property,
    octets: &[u8],
    value: &str,
    form: ValueForm,
) -> Result<Option<(Line, ChangeKind)>, NoMemory>
    ensures head { IfOk result (λ made. IfSome made (HasHeadOf octets.now)) }
    ensures value { IfOk result (λ made. IfSome made (λ line.
        line.0.value ≡ rewritten_value form value.now)) }
    ensures spells { IfOk result (λ made. IfSome made (λ line.
        SpellsSame form value.now line.0.value)) }
{
    let loss = if loses_controls(value) {
        Loss::Controls
    } else {
        Loss::Nothing
    };
    let value = with_escapes(alloc, value, form)?;
    let draft = text_draft(alloc, property, value)?;
    finished_line(alloc, draft, octets, loss)
}

/// The proper line that a picture, a sound or a key of these octets becomes, as a `data:` URI of
/// the media, and what became of it. `None` if its line isn't proper.
fn media_line(
    alloc: Global,
    property: Property,
    octets: &[u8],
    media: &[u8],
) -> Result<Option<(Line, ChangeKind)>, NoMemory>
    ensures head { IfOk result (λ made. IfSome made (HasHeadOf octets.now)) }
    ensures value { IfOk result (λ made. IfSome made (λ line.
        IsUriOf media.now line.0.value)) }
{
    let draft = binary_draft(alloc, property, media)?;
    finished_line(alloc, draft, octets, Loss::Nothing)
}

/// The proper line that a property of these octets becomes, with this date, and what became of it.
/// `None` if its line isn't proper.
fn date_line(
    alloc: Global,
    property: Property,
    octets: &[u8],
    date: String,
) -> Result<Option<(Line, ChangeKind)>, NoMemory>
    ensures head { IfOk result (λ made. IfSome made (HasHeadOf octets.now)) }
    ensures value { IfOk result (λ made. IfSome made (λ line.
        line.0.value ≡ string_bytes date)) }
{
    finished_line(alloc, draft_with(property, date), octets, Loss::Nothing)
}

/// The proper line that a property of these octets becomes, with its value in the form of vCard
/// 4.0, and what became of it. `None` if its line isn't proper, or has nothing of a value that had
/// something.
fn rewritten_line(
    alloc: Global,
    property: Property,
    octets: &[u8],
    version: Version,
) -> Result<Option<(Line, ChangeKind)>, NoMemory>
    ensures head { IfOk result (λ made. IfSome made (HasHeadOf octets.now)) }
    ensures content { IfOk result (λ made. IfSome made (λ line.
        is_emptied octets.now line.0 ≡ false)) }
{
    let mut property = property;
    decode(alloc, &mut property, octets)?;
    let had_fraction = is_date_name(property.name.as_str())
        && has_fraction(property.value.as_str());
    let had_control = is_cleaned(&property);
    let draft = draft_of(alloc, property, version)?;
    let loss = if had_fraction && !has_fraction(draft.line.value.as_str()) {
        Loss::Fraction
    } else if had_control {
        Loss::Controls
    } else {
        Loss::Nothing
    };
    let Some((line, kind)) = finished_line(alloc, draft, octets, loss)? else {
        return Ok(None);
    };
    if is_emptied(octets, &line) {
        return Ok(None);
    }
    Ok(Some((line, kind)))
}

/// The proper line that a property becomes whose value is known from its octets, and what became of
/// it. `None` if its line isn't proper.
fn known_line(
    alloc: Global,
    property: Property,
    text: &str,
    octets: &[u8],
    version: Version,
) -> Result<Option<(Line, ChangeKind)>, NoMemory>
    ensures head { IfOk result (λ made. IfSome made (HasHeadOf octets.now)) }
    ensures value { text.now ≡ text_of octets.now → IfOk result (λ made. IfSome made (λ line.
        line.0.value ≡ rewritten_value (value_form version octets.now) (value_text octets.now))) }
    ensures spells { text.now ≡ text_of octets.now → IfOk result (λ made. IfSome made (λ line.
        SpellsSame (value_form version octets.now) (value_text octets.now) line.0.value)) }
{
    let value = value_text(alloc, octets, text)?;
    let form = value_form(version, octets);
    line_with_value(alloc, property, octets, value.as_str(), form)
}

/// The proper line that the text of these octets becomes as a property, and what became of it. A
/// value that is known spells the same, a picture stays, and no other value is emptied. `None` if
/// the text is no property, or its line isn't such a proper line.
fn property_line(
    alloc: Global,
    text: &str,
    octets: &[u8],
    version: Version,
) -> Result<Option<(Line, ChangeKind)>, NoMemory>
    ensures head { IfOk result (λ made. IfSome made (HasHeadOf octets.now)) }
    ensures value { text.now ≡ text_of octets.now → is_known octets.now ≡ true
        → IfOk result (λ made. IfSome made (λ line. HasValueOf version octets.now line.0.value)) }
    ensures content { text.now ≡ text_of octets.now → is_known octets.now ≡ false
        → IfOk result (λ made. IfSome made (λ line. is_emptied octets.now line.0 ≡ false)) }
{
    let Some(property) = read_property(alloc, text, version)? else {
        return Ok(None);
    };
    if has_known_value(octets) {
        return known_line(alloc, property, text, octets, version);
    }
    if let Some(media) = media_of(alloc, octets)? {
        return media_line(alloc, property, octets, media.as_slice());
    }
    if let Some(date) = known_date(alloc, octets, text)? {
        return date_line(alloc, property, octets, date);
    }
    rewritten_line(alloc, property, octets, version)
}

/// Converts a logical line of a card of that version to a line of vCard 4.0, and tells what became
/// of it. A line that is no property is kept as a text in X-UNREADABLE. The only `Err` is out of
/// memory.
pub fn convert_line(
    alloc: Global,
    octets: &[u8],
    version: Version,
) -> Result<(Line, ChangeKind), NoMemory>
    // The line's name is in upper case, and its parts match the grammar.
    ensures proper { IfOk result (λ made. IsProperLine made.0) }

    // A line that was kept aside has a name that begins with X-, and one that couldn't be read is
    // named X-UNREADABLE. No line was added.
    ensures kind { IfOk result (λ made. fits_kind made.1 made.0.name ≡ true) }

    // A line that the version writes as vCard 4.0 does stays as it is.
    ensures stays { (line : Line) → AreLine octets.now line → is_same_in version line ≡ true
        → IfOk result (λ made. made.0 ≡ line) }

    // Any other line has the name, the group, the types and the value of the logical line as vCard
    // 4.0 writes them, where they are clear, and no other value is emptied; or it keeps the whole
    // text as X-UNREADABLE.
    ensures becomes { IfOk result (λ made. Becomes version octets.now made.0) }
{
    if let Some(line) = read_same_line(alloc, octets, version)? {
        return Ok((line, ChangeKind::Rewritten));
    }
    let text = read_text(alloc, octets)?;
    if let Some(made) = property_line(alloc, text.as_str(), octets, version)? {
        return Ok(made);
    }
    let line = text_line(alloc, "X-UNREADABLE", text.as_str())?;
    Ok((line, ChangeKind::Unreadable))
}
