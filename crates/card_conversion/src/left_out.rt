//! Gives the pictures and sounds that a card is carried without to their sink.
ghost use Rattle.std.specs.Prelude.{IfOk};
ghost use Rattle.vcard_text.specs.Cards.{uid_of};
ghost use Rattle.vcard_values.specs.Media.{media_octets};
ghost use Rattle.card_conversion.specs.Media.{AreRefused, Puts, PutsLine, PutsLines, PutsMedia};
ghost use Rattle.card_conversion.specs.Media.{PutsOfFate};

use crate::media_sink::{MediaKind, MediaOwner, MediaSink};
use crate::moved::{LEFT_OUT_MAX, count_left_out};
use base_types::{NoMemory, Text};
use convert_report::{ConversionFault, Fate, MediaDelivery, head_of};
use import_text::RawLine;
use std::alloc::Global;
use vcard_changes::Conversion;
use vcard_import::left_out_lines;
use vcard_property::media_octets;

/// What the logical line is that is left out.
fn kind_of(line: &[u8]) -> MediaKind {
    let name = head_of(line);
    if name.eq_ignore_ascii_case(b"LOGO") {
        MediaKind::Logo
    } else if name.eq_ignore_ascii_case(b"SOUND") {
        MediaKind::Sound
    } else {
        MediaKind::Photo
    }
}

/// How many there were of each kind.
#[derive(Clone, Copy)]
struct KindCounts {
    photos: u64,
    logos: u64,
    sounds: u64,
}

impl KindCounts {
    /// Counts one more, and returns how many there are of its kind.
    fn count(&mut self, kind: MediaKind) -> u64 {
        match kind {
            MediaKind::Photo => {
                self.photos = self.photos.saturating_add(1);
                self.photos
            }
            MediaKind::Logo => {
                self.logos = self.logos.saturating_add(1);
                self.logos
            }
            MediaKind::Sound => {
                self.sounds = self.sounds.saturating_add(1);
                self.sounds
            }
        }
    }
}

/// Gives octets to the sink.
fn put_octets<P: MediaSink>(
    alloc: Global,
    owner: MediaOwner<'_>,
    octets: &[u8],
    media: &mut P,
) -> Result<MediaDelivery, ConversionFault>
    ensures { IfOk result (λ delivery.
        Puts (P.takes owner.entry.uid.now octets.now) delivery media.old media.new) }
{
    let delivery = media.put(alloc, owner, octets)?;
    Ok(delivery)
}

/// Gives what a logical line has in it to the sink.
fn put_line<P: MediaSink>(
    alloc: Global,
    owner: MediaOwner<'_>,
    line: &RawLine,
    media: &mut P,
) -> Result<MediaDelivery, ConversionFault>
    ensures { IfOk result (λ delivery. PutsLine (P.takes owner.entry.uid.now)
        (media_octets line.now.octets) delivery media.old media.new) }
{
    match media_octets(alloc, line.octets.as_slice())? {
        Some(octets) => put_octets(alloc, owner, octets.as_slice(), media),
        None => {
            let words = Text::copy_of(alloc, "its value is no base64 that can be read")?;
            Ok(MediaDelivery::Refused(words))
        }
    }
}

/// Gives what these lines of a card have in them to the sink, one after another. So the octets of
/// one are in memory at a time.
fn put_lines<P: MediaSink>(
    alloc: Global,
    number: u64,
    uid: &str,
    lines: &[RawLine],
    media: &mut P,
) -> Result<Vec<MediaDelivery>, ConversionFault>
    ensures { IfOk result (λ all.
        PutsLines (P.takes uid.now) lines.now all.items media.old media.new) }
{
    let mut all = Vec::new(alloc);
    let mut counts = KindCounts {
        photos: 0,
        logos: 0,
        sounds: 0,
    };
    for line in lines {
        let kind = kind_of(line.octets.as_slice());
        let which = counts.count(kind);
        let owner = MediaOwner {
            number,
            uid,
            kind,
            which,
        };
        let delivery = put_line(alloc, owner, line, media)?;
        all.push(delivery)?;
    }
    Ok(all)
}

/// What is told where there are more than that.
fn too_many(alloc: Global) -> Result<Vec<MediaDelivery>, NoMemory>
    ensures { IfOk result (λ all. AreRefused all.items) }
{
    let words = Text::copy_of(alloc, "the card has more than 1,000 of them")?;
    let mut all = Vec::new(alloc);
    all.push(MediaDelivery::Refused(words))?;
    Ok(all)
}

/// Gives the pictures and sounds that a card is carried without to the sink, if it is open.
/// `number` is that of the card.
fn put_of_card<P: MediaSink>(
    alloc: Global,
    number: u64,
    piece: &[u8],
    conversion: &Conversion,
    media: &mut P,
) -> Result<Vec<MediaDelivery>, ConversionFault>
    ensures { IfOk result (λ all. PutsMedia (P.takes (uid_of conversion.now.card)) piece.now
        conversion.now.changes all.items media.old media.new) }
{
    let changes = conversion.changes.as_slice();
    let count = count_left_out(changes);
    if count == 0 || !media.is_open() {
        return Ok(Vec::new(alloc));
    }
    if count > LEFT_OUT_MAX {
        return Ok(too_many(alloc)?);
    }
    let lines = left_out_lines(alloc, piece, changes)?;
    put_lines(
        alloc,
        number,
        conversion.card.uid(),
        lines.as_slice(),
        media,
    )
}

/// Gives the pictures and sounds to the sink that a card is carried without, if the fate of the
/// piece is that it was written. What became of each is in the order of the changes that call it
/// left out. It is empty if the sink isn't open, and has one entry for all if there are more than
/// 1,000. An `Err` is `Output` or `Memory`.
pub(crate) fn put_media<P: MediaSink>(
    alloc: Global,
    number: u64,
    piece: &[u8],
    fate: &Fate,
    media: &mut P,
) -> Result<Vec<MediaDelivery>, ConversionFault>
    ensures { IfOk result (λ all.
        PutsOfFate P.takes piece.now fate.now all.items media.old media.new) }
{
    match fate {
        Fate::Written(conversion) => put_of_card(alloc, number, piece, conversion, media),
        Fate::Moved(conversion) => put_of_card(alloc, number, piece, conversion, media),
        _ => Ok(Vec::new(alloc)),
    }
}
