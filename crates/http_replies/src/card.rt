//! The text of a card's reply. Most requests are for a card, so it is written token by token: no
//! `Value` of the whole reply is built.
ghost use Rattle.std.specs.Prelude.{◌≡◌, IfOk, string_bytes};
ghost use Rattle.serde_json.specs.Written.{compact_text};
ghost use Rattle.vcard_text.specs.Cards.{canonical_text};
ghost use Rattle.http_replies.specs.ReplyValues.{card_value};

use json::Writer;
use std::alloc::Global;
use vcard_text::{Card, NoMemory, write_card};

/// The card's canonical text.
fn card_text(alloc: Global, card: &Card) -> Result<String, NoMemory>
    ensures { IfOk result (λ text. string_bytes text ≡ canonical_text card.now) }
{
    let text = write_card(alloc, card)?;
    Ok(String::from_utf8(text).unwrap())
}

/// `{"card":"..","uid":"a","version":1}` in octets, without white space: the card's canonical text,
/// its UID and its version.
pub(crate) fn write_card_reply(
    alloc: Global,
    uid: &str,
    version: u64,
    card: &Card,
) -> Result<Vec<u8>, NoMemory>
    ensures { IfOk result (λ octets.
        octets.items ≡ compact_text (card_value uid.now version card.now)) }
{
    let text = card_text(alloc, card)?;
    let mut out = Writer::new(Vec::new(alloc));
    out.begin_object()?;
    out.key("card")?;
    out.string(text.as_str())?;
    out.key("uid")?;
    out.string(uid)?;
    out.key("version")?;
    out.u64(version)?;
    out.end_object()?;
    Ok(out.into_inner())
}
