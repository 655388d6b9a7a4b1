//! Writes a card to a sink, unless an earlier one has its UID.
ghost use Rattle.std.specs.Prelude.{ℕ, List, IfOk};
ghost use Rattle.card_conversion.specs.Deliveries.{ComesTo, HasUids};
ghost use Rattle.card_conversion.specs.internal.States.{IsAdmitted};

use crate::card_sink::{CardSink, Delivery};
use base_types::{NoMemory, Text, TextMap};
use convert_report::ConversionFault;
use std::alloc::Global;
use vcard_text::Card;

/// What became of a card that was converted.
#[derive(Drop)]
pub enum Outcome {
    /// It has the UID of an earlier card that came to the sink.
    Repeated,
    /// The sink can't take it, for a reason in words.
    Declined(Text),
    /// It was written.
    Written,
}

/// Remembers a UID. `false` if it was known.
fn is_new(alloc: Global, uids: &mut TextMap<()>, uid: &str) -> Result<bool, NoMemory>
    ensures { (known : List (List ℕ)) → HasUids uids.old known
        → IfOk result (IsAdmitted known uid.now uids.new) }
{
    if uids.get(uid).is_some() {
        return Ok(false);
    }
    uids.insert(String::from_str(alloc, uid)?, ())?;
    Ok(true)
}

/// Writes a card to the sink, unless its UID is one of those that came to the sink before, and
/// remembers the UID. `number` counts the cards of the file, from 1. An `Err` is `Output` or
/// `Memory`.
pub fn deliver<O: CardSink>(
    alloc: Global,
    uids: &mut TextMap<()>,
    number: u64,
    card: &Card,
    sink: &mut O,
) -> Result<Outcome, ConversionFault>
    ensures { (known : List (List ℕ)) → HasUids uids.old known
        → IfOk result (ComesTo O.writes known card.now uids.new sink.old sink.new) }
{
    if !is_new(alloc, uids, card.uid())? {
        return Ok(Outcome::Repeated);
    }
    match sink.put(alloc, number, card)? {
        Delivery::Written => Ok(Outcome::Written),
        Delivery::Refused(words) => Ok(Outcome::Declined(words)),
    }
}
