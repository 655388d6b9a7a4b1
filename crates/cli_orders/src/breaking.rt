//! Tests whether the beginning of a text has its fault.
ghost use Rattle.std.specs.Prelude.{◌≡◌, ◌++◌, ◌↔◌, IfOk, IsTrue, Some};
ghost use Rattle.cli_orders.specs.FaultLines.{breaking_line, has_fault};
ghost use Rattle.vcard_text.specs.CardOfText.{first_fault_of_text};

use base_types::NoMemory;
use std::alloc::Global;
use vcard_text::{CardFault, read_card};

/// A line that has another fault than this one.
fn breaking_line(fault: CardFault) -> &'static [u8]
    ensures { result.now ≡ breaking_line fault }
{
    match fault {
        CardFault::BadChar => b"\n:",
        _ => b"\n\x01",
    }
}

/// The first fault of a text, if it spells no card.
fn first_fault(alloc: Global, text: &[u8]) -> Result<Option<CardFault>, NoMemory>
    ensures { IfOk result (λ fault. fault ≡ first_fault_of_text text.now) }
{
    match read_card(alloc, text) {
        Ok(_card) => Ok(None),
        Err(CardFault::Memory) => Err(NoMemory),
        Err(fault) => Ok(Some(fault)),
    }
}

/// Whether the octets have the fault, even if the text is broken off after them.
pub(crate) fn has_fault(alloc: Global, octets: &[u8], fault: CardFault) -> Result<bool, NoMemory>
    ensures { IfOk result (λ has. IsTrue has ↔ has_fault fault octets.now) }
{
    let breaking = breaking_line(fault);
    let mut text = Vec::with_capacity(alloc, octets.len().saturating_add(breaking.len()))?;
    text.extend_from_slice(octets)?;
    text.extend_from_slice(breaking)?;
    match first_fault(alloc, text.as_slice())? {
        Some(found) => Ok(found == fault),
        None => Ok(false),
    }
}
