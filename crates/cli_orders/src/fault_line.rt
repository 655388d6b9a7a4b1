//! Searches for the faulty line of a text.
ghost use Rattle.std.specs.Prelude.{◌≡◌, ◌⊎◌, ◌<◌, ◌≤◌, ◌-◌, IfOk, length, true};
ghost use Rattle.cli_orders.specs.FaultLines.{GetsFault, IsFaultyLine, IsLineOfFault};
ghost use Rattle.cli_orders.specs.FaultLines.{has_fault, starts_line};

use crate::breaking::has_fault;
use crate::line_starts::{last_start, line_feed_count, next_start};
use base_types::NoMemory;
use std::alloc::Global;
use vcard_text::CardFault;

/// The part of a text with which it gets its fault.
#[derive(Clone, Copy)]
struct Part {
    start: usize,
    end: usize,
}

/// The start of a line within the part: the last one in the first half, or else `next`, which is
/// the second one of the part. So each second step at least halves the part.
fn middle_start(text: &[u8], part: Part, next: usize) -> usize
    requires order { (part.start < next) × (next < part.end) × (part.end ≤ length text.now) }
    requires next { starts_line text.now next ≡ true }
    ensures bounds { (part.start < result) × (result < part.end) }
    ensures start { starts_line text.now result ≡ true }
{
    let middle = last_start(text, part.start + (part.end - part.start) / 2);
    if part.start < middle { middle } else { next }
}

/// The part up to the place, or from it on: the one with which the text gets its fault.
fn half_of(
    alloc: Global,
    text: &[u8],
    fault: CardFault,
    part: Part,
    place: usize,
) -> Result<Part, NoMemory>
    requires gets { GetsFault text.now fault part.start part.end }
    requires bounds { (part.start < place) × (place < part.end) }
    requires start { starts_line text.now place ≡ true }
    ensures gets { IfOk result (λ half. GetsFault text.now fault half.start half.end) }
    ensures smaller { IfOk result (λ half. half.end - half.start < part.end - part.start) }
{
    if has_fault(alloc, &text[..place], fault)? {
        Ok(Part {
            start: part.start,
            end: place,
        })
    } else {
        Ok(Part {
            start: place,
            end: part.end,
        })
    }
}

/// The number of the line with which a text gets its fault.
fn find_line(alloc: Global, text: &[u8], fault: CardFault) -> Result<u64, NoMemory>
    requires { has_fault fault text.now }
    ensures { IfOk result (IsFaultyLine text.now fault) }
{
    let mut part = Part {
        start: 0,
        end: text.len(),
    };
    let mut next = next_start(text, part.start);
    while next < part.end {
        let place = middle_start(text, part, next);
        part = half_of(alloc, text, fault, part, place)?;
        next = next_start(text, part.start);
    }
    Ok(line_feed_count(&text[..part.start]) as u64 + 1)
}

/// The number of the line at which a text has its first fault, counted from 1. A line that is
/// continued has the number of its first physical line (RFC 6350, section 3.2).
///
/// `None` for `TooLong`, and for a fault that no line has: the text ends too early, lacks a
/// property, or is broken off in its last line, with fewer than 3 octets to the limit of 262,144.
///
/// It reads at most 40 beginnings of the text. `NoMemory` if an allocation fails.
pub(crate) fn line_of_fault(
    alloc: Global,
    text: &[u8],
    fault: CardFault,
) -> Result<Option<u64>, NoMemory>
    ensures { IfOk result (IsLineOfFault text.now fault) }
{
    if fault == CardFault::TooLong {
        return Ok(None);
    }
    if !has_fault(alloc, text, fault)? {
        return Ok(None);
    }
    Ok(Some(find_line(alloc, text, fault)?))
}
