//! Parses a request head.
ghost use Rattle.std.specs.Prelude.{◌≡◌, ◌≤◌, length, IfOk};
ghost use Rattle.http_requests.specs.ParsedHeads.{IsParsedHead};
ghost use Rattle.http_requests.specs.HandlerRuns.{screened};
ghost use Rattle.http_requests.specs.HeadEnds.{EndsAtLastOctet};
ghost use Rattle.http_requests.specs.Requests.{longest_head};

use crate::fields::{closes, length_or_fault, user_in_fields};
use crate::handler::Handler;
use crate::head_fault::HeadFault;
use base_types::{Items, NoMemory, Text};
use httparse::Status;
use httparse::spans::{EMPTY_HEADER_SPAN, RequestSpans, parse_request};
use std::alloc::Global;

/// The head of a request, as a handler sees it.
#[derive(Debug, Drop)]
pub struct Head {
    /// The method, as received.
    pub method: Text,
    /// The target, as received.
    pub target: Text,
    /// Whether the connection is closed after the reply.
    pub close: bool,
    /// The length of the body in octets, at most 8,388,608.
    pub length: u64,
    /// The value of the first X-Remote-User, by which a front server names the user. Anyone who
    /// can connect may send it.
    pub user: Items<u8>,
}

/// The result of parsing octets that end where a head ends.
#[derive(Debug, Drop)]
pub enum ParsedHead {
    /// A head without a fault.
    Good(Head),
    /// A head whose fields have a fault: `BadHost` to `BodyTooLarge`.
    Faulty(HeadFault),
    /// A head without a fault that the handler refuses.
    Screened(HeadFault),
    /// No head, or a head with more than 64 fields.
    Unreadable,
}

/// Parses a head, and asks the handler whether it refuses it. The octets are at most 16,384, and end
/// where the head ends.
///
/// `NoMemory` if an allocation fails.
pub fn read_head<H: Handler>(
    alloc: Global,
    handler: &H,
    text: &[u8],
) -> Result<ParsedHead, NoMemory>
    requires ends { EndsAtLastOctet text.now }
    requires short { length text.now ≤ longest_head }
    ensures { IfOk result (IsParsedHead (screened H.does handler.now) text.now) }
{
    let mut spans = [EMPTY_HEADER_SPAN; 64];
    match parse_request(text, &mut spans) {
        Ok(Status::Complete(parts)) => {
            let fields = &spans[..parts.headers];
            match length_or_fault(parts.version, text, fields) {
                Err(fault) => Ok(ParsedHead::Faulty(fault)),
                Ok(length) => {
                    if let Some(fault) = handler.screen(parts.method.of(text), text, fields) {
                        return Ok(ParsedHead::Screened(fault));
                    }
                    let close = closes(parts.version, text, fields);
                    let method = String::from_utf8_lossy(alloc, parts.method.of(text))?;
                    let target = String::from_utf8_lossy(alloc, parts.path.of(text))?;
                    let user = user_in_fields(text, fields).to_vec(alloc)?;
                    Ok(ParsedHead::Good(Head {
                        method: Text::new(method),
                        target: Text::new(target),
                        close,
                        length,
                        user: Items::from_vec(user),
                    }))
                }
            }
        }
        Ok(Status::Partial) => Ok(ParsedHead::Unreadable),
        Err(_) => Ok(ParsedHead::Unreadable),
    }
}
