//! The state of a session: the octets of the incomplete request at the front.
ghost use Rattle.std.specs.Prelude.{◌≡◌, ◌≢◌, ◌≤◌, ◌<◌, ◌-◌, ◌↔◌, ◌⊎◌, [], ◌++◌, length, take};
ghost use Rattle.std.specs.Prelude.{IfOk, OnErr, IsTrue};
ghost use Rattle.std.specs.Vec.{vec_capacity};
ghost use Rattle.http_requests.specs.HeadEnds.{head_state_after, EndsAtLastOctet};
ghost use Rattle.http_requests.specs.HeldRequests.{IsHeldRequestLength, held_length};
ghost use Rattle.http_requests.specs.SessionFeeding.{FeedsPieceInPart};
ghost use Rattle.http_requests.specs.SessionFeeding.{AdmitsHead, AsksAtOnce, FeedsPiece};
ghost use Rattle.http_requests.specs.ParsedHeads.{IsBoundFault};
ghost use Rattle.http_requests.specs.Requests.{longest_head};
ghost use Rattle.http_requests.specs.internal.Progress.{MatchesStage, IsPartialHead, IsClosed};
ghost use Rattle.http_requests.specs.internal.Progress.{HoldsBody, IsCompleteRequest, IsOpen};
ghost use Rattle.http_requests.specs.internal.Progress.{AwaitsBody, IsPartialBody};
ghost use Rattle.http_requests.specs.internal.Progress.{ConsumesOrFails, HoldsNoneIfClosed};
ghost use Rattle.http_requests.specs.internal.Progress.{StepsOrFails};
ghost use Rattle.http_requests.specs.internal.Progress.{open_octets};
ghost use Rattle.http_requests.specs.internal.HeadScans.{Scans};
ghost use Rattle.http_requests.specs.declared.head_state.HeadState.TheVariants.{Blank, Ended};

use crate::handler::Handler;
use crate::head::{Head, ParsedHead, read_head};
use crate::head_fault::HeadFault;
use crate::head_state::HeadState;
use base_types::NoMemory;
use httparse::Status;
use httparse::spans::{EMPTY_HEADER_SPAN, RequestSpans, parse_request};
use std::alloc::Global;
use std::mem;

/// The most octets of a head.
const HEAD_OCTETS_MAX: usize = 16_384;

/// What the held octets are.
#[derive(Debug, Drop)]
pub(crate) enum Stage {
    /// The start of a head.
    Head(HeadState),
    /// A head and part of its body. The numbers are where the body starts and ends.
    Body(usize, usize),
    /// The session is closed and ignores further octets.
    Closed,
}

/// The octets of the request at the front, and their stage.
#[derive(Debug, Drop)]
pub(crate) struct Progress {
    pub(crate) held: Vec<u8>,
    pub(crate) stage: Stage,
}

/// Scans at most `room` octets for the end of a head. Returns the number scanned and the state.
fn scan(state: HeadState, piece: &[u8], room: usize) -> (usize, HeadState)
    requires not_ended { state ≢ Ended }
    ensures { Scans state piece.now room result.0 result.1 }
{
    let mut state = state;
    let limit = piece.len().min(room);
    for i in 0..limit {
        state = state.next(piece[i]);
        if state.has_ended() {
            return (i + 1, state);
        }
    }
    (limit, state)
}

/// The fault of octets that reach the bound without the end of a head.
fn bound_fault(text: &[u8]) -> HeadFault
    requires not_ended { head_state_after Blank text.now ≢ Ended }
    ensures { IsBoundFault text.now result }
{
    let mut spans = [EMPTY_HEADER_SPAN; 64];
    match parse_request(text, &mut spans) {
        Ok(Status::Partial) => HeadFault::HeadTooLarge,
        Ok(Status::Complete(_)) => HeadFault::BadHead,
        Err(_) => HeadFault::BadHead,
    }
}

/// Appends a reply. The first one is taken as it is, since a page may be long.
fn append_reply(out: &mut Vec<u8>, reply: Vec<u8>) -> Result<(), NoMemory>
    ensures { IfOk result (λ _. out.new.items ≡ out.old.items ++ reply.items) }
{
    if out.is_empty() {
        *out = reply;
    } else {
        out.extend_from_slice(&reply)?;
    }
    Ok(())
}

/// Empties the octets of a request. Room for more than a head is given back, so that a silent
/// connection holds little, however long its last request was.
fn empty(held: &mut Vec<u8>, alloc: Global)
    ensures emptied { held.new.items ≡ [] }
    ensures room { vec_capacity held.new ≤ longest_head }
{
    if held.capacity() > HEAD_OCTETS_MAX {
        *held = Vec::new(alloc);
    } else {
        held.clear();
    }
}

impl Progress {
    pub(crate) fn new(alloc: Global) -> Progress
        ensures holds { MatchesStage result.held.items result.stage }
        ensures is_open { IsOpen result.stage }
        ensures nothing { result.held.items ≡ [] }
        ensures room { vec_capacity result.held ≤ longest_head }
    {
        Progress {
            held: Vec::new(alloc),
            stage: Stage::Head(HeadState::Blank),
        }
    }

    pub(crate) fn is_closed(&self) -> bool
        ensures { IsTrue result ↔ IsClosed self.now.stage }
    {
        matches!(&self.stage, Stage::Closed)
    }

    /// The number of octets that are held.
    pub(crate) fn held_len(&self) -> usize
        ensures { result ≡ held_length (open_octets self.now.held.items self.now.stage) }
    {
        match &self.stage {
            Stage::Head(_) => self.held.len(),
            Stage::Body(_, _) => self.held.len(),
            Stage::Closed => 0,
        }
    }

    /// The length of the request whose head is held.
    pub(crate) fn held_request_len(&self) -> usize
        requires holds { MatchesStage self.now.held.items self.now.stage }
        ensures { IsHeldRequestLength
            (open_octets self.now.held.items self.now.stage) result }
    {
        match &self.stage {
            Stage::Head(_) => 0,
            Stage::Body(_, end) => *end,
            Stage::Closed => 0,
        }
    }

    /// Appends the reply to a head with the fault.
    fn refuse<H: Handler>(
        alloc: Global,
        handler: &H,
        out: &mut Vec<u8>,
        fault: HeadFault,
    ) -> Result<(), NoMemory>
        ensures { IfOk result (λ _. out.new.items ≡ out.old.items ++ H.fault_reply fault) }
    {
        let reply = handler.refuse(alloc, fault)?;
        out.extend_from_slice(&reply)?;
        Ok(())
    }

    /// Handles the complete request that is held. Returns whether the session stays open.
    fn handle<H: Handler>(
        &mut self,
        alloc: Global,
        handler: &mut H,
        out: &mut Vec<u8>,
        head: &Head,
        start: usize,
    ) -> Result<bool, NoMemory>
        requires whole { IsCompleteRequest H.does handler.old self.old.held.items head.now start }
        requires closed { IsClosed self.old.stage }
        ensures step { StepsOrFails H.does H.fault_reply self.old.held.items handler.old
            out.old.items out.new.items handler.new self.new result }
        ensures over { IfOk result (λ _. AwaitsBody self.new.stage → ⊥) }
        ensures room { IfOk result (λ _. vec_capacity self.new.held ≤ longest_head) }
    {
        let reply = handler.handle(alloc, head, &self.held[start..])?;
        append_reply(out, reply)?;
        empty(&mut self.held, alloc);
        if head.close {
            Ok(false)
        } else {
            self.stage = Stage::Head(HeadState::Blank);
            Ok(true)
        }
    }

    /// Parses the held head once it has ended. Returns whether the session stays open.
    fn finish_head<H: Handler>(
        &mut self,
        alloc: Global,
        handler: &mut H,
        out: &mut Vec<u8>,
    ) -> Result<bool, NoMemory>
        requires ends { EndsAtLastOctet self.old.held.items }
        requires short { length self.old.held.items ≤ longest_head }
        requires closed { IsClosed self.old.stage }
        ensures step { StepsOrFails H.does H.fault_reply self.old.held.items handler.old
            out.old.items out.new.items handler.new self.new result }
        ensures asked { IfOk result (λ _. AwaitsBody self.new.stage
            → AdmitsHead H.does handler.new self.new.held.items) }
    {
        match read_head(alloc, &*handler, &self.held)? {
            ParsedHead::Good(head) => {
                let start = self.held.len();
                if head.length == 0 {
                    self.handle(alloc, handler, out, &head, start)
                } else {
                    self.stage = Stage::Body(start, start + head.length as usize);
                    Ok(true)
                }
            }
            ParsedHead::Faulty(fault) => {
                Progress::refuse(alloc, &*handler, out, fault)?;
                Ok(false)
            }
            ParsedHead::Screened(fault) => {
                Progress::refuse(alloc, &*handler, out, fault)?;
                Ok(false)
            }
            ParsedHead::Unreadable => {
                Progress::refuse(alloc, &*handler, out, HeadFault::BadHead)?;
                Ok(false)
            }
        }
    }

    /// Consumes octets of a head. Returns how many, and whether the session stays open.
    fn consume_head<H: Handler>(
        &mut self,
        alloc: Global,
        handler: &mut H,
        out: &mut Vec<u8>,
        state: HeadState,
        piece: &[u8],
    ) -> Result<(usize, bool), NoMemory>
        requires holds { IsPartialHead self.old.held.items state }
        requires closed { IsClosed self.old.stage }
        requires some { 0 < length piece.now }
        ensures used { IfOk result (λ outcome. (0 < outcome.0) × (outcome.0 ≤ length piece.now)) }
        ensures step { ConsumesOrFails H.does H.fault_reply self.old.held.items piece.now
            handler.old out.old.items out.new.items handler.new self.new result }
        ensures asked { IfOk result (λ _. AwaitsBody self.new.stage
            → AdmitsHead H.does handler.new self.new.held.items) }
    {
        let (used, state) = scan(state, piece, HEAD_OCTETS_MAX - self.held.len());
        self.held.extend_from_slice(&piece[..used])?;
        if state.has_ended() {
            let stays_open = self.finish_head(alloc, handler, out)?;
            Ok((used, stays_open))
        } else if self.held.len() < HEAD_OCTETS_MAX {
            self.stage = Stage::Head(state);
            Ok((used, true))
        } else {
            let fault = bound_fault(&self.held);
            Progress::refuse(alloc, &*handler, out, fault)?;
            Ok((used, false))
        }
    }

    /// Handles the request once its body is complete. Its head is parsed again, since the handler
    /// is asked again whether it refuses it. Returns whether the session stays open.
    fn finish_body<H: Handler>(
        &mut self,
        alloc: Global,
        handler: &mut H,
        out: &mut Vec<u8>,
        start: usize,
        end: usize,
    ) -> Result<bool, NoMemory>
        requires holds { HoldsBody self.old.held.items start end }
        requires whole { length self.old.held.items ≡ end }
        requires closed { IsClosed self.old.stage }
        ensures step { StepsOrFails H.does H.fault_reply self.old.held.items handler.old
            out.old.items out.new.items handler.new self.new result }
        ensures over { IfOk result (λ _. AwaitsBody self.new.stage → ⊥) }
    {
        match read_head(alloc, &*handler, &self.held[..start])? {
            ParsedHead::Good(head) => self.handle(alloc, handler, out, &head, start),
            ParsedHead::Screened(fault) => {
                Progress::refuse(alloc, &*handler, out, fault)?;
                Ok(false)
            }
            // The head was parsed before, and had no fault.
            ParsedHead::Faulty(_) => Ok(false),
            ParsedHead::Unreadable => Ok(false),
        }
    }

    /// Consumes octets of a body. Returns how many, and whether the session stays open.
    fn consume_body<H: Handler>(
        &mut self,
        alloc: Global,
        handler: &mut H,
        out: &mut Vec<u8>,
        start: usize,
        end: usize,
        piece: &[u8],
    ) -> Result<(usize, bool), NoMemory>
        requires holds { IsPartialBody self.old.held.items start end }
        requires closed { IsClosed self.old.stage }
        requires some { 0 < length piece.now }
        ensures used { IfOk result (λ outcome. (0 < outcome.0) × (outcome.0 ≤ length piece.now)) }
        ensures step { ConsumesOrFails H.does H.fault_reply self.old.held.items piece.now
            handler.old out.old.items out.new.items handler.new self.new result }
        ensures more { IfOk result (λ outcome. AwaitsBody self.new.stage →
            (handler.new ≡ handler.old)
            × (self.new.held.items ≡ self.old.held.items ++ take outcome.0 piece.now)) }
    {
        let used = (end - self.held.len()).min(piece.len());
        self.held.extend_from_slice(&piece[..used])?;
        if self.held.len() < end {
            self.stage = Stage::Body(start, end);
            Ok((used, true))
        } else {
            let stays_open = self.finish_body(alloc, handler, out, start, end)?;
            Ok((used, stays_open))
        }
    }

    /// Consumes some more octets. Returns how many, and whether the session stays open.
    fn advance<H: Handler>(
        &mut self,
        alloc: Global,
        handler: &mut H,
        out: &mut Vec<u8>,
        piece: &[u8],
    ) -> Result<(usize, bool), NoMemory>
        requires holds { MatchesStage self.old.held.items self.old.stage }
        requires is_open { IsOpen self.old.stage }
        requires some { 0 < length piece.now }
        ensures used { IfOk result (λ outcome. (0 < outcome.0) × (outcome.0 ≤ length piece.now)) }
        ensures step { ConsumesOrFails H.does H.fault_reply self.old.held.items piece.now
            handler.old out.old.items out.new.items handler.new self.new result }
        ensures asked { IfOk result (λ outcome. AwaitsBody self.new.stage →
            AdmitsHead H.does handler.new self.new.held.items
            ⊎ ((handler.new ≡ handler.old)
            × (self.new.held.items ≡ self.old.held.items ++ take outcome.0 piece.now)
            × AwaitsBody self.old.stage)) }
    {
        match mem::replace(&mut self.stage, Stage::Closed) {
            Stage::Head(state) => self.consume_head(alloc, handler, out, state, piece),
            Stage::Body(start, end) => { self.consume_body(alloc, handler, out, start, end, piece) }
            Stage::Closed => Ok((piece.len(), false)),
        }
    }

    /// Closes the session, and drops what it holds.
    pub(crate) fn close(&mut self, alloc: Global)
        ensures holds { MatchesStage self.new.held.items self.new.stage }
        ensures is_closed { IsClosed self.new.stage }
        ensures released { HoldsNoneIfClosed self.new.held.items self.new.stage }
        ensures room { vec_capacity self.new.held ≤ longest_head }
    {
        self.held = Vec::new(alloc);
        self.stage = Stage::Closed;
    }

    /// Drops the octets that a closed session still holds. Without octets it has room for no more
    /// than a head.
    pub(crate) fn release(&mut self, alloc: Global)
        requires holds { MatchesStage self.old.held.items self.old.stage }
        ensures holds { MatchesStage self.new.held.items self.new.stage }
        ensures same_value { open_octets self.new.held.items self.new.stage
            ≡ open_octets self.old.held.items self.old.stage }
        ensures released { HoldsNoneIfClosed self.new.held.items self.new.stage }
        ensures room { self.new.held.items ≡ [] → vec_capacity self.new.held ≤ longest_head }
    {
        if self.is_closed() || self.held.is_empty() {
            empty(&mut self.held, alloc);
        }
    }

    /// Consumes the whole piece. Returns the replies to the requests that it completes.
    pub(crate) fn feed<H: Handler>(
        &mut self,
        alloc: Global,
        handler: &mut H,
        piece: &[u8],
    ) -> Result<Vec<u8>, NoMemory>
        requires holds { MatchesStage self.old.held.items self.old.stage }
        ensures holds { MatchesStage self.new.held.items self.new.stage }
        ensures fed { IfOk result (λ replies. FeedsPiece H.does H.fault_reply
            (open_octets self.old.held.items self.old.stage) handler.old piece.now
            replies.items handler.new (open_octets self.new.held.items self.new.stage)) }
        ensures fed_in_part { OnErr result (FeedsPieceInPart H.does H.fault_reply
            (open_octets self.old.held.items self.old.stage) handler.old piece.now handler.new) }
        ensures err_closed { OnErr result (IsClosed self.new.stage) }
        ensures asks_at_once { IfOk result (λ _. AsksAtOnce H.does
            (open_octets self.old.held.items self.old.stage) piece.now handler.new
            (open_octets self.new.held.items self.new.stage)) }
    {
        let mut out = Vec::new(alloc);
        if self.is_closed() {
            return Ok(out);
        }
        let mut rest = piece;
        while !rest.is_empty() {
            let (used, stays_open) = self.advance(alloc, handler, &mut out, rest)?;
            if !stays_open {
                return Ok(out);
            }
            rest = &rest[used..];
        }
        Ok(out)
    }
}
