//! One connection, without its socket.
ghost use Rattle.std.specs.Prelude.{◌≡◌, ◌↔◌, ◌≤◌, ◌<◌, ◌+◌, [], None, drop, length};
ghost use Rattle.std.specs.Prelude.{IfOk, OnErr, IsTrue};
ghost use Rattle.std.specs.Vec.{vec_capacity};
ghost use Rattle.http_requests.specs.SessionFeeding.{FeedsPieceInPart};
ghost use Rattle.http_hub.specs.Holdings.{load_of, most_load, request_load};
ghost use Rattle.http_hub.specs.Links.{IsFirstTime, ReceivesPiece, extra_time, has_expired};
ghost use Rattle.http_hub.specs.Links.{is_long_ago, link_after_failure, link_after_refusal};
ghost use Rattle.http_hub.specs.Links.{link_after_sent, new_link, reply_length_after};
ghost use Rattle.http_hub.specs.Links.{since_after_piece, since_after_sent};

use crate::expiry::earlier;
use base_types::NoMemory;
use http_requests::{Handler, Session};
use std::alloc::Global;
use std::marker::Model;

/// The octets of a request for which it has one more second.
const OCTETS_A_SECOND: u64 = 4_096;

/// The serial number of a connection (how many were opened before it), its session, the pending
/// octets of its replies, when it was last active, since when the rest of a request is awaited, and
/// how long that request is.
#[derive(Debug, Drop)]
pub struct Link {
    serial: u64,
    session: Session,
    out: Vec<u8>,
    sent_count: usize,
    active_at: u64,
    request_since: Option<u64>,
    request_len: usize,
}

impl Model for Link {
    ghost use Rattle.std.specs.Prelude.{◌≡◌, ◌≤◌, drop, length};
    ghost use Rattle.std.specs.Vec.{vec_capacity};
    ghost use Rattle.http_hub.specs.Links.{LinkValue};

    ghost Value = { LinkValue };

    ghost view = { λ link. record {
      serial = link.serial;
      session = link.session;
      pending = drop link.sent_count link.out.items;
      reply_length = length link.out.items;
      active_at = link.active_at;
      request_since = link.request_since;
      request_length = link.request_len;
    } };

    ghost invariant = { λ link. (link.sent_count ≤ length link.out.items)
        × (link.sent_count ≡ length link.out.items → vec_capacity link.out ≡ 0) };
}

/// Since when the rest of a request is awaited, after a piece of `added` octets. The session held
/// `before` octets of a request, and now it holds `held`.
fn awaited_after_piece(
    since: Option<u64>,
    before: usize,
    added: usize,
    held: usize,
    pending: &[u8],
    now: u64,
) -> Option<u64>
    ensures { result ≡ since_after_piece since before added held pending.now now }
{
    if held == 0 || !pending.is_empty() {
        return None;
    }
    if before > 0 && held >= added && held - added == before {
        since
    } else {
        Some(now)
    }
}

/// Since when the rest of a request is awaited, after octets were sent.
fn awaited_after_sent(held: usize, pending: &[u8], now: u64) -> Option<u64>
    ensures { result ≡ since_after_sent held pending.now now }
{
    if held > 0 && pending.is_empty() {
        Some(now)
    } else {
        None
    }
}

/// The milliseconds that a request of this length may take beyond the patience.
fn extra_time(request_len: usize) -> u64
    ensures { result ≡ extra_time request_len }
{
    request_len as u64 / OCTETS_A_SECOND * 1_000
}

/// Whether that time is more than `patience` and `extra` milliseconds ago.
fn is_long_ago(time: Option<u64>, now: u64, patience: u64, extra: u64) -> bool
    ensures { result ≡ is_long_ago time now (patience + extra) }
{
    match time {
        // No sum, which might overflow.
        Some(time) => patience < now.saturating_sub(time).saturating_sub(extra),
        None => false,
    }
}

/// The first time that is more than `patience` and `extra` milliseconds after that time.
fn first_after(time: Option<u64>, patience: u64, extra: u64) -> Option<u64>
    ensures { IsFirstTime (λ now. is_long_ago time now (patience + extra)) result }
{
    match time {
        Some(time) => match time.checked_add(patience) {
            Some(time) => match time.checked_add(extra) {
                Some(time) => time.checked_add(1),
                None => None,
            },
            None => None,
        },
        None => None,
    }
}

/// Drops the octets once all of them were sent, so that a silent connection holds no reply. Returns
/// how many of the octets that are left were sent.
fn drop_if_sent(out: &mut Vec<u8>, sent_count: usize) -> usize
    requires { sent_count ≤ length out.old.items }
    ensures within { result ≤ length out.new.items }
    ensures rest { drop result out.new.items ≡ drop sent_count out.old.items }
    ensures held { length out.new.items
        ≡ reply_length_after (length out.old.items) (drop sent_count out.old.items) }
    ensures room { result ≡ length out.new.items → vec_capacity out.new ≡ 0 }
{
    if sent_count < out.len() {
        return sent_count;
    }
    let alloc = *out.allocator();
    *out = Vec::new(alloc);
    0
}

impl Link {
    /// The link of a new connection with this serial number, which was last active at the time
    /// `now`, in milliseconds. It allocates nothing.
    pub fn new(alloc: Global, serial: u64, now: u64) -> Link
        ensures { result ≡ new_link serial now }
    {
        Link {
            serial,
            session: Session::new(alloc),
            out: Vec::new(alloc),
            sent_count: 0,
            active_at: now,
            request_since: None,
            request_len: 0,
        }
    }

    /// The serial number: how many connections were opened at the hub before it.
    pub fn serial(&self) -> u64
        ensures { result ≡ self.now.serial }
    {
        self.serial
    }

    /// The octets of the replies that are not sent yet.
    pub fn pending(&self) -> &[u8]
        ensures { result.now ≡ self.now.pending }
    {
        &self.out[self.sent_count..]
    }

    /// Whether the session is closed and ignores further pieces.
    pub fn session_is_closed(&self) -> bool
        ensures { IsTrue result ↔ (self.now.session ≡ None) }
    {
        self.session.closed()
    }

    /// Whether for more than `patience` milliseconds the connection was not active, or the rest of
    /// a request has been awaited for longer than the request may take: for `patience`
    /// milliseconds, and once its head is complete one second more for each 4,096 octets of it.
    pub fn has_expired(&self, now: u64, patience: u64) -> bool
        ensures { result ≡ has_expired self.now now patience }
    {
        patience < now.saturating_sub(self.active_at)
            || is_long_ago(
                self.request_since,
                now,
                patience,
                extra_time(self.request_len),
            )
    }

    /// The first time at which the connection has expired, if nothing comes before. `None` if there
    /// is no such time below 2^64.
    pub fn expiry(&self, patience: u64) -> Option<u64>
        ensures { IsFirstTime (λ now. has_expired self.now now patience) result }
    {
        let silent = first_after(Some(self.active_at), patience, 0);
        let slow = first_after(self.request_since, patience, extra_time(self.request_len));
        earlier(silent, slow)
    }

    /// Feeds a piece to the session. Its replies are then pending. No octets may be pending before,
    /// which bounds the memory.
    ///
    /// `NoMemory` if an allocation fails: some requests, from the first on, were handled
    /// completely, their replies are lost, and the session is closed.
    pub fn receive<H: Handler>(
        &mut self,
        alloc: Global,
        handler: &mut H,
        piece: &[u8],
        now: u64,
    ) -> Result<(), NoMemory>
        requires none_pending { self.old.pending ≡ [] }
        requires some { 0 < length piece.now }
        ensures received { IfOk result (λ _. ReceivesPiece H.does H.fault_reply
            self.old handler.old piece.now now handler.new self.new) }
        ensures fed_in_part { OnErr result (FeedsPieceInPart H.does H.fault_reply
            self.old.session handler.old piece.now handler.new) }
        ensures no_memory_closes { OnErr result (self.new ≡ link_after_failure self.old) }
    {
        let before = self.session.held_len();
        let replies = self.session.feed(alloc, handler, piece)?;
        let held = self.session.held_len();
        self.request_since = awaited_after_piece(
            self.request_since,
            before,
            piece.len(),
            held,
            &replies,
            now,
        );
        self.request_len = self.session.held_request_len();
        self.out = replies;
        self.sent_count = drop_if_sent(&mut self.out, 0);
        self.active_at = now;
        Ok(())
    }

    /// The octets of its incomplete request, all of them once its head is complete.
    fn request_load(&self) -> usize
        ensures { result ≡ request_load self.now.session self.now.request_length }
    {
        if self.session.closed() {
            0
        } else if self.request_len == 0 {
            self.session.held_len()
        } else {
            self.request_len
        }
    }

    /// How many octets the connection holds: those of its incomplete request, all of them once its
    /// head is complete, and those of its replies, all of them until the last is sent.
    pub fn load(&self) -> u128
        ensures octets { result ≡ load_of self.now }
        ensures within { result ≤ most_load }
    {
        self.request_load() as u128 + self.out.len() as u128
    }

    /// Drops what the connection holds. Its session is closed, and the reply is pending; its serial
    /// number stays.
    pub fn refuse(&mut self, alloc: Global, reply: Vec<u8>, now: u64)
        ensures { self.new ≡ link_after_refusal self.old reply.items now }
    {
        self.session.close(alloc);
        self.out = reply;
        self.sent_count = drop_if_sent(&mut self.out, 0);
        self.active_at = now;
        self.request_since = None;
        self.request_len = 0;
    }

    /// Records that the first `count` pending octets were sent. Once none is pending, the memory of
    /// the replies is given back.
    pub fn mark_sent(&mut self, count: usize, now: u64)
        requires some { 0 < count }
        requires within { count ≤ length self.old.pending }
        ensures { self.new ≡ link_after_sent self.old count now }
    {
        self.sent_count = drop_if_sent(&mut self.out, self.sent_count + count);
        self.active_at = now;
        let held = self.session.held_len();
        self.request_since = awaited_after_sent(held, &self.out[self.sent_count..], now);
    }
}
