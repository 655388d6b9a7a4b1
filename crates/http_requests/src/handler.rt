//! The trait that a server implements to handle requests.
ghost use Rattle.std.specs.Prelude.{◌≡◌, ◌⊎◌, ℕ, List, All, length, map, IfOk, OnErr};
ghost use Rattle.httparse.specs.Spans.{IsHeaderWithin, header_bytes};
ghost use Rattle.http_requests.specs.HandlerRuns.{HandlerRelation};
ghost use Rattle.http_requests.specs.declared.head_fault.HeadFault.{HeadFault};

use crate::head::Head;
use crate::head_fault::HeadFault;
use base_types::NoMemory;
use httparse::spans::HeaderSpan;
use std::alloc::Global;

/// Handles the requests of connections, and replies to malformed heads.
pub trait Handler {
    /// One step, and which heads the handler refuses.
    ghost does: { HandlerRelation Self };

    /// The whole reply to each fault of a head.
    ghost fault_reply: { HeadFault → List ℕ };

    /// Handles one request and returns the whole reply. After an `Err` the request was handled
    /// completely or not at all.
    fn handle(&mut self, alloc: Global, head: &Head, body: &[u8]) -> Result<Vec<u8>, NoMemory>
        requires length { head.now.length ≡ length body.now }
        ensures done { IfOk result (λ reply.
            does.step self.old head.now body.now reply.items self.new) }
        ensures no_memory { OnErr result ((self.old ≡ self.new)
            ⊎ ((reply : List ℕ) × does.step self.old head.now body.now reply self.new)) };

    /// Why the handler refuses a head that has no fault of its own, or `None` if it handles the
    /// request. It is asked as soon as the head is complete, and for a request with a body once
    /// more when the body is. The fields are parts of the text.
    fn screen(&self, method: &[u8], text: &[u8], fields: &[HeaderSpan]) -> Option<HeadFault>
        requires within { All (IsHeaderWithin (length text.now)) fields.now }
        ensures { result ≡ does.screens self.now method.now
            (map (header_bytes text.now) fields.now) };

    /// The whole reply to a head with the fault.
    fn refuse(&self, alloc: Global, fault: HeadFault) -> Result<Vec<u8>, NoMemory>
        ensures { IfOk result (λ reply. reply.items ≡ fault_reply fault) };
}
