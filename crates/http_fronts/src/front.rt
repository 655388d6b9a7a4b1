//! The trait of fronts.
ghost use Rattle.std.specs.Prelude.{IfOk, option_map};
ghost use Rattle.http_fronts.specs.Fronts.{FrontRelation, Gives};

use base_types::NoMemory;
use http_requests::Head;
use std::alloc::Global;

/// Answers some requests of a server itself. Which replies it may give depends on the request
/// alone.
pub trait Front {
    /// Which requests are the front's own, and what the reply to one of them may be.
    ghost answers: { FrontRelation };

    /// The whole reply to a request of the front's own, and `None` for any other request. `NoMemory`
    /// if an allocation fails.
    fn answer(&self, alloc: Global, head: &Head, body: &[u8]) -> Result<Option<Vec<u8>>, NoMemory>
        ensures { IfOk result (λ reply.
            Gives answers head.now body.now (option_map (λ octets. octets.items) reply)) };
}
