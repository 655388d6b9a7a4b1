//! The front that answers requests for conversions.
ghost use Rattle.std.specs.Prelude.{◌≡◌};
ghost use Rattle.convert_posts.specs.ConvertRequests.{is_for_convert};

use crate::answering::convert_reply;
use base_types::NoMemory;
use http_fronts::Front;
use http_requests::Head;
use http_routes::split_target;
use std::alloc::Global;

/// The front that answers requests for conversions: those whose path is `/convert`.
#[derive(Clone, Copy)]
pub struct Converter;

/// Whether a request with this target is for a conversion.
fn is_for_convert(target: &str) -> bool
    ensures { result ≡ is_for_convert target.now }
{
    let (path, _) = split_target(target);
    path == "/convert"
}

impl Front for Converter {
    ghost use Rattle.convert_posts.specs.ConvertReplies.{conversions};

    ghost answers = { conversions };

    fn answer(&self, alloc: Global, head: &Head, body: &[u8]) -> Result<Option<Vec<u8>>, NoMemory> {
        if !is_for_convert(head.target.as_str()) {
            return Ok(None);
        }
        let reply = convert_reply(alloc, head, body)?;
        Ok(Some(reply))
    }
}
