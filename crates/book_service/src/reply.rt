//! The reply to a denied store call.
ghost use Rattle.std.specs.Prelude.{◌≡◌};
ghost use Rattle.book_service.specs.Replies.{denied_reply as reply_of_denied};

use book_commands::Reply;
use sync_core::Denied;

/// The reply to a denied store call.
pub(crate) fn denied_reply(denied: Denied) -> Reply
    ensures { result ≡ reply_of_denied denied }
{
    match denied {
        Denied::Refused(refusal) => Reply::Refused(refusal),
        Denied::Fault(fault) => Reply::Fault(fault),
    }
}
