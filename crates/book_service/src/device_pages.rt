//! A device's request for its next page.
ghost use Rattle.std.specs.Prelude.{◌≡◌};
ghost use Rattle.book_commands.specs.declared.reply.Reply.{Reply};
ghost use Rattle.book_model.specs.CallOutcomes.{IfFault};
ghost use Rattle.book_service.specs.Crashes.{LeavesAsk};
ghost use Rattle.book_service.specs.Faults.{IsOutOfMemoryOr};
ghost use Rattle.book_service.specs.DeviceReplies.{HandlesReply, device_after_refusal};
ghost use Rattle.book_service.specs.Replies.{reply_to};
ghost use Rattle.book_service.specs.Mirrors.{report_at};
ghost use Rattle.book_service.specs.Runs.{FromEachState};
ghost use Rattle.sync_core.specs.StoreModels.{KeepsBooks, KeepsTerms};

use book_laws::refinement::reports_refine_histories;
use sync_core::{BookStore, Denied, Device, Fault, Page, Refusal};

/// Clears the device's token if the refusal is of its token.
fn reset_if_token_refused(device: &mut Device, refusal: Refusal)
    ensures { device.new ≡ device_after_refusal device.old refusal }
{
    if let Refusal::BadToken(_) = refusal {
        device.restart();
    }
}

/// Requests the page after the device's token, of at most `limit` entries, and applies it.
pub(crate) fn next_page<S: BookStore>(
    store: &mut S,
    device: &mut Device,
    limit: Option<u64>,
) -> Result<Page, Denied>
    ensures terms { KeepsTerms S.model store.old store.new }
    ensures reads_only { KeepsBooks S.model store.old store.new }
    ensures fault { IfFault result (IsOutOfMemoryOr S.model.may_fault) }
    ensures handled { FromEachState S.model store.old store.new (λ now.
        HandlesReply (reply_to Reply.Page result)
        (report_at now device.old.book device.old.token limit) device.old device.new) }
    ensures crash { LeavesAsk S.model store.old store.new (reply_to Reply.Page result)
        device.old device.new }
{
    // A law, no code: the store's page is the report of its histories.
    reports_refine_histories();

    match store.report(device.book(), device.token(), limit) {
        Ok(page) => match device.apply(&page) {
            Ok(()) => Ok(page),
            Err(_) => Err(Denied::Fault(Fault::Memory)),
        },
        Err(Denied::Refused(refusal)) => {
            reset_if_token_refused(device, refusal);
            Err(Denied::Refused(refusal))
        }
        Err(Denied::Fault(fault)) => Err(Denied::Fault(fault)),
    }
}
