//! The life of a store: runs of the service over it, with a crash and a restart after each.
ghost use Rattle.book_service.specs.Crashes.{EndsRefused, LivesOn};
ghost use Rattle.book_service.specs.Runs.{NamesDeviceBelow};
ghost use Rattle.sync_core.specs.StoreCrashes.{RestartsFrom};
ghost use Rattle.std.specs.Prelude.{◌≡◌, All, IfErr, IfOk, length, map, take};

use crate::event::{Event, drive};
use book_commands::Reply;
use std::alloc::Global;
use sync_core::{BookStore, Device};
use vcard_text::NoMemory;

/// Opens a store again after a crash.
pub trait Restarts<S: BookStore, R> {
    /// Why a store that crashed doesn't open again.
    ghost refuses: { S → R → Type 0 };

    /// Ends the use of the store by a crash at this moment, and opens it again.
    fn restart(&mut self, store: S) -> Result<S, R>
        ensures restarts { IfOk result (RestartsFrom S.model store) }
        ensures refused { IfErr result (refuses store) };
}

/// How a life of a store ended.
pub struct Lived<S, R> {
    /// The store that was opened last, or why it didn't open.
    pub opened: Result<S, R>,

    /// The replies of each run. If a store didn't open, the last run is the one before that.
    pub replies: Vec<Vec<Reply>>,
}

/// Performs the events of each run as `drive` does; after each run comes a crash, and the store is
/// opened again. If it doesn't open, the runs that are left aren't performed. `NoMemory` if there is
/// no memory for the replies of a run.
///
/// The caller must ensure that each device index is below the number of devices.
pub fn live<S: BookStore + Drop, R, O: Restarts<S, R>>(
    alloc: Global,
    restarts: &mut O,
    store: S,
    devices: &mut Vec<Device>,
    runs: &[Vec<Event>],
) -> Result<Lived<S, R>, NoMemory>
    requires { All (λ run. All (NamesDeviceBelow (length devices.old.items)) run.items) runs.now }
    ensures limits { IfOk result (λ lived. IfOk lived.opened (λ last.
        S.model.limits last ≡ S.model.limits store)) }
    ensures count { length devices.new.items ≡ length devices.old.items }

    // All runs were one life, which led to the rows of the store that is returned, and to those
    // that a crash of it leaves: each reply that is no fault is that of a step, in its place, and a
    // command that a crash interrupted was made once or not at all.
    ensures life { IfOk result (λ lived. IfOk lived.opened (λ last. LivesOn S.model store last
        (map (λ run. run.items) runs.now) (map (λ replies. replies.items) lived.replies.items)
        devices.old.items devices.new.items)) }

    // There is no store only if one that crashed didn't open again. The runs before that were one
    // life, which led to all rows that this crash may have left.
    ensures refused { IfOk result (λ lived. IfErr lived.opened (λ cause.
        EndsRefused S.model O.refuses store cause
        (map (λ run. run.items) (take (length lived.replies.items) runs.now))
        (map (λ replies. replies.items) lived.replies.items)
        devices.old.items devices.new.items)) }
{
    let mut store = store;
    let mut replied = Vec::new(alloc);
    for events in runs {
        let replies = drive(alloc, &mut store, devices, events.as_slice())?;
        replied.push(replies)?;
        store = match restarts.restart(store) {
            Ok(opened) => opened,
            Err(cause) => {
                return Ok(Lived {
                    opened: Err(cause),
                    replies: replied,
                });
            }
        };
    }
    Ok(Lived {
        opened: Ok(store),
        replies: replied,
    })
}
