//! Lists of events.

use crate::oom::books::{FEW_CARDS, have_same_books, is_no_memory};
use crate::oom::harness::Harness;
use crate::oom::stores::{FILLING, Stores, store_filled_by};
use crate::scripts::{parse_event, replies_to_events};
use crate::supply::Supply;
use base_types::NoMemory;
use book_service::{Event, Reply};
use std::alloc::Global;
use sync_core::{BookStore, Device};

/// Devices of a book ask among commands that change it, from its creation on: for pages of one
/// entry, from an old token, and once more when nothing is due.
const EMPTY_STORE_EVENTS: &str = "create staff
report staff
card staff a FN:Ann
card staff b FN:Bob
card staff c FN:Cy
card staff a FN:Anna
remove staff b
tally staff
ask 0 1
ask 1 1
report staff http://contacts.invalid/sync/1/3/5 1
remove staff c
card staff b FN:Bob
ask 0 1
ask 1 1
ask 0 2
ask 1 1
ask 1 1
card staff d FN:Dee
remove staff d
ask 0
ask 1";

/// Two devices ask among commands of other kinds.
const FILLED_STORE_EVENTS: &str = "ask 0 2
card staff e FN:Eve
ask 1
remove staff c
ask 0 1
move staff a clients
import staff k2 uid,fn,family,given,email,tel,org,note\\nb,Bobby,,,,,,\\nm,Mo,,,,,,\\n
ask 1
report staff http://contacts.invalid/sync/1/8/8
export staff columns
get clients a";

/// A page is truncated, and the book forgets tombstones. The page's token stays valid, since its
/// base isn't below the horizon; a token with a smaller base is too old. Two devices ask meanwhile.
const FORGETTING_EVENTS: &str = "report staff - 1
ask 0 1
forget staff 5
report staff http://contacts.invalid/sync/1/3/5 1
report staff http://contacts.invalid/sync/1/4/4
forget staff 4
ask 0 1
ask 1";

/// After these asks both devices are up to date.
const LAST_ASKS: &str = "ask 0
ask 1
ask 0
ask 1";

/// Parses the events of the lines.
fn events_in(script: &str, supply: &mut Supply) -> Vec<Event> {
    let mut events = Vec::new(supply.alloc);
    for line in script.lines() {
        let event = parse_event(line, supply);
        supply.note(events.push(event));
    }
    events
}

/// A store, and two devices of its book.
#[derive(Drop)]
struct Office<S> {
    store: S,
    devices: Vec<Device>,
}

/// Two new devices.
fn new_devices(supply: &mut Supply) -> Vec<Device> {
    let mut devices = Vec::new(supply.alloc);
    for _device in 0..2u32 {
        if let Some(device) = supply.keep(Device::new(supply.alloc, "staff")) {
            supply.note(devices.push(device));
        }
    }
    devices
}

fn new_office<K: Stores>(kind: &K, filling: &str, supply: &mut Supply) -> Option<Office<K::Store>> {
    match store_filled_by(kind, filling, supply) {
        Some(store) => Some(Office {
            store,
            devices: new_devices(supply),
        }),
        None => None,
    }
}

/// The replies to events, or `NoMemory` if memory ran out before all of them.
type Replies = Result<Vec<Reply>, NoMemory>;

/// Drives the events, and returns the reply to each.
fn drive_events<S: BookStore>(alloc: Global, office: &mut Office<S>, events: &[Event]) -> Replies {
    replies_to_events(alloc, &mut office.store, &mut office.devices, events)
}

/// Drives the events in both offices, and returns whether the replies agree.
fn drive_alike<S: BookStore>(
    office: &mut Office<S>,
    twin: &mut Office<S>,
    events: &[Event],
    supply: &mut Supply,
) -> bool {
    let replies = supply.keep(drive_events(supply.alloc, office, events));
    let others = supply.keep(drive_events(supply.alloc, twin, events));
    match (replies, others) {
        (Some(replies), Some(others)) => replies.as_slice() == others.as_slice(),
        _ => false,
    }
}

/// Drives the event, and returns whether it gets this reply.
fn drives_to<S: BookStore>(
    office: &mut Office<S>,
    event: &[Event],
    reply: &Reply,
    supply: &mut Supply,
) -> bool {
    match supply.keep(drive_events(supply.alloc, office, event)) {
        Some(replies) => replies.first() == Some(reply),
        None => false,
    }
}

/// Whether memory ran out for some events, or before all of them.
fn ran_out(answer: &Replies) -> bool {
    match answer {
        Ok(replies) => replies.iter().any(is_no_memory),
        Err(NoMemory) => true,
    }
}

/// The reply to the event at the index, unless it ran out of memory.
fn reply_at(answer: &Replies, place: usize) -> Option<&Reply> {
    match answer {
        Ok(replies) => match replies.get(place) {
            Some(reply) if !is_no_memory(reply) => Some(reply),
            _ => None,
        },
        Err(NoMemory) => None,
    }
}

/// Drives in the twin office the events that didn't run out of memory in the other, and returns
/// whether the replies agree.
fn are_replied_alike<S: BookStore>(
    twin: &mut Office<S>,
    events: &[Event],
    answer: &Replies,
    supply: &mut Supply,
) -> bool {
    let mut alike = true;
    for (place, event) in events.chunks(1).enumerate() {
        if let Some(reply) = reply_at(answer, place) {
            alike = drives_to(twin, event, reply, supply) && alike;
        }
    }
    alike
}

/// Drives again, in both offices, the events that ran out of memory, and returns whether the
/// replies agree.
fn are_replied_alike_again<S: BookStore>(
    office: &mut Office<S>,
    twin: &mut Office<S>,
    events: &[Event],
    answer: &Replies,
    supply: &mut Supply,
) -> bool {
    let mut alike = true;
    for (place, event) in events.chunks(1).enumerate() {
        if reply_at(answer, place).is_none() {
            alike = drive_alike(office, twin, event, supply) && alike;
        }
    }
    alike
}

/// Makes the devices ask until they are up to date.
fn ask_last<S: BookStore>(office: &mut Office<S>, supply: &mut Supply) {
    let asks = events_in(LAST_ASKS, supply);
    let replies = drive_events(supply.alloc, office, asks.as_slice());
    drop(supply.keep(replies));
}

/// Whether both stores have the same books, and both offices' devices the same copies once they are
/// up to date.
fn are_settled_alike<S: BookStore>(
    office: &mut Office<S>,
    twin: &mut Office<S>,
    supply: &mut Supply,
) -> bool {
    ask_last(office, supply);
    ask_last(twin, supply);
    have_same_books(&mut office.store, &mut twin.store, supply) && office.devices == twin.devices
}

/// Whether there is a reply to each event, or nothing was done.
fn is_whole<S>(office: &Office<S>, twin: &Office<S>, events: &[Event], answer: &Replies) -> bool {
    match answer {
        Ok(replies) => replies.len() == events.len(),
        Err(NoMemory) => office.devices == twin.devices,
    }
}

/// Reports the outcome of the events in the office, by comparing it with its twin, which is still
/// new: events that ran out of memory had no effect, and the others the same effect as without
/// them. When the former are driven again, in both offices, their replies agree.
fn report_replies<S: BookStore>(
    harness: &mut Harness,
    office: &mut Office<S>,
    twin: &mut Office<S>,
    events: &[Event],
    answer: &Replies,
) {
    let supply = &mut harness.supply;
    let whole = is_whole(office, twin, events, answer);
    let alike = are_replied_alike(twin, events, answer, supply);
    let same = have_same_books(&mut office.store, &mut twin.store, supply);
    let left = same && alike && whole;
    let alike = are_replied_alike_again(office, twin, events, answer, supply);
    let again = are_settled_alike(office, twin, supply) && alike;
    if ran_out(answer) {
        harness.report_no_memory(left, again, answer);
    } else {
        harness.report_answer(left && again, answer);
    }
}

/// Drives the events in a new office, in a window, and compares it with its twin.
fn run_events<S: BookStore>(
    harness: &mut Harness,
    office: &mut Office<S>,
    twin: &mut Office<S>,
    events: &[Event],
    name: &str,
    over: &str,
) {
    harness.open_window_over(name, over);
    let answer = drive_events(harness.alloc(), office, events);
    harness.close_window();
    report_replies(harness, office, twin, events, &answer);
}

/// A list of events: the name of its case, the filling of its store, and the events.
type List = (&'static str, &'static str, &'static str);

/// One list over an empty store, one over a filled store, and one in which a book forgets.
const LISTS: [List; 3] = [
    ("drive, from an empty store", "", EMPTY_STORE_EVENTS),
    ("drive", FILLING, FILLED_STORE_EVENTS),
    ("drive, with forgetting", FEW_CARDS, FORGETTING_EVENTS),
];

/// Drives the events of the list over a store with its filling, and over a twin of that.
fn run_list<K: Stores>(harness: &mut Harness, kind: &K, list: List) {
    let (name, filling, events) = list;
    let events = events_in(events, &mut harness.supply);
    let office = new_office(kind, filling, &mut harness.supply);
    let twin = new_office(kind, filling, &mut harness.supply);
    if let (Some(mut office), Some(mut twin)) = (office, twin) {
        run_events(
            harness,
            &mut office,
            &mut twin,
            events.as_slice(),
            name,
            kind.over(),
        );
    }
}

/// Drives the selected lists of events.
pub fn run_drive<K: Stores>(harness: &mut Harness, kind: &K) {
    for list in LISTS {
        if harness.is_selected_over(list.0, kind.over()) {
            run_list(harness, kind, list);
        }
    }
}
