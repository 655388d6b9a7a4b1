//! Parses events from lines of words.
use crate::scripts::commands::parse_command;
use crate::supply::Supply;
use book_service::Event;

/// Parses an event: `ask DEVICE LIMIT`, where the device is an index into the list, from 0, or a
/// command.
///
/// A limit that is left out or isn't a number is `None`. A device that isn't a number is
/// `usize::MAX`, beyond all devices.
pub fn parse_event(line: &str, supply: &mut Supply) -> Event {
    let Some(words) = line.strip_prefix("ask ") else {
        return Event::Do(parse_command(line, supply));
    };
    let (device, limit) = words.split_once(' ').unwrap_or((words, ""));
    Event::Ask {
        device: device.parse::<usize>().unwrap_or(usize::MAX),
        limit: limit.parse::<u64>().ok(),
    }
}
