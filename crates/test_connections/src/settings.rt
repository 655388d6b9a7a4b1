//! What fails in a row.

use sync_core::Fault;

/// What fails in a row.
#[derive(Clone, Copy)]
pub(crate) enum Setting {
    /// The store: it returns this fault from each call.
    Store(Fault),
    /// The reader or the writer of the first connection, at each read or write in turn.
    Devices,
    /// The input or the output of the order `try`, whose card is the first connection.
    FirstPath,
    /// Nothing: the lines of stops that no order reaches.
    Stops,
}

const SETTINGS: [(&[u8], Setting); 5] = [
    (b"store-fault", Setting::Store(Fault::Store)),
    (b"no-memory", Setting::Store(Fault::Memory)),
    (b"failing-devices", Setting::Devices),
    (b"first-path", Setting::FirstPath),
    (b"stops", Setting::Stops),
];

/// The setting that the line names.
pub(crate) fn parse_setting(line: &[u8]) -> Option<Setting> {
    for (name, setting) in SETTINGS {
        if name == line {
            return Some(setting);
        }
    }
    None
}
