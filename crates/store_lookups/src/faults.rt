//! Converts errors to faults.
ghost use Rattle.store_lookups.specs.Faults.{IsDeniedFault, card_fault, error_fault};
ghost use Rattle.store_lookups.specs.Faults.{denied_by_fault};
ghost use Rattle.std.specs.Prelude.{◌≡◌, ◌<◌, ◌≤◌, ◌^◌, IfErr, IfOk, OnErr, OnOk, pos};

use book_model::{Denied, Fault};
use sqlite::{Error, ErrorCode};
use vcard_text::CardFault;

/// Converts an error of the database: `Memory` if it is out of memory, otherwise `Store`.
pub fn fault_of(error: Error) -> Denied
    ensures value { result ≡ denied_by_fault (error_fault error) }
    ensures fault { IsDeniedFault result }
{
    match error {
        Error::SqliteFailure(ErrorCode::OutOfMemory) => Denied::Fault(Fault::Memory),
        _ => Denied::Fault(Fault::Store),
    }
}

/// Converts the fault of reading a stored card: `Memory` if reading ran out of memory, otherwise
/// `Store`.
pub(crate) fn fault_of_card(fault: CardFault) -> Denied
    ensures value { result ≡ denied_by_fault (card_fault fault) }
    ensures fault { IsDeniedFault result }
{
    match fault {
        CardFault::Memory => Denied::Fault(Fault::Memory),
        _ => Denied::Fault(Fault::Store),
    }
}

/// Converts a number to a column value. Fails with `Store` if it is 2^63 or more, which no number
/// of a store is.
pub fn column_of(number: u64) -> Result<i64, Denied>
    ensures ok { IfOk result (λ n. n ≡ pos number) }
    ensures fits { OnOk result (number < 2 ^ 63) }
    ensures fault { IfErr result IsDeniedFault }
    ensures too_great { OnErr result (2 ^ 63 ≤ number) }
{
    match i64::try_from(number) {
        Ok(column) => Ok(column),
        Err(_) => Err(Denied::Fault(Fault::Store)),
    }
}
