//! What `check` says to do about a fault.
ghost use Rattle.std.specs.Prelude.{◌≡◌};
ghost use Rattle.cli_orders.specs.Hints.{cause_hint, fault_hint};

use csv_cards::CsvCause;
use vcard_text::CardFault;

/// What to do about a card's fault: a card of another version can be converted. Empty for the other
/// faults.
pub(crate) fn fault_hint(fault: CardFault) -> &'static str
    ensures { result.now ≡ fault_hint fault }
{
    match fault {
        CardFault::BadVersion => "; try contacts convert",
        _ => "",
    }
}

/// What to do about a row's fault, if it is one of the card in the row.
pub(crate) fn cause_hint(cause: CsvCause) -> &'static str
    ensures { result.now ≡ cause_hint cause }
{
    match cause {
        CsvCause::BadCard(fault) => fault_hint(fault),
        _ => "",
    }
}
