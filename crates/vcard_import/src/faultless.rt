//! Cards of lines that have no fault but perhaps their length.
ghost use Rattle.std.specs.Prelude.{◌≡◌, ◌≢◌, IfErr, IfOk};
ghost use Rattle.vcard_lines.specs.declared.fault.CardFault.TheVariants.{Memory, TooLong};
ghost use Rattle.vcard_text.specs.Making.{AreTooLongCardLines, upper_lines};
ghost use Rattle.vcard_import.specs.internal.Steps.{AreFaultless};

use std::alloc::Global;
use vcard_text::{Card, CardFault, Items, Line, card_of_lines};

/// The card that faultless lines make, if its canonical text isn't too long.
pub(crate) fn card_in(alloc: Global, lines: Items<Line>) -> Result<Card, CardFault>
    ensures card { AreFaultless lines → IfOk result (λ card. card ≡ lines) }
    ensures too_long { AreFaultless lines → IfErr result (λ fault. fault ≢ Memory
        → (fault ≡ TooLong) × AreTooLongCardLines (upper_lines lines)) }
{
    card_of_lines(alloc, lines.into_vec())
}
