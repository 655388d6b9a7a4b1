//! Reads standard input.
ghost use Rattle.std.specs.Prelude.{◌≡◌, List, ℕ, IfOk, IfErr, IfSome, take};
ghost use Rattle.cli_orders.specs.Inputs.{read_octets_max};
ghost use Rattle.cli_orders.specs.TryStops.{IsTryStop};
ghost use Rattle.book_http.specs.Streams.{ReadsAtMost};

use crate::reading::read_at_most;
use crate::stop::Stop;
use std::alloc::Global;
use std::io::Read;

/// The most octets that are read: one more than a text may have, so that a text that is too long is
/// recognized.
pub const INPUT_OCTETS_MAX: usize = 262_145;

/// Reads to the end of the input, at most 262,145 octets.
///
/// `Device` if the reader fails, and `Memory` if the buffer can't be allocated.
pub fn read_input<R: Read>(alloc: Global, reader: &mut R) -> Result<Vec<u8>, Stop>
    // The result is a prefix of the input.
    ensures read { IfOk result (λ octets. IfSome (R.remaining reader.old)
        (λ input. octets.items ≡ take read_octets_max input)) }

    // No more octets are read, whatever the result.
    ensures at_most { ReadsAtMost read_octets_max
        (R.remaining reader.old) (R.remaining reader.new) }

    // A stop doesn't depend on the text.
    ensures stop { IfErr result (λ stop. (text : List ℕ) → IsTryStop text stop) }
{
    read_at_most(alloc, reader, INPUT_OCTETS_MAX)
}
