//! Reads octets in chunks.
ghost use Rattle.std.specs.Prelude.{◌<◌, IfOk, length};
ghost use Rattle.std.specs.Io.KnownBytes.{Consumes, IsAtEnd};

use convert_report::{ConversionFault, read_fault};
use import_text::fill;
use std::alloc::Global;
use std::io::Read;

/// Reads the next `size` octets, or fewer if the input ends.
pub(crate) fn read_chunk<R: Read>(
    alloc: Global,
    reader: &mut R,
    size: usize,
) -> Result<Vec<u8>, ConversionFault>
    ensures read { IfOk result (λ chunk.
        Consumes (R.remaining reader.old) (R.remaining reader.new) chunk.items) }
    ensures end { IfOk result (λ chunk. length chunk.items < size
        → IsAtEnd (R.remaining reader.new)) }
{
    let mut chunk = Vec::new(alloc);
    chunk.resize(size, 0)?;
    match fill(reader, chunk.as_mut_slice()) {
        Ok(count) => {
            chunk.truncate(count);
            Ok(chunk)
        }
        Err(error) => Err(read_fault(error)),
    }
}
