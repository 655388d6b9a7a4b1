//! Creates files, and never overwrites one.
ghost use Rattle.std.specs.Prelude.{IfOk, IfSome, IsTrue, ◌≡◌};
ghost use Rattle.cli_convert.specs.MadeFiles.{IsEmpty, IsMade};
ghost use Rattle.cli_convert.specs.CreatedFiles.{IsCreated};

use crate::file_system::FileSystem;
use base_types::{NoMemory, Text};
use card_conversion::SinkFault;
use std::alloc::Global;
use std::io::ErrorKind;

/// What came of creating a file.
#[derive(Drop)]
pub(crate) enum Created<T> {
    /// The new file.
    File(T),
    /// There is a file or a folder of that name.
    Exists,
}

/// The fault for a file that can't be written.
fn unwritten(alloc: Global, path: &str) -> Result<SinkFault, NoMemory> {
    let words = Text::new(format!(in alloc; "{path} can't be written")?);
    Ok(SinkFault::Failed(words))
}

/// Creates a file, unless there is one of that name.
pub(crate) fn create_new<F: FileSystem>(
    alloc: Global,
    files: &F,
    path: &str,
) -> Result<Created<F::NewFile>, SinkFault>
    ensures { IfOk result (IsCreated (F.place files.now) (F.written files.now) path.now) }
{
    match files.create_new(path) {
        Ok(file) => Ok(Created::File(file)),
        Err(error) if error.kind() == ErrorKind::AlreadyExists => Ok(Created::Exists),
        Err(_) => Err(unwritten(alloc, path)?),
    }
}

/// Writes all octets to the end of a file that was made.
pub(crate) fn write_to<F: FileSystem>(
    alloc: Global,
    files: &F,
    file: &mut F::NewFile,
    path: &str,
    octets: &[u8],
) -> Result<(), SinkFault> {
    match files.write_all(file, octets) {
        Ok(()) => Ok(()),
        Err(_) => Err(unwritten(alloc, path)?),
    }
}

/// Writes octets to a new file. `false` if there is a file or a folder of that name.
pub(crate) fn write_new<F: FileSystem>(
    alloc: Global,
    files: &F,
    path: &str,
    octets: &[u8],
) -> Result<bool, SinkFault>
    ensures { IfOk result (λ made. IsTrue made
        → IsMade (F.place files.now) (F.written files.now) path.now octets.now) }
{
    let mut file = match create_new(alloc, files, path)? {
        Created::File(file) => file,
        Created::Exists => return Ok(false),
    };
    match files.write_all(&mut file, octets) {
        Ok(()) => Ok(true),
        Err(_) => {
            // No part of it stays, if the system lets it be removed.
            let _removed = files.remove_new(path, file);
            Err(unwritten(alloc, path)?)
        }
    }
}
