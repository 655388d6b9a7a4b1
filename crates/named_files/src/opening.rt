//! Opens a connection to a file that is there.
ghost use Rattle.named_files.specs.Connections.{FailsToConnect, IsUnopenedError};
ghost use Rattle.named_files.specs.FileCalls.{unopened};
ghost use Rattle.named_files.specs.FileOpenings.{ConnectsFound, TellsEmpty};
ghost use Rattle.sqlite.specs.Files.{IsOpened, file_state};
ghost use Rattle.sqlite.specs.Held.{IsNew};
ghost use Rattle.sqlite.specs.Start.{FindsIn};
ghost use Rattle.sqlite.specs.State.{HasCleanDisk};
ghost use Rattle.std.specs.Prelude.{◌≡◌, IfErr, IfOk, IfSome, None};

use crate::log_names::log_name;
use crate::named_files::{Connected, NamedFiles};
use sqlite::{Error, ErrorCode};
use sqlite_std_file::Start;
use std::alloc::{AllocError, Global};

/// Opens a connection to the file at the path, if something is there, and to the log beside it,
/// which is created if it is missing. Otherwise the error is that no file can be opened.
pub fn connect_found<S: Start, F: NamedFiles<S>>(
    files: &mut F,
    path: &str,
    start: S,
) -> Connected<S>
    ensures calls { ConnectsFound path.now (unopened result) (F.log files.old) (F.log files.new) }
    ensures fresh { IfOk result IsNew }
    ensures opened { IfOk result (λ c. HasCleanDisk (file_state c) → IsOpened c) }

    // It shows what the file at this very path held, and its log.
    ensures found { IfOk result (λ c. HasCleanDisk (file_state c)
        → FindsIn (F.image files.old path.now) (file_state c)) }
    ensures error_kind { IfErr result (λ e. e.1 ≡ None → IsUnopenedError e.0) }
    ensures cause { IfErr result (λ e. IfSome e.1
        (FailsToConnect (F.image files.old path.now) e.0)) }
{
    match files.exists(path) {
        Ok(true) => files.connect(path, false, start),
        // Opening a connection would create the file.
        Ok(false) | Err(_) => Err((Error::SqliteFailure(ErrorCode::CannotOpen), None)),
    }
}

/// Whether the file at the path is empty, and nothing is at the path of its log. Opening a
/// connection would write to both. Fails if there is no memory for the path of the log.
pub fn is_empty_without_log<S: Start, F: NamedFiles<S>>(
    files: &mut F,
    alloc: Global,
    path: &str,
) -> Result<bool, AllocError>
    ensures calls { TellsEmpty path.now result (F.log files.old) (F.log files.new) }
    ensures same { F.image files.new ≡ F.image files.old }
{
    let log = log_name(alloc, path)?;
    if !files.is_empty_file(path) {
        return Ok(false);
    }
    match files.exists(log.as_str()) {
        Ok(false) => Ok(true),
        Ok(true) | Err(_) => Ok(false),
    }
}
