//! The name of the log beside a file.
ghost use Rattle.named_files.specs.FileCalls.{log_path};
ghost use Rattle.std.specs.Prelude.{◌≡◌, IfOk, string_bytes};

use std::alloc::{AllocError, Global};

/// The path of the log beside the file at the path.
pub fn log_name(alloc: Global, path: &str) -> Result<String, AllocError>
    ensures { IfOk result (λ log. string_bytes log ≡ log_path path.now) }
{
    format!(in alloc; "{path}-wal")
}
