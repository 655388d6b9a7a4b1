//! Listens at a Unix socket, which is a file.
ghost use Rattle.std.specs.Prelude.{◌≡◌, ◌↔◌, IsTrue};
ghost use Rattle.std.specs.IoError.{error_kind};
ghost use Rattle.std.specs.declared.io.ErrorKind.{ErrorKind as TheKind};

use crate::bind_fault::BindFault;
use mio::net::{UnixListener, UnixStream};
use std::fs::Permissions;
use std::io::ErrorKind;
use std::os::unix::fs::{FileTypeExt, PermissionsExt};
use std::rt::HostRuntime;
use std::{fs, io};

/// The mode of the file: its owner and its group may connect.
const SOCKET_MODE: u32 = 0o660;

/// What is at the path of a socket.
#[derive(Clone, Copy)]
enum PathUse {
    /// Nothing.
    Free,
    /// A socket at which nobody listens, as a server leaves it that was killed.
    LeftOver,
    /// A socket that somebody listens at, another file, a folder, a link, or what can't be looked
    /// at.
    Taken,
}

/// Whether the error of connecting to a socket shows that nobody listens. If the queue of one who
/// listens is full, the error is another.
fn shows_nobody(error: &io::Error) -> bool
    ensures { IsTrue result ↔ (error_kind error.now ≡ TheKind.ConnectionRefused) }
{
    error.kind() == ErrorKind::ConnectionRefused
}

/// What connecting to a socket shows.
fn use_of_socket(connected: io::Result<UnixStream>) -> PathUse {
    match connected {
        Err(error) if shows_nobody(&error) => PathUse::LeftOver,
        Ok(_) | Err(_) => PathUse::Taken,
    }
}

/// What is at the path. It follows no link. An empty path would be a socket without a name.
fn look_at(rt: &HostRuntime, path: &str) -> PathUse {
    if path.is_empty() {
        return PathUse::Taken;
    }
    match fs::symlink_metadata(rt, path) {
        Ok(metadata) if metadata.file_type().is_socket() => {
            use_of_socket(UnixStream::connect(rt, path))
        }
        Err(error) if error.kind() == ErrorKind::NotFound => PathUse::Free,
        Ok(_) | Err(_) => PathUse::Taken,
    }
}

/// Listens at a new socket at the path, of mode 0660. A socket that is left over is removed first;
/// anything else at the path stays, and is an error.
///
/// Between `bind` and `set_permissions` the mode is what the umask leaves of 0777. To connect one
/// needs the right to write, so with the usual umask, 022, it is the owner alone until then.
pub(crate) fn bind_socket(rt: &HostRuntime, path: &str) -> Result<UnixListener, BindFault> {
    match look_at(rt, path) {
        PathUse::Free => {}
        PathUse::LeftOver => fs::remove_file(rt, path)?,
        PathUse::Taken => return Err(BindFault::Device),
    }
    let listener = UnixListener::bind(rt, path)?;
    fs::set_permissions(rt, path, Permissions::from_mode(SOCKET_MODE))?;
    Ok(listener)
}
