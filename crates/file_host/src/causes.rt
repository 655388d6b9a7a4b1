//! Looks for why a file or a port can't be used, after it couldn't be.
//!
//! What it finds may differ from what happened: another program may have closed the file since. No
//! contract says what a file or a port is, so nothing is proved of it but that it returns.

use crate::file_care::{log_of, may_be_unfinished, remove_if_empty, remove_if_vacant};
use crate::ports::loopback;
use cli_orders::FoundCause;
use sqlite::{Connection, Error, ErrorCode};
use sqlite_std_file::{OpenError, Unknown};
use std::fs::File;
use std::io::{ErrorKind, Read, Write};
use std::net::TcpListener;
use std::os::unix::fs::{FileTypeExt, MetadataExt};
use std::path::Path;
use std::rt::HostRuntime;
use std::{fs, io};

/// The most octets of a file of rows.
const ROWS_OCTETS_MAX: u64 = 8_388_608;

/// The most octets that the path of a Unix socket has, by the system.
const SOCKET_PATH_MAX: usize = 107;

/// How many times 4,096 octets are written to see whether a disk has room: those of a long import.
const ROOM_WRITES: u32 = 2_048;

/// What the error of a file or a folder says, if it isn't there for another reason than this.
fn cause_of_kind(kind: ErrorKind, denied: FoundCause) -> FoundCause {
    match kind {
        ErrorKind::PermissionDenied => denied,
        ErrorKind::ReadOnlyFilesystem => FoundCause::ReadOnly,
        ErrorKind::StorageFull | ErrorKind::QuotaExceeded => FoundCause::DiskFull,
        ErrorKind::Unsupported => FoundCause::NotPlain,
        ErrorKind::NotADirectory => FoundCause::NoFolder,
        _ => FoundCause::Nothing,
    }
}

/// Whether there is a folder for the file.
fn has_folder(rt: &HostRuntime, file: &str) -> bool {
    let folder = match Path::new(file).parent() {
        Some(folder) if !folder.as_str().is_empty() => folder,
        _ => return true,
    };
    match fs::metadata(rt, folder) {
        Ok(found) => found.is_dir(),
        Err(error) => error.kind() != ErrorKind::NotFound,
    }
}

/// Writes as many octets as a long import.
fn fill(file: &mut File) -> io::Result<()> {
    let octets = [0u8; 4_096];
    for _write in 0..ROOM_WRITES {
        file.write_all(&octets)?;
    }
    Ok(())
}

/// Makes a file beside the store file, fills it, and removes it: why that fails, or `Nothing`.
fn room_cause(rt: &HostRuntime, file: &str) -> FoundCause {
    let Ok(name) = format!(in rt.alloc(); "{file}-room") else {
        return FoundCause::Nothing;
    };
    let mut made = match File::create_new(rt, name.as_str()) {
        Ok(made) => made,
        Err(error) => return cause_of_kind(error.kind(), FoundCause::FolderDenied),
    };
    let filled = fill(&mut made);
    let _removed = fs::remove_file(rt, name.as_str());
    match filled {
        Ok(()) => FoundCause::Nothing,
        Err(error) => cause_of_kind(error.kind(), FoundCause::FolderDenied),
    }
}

/// Whether the file can be opened to be read and written.
fn is_writable(rt: &HostRuntime, file: &str) -> bool {
    File::options()
        .read(true)
        .write(true)
        .open(rt, file)
        .is_ok()
}

/// Removes the store file's log if it holds no change, and nothing by which a creation that was
/// stopped can go on.
fn remove_vacant_log(rt: &HostRuntime, file: &str) {
    if let Ok(log) = log_of(rt.alloc(), file) {
        let _removed = if may_be_unfinished(rt, file) {
            remove_if_empty(rt, log.as_str())
        } else {
            remove_if_vacant(rt, log.as_str())
        };
    }
}

/// What the error of opening the store file or its log says.
fn cause_of_opening(rt: &HostRuntime, file: &str, error: OpenError) -> FoundCause {
    match error {
        OpenError::Busy => FoundCause::Taken,
        OpenError::HotJournal => FoundCause::HasJournal,
        OpenError::OutOfMemory => FoundCause::Nothing,
        OpenError::Io(error) => {
            let denied = if is_writable(rt, file) {
                FoundCause::FolderDenied
            } else {
                FoundCause::Denied
            };
            cause_of_kind(error.kind(), denied)
        }
    }
}

/// Opens the store file and its log as the store does, and closes them: why that fails, if it does.
/// It leaves no log that it made.
fn open_once(rt: &HostRuntime, file: &str) -> Option<FoundCause> {
    match sqlite_std_file::open(rt, file, Unknown) {
        Ok(_held) => {
            remove_vacant_log(rt, file);
            None
        }
        Err(error) => Some(cause_of_opening(rt, file, error)),
    }
}

/// Whether an opening of the store file, which isn't empty, finds that its pages are damaged. It
/// leaves no log that it made.
fn has_damaged_pages(rt: &HostRuntime, file: &str) -> bool {
    let is_damaged = match Connection::open_from(rt, file, false, Unknown) {
        Err((Error::SqliteFailure(ErrorCode::DatabaseCorrupt), _left)) => true,
        _ => false,
    };
    remove_vacant_log(rt, file);
    is_damaged
}

/// Why the store file or its log can't be opened, or else whether its pages are damaged, or whether
/// there is room.
fn opening_cause(rt: &HostRuntime, file: &str, is_empty: bool) -> FoundCause {
    if let Some(cause) = open_once(rt, file) {
        cause
    } else if !is_empty && has_damaged_pages(rt, file) {
        FoundCause::Damaged
    } else {
        room_cause(rt, file)
    }
}

/// Why there is no file.
fn missing_cause(rt: &HostRuntime, file: &str, makes_file: bool) -> FoundCause {
    if !has_folder(rt, file) {
        return FoundCause::NoFolder;
    }
    if !makes_file {
        return FoundCause::Missing;
    }
    room_cause(rt, file)
}

/// Why there is no file at the path, or none that can be looked at.
fn absent_cause(rt: &HostRuntime, file: &str, makes_file: bool, kind: ErrorKind) -> FoundCause {
    if kind == ErrorKind::NotFound {
        missing_cause(rt, file, makes_file)
    } else {
        cause_of_kind(kind, FoundCause::Denied)
    }
}

/// Why a store file can't be used.
pub(crate) fn store_cause(rt: &HostRuntime, file: &str, makes_file: bool) -> FoundCause {
    let found = match fs::metadata(rt, file) {
        Ok(found) => found,
        Err(error) => return absent_cause(rt, file, makes_file, error.kind()),
    };
    if found.is_dir() {
        FoundCause::IsFolder
    } else if !found.is_file() || found.nlink() != 1 {
        FoundCause::NotPlain
    } else {
        opening_cause(rt, file, found.len() == 0)
    }
}

/// Whether the file begins as a vCard.
fn is_card(file: &mut File) -> io::Result<bool> {
    let mut first = [0u8; 11];
    file.read_exact(&mut first)?;
    Ok(first.eq_ignore_ascii_case(b"BEGIN:VCARD"))
}

/// Why a file of rows can't be read, or isn't one.
pub(crate) fn rows_cause(rt: &HostRuntime, file: &str) -> FoundCause {
    let found = match fs::metadata(rt, file) {
        Ok(found) => found,
        Err(error) if error.kind() == ErrorKind::NotFound => return FoundCause::Missing,
        Err(error) if error.kind() == ErrorKind::PermissionDenied => return FoundCause::Denied,
        Err(_) => return FoundCause::Unreadable,
    };
    if found.is_dir() {
        return FoundCause::IsFolder;
    }
    if !found.is_file() {
        // Opening a pipe would wait for its writer.
        return FoundCause::Nothing;
    }
    let mut opened = match fs::open(rt, file) {
        Ok(opened) => opened,
        Err(error) if error.kind() == ErrorKind::PermissionDenied => return FoundCause::Denied,
        Err(_) => return FoundCause::Unreadable,
    };
    if found.len() > ROWS_OCTETS_MAX {
        return FoundCause::TooLong;
    }
    match is_card(&mut opened) {
        Ok(true) => FoundCause::IsCard,
        Ok(false) => FoundCause::Nothing,
        Err(error) if error.kind() == ErrorKind::UnexpectedEof => FoundCause::Nothing,
        Err(_) => FoundCause::Unreadable,
    }
}

/// Why no endpoint can be bound to a Unix socket at the path.
pub(crate) fn socket_cause(rt: &HostRuntime, path: &str) -> FoundCause {
    if path.len() > SOCKET_PATH_MAX {
        return FoundCause::LongPath;
    }
    match fs::symlink_metadata(rt, path) {
        Ok(found) if found.file_type().is_socket() => FoundCause::SocketTaken,
        Ok(_) => FoundCause::NotSocket,
        Err(error) if error.kind() == ErrorKind::NotFound => {
            if has_folder(rt, path) {
                FoundCause::FolderDenied
            } else {
                FoundCause::NoFolder
            }
        }
        Err(error) => cause_of_kind(error.kind(), FoundCause::Denied),
    }
}

/// Why no endpoint can be bound to the port.
pub(crate) fn port_cause(rt: &HostRuntime, port: u16) -> FoundCause {
    match TcpListener::bind(rt, loopback(port)) {
        Ok(_bound) => FoundCause::Nothing,
        Err(error) => match error.kind() {
            ErrorKind::AddrInUse => FoundCause::PortTaken,
            ErrorKind::PermissionDenied => FoundCause::PortDenied,
            _ => FoundCause::Nothing,
        },
    }
}
