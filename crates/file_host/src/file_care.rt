//! What `restore` does to files beside the stores in them. No contract says what a file is, so
//! nothing is proved of it but that it returns.

use base_types::NoMemory;
use cli_orders::Stop;
use std::alloc::Global;
use std::fs::Permissions;
use std::io::ErrorKind;
use std::os::unix::fs::{MetadataExt, PermissionsExt, chown};
use std::path::Path;
use std::rt::HostRuntime;
use std::{fs, io};

/// Fails with `Device` where the system does.
pub(crate) fn on_device<T>(done: io::Result<T>) -> Result<T, Stop> {
    match done {
        Ok(value) => Ok(value),
        Err(_) => Err(Stop::Device),
    }
}

/// The name of the file's log.
pub(crate) fn log_of(alloc: Global, file: &str) -> Result<String, NoMemory> {
    Ok(format!(in alloc; "{file}-wal")?)
}

/// Whether something is at the path, or the system can't tell.
pub(crate) fn is_there(rt: &HostRuntime, path: &str) -> bool {
    fs::exists(rt, path).unwrap_or(true)
}

/// Whether a link is at the path.
fn is_link(rt: &HostRuntime, path: &str) -> bool {
    match fs::symlink_metadata(rt, path) {
        Ok(found) => found.file_type().is_symlink(),
        Err(_) => false,
    }
}

/// Where the path leads if a link is there, and else the path.
pub(crate) fn real_name(rt: &HostRuntime, path: &str) -> Result<String, NoMemory> {
    if is_link(rt, path) {
        if let Ok(real) = fs::canonicalize(rt, path) {
            return Ok(format!(in rt.alloc(); "{}", real.as_str())?);
        }
    }
    Ok(format!(in rt.alloc(); "{path}")?)
}

/// Whether both paths lead to one file.
pub(crate) fn are_same_file(rt: &HostRuntime, one: &str, other: &str) -> bool {
    match (fs::canonicalize(rt, one), fs::canonicalize(rt, other)) {
        (Ok(one), Ok(other)) => one.as_str() == other.as_str(),
        _ => false,
    }
}

// ---- removing

/// Removes the file if it is there.
pub(crate) fn remove(rt: &HostRuntime, path: &str) -> Result<(), Stop> {
    match fs::remove_file(rt, path) {
        Ok(()) => Ok(()),
        Err(error) if error.kind() == ErrorKind::NotFound => Ok(()),
        Err(_) => Err(Stop::Device),
    }
}

/// Removes the file's log if it is there.
pub(crate) fn remove_log(rt: &HostRuntime, file: &str) -> Result<(), Stop> {
    let log = log_of(rt.alloc(), file)?;
    remove(rt, log.as_str())
}

/// Removes the file and its log if they are there.
pub(crate) fn remove_with_log(rt: &HostRuntime, file: &str) -> Result<(), Stop> {
    remove(rt, file)?;
    remove_log(rt, file)
}

/// The octets of the smallest page. A store or a log with fewer holds nothing.
const PAGE_OCTETS_MIN: u64 = 512;

/// Removes the file or the log if it holds nothing.
pub(crate) fn remove_if_vacant(rt: &HostRuntime, path: &str) -> Result<(), Stop> {
    match fs::metadata(rt, path) {
        Ok(found) if found.len() < PAGE_OCTETS_MIN => remove(rt, path),
        _ => Ok(()),
    }
}

/// Removes the file or the log if it has no octets.
pub(crate) fn remove_if_empty(rt: &HostRuntime, path: &str) -> Result<(), Stop> {
    match fs::metadata(rt, path) {
        Ok(found) if found.len() == 0 => remove(rt, path),
        _ => Ok(()),
    }
}

/// The most octets that a file has while a store is created in it: those of its first page.
const NEW_OCTETS_MAX: u64 = 4_096;

/// Whether a creation that was stopped may have left the file: it has octets, and no more than a
/// page.
pub(crate) fn may_be_unfinished(rt: &HostRuntime, path: &str) -> bool {
    match fs::metadata(rt, path) {
        Ok(found) => found.is_file() && found.len() > 0 && found.len() <= NEW_OCTETS_MAX,
        Err(_) => false,
    }
}

// ---- copying

/// Gives the second file the mode of the first, and its group and owner where the system allows
/// that: only root sets the owner, and a member of the group may still set that.
pub(crate) fn take_access(rt: &HostRuntime, from: &str, to: &str) -> io::Result<()> {
    let found = fs::metadata(rt, from)?;
    let _group = chown(rt, to, None, Some(found.gid()));
    let _owner = chown(rt, to, Some(found.uid()), None);
    fs::set_permissions(rt, to, Permissions::from_mode(found.mode() & 0o777))
}

/// Copies the file to a name where none is, with its access, and waits until the disk has the copy.
fn copy_whole(rt: &HostRuntime, from: &str, to: &str) -> io::Result<()> {
    let _octets = fs::copy(rt, from, to)?;
    take_access(rt, from, to)?;
    fs::File::open(rt, to)?.sync_all()
}

/// Whether the file could be copied so.
fn is_copied(rt: &HostRuntime, from: &str, to: &str) -> bool {
    copy_whole(rt, from, to).is_ok()
}

/// Copies the file to the name `part`, and then gives the copy its own name.
fn copy_by(rt: &HostRuntime, from: &str, part: &str, to: &str) -> Result<(), Stop> {
    if !is_copied(rt, from, part) {
        let _removed = remove(rt, part);
        return Err(Stop::Device);
    }
    on_device(fs::rename(rt, part, to))
}

/// Copies the file. The copy has its name once it is whole.
pub(crate) fn copy_synced(rt: &HostRuntime, from: &str, to: &str) -> Result<(), Stop> {
    let part = format!(in rt.alloc(); "{to}.part")?;
    copy_by(rt, from, part.as_str(), to)
}

/// Waits until the disk has the names in the file's folder, as far as the system can.
pub(crate) fn sync_folder_of(rt: &HostRuntime, file: &str) {
    let folder = match Path::new(file).parent() {
        Some(folder) if !folder.as_str().is_empty() => folder.as_str(),
        _ => ".",
    };
    if let Ok(opened) = fs::File::open(rt, folder) {
        let _synced = opened.sync_all();
    }
}
