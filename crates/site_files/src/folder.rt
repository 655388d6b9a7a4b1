//! Reads the files of a folder.

use crate::site::{AddFault, Site};
use base_types::{Items, NoMemory, Text};
use std::alloc::{AllocError, AllocFailed, Global};
use std::fs;
use std::fs::DirEntry;
use std::io::{ErrorKind, Read};
use std::rt::HostRuntime;

/// The most folders that are read: the site's own, and those within it.
const FOLDERS_MAX: u32 = 1_000;

/// Why the files of a folder can't be served.
#[derive(Drop)]
pub enum SiteFault {
    /// What is wrong, in words: the folder or the file, and why.
    Unusable(Text),
    /// Out of memory.
    Memory,
}

impl From<AllocError> for SiteFault {
    fn from(_error: AllocError) -> SiteFault {
        SiteFault::Memory
    }
}

impl<T: Drop> From<AllocFailed<T>> for SiteFault {
    fn from(_error: AllocFailed<T>) -> SiteFault {
        SiteFault::Memory
    }
}

impl From<NoMemory> for SiteFault {
    fn from(_error: NoMemory) -> SiteFault {
        SiteFault::Memory
    }
}

/// The fault of what is at the path.
fn unusable<T>(alloc: Global, path: &str, why: &str) -> Result<T, SiteFault> {
    let words = format!(in alloc; "{path}: {why}")?;
    Err(SiteFault::Unusable(Text::new(words)))
}

/// Whether the name has only characters that a target has as they are: letters, digits, `.`, `_`
/// and `-`.
fn is_plain(name: &str) -> bool {
    name.as_bytes().iter().all(|octet| octet.is_ascii_alphanumeric()
        || matches!(*octet, b'.' | b'_' | b'-'))
}

/// The octets of the file at the path, at most `most`.
fn read_octets(rt: &HostRuntime, path: &str, most: u64) -> Result<Vec<u8>, SiteFault> {
    let alloc = rt.alloc();
    let Ok(file) = fs::open(rt, path) else {
        return unusable(alloc, path, "can't be read");
    };
    let mut front = file.take(most);
    let mut octets = Vec::new(alloc);
    match front.read_to_end(&mut octets) {
        Ok(_) => Ok(octets),
        Err(error) if error.kind() == ErrorKind::OutOfMemory => Err(SiteFault::Memory),
        Err(_) => unusable(alloc, path, "can't be read"),
    }
}

/// Adds the file with this name to the site. No more of it is read than the site has room for, and
/// one octet, by which a file that is too large is told.
fn add_file(rt: &HostRuntime, dir: &str, name: Text, site: &mut Site) -> Result<(), SiteFault> {
    let alloc = rt.alloc();
    let path = format!(in alloc; "{dir}{name}")?;
    let octets = read_octets(rt, path.as_str(), site.room() as u64 + 1)?;
    match site.add(name, Items::from_vec(octets)) {
        Ok(()) => Ok(()),
        Err(AddFault::TooLarge) => unusable(alloc, dir, "more than 16 MiB"),
        Err(AddFault::Memory) => Err(SiteFault::Memory),
    }
}

/// Adds a file to the site, or a folder to those that are to be read. What is hidden, as its name
/// begins with a dot, is passed over. Anything else is a fault: a name that a target spells in more
/// than one way, a symbolic link, a device.
fn add_entry(
    rt: &HostRuntime,
    dir: &str,
    folder: &str,
    entry: &DirEntry<HostRuntime, Global>,
    site: &mut Site,
    folders: &mut Vec<Text>,
) -> Result<(), SiteFault> {
    let alloc = rt.alloc();
    let file_name = entry.file_name();
    if file_name.as_bytes().starts_with(b".") {
        return Ok(());
    }
    let name = Text::new(format!(in alloc; "{folder}/{file_name}")?);
    let path = format!(in alloc; "{dir}{name}")?;
    if !is_plain(file_name) {
        let why = "the name has more than letters, digits, dots, underscores and hyphens";
        return unusable(alloc, path.as_str(), why);
    }
    let Ok(kind) = entry.file_type() else {
        return unusable(alloc, path.as_str(), "can't be read");
    };
    if kind.is_file() {
        add_file(rt, dir, name, site)
    } else if kind.is_dir() {
        folders.push(name)?;
        Ok(())
    } else {
        unusable(alloc, path.as_str(), "neither a file nor a folder")
    }
}

/// Adds what is in a folder.
fn add_folder(
    rt: &HostRuntime,
    dir: &str,
    folder: &str,
    site: &mut Site,
    folders: &mut Vec<Text>,
) -> Result<(), SiteFault> {
    let alloc = rt.alloc();
    let path = format!(in alloc; "{dir}{folder}")?;
    let entries = match fs::read_dir(rt, path.as_str()) {
        Ok(entries) => entries,
        Err(error) if error.kind() == ErrorKind::NotFound => {
            return unusable(alloc, path.as_str(), "no such folder");
        }
        Err(error) if error.kind() == ErrorKind::OutOfMemory => return Err(SiteFault::Memory),
        Err(_) => return unusable(alloc, path.as_str(), "can't be read as a folder"),
    };
    for entry in entries {
        let Ok(entry) = entry else {
            let why = "can't be read, or has a name that isn't UTF-8";
            return unusable(alloc, path.as_str(), why);
        };
        add_entry(rt, dir, folder, &entry, site, folders)?;
    }
    Ok(())
}

/// The files of the folder and of the folders within it, as they are now.
///
/// Hidden files and folders, whose names begin with a dot, are left out. `Unusable` if there is no
/// such folder, if it or a file can't be read, if a name has more than letters, digits, dots,
/// underscores and hyphens, if anything but a file or a folder is there, as a symbolic link, and if
/// there are more than 16,777,216 octets or 1,000 folders. `Memory` if an allocation fails.
pub fn read_site(rt: &HostRuntime, dir: &str) -> Result<Site, SiteFault> {
    let alloc = rt.alloc();
    let mut site = Site::new(alloc);
    let mut folders = Vec::new(alloc);
    folders.push(Text::copy_of(alloc, "")?)?;
    for _folder in 0..FOLDERS_MAX {
        let Some(folder) = folders.pop() else {
            return Ok(site);
        };
        add_folder(rt, dir, folder.as_str(), &mut site, &mut folders)?;
    }
    if folders.is_empty() {
        Ok(site)
    } else {
        unusable(alloc, dir, "more than 1,000 folders")
    }
}
