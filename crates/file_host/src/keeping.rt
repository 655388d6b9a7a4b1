//! Keeps the file that a restore replaces, under a new name. No contract says what a file is, so
//! nothing is proved of it but that it returns.

use crate::file_care::{copy_synced, is_there, log_of, remove_with_log};
use base_types::{Items, NoMemory, Text};
use cli_orders::Stop;
use std::alloc::Global;
use std::rt::HostRuntime;
use std::{fs, io};

/// The most names that are tried for a file that is kept.
const KEPT_NAMES_MAX: u32 = 10_000;

fn add(names: &mut Vec<Text>, name: Text) -> Result<(), NoMemory> {
    if names.push(name).is_err() {
        return Err(NoMemory);
    }
    Ok(())
}

/// Adds a copy of the name.
pub(crate) fn add_copy(alloc: Global, name: &str, names: &mut Vec<Text>) -> Result<(), Stop> {
    add(names, Text::copy_of(alloc, name)?)?;
    Ok(())
}

/// Whether a plain file is at the path, and the number of its octets; `None` if nothing is there.
pub(crate) fn look_at(rt: &HostRuntime, path: &str) -> Result<Option<(bool, u64)>, Stop> {
    match fs::metadata(rt, path) {
        Ok(found) => Ok(Some((found.is_file(), found.len()))),
        Err(error) if error.kind() == io::ErrorKind::NotFound => Ok(None),
        Err(_) => Err(Stop::Device),
    }
}

/// Whether neither the file nor its log is there.
fn is_free(rt: &HostRuntime, name: &str) -> Result<bool, NoMemory> {
    let log = log_of(rt.alloc(), name)?;
    Ok(!is_there(rt, name) && !is_there(rt, log.as_str()))
}

/// The name of this number under which the file can be kept, if neither it nor its log is there.
fn name_if_free(rt: &HostRuntime, file: &str, number: u32) -> Result<Option<String>, NoMemory> {
    let name = format!(in rt.alloc(); "{file}.before-restore-{number}")?;
    match is_free(rt, name.as_str())? {
        true => Ok(Some(name)),
        false => Ok(None),
    }
}

/// The first name under which the file can be kept.
fn free_name(rt: &HostRuntime, file: &str) -> Result<String, Stop> {
    for number in 1..KEPT_NAMES_MAX {
        if let Some(name) = name_if_free(rt, file, number)? {
            return Ok(name);
        }
    }
    Err(Stop::Device)
}

/// Keeps what is at the path under the other name, unless it is nothing or has no octets.
fn keep(rt: &HostRuntime, path: &str, kept: &str, names: &mut Vec<Text>) -> Result<(), Stop> {
    match look_at(rt, path)? {
        None | Some((_, 0)) => Ok(()),
        Some(_) => {
            copy_synced(rt, path, kept)?;
            add_copy(rt.alloc(), kept, names)
        }
    }
}

/// Keeps the file's log under the name of this one's.
fn keep_log(rt: &HostRuntime, file: &str, name: &str, names: &mut Vec<Text>) -> Result<(), Stop> {
    let log = log_of(rt.alloc(), file)?;
    let kept = log_of(rt.alloc(), name)?;
    keep(rt, log.as_str(), kept.as_str(), names)
}

/// Keeps the file and its log under this name.
fn keep_both(rt: &HostRuntime, file: &str, name: &str, names: &mut Vec<Text>) -> Result<(), Stop> {
    keep(rt, file, name, names)?;
    keep_log(rt, file, name, names)
}

/// Keeps the file and its log under this name, and returns the names that were used.
fn keep_as(rt: &HostRuntime, file: &str, name: &str) -> Result<Items<Text>, Stop> {
    let mut names = Vec::new(rt.alloc());
    keep_both(rt, file, name, &mut names)?;
    Ok(Items::from_vec(names))
}

/// Keeps the file and its log under new names, which it returns. After an error nothing is kept.
pub(crate) fn keep_old(rt: &HostRuntime, file: &str) -> Result<Items<Text>, Stop> {
    let name = free_name(rt, file)?;
    match keep_as(rt, file, name.as_str()) {
        Ok(kept) => Ok(kept),
        Err(stop) => {
            let _removed = remove_with_log(rt, name.as_str());
            Err(stop)
        }
    }
}
