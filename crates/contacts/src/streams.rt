//! Standard input, output and error of a program that was started without one of them.
//!
//! The system gives the lowest free number to the next file or socket. If that is 1 or 2, it would
//! get what is printed. So a number that is free is taken first, by `/dev/null`: standard input
//! opened to be written and the others to be read, so that using it fails as it does on a closed
//! one, and nothing is lost in silence.

use std::fs::File;
use std::io;
use std::os::fd::{AsRawFd, IntoRawFd, RawFd};
use std::rt::HostRuntime;

/// A file that has nothing.
const NOTHING: &str = "/dev/null";

/// Keeps the file open until the program ends, if its number is at most this one.
fn hold(opened: io::Result<File>, most: RawFd) {
    if let Ok(file) = opened {
        if file.as_raw_fd() <= most {
            let _held = file.into_raw_fd();
        }
    }
}

/// Opens each of the three streams that is closed. One that can't be opened stays closed.
pub(crate) fn hold_streams(rt: &HostRuntime) {
    hold(File::options().write(true).open(rt, NOTHING), 0);
    hold(File::open(rt, NOTHING), 2);
    hold(File::open(rt, NOTHING), 2);
}
