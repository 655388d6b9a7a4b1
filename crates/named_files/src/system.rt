//! The files of the system.
use crate::named_files::{Connected, NamedFiles};
use sqlite::Connection;
use sqlite_std_file::Start;
use std::rt::HostRuntime;
use std::{fs, io};

/// The files of the system. Nothing is known of its calls, and `S` represents what the file that
/// is opened held, whichever it is.
#[derive(Drop)]
pub struct SystemFiles {
    rt: HostRuntime,
}

impl SystemFiles {
    /// The files that this handle of the system leads to.
    pub fn new(rt: &HostRuntime) -> SystemFiles {
        SystemFiles { rt: *rt }
    }
}

/// Whether it is a file, and is empty.
fn is_empty(found: &fs::Metadata) -> bool {
    found.is_file() && found.len() == 0
}

impl<S: Start> NamedFiles<S> for SystemFiles {
    ghost use Rattle.sqlite.specs.WalFiles.{image_at};
    ghost use Rattle.std.specs.Prelude.{None};

    ghost log = { λ _. None };

    ghost image = { λ _ _. image_at S.Start };

    fn exists(&mut self, path: &str) -> io::Result<bool> {
        fs::exists(&self.rt, path)
    }

    fn is_empty_file(&mut self, path: &str) -> bool {
        fs::metadata(&self.rt, path).is_ok_and(|found| is_empty(&found))
    }

    fn connect(&mut self, path: &str, new_has_sums: bool, start: S) -> Connected<S> {
        Connection::open_from(&self.rt, path, new_has_sums, start)
    }
}
