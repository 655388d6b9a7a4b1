//! The files of the system.
use crate::file_system::FileSystem;
use std::fs::File;
use std::io::Write;
use std::rt::HostRuntime;
use std::{fs, io};

/// The files of the system, of which nothing is known.
impl FileSystem for HostRuntime {
    ghost use Rattle.std.specs.Prelude.{None};

    type Source = File;

    type NewFile = File;

    ghost octets = { λ _ _. None };

    ghost place = { λ _ _. None };

    ghost written = { λ _ _. None };

    fn open(&self, path: &str) -> io::Result<File> {
        File::open(self, path)
    }

    fn create_new(&self, path: &str) -> io::Result<File> {
        File::create_new(self, path)
    }

    fn write_all(&self, file: &mut File, octets: &[u8]) -> io::Result<()> {
        file.write_all(octets)
    }

    fn remove_new(&self, path: &str, _file: File) -> io::Result<()> {
        fs::remove_file(self, path)
    }

    fn is_file(&self, path: &str) -> bool {
        fs::metadata(self, path).is_ok_and(|found| found.is_file())
    }

    fn is_folder(&self, path: &str) -> bool {
        fs::metadata(self, path).is_ok_and(|found| found.is_dir())
    }
}
