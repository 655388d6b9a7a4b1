//! The trait of file systems.
ghost use Rattle.std.specs.Prelude.{◌≡◌, ℕ, List, Option, IfOk, IfSome, OnOk};
ghost use Rattle.std.specs.Io.KnownBytes.{Appends};
ghost use Rattle.cli_convert.specs.MadeFiles.{IsEmpty};

use std::io;
use std::io::{Read, Write};

/// A file system, as a conversion uses it: it reads files that are there, and makes new ones.
///
/// No call changes a file that was there before: what is opened can only be read, and only what was
/// made is written to or removed. Nothing is known of the real file system. Over one of which it is
/// known what its files hold, contracts say what comes of them. The code is the same for both.
pub trait FileSystem {
    /// A file that is read from its beginning.
    type Source: Read + Drop;

    /// A file that was made.
    type NewFile: Write + Drop;

    /// The octets that the file at each path holds, if they are known.
    ghost octets: { Self → List ℕ → Option (List ℕ) };

    /// The path at which a file was made, if it is known.
    ghost place: { Self → Self.NewFile → Option (List ℕ) };

    /// The octets that were written to a file that was made, if they are known.
    ghost written: { Self → Self.NewFile → Option (List ℕ) };

    /// Opens the file at the path.
    fn open(&self, path: &str) -> io::Result<Self::Source>
        ensures { IfOk result (λ source. Self.Source.remaining source
            ≡ octets self.now path.now) };

    /// Makes a file at the path. If something is there, it stays as it is, and the error is
    /// `AlreadyExists`.
    fn create_new(&self, path: &str) -> io::Result<Self::NewFile>
        ensures place { IfOk result (λ file. IfSome (place self.now file)
            (λ made. made ≡ path.now)) }
        ensures empty { IfOk result (λ file. IsEmpty (written self.now file)) };

    /// Writes octets to the end of a file that was made.
    fn write_all(&self, file: &mut Self::NewFile, more: &[u8]) -> io::Result<()>
        ensures place { place self.now file.new ≡ place self.now file.old }
        ensures written { OnOk result (Appends (written self.now file.old)
            (written self.now file.new) more.now) };

    /// Removes a file that was made at the path.
    fn remove_new(&self, path: &str, file: Self::NewFile) -> io::Result<()>
        requires { IfSome (place self.now file) (λ made. made ≡ path.now) };

    /// Whether there is a file at the path, which can be read twice.
    fn is_file(&self, path: &str) -> bool;

    /// Whether there is a folder at the path.
    fn is_folder(&self, path: &str) -> bool;
}
