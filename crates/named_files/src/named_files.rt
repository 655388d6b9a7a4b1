//! The trait of systems of files.
ghost use Rattle.named_files.specs.Connections.{FailsToConnect, IsUnopenedError};
ghost use Rattle.named_files.specs.FileCalls.{FileLog, logged, unopened};
ghost use Rattle.named_files.specs.FileCalls.FileCall.{Connects, LooksFor, LooksInto};
ghost use Rattle.sqlite.specs.Files.{IsBlankAs, IsOpened, file_state};
ghost use Rattle.sqlite.specs.Held.{IsNew};
ghost use Rattle.sqlite.specs.Recovery.{Image};
ghost use Rattle.sqlite.specs.Start.{FindsIn};
ghost use Rattle.sqlite.specs.State.{HasCleanDisk};
ghost use Rattle.sqlite_store.specs.FileStore.{view};
ghost use Rattle.std.specs.Prelude.{◌≡◌, ℕ, List, IfErr, IfOk, IfSome, None};

use sqlite::{Connection, Error, FileStore, Leftover};
use sqlite_std_file::{FileFrom, Start};
use std::io;

/// A connection to a file, or the error, with what is left of the files if they were opened.
pub type Connected<S> = Result<Connection<FileStore<FileFrom<S>>>, Refused<S>>;

/// The error of opening a connection, and what is left of the files if they were opened.
pub type Refused<S> = (Error, Option<Leftover<FileFrom<S>>>);

/// A system of files by name.
///
/// Nothing is known of the calls of the real system. Over a system of which they are known,
/// contracts say which calls are made of it, and which file is opened. The code is the same for
/// both.
pub trait NamedFiles<S: Start> {
    /// All calls that were made so far, the newest first, each with its answer, if they are known.
    ghost log: { Self → FileLog };

    /// The octets that the file at each path holds, with the log beside it.
    ghost image: { Self → List ℕ → Image };

    /// Whether something is at the path.
    fn exists(&mut self, path: &str) -> io::Result<bool>
        ensures logged { log self.new ≡ logged (LooksFor path.now result) (log self.old) }
        ensures same { image self.new ≡ image self.old };

    /// Whether the file at the path is there, and is empty.
    fn is_empty_file(&mut self, path: &str) -> bool
        ensures logged { log self.new ≡ logged (LooksInto path.now result) (log self.old) }
        ensures same { image self.new ≡ image self.old };

    /// Opens a connection to the file at the path, and to the log beside it. Those that are missing
    /// are created. `start` represents the octets that they hold; no code can read it.
    fn connect(&mut self, path: &str, new_has_sums: bool, start: S) -> Connected<S>
        ensures logged { log self.new
            ≡ logged (Connects path.now new_has_sums (unopened result)) (log self.old) }
        ensures fresh { IfOk result IsNew }
        ensures opened { IfOk result (λ c. HasCleanDisk (file_state c) → IsOpened c) }

        // It shows what the file at this very path holds, and its log.
        ensures found { IfOk result (λ c. HasCleanDisk (file_state c)
            → FindsIn (image self.old path.now) (file_state c)) }
        ensures sums { IfOk result (λ c. HasCleanDisk (file_state c)
            → IsBlankAs new_has_sums (image self.old path.now)
            → (view c.store).has_sums ≡ new_has_sums) }
        ensures error_kind { IfErr result (λ e. e.1 ≡ None → IsUnopenedError e.0) }
        ensures cause { IfErr result (λ e. IfSome e.1
            (FailsToConnect (image self.old path.now) e.0)) };
}
