//! Outputs, which may hold what was written until they are flushed.
ghost use Rattle.std.specs.Prelude.{ℕ, List, OnOk, Option};
ghost use Rattle.std.specs.Io.KnownBytes.{Keeps};
ghost use Rattle.cli_orders.specs.Outputs.{IsFlushed};

use std::alloc::Global;
use std::io;
use std::io::{BufWriter, Write};
use std::rt::{Stderr, Stdout};

/// An output, which may hold what was written until it is flushed.
///
/// Nothing is known of the real streams. Over an output of which it is known what was flushed,
/// contracts say that all that was written was. The code is the same for both.
pub trait Output: Write {
    /// The octets that were flushed so far, if they are known. No clause says what a write does to
    /// them, so only a flush that comes after the last write shows that they are all.
    ghost flushed: { Self → Option (List ℕ) };

    /// Flushes all that was written.
    fn flush_all(&mut self) -> io::Result<()>
        ensures kept { Keeps (Self.contents self.old) (Self.contents self.new) }
        ensures flushed { OnOk result (IsFlushed Self.contents flushed self.new) };
}

impl Output for Stdout {
    ghost use Rattle.std.specs.Prelude.{None};

    ghost flushed = { λ _. None };

    fn flush_all(&mut self) -> io::Result<()> {
        self.flush()
    }
}

impl Output for Stderr {
    ghost use Rattle.std.specs.Prelude.{None};

    ghost flushed = { λ _. None };

    fn flush_all(&mut self) -> io::Result<()> {
        self.flush()
    }
}

/// Octets in memory, which holds none of them back.
impl Output for Vec<u8> {
    ghost use Rattle.std.specs.Prelude.{Some};

    ghost flushed = { λ octets. Some octets.items };

    fn flush_all(&mut self) -> io::Result<()> {
        self.flush()
    }
}

/// A buffer before octets in memory, which get what it holds when it is full or flushed.
impl Output for BufWriter<Vec<u8>, Global> {
    ghost use Rattle.std.specs.Prelude.{Some};

    ghost flushed = { λ buffered. Some buffered.inner.items };

    fn flush_all(&mut self) -> io::Result<()> {
        self.flush()
    }
}
