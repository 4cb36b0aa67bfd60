//! What the program writes to.
ghost use Rattle.std.specs.Prelude.{⊤, OnErr, OnOk};
ghost use Rattle.std.specs.Io.KnownBytes.{Appends};

use std::io;
use std::io::{BufWriter, Cursor, Stdout, Write};

/// A writer of which contracts know whether a write may have failed.
pub trait Output: Write {
    // whether a write to it may have failed
    ghost has_failed: { Self → Type 0 };

    /// Writes all of these bytes.
    fn put(&mut self, bytes: &[u8]) -> io::Result<()>
        ensures bytes { OnOk result (Appends (Self.contents self.old) (Self.contents self.new) bytes.now) }
        ensures failed { OnErr result (has_failed self.new) };
}

// std does not say of these when a write fails, so one may have failed: of a buffer, the system's output, a vector that grows,
// and a part of memory that may be full.

impl<W: Write + Drop> Output for BufWriter<W> {
    ghost has_failed = { λ _. ⊤ };

    fn put(&mut self, bytes: &[u8]) -> io::Result<()> {
        self.write_all(bytes)
    }
}

impl Output for Stdout {
    ghost has_failed = { λ _. ⊤ };

    fn put(&mut self, bytes: &[u8]) -> io::Result<()> {
        self.write_all(bytes)
    }
}

impl Output for Vec<u8> {
    ghost has_failed = { λ _. ⊤ };

    fn put(&mut self, bytes: &[u8]) -> io::Result<()> {
        self.write_all(bytes)
    }
}

impl Output for &mut [u8] {
    ghost has_failed = { λ _. ⊤ };

    fn put(&mut self, bytes: &[u8]) -> io::Result<()> {
        self.write_all(bytes)
    }
}

impl Output for Cursor<&mut [u8]> {
    ghost has_failed = { λ _. ⊤ };

    fn put(&mut self, bytes: &[u8]) -> io::Result<()> {
        self.write_all(bytes)
    }
}
