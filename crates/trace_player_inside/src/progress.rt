//! A line of progress.

use std::io::IsTerminal;

/// How far the program is: a line on standard error that is written again and again, where that is a terminal, and nothing
/// elsewhere.
#[derive(Clone, Copy)]
pub struct Progress {
    is_shown: bool,
}

impl Progress {
    /// Shown where standard error is a terminal.
    pub(crate) fn new(rt: HostRuntime) -> Self {
        Progress {
            is_shown: rt.stderr().is_terminal(),
        }
    }

    /// Writes the line anew. What can't be written is left out.
    pub(crate) fn show(self, rt: HostRuntime, what: &str, count: usize) {
        if self.is_shown {
            let _ = eprint!(rt; "\r{what} {count}\x1b[K");
        }
    }

    /// Writes the line anew: which one of how many is under way, the first being 1.
    pub(crate) fn show_place(self, rt: HostRuntime, what: &str, place: usize, count: usize) {
        if self.is_shown {
            let _ = eprint!(rt; "\r{what} {place} of {count}\x1b[K");
        }
    }

    /// Wipes the line.
    pub(crate) fn clear(self, rt: HostRuntime) {
        if self.is_shown {
            let _ = eprint!(rt; "\r\x1b[K");
        }
    }
}
