//! How long a piece of work took, where that is asked for.

use std::io;
use std::rt::Clock;
use std::time::Instant;

/// Whether times are printed.
#[derive(Clone, Copy)]
pub struct Watch {
    pub is_timed: bool,
}

impl Watch {
    /// Prints what was counted in `calls` calls since `start`, and with times the nanoseconds a call.
    pub fn tell<R: Print + Clock>(
        self,
        rt: &R,
        what: &str,
        count: usize,
        calls: usize,
        start: Instant,
    ) -> io::Result<()> {
        print!(rt; "{what}: {count}")?;
        if self.is_timed && calls > 0 {
            let tenths = start.elapsed(rt)?.as_nanos().saturating_mul(10) / calls as u128;
            print!(rt; ", {}.{} ns", tenths / 10, tenths % 10)?;
        }
        println!(rt; "")
    }
}
