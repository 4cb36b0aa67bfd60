//! What eviction workers wait for.
ghost use Rattle.std.specs.Prelude.{◌≡◌};
ghost use Rattle.lru_workers.specs.Resting.{rested};

use std::sync::{Condvar, Mutex, Wait};

#[derive(Debug, Drop)]
struct Raised {
    // how often, modulo 2^64
    count: u64,
    // how many workers have nothing to do as long as the count stays
    resting: usize,
    stopped: bool,
}

// A worker has nothing to do for this count, if it is still the one.
fn rest(raised: &mut Raised, seen: u64)
    ensures { raised.new ≡ rested seen raised.old }
{
    if raised.count == seen {
        raised.resting = raised.resting.wrapping_add(1);
    }
}

/// A count that is raised to wake the eviction workers, until it is stopped.
#[derive(Drop)]
pub struct Trigger {
    raised: Mutex<Raised>,
    changed: Condvar,
}

impl Trigger {
    /// A trigger that was never raised.
    pub(crate) fn new() -> Self {
        Trigger {
            raised: Mutex::new(Raised {
                count: 0,
                resting: 0,
                stopped: false,
            }),
            changed: Condvar::new(),
        }
    }

    /// Raises the count, and wakes who waits for it.
    pub fn raise(&self, rt: &impl Wait) {
        let mut raised = self.raised.lock(rt);
        raised.count = raised.count.wrapping_add(1);
        raised.resting = 0;
        drop(raised);
        self.changed.notify_all();
    }

    /// Stops the trigger, and wakes who waits for it.
    pub(crate) fn stop(&self, rt: &impl Wait) {
        self.raised.lock(rt).stopped = true;
        self.changed.notify_all();
    }

    /// A worker has nothing more to do for this count. It waits for another one next.
    pub(crate) fn rests(&self, rt: &impl Wait, seen: u64) {
        rest(&mut *self.raised.lock(rt), seen);
    }

    /// The count, while so many workers have nothing to do until it is another one, or once the trigger is stopped.
    pub(crate) fn count_at_rest(&self, rt: &impl Wait, workers: usize) -> Option<u64> {
        let raised = self.raised.lock(rt);
        if raised.stopped || raised.resting >= workers {
            Some(raised.count)
        } else {
            None
        }
    }

    /// Waits until the count is another one than this, and answers it; `None` once the trigger is stopped.
    pub(crate) fn wait(&self, rt: &impl Wait, seen: u64) -> Option<u64> {
        let raised = self.changed.wait_while(rt, self.raised.lock(rt), |raised| {
            raised.count == seen && !raised.stopped
        });
        if raised.stopped {
            return None;
        }
        Some(raised.count)
    }
}
