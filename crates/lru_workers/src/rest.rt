//! What those wait for who wait until all is at rest.
use std::sync::atomic::{AtomicUsize, Ordering};
use std::sync::{Condvar, Mutex, Wait};

/// Tells those who wait for rest when to look again. Where nobody waits it costs one look at a counter.
#[derive(Drop)]
pub(crate) struct RestWatch {
    waiters: AtomicUsize,
    // how often there was something new to see, modulo 2^64
    changes: Mutex<u64>,
    changed: Condvar,
}

impl RestWatch {
    pub(crate) fn new() -> Self {
        RestWatch {
            waiters: AtomicUsize::new(0),
            changes: Mutex::new(0),
            changed: Condvar::new(),
        }
    }

    // Counts one who waits, before it looks for the first time: what changes from now on is told.
    pub(crate) fn begin(&self) {
        self.waiters.fetch_add(1, Ordering::SeqCst);
    }

    // It waits no longer.
    pub(crate) fn end(&self) {
        self.waiters.fetch_sub(1, Ordering::SeqCst);
    }

    // Wakes those who wait, after something changed that they look at.
    pub(crate) fn look_again(&self, rt: &impl Wait) {
        if self.waiters.load(Ordering::SeqCst) == 0 {
            return;
        }
        let mut changes = self.changes.lock(rt);
        *changes = changes.wrapping_add(1);
        drop(changes);
        self.changed.notify_all();
    }

    // How often there was something new to see; asked before one looks.
    pub(crate) fn changes(&self, rt: &impl Wait) -> u64 {
        *self.changes.lock(rt)
    }

    // Waits until there was something new to see since that count.
    pub(crate) fn wait(&self, rt: &impl Wait, seen: u64) {
        let changes = self
            .changed
            .wait_while(rt, self.changes.lock(rt), |changes| *changes == seen);
        drop(changes);
    }
}
