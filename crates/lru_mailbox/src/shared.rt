//! A queue behind a lock, for those who put and those who wait for something to take.
ghost use Rattle.std.specs.Prelude.{◌≡◌, ◌<◌, ◌==◌, ◌&&◌, not, false};
ghost use Rattle.std.specs.Sync.Mutex.{mutex_guard_value};

use crate::MailState;
use std::sync::{Condvar, Mutex, MutexGuard, Wait};
use std::thread;

// How often a taker that finds nothing lets other threads run before it sleeps. Who puts a message pays for waking a taker,
// which is many times what the message costs.
const TURNS: u32 = 16;

/// What threads put into and take from.
pub trait Queued {
    ghost use Rattle.std.specs.Prelude.{◌≡◌, ℕ, Bool};

    // how many messages wait
    ghost waits: { Self → ℕ };

    // nothing is put any more
    ghost shut: { Self → Bool };

    /// How many messages wait.
    fn waiting(&self) -> usize
        ensures { result ≡ waits self.now };

    /// Whether nothing is put any more.
    fn is_shut(&self) -> bool
        ensures { result ≡ shut self.now };
}

impl<M> Queued for MailState<M> {
    ghost use Rattle.std.specs.Prelude.{length};

    ghost waits = { λ s. length s.post.waiting };

    ghost shut = { λ s. s.post.closed };

    fn waiting(&self) -> usize {
        self.len()
    }

    fn is_shut(&self) -> bool {
        self.is_closed()
    }
}

/// A queue behind a lock. Who puts into an empty one wakes one that waits, and who leaves something behind wakes the next: so a
/// batch costs one wake-up. A taker lets others run a few times before it sleeps.
#[derive(Drop)]
pub struct Shared<S> {
    queue: Mutex<S>,
    changed: Condvar,
}

impl<S: Queued> Shared<S> {
    /// A queue that threads share.
    pub fn new(queue: S) -> Self {
        Shared {
            queue: Mutex::new(queue),
            changed: Condvar::new(),
        }
    }

    /// The queue, which nobody else holds.
    pub fn into_inner(self) -> S {
        let Shared { queue, changed: _ } = self;
        queue.into_inner()
    }

    /// Lends the queue until the guard is dropped.
    pub fn lock<R: Wait>(&self, rt: &R) -> MutexGuard<'_, S> {
        self.queue.lock(rt)
    }

    /// Lets go after something may have been put, and wakes one that waits where so many waited before: none.
    pub fn let_go(&self, queue: MutexGuard<'_, S>, waited: usize) {
        drop(queue);
        if waited == 0 {
            self.changed.notify_one();
        }
    }

    /// Lends the queue once something is there or nothing may come.
    pub fn lock_some(&self, rt: &impl Wait) -> MutexGuard<'_, S>
        ensures { S.shut (mutex_guard_value result) ≡ false → 0 < S.waits (mutex_guard_value result) }
    {
        for _ in 0..TURNS {
            let queue = self.queue.lock(rt);
            if !is_idle(&*queue) {
                return queue;
            }
            drop(queue);
            thread::yield_now();
        }
        self.changed
            .wait_while(rt, self.queue.lock(rt), |queue| is_idle(queue))
    }

    /// Lets go after something was taken, and wakes the next where something is left.
    pub fn pass_on(&self, queue: MutexGuard<'_, S>) {
        let is_left = queue.waiting() > 0;
        drop(queue);
        if is_left {
            self.changed.notify_one();
        }
    }

    /// Wakes all who wait.
    pub fn wake_all(&self) {
        self.changed.notify_all();
    }
}

// Whether there is nothing to take, and something may come.
fn is_idle<S: Queued>(queue: &S) -> bool
    ensures { result ≡ (S.waits queue.now == 0) && not (S.shut queue.now) }
{
    queue.waiting() == 0 && !queue.is_shut()
}
