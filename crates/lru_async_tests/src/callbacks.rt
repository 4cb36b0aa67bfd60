//! Callbacks and gates of the tests, and orders with them.
ghost use Rattle.std.specs.Prelude.{◌≡◌, ◌<◌};

use lru_async::async_lru::AsyncLru;
use lru_workers::callback::{AsyncEvictionCallback, Gate};
use std::alloc::Global;
use std::hash::Hash;
use std::sync::atomic::{AtomicBool, AtomicUsize, Ordering};
use std::sync::{Arc, Wait};
use std::test::Fail;
use std::thread;
use std::thread::Threads;

/// How often one looks for what another thread does, with a yield each: far more often than it takes, also on a busy
/// machine.
pub const LOOKS: u32 = 10_000_000;

/// A callback that does nothing.
#[derive(Drop)]
pub struct Quiet;

impl<K: Drop> AsyncEvictionCallback<K> for Quiet {
    ghost ready = { λ _. Unit {0} };

    fn call(&self, _key: K, _weight: usize) {}
}

/// An order under a limit on its weight, whose evicted pairs go nowhere.
pub fn quiet_order<
    K: Hash + Eq + Clone + Drop + Send + Sync + 'static,
    const N: usize,
    R: Threads + Wait + Copy + Send + 'static,
>(rt: R, alloc: Global, limit: usize) -> Result<AsyncLru<K, N>, Fail>
    requires { 0 < N }
{
    let quiet = Arc::new(alloc, Quiet)?;
    match AsyncLru::<K, N>::builder(alloc, limit, quiet).build(rt) {
        Ok(lru) => Ok(lru),
        Err(_) => Err(Fail::from("no threads")),
    }
}

/// The same, whose actors pass a gate.
pub fn gated_order<const N: usize, R: Threads + Wait + Copy + Send + 'static>(
    rt: R,
    alloc: Global,
    limit: usize,
    gate: Arc<Holding, Global>,
) -> Result<AsyncLru<u64, N>, Fail>
    requires { 0 < N }
{
    let quiet = Arc::new(alloc, Quiet)?;
    match AsyncLru::<u64, N>::builder_with_gate(alloc, limit, quiet, gate).build(rt) {
        Ok(lru) => Ok(lru),
        Err(_) => Err(Fail::from("no threads")),
    }
}

/// Whether a flag is raised soon.
pub fn is_raised(flag: &AtomicBool) -> bool {
    for _ in 0..LOOKS {
        if flag.load(Ordering::SeqCst) {
            return true;
        }
        thread::yield_now();
    }
    false
}

/// A gate that holds shard 0, after so many messages, until it is opened, and notes whether it saw that.
#[derive(Drop)]
pub struct Holding {
    after: usize,
    passed: AtomicUsize,
    /// An actor is held.
    pub held: AtomicBool,
    /// It may go on.
    pub open: AtomicBool,
    /// It saw that it may.
    pub saw: AtomicBool,
}

impl Holding {
    /// A gate that lets so many messages pass and then holds.
    pub fn new(after: usize) -> Self {
        Holding {
            after,
            passed: AtomicUsize::new(0),
            held: AtomicBool::new(false),
            open: AtomicBool::new(false),
            saw: AtomicBool::new(false),
        }
    }
}

impl Gate for Holding {
    fn pass(&self, shard: usize) {
        if shard == 0 && self.passed.fetch_add(1, Ordering::SeqCst) >= self.after {
            self.held.store(true, Ordering::SeqCst);
            if is_raised(&self.open) {
                self.saw.store(true, Ordering::SeqCst);
            }
        }
    }
}

/// Counts the calls for keys 1, 2 and 3 with weight 10, and all others.
#[derive(Drop)]
pub struct Counting {
    /// How often each key was called.
    pub first: AtomicUsize,
    /// The second key.
    pub second: AtomicUsize,
    /// The third key.
    pub third: AtomicUsize,
    /// All other calls.
    pub others: AtomicUsize,
}

impl Counting {
    /// No call came.
    pub fn new() -> Self {
        Counting {
            first: AtomicUsize::new(0),
            second: AtomicUsize::new(0),
            third: AtomicUsize::new(0),
            others: AtomicUsize::new(0),
        }
    }

    /// How often each key was called, and how often something else.
    pub fn counts(&self) -> [usize; 4] {
        [
            self.first.load(Ordering::SeqCst),
            self.second.load(Ordering::SeqCst),
            self.third.load(Ordering::SeqCst),
            self.others.load(Ordering::SeqCst),
        ]
    }
}

impl AsyncEvictionCallback<u64> for Counting {
    ghost ready = { λ _. Unit {0} };

    fn call(&self, key: u64, weight: usize) {
        let counter = match (key, weight) {
            (1, 10) => &self.first,
            (2, 10) => &self.second,
            (3, 10) => &self.third,
            _ => &self.others,
        };
        counter.fetch_add(1, Ordering::SeqCst);
    }
}

/// A callback that waits for another call of it, and counts those that met one.
#[derive(Drop)]
pub struct Meeting {
    calls: AtomicUsize,
    /// How many calls saw the other.
    pub met: AtomicUsize,
}

impl Meeting {
    /// No call came.
    pub fn new() -> Self {
        Meeting {
            calls: AtomicUsize::new(0),
            met: AtomicUsize::new(0),
        }
    }
}

impl AsyncEvictionCallback<u64> for Meeting {
    ghost ready = { λ _. Unit {0} };

    fn call(&self, _key: u64, _weight: usize) {
        self.calls.fetch_add(1, Ordering::SeqCst);
        for _ in 0..LOOKS {
            if self.calls.load(Ordering::SeqCst) == 2 {
                self.met.fetch_add(1, Ordering::SeqCst);
                return;
            }
            thread::yield_now();
        }
    }
}
