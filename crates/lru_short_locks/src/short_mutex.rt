//! A lock that one takes at a time.
//!
//! The shards of orders and caches lie behind these.
use crate::{TRIES, spin};
use std::sync::{Mutex, MutexGuard, Wait};

/// A value that one at a time may use.
#[derive(Drop)]
pub struct ShortMutex<T> {
    lock: Mutex<T>,
}

impl<T> ShortMutex<T> {
    /// A lock that is free, with this value behind it.
    pub fn new(value: T) -> Self {
        ShortMutex {
            lock: Mutex::new(value),
        }
    }

    /// What is behind it.
    pub fn into_inner(self) -> T {
        self.lock.into_inner()
    }

    /// Takes the lock.
    #[inline(always)]
    pub fn lock(&self, rt: &impl Wait) -> MutexGuard<'_, T> {
        match self.lock.try_lock() {
            Some(guard) => guard,
            None => self.lock_after_others(rt),
        }
    }

    // As `lock`, where a try found it taken.
    #[cold]
    #[inline(never)]
    fn lock_after_others(&self, rt: &impl Wait) -> MutexGuard<'_, T> {
        for _ in 1..TRIES {
            spin();
            if let Some(guard) = self.lock.try_lock() {
                return guard;
            }
        }
        spin();
        self.lock.lock(rt)
    }
}
