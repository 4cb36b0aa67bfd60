//! A lock that many may take to read.
//!
//! It is for values that are looked at more often than they are changed, and whose looks take longer than a lock does: a
//! lock of one at a time takes less, and with it short looks by four threads are as fast.
use crate::{TRIES, spin};
use std::sync::{RwLock, RwLockReadGuard, RwLockWriteGuard, Wait};

/// A value that many may read at a time, or one may write.
#[derive(Drop)]
pub struct ShortLock<T> {
    lock: RwLock<T>,
}

impl<T> ShortLock<T> {
    /// A lock that is free, with this value behind it.
    pub fn new(value: T) -> Self {
        ShortLock {
            lock: RwLock::new(value),
        }
    }

    /// What is behind it.
    pub fn into_inner(self) -> T {
        self.lock.into_inner()
    }

    /// Takes the lock together with other readers.
    #[inline(always)]
    pub fn read(&self, rt: &impl Wait) -> RwLockReadGuard<'_, T> {
        match self.lock.try_read() {
            Some(guard) => guard,
            None => self.read_after_others(rt),
        }
    }

    // As `read`, where a try found it taken.
    #[cold]
    #[inline(never)]
    fn read_after_others(&self, rt: &impl Wait) -> RwLockReadGuard<'_, T> {
        for _ in 1..TRIES {
            spin();
            if let Some(guard) = self.lock.try_read() {
                return guard;
            }
        }
        spin();
        self.lock.read(rt)
    }

    /// Takes the lock alone.
    #[inline(always)]
    pub fn write(&self, rt: &impl Wait) -> RwLockWriteGuard<'_, T> {
        match self.lock.try_write() {
            Some(guard) => guard,
            None => self.write_after_others(rt),
        }
    }

    // As `write`, where a try found it taken.
    #[cold]
    #[inline(never)]
    fn write_after_others(&self, rt: &impl Wait) -> RwLockWriteGuard<'_, T> {
        for _ in 1..TRIES {
            spin();
            if let Some(guard) = self.lock.try_write() {
                return guard;
            }
        }
        spin();
        self.lock.write(rt)
    }
}
