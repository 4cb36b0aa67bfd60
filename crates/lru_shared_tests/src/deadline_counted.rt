//! Values that count their copies and their drops.
use std::alloc::AllocError;
use std::sync::atomic::{AtomicU64, Ordering};

/// How many copies were made and let go, and which values were dropped that nobody was handed.
#[derive(Drop)]
pub struct Ledger {
    copied: AtomicU64,
    gone: AtomicU64,
    lost: AtomicU64,
    lost_squares: AtomicU64,
}

impl Ledger {
    pub fn none() -> Self {
        Ledger {
            copied: AtomicU64::new(0),
            gone: AtomicU64::new(0),
            lost: AtomicU64::new(0),
            lost_squares: AtomicU64::new(0),
        }
    }

    /// How many copies were made, and how many of them were let go.
    pub fn copies(&self) -> (u64, u64) {
        (
            self.copied.load(Ordering::SeqCst),
            self.gone.load(Ordering::SeqCst),
        )
    }

    /// How many values were dropped that are no copies, and the sum of the squares of their numbers.
    pub fn lost(&self) -> (u64, u64) {
        (
            self.lost.load(Ordering::SeqCst),
            self.lost_squares.load(Ordering::SeqCst),
        )
    }

    // A value was let go; where it is no copy, it was dropped by a cache.
    fn drops(&self, number: u64, is_copy: bool) {
        if is_copy {
            self.gone.fetch_add(1, Ordering::SeqCst);
        } else {
            self.lost.fetch_add(1, Ordering::SeqCst);
            self.lost_squares
                .fetch_add(number.wrapping_mul(number), Ordering::SeqCst);
        }
    }
}

/// A value with a number of its own.
pub struct Counted<'a> {
    number: u64,
    is_copy: bool,
    ledger: &'a Ledger,
}

impl<'a> Counted<'a> {
    pub fn new(number: u64, ledger: &'a Ledger) -> Self {
        Counted {
            number,
            is_copy: false,
            ledger,
        }
    }

    pub fn number(&self) -> u64 {
        self.number
    }

    /// The number of a value that was handed over, which is not dropped by that.
    pub fn take(self) -> u64 {
        let Self {
            number,
            is_copy: _,
            ledger: _,
        } = self;
        number
    }
}

impl<'a> Clone for Counted<'a> {
    fn clone(&self) -> Result<Counted<'a>, AllocError> {
        self.ledger.copied.fetch_add(1, Ordering::SeqCst);
        Ok(Counted {
            number: self.number,
            is_copy: true,
            ledger: self.ledger,
        })
    }
}

impl<'a> Drop for Counted<'a> {
    fn drop(self) {
        let Self {
            number,
            is_copy,
            ledger,
        } = self;
        ledger.drops(number, is_copy);
    }
}
