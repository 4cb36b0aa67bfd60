//! Counters that threads share: sums modulo 2^64 of one number a shard.
ghost use Rattle.std.specs.Prelude.{◌≡◌, ◌+◌, ◌%◌, ◌^◌};

use std::sync::atomic::{AtomicUsize, Ordering};

/// What a sum modulo 2^64 grows by where one of its numbers changes.
#[inline(always)]
pub fn growth(before: usize, after: usize) -> usize
    ensures { (before + result) % 2 ^ 64 ≡ after }
{
    after.wrapping_sub(before)
}

/// Brings a counter after one of its numbers changed, in one step; where the number is as before, nothing is written.
#[inline(always)]
pub fn shift(counter: &AtomicUsize, before: usize, after: usize) {
    if before != after {
        counter.fetch_add(growth(before, after), Ordering::SeqCst);
    }
}
