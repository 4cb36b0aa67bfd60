//! Seats that ended threads gave back, and what nobody else holds any more.
ghost use Rattle.std.specs.Prelude.{◌≡◌, map};
ghost use Rattle.std.specs.Arc.{arc_value};
ghost use Rattle.lru_short_locks.specs.Hands.{up};

use lru_boxes::{BoxRegistry, PutSeat, TakeSeat};
use std::alloc::Global;
use std::sync::{Arc, Wait};
use std::thread;

/// Answers the put seats that so many actors gave back, in order, once they are all. Were one missing, this would wait for it.
pub fn all_puts<B: BoxRegistry>(
    rt: &impl Wait,
    seats: Vec<PutSeat<B>>,
    count: usize,
) -> Vec<PutSeat<B>>
    ensures numbers { map (λ s. s.number) result.items ≡ up 0 count }
    ensures same { result ≡ seats }
{
    for _ in rt.forever() {
        if PutSeat::are_all(seats.as_slice(), count) {
            return seats;
        }
        thread::yield_now();
    }
    unreachable!()
}

/// The same of the take seats of so many callback workers.
pub fn all_takes<B: BoxRegistry>(
    rt: &impl Wait,
    seats: Vec<TakeSeat<B>>,
    count: usize,
) -> Vec<TakeSeat<B>>
    ensures numbers { map (λ s. s.number) result.items ≡ up 0 count }
    ensures same { result ≡ seats }
{
    for _ in rt.forever() {
        if TakeSeat::are_all(seats.as_slice(), count) {
            return seats;
        }
        thread::yield_now();
    }
    unreachable!()
}

/// Answers what is shared once nobody else holds it.
pub fn sole<T>(rt: &impl Wait, shared: Arc<T, Global>) -> T
    ensures { result ≡ arc_value shared }
{
    let mut shared = shared;
    for _ in rt.forever() {
        match Arc::try_unwrap(shared) {
            Ok(value) => return value,
            Err(held) => shared = held,
        }
        thread::yield_now();
    }
    unreachable!()
}
