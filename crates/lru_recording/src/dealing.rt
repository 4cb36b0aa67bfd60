//! What a `RecordedLru` begins with: its counters, and its shards and seats, each dealt a token of its own.
ghost use Rattle.std.specs.Prelude.{◌≡◌, [], vec_len, map, All, IfOk, OnOk};
ghost use Rattle.lru_short_locks.specs.Hands.{up};
ghost use Rattle.lru_recording.specs.Ties.{hand};

use crate::journal::Seat;
use crate::recording::Recording;
use crate::tie::{Registry, Tie, Token};
use std::alloc::{AllocError, Global};
use std::sync::Mutex;
use std::sync::atomic::AtomicUsize;

pub(crate) fn zeros(alloc: Global, count: usize) -> Result<Vec<AtomicUsize>, AllocError>
    ensures { IfOk result (λ zeros. vec_len zeros ≡ count) }
{
    let mut zeros = Vec::with_capacity(alloc, count)?;
    for _ in 0..count {
        zeros.push(AtomicUsize::new(0))?;
    }
    Ok(zeros)
}

pub(crate) fn deal_shards<T: Drop, B: Registry, const N: usize>(
    alloc: Global,
    capacity: usize,
    tie: &Tie,
    rest: &mut Token,
    seats: u64,
) -> Result<Vec<Mutex<Recording<T, B, N>>>, AllocError>
    requires tie { tie.now.table.shared.table_id ≡ B.table }
    requires rest { (rest.old.table_id ≡ B.table) × (rest.old.me ≡ (hand (up 0 N) (up 0 seats) [] [], [])) }
    ensures all { IfOk result (λ shards. vec_len shards ≡ N) }
    ensures rest { OnOk result ((rest.new.table_id ≡ B.table) × (rest.new.me ≡ (hand [] (up 0 seats) [] [], []))) }
{
    let mut shards = Vec::with_capacity(alloc, N)?;
    for number in 0..N {
        let token = tie.next_shard(rest);
        shards.push(Mutex::new(Recording::new(alloc, capacity, number, token)?))?;
    }
    Ok(shards)
}

pub(crate) fn deal_seats<B: Registry>(
    alloc: Global,
    tie: &Tie,
    rest: &mut Token,
    count: usize,
) -> Result<Vec<Seat<B>>, AllocError>
    requires tie { tie.now.table.shared.table_id ≡ B.table }
    requires rest { (rest.old.table_id ≡ B.table) × (rest.old.me ≡ (hand [] (up 0 count) [] [], [])) }
    ensures all { IfOk result (λ seats. map (λ s. s.number) seats.items ≡ up 0 count) }
    ensures fresh { IfOk result (λ seats. All (λ s. s.receipts.items ≡ []) seats.items) }
    ensures rest { OnOk result ((rest.new.table_id ≡ B.table) × (rest.new.me ≡ (hand [] [] [] [], []))) }
{
    let mut seats = Vec::with_capacity(alloc, count)?;
    for number in 0..count {
        let token = tie.next_seat(rest);
        seats.push(Seat::new(alloc, number, token))?;
    }
    Ok(seats)
}
