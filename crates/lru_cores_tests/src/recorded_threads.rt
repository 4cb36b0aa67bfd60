//! Runs of two threads and of four.
ghost use Rattle.std.specs.Prelude.{◌≡◌};

use crate::recorded_calls::{Answer, ask};
use crate::recorded_plain::{finished, is_right};
use lru_recording::entry::{Call, Names, Reply};
use lru_recording::journal::Seat;
use lru_recording::recorded::{Recorded, RecordedLru};
use lru_recording::tie::{Blank, Registry};
use lru_shard::unit::Cause;
use rand::RngExt;
use rand::rngs::StdRng;
use rand_core::SeedableRng;
use std::alloc::{AllocError, Global};
use std::marker::Brand;
use std::sync::Wait;
use std::sync::atomic::{AtomicBool, Ordering};
use std::test::Fail;
use std::thread;
use std::thread::Threads;

fn drawn_call(rng: &mut StdRng) -> Call {
    let key = rng.random_range(0..24u64);
    let weight = rng.random_range(0..6usize);
    match rng.random_range(0..14u8) {
        0 => Call::Admit { key, weight },
        1 => Call::InsertTail { key, weight },
        2 => Call::IncrementWeight { key, delta: weight },
        3 => Call::IncrementWeightUpTo {
            key,
            delta: weight,
            max_weight: 4,
        },
        4 => Call::UpdateOrAdmit { key, weight },
        5 => Call::SetWeight { key, weight },
        6 => Call::Promote { key },
        7 => Call::PromoteTopN { key, top: weight },
        8 => Call::EvictShard { shard: key },
        9 => Call::EvictToLimit,
        10 => Call::Remove { key },
        11 => Call::Peek { key },
        12 => Call::PeekWeight { key },
        _ => Call::PeekLru,
    }
}

// Ten thousand drawn calls by one seat. Whether one of them was refused for want of memory.
fn draw_calls<B: Registry, R: Wait>(
    rt: &R,
    alloc: Global,
    lru: &RecordedLru<u64, B, 4>,
    seat: &mut Seat<B>,
    seed: u64,
) -> bool {
    let mut rng = StdRng::seed_from_u64(seed);
    let mut wanted_memory = false;
    for _ in 0..10_000u32 {
        let call = drawn_call(&mut rng);
        let shard = rng.random_range(0..5usize);
        let answer = ask(rt, alloc, lru, seat, &mut rng, shard, call);
        wanted_memory = wanted_memory || answer == Answer::Refused(Cause::Memory);
    }
    wanted_memory
}

// How many entries there are, and whether the plain checker agrees.
fn seen<B: Registry, const N: usize>(
    alloc: Global,
    recorded: &Recorded<u64, B, N>,
) -> Result<(usize, bool), AllocError> {
    let mut entries = 0usize;
    for history in &recorded.histories {
        entries = entries.wrapping_add(history.len());
    }
    Ok((entries, is_right(alloc, recorded)?))
}

// How many entries there are, whether the plain checker agrees, and whether a call was refused for want of memory.
fn four_threads<B: Registry + Send + Sync, R: Threads + Wait + Sync>(
    rt: &R,
    alloc: Global,
    blank: Blank,
) -> Result<Option<(usize, bool, bool)>, AllocError>
    requires blank { (blank.tie.table.shared.table_id ≡ B.table) × (blank.tie.table.shared.key ≡ record { shards = 4; seats = 4 }) }
    requires callers { B.seats ≡ 4 }
{
    let (lru, mut seats) = RecordedLru::<u64, B, 4>::new(alloc, blank, 30, 4, Some(12), 4)?;
    let wanted_memory = AtomicBool::new(false);
    let shared = &lru;
    thread::for_each_mut(
        rt,
        seats.as_mut_slice(),
        4,
        &|number: usize, seat: &mut Seat<B>| {
            if draw_calls(rt, alloc, shared, seat, number as u64) {
                wanted_memory.store(true, Ordering::SeqCst);
            }
        },
    );
    let Some(recorded) = finished(lru, seats, 4) else {
        return Ok(None);
    };
    let (entries, right) = seen(alloc, &recorded)?;
    Ok(Some((entries, right, wanted_memory.load(Ordering::SeqCst))))
}

#[test]
fn four_threads_over_four_shards(rt: HostRuntime) -> Result<(), Fail> {
    let alloc: Global = rt.alloc();
    let blank = Blank::new(
        alloc,
        Names {
            shards: 4,
            seats: 4,
        },
    )?;
    let Some((entries, right, wanted_memory)) = four_threads::<Brand, _>(&rt, alloc, blank)? else {
        panic!(rt; "no seats");
    };
    // of the draws of `peek_lru` a fifth is past the last shard, and a probe or more stands for each `evict_to_limit`
    assert_eq!(rt;
        [right, wanted_memory, entries > 30_000],
        [true, false, true]
    );
    Ok(())
}

// One caller admits 0 and 1 and peeks 0, the other admits 2 and 3.
fn two_threads<B: Registry + Send + Sync, R: Threads + Wait + Sync>(
    rt: &R,
    alloc: Global,
    blank: Blank,
) -> Result<Option<(usize, usize, Option<Reply>, bool)>, AllocError>
    requires blank { (blank.tie.table.shared.table_id ≡ B.table) × (blank.tie.table.shared.key ≡ record { shards = 2; seats = 2 }) }
    requires callers { B.seats ≡ 2 }
{
    let (lru, mut seats) = RecordedLru::<u64, B, 2>::new(alloc, blank, 10, 2, None, 2)?;
    let shared = &lru;
    thread::for_each_mut(
        rt,
        seats.as_mut_slice(),
        2,
        &|number: usize, seat: &mut Seat<B>| {
            let (first, second) = if number == 0 { (0, 1) } else { (2, 3) };
            let _ = shared.admit(rt, seat, first, first, 1);
            let _ = shared.admit(rt, seat, second, second, 1);
            if number == 0 {
                let _ = shared.peek(rt, seat, 0);
            }
        },
    );
    let Some(recorded) = finished(lru, seats, 2) else {
        return Ok(None);
    };
    let mut lens = (0, 0);
    for history in &recorded.histories {
        lens = (lens.1, history.len());
    }
    let mut peeked = None;
    for seat in &recorded.seats {
        if let Some(receipt) = seat.receipts().get(2) {
            peeked = Some(receipt.reply);
        }
    }
    Ok(Some((lens.0, lens.1, peeked, is_right(alloc, &recorded)?)))
}

#[test]
fn two_callers_on_two_shards(rt: HostRuntime) -> Result<(), Fail> {
    let alloc: Global = rt.alloc();
    let blank = Blank::new(
        alloc,
        Names {
            shards: 2,
            seats: 2,
        },
    )?;
    assert_eq!(rt;
        two_threads::<Brand, _>(&rt, alloc, blank)?,
        Some((3, 2, Some(Reply::Flag(true)), true))
    );
    Ok(())
}

// Whether a flag is raised soon.
fn is_raised(flag: &AtomicBool) -> bool {
    for _ in 0..1_000_000u32 {
        if flag.load(Ordering::SeqCst) {
            return true;
        }
        thread::yield_now();
    }
    false
}

// Holds shard 0 until the second flag is raised. Whether it saw that.
fn hold<B: Registry, R: Wait>(
    rt: &R,
    lru: &RecordedLru<u64, B, 2>,
    seat: &mut Seat<B>,
    first: &AtomicBool,
    second: &AtomicBool,
) -> bool {
    let mut seen = false;
    let _ = lru.update_or_admit(
        rt,
        seat,
        0,
        |value: &mut u64, weight: usize| {
            first.store(true, Ordering::SeqCst);
            seen = is_raised(second);
            *value = 7;
            weight
        },
        || (0, 1),
    );
    seen
}

// Uses shard 1 while shard 0 is held. Whether it could.
fn pass<B: Registry, R: Wait>(
    rt: &R,
    lru: &RecordedLru<u64, B, 2>,
    seat: &mut Seat<B>,
    first: &AtomicBool,
    second: &AtomicBool,
) -> bool {
    let seen = is_raised(first);
    let admitted = lru.admit(rt, seat, 1, 5, 1).is_ok();
    second.store(true, Ordering::SeqCst);
    seen && admitted
}

// One thread holds shard 0 until another has used shard 1. Whether each saw the other.
fn work_at_once<B: Registry + Send + Sync, R: Threads + Wait + Sync>(
    rt: &R,
    alloc: Global,
    blank: Blank,
) -> Result<(bool, bool), AllocError>
    requires blank { (blank.tie.table.shared.table_id ≡ B.table) × (blank.tie.table.shared.key ≡ record { shards = 2; seats = 2 }) }
    requires callers { B.seats ≡ 2 }
{
    let (lru, mut seats) = RecordedLru::<u64, B, 2>::new(alloc, blank, 10, 2, None, 2)?;
    for seat in seats.iter_mut() {
        if seat.number == 0 {
            let _ = lru.admit(rt, seat, 0, 1, 1);
        }
    }
    let first = AtomicBool::new(false);
    let second = AtomicBool::new(false);
    let held = AtomicBool::new(false);
    let passed = AtomicBool::new(false);
    let shared = &lru;
    thread::for_each_mut(
        rt,
        seats.as_mut_slice(),
        2,
        &|number: usize, seat: &mut Seat<B>| {
            if number == 0 {
                held.store(hold(rt, shared, seat, &first, &second), Ordering::SeqCst);
            } else {
                passed.store(pass(rt, shared, seat, &first, &second), Ordering::SeqCst);
            }
        },
    );
    Ok((held.load(Ordering::SeqCst), passed.load(Ordering::SeqCst)))
}

#[test]
fn shards_work_at_once(rt: HostRuntime) -> Result<(), Fail> {
    let alloc: Global = rt.alloc();
    let blank = Blank::new(
        alloc,
        Names {
            shards: 2,
            seats: 2,
        },
    )?;
    assert_eq!(rt; work_at_once::<Brand, _>(&rt, alloc, blank)?, (true, true));
    Ok(())
}
