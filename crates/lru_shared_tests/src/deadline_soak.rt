//! Four threads put, get, make, remove and sweep, while one copies the shards and one clears them. Each value comes out once, or
//! is there at the end, or was made for a key that others had put meanwhile; and the counts say how. A value that comes out is
//! its key's.
use crate::deadline_counted::{Counted, Ledger};
use lru_cache_checkpoints::shared_deadline_captures::capture_shard;
use lru_shared_cache::counts::Counts;
use lru_shared_deadlines::shared::{Ages, Gone, Limits, SharedDeadlineCache};
use std::alloc::{AllocError, Global};
use std::sync::Wait;
use std::test::Fail;
use std::thread;
use std::thread::Threads;

// How many calls each thread makes.
const CALLS: u64 = 3000;

// How many keys there are: more than may have entries at once. A value's number tells its key, too.
const KEYS: u64 = 64;

type Values<'a> = SharedDeadlineCache<u64, Counted<'a>, 4>;

// What a closure makes. It always makes a value.
type Made<'a> = Result<(Counted<'a>, usize), u8>;

// What was put or made, and what came out: how many, and the sum of the squares of their numbers, of which no two are the same.
#[derive(Clone, Copy, Drop)]
struct Tally {
    put: u64,
    came: u64,
    values_put: u64,
    values_came: u64,
    captured: u64,
    is_right: bool,
}

impl Tally {
    fn none() -> Self {
        Tally {
            put: 0,
            came: 0,
            values_put: 0,
            values_came: 0,
            captured: 0,
            is_right: true,
        }
    }

    fn plus(self, other: Tally) -> Tally {
        Tally {
            put: self.put.wrapping_add(other.put),
            came: self.came.wrapping_add(other.came),
            values_put: self.values_put.wrapping_add(other.values_put),
            values_came: self.values_came.wrapping_add(other.values_came),
            captured: self.captured.wrapping_add(other.captured),
            is_right: self.is_right & other.is_right,
        }
    }

    fn put_in(&mut self, number: u64) {
        self.put = self.put.wrapping_add(1);
        self.values_put = self.values_put.wrapping_add(number.wrapping_mul(number));
    }

    fn shown(&mut self, key: u64, number: u64) {
        self.is_right &= number % KEYS == key;
    }

    fn came_out(&mut self, entry: Gone<u64, Counted<'_>>) {
        let number = entry.value.value.value.take();
        self.shown(entry.key, number);
        self.came = self.came.wrapping_add(1);
        self.values_came = self.values_came.wrapping_add(number.wrapping_mul(number));
    }
}

// A step of a thread: its time, a key, and the number of a value of that key.
#[derive(Clone, Copy, Drop)]
struct Step {
    time: u64,
    key: u64,
    number: u64,
}

fn put<'a, R: Wait>(rt: &R, cache: &Values<'a>, ledger: &'a Ledger, step: Step, tally: &mut Tally) {
    let mut gone = Tally::none();
    let value = Counted::new(step.number, ledger);
    let weight = (step.number % 5) as usize;
    match cache.put(
        rt,
        step.time,
        step.key,
        value,
        weight,
        |entry| gone.came_out(entry),
    ) {
        Ok(was) => {
            gone.put_in(step.number);
            if let Some(entry) = was {
                gone.came_out(entry);
            }
        }
        Err(refused) => gone.is_right &= refused.value.take() == step.number,
    }
    *tally = tally.plus(gone);
}

fn make<'a, R: Wait>(
    rt: &R,
    cache: &Values<'a>,
    ledger: &'a Ledger,
    step: Step,
    tally: &mut Tally,
) {
    let mut made = Tally::none();
    let mut gone = Tally::none();
    let answer = cache.get_or_put_with(
        rt,
        step.time,
        step.key,
        || -> Made {
            made.put_in(step.number);
            Ok((
                Counted::new(step.number, ledger),
                (step.number % 5) as usize,
            ))
        },
        |entry| gone.came_out(entry),
    );
    match answer {
        Ok(copy) => gone.shown(step.key, copy.number()),
        Err(_) => gone.is_right = false,
    }
    *tally = tally.plus(made).plus(gone);
}

fn get<'a, R: Wait>(rt: &R, cache: &Values<'a>, step: Step, tally: &mut Tally) {
    if let Ok(Some(copy)) = cache.get(rt, step.time, &step.key) {
        tally.shown(step.key, copy.number());
    }
}

fn take<'a, R: Wait>(rt: &R, cache: &Values<'a>, key: u64, tally: &mut Tally) {
    if let Some(entry) = cache.remove(rt, &key) {
        tally.came_out(entry);
    }
}

fn sweep<'a, R: Wait>(rt: &R, cache: &Values<'a>, time: u64, tally: &mut Tally) {
    let mut gone = Tally::none();
    cache.sweep(rt, time, 3, |entry| gone.came_out(entry));
    *tally = tally.plus(gone);
}

// Copies each shard, and looks whether each copy is one of its key's value.
fn copy<'a, R: Wait>(rt: &R, alloc: Global, cache: &Values<'a>, tally: &mut Tally) {
    for shard in 0..4usize {
        if let Ok(rows) = capture_shard(rt, alloc, cache, shard) {
            for row in &rows {
                tally.shown(row.key, row.data.0.number());
                tally.captured = tally.captured.wrapping_add(1);
            }
        }
    }
}

fn clear<'a, R: Wait>(rt: &R, cache: &Values<'a>, tally: &mut Tally) {
    for shard in 0..4usize {
        let mut gone = Tally::none();
        cache.clear_shard(rt, shard, |entry| gone.came_out(entry));
        *tally = tally.plus(gone);
    }
}

// Makes one call, as drawn.
fn call<'a, R: Wait>(
    rt: &R,
    cache: &Values<'a>,
    ledger: &'a Ledger,
    drawn: u64,
    step: Step,
    tally: &mut Tally,
) {
    match drawn % 8 {
        0 => take(rt, cache, step.key, tally),
        1 | 2 => get(rt, cache, step, tally),
        3 => sweep(rt, cache, step.time, tally),
        4 | 5 => make(rt, cache, ledger, step, tally),
        _ => put(rt, cache, ledger, step, tally),
    }
}

// Makes calls, as drawn from a seed, at a time that is the number of the step. Now and then the first thread copies all shards,
// and the second clears them.
fn work<'a, R: Wait>(
    rt: &R,
    alloc: Global,
    cache: &Values<'a>,
    ledger: &'a Ledger,
    seed: u64,
) -> Tally {
    let mut tally = Tally::none();
    let mut drawn = seed;
    for time in 0..CALLS {
        drawn = drawn
            .wrapping_mul(6364136223846793005)
            .wrapping_add(1442695040888963407);
        let key = (drawn >> 33) % KEYS;
        let number = seed
            .wrapping_mul(CALLS)
            .wrapping_add(time)
            .wrapping_mul(KEYS)
            .wrapping_add(key);
        call(
            rt,
            cache,
            ledger,
            drawn >> 60,
            Step { time, key, number },
            &mut tally,
        );
        if time % 64 == 63 {
            match seed {
                1 => copy(rt, alloc, cache, &mut tally),
                2 => clear(rt, cache, &mut tally),
                _ => {}
            }
        }
    }
    tally
}

fn two_work<'a, R: Threads + Wait + Sync>(
    rt: &R,
    alloc: Global,
    cache: &Values<'a>,
    ledger: &'a Ledger,
    seed: u64,
) -> Tally {
    let (one, two) = thread::join(
        rt,
        move || work(rt, alloc, cache, ledger, seed),
        move || work(rt, alloc, cache, ledger, seed.wrapping_add(1)),
    );
    one.plus(two)
}

fn all_work<'a, R: Threads + Wait + Sync>(
    rt: &R,
    alloc: Global,
    cache: &Values<'a>,
    ledger: &'a Ledger,
) -> Tally {
    let (one, two) = thread::join(
        rt,
        move || two_work(rt, alloc, cache, ledger, 1),
        move || two_work(rt, alloc, cache, ledger, 3),
    );
    one.plus(two)
}

// Whether each value that was put or made came out once, but for those that were lost as others had put their key, and it is
// counted how.
fn are_accounted(tally: Tally, (lost, lost_squares): (u64, u64), stats: Counts) -> bool {
    let left = stats
        .replaced
        .entries
        .wrapping_add(stats.for_room.entries)
        .wrapping_add(stats.past.entries)
        .wrapping_add(stats.removed.entries)
        .wrapping_add(stats.cleared.entries);
    let is_once = (tally.put == tally.came.wrapping_add(lost))
        & (tally.values_put == tally.values_came.wrapping_add(lost_squares));
    let is_counted = (stats.puts == tally.came) & (left == tally.came);
    is_once & is_counted & (stats.past.entries != 0) & (stats.cleared.entries != 0)
}

// Whether the cache was within its limits, what is left in it is let go, and all is accounted for.
fn all_come_out<'a, R: Threads + Wait + Sync>(
    rt: &R,
    alloc: Global,
    ledger: &'a Ledger,
) -> Result<bool, AllocError> {
    let limits = Limits {
        weight: 64,
        entries: 24,
    };
    let cache = Values::new(alloc, limits, Ages { live: 50, idle: 10 })?;
    let mut tally = all_work(rt, alloc, &cache, ledger);
    let is_within = (cache.len(rt) <= 24) & (cache.weight(rt) <= 64) & (cache.len(rt) != 0);
    clear(rt, &cache, &mut tally);
    let is_empty = (cache.len(rt), cache.weight(rt)) == (0, 0);
    let (copied, gone) = ledger.copies();
    let are_copies = (copied == gone) & (tally.captured != 0) & (copied > tally.captured);
    let is_right = tally.is_right & are_accounted(tally, ledger.lost(), cache.stats(rt));
    Ok(is_within & is_empty & are_copies & is_right)
}

// The same, with a ledger of its own, which outlives the cache.
fn all_are_accounted<R: Threads + Wait + Sync>(rt: &R, alloc: Global) -> Result<bool, AllocError> {
    let ledger = Ledger::none();
    all_come_out(rt, alloc, &ledger)
}

#[test]
fn each_value_comes_out_once(rt: HostRuntime) -> Result<(), Fail> {
    assert!(rt; all_are_accounted(&rt, rt.alloc())?);
    Ok(())
}
