//! The row of one caller over a limit of 1, and then updates and admissions by closures.
ghost use Rattle.std.specs.Prelude.{◌≡◌};

use lru_recording::recorded::{Blank, Names, Recorded, RecordedLru, Registry, Seat};
use lru_shard::unit::{Cause, Refused};
use rand::rngs::StdRng;
use rand_core::SeedableRng;
use std::alloc::{AllocError, Global};
use std::io;
use std::io::Write;
use std::marker::Brand;
use std::sync::Wait;
use std::sync::atomic::{AtomicBool, Ordering};

// Each call is made again where it found no memory, handed back what it was given, and left no receipt.
fn admit<B: Registry, R: Wait>(
    rt: &R,
    lru: &RecordedLru<u64, B, 1>,
    seat: &mut Seat<B>,
    key: u64,
    data: u64,
) -> Result<usize, Refused<u64>> {
    let before = seat.receipts().len();
    match lru.admit(rt, seat, key, data, 1) {
        Err(refused)
            if refused.cause == Cause::Memory
                && refused.held == data
                && before == seat.receipts().len() => { lru.admit(rt, seat, key, data, 1) }
        answer => answer,
    }
}

fn peek_weight<B: Registry, R: Wait>(
    rt: &R,
    lru: &RecordedLru<u64, B, 1>,
    seat: &mut Seat<B>,
    key: u64,
) -> Result<Option<usize>, AllocError> {
    let before = seat.receipts().len();
    match lru.peek_weight(rt, seat, key) {
        Err(_) if before == seat.receipts().len() => lru.peek_weight(rt, seat, key),
        answer => answer,
    }
}

fn set_weight<B: Registry, R: Wait>(
    rt: &R,
    lru: &RecordedLru<u64, B, 1>,
    seat: &mut Seat<B>,
    key: u64,
    weight: usize,
) -> Result<Option<usize>, Cause> {
    let before = seat.receipts().len();
    match lru.set_weight(rt, seat, key, weight) {
        Err(Cause::Memory) if before == seat.receipts().len() => {
            lru.set_weight(rt, seat, key, weight)
        }
        answer => answer,
    }
}

// One row leaves: a call that found no memory and left no receipt evicted nothing.
fn evict<B: Registry, R: Wait, W: Write>(
    rt: &R,
    alloc: Global,
    lru: &RecordedLru<u64, B, 1>,
    seat: &mut Seat<B>,
    out: &mut W,
) -> io::Result<()> {
    let mut draws = StdRng::seed_from_u64(0);
    let before = seat.receipts().len();
    let mut answer = lru.evict_to_limit(rt, alloc, seat, &mut draws);
    if answer.is_err() && before == seat.receipts().len() {
        answer = lru.evict_to_limit(rt, alloc, seat, &mut draws);
    }
    match answer {
        Ok(pairs) => {
            for (data, weight) in pairs.iter() {
                writeln!(out, "evicted {data} {weight}")?;
            }
            Ok(())
        }
        Err(_stopped) => writeln!(out, "evicted too little"),
    }
}

// A present key gets the data and the weight, a missing one too.
fn given<B: Registry, R: Wait>(
    rt: &R,
    lru: &RecordedLru<u64, B, 1>,
    seat: &mut Seat<B>,
    key: u64,
    data: u64,
    weight: usize,
    called: &AtomicBool,
) -> Result<Option<usize>, Refused<Option<(u64, usize)>>> {
    lru.update_or_admit(
        rt,
        seat,
        key,
        |old: &mut u64, _: usize| {
            called.store(true, Ordering::SeqCst);
            *old = data;
            weight
        },
        || {
            called.store(true, Ordering::SeqCst);
            (data, weight)
        },
    )
}

// The answer, and whether a closure was called.
fn update<B: Registry, R: Wait>(
    rt: &R,
    lru: &RecordedLru<u64, B, 1>,
    seat: &mut Seat<B>,
    key: u64,
    data: u64,
    weight: usize,
) -> (Result<Option<usize>, Refused<Option<(u64, usize)>>>, bool) {
    let called = AtomicBool::new(false);
    let before = seat.receipts().len();
    let answer = match given(rt, lru, seat, key, data, weight, &called) {
        Err(refused)
            if refused.cause == Cause::Memory
                && !called.load(Ordering::SeqCst)
                && before == seat.receipts().len() => {
            given(rt, lru, seat, key, data, weight, &called)
        }
        answer => answer,
    };
    (answer, called.load(Ordering::SeqCst))
}

fn calls<B: Registry, R: Wait, W: Write>(
    rt: &R,
    alloc: Global,
    lru: &RecordedLru<u64, B, 1>,
    seat: &mut Seat<B>,
    out: &mut W,
) -> io::Result<()> {
    for (key, data) in [(1, 11), (2, 22u64)] {
        let answer = admit(rt, lru, seat, key, data);
        writeln!(out, "admit {key} {answer:?}")?;
    }
    let answer = peek_weight(rt, lru, seat, 1);
    writeln!(out, "peek_weight 1 {answer:?}")?;
    evict(rt, alloc, lru, seat, out)?;
    let answer = set_weight(rt, lru, seat, 2, 5);
    writeln!(out, "set_weight 2 {answer:?}")?;
    for (key, data, weight) in [
        (2, 23, 6),
        (3, 33, 0),
        (4, 44, usize::MAX),
        (3, 34, usize::MAX),
    ] {
        let answer = update(rt, lru, seat, key, data, weight);
        writeln!(out, "update {key} {answer:?}")?;
    }
    for key in 5..14u64 {
        let answer = admit(rt, lru, seat, key, key);
        writeln!(out, "admit {key} {answer:?}")?;
    }
    Ok(())
}

fn write_recorded<B: Registry, W: Write>(
    recorded: &Recorded<u64, B, 1>,
    out: &mut W,
) -> io::Result<()> {
    for unit in &recorded.units {
        for (data, weight) in unit.iter() {
            writeln!(out, "row {data} {weight}")?;
        }
    }
    for history in &recorded.histories {
        for entry in history {
            writeln!(out, "{entry:?}")?;
        }
    }
    for seat in &recorded.seats {
        for receipt in seat.receipts() {
            let (shard, place) = (receipt.shard, receipt.place);
            writeln!(out, "receipt of shard {shard} place {place}")?;
        }
    }
    Ok(())
}

// Ends the run; the seats' room takes the seat back.
fn end<B: Registry, W: Write>(
    lru: RecordedLru<u64, B, 1>,
    room: Vec<Seat<B>>,
    seat: Seat<B>,
    out: &mut W,
) -> io::Result<()>
    requires { B.seats ≡ 1 }
{
    let mut seats = room;
    seats.clear();
    if seat.number != 0 || seats.push(seat).is_err() {
        return writeln!(out, "no seat");
    }
    write_recorded(&lru.finish(seats), out)
}

fn run<B: Registry, R: Wait, W: Write>(
    rt: &R,
    alloc: Global,
    blank: Blank,
    out: &mut W,
) -> Result<io::Result<()>, AllocError>
    requires blank { (blank.tie.table.shared.table_id ≡ B.table) × (blank.tie.table.shared.key ≡ record { shards = 1; seats = 1 }) }
    requires callers { B.seats ≡ 1 }
{
    // There is room for eight rows, and more come.
    let (lru, mut seats) = RecordedLru::<u64, B, 1>::new(alloc, blank, 1, 8, None, 1)?;
    let Some(mut seat) = seats.pop() else {
        return Ok(writeln!(out, "no seat"));
    };
    if let Err(error) = calls(rt, alloc, &lru, &mut seat, out) {
        return Ok(Err(error));
    }
    Ok(end(lru, seats, seat, out))
}

// Nothing is written where an order cannot be made.
fn made<R: Wait, W: Write>(
    rt: &R,
    alloc: Global,
    out: &mut W,
) -> Result<io::Result<()>, AllocError> {
    let blank = Blank::new(
        alloc,
        Names {
            shards: 1,
            seats: 1,
        },
    )?;
    run::<Brand, R, W>(rt, alloc, blank, out)
}

pub fn script<R: Wait, W: Write>(rt: &R, alloc: Global, out: &mut W) -> io::Result<()> {
    match made(rt, alloc, out) {
        Ok(written) => written,
        Err(_) => made(rt, alloc, out)?,
    }
}
