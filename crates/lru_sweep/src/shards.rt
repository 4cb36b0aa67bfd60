//! Calls of one shard under a cap of 10, refusals among them.
use crate::made;
use lru_shard::unit::{Cause, LruUnit, Refused, RefusedUpdate};
use std::alloc::{AllocError, Global};
use std::io;
use std::io::Write;

// The first eight rows, as data and weight, and the two sums.
type Shown = ([(u64, usize); 8], usize, usize);

fn shown(unit: &LruUnit<u64>) -> Shown {
    let mut rows = [(u64::MAX, 0); 8];
    for (slot, (data, weight)) in rows.iter_mut().zip(unit.iter()) {
        *slot = (*data, weight);
    }
    (rows, unit.len(), unit.used_weight())
}

fn admit(
    unit: &mut LruUnit<u64>,
    key: u64,
    data: u64,
    weight: usize,
) -> Result<usize, Refused<u64>> {
    let before = shown(unit);
    match unit.admit(key, data, weight) {
        Err(refused)
            if refused.cause == Cause::Memory && refused.held == data && before == shown(unit) => {
            unit.admit(key, data, weight)
        }
        answer => answer,
    }
}

fn insert_tail(unit: &mut LruUnit<u64>, key: u64, weight: usize) -> Result<bool, Refused<u64>> {
    let before = shown(unit);
    match unit.insert_tail(key, key, weight) {
        Err(refused)
            if refused.cause == Cause::Memory && refused.held == key && before == shown(unit) => {
            unit.insert_tail(key, key, weight)
        }
        answer => answer,
    }
}

// The answer, and whether the data was made.
fn increment(
    unit: &mut LruUnit<u64>,
    key: u64,
    delta: usize,
    most: Option<usize>,
) -> (Result<(usize, usize, bool), Cause>, bool) {
    let before = shown(unit);
    let mut called = false;
    let answer = unit.increment_weight(
        key,
        || {
            called = true;
            key
        },
        delta,
        most,
    );
    if answer == Err(Cause::Memory) && !called && before == shown(unit) {
        let again = unit.increment_weight(
            key,
            || {
                called = true;
                key
            },
            delta,
            most,
        );
        return (again, called);
    }
    (answer, called)
}

// A present key gets the data and the weight, a missing one too; with the answer, whether a new row was made.
fn update(
    unit: &mut LruUnit<u64>,
    key: u64,
    data: u64,
    weight: usize,
) -> (Result<(Option<usize>, usize), RefusedUpdate<u64>>, bool) {
    let before = shown(unit);
    let mut called = false;
    let answer = given(unit, key, data, weight, &mut called);
    match answer {
        Err(refused) if refused.cause == Cause::Memory && !called && before == shown(unit) => {
            let again = given(unit, key, data, weight, &mut called);
            (again, called)
        }
        answer => (answer, called),
    }
}

fn given(
    unit: &mut LruUnit<u64>,
    key: u64,
    data: u64,
    weight: usize,
    called: &mut bool,
) -> Result<(Option<usize>, usize), RefusedUpdate<u64>> {
    unit.update_or_admit(
        key,
        |old: &mut u64, _: usize| {
            *old = data;
            weight
        },
        || {
            *called = true;
            (data, weight)
        },
    )
}

fn write_shown<W: Write>(unit: &LruUnit<u64>, writer: &mut W) -> io::Result<()> {
    let (rows, len, weight) = shown(unit);
    let rows = &rows[..len.min(8)];
    writeln!(writer, "{len} rows of weight {weight}: {rows:?}")
}

fn admissions<W: Write>(unit: &mut LruUnit<u64>, writer: &mut W) -> io::Result<()> {
    for (key, data, weight) in [(1, 11, 6), (2, 22, 5), (1, 13, 3), (2, 22, 2)] {
        let answer = admit(unit, key, data, weight);
        writeln!(writer, "admit {key} {answer:?}")?;
    }
    for (key, weight) in [(3, 0), (4, 6), (1, 9)] {
        let answer = insert_tail(unit, key, weight);
        writeln!(writer, "tail {key} {answer:?}")?;
    }
    write_shown(unit, writer)
}

fn changes<W: Write>(unit: &mut LruUnit<u64>, writer: &mut W) -> io::Result<()> {
    for (key, delta, most) in [
        (1, 1, None),
        (5, 4, Some(0)),
        (6, 9, None),
        (1, 9, Some(2)),
        (1, 9, None),
    ] {
        let answer = increment(unit, key, delta, most);
        writeln!(writer, "increment {key} {answer:?}")?;
    }
    for (key, data, weight) in [(2, 23, 0), (7, 77, 0), (8, 88, 11), (7, 78, 11)] {
        let answer = update(unit, key, data, weight);
        writeln!(writer, "update {key} {answer:?}")?;
    }
    write_shown(unit, writer)
}

// A shard with no room for a row more refuses before any data are made.
fn refusals<W: Write>(unit: &mut LruUnit<u64>, writer: &mut W) -> io::Result<()> {
    for key in [1, 2, 1u64] {
        let answer = insert_tail(unit, key, 0);
        writeln!(writer, "tail {key} {answer:?}")?;
    }
    let answer = increment(unit, 2, 1, None);
    writeln!(writer, "increment 2 {answer:?}")?;
    let answer = update(unit, 2, 2, 1);
    writeln!(writer, "update 2 {answer:?}")
}

// Once room was made for them, new rows ask for nothing: one that is refused is counted.
fn reserved<W: Write>(unit: &mut LruUnit<u64>, writer: &mut W) -> io::Result<()> {
    let mut refused = 0u32;
    for key in 100..200u64 {
        if unit.insert_tail(key, key, 0).is_err() {
            refused = refused.saturating_add(1);
        }
    }
    writeln!(writer, "of a hundred rows with room {refused} refused")
}

fn room_made<W: Write>(unit: &mut LruUnit<u64>, writer: &mut W) -> io::Result<()> {
    if unit.reserve(100).is_err() {
        unit.reserve(100)?;
    }
    reserved(unit, writer)
}

fn calls<W: Write>(unit: &mut LruUnit<u64>, writer: &mut W) -> io::Result<()> {
    admissions(unit, writer)?;
    changes(unit, writer)
}

// An empty shard with a cap. (A function that makes one has one way out behind that: each drops the shard, and its
// proof grows with them.)
fn unit(alloc: Global, capacity: usize, cap: usize) -> Result<LruUnit<u64>, AllocError> {
    made(alloc, |alloc| LruUnit::with_capacity(alloc, capacity, cap))
}

fn under_a_cap<W: Write>(alloc: Global, writer: &mut W) -> io::Result<()> {
    calls(&mut unit(alloc, 0, 10)?, writer)
}

fn full<W: Write>(alloc: Global, writer: &mut W) -> io::Result<()> {
    refusals(&mut unit(alloc, 0, 1)?, writer)
}

fn roomy<W: Write>(alloc: Global, writer: &mut W) -> io::Result<()> {
    reserved(&mut unit(alloc, 100, 1000)?, writer)
}

fn late<W: Write>(alloc: Global, writer: &mut W) -> io::Result<()> {
    room_made(&mut unit(alloc, 0, 1000)?, writer)
}

pub fn script<W: Write>(alloc: Global, writer: &mut W) -> io::Result<()> {
    under_a_cap(alloc, writer)?;
    full(alloc, writer)?;
    roomy(alloc, writer)?;
    late(alloc, writer)
}
