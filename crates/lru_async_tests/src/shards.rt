//! Orders of several shards: each question is asked of the shard that it names, and the seed decides what is drawn.
use crate::callbacks::{Quiet, quiet_order};
use lru_actors::key::hash_key;
use lru_async::async_lru::AsyncLru;
use std::alloc::{AllocError, Global};
use std::sync::{Arc, Wait};
use std::test::Fail;
use std::thread::Threads;

// Admits keys 0 to 19, of weights 1 to 20. Whether each went to the shard of its hash.
fn fills<R: Wait>(rt: &R, lru: &AsyncLru<u64, 4>) -> bool {
    let mut filled = true;
    for key in 0..20u64 {
        let sent = lru.admit(rt, key, (key as usize).wrapping_add(1));
        filled &= matches!(sent, Ok(shard) if shard as u64 == hash_key(&key) % 4);
    }
    filled
}

// The rows of a shard then, the last one first.
fn rows_of(alloc: Global, shard: usize) -> Result<Vec<(u64, usize)>, AllocError> {
    let mut rows = Vec::new(alloc);
    for before in 0..20u64 {
        let key = 19u64.wrapping_sub(before);
        if hash_key(&key) % 4 == shard as u64 {
            rows.push((key, (key as usize).wrapping_add(1)))?;
        }
    }
    Ok(rows)
}

// Whether its weight, its length, its rows and the last one are told.
fn tells_of<R: Wait>(
    rt: &R,
    lru: &AsyncLru<u64, 4>,
    shard: usize,
    rows: &[(u64, usize)],
) -> [bool; 4] {
    let mut weight = 0usize;
    for row in rows {
        weight = weight.wrapping_add(row.1);
    }
    let is_weight = lru.shard_weight(rt, shard).unwrap_or(None) == Some(weight);
    let is_len = shard < 4 && lru.shard_len(shard) == rows.len();
    let are_rows = match lru.snapshot_shard(rt, shard) {
        Ok(Some(found)) => found.as_slice() == rows,
        _ => false,
    };
    let is_last = lru.peek_lru(rt, shard).unwrap_or(None) == rows.last().copied();
    [is_weight, is_len, are_rows, is_last]
}

// What is told of the four shards, none of which is empty.
fn told_of_all<R: Wait>(
    rt: &R,
    alloc: Global,
    lru: &AsyncLru<u64, 4>,
) -> Result<[[bool; 4]; 4], AllocError> {
    let mut told = [[false; 4]; 4];
    for (shard, answers) in told.iter_mut().enumerate() {
        let rows = rows_of(alloc, shard)?;
        if rows.len() > 1 {
            *answers = tells_of(rt, lru, shard, rows.as_slice());
        }
    }
    Ok(told)
}

#[test]
fn each_shard_tells_of_its_own_rows(rt: HostRuntime) -> Result<(), Fail> {
    let alloc: Global = rt.alloc();
    let lru = quiet_order::<u64, 4, _>(rt, alloc, 1000)?;
    let filled = fills(&rt, &lru);
    let told = told_of_all(&rt, alloc, &lru);
    lru.close(&rt);
    assert_eq!(rt; (filled, told?), (true, [[true; 4]; 4]));
    Ok(())
}

// How many rows each of four shards has once one of twenty is evicted, which an order of this seed draws.
fn left_by<R: Threads + Wait + Copy + Send + 'static>(
    rt: R,
    alloc: Global,
    seed: u64,
) -> Result<[usize; 4], Fail> {
    let quiet = Arc::new(alloc, Quiet)?;
    let Ok(lru) = AsyncLru::<u64, 4>::builder(alloc, 1000, quiet)
        .len_watermark(19)
        .seed(seed)
        .build(rt)
    else {
        return Err(Fail::from("no threads"));
    };
    for key in 0..20u64 {
        // a row that is put last asks for no eviction
        let _sent = lru.insert_tail(&rt, key, 1);
    }
    lru.wait_until_quiet(&rt);
    lru.trigger_eviction(&rt);
    lru.wait_until_quiet(&rt);
    let left = [
        lru.shard_len(0),
        lru.shard_len(1),
        lru.shard_len(2),
        lru.shard_len(3),
    ];
    lru.close(&rt);
    Ok(left)
}

#[test]
fn the_seed_decides_which_shard_gives_a_row(rt: HostRuntime) -> Result<(), Fail> {
    let alloc: Global = rt.alloc();
    let first = left_by(rt, alloc, 0)?;
    let mut others = 0u8;
    for seed in 1..17u64 {
        let left = left_by(rt, alloc, seed)?;
        if left != first {
            others = others.wrapping_add(1);
        }
        assert_eq!(rt; left, left_by(rt, alloc, seed)?);
    }
    assert!(rt; others > 0);
    Ok(())
}
