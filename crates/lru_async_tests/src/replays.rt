//! Drawn sends answer and leave what the shards' own steps do.
use crate::callbacks::quiet_order;
use lru_actors::key::hash_key;
use lru_actors::message::LruMsg;
use lru_actors::state::ShardState;
use lru_async::async_lru::AsyncLru;
use rand::RngExt;
use rand::rngs::StdRng;
use rand_core::SeedableRng;
use std::alloc::{AllocError, Global};
use std::sync::Wait;
use std::test::Fail;
use std::thread::Threads;

// Lets a shard of one owner serve a message.
fn step(plain: &mut Vec<ShardState<u64>>, shard: usize, msg: LruMsg<u64>) {
    if let Some(state) = plain.get_mut(shard) {
        let _effect = state.step(msg);
    }
}

// The weight of a row, by its hash.
fn weight_in(plain: &Vec<ShardState<u64>>, shard: usize, hash: u64) -> Option<usize> {
    let state = plain.get(shard)?;
    for (found, _, weight) in state.iter() {
        if found == hash {
            return Some(weight);
        }
    }
    None
}

// Whether a shard's snapshot is the rows of the plain one.
fn is_same_shard<R: Wait>(
    rt: &R,
    lru: &AsyncLru<u64, 2>,
    shard: usize,
    state: &ShardState<u64>,
) -> bool {
    let Ok(Some(rows)) = lru.snapshot_shard(rt, shard) else {
        return false;
    };
    if rows.len() != state.len() {
        return false;
    }
    for ((key, weight), (_, same_key, same_weight)) in rows.iter().zip(state.iter()) {
        if *key != *same_key || *weight != same_weight {
            return false;
        }
    }
    shard >= 2 || lru.shard_len(shard) == state.len()
}

// Whether all that is read is as the plain shards have it.
fn is_same<R: Wait>(rt: &R, lru: &AsyncLru<u64, 2>, plain: &Vec<ShardState<u64>>) -> bool {
    let mut weight = 0usize;
    let mut len = 0usize;
    for (shard, state) in plain.iter().enumerate() {
        if !is_same_shard(rt, lru, shard, state) {
            return false;
        }
        weight = weight.wrapping_add(state.used_weight());
        len = len.wrapping_add(state.len());
    }
    for key in 0..8u64 {
        let hash = hash_key(&key);
        if lru.peek_weight(rt, &key) != weight_in(plain, (hash % 2) as usize, hash) {
            return false;
        }
    }
    lru.weight() == weight && lru.len() == len
}

// One drawn send, and whether its answer is right.
fn send<R: Wait>(
    rt: &R,
    lru: &AsyncLru<u64, 2>,
    plain: &mut Vec<ShardState<u64>>,
    rng: &mut StdRng,
) -> bool {
    let key = rng.random_range(0..8u64);
    let weight = rng.random_range(0..6usize);
    let hash = hash_key(&key);
    let shard = (hash % 2) as usize;
    match rng.random_range(0..7u8) {
        0 => {
            step(plain, shard, LruMsg::Admit { hash, key, weight });
            lru.admit(rt, key, weight).is_ok_and(|found| found == shard)
        }
        1 => {
            step(plain, shard, LruMsg::InsertTail { hash, key, weight });
            lru.insert_tail(rt, key, weight)
                .is_ok_and(|found| found == shard)
        }
        2 => {
            let held = weight_in(plain, shard, hash).is_some();
            step(plain, shard, LruMsg::Promote { hash });
            lru.promote(rt, &key).is_ok_and(|found| found == held)
        }
        3 => {
            step(plain, shard, LruMsg::Remove { hash });
            lru.remove(rt, &key).is_ok()
        }
        4 => {
            step(plain, shard, LruMsg::Remove { hash });
            lru.remove_by_hash(rt, hash).is_ok()
        }
        kind => {
            let max_weight = if kind == 5 { Some(7) } else { None };
            let msg = LruMsg::IncrementWeight {
                hash,
                key,
                delta: weight,
                max_weight,
            };
            step(plain, shard, msg);
            lru.increment_weight(rt, &key, weight, max_weight).is_ok()
        }
    }
}

// How many of the drawn sends were right, with all that is read after each.
fn replayed<R: Wait>(
    rt: &R,
    alloc: Global,
    lru: &AsyncLru<u64, 2>,
    seed: u64,
) -> Result<usize, AllocError> {
    let mut plain = Vec::new(alloc);
    for _ in 0..2u8 {
        plain.push(ShardState::with_capacity(alloc, 0, usize::MAX / 2)?)?;
    }
    let mut rng = StdRng::seed_from_u64(seed);
    let mut right = 0usize;
    for _ in 0..300u32 {
        if send(rt, lru, &mut plain, &mut rng) && is_same(rt, lru, &plain) {
            right = right.wrapping_add(1);
        }
    }
    Ok(right)
}

// How many of the drawn sends of a seed, to an order of their own, were right.
fn right_of<R: Threads + Wait + Copy + Send + 'static>(
    rt: R,
    alloc: Global,
    seed: u64,
) -> Result<usize, Fail> {
    let lru = quiet_order::<u64, 2, _>(rt, alloc, usize::MAX)?;
    let right = replayed(&rt, alloc, &lru, seed);
    lru.close(&rt);
    Ok(right?)
}

#[test]
fn drawn_sends_are_the_shards_steps(rt: HostRuntime) -> Result<(), Fail> {
    for seed in 0..20u64 {
        assert_eq!(rt; right_of(rt, rt.alloc(), seed)?, 300);
    }
    Ok(())
}
