//! Each call by its effect on one shard.
use crate::callbacks::quiet_order;
use lru_async::async_lru::AsyncLru;
use std::sync::Wait;
use std::test::Fail;

// The rows of shard 0, and what the map has for key 1.
fn shown<R: Wait>(rt: &R, lru: &AsyncLru<u64, 1>) -> Option<(Vec<(u64, usize)>, Option<usize>)> {
    match lru.snapshot_shard(rt, 0) {
        Ok(Some(rows)) => Some((rows, lru.peek_weight(rt, &1))),
        _ => None,
    }
}

// Whether the rows of shard 0 and the weight of key 1 are these.
fn shows<R: Wait>(
    rt: &R,
    lru: &AsyncLru<u64, 1>,
    rows: &[(u64, usize)],
    weight: Option<usize>,
) -> bool {
    match shown(rt, lru) {
        Some((found, weight_found)) => found.as_slice() == rows && weight_found == weight,
        None => false,
    }
}

// Which of the sends, one after the other, had its effect.
fn sends<R: Wait>(rt: &R, lru: &AsyncLru<u64, 1>) -> [bool; 8] {
    [
        matches!(lru.admit(rt, 1, 5), Ok(0)) && shows(rt, lru, &[(1, 5)], Some(5)),
        matches!(lru.admit(rt, 2, 0), Ok(0)) && shows(rt, lru, &[(2, 1), (1, 5)], Some(5)),
        matches!(lru.insert_tail(rt, 3, 7), Ok(0))
            && shows(rt, lru, &[(2, 1), (1, 5), (3, 7)], Some(5)),
        matches!(lru.promote(rt, &3), Ok(true))
            && shows(rt, lru, &[(3, 7), (2, 1), (1, 5)], Some(5)),
        matches!(lru.promote(rt, &4), Ok(false))
            && shows(rt, lru, &[(3, 7), (2, 1), (1, 5)], Some(5)),
        lru.increment_weight(rt, &1, 4, None).is_ok()
            && shows(rt, lru, &[(1, 9), (3, 7), (2, 1)], Some(9)),
        lru.remove(rt, &3).is_ok() && shows(rt, lru, &[(1, 9), (2, 1)], Some(9)),
        lru.remove_by_hash(rt, lru_actors::key::hash_key(&1u64))
            .is_ok()
            && shows(rt, lru, &[(2, 1)], None),
    ]
}

// What is read of a shard with the row 2 of weight 1.
fn reads<R: Wait>(rt: &R, lru: &AsyncLru<u64, 1>) -> [bool; 8] {
    [
        matches!(lru.peek_lru(rt, 0), Ok(Some((2, 1)))),
        matches!(lru.peek_lru(rt, 1), Ok(None)),
        matches!(lru.snapshot_shard(rt, 1), Ok(None)),
        matches!(lru.shard_weight(rt, 1), Ok(None)),
        lru.peek(rt, &2) && !lru.peek(rt, &1),
        lru.shards() == 1 && lru.shard_len(0) == 1 && lru.len() == 1 && !lru.is_empty(),
        lru.weight() == 1 && lru.weight_limit() == 1000 && !lru.over_limit(),
        lru.evicted_len() == 0 && lru.evicted_weight() == 0 && lru.lost_pairs(rt) == 0,
    ]
}

#[test]
fn sends_have_their_effects(rt: HostRuntime) -> Result<(), Fail> {
    let lru = quiet_order::<u64, 1, _>(rt, rt.alloc(), 1000)?;
    let found = (sends(&rt, &lru), reads(&rt, &lru));
    lru.close(&rt);
    assert_eq!(rt; found, ([true; 8], [true; 8]));
    Ok(())
}
