//! A weight at the limit, the cap of one shard of two, and why calls are refused.
use crate::callbacks::{Quiet, quiet_order};
use lru_actors::key::hash_key;
use lru_async::async_lru::AsyncLru;
use lru_async::refusals::SendRefused;
use std::alloc::Global;
use std::sync::{Arc, Wait};
use std::test::Fail;

// Two rows that weigh the limit and are as many as the watermark: whether they stand there, whether a limit is passed, and
// how many are evicted.
fn fills<R: Wait>(rt: &R, lru: &AsyncLru<u64, 1>) -> (bool, bool, usize) {
    let sent = lru.admit(rt, 1, 10).is_ok() && lru.admit(rt, 2, 10).is_ok();
    let weighs = matches!(lru.shard_weight(rt, 0), Ok(Some(20)));
    lru.trigger_eviction(rt);
    (sent && weighs, lru.over_limit(), lru.evicted_len())
}

#[test]
fn what_is_at_the_limits_stays(rt: HostRuntime) -> Result<(), Fail> {
    let alloc: Global = rt.alloc();
    let quiet = Arc::new(alloc, Quiet)?;
    let Ok(lru) = AsyncLru::<u64, 1>::builder(alloc, 20, quiet)
        .len_watermark(2)
        .build(rt)
    else {
        panic!(rt; "no threads");
    };
    let found = fills(&rt, &lru);
    lru.close(&rt);
    assert_eq!(rt; found, (true, false, 0));
    Ok(())
}

// The weight that a row is given that fills its shard, and then one more; and how many messages the shard refused.
fn overfills<R: Wait>(rt: &R, lru: &AsyncLru<u64, 2>) -> (Option<usize>, Option<usize>, u64) {
    let Ok(shard) = lru.admit(rt, 1, usize::MAX / 2) else {
        return (None, None, 0);
    };
    let full = lru.shard_weight(rt, shard).unwrap_or(None);
    let _sent = lru.admit(rt, 1, usize::MAX / 2 + 1);
    let after = lru.shard_weight(rt, shard).unwrap_or(None);
    (full, after, lru.refused_messages(shard))
}

#[test]
fn one_shard_of_two_has_half_of_the_weight(rt: HostRuntime) -> Result<(), Fail> {
    let lru = quiet_order::<u64, 2, _>(rt, rt.alloc(), usize::MAX)?;
    let half = Some(usize::MAX / 2);
    let found = overfills(&rt, &lru);
    lru.close(&rt);
    assert_eq!(rt; found, (half, half, 1));
    Ok(())
}

// The number of a refusal; 0 of none.
fn number<T: Drop, H: Drop>(answer: Result<T, SendRefused<H>>) -> u8 {
    match answer {
        Ok(_) => 0,
        Err(refused) => refused.number(),
    }
}

// Why each call is refused after a shutdown. Key 1 has a row.
fn causes<R: Wait>(rt: &R, lru: &AsyncLru<u64, 1>) -> [u8; 9] {
    [
        number(lru.admit(rt, 7, 1)),
        number(lru.insert_tail(rt, 8, 1)),
        number(lru.promote(rt, &1)),
        number(lru.remove(rt, &1)),
        number(lru.remove_by_hash(rt, hash_key(&1u64))),
        number(lru.increment_weight(rt, &1, 1, None)),
        number(lru.peek_lru(rt, 0)),
        number(lru.snapshot_shard(rt, 0)),
        number(lru.shard_weight(rt, 0)),
    ]
}

// Whether key 1 got a row, and why each call is refused after the shutdown that follows.
fn shut_with_a_row<R: Wait>(rt: &R, lru: &AsyncLru<u64, 1>) -> (bool, [u8; 9]) {
    let sent = lru.admit(rt, 1, 1).is_ok();
    let weighs = matches!(lru.shard_weight(rt, 0), Ok(Some(1)));
    lru.shutdown(rt);
    (sent && weighs, causes(rt, lru))
}

#[test]
fn a_shut_order_refuses_as_closed(rt: HostRuntime) -> Result<(), Fail> {
    let lru = quiet_order::<u64, 1, _>(rt, rt.alloc(), 20)?;
    let found = shut_with_a_row(&rt, &lru);
    lru.close(&rt);
    assert_eq!(rt; found, (true, [2; 9]));
    Ok(())
}

// How many of 50 sends to an open order were refused otherwise than for want of memory.
fn unfair<R: Wait>(rt: &R, lru: &AsyncLru<u64, 1>) -> u64 {
    let mut unfair = 0u64;
    for key in 0..50u64 {
        if number(lru.admit(rt, key, 1)) > 1 {
            unfair = unfair.wrapping_add(1);
        }
    }
    unfair
}

// With memory to be had this says little; `rt try --test --fail-alloc N` refuses each request in turn. Where no order could be
// built there is none to ask.
#[test]
fn an_open_order_refuses_for_want_of_memory_alone(rt: HostRuntime) -> Result<(), Fail> {
    let alloc: Global = rt.alloc();
    let quiet = Arc::new(alloc, Quiet)?;
    let Ok(lru) = AsyncLru::<u64, 1>::builder(alloc, 1000, quiet).build(rt) else {
        return Ok(());
    };
    let found = (unfair(&rt, &lru), number(lru.shard_weight(&rt, 0)) <= 1);
    lru.close(&rt);
    assert_eq!(rt; found, (0, true));
    Ok(())
}
