//! What only running threads show.
ghost use Rattle.std.specs.Prelude.{◌≡◌};

use crate::callbacks::{Counting, Holding, LOOKS, Meeting, Quiet, gated_order, is_raised};
use lru_async::async_lru::{AsyncLru, Closed};
use lru_boxes::{Blanks, BoxRegistry};
use lru_inbox::tie::Archive;
use lru_mailbox::Settled;
use std::alloc::Global;
use std::marker::Brand;
use std::sync::atomic::Ordering;
use std::sync::{Arc, Wait};
use std::test::Fail;
use std::thread;
use std::thread::Threads;

// More rows than are told of a shard at once anywhere.
const MANY: u64 = 5000;

// Whether so many keys that are admitted while the gate holds all stand there, the last one first.
fn keeps_all<R: Wait>(rt: &R, lru: &AsyncLru<u64, 1>, gate: &Holding) -> bool {
    for key in 0..MANY {
        if lru.admit(rt, key, 1).is_err() {
            return false;
        }
    }
    gate.open.store(true, Ordering::SeqCst);
    let Ok(Some(rows)) = lru.snapshot_shard(rt, 0) else {
        return false;
    };
    let mut expected = MANY;
    for (key, weight) in &rows {
        expected = expected.wrapping_sub(1);
        if *key != expected || *weight != 1 {
            return false;
        }
    }
    expected == 0
}

#[test]
fn a_batch_is_processed_whole(rt: HostRuntime) -> Result<(), Fail> {
    let gate = Arc::new(rt.alloc(), Holding::new(0))?;
    let lru = gated_order::<1, _>(rt, rt.alloc(), 1000, Arc::try_clone(&gate)?)?;
    let found = keeps_all(&rt, &lru, &*gate);
    lru.close(&rt);
    assert!(rt; found);
    Ok(())
}

// While the gate holds shard 0, shard 1 answers.
fn answers_beside<R: Threads + Wait + Sync>(
    rt: &R,
    lru: &AsyncLru<u64, 2>,
    gate: &Holding,
) -> (bool, bool) {
    thread::join(
        rt,
        || matches!(lru.shard_weight(rt, 0), Ok(Some(0))),
        || {
            let held = is_raised(&gate.held);
            let answer = lru.shard_weight(rt, 1);
            gate.open.store(true, Ordering::SeqCst);
            held && matches!(answer, Ok(Some(0)))
        },
    )
}

#[test]
fn a_held_shard_holds_up_no_other(rt: HostRuntime) -> Result<(), Fail> {
    let gate = Arc::new(rt.alloc(), Holding::new(0))?;
    let lru = gated_order::<2, _>(rt, rt.alloc(), 1000, Arc::try_clone(&gate)?)?;
    let found = answers_beside(&rt, &lru, &*gate);
    lru.close(&rt);
    assert_eq!(rt;
        (found, gate.saw.load(Ordering::SeqCst)),
        ((true, true), true)
    );
    Ok(())
}

// Admits keys 1, 2 and 3 with weight 10, and waits until nothing is under way. Whether one was evicted then.
fn fills<B: BoxRegistry + Archive, R: Wait>(rt: &R, lru: &AsyncLru<u64, 1, B>) -> bool {
    for key in 1..4u64 {
        if lru.admit(rt, key, 10).is_err() {
            return false;
        }
    }
    lru.wait_until_quiet(rt);
    lru.evicted_len() == 1 && lru.weight() == 20
}

#[test]
fn evicted_pairs_are_called(rt: HostRuntime) -> Result<(), Fail> {
    let alloc: Global = rt.alloc();
    let counting = Arc::new(alloc, Counting::new())?;
    let Ok(lru) = AsyncLru::<u64, 1>::builder(alloc, 20, Arc::try_clone(&counting)?).build(rt)
    else {
        panic!(rt; "no threads");
    };
    let filled = fills(&rt, &lru);
    let closed = Closed {
        weight: 20,
        len: 2,
        evicted_weight: 10,
        evicted_len: 1,
        lost_pairs: 0,
    };
    let found = (filled, lru.close(&rt));
    assert_eq!(rt; (found, counting.counts()), ((true, closed), [1, 0, 0, 0]));
    Ok(())
}

#[test]
fn too_many_rows_are_evicted(rt: HostRuntime) -> Result<(), Fail> {
    let alloc: Global = rt.alloc();
    let quiet = Arc::new(alloc, Quiet)?;
    let Ok(lru) = AsyncLru::<u64, 1>::builder(alloc, 1000, quiet)
        .len_watermark(2)
        .build(rt)
    else {
        panic!(rt; "no threads");
    };
    let filled = fills(&rt, &lru);
    assert_eq!(rt; (filled, lru.close(&rt).len), (true, 2));
    Ok(())
}

// Puts two keys last, which triggers nothing, and then triggers evictions.
fn evicts_two<R: Wait>(rt: &R, lru: &AsyncLru<u64, 1>) -> bool {
    let put = lru.insert_tail(rt, 1, 1).is_ok() && lru.insert_tail(rt, 2, 1).is_ok();
    let weighs = matches!(lru.shard_weight(rt, 0), Ok(Some(2)));
    let none = lru.evicted_len() == 0;
    lru.trigger_eviction(rt);
    lru.wait_until_quiet(rt);
    put && weighs && none && lru.evicted_len() == 2
}

#[test]
fn two_callbacks_are_called_at_once(rt: HostRuntime) -> Result<(), Fail> {
    let alloc: Global = rt.alloc();
    let meeting = Arc::new(alloc, Meeting::new())?;
    let Ok(lru) = AsyncLru::<u64, 1>::builder(alloc, 0, Arc::try_clone(&meeting)?)
        .num_callback_workers(2)
        .build(rt)
    else {
        panic!(rt; "no threads");
    };
    let evicted = evicts_two(&rt, &lru);
    lru.close(&rt);
    assert!(rt; evicted && meeting.met.load(Ordering::SeqCst) == 2);
    Ok(())
}

// Shuts down while the limit is passed and the gate holds the first eviction. One row stays, so that it is passed to the
// end and the worker has to look at the stop.
fn shuts<R: Wait>(rt: &R, lru: &AsyncLru<u64, 1>, gate: &Holding) -> [bool; 4] {
    let sent = lru.insert_tail(rt, 1, 10).is_ok() && lru.insert_tail(rt, 2, 10).is_ok();
    lru.wait_until_quiet(rt);
    let put = lru.weight() == 20;
    lru.trigger_eviction(rt);
    let held = is_raised(&gate.held);
    let over = lru.over_limit() && lru.evicted_len() == 0;
    lru.shutdown(rt);
    gate.open.store(true, Ordering::SeqCst);
    [sent, put, held, over]
}

#[test]
fn close_returns_while_a_limit_is_passed(rt: HostRuntime) -> Result<(), Fail> {
    let gate = Arc::new(rt.alloc(), Holding::new(2))?;
    let lru = gated_order::<1, _>(rt, rt.alloc(), 0, Arc::try_clone(&gate)?)?;
    let found = shuts(&rt, &lru, &*gate);
    lru.close(&rt);
    assert_eq!(rt; (found, gate.saw.load(Ordering::SeqCst)), ([true; 4], true));
    Ok(())
}

// Closes an order while the gate holds its first eviction, which goes on after that.
fn closes_beside<R: Threads + Wait + Sync>(
    rt: &R,
    lru: AsyncLru<u64, 1>,
    gate: &Holding,
) -> Option<Closed> {
    let sent = lru.insert_tail(rt, 1, 10).is_ok() && lru.insert_tail(rt, 2, 10).is_ok();
    lru.wait_until_quiet(rt);
    lru.trigger_eviction(rt);
    if !sent || !is_raised(&gate.held) {
        return None;
    }
    let (closed, _) = thread::join(
        rt,
        || lru.close(rt),
        || {
            // long enough for the close to begin
            for _ in 0..20_000u32 {
                thread::yield_now();
            }
            gate.open.store(true, Ordering::SeqCst);
        },
    );
    Some(closed)
}

#[test]
fn what_is_evicted_in_a_close_is_called(rt: HostRuntime) -> Result<(), Fail> {
    let alloc: Global = rt.alloc();
    let counting = Arc::new(alloc, Counting::new())?;
    let gate = Arc::new(alloc, Holding::new(2))?;
    let theirs = Arc::try_clone(&counting)?;
    let builder = AsyncLru::<u64, 1>::builder_with_gate(alloc, 0, theirs, Arc::try_clone(&gate)?);
    let Ok(lru) = builder.build(rt) else {
        panic!(rt; "no threads");
    };
    let closed = Closed {
        weight: 10,
        len: 1,
        evicted_weight: 10,
        evicted_len: 1,
        lost_pairs: 0,
    };
    let found = closes_beside(&rt, lru, &*gate);
    assert_eq!(rt; (found, counting.counts()), (Some(closed), [0, 1, 0, 0]));
    Ok(())
}

#[test]
fn pairs_are_lost_once_the_receiver_left(rt: HostRuntime) -> Result<(), Fail> {
    let alloc: Global = rt.alloc();
    let quiet = Arc::new(alloc, Quiet)?;
    let Ok((lru, receiver)) = AsyncLru::<u64, 1>::builder(alloc, 0, quiet)
        .num_callback_workers(0)
        .build_with_eviction_receiver(rt)
    else {
        panic!(rt; "no threads");
    };
    receiver.leave(&rt);
    let sent = lru.admit(&rt, 1, 1).is_ok();
    lru.wait_until_quiet(&rt);
    let closed = Closed {
        weight: 0,
        len: 0,
        evicted_weight: 1,
        evicted_len: 1,
        lost_pairs: 1,
    };
    let lost = lru.lost_pairs(&rt);
    let found = lru.close(&rt);
    assert_eq!(rt; (sent, lost, found), (true, 1, closed));
    Ok(())
}

#[test]
fn a_receiver_gets_the_evicted_pairs(rt: HostRuntime) -> Result<(), Fail> {
    let alloc: Global = rt.alloc();
    let quiet = Arc::new(alloc, Quiet)?;
    let Ok((lru, receiver)) = AsyncLru::<u64, 1>::builder(alloc, 20, quiet)
        .num_callback_workers(0)
        .build_with_eviction_receiver(rt)
    else {
        panic!(rt; "no threads");
    };
    let filled = fills(&rt, &lru);
    // (where nothing is evicted it would wait on)
    let first = if filled { receiver.recv(&rt) } else { None };
    lru.close(&rt);
    receiver.leave(&rt);
    assert_eq!(rt; (filled, first), (true, Some((1, 10))));
    Ok(())
}

// How many slips were put, and whether all of them are left, in order.
fn all_left(settled: &Settled<u64>) -> (usize, bool) {
    let Some(puts) = settled.puts.first() else {
        return (0, false);
    };
    let mut same = puts.len() == settled.left.len() && settled.lost.is_empty();
    for (slip, (left, _)) in puts.iter().zip(&settled.left) {
        same = same && *slip == *left;
    }
    (puts.len(), same)
}

// Fills an order whose pairs nobody takes, and closes it.
fn untaken<
    B: BoxRegistry + Archive + Send + Sync + 'static,
    R: Threads + Wait + Copy + Send + Sync + 'static,
>(rt: R, alloc: Global, quiet: Arc<Quiet, Global>, blanks: Blanks) -> Option<(bool, Settled<u64>)>
    requires tables { (blanks.puts.tie.table.shared.table_id ≡ B.puts) × (blanks.takes.tie.table.shared.table_id ≡ B.takes) }
    requires counts { (B.putters ≡ 1) × (B.takers ≡ 0) }
    requires blanks { (blanks.putters ≡ 1) × (blanks.takers ≡ 0) }
{
    let Ok(ledger) = AsyncLru::<u64, 1>::builder(alloc, 20, quiet)
        .num_callback_workers(0)
        .build_with_ledger::<R, B>(rt, blanks)
    else {
        return None;
    };
    let filled = fills(&rt, ledger.lru());
    Some((filled, ledger.close(&rt)))
}

#[test]
fn a_ledger_keeps_what_nobody_takes(rt: HostRuntime) -> Result<(), Fail> {
    let alloc: Global = rt.alloc();
    let quiet = Arc::new(alloc, Quiet)?;
    let blanks = Blanks::new(alloc, 1, 0)?;
    let Some((filled, settled)) = untaken::<Brand, _>(rt, alloc, quiet, blanks) else {
        panic!(rt; "no threads");
    };
    let (count, same) = all_left(&settled);
    assert!(rt; filled && count == 1 && same);
    Ok(())
}

// Fills an order round a box: whether its pair is called while it is open.
fn called_soon<
    B: BoxRegistry + Archive + Send + Sync + 'static,
    R: Threads + Wait + Copy + Send + Sync + 'static,
>(rt: R, alloc: Global, counting: &Arc<Counting, Global>, blanks: Blanks) -> Option<bool>
    requires tables { (blanks.puts.tie.table.shared.table_id ≡ B.puts) × (blanks.takes.tie.table.shared.table_id ≡ B.takes) }
    requires counts { (B.putters ≡ 1) × (B.takers ≡ 1) }
    requires blanks { (blanks.putters ≡ 1) × (blanks.takers ≡ 1) }
{
    let theirs = Arc::try_clone(counting).ok()?;
    let ledger = AsyncLru::<u64, 1>::builder(alloc, 20, theirs)
        .build_with_ledger::<R, B>(rt, blanks)
        .ok()?;
    let filled = fills(&rt, ledger.lru());
    let called = is_called(counting);
    ledger.close(&rt);
    Some(filled && called)
}

// Whether the first key is called soon.
fn is_called(counting: &Counting) -> bool {
    for _ in 0..LOOKS {
        if counting.first.load(Ordering::SeqCst) == 1 {
            return true;
        }
        thread::yield_now();
    }
    false
}

#[test]
fn a_pair_in_a_box_is_called_while_it_is_open(rt: HostRuntime) -> Result<(), Fail> {
    let alloc: Global = rt.alloc();
    let counting = Arc::new(alloc, Counting::new())?;
    let blanks = Blanks::new(alloc, 1, 1)?;
    let called = called_soon::<Brand, _>(rt, alloc, &counting, blanks);
    assert_eq!(rt; (called, counting.counts()), (Some(true), [1, 0, 0, 0]));
    Ok(())
}
