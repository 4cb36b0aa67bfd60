//! What waits while an actor or a receiver is held up: messages, questions and pairs.
ghost use Rattle.std.specs.Prelude.{◌≡◌};

use crate::callbacks::{Holding, LOOKS, Quiet, gated_order, is_raised, quiet_order};
use log::sink;
use lru_actors::message::LruMsg;
use lru_async::async_lru::{AsyncLru, ShardData};
use lru_async::logged_lru::LoggedLru;
use lru_async::receiver::EvictionReceiver;
use lru_async::refusals::SendRefused;
use lru_boxes::BoxRegistry;
use lru_inbox::tie::{Archive, BlankLogs};
use std::alloc::Global;
use std::marker::Brand;
use std::sync::atomic::Ordering;
use std::sync::{Arc, Wait};
use std::test::Fail;
use std::thread;
use std::thread::Threads;

// Whether a row that is asked for and then taken out, while the gate holds both messages, is not there.
fn takes_out_what_waits<R: Wait>(rt: &R, lru: &AsyncLru<u64, 1>, gate: &Holding) -> bool {
    let sent = lru.admit(rt, 1, 5).is_ok() && lru.remove(rt, &1).is_ok();
    gate.open.store(true, Ordering::SeqCst);
    sent && matches!(lru.shard_weight(rt, 0), Ok(Some(0)))
}

#[test]
fn what_waits_is_taken_out(rt: HostRuntime) -> Result<(), Fail> {
    let gate = Arc::new(rt.alloc(), Holding::new(0))?;
    let lru = gated_order::<1, _>(rt, rt.alloc(), 1000, Arc::try_clone(&gate)?)?;
    let found = takes_out_what_waits(&rt, &lru, &*gate);
    lru.close(&rt);
    assert!(rt; found);
    Ok(())
}

// Shuts an order down once a question waits behind the message that the gate holds.
fn shuts_before_an_answer<B: BoxRegistry + Archive, R: Wait>(
    rt: &R,
    lru: &AsyncLru<u64, 1, B>,
    gate: &Holding,
) -> bool {
    let mut waits = false;
    for _ in 0..LOOKS {
        waits = lru.world().shards[0].mailbox.len(rt) > 0;
        if waits {
            break;
        }
        thread::yield_now();
    }
    lru.shutdown(rt);
    gate.open.store(true, Ordering::SeqCst);
    waits
}

// Whether who asks is told that the order was closed meanwhile.
fn asks_in_vain<R: Threads + Wait + Sync>(
    rt: &R,
    lru: &AsyncLru<u64, 1>,
    gate: &Holding,
) -> (bool, bool) {
    if lru.admit(rt, 1, 5).is_err() || !is_raised(&gate.held) {
        return (false, false);
    }
    thread::join(
        rt,
        || matches!(lru.shard_weight(rt, 0), Err(SendRefused::Closed(()))),
        || shuts_before_an_answer(rt, lru, gate),
    )
}

#[test]
fn who_waits_at_a_shutdown_is_told(rt: HostRuntime) -> Result<(), Fail> {
    let gate = Arc::new(rt.alloc(), Holding::new(0))?;
    let lru = gated_order::<1, _>(rt, rt.alloc(), 1000, Arc::try_clone(&gate)?)?;
    let found = asks_in_vain(&rt, &lru, &*gate);
    lru.close(&rt);
    assert_eq!(rt; found, (true, true));
    Ok(())
}

// The same of an order with logs, which is closed then; nothing where there are no threads.
fn asks_logged_in_vain<
    B: BoxRegistry + Archive + Send + Sync + 'static,
    R: Threads + Wait + Copy + Send + Sync + 'static,
>(
    rt: R,
    alloc: Global,
    quiet: Arc<Quiet, Global>,
    gate: Arc<Holding, Global>,
    theirs: Arc<Holding, Global>,
    blank: BlankLogs<LruMsg<u64>>,
) -> Option<(bool, bool)>
    requires table { blank.tie.table.shared.table_id ≡ B.log }
    requires counts { (blank.tie.table.shared.key ≡ 1) × (B.shards ≡ 1) }
{
    let builder = AsyncLru::<u64, 1>::builder_with_gate(alloc, 1000, quiet, theirs);
    let logged = LoggedLru::<u64, 1, B>::build(builder, rt, blank).ok()?;
    let mut caller = logged.caller(&rt).ok()?;
    let sent = logged.admit(&rt, &mut caller, 1, 5).is_ok() && is_raised(&gate.held);
    let found = thread::join(
        &rt,
        || matches!(
            logged.shard_weight(&rt, &mut caller, 0),
            Err(SendRefused::Closed(()))
        ),
        || shuts_before_an_answer(&rt, logged.lru(), &*gate),
    );
    logged.into_lru().close(&rt);
    Some((sent && found.0, found.1))
}

#[test]
fn who_waits_with_a_log_is_told(rt: HostRuntime) -> Result<(), Fail> {
    let alloc: Global = rt.alloc();
    let gate = Arc::new(alloc, Holding::new(0))?;
    let theirs = Arc::try_clone(&gate)?;
    let quiet = Arc::new(alloc, Quiet)?;
    let blank = BlankLogs::new(alloc, 1)?;
    let found = asks_logged_in_vain::<Brand, _>(rt, alloc, quiet, gate, theirs, blank);
    assert_eq!(rt; found, Some((true, true)));
    Ok(())
}

// A row of weight 0: what its shard weighs, whether it is found, its weight, and whether it is put first.
fn looks_at_weight_0<R: Wait>(rt: &R, lru: &AsyncLru<u64, 1>) -> (Option<usize>, bool, bool, bool) {
    let _sent = lru.insert_tail(rt, 1, 0);
    let weight = lru.shard_weight(rt, 0).unwrap_or(None);
    (
        weight,
        lru.peek(rt, &1),
        lru.peek_weight(rt, &1) == Some(0),
        matches!(lru.promote(rt, &1), Ok(true)),
    )
}

#[test]
fn a_row_of_weight_0_is_found(rt: HostRuntime) -> Result<(), Fail> {
    let lru = quiet_order::<u64, 1, _>(rt, rt.alloc(), 1000)?;
    let found = looks_at_weight_0(&rt, &lru);
    lru.close(&rt);
    assert_eq!(rt; found, (Some(0), true, true, true));
    Ok(())
}

// A shard that refuses one message, and then serves two: how many refusals are told before and after those, and whether a save is
// told of one, and of none in the other shard.
fn tells_refusals<R: Wait>(rt: &R, alloc: Global, lru: &AsyncLru<u64, 2>) -> (u64, u64, usize) {
    let Ok(shard) = lru.admit(rt, 1, 1) else {
        return (0, 0, 0);
    };
    if shard >= 2 {
        return (0, 0, 0);
    }
    let _refused = lru.admit(rt, 1, usize::MAX);
    let _served = lru.shard_weight(rt, shard);
    let before = lru.refused_messages(shard);
    for weight in 2..4usize {
        let _sent = lru.admit(rt, 1, weight);
        let _served = lru.shard_weight(rt, shard);
    }
    let written = lru.save(
        rt,
        &sink::Memory::new(alloc),
        |data: ShardData<u64>| -> Result<(), String> {
            if data.refused == u64::from(data.shard_index == shard) {
                Ok(())
            } else {
                Err(String::new(alloc))
            }
        },
    );
    (before, lru.refused_messages(shard), written)
}

#[test]
fn a_save_tells_what_was_refused(rt: HostRuntime) -> Result<(), Fail> {
    let alloc: Global = rt.alloc();
    let lru = quiet_order::<u64, 2, _>(rt, alloc, usize::MAX)?;
    let found = tells_refusals(&rt, alloc, &lru);
    lru.close(&rt);
    assert_eq!(rt; found, (1, 1, 2));
    Ok(())
}

// An order whose evicted pairs wait for its receiver: it keeps no rows.
fn received_order<R: Threads + Wait + Copy + Send + 'static>(
    rt: R,
    alloc: Global,
) -> Result<(AsyncLru<u64, 1>, EvictionReceiver<u64>), Fail> {
    let quiet = Arc::new(alloc, Quiet)?;
    let built = AsyncLru::<u64, 1>::builder(alloc, 0, quiet)
        .len_watermark(0)
        .num_callback_workers(0)
        .build_with_eviction_receiver(rt);
    match built {
        Ok(both) => Ok(both),
        Err(_) => Err(Fail::from("no threads")),
    }
}

// Evicts a row of weight 0 and one of weight 3. Whether both went.
fn evicts_both<R: Wait>(rt: &R, lru: &AsyncLru<u64, 1>) -> bool {
    let sent = lru.insert_tail(rt, 1, 0).is_ok();
    lru.wait_until_quiet(rt);
    lru.trigger_eviction(rt);
    lru.wait_until_quiet(rt);
    let sent_too = lru.admit(rt, 2, 3).is_ok();
    lru.wait_until_quiet(rt);
    sent && sent_too && (lru.evicted_len(), lru.evicted_weight()) == (2, 3)
}

#[test]
fn a_receiver_gets_a_pair_of_weight_0(rt: HostRuntime) -> Result<(), Fail> {
    let (lru, receiver) = received_order(rt, rt.alloc())?;
    let evicted = evicts_both(&rt, &lru);
    let closed = lru.close(&rt);
    let pairs = [receiver.recv(&rt), receiver.recv(&rt), receiver.recv(&rt)];
    assert_eq!(rt;
        (evicted, closed.lost_pairs, pairs),
        (true, 0, [Some((1, 0)), Some((2, 3)), None])
    );
    Ok(())
}

#[test]
fn what_waits_at_a_leave_is_lost(rt: HostRuntime) -> Result<(), Fail> {
    let (lru, receiver) = received_order(rt, rt.alloc())?;
    let evicted = evicts_both(&rt, &lru);
    let before = lru.lost_pairs(&rt);
    receiver.leave(&rt);
    let after = lru.lost_pairs(&rt);
    let closed = lru.close(&rt);
    assert_eq!(rt;
        (evicted, before, after, closed.lost_pairs),
        (true, 0, 2, 2)
    );
    Ok(())
}
