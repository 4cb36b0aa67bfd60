//! An order whose history is accounted for.
ghost use Rattle.std.specs.Prelude.{◌≡◌};

use lru_actors::key::hash_key;
use lru_actors::message::LruMsg;
use lru_async::async_lru::AsyncLru;
use lru_async::logged_lru::LoggedLru;
use lru_async::{Account, build_accounted};
use lru_boxes::{Blanks, BoxRegistry};
use lru_inbox::Caller;
use lru_inbox::tie::{Archive, BlankLogs};
use lru_mailbox::Slip;
use lru_workers::callback::AsyncEvictionCallback;
use std::alloc::Global;
use std::collections::VecDeque;
use std::marker::Brand;
use std::sync::{Arc, Wait};
use std::test::Fail;
use std::thread::Threads;

// Does nothing with what is evicted.
#[derive(Drop)]
struct Quiet;

impl AsyncEvictionCallback<u64> for Quiet {
    ghost ready = { λ _. Unit {0} };

    fn call(&self, _key: u64, _weight: usize) {}
}

// What became of all rows.
#[derive(Clone, Copy, Debug, PartialEq, Eq)]
struct Tally {
    held: usize,
    // slips of the rows that were evicted, and whose pairs were taken, are lost or are left
    evicted: usize,
    taken: usize,
    lost: usize,
    left: usize,
    // those left are the first keys, in order, with slips of theirs
    in_order: bool,
}

// Admits keys 0 to 19, of weight 3 each, and removes the last one. Who sent that, if all was sent.
fn fill<B: BoxRegistry + Archive, R: Wait>(
    rt: &R,
    logged: &LoggedLru<u64, 1, B>,
) -> Option<Caller<u64, B>> {
    let mut caller = logged.caller(rt).ok()?;
    for key in 0..20u64 {
        if logged.admit(rt, &mut caller, key, 3).is_err() {
            return None;
        }
    }
    logged.lru().wait_until_quiet(rt);
    if logged.remove(rt, &mut caller, &19).is_err() {
        return None;
    }
    // what waits at a close is left behind
    logged.lru().wait_until_quiet(rt);
    Some(caller)
}

// What the account says of one shard, whose log has all that the caller had seen.
fn tallied<B: BoxRegistry + Archive>(
    account: Account<u64, B>,
    caller: Caller<u64, B>,
) -> Option<Tally> {
    let Account { shards, settled } = account;
    let mut shards = shards;
    let mut caller = caller;
    let mut end = shards.pop()?;
    end.recognize(&mut caller);
    Some(Tally {
        held: end.state.len(),
        evicted: settled.puts.first()?.len(),
        taken: match settled.takes.first() {
            Some(taken) => taken.len(),
            None => 0,
        },
        lost: settled.lost.len(),
        left: settled.left.len(),
        in_order: are_from_0(&settled.left),
    })
}

// Whether the pairs are those of the keys from 0 up, each with a slip of its hash and of weight 3.
fn are_from_0(left: &VecDeque<(Slip, u64)>) -> bool {
    let mut next = 0u64;
    for (slip, key) in left {
        if *key != next || slip.hash != hash_key(key) || slip.weight != 3 {
            return false;
        }
        next = next.wrapping_add(1);
    }
    true
}

// Fills an order over its limit and closes it: what became of its rows, if all was sent.
fn closed<
    B: BoxRegistry + Archive + Send + Sync + 'static,
    R: Threads + Wait + Copy + Send + Sync + 'static,
>(
    rt: R,
    alloc: Global,
    quiet: Arc<Quiet, Global>,
    blank: BlankLogs<LruMsg<u64>>,
    blanks: Blanks,
    workers: usize,
) -> Option<Tally>
    requires table { blank.tie.table.shared.table_id ≡ B.log }
    requires shards { (blank.tie.table.shared.key ≡ 1) × (B.shards ≡ 1) }
    requires tables { (blanks.puts.tie.table.shared.table_id ≡ B.puts) × (blanks.takes.tie.table.shared.table_id ≡ B.takes) }
    requires counts { (B.putters ≡ 1) × (B.takers ≡ workers) }
    requires blanks { (blanks.putters ≡ 1) × (blanks.takers ≡ workers) }
{
    let builder = AsyncLru::<u64, 1>::builder(alloc, 10, quiet).num_callback_workers(workers);
    let accounted = build_accounted::<u64, Quiet, 1, _, R, B>(builder, rt, blank, blanks).ok()?;
    let caller = fill(&rt, accounted.logged());
    let account = accounted.close(&rt);
    tallied(account, caller?)
}

#[test]
fn every_row_is_accounted_for(rt: HostRuntime) -> Result<(), Fail> {
    let alloc: Global = rt.alloc();
    let quiet = Arc::new(alloc, Quiet)?;
    let blank = BlankLogs::new(alloc, 1)?;
    let blanks = Blanks::new(alloc, 1, 1)?;
    let Some(tally) = closed::<Brand, _>(rt, alloc, quiet, blank, blanks, 1) else {
        panic!(rt; "no threads");
    };
    // three rows fit, of which the first was removed
    let expected = Tally {
        held: 2,
        evicted: 17,
        taken: 17,
        lost: 0,
        left: 0,
        in_order: true,
    };
    assert_eq!(rt; tally, expected);
    Ok(())
}

#[test]
fn what_nobody_takes_is_handed_back_with_its_keys(rt: HostRuntime) -> Result<(), Fail> {
    let alloc: Global = rt.alloc();
    let quiet = Arc::new(alloc, Quiet)?;
    let blank = BlankLogs::new(alloc, 1)?;
    let blanks = Blanks::new(alloc, 1, 0)?;
    let Some(tally) = closed::<Brand, _>(rt, alloc, quiet, blank, blanks, 0) else {
        panic!(rt; "no threads");
    };
    let expected = Tally {
        held: 2,
        evicted: 17,
        taken: 0,
        lost: 0,
        left: 17,
        in_order: true,
    };
    assert_eq!(rt; tally, expected);
    Ok(())
}
