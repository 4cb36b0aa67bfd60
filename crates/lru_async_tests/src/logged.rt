//! An order with logs: each call once.
ghost use Rattle.std.specs.Prelude.{◌≡◌};

use log::sink;
use lru_actors::key::hash_key;
use lru_actors::message::LruMsg;
use lru_async::async_lru::{AsyncLru, ShardData};
use lru_async::logged_lru::LoggedLru;
use lru_boxes::BoxRegistry;
use lru_inbox::Caller;
use lru_inbox::tie::{Archive, BlankLogs};
use lru_workers::callback::AsyncEvictionCallback;
use std::alloc::Global;
use std::marker::Brand;
use std::sync::{Arc, Wait};
use std::test::Fail;
use std::thread::Threads;

// Does nothing with what is evicted.
#[derive(Drop)]
struct Quiet;

impl AsyncEvictionCallback<u64> for Quiet {
    ghost ready = { λ _. Unit {0} };

    fn call(&self, _key: u64, _weight: usize) {}
}

// Admits keys 1 and 2 with weights 5 and 7, puts key 3 last with weight 4, puts 1 first, and adds 3 to the weight of 2. Whether
// each was sent.
fn sends<B: BoxRegistry + Archive, R: Wait>(
    rt: &R,
    logged: &LoggedLru<u64, 1, B>,
    caller: &mut Caller<u64, B>,
) -> bool {
    let first = logged.admit(rt, caller, 1, 5).ok() == Some(0);
    let second = logged.admit(rt, caller, 2, 7).ok() == Some(0);
    let last = logged.insert_tail(rt, caller, 3, 4).ok() == Some(0);
    logged.lru().wait_until_quiet(rt);
    let promoted = logged.promote(rt, caller, &1).ok() == Some(true);
    let missing = logged.promote(rt, caller, &9).ok() == Some(false);
    let grown = logged.increment_weight(rt, caller, &2, 3, None).is_ok();
    first && second && last && promoted && missing && grown
}

// What the shard is told to be: its last row, its weight, and its rows.
type Told = (Option<(u64, usize)>, Option<usize>, Vec<(u64, usize)>);

// Asks for all of that, and what there is past the last shard.
fn tells<B: BoxRegistry + Archive, R: Wait>(
    rt: &R,
    logged: &LoggedLru<u64, 1, B>,
    caller: &mut Caller<u64, B>,
) -> Option<Told> {
    let last = logged.peek_lru(rt, caller, 0).ok()?;
    let weight = logged.shard_weight(rt, caller, 0).ok()?;
    let rows = logged.snapshot_shard(rt, caller, 0).ok()??;
    if logged.shard_weight(rt, caller, 1).ok()?.is_some() {
        return None;
    }
    Some((last, weight, rows))
}

// Whether looks find these weights of keys 1 and 2, and no row of key 9.
fn finds<B: BoxRegistry + Archive, R: Wait>(
    rt: &R,
    logged: &LoggedLru<u64, 1, B>,
    caller: &mut Caller<u64, B>,
    first: Option<usize>,
    second: Option<usize>,
) -> bool {
    let there = logged.peek(rt, caller, &1) == first.is_some();
    let one = logged.peek_weight(rt, caller, &1) == first;
    let two = logged.peek_weight(rt, caller, &2) == second;
    // who asks the order beneath is told the same
    let beneath = logged.lru().peek_weight(rt, &2) == second;
    there && one && two && beneath && !logged.peek(rt, caller, &9)
}

// Removes key 3, and key 1 by its hash. Whether each was sent.
fn removes<B: BoxRegistry + Archive, R: Wait>(
    rt: &R,
    logged: &LoggedLru<u64, 1, B>,
    caller: &mut Caller<u64, B>,
) -> bool {
    let third = logged.remove(rt, caller, &3).is_ok();
    let first = logged.remove_by_hash(rt, caller, hash_key(&1u64)).is_ok();
    third && first
}

// Whether the shard is saved, with these rows.
fn saves<B: BoxRegistry + Archive, R: Wait>(
    rt: &R,
    alloc: Global,
    logged: &LoggedLru<u64, 1, B>,
    caller: &mut Caller<u64, B>,
    rows: &[(u64, usize)],
) -> bool {
    let log = sink::Memory::new(alloc);
    let written = logged.save(
        rt,
        caller,
        &log,
        |saved: ShardData<u64>| -> Result<(), String> {
            if saved.shard_index == 0 && saved.items.as_slice() == rows {
                Ok(())
            } else {
                Err(String::new(alloc))
            }
        },
    );
    written == 1
}

// All calls, one after the other: what was told before the removals and after them, if looks found the same.
fn all_calls<
    B: BoxRegistry + Archive + Send + Sync + 'static,
    R: Threads + Wait + Copy + Send + Sync + 'static,
>(
    rt: R,
    alloc: Global,
    quiet: Arc<Quiet, Global>,
    blank: BlankLogs<LruMsg<u64>>,
) -> Option<(Told, Told)>
    requires table { blank.tie.table.shared.table_id ≡ B.log }
    requires counts { (blank.tie.table.shared.key ≡ 1) × (B.shards ≡ 1) }
{
    let builder = AsyncLru::<u64, 1>::builder(alloc, 1000, quiet);
    let logged = LoggedLru::<u64, 1, B>::build(builder, rt, blank).ok()?;
    let mut caller = logged.caller(&rt).ok()?;
    let empty = finds(&rt, &logged, &mut caller, None, None);
    let sent = sends(&rt, &logged, &mut caller);
    let before = tells(&rt, &logged, &mut caller);
    let there = finds(&rt, &logged, &mut caller, Some(5), Some(10));
    let gone = removes(&rt, &logged, &mut caller);
    let after = tells(&rt, &logged, &mut caller);
    let left = finds(&rt, &logged, &mut caller, None, Some(10));
    let saved = saves(&rt, alloc, &logged, &mut caller, &[(2, 10)]);
    logged.into_lru().close(&rt);
    if empty && sent && there && gone && left && saved {
        Some((before?, after?))
    } else {
        None
    }
}

#[test]
fn each_answer_is_that_of_what_was_sent_before(rt: HostRuntime) -> Result<(), Fail> {
    let alloc: Global = rt.alloc();
    let quiet = Arc::new(alloc, Quiet)?;
    let blank = BlankLogs::new(alloc, 1)?;
    let Some((before, after)) = all_calls::<Brand, _>(rt, alloc, quiet, blank) else {
        panic!(rt; "no threads");
    };
    assert_eq!(rt; (before.0, before.1), (Some((3, 4)), Some(19)));
    assert_eq!(rt; before.2.as_slice(), [(2, 10), (1, 5), (3, 4)].as_slice());
    assert_eq!(rt; (after.0, after.1), (Some((2, 10)), Some(10)));
    assert_eq!(rt; after.2.as_slice(), [(2, 10)].as_slice());
    Ok(())
}
