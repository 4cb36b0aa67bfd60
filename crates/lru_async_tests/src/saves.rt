//! Saves of several shards, and messages that a shard refuses.
ghost use Rattle.std.specs.Prelude.{◌≡◌};

use log::sink;
use lru_actors::message::LruMsg;
use lru_async::async_lru::{AsyncLru, ShardData};
use lru_async::logged_lru::LoggedLru;
use lru_async::saving::SaveReport;
use lru_boxes::BoxRegistry;
use lru_inbox::Caller;
use lru_inbox::tie::{Archive, BlankLogs};
use lru_workers::callback::AsyncEvictionCallback;
use std::alloc::Global;
use std::marker::Brand;
use std::sync::atomic::{AtomicUsize, Ordering};
use std::sync::{Arc, Wait};
use std::test::Fail;
use std::thread::Threads;

// Does nothing with what is evicted.
#[derive(Drop)]
struct Quiet;

impl AsyncEvictionCallback<u64> for Quiet {
    ghost ready = { λ _. Unit {0} };

    fn call(&self, _key: u64, _weight: usize) {}
}

// What a save told, how often each shard was handed on, and the lines of the log.
#[derive(Drop)]
struct Saved {
    report: SaveReport,
    handed: [usize; 3],
    lines: Vec<String>,
}

// A save whose writer refuses shard 1.
fn save_once<B: BoxRegistry + Archive, R: Wait>(
    rt: &R,
    alloc: Global,
    logged: &LoggedLru<u64, 3, B>,
    caller: &mut Caller<u64, B>,
) -> Saved {
    let log = sink::Memory::new(alloc);
    let first = AtomicUsize::new(0);
    let second = AtomicUsize::new(0);
    let third = AtomicUsize::new(0);
    let report = logged.save_report(
        rt,
        caller,
        &log,
        |rows: ShardData<u64>| -> Result<(), String> {
            let counter = match rows.shard_index {
                0 => &first,
                1 => &second,
                _ => &third,
            };
            counter.fetch_add(1, Ordering::SeqCst);
            if rows.shard_index != 1 {
                return Ok(());
            }
            match format!(in alloc; "disk full") {
                Ok(refusal) => Err(refusal),
                Err(_) => Ok(()),
            }
        },
    );
    let handed = [
        first.load(Ordering::SeqCst),
        second.load(Ordering::SeqCst),
        third.load(Ordering::SeqCst),
    ];
    Saved {
        report,
        handed,
        lines: log.into_lines().into_vec(),
    }
}

// Whether there is one line, of shard 1.
fn tells_of_shard_1(lines: &[String]) -> bool {
    let told = "LoggedLru: failed to write shard 1: disk full";
    match lines {
        [line] => line.as_str().ends_with(told),
        _ => false,
    }
}

// A row of weight 1, whose shard then refuses to make it as heavy as can be: what its shard and another are told to weigh, and a look
// at the row, each with how many messages were refused.
fn refused<B: BoxRegistry + Archive, R: Wait>(
    rt: &R,
    logged: &LoggedLru<u64, 3, B>,
    caller: &mut Caller<u64, B>,
) -> Option<[(usize, u64); 3]> {
    let shard = logged.admit(rt, caller, 5, 1).ok()?;
    if logged.admit(rt, caller, 5, usize::MAX).ok()? != shard {
        return None;
    }
    let own = (
        logged.shard_weight(rt, caller, shard).ok()??,
        caller.refused,
    );
    let other = if shard == 0 { 1 } else { 0 };
    let others = (
        logged.shard_weight(rt, caller, other).ok()??,
        caller.refused,
    );
    let looked = (logged.peek_weight(rt, caller, &5)?, caller.refused);
    Some([own, others, looked])
}

type Found = (Option<[(usize, u64); 3]>, Saved, Saved);

// All of it, and a save after a shutdown.
fn all_found<
    B: BoxRegistry + Archive + Send + Sync + 'static,
    R: Threads + Wait + Copy + Send + Sync + 'static,
>(rt: R, alloc: Global, quiet: Arc<Quiet, Global>, blank: BlankLogs<LruMsg<u64>>) -> Option<Found>
    requires table { blank.tie.table.shared.table_id ≡ B.log }
    requires counts { (blank.tie.table.shared.key ≡ 3) × (B.shards ≡ 3) }
{
    let builder = AsyncLru::<u64, 3>::builder(alloc, 1000, quiet);
    let logged = LoggedLru::<u64, 3, B>::build(builder, rt, blank).ok()?;
    let mut caller = logged.caller(&rt).ok()?;
    let refused = refused(&rt, &logged, &mut caller);
    let before = save_once(&rt, alloc, &logged, &mut caller);
    logged.lru().shutdown(&rt);
    let after = save_once(&rt, alloc, &logged, &mut caller);
    logged.into_lru().close(&rt);
    Some((refused, before, after))
}

#[test]
fn each_shard_is_handed_on_once_and_counted(rt: HostRuntime) -> Result<(), Fail> {
    let alloc: Global = rt.alloc();
    let quiet = Arc::new(alloc, Quiet)?;
    let blank = BlankLogs::new(alloc, 3)?;
    let Some((refused, before, after)) = all_found::<Brand, _>(rt, alloc, quiet, blank) else {
        panic!(rt; "no threads");
    };
    assert_eq!(rt; refused, Some([(1, 1), (0, 0), (1, 1)]));
    let all = SaveReport {
        written: 2,
        refused: 1,
        missing: 0,
    };
    assert_eq!(rt; (before.report, before.handed), (all, [1, 1, 1]));
    assert!(rt; tells_of_shard_1(before.lines.as_slice()));
    let none = SaveReport {
        written: 0,
        refused: 0,
        missing: 3,
    };
    assert_eq!(rt; (after.report, after.handed), (none, [0, 0, 0]));
    assert!(rt; after.lines.is_empty());
    Ok(())
}
