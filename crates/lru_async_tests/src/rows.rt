//! The worked rows: refusals, weights of one key, colliding hashes, a shard that is full.
ghost use Rattle.std.specs.Prelude.{◌≡◌, [], refl};

use crate::callbacks::{Quiet, quiet_order};
use log::sink;
use lru_async::async_lru::{AsyncLru, ShardData};
use lru_async::refusals::{BuildError, SendRefused};
use std::alloc::{AllocError, Global};
use std::hash::{Hash, Hasher};
use std::sync::{Arc, Wait};
use std::test::Fail;

#[test]
fn nobody_would_call(rt: HostRuntime) -> Result<(), Fail> {
    let alloc: Global = rt.alloc();
    let quiet = Arc::new(alloc, Quiet)?;
    let built = AsyncLru::<u64, 1>::builder(alloc, 20, quiet)
        .num_callback_workers(0)
        .build(rt);
    assert!(rt; matches!(built, Err(BuildError::NoCallbackWorkers)));
    Ok(())
}

// After a shutdown: whether `admit` is refused as closed, with its key; what `promote` of a missing key answers; whether
// one who asks is told.
fn is_shut<R: Wait>(rt: &R, lru: &AsyncLru<u64, 1>) -> (bool, bool, bool) {
    lru.shutdown(rt);
    (
        matches!(lru.admit(rt, 7, 1), Err(SendRefused::Closed(7))),
        matches!(lru.promote(rt, &7), Ok(false)),
        matches!(lru.shard_weight(rt, 0), Err(SendRefused::Closed(()))),
    )
}

#[test]
fn after_a_shutdown_nothing_is_sent(rt: HostRuntime) -> Result<(), Fail> {
    let lru = quiet_order::<u64, 1, _>(rt, rt.alloc(), 20)?;
    let found = is_shut(&rt, &lru);
    lru.close(&rt);
    assert_eq!(rt; found, (true, true, true));
    Ok(())
}

// The weight of a key once all that was sent to its shard is processed.
fn weight_now<R: Wait>(
    rt: &R,
    lru: &AsyncLru<String, 4>,
    shard: usize,
    key: &String,
) -> Option<usize> {
    match lru.shard_weight(rt, shard) {
        Ok(_) => lru.peek_weight(rt, key),
        Err(_) => None,
    }
}

// The weight of a key after each of four sends.
fn weights<R: Wait>(
    rt: &R,
    lru: &AsyncLru<String, 4>,
    key: &String,
) -> Result<[Option<usize>; 4], AllocError> {
    let Ok(shard) = lru.admit(rt, key.clone()?, 10) else {
        return Err(AllocError);
    };
    let first = weight_now(rt, lru, shard, key);
    let _ = lru.increment_weight(rt, key, 5, None);
    let second = weight_now(rt, lru, shard, key);
    let _ = lru.increment_weight(rt, key, 100, Some(20));
    let third = weight_now(rt, lru, shard, key);
    let _ = lru.increment_weight(rt, key, 1, Some(10));
    Ok([first, second, third, weight_now(rt, lru, shard, key)])
}

#[test]
fn weight_of_one_key(rt: HostRuntime) -> Result<(), Fail> {
    let key = format!(in rt.alloc(); "key-1")?;
    let lru = quiet_order::<String, 4, _>(rt, rt.alloc(), 1000)?;
    let found = weights(&rt, &lru, &key);
    lru.close(&rt);
    assert_eq!(rt; found?, [Some(10), Some(15), Some(20), Some(20)]);
    Ok(())
}

// How many shards are saved by a writer that refuses shard 2, and the lines of the log.
fn saved<R: Wait>(rt: &R, lru: &AsyncLru<String, 4>, alloc: Global) -> (usize, Vec<String>) {
    let log = sink::Memory::new(alloc);
    let written = lru.save(rt, &log, |data: ShardData<String>| -> Result<(), String> {
        if data.shard_index != 2 {
            return Ok(());
        }
        match format!(in alloc; "disk full") {
            Ok(refusal) => Err(refusal),
            Err(_) => Ok(()),
        }
    });
    (written, log.into_lines().into_vec())
}

// Whether there is one line, of the refused shard.
fn tells_of_shard_2(lines: &[String]) -> bool {
    let told = "AsyncLru: failed to write shard 2: disk full";
    match lines {
        [line] => line.as_str().ends_with(told),
        _ => false,
    }
}

#[test]
fn a_refused_shard_is_logged(rt: HostRuntime) -> Result<(), Fail> {
    let lru = quiet_order::<String, 4, _>(rt, rt.alloc(), 1000)?;
    let (written, lines) = saved(&rt, &lru, rt.alloc());
    lru.close(&rt);
    assert!(rt; written == 3 && tells_of_shard_2(lines.as_slice()));
    Ok(())
}

// A key whose hash is that of every other.
#[derive(Clone, Copy, Debug, PartialEq, Eq)]
struct Same(u8);

impl Hash for Same {
    ghost hash_input = { λ _. [] };

    ghost respects_eq = { λ _ _ _. refl };

    fn hash<H: Hasher>(&self, _state: &mut H) {}
}

// Whether a colliding hash keeps the first key, is found by any key, and is removed by the second.
fn collides<R: Wait>(rt: &R, lru: &AsyncLru<Same, 1>) -> [bool; 3] {
    let sent = lru.admit(rt, Same(1), 2).is_ok() && lru.admit(rt, Same(2), 5).is_ok();
    let rows = lru.snapshot_shard(rt, 0);
    let first = match &rows {
        Ok(Some(rows)) => rows.as_slice() == [(Same(1), 5)].as_slice(),
        _ => false,
    };
    let found = lru.peek(rt, &Same(3));
    let removed = lru.remove(rt, &Same(2)).is_ok()
        && matches!(lru.shard_weight(rt, 0), Ok(Some(0)));
    [sent && first, found, removed && lru.is_empty()]
}

#[test]
fn a_colliding_hash_keeps_the_first_key(rt: HostRuntime) -> Result<(), Fail> {
    let lru = quiet_order::<Same, 1, _>(rt, rt.alloc(), 1000)?;
    let found = collides(&rt, &lru);
    lru.close(&rt);
    assert_eq!(rt; found, [true; 3]);
    Ok(())
}

// A weight that fills the shard, and another row.
fn refuses<R: Wait>(rt: &R, lru: &AsyncLru<u64, 1>) -> (bool, u64) {
    let sent = lru.admit(rt, 1, usize::MAX).is_ok() && lru.admit(rt, 2, 1).is_ok();
    let weighs = matches!(lru.shard_weight(rt, 0), Ok(Some(usize::MAX)));
    (sent && weighs, lru.refused_messages(0))
}

#[test]
fn a_full_shard_counts_what_it_refuses(rt: HostRuntime) -> Result<(), Fail> {
    let lru = quiet_order::<u64, 1, _>(rt, rt.alloc(), usize::MAX)?;
    let found = refuses(&rt, &lru);
    lru.close(&rt);
    assert_eq!(rt; found, (true, 1));
    Ok(())
}
