//! What is shown of a cache.
use lru_shared_cache::sharded::ShardedCache;
use lru_shared_cache::shared::SharedCache;
use lru_shared_deadlines::sharded::ShardedDeadlineCache;
use lru_shared_deadlines::shared::{Ages, Limits, SharedDeadlineCache};
use std::alloc::{AllocError, Global};
use std::test::Fail;

// The number of shards, how long entries are answered, and that there is more.
fn are_shown(alloc: Global) -> Result<bool, AllocError> {
    let (limits, ages) = (Limits::of_weight(8), Ages { live: 60, idle: 5 });
    let shared: SharedDeadlineCache<u64, u64, 2> = SharedDeadlineCache::new(alloc, limits, ages)?;
    let sharded: ShardedDeadlineCache<u64, u64, 3> = ShardedDeadlineCache::new(
        alloc, limits, ages,
    )?;
    let plain: SharedCache<u64, u64, 4> = SharedCache::with_limits(alloc, limits)?;
    let owned: ShardedCache<u64, u64, 5> = ShardedCache::new(alloc, 8, 8)?;
    let shows = format!(in alloc; "{shared:?}")?.as_str()
        == "SharedDeadlineCache { shards: 2, ages: Ages { live: 60, idle: 5 }, .. }"
        && format!(in alloc; "{sharded:?}")?.as_str()
            == "ShardedDeadlineCache { shards: 3, ages: Ages { live: 60, idle: 5 }, .. }";
    Ok(
        shows
            && format!(in alloc; "{plain:?}")?.as_str() == "SharedCache { shards: 4, .. }"
            && format!(in alloc; "{owned:?}")?.as_str() == "ShardedCache { shards: 5, .. }",
    )
}

#[test]
fn a_cache_shows_its_shards(rt: HostRuntime) -> Result<(), Fail> {
    assert!(rt; are_shown(rt.alloc())?);
    Ok(())
}
