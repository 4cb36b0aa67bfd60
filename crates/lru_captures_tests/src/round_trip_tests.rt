//! Rows captured, saved, loaded and put back.
ghost use Rattle.std.specs.Prelude.{◌<◌, ◌≤◌};
ghost use Rattle.lru_generations.specs.Checkpoints.{most_shards};

use lru_cache_checkpoints::{cache_captures, shared_captures};
use lru_cores::lru_core::LruCore;
use lru_folder::folder::Folder;
use lru_frames::row::Row;
use lru_frames::source::Source;
use lru_frames::stored::Stored;
use lru_generations::errors::CheckpointError;
use lru_generations::generations::save;
use lru_generations::newest_loading::{Loaded, load};
use lru_memory_folder::memory_folder::MemoryFolder;
use lru_order_checkpoints::{core_captures, shared_captures as order_captures, snapshots};
use lru_owned_cache::cache::Cache;
use lru_shared_cache::shared::SharedCache;
use lru_shared_order::lru::Lru;
use std::alloc::{AllocError, Global};
use std::sync::Wait;
use std::test::Fail;

// The shards as a load finds them after a save; none where it finds none.
fn saved_and_loaded<K: Stored, V: Stored, S: Source<K, V>>(
    alloc: Global,
    source: &S,
) -> Result<Vec<Vec<Row<K, V>>>, CheckpointError>
    requires { S.count source.now ≤ most_shards }
{
    let mut folder = MemoryFolder::new(alloc);
    if folder.make("d").is_err() {
        return Err(CheckpointError::Memory);
    }
    save(alloc, &mut folder, "d", "c", source)?;
    let Loaded { newest, .. } = load(alloc, &mut folder, "d", "c")?;
    match newest {
        Some(checkpoint) => Ok(checkpoint.shards),
        None => Ok(Vec::new(alloc)),
    }
}

fn text(alloc: Global, number: u64) -> Result<String, AllocError> {
    format!(in alloc; "value {number}")
}

// Whether shard 1 of two has the rows of the keys 5, 1 and 3, the most recent first.
fn is_as_it_stood(rows: &[Row<u64, String>]) -> bool {
    let wanted = [
        (5u64, "value 5", 3usize),
        (1, "value 1", 1),
        (3, "value 3", 2),
    ];
    (rows.len() == 3)
        && rows.iter().zip(wanted.iter()).all(|(row, (key, value, weight))| (row.key == *key)
            & (row.data.as_str() == *value)
            & (row.weight == *weight))
}

// Keys and weights of orders; 3, 1 and 5 are of shard 1 of two.
static ADMITTED: [(u64, usize); 4] = [(3, 2), (1, 1), (5, 3), (2, 1)];

fn filled_core(alloc: Global) -> Result<LruCore<(u64, String), 2>, Fail> {
    let mut core: LruCore<(u64, String), 2> = LruCore::with_capacity(alloc, 100, 4)?;
    for (key, weight) in &ADMITTED {
        let data = text(alloc, *key)?;
        core.admit(*key, (*key, data), *weight)?;
    }
    Ok(core)
}

fn is_core_back(alloc: Global, shards: Vec<Vec<Row<u64, String>>>) -> Result<bool, Fail> {
    let mut again: LruCore<(u64, String), 2> = LruCore::with_capacity(alloc, 100, 4)?;
    if core_captures::restore_shards(&mut again, shards).is_err() {
        return Ok(false);
    }
    let is_whole = (again.len() == 4) & (again.weight() == 7);
    Ok(is_whole & is_as_it_stood(&core_captures::capture_shard(alloc, &again, 1)?))
}

fn core_comes_back(alloc: Global) -> Result<bool, Fail> {
    let core = filled_core(alloc)?;
    let shards = saved_and_loaded(alloc, &core_captures::CoreSource { core: &core })?;
    is_core_back(alloc, shards)
}

#[test]
fn a_core_comes_back(rt: HostRuntime) -> Result<(), Fail> {
    assert!(rt; core_comes_back(rt.alloc())?);
    Ok(())
}

fn filled_lru<R: Wait>(rt: &R, alloc: Global) -> Result<Lru<(u64, String), 2>, Fail> {
    let lru: Lru<(u64, String), 2> = Lru::with_capacity(alloc, 100, 4)?;
    for (key, weight) in &ADMITTED {
        let data = text(alloc, *key)?;
        lru.admit(rt, *key, (*key, data), *weight)?;
    }
    Ok(lru)
}

fn is_lru_back<R: Wait>(
    rt: &R,
    alloc: Global,
    shards: Vec<Vec<Row<u64, String>>>,
) -> Result<bool, Fail> {
    let again: Lru<(u64, String), 2> = Lru::with_capacity(alloc, 100, 4)?;
    if order_captures::restore_shards(rt, &again, shards).is_err() {
        return Ok(false);
    }
    let is_whole = (again.len() == 4) & (again.weight() == 7);
    Ok(is_whole & is_as_it_stood(&order_captures::capture_shard(rt, alloc, &again, 1)?))
}

fn lru_comes_back<R: Wait>(rt: &R, alloc: Global) -> Result<bool, Fail> {
    let lru = filled_lru(rt, alloc)?;
    let shards = saved_and_loaded(alloc, &order_captures::LruSource { rt, lru: &lru })?;
    is_lru_back(rt, alloc, shards)
}

#[test]
fn an_order_that_threads_share_comes_back(rt: HostRuntime) -> Result<(), Fail> {
    assert!(rt; lru_comes_back(&rt, rt.alloc())?);
    Ok(())
}

fn filled_cache(alloc: Global) -> Result<Cache<u64, String>, Fail> {
    let mut cache: Cache<u64, String> = Cache::new(alloc, 100, 100)?;
    for (key, weight) in [(3u64, 2usize), (1, 1), (5, 3)] {
        cache.put(key, text(alloc, key)?, weight, |_gone| {})?;
    }
    Ok(cache)
}

// Puts what was saved of a cache into an empty one of this limit, if all of it is taken.
fn put_back(
    alloc: Global,
    cache: &Cache<u64, String>,
    most_weight: usize,
) -> Result<Option<Cache<u64, String>>, Fail> {
    let shards = saved_and_loaded(alloc, &cache_captures::CacheSource { cache })?;
    let mut again: Cache<u64, String> = Cache::new(alloc, most_weight, 100)?;
    Ok(
        cache_captures::restore_shards(&mut again, shards)
            .is_ok()
            .then_some(again),
    )
}

fn cache_comes_back(alloc: Global) -> Result<bool, Fail> {
    let cache = filled_cache(alloc)?;
    match put_back(alloc, &cache, 100)? {
        Some(again) => Ok(is_as_it_stood(&cache_captures::capture_cache(alloc, &again)?)),
        None => Ok(false),
    }
}

// Under a limit of 4 the last of the three goes.
fn last_goes(alloc: Global) -> Result<bool, Fail> {
    let cache = filled_cache(alloc)?;
    match put_back(alloc, &cache, 4)? {
        Some(small) => Ok((small.len() == 2) & (small.weight() == 4) & !small.contains(&3)),
        None => Ok(false),
    }
}

// Two entries weigh 3, the others less. The last is put first.
fn heavy_and_others(alloc: Global) -> Result<Vec<Row<u64, String>>, Fail> {
    let mut rows = Vec::new(alloc);
    for (key, weight) in [(1u64, 1usize), (5, 3), (7, 3), (3, 2)] {
        rows.push(Row {
            key,
            data: text(alloc, key)?,
            weight,
        })?;
    }
    Ok(rows)
}

// Under a limit of 2 those of 3 are too heavy by themselves, and are left out; of the others the last goes.
fn heavy_is_left_out(alloc: Global) -> Result<bool, Fail> {
    let mut cache: Cache<u64, String> = Cache::new(alloc, 2, 100)?;
    let rows = heavy_and_others(alloc)?;
    let is_told = matches!(cache_captures::restore_cache(&mut cache, rows), Ok(2));
    Ok(is_told & (cache.len() == 1) & cache.contains(&1))
}

// The same where threads share the cache, whose two shards have a limit of 2 each. The others may be of two shards.
fn heavy_is_left_out_of_a_shard<R: Wait>(rt: &R, alloc: Global) -> Result<bool, Fail> {
    let cache: SharedCache<u64, String, 2> = SharedCache::new(alloc, 4, 200)?;
    let rows = heavy_and_others(alloc)?;
    let is_told = matches!(shared_captures::restore_shard(rt, &cache, rows), Ok(2));
    Ok(is_told & cache.contains(rt, &1) & !cache.contains(rt, &5))
}

#[test]
fn an_entry_that_is_too_heavy_is_left_out(rt: HostRuntime) -> Result<(), Fail> {
    assert!(rt; heavy_is_left_out(rt.alloc())? & heavy_is_left_out_of_a_shard(&rt, rt.alloc())?);
    Ok(())
}

#[test]
fn a_cache_comes_back(rt: HostRuntime) -> Result<(), Fail> {
    assert!(rt; cache_comes_back(rt.alloc())? & last_goes(rt.alloc())?);
    Ok(())
}

// Whether two captures hold the same entries in the same order.
fn are_alike(one: &[Row<u64, String>], other: &[Row<u64, String>]) -> bool {
    (one.len() == other.len())
        && one.iter().zip(other.iter()).all(|(row, back)| (row.key == back.key)
            & (row.data == back.data)
            & (row.weight == back.weight))
}

fn filled_shared<R: Wait>(rt: &R, alloc: Global) -> Result<SharedCache<u64, String, 2>, Fail> {
    let cache: SharedCache<u64, String, 2> = SharedCache::new(alloc, 200, 200)?;
    for (key, weight) in &ADMITTED {
        let data = text(alloc, *key)?;
        cache.put(rt, *key, data, *weight, |_gone| {})?;
    }
    Ok(cache)
}

// Whether a shard of one cache holds what the same shard of the other does.
fn is_shard_alike<R: Wait>(
    rt: &R,
    alloc: Global,
    one: &SharedCache<u64, String, 2>,
    other: &SharedCache<u64, String, 2>,
    shard: usize,
) -> Result<bool, Fail>
    requires { shard < 2 }
{
    let rows = shared_captures::capture_shard(rt, alloc, one, shard)?;
    Ok(are_alike(
        &rows,
        &shared_captures::capture_shard(rt, alloc, other, shard)?,
    ))
}

fn is_shared_back<R: Wait>(
    rt: &R,
    alloc: Global,
    cache: &SharedCache<u64, String, 2>,
    shards: Vec<Vec<Row<u64, String>>>,
) -> Result<bool, Fail> {
    let again: SharedCache<u64, String, 2> = SharedCache::new(alloc, 200, 200)?;
    let is_whole = shared_captures::restore_shards(rt, &again, shards).is_ok();
    let is_told = is_whole & (again.len(rt) == 4) & (again.weight(rt) == 7);
    let is_first = is_shard_alike(rt, alloc, cache, &again, 0)?;
    Ok(is_told & is_first & is_shard_alike(rt, alloc, cache, &again, 1)?)
}

fn shared_comes_back<R: Wait>(rt: &R, alloc: Global) -> Result<bool, Fail> {
    let cache = filled_shared(rt, alloc)?;
    let shards = saved_and_loaded(alloc, &shared_captures::SharedSource { rt, cache: &cache })?;
    is_shared_back(rt, alloc, &cache, shards)
}

#[test]
fn a_cache_that_threads_share_comes_back(rt: HostRuntime) -> Result<(), Fail> {
    assert!(rt; shared_comes_back(&rt, rt.alloc())?);
    Ok(())
}

// Whether the keys and weights of a snapshot are what is loaded, in their order, without data.
fn snapshot_comes_back(alloc: Global) -> Result<bool, Fail> {
    let mut snapshot = Vec::new(alloc);
    snapshot.push((text(alloc, 3)?, 2usize))?;
    snapshot.push((text(alloc, 1)?, 0))?;
    let shards = [snapshots::snapshot_rows(alloc, snapshot)?];
    let loaded: Vec<Vec<Row<String, ()>>> = saved_and_loaded(alloc, &shards.as_slice())?;
    let wanted = [("value 3", 2usize), ("value 1", 0)];
    Ok(
        (loaded.len() == 1)
            && loaded.iter().all(|rows| (rows.len() == 2)
                && rows.iter().zip(wanted.iter()).all(|(row, (key, weight))| (row.key.as_str()
                    == *key)
                    & (row.weight == *weight))),
    )
}

#[test]
fn a_snapshot_comes_back(rt: HostRuntime) -> Result<(), Fail> {
    assert!(rt; snapshot_comes_back(rt.alloc())?);
    Ok(())
}
