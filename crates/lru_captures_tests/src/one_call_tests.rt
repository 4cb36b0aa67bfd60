//! Saves and loads of caches and orders, each by one call.
use lru_cache_checkpoints::caches::{load_cache, save_cache, save_cache_after};
use lru_cache_checkpoints::deadlines::{load_deadlines, save_deadlines, save_deadlines_after};
use lru_cache_checkpoints::shared::{load_shared, save_shared, save_shared_after};
use lru_cache_checkpoints::shared_deadlines::{
    load_shared_deadlines, save_shared_deadlines, save_shared_deadlines_after,
};
use lru_cache_checkpoints::{
    cache_captures, deadline_captures, shared_captures, shared_deadline_captures,
};
use lru_cores::lru_core::LruCore;
use lru_deadlines::deadlines::DeadlineCache;
use lru_folder::folder::Folder;
use lru_frames::row::Row;
use lru_generations::generations::Saved;
use lru_memory_folder::memory_folder::MemoryFolder;
use lru_order_checkpoints::cores::{load_core, save_core, save_core_after};
use lru_order_checkpoints::locks::{load_lru, save_lru, save_lru_after};
use lru_order_checkpoints::{core_captures, shared_captures as order_captures};
use lru_owned_cache::cache::Cache;
use lru_shared_cache::shared::SharedCache;
use lru_shared_deadlines::shared::{Ages, Limits, SharedDeadlineCache};
use lru_shared_order::lru::Lru;
use std::alloc::Global;
use std::sync::Wait;
use std::test::Fail;

// Keys and weights: one that weighs nothing, and one that weighs much.
static ROWS: [(u64, usize); 3] = [(3, 70_000), (1, 0), (5, 3)];

const LIMIT: usize = 200_000;

fn folder(alloc: Global) -> Result<MemoryFolder, Fail> {
    let mut folder = MemoryFolder::new(alloc);
    folder.make("d")?;
    Ok(folder)
}

// Each test goes in steps, which are functions of their own: one fills, one saves, and one loads and looks.

// The generation of a save, if it kept the one before it.
fn kept_by(saved: &Saved, before: u64) -> Option<u64> {
    (saved.kept == Some(before)).then_some(saved.generation)
}

// Whether these are the rows that were put, the last one first.
fn are_as_put(rows: &[Row<u64, u64>]) -> bool {
    (rows.len() == 3)
        && rows.iter().zip(ROWS.iter().rev()).all(|(row, (key, weight))| (row.key == *key)
            & (row.data == (*key ^ 100))
            & (row.weight == *weight))
}

fn filled_cache(alloc: Global) -> Result<Cache<u64, u64>, Fail> {
    let mut cache: Cache<u64, u64> = Cache::new(alloc, LIMIT, 9)?;
    for (key, weight) in &ROWS {
        cache.put(*key, *key ^ 100, *weight, |_gone| {})?;
    }
    Ok(cache)
}

fn save_cache_twice(
    alloc: Global,
    folder: &mut MemoryFolder,
    cache: &Cache<u64, u64>,
) -> Result<Option<u64>, Fail> {
    let first = save_cache(alloc, folder, "d", "c", cache)?;
    let known = Some(&first.known);
    let saved = save_cache_after(alloc, folder, "d", "c", cache, known)?;
    Ok(kept_by(&saved, first.generation))
}

fn is_cache_there(alloc: Global, folder: &mut MemoryFolder, generation: u64) -> Result<bool, Fail> {
    let mut again: Cache<u64, u64> = Cache::new(alloc, LIMIT, 9)?;
    let restored = load_cache(alloc, folder, "d", "c", &mut again)?;
    let is_told = (restored.generation == Some(generation)) & (restored.left_out == 0);
    let is_known = restored.known.is_some();
    Ok(is_told & is_known & are_as_put(&cache_captures::capture_cache(alloc, &again)?))
}

fn cache_comes_back(alloc: Global) -> Result<bool, Fail> {
    let mut folder = folder(alloc)?;
    let cache = filled_cache(alloc)?;
    match save_cache_twice(alloc, &mut folder, &cache)? {
        Some(generation) => is_cache_there(alloc, &mut folder, generation),
        None => Ok(false),
    }
}

// The same under a limit that the heavy one is above: it is left out, and told.
fn heavy_is_told(alloc: Global) -> Result<bool, Fail> {
    let mut folder = folder(alloc)?;
    let mut cache: Cache<u64, u64> = Cache::new(alloc, LIMIT, 9)?;
    for (key, weight) in &ROWS {
        cache.put(*key, *key, *weight, |_gone| {})?;
    }
    save_cache(alloc, &mut folder, "d", "c", &cache)?;
    let mut small: Cache<u64, u64> = Cache::new(alloc, 5, 9)?;
    let restored = load_cache(alloc, &mut folder, "d", "c", &mut small)?;
    Ok((restored.left_out == 1) & (small.len() == 2) & (small.weight() == 3))
}

// Nothing is put where no checkpoint is.
fn nothing_comes_of_nothing(alloc: Global) -> Result<bool, Fail> {
    let mut folder = folder(alloc)?;
    let mut cache: Cache<u64, u64> = Cache::new(alloc, LIMIT, 9)?;
    let restored = load_cache(alloc, &mut folder, "d", "c", &mut cache)?;
    Ok(restored.generation.is_none() & restored.passed.is_empty() & (cache.len() == 0))
}

#[test]
fn a_cache_by_one_call(rt: HostRuntime) -> Result<(), Fail> {
    assert!(rt; cache_comes_back(rt.alloc())?);
    assert!(rt; heavy_is_told(rt.alloc())? & nothing_comes_of_nothing(rt.alloc())?);
    Ok(())
}

// One that lives on, one that is past its deadline, and one that has none.
static DEADLINES: [u64; 3] = [40, 0, u64::MAX];

fn filled_deadlines(alloc: Global) -> Result<DeadlineCache<u64, u64>, Fail> {
    let mut cache: DeadlineCache<u64, u64> = DeadlineCache::new(alloc, LIMIT, 9)?;
    for ((key, weight), deadline) in ROWS.iter().zip(DEADLINES.iter()) {
        cache.put_until(*key, *key ^ 100, *weight, *deadline, |_gone| {})?;
    }
    Ok(cache)
}

fn save_deadlines_twice(
    alloc: Global,
    folder: &mut MemoryFolder,
    cache: &DeadlineCache<u64, u64>,
) -> Result<Option<u64>, Fail> {
    let first = save_deadlines(alloc, folder, "d", "c", cache)?;
    let known = Some(&first.known);
    let saved = save_deadlines_after(alloc, folder, "d", "c", cache, known)?;
    Ok(kept_by(&saved, first.generation))
}

fn are_deadlines_as_put(rows: &[Row<u64, (u64, u64)>]) -> bool {
    let wanted = [(5u64, u64::MAX, 3usize), (1, 0, 0), (3, 40, 70_000)];
    (rows.len() == 3)
        && rows.iter().zip(wanted.iter()).all(|(row, (key, deadline, weight))| (row.key == *key)
            & (row.data == (*key ^ 100, *deadline))
            & (row.weight == *weight))
}

fn are_deadlines_there(
    alloc: Global,
    folder: &mut MemoryFolder,
    generation: u64,
) -> Result<bool, Fail> {
    let mut again: DeadlineCache<u64, u64> = DeadlineCache::new(alloc, LIMIT, 9)?;
    let restored = load_deadlines(alloc, folder, "d", "c", &mut again)?;
    let is_told = (restored.generation == Some(generation)) & (restored.left_out == 0);
    let is_known = restored.known.is_some();
    let rows = deadline_captures::capture_deadlines(alloc, &again)?;
    Ok(is_told & is_known & are_deadlines_as_put(&rows))
}

fn deadlines_come_back(alloc: Global) -> Result<bool, Fail> {
    let mut folder = folder(alloc)?;
    let cache = filled_deadlines(alloc)?;
    match save_deadlines_twice(alloc, &mut folder, &cache)? {
        Some(generation) => are_deadlines_there(alloc, &mut folder, generation),
        None => Ok(false),
    }
}

// Those of two checkpoints in turn: what is loaded second stands in front.
fn deadlines_stand_in_front(alloc: Global) -> Result<bool, Fail> {
    let mut folder = folder(alloc)?;
    let mut cache: DeadlineCache<u64, u64> = DeadlineCache::new(alloc, LIMIT, 9)?;
    cache.put_until(3, 7, 1, 40, |_gone| {})?;
    save_deadlines(alloc, &mut folder, "d", "c", &cache)?;
    let mut again: DeadlineCache<u64, u64> = DeadlineCache::new(alloc, LIMIT, 9)?;
    again.put_until(4, 8, 1, 50, |_gone| {})?;
    load_deadlines(alloc, &mut folder, "d", "c", &mut again)?;
    let rows = deadline_captures::capture_deadlines(alloc, &again)?;
    match rows.as_slice() {
        [first, second] => Ok((first.key == 3) & (second.key == 4)),
        _ => Ok(false),
    }
}

#[test]
fn a_cache_with_deadlines_by_one_call(rt: HostRuntime) -> Result<(), Fail> {
    assert!(rt; deadlines_come_back(rt.alloc())? & deadlines_stand_in_front(rt.alloc())?);
    Ok(())
}

// What a key weighs.
fn weight_of(key: u64) -> usize {
    ROWS.iter()
        .find(|(put, _)| *put == key)
        .map_or(usize::MAX, |(_, weight)| *weight)
}

// Each shard of three entries in two has its own entries, with their weights. No two shards have as many.
fn shards_are_their_own<R: Wait>(
    rt: &R,
    alloc: Global,
    cache: &SharedCache<u64, u64, 2>,
) -> Result<bool, Fail> {
    for shard in 0..2usize {
        let rows = shared_captures::capture_shard(rt, alloc, cache, shard)?;
        let is_whole = rows.len() == cache.shard_len(rt, shard);
        if !is_whole || !rows.iter().all(|row| row.weight == weight_of(row.key)) {
            return Ok(false);
        }
    }
    Ok(cache.len(rt) == 3)
}

fn filled_shared<R: Wait>(rt: &R, alloc: Global) -> Result<SharedCache<u64, u64, 2>, Fail> {
    let cache: SharedCache<u64, u64, 2> = SharedCache::new(alloc, LIMIT, 18)?;
    for (key, weight) in &ROWS {
        cache.put(rt, *key, *key ^ 100, *weight, |_gone| {})?;
    }
    Ok(cache)
}

fn save_shared_twice<R: Wait>(
    rt: &R,
    alloc: Global,
    folder: &mut MemoryFolder,
    cache: &SharedCache<u64, u64, 2>,
) -> Result<Option<u64>, Fail> {
    let first = save_shared(rt, alloc, folder, "d", "c", cache)?;
    let known = Some(&first.known);
    let saved = save_shared_after(rt, alloc, folder, "d", "c", cache, known)?;
    Ok(kept_by(&saved, first.generation))
}

fn is_shared_there<R: Wait>(
    rt: &R,
    alloc: Global,
    folder: &mut MemoryFolder,
    generation: u64,
) -> Result<bool, Fail> {
    let again: SharedCache<u64, u64, 2> = SharedCache::new(alloc, LIMIT, 18)?;
    let restored = load_shared(rt, alloc, folder, "d", "c", &again)?;
    let is_told = (restored.generation == Some(generation)) & (restored.left_out == 0);
    let is_known = restored.known.is_some();
    Ok(is_told & is_known & shards_are_their_own(rt, alloc, &again)?)
}

fn shared_comes_back<R: Wait>(rt: &R, alloc: Global) -> Result<bool, Fail> {
    let mut folder = folder(alloc)?;
    let cache = filled_shared(rt, alloc)?;
    if !shards_are_their_own(rt, alloc, &cache)? {
        return Ok(false);
    }
    match save_shared_twice(rt, alloc, &mut folder, &cache)? {
        Some(generation) => is_shared_there(rt, alloc, &mut folder, generation),
        None => Ok(false),
    }
}

#[test]
fn a_cache_that_threads_share_by_one_call(rt: HostRuntime) -> Result<(), Fail> {
    assert!(rt; shared_comes_back(&rt, rt.alloc())?);
    Ok(())
}

// Entries are answered up to 60 after they were put, and up to 20 after their last use.
const AGES: Ages = Ages { live: 60, idle: 20 };

type Ending = SharedDeadlineCache<u64, u64, 2>;

fn ending(alloc: Global) -> Result<Ending, Fail> {
    let limits = Limits {
        weight: LIMIT,
        entries: 18,
    };
    Ok(SharedDeadlineCache::new(alloc, limits, AGES)?)
}

// Entries that were put at 100.
fn filled_ending<R: Wait>(rt: &R, alloc: Global) -> Result<Ending, Fail> {
    let cache = ending(alloc)?;
    for (key, weight) in &ROWS {
        cache.put(rt, 100, *key, *key ^ 100, *weight, |_gone| {})?;
    }
    Ok(cache)
}

fn ends_as_put(row: &Row<u64, (u64, (u64, u64))>) -> bool {
    (row.data == (row.key ^ 100, (160, 120))) & (row.weight == weight_of(row.key))
}

// Each of two shards has its own entries, with their weights, ends and deadlines.
fn all_end_as_put<R: Wait>(rt: &R, alloc: Global, cache: &Ending) -> Result<bool, Fail> {
    for shard in 0..2usize {
        let rows = shared_deadline_captures::capture_shard(rt, alloc, cache, shard)?;
        let is_whole = rows.len() == cache.shard_len(rt, shard);
        if !is_whole || !rows.iter().all(ends_as_put) {
            return Ok(false);
        }
    }
    Ok(cache.len(rt) == 3)
}

fn save_ending_twice<R: Wait>(
    rt: &R,
    alloc: Global,
    folder: &mut MemoryFolder,
    cache: &Ending,
) -> Result<Option<u64>, Fail> {
    let first = save_shared_deadlines(rt, alloc, folder, "d", "c", cache)?;
    let known = Some(&first.known);
    let saved = save_shared_deadlines_after(rt, alloc, folder, "d", "c", cache, known)?;
    Ok(kept_by(&saved, first.generation))
}

fn is_ending_there<R: Wait>(
    rt: &R,
    alloc: Global,
    folder: &mut MemoryFolder,
    generation: u64,
) -> Result<bool, Fail> {
    let again = ending(alloc)?;
    let restored = load_shared_deadlines(rt, alloc, folder, "d", "c", &again)?;
    let is_told = (restored.generation == Some(generation)) & (restored.left_out == 0);
    Ok(is_told & restored.known.is_some() & all_end_as_put(rt, alloc, &again)?)
}

fn ending_comes_back<R: Wait>(rt: &R, alloc: Global) -> Result<bool, Fail> {
    let mut folder = folder(alloc)?;
    let cache = filled_ending(rt, alloc)?;
    match save_ending_twice(rt, alloc, &mut folder, &cache)? {
        Some(generation) => is_ending_there(rt, alloc, &mut folder, generation),
        None => Ok(false),
    }
}

#[test]
fn a_cache_whose_entries_end_by_one_call(rt: HostRuntime) -> Result<(), Fail> {
    assert!(rt; ending_comes_back(&rt, rt.alloc())?);
    Ok(())
}

// Rows of one shard of two, which an order has: none weighs nothing.
static HEAVIER: [(u64, usize); 3] = [(3, 70_000), (1, 1), (5, 3)];

fn are_as_admitted(rows: &[Row<u64, u64>]) -> bool {
    (rows.len() == 3)
        && rows.iter().zip(HEAVIER.iter().rev()).all(|(row, (key, weight))| (row.key == *key)
            & (row.data == (*key ^ 100))
            & (row.weight == *weight))
}

fn filled_core(alloc: Global) -> Result<LruCore<(u64, u64), 2>, Fail> {
    let mut core: LruCore<(u64, u64), 2> = LruCore::with_capacity(alloc, LIMIT, 4)?;
    for (key, weight) in &HEAVIER {
        core.admit(*key, (*key, *key ^ 100), *weight)?;
    }
    Ok(core)
}

fn save_core_twice(
    alloc: Global,
    folder: &mut MemoryFolder,
    core: &LruCore<(u64, u64), 2>,
) -> Result<Option<u64>, Fail> {
    let first = save_core(alloc, folder, "d", "c", core)?;
    let known = Some(&first.known);
    let saved = save_core_after(alloc, folder, "d", "c", core, known)?;
    Ok(kept_by(&saved, first.generation))
}

fn is_core_there(alloc: Global, folder: &mut MemoryFolder, generation: u64) -> Result<bool, Fail> {
    let mut again: LruCore<(u64, u64), 2> = LruCore::with_capacity(alloc, LIMIT, 4)?;
    let restored = load_core(alloc, folder, "d", "c", &mut again)?;
    let is_told = (restored.generation == Some(generation)) & restored.known.is_some();
    Ok(is_told & are_as_admitted(&core_captures::capture_shard(alloc, &again, 1)?))
}

fn core_comes_back(alloc: Global) -> Result<bool, Fail> {
    let mut folder = folder(alloc)?;
    let core = filled_core(alloc)?;
    match save_core_twice(alloc, &mut folder, &core)? {
        Some(generation) => is_core_there(alloc, &mut folder, generation),
        None => Ok(false),
    }
}

#[test]
fn a_core_by_one_call(rt: HostRuntime) -> Result<(), Fail> {
    assert!(rt; core_comes_back(rt.alloc())?);
    Ok(())
}

fn filled_lru<R: Wait>(rt: &R, alloc: Global) -> Result<Lru<(u64, u64), 2>, Fail> {
    let lru: Lru<(u64, u64), 2> = Lru::with_capacity(alloc, LIMIT, 4)?;
    for (key, weight) in &HEAVIER {
        lru.admit(rt, *key, (*key, *key ^ 100), *weight)?;
    }
    Ok(lru)
}

fn save_lru_twice<R: Wait>(
    rt: &R,
    alloc: Global,
    folder: &mut MemoryFolder,
    lru: &Lru<(u64, u64), 2>,
) -> Result<Option<u64>, Fail> {
    let first = save_lru(rt, alloc, folder, "d", "c", lru)?;
    let known = Some(&first.known);
    let saved = save_lru_after(rt, alloc, folder, "d", "c", lru, known)?;
    Ok(kept_by(&saved, first.generation))
}

fn is_lru_there<R: Wait>(
    rt: &R,
    alloc: Global,
    folder: &mut MemoryFolder,
    generation: u64,
) -> Result<bool, Fail> {
    let again: Lru<(u64, u64), 2> = Lru::with_capacity(alloc, LIMIT, 4)?;
    let restored = load_lru(rt, alloc, folder, "d", "c", &again)?;
    let is_told = (restored.generation == Some(generation)) & restored.known.is_some();
    Ok(is_told & are_as_admitted(&order_captures::capture_shard(rt, alloc, &again, 1)?))
}

fn lru_comes_back<R: Wait>(rt: &R, alloc: Global) -> Result<bool, Fail> {
    let mut folder = folder(alloc)?;
    let lru = filled_lru(rt, alloc)?;
    match save_lru_twice(rt, alloc, &mut folder, &lru)? {
        Some(generation) => is_lru_there(rt, alloc, &mut folder, generation),
        None => Ok(false),
    }
}

#[test]
fn an_order_that_threads_share_by_one_call(rt: HostRuntime) -> Result<(), Fail> {
    assert!(rt; lru_comes_back(&rt, rt.alloc())?);
    Ok(())
}
