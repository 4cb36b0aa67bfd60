//! A shared cache of texts, whose clones take memory too.
use crate::checkpoint_saves::{folder, is_saved, loaded, text, write_rows};
use lru_cache_checkpoints::shared_captures::{SharedSource, capture_shard, restore_shards};
use lru_frames::row::Row;
use lru_memory_folder::memory_folder::MemoryFolder;
use lru_shared_cache::shared::SharedCache;
use std::alloc::{AllocError, Global};
use std::io;
use std::io::Write;
use std::sync::Wait;

type Texts = SharedCache<u64, String, 1>;

fn made(alloc: Global) -> Result<Texts, AllocError> {
    match Texts::new(alloc, 80, 40) {
        Ok(cache) => Ok(cache),
        Err(_) => Texts::with_seed(alloc, 80, 40, 0),
    }
}

fn is_put(rt: &impl Wait, cache: &Texts, key: u64, value: String) -> bool {
    match cache.put(rt, key, value, 2, |_gone| {}) {
        Ok(_) => true,
        Err(refused) => cache
            .put(rt, refused.key, refused.value, 2, |_gone| {})
            .is_ok(),
    }
}

fn filled(rt: &impl Wait, alloc: Global) -> Result<Option<Texts>, AllocError> {
    let cache = made(alloc)?;
    for key in 0..9 {
        if !is_put(rt, &cache, key, text(alloc)?) {
            return Ok(None);
        }
    }
    Ok(Some(cache))
}

fn captured(
    rt: &impl Wait,
    alloc: Global,
    cache: &Texts,
) -> Result<Vec<Row<u64, String>>, AllocError> {
    match capture_shard(rt, alloc, cache, 0) {
        Ok(rows) => Ok(rows),
        Err(_) => capture_shard(rt, alloc, cache, 0),
    }
}

// A cache with the entries that were saved. A refusal drops what is not put back, so it is loaded again.
fn restored(rt: &impl Wait, alloc: Global, folder: &mut MemoryFolder) -> io::Result<Option<Texts>> {
    for _ in 0..2 {
        let cache = made(alloc)?;
        let Ok(shards) = loaded(alloc, folder) else {
            return Ok(None);
        };
        if restore_shards(rt, &cache, shards).is_ok() {
            return Ok(Some(cache));
        }
    }
    Ok(None)
}

/// Saves a cache and brings it back; whether that was done.
pub fn script<W: Write>(rt: &impl Wait, alloc: Global, out: &mut W) -> io::Result<bool> {
    let (Some(cache), Some(mut folder)) = (filled(rt, alloc)?, folder(alloc)) else {
        return Ok(false);
    };
    let source = SharedSource { rt, cache: &cache };
    if !is_saved(alloc, &mut folder, &source) {
        return Ok(false);
    }
    let Some(again) = restored(rt, alloc, &mut folder)? else {
        return Ok(false);
    };
    write_rows(out, "entry", &captured(rt, alloc, &again)?)?;
    Ok(true)
}
