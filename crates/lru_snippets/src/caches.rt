//! A cache of keys and values.

use lru_cache::cache::{Cache, Cause};

/// The value of a key, which is used by that; a key that has none gets one, and what has to go for it is dropped.
pub fn value_of(cache: &mut Cache<u64, u64>, key: u64, bytes: usize) -> Result<u64, Cause> {
    if let Some(value) = cache.update(&key, |value, _bytes| *value) {
        return Ok(value);
    }
    let made = key.rotate_left(7);
    match cache.put(key, made, bytes, |_gone| {}) {
        Ok(_) => Ok(made),
        Err(refused) => Err(refused.cause), // and `refused.key` and `refused.value` are what was given
    }
}
