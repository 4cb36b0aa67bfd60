//! Caches of keys and values, which are never over their limit: the toolchain's `lru`, and `lru_owned_cache`.

use crate::order::Order;
use lru::LruCache;
use lru_owned_cache::cache::Cache;

impl Order for LruCache<u64, u64> {
    fn admit(&mut self, key: u64) -> bool {
        self.put(key, key).is_ok()
    }

    fn admit_and_evict(&mut self, key: u64) -> bool {
        self.put(key, key).is_ok()
    }

    fn promote(&mut self, key: u64) -> bool {
        LruCache::promote(self, &key)
    }

    fn peek(&self, key: u64) -> bool {
        LruCache::peek(self, &key).is_some()
    }

    fn peek_weight(&self, key: u64) -> bool {
        self.contains(&key)
    }

    fn remove(&mut self, key: u64) -> bool {
        self.pop(&key).is_some()
    }

    fn get_or_admit(&mut self, key: u64) -> bool {
        if LruCache::promote(self, &key) {
            return true;
        }
        let _ = self.put(key, key);
        false
    }

    fn odd_rows(&self) -> u64 {
        self.iter().filter(|row| *row.0 % 2 == 1).count() as u64
    }
}

impl Order for Cache<u64, u64> {
    fn admit(&mut self, key: u64) -> bool {
        self.put(key, key, 1, |_| {}).is_ok()
    }

    fn admit_and_evict(&mut self, key: u64) -> bool {
        self.put(key, key, 1, |_| {}).is_ok()
    }

    fn promote(&mut self, key: u64) -> bool {
        self.update(&key, |value, _| *value).is_some()
    }

    fn peek(&self, key: u64) -> bool {
        Cache::peek(self, &key).is_some()
    }

    fn peek_weight(&self, key: u64) -> bool {
        self.weight_of(&key).is_some()
    }

    fn remove(&mut self, key: u64) -> bool {
        Cache::remove(self, &key).is_some()
    }

    fn get_or_admit(&mut self, key: u64) -> bool {
        if self.update(&key, |value, _| *value).is_some() {
            return true;
        }
        let _ = self.put(key, key, 1, |_| {});
        false
    }

    fn odd_rows(&self) -> u64 {
        let mut odd = 0u64;
        for (_, value, _) in self.iter() {
            odd = odd.wrapping_add(*value % 2);
        }
        odd
    }
}
