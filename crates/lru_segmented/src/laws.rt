//! What walks and a missing share make of a segmented cache. These functions do nothing: their contracts are laws about the
//! contracts of the cache's calls.
ghost use Rattle.lru_segmented.specs.Laws.{PlainWithoutShare};
ghost use Rattle.lru_segmented.specs.Scans.{NoRequestEvicts, NoScanEvicts, ScansTakeTheEnd};

use lru_owned_cache::cache::Entry;
use std::hash::Hash;

/// No scan evicts a protected entry: after any list of looks, and of puts of keys that have no entry, each of which fits
/// beside the upper segment, that segment has the same entries with the same values, in the same order. Heavier puts take
/// entries from its end, and nothing else changes it.
pub fn no_scan_evicts<K: Hash, V, S, F: FnMut(Entry<K, V>) + Drop>()
    ensures fitting { NoScanEvicts S K.eq (λ p x q. F.step p x tt q) }
    ensures heavier { ScansTakeTheEnd S K.eq (λ p x q. F.step p x tt q) }
{}

/// After any number of requests by `use_or_put` of distinct keys that had no entry, the upper segment is the same, where what
/// is made fits beside it.
pub fn no_request_evicts<K: Hash, V, S, E, M, F>()
where
    M: FnOnce() -> Result<(V, usize), E> + Drop,
    F: FnMut(Entry<K, V>) + Drop,
    ensures { NoRequestEvicts S K.eq (λ p x q. F.step p x tt q) (λ make. M.post make) }
{}

/// With a share of nothing for the upper segment, each call does what the same call of a `Cache` does.
pub fn plain_without_share<K: Hash, V, S, R, E, U, M, F>()
where
    U: FnOnce(&mut V, usize) -> R + Drop,
    M: FnOnce() -> Result<(V, usize), E> + Drop,
    F: FnMut(Entry<K, V>) + Drop,
    ensures { PlainWithoutShare S K.eq (λ p x q. F.step p x tt q) (λ update. U.post update) (λ make. M.post make) }
{}
