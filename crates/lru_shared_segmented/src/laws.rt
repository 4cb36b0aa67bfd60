//! What walks make of a segmented cache in shards. These functions do nothing: their contracts are laws about the contracts of
//! the calls of a `ShardedSegmentedCache`.
ghost use Rattle.lru_index.specs.Hashing.{key_hash};
ghost use Rattle.lru_shared_cache.specs.Shards.{home};
ghost use Rattle.lru_shared_segmented.specs.Walks.{EachShardIsWalked, NoScanEvicts, ScansTakeTheEnds, NoRequestEvicts};

use lru_owned_cache::cache::Entry;
use std::hash::{BuildHasher, Hash};

/// No scan evicts a protected entry of any shard: after any list of looks, and of puts of keys that have no entry, each of
/// which fits beside the upper segment of its key's shard, the upper segment of each shard has the same entries with the same
/// values, in the same order. Heavier puts take entries from its end, and nothing else changes it. For to each shard is done
/// what a walk over its own keys does to a `SegmentedCache`.
pub fn no_scan_evicts<K: Hash, V, const N: usize, S: BuildHasher, F: FnMut(Entry<K, V>) + Drop>()
    ensures walks { (hashes : S) → EachShardIsWalked S (λ k. home N (key_hash S.BuildHasher S.Hasher.Hasher K.hash_input hashes k)) K.eq (λ p x q. F.step p x tt q) }
    ensures fitting { (hashes : S) → NoScanEvicts S (λ k. home N (key_hash S.BuildHasher S.Hasher.Hasher K.hash_input hashes k)) K.eq (λ p x q. F.step p x tt q) }
    ensures heavier { (hashes : S) → ScansTakeTheEnds S (λ k. home N (key_hash S.BuildHasher S.Hasher.Hasher K.hash_input hashes k)) K.eq (λ p x q. F.step p x tt q) }
{}

/// After any number of requests by `get_or_put_with` of keys that had no entry when they were asked for, the upper segment of
/// each shard is the same, where what is made fits beside that of its key's shard.
pub fn no_request_evicts<K: Hash, V: Clone, const N: usize, S: BuildHasher, E, M, F>()
where
    M: FnOnce() -> Result<(V, usize), E> + Drop,
    F: FnMut(Entry<K, V>) + Drop,
    ensures { (hashes : S) → NoRequestEvicts S (λ k. home N (key_hash S.BuildHasher S.Hasher.Hasher K.hash_input hashes k)) K.eq V.is_clone (λ p x q. F.step p x tt q) (λ make. M.post make) }
{}
