//! Keys and their numbers.
ghost use Rattle.std.specs.Prelude.{◌≡◌, IsTrue};
ghost use Rattle.lru_actors.specs.Keys.{hash_of};

use std::hash::{FoldHasher, Hash, Hasher};

/// The number by which the row of a key is known: the same in every run. Equal keys have equal numbers.
pub fn hash_key<K: Hash + Eq>(key: &K) -> u64
    ensures value { result ≡ hash_of (K.hash_input key.now) }
    ensures equal { (other : K) → IsTrue (K.eq key.now other) → result ≡ hash_of (K.hash_input other) }
{
    let mut hasher = FoldHasher::default();
    key.hash(&mut hasher);
    hasher.finish()
}
