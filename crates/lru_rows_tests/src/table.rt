//! Keys in a vector, and the index of their places.
ghost use Rattle.std.specs.Prelude.{◌≡◌, ℕ, IfOk, None, nat_eq};
ghost use Rattle.std.specs.Hash as fed;
ghost use Rattle.lru_index.specs.Hashing.{key_hash};
ghost use Rattle.lru_index.specs.Index.{Indexes};
ghost use Rattle.lru_rows_tests.specs.Rows.{key_in};

use lru_index::hashing::SeededHashes;
use lru_index::keys::{Keys, Query};
use lru_index::place_index::PlaceIndex;
use std::alloc::{AllocError, Global};
use std::cell::Cell;
use std::hash::{BuildHasher, Hash};

// A place has 32 bits, and one number is left for the room above it.
const MOST_PLACES: usize = 4294967295;

/// The key of each place, and how many keys were read.
#[derive(Drop)]
pub struct Rows<K> {
    pub keys: Vec<Option<K>>,
    pub reads: Cell<u64>,
}

impl<K> Keys<K> for Rows<K> {
    ghost key_of = { λ rows p. key_in rows.keys.items p };

    fn is_live(&self, place: u32) -> bool {
        match self.keys.get(place as usize) {
            Some(key) => key.is_some(),
            None => false,
        }
    }

    fn key_at(&self, place: u32) -> &K {
        self.reads.set(self.reads.get().wrapping_add(1));
        match &self.keys[place as usize] {
            Some(key) => key,
            None => unreachable!(),
        }
    }
}

/// Rows of no keys. Place 0 is none.
pub fn no_rows<K>(alloc: Global) -> Result<Rows<K>, AllocError>
where
    K: Drop,
    ensures { IfOk result (λ rows. (p : ℕ) → key_in rows.keys.items p ≡ None) }
{
    let mut keys = Vec::new(alloc);
    match keys.push(None) {
        Ok(()) => {}
        Err(_) => return Err(AllocError),
    }
    Ok(Rows {
        keys,
        reads: Cell::new(0),
    })
}

/// Puts a key that has no place behind the others, and answers its place, or the place that it has.
pub fn add<K: Hash + Drop, S: BuildHasher>(
    rows: &mut Rows<K>,
    index: &mut PlaceIndex<S>,
    key: K,
) -> Result<u32, AllocError>
    requires { Indexes K.eq (key_hash S.BuildHasher S.Hasher.Hasher K.hash_input) index.old (key_in rows.old.keys.items) }
    ensures { Indexes K.eq (key_hash S.BuildHasher S.Hasher.Hasher K.hash_input) index.new (key_in rows.new.keys.items) }
{
    if let Some(place) = index.find(&*rows, &key) {
        return Ok(place);
    }
    let len = rows.keys.len();
    if len == 0 || len >= MOST_PLACES {
        return Err(AllocError);
    }
    let place = len as u32;
    index.reserve(&*rows, place + 1)?;
    match rows.keys.push(Some(key)) {
        Ok(()) => {}
        Err(_) => return Err(AllocError),
    }
    index.insert(rows.key_at(place), place);
    Ok(place)
}

/// Takes a key away, and answers the place that it had.
pub fn take<K: Hash + Drop, S: BuildHasher>(
    rows: &mut Rows<K>,
    index: &mut PlaceIndex<S>,
    key: &K,
) -> Option<u32>
    requires { Indexes K.eq (key_hash S.BuildHasher S.Hasher.Hasher K.hash_input) index.old (key_in rows.old.keys.items) }
    ensures { Indexes K.eq (key_hash S.BuildHasher S.Hasher.Hasher K.hash_input) index.new (key_in rows.new.keys.items) }
{
    let place = index.remove(&*rows, key)?;
    rows.keys[place as usize] = None;
    Some(place)
}

/// Takes away the key that something stands for, and answers the place that it had.
pub fn take_by<K: Hash + Drop, Q: Query<K>, S: BuildHasher>(
    rows: &mut Rows<K>,
    index: &mut PlaceIndex<S>,
    query: Q,
) -> Option<u32>
    requires { Indexes K.eq (key_hash S.BuildHasher S.Hasher.Hasher K.hash_input) index.old (key_in rows.old.keys.items) }
    ensures { Indexes K.eq (key_hash S.BuildHasher S.Hasher.Hasher K.hash_input) index.new (key_in rows.new.keys.items) }
{
    let place = index.remove_by(&*rows, query)?;
    rows.keys[place as usize] = None;
    Some(place)
}

/// Takes away the key of a place. Whether it has one.
pub fn take_at<K: Hash + Drop, S: BuildHasher>(
    rows: &mut Rows<K>,
    index: &mut PlaceIndex<S>,
    place: u32,
) -> bool
    requires { Indexes K.eq (key_hash S.BuildHasher S.Hasher.Hasher K.hash_input) index.old (key_in rows.old.keys.items) }
    ensures { Indexes K.eq (key_hash S.BuildHasher S.Hasher.Hasher K.hash_input) index.new (key_in rows.new.keys.items) }
{
    let Some(Some(key)) = rows.keys.get(place as usize) else {
        return false;
    };
    index.remove_at(key, place);
    rows.keys[place as usize] = None;
    true
}

/// The most keys that are read to find one that is there: the length of the longest chain.
pub fn longest<S: BuildHasher>(rows: &Rows<u64>, index: &PlaceIndex<S>) -> u64
    requires { Indexes nat_eq (key_hash S.BuildHasher S.Hasher.Hasher fed.u64) index.now (key_in rows.now.keys.items) }
{
    let mut longest = 0;
    for key in &rows.keys {
        if let Some(key) = key {
            rows.reads.set(0);
            let _place = index.find(rows, key);
            longest = longest.max(rows.reads.get());
        }
    }
    longest
}

/// Adds so many keys, from one on by steps.
pub fn add_steps<S: BuildHasher>(
    rows: &mut Rows<u64>,
    index: &mut PlaceIndex<S>,
    first: u64,
    step: u64,
    count: u32,
) -> Result<(), AllocError>
    requires { Indexes nat_eq (key_hash S.BuildHasher S.Hasher.Hasher fed.u64) index.old (key_in rows.old.keys.items) }
    ensures { Indexes nat_eq (key_hash S.BuildHasher S.Hasher.Hasher fed.u64) index.new (key_in rows.new.keys.items) }
{
    let mut key = first;
    for _round in 0..count {
        let _place = add(rows, index, key)?;
        key = key.wrapping_add(step);
    }
    Ok(())
}

/// Adds those of so many numbers whose hash by another seed begins with six bits of 0.
pub fn add_colliding<S: BuildHasher>(
    rows: &mut Rows<u64>,
    index: &mut PlaceIndex<S>,
    seed: u64,
    count: u32,
) -> Result<(), AllocError>
    requires { Indexes nat_eq (key_hash S.BuildHasher S.Hasher.Hasher fed.u64) index.old (key_in rows.old.keys.items) }
    ensures { Indexes nat_eq (key_hash S.BuildHasher S.Hasher.Hasher fed.u64) index.new (key_in rows.new.keys.items) }
{
    let hashes = SeededHashes::with_seed(seed);
    for number in 0..count {
        let key = number as u64;
        if hashes.hash_one(key) >> 58 == 0 {
            let _place = add(rows, index, key)?;
        }
    }
    Ok(())
}
