//! An index over keys that stand in a vector.
ghost use Rattle.std.specs.Prelude.{◌*◌, ◌/◌, ◌%◌, ◌^◌};
ghost use Rattle.lru_index.specs.Hashing.{written};

use crate::table::{Rows, add, add_colliding, add_steps, longest, no_rows, take, take_at, take_by};
use lru_index::hashing::{SeededHasher, SeededHashes};
use lru_index::place_index::PlaceIndex;
use std::alloc::{AllocError, Global};
use std::hash::{BuildHasher, Hasher};
use std::test::Fail;

const MILLION: u32 = 1_000_000;

// The most keys of one chain, where at most three keys stand for four heads.
const LONGEST: u64 = 16;

// A hasher that gives each key the same hash, so that all stand in one chain.
#[derive(Clone, Copy)]
struct Same;

impl Hasher for Same {
    ghost write = { λ s _. s };

    ghost finish = { λ _. 7 };

    fn finish(&self) -> u64 {
        7
    }

    fn write(&mut self, _bytes: &[u8]) {}
}

impl BuildHasher for Same {
    type Hasher = Same;

    ghost build_hasher = { λ s. s };

    fn build_hasher(&self) -> Same {
        *self
    }
}

// A hasher of a seed, of whose hashes the top bits alone are left, as many as tell the homes of a million keys. So the bits of all
// cells are 0, and a look-up reads each key of its chain.
#[derive(Clone, Copy)]
struct Coarse {
    hasher: SeededHasher,
}

impl Hasher for Coarse {
    ghost write = { λ s bytes. record s { hasher = written s.hasher bytes } };

    ghost finish = { λ s. s.hasher.state / 2 ^ 43 * 2 ^ 43 % 2 ^ 64 };

    #[inline(always)]
    fn finish(&self) -> u64 {
        self.hasher.finish() >> 43 << 43
    }

    #[inline(always)]
    fn write(&mut self, bytes: &[u8]) {
        self.hasher.write(bytes);
    }
}

impl BuildHasher for Coarse {
    type Hasher = Coarse;

    ghost build_hasher = { λ s. s };

    #[inline(always)]
    fn build_hasher(&self) -> Coarse {
        *self
    }
}

fn top_bits(hashes: SeededHashes) -> Coarse {
    Coarse {
        hasher: hashes.initial,
    }
}

#[test]
fn finds_what_was_put(rt: HostRuntime) -> Result<(), Fail> {
    let mut rows = no_rows(rt.alloc())?;
    let mut index = PlaceIndex::with_capacity(rt.alloc(), 0)?;
    let first = add(&mut rows, &mut index, 7u64)?;
    let second = add(&mut rows, &mut index, 9u64)?;
    let found = index.find(&rows, &7);
    let taken = take(&mut rows, &mut index, &7);
    let left = (index.find(&rows, &7), index.find(&rows, &9));
    assert_eq!(rt;
        (first, second, found, taken, left),
        (1, 2, Some(1), Some(1), (None, Some(2)))
    );
    Ok(())
}

// The room of an index, and how many keys were read: at first, and as it grows by a place too many; and what it finds then of
// the last key and of the next.
fn grown(alloc: Global) -> Result<([(u32, u64); 4], [Option<u32>; 2]), AllocError> {
    let mut rows = no_rows(alloc)?;
    // 128 heads, which are for 98 places
    let mut index = PlaceIndex::with_capacity(alloc, 80)?;
    let first = (index.room(), 0);
    add_steps(&mut rows, &mut index, 0, 1, 79)?;
    rows.reads.set(0);
    index.reserve(&rows, 81)?;
    let second = (index.room(), rows.reads.get());
    index.reserve(&rows, 97)?;
    let third = (index.room(), rows.reads.get());
    index.reserve(&rows, 99)?;
    let fourth = (index.room(), rows.reads.get());
    let found = [index.find(&rows, &78), index.find(&rows, &79)];
    Ok(([first, second, third, fourth], found))
}

#[test]
fn makes_room(rt: HostRuntime) -> Result<(), Fail> {
    let (rooms, found) = grown(rt.alloc())?;
    // as far as the heads reach, and then the chains are made anew
    assert_eq!(rt; rooms, [(80, 0), (96, 0), (98, 0), (114, 79)]);
    assert_eq!(rt; found, [Some(79), None]);
    Ok(())
}

#[test]
fn finds_texts(rt: HostRuntime) -> Result<(), Fail> {
    let mut rows = no_rows(rt.alloc())?;
    let mut index = PlaceIndex::with_capacity_and_seed(rt.alloc(), 10, 3)?;
    add(&mut rows, &mut index, String::from_str(rt.alloc(), "one")?)?;
    add(&mut rows, &mut index, String::from_str(rt.alloc(), "two")?)?;
    let two = String::from_str(rt.alloc(), "two")?;
    let found = index.find(&rows, &two);
    let taken = take(&mut rows, &mut index, &two);
    let left = index.find(&rows, &two);
    assert_eq!(rt; (found, taken, left), (Some(2), Some(2), None));
    Ok(())
}

#[test]
fn takes_by_what_stands_for_a_key_and_by_place(rt: HostRuntime) -> Result<(), Fail> {
    let mut rows = no_rows(rt.alloc())?;
    let mut index = PlaceIndex::with_capacity(rt.alloc(), 0)?;
    add(
        &mut rows,
        &mut index,
        Some(String::from_str(rt.alloc(), "one")?),
    )?;
    add(
        &mut rows,
        &mut index,
        Some(String::from_str(rt.alloc(), "two")?),
    )?;
    add(
        &mut rows,
        &mut index,
        Some(String::from_str(rt.alloc(), "three")?),
    )?;
    let taken = (
        take_by(&mut rows, &mut index, Some("two")),
        take_by(&mut rows, &mut index, Some("two")),
        take_at(&mut rows, &mut index, 3),
        take_at(&mut rows, &mut index, 3),
    );
    let left = [
        index.find_by(&rows, Some("one")),
        index.find_by(&rows, Some("two")),
        index.find_by(&rows, Some("three")),
    ];
    assert_eq!(rt;
        (taken, left),
        ((Some(2), None, true, false), [Some(1), None, None])
    );
    Ok(())
}

#[test]
fn one_chain_holds_all_keys(rt: HostRuntime) -> Result<(), Fail> {
    let mut rows = no_rows(rt.alloc())?;
    let mut index = PlaceIndex::with_capacity_and_hasher(rt.alloc(), 0, Same)?;
    add_steps(&mut rows, &mut index, 1, 1, 100)?;
    let all = longest(&rows, &index);
    // the first of the chain, the last, and one between
    let taken = [
        take(&mut rows, &mut index, &100),
        take(&mut rows, &mut index, &1),
        take(&mut rows, &mut index, &50),
        take(&mut rows, &mut index, &50),
    ];
    let left = longest(&rows, &index);
    assert_eq!(rt;
        (all, taken, left),
        (100, [Some(100), Some(1), Some(50), None], 97)
    );
    Ok(())
}

fn chain_of_steps(alloc: Global, first: u64, step: u64) -> Result<u64, AllocError> {
    let mut rows = no_rows(alloc)?;
    let mut index = PlaceIndex::with_capacity_and_hasher(
        alloc,
        0,
        top_bits(SeededHashes::fixed()),
    )?;
    add_steps(&mut rows, &mut index, first, step, MILLION)?;
    Ok(longest(&rows, &index))
}

#[test]
fn chains_of_multiples_are_short(rt: HostRuntime) -> Result<(), Fail> {
    for power in [0u32, 1, 4, 8, 12, 16, 20, 24, 28, 32, 36, 40, 44] {
        assert!(rt;
            chain_of_steps(rt.alloc(), 0, 1u64 << power)? <= LONGEST,
            "multiples of 2 to the {power}"
        );
    }
    Ok(())
}

#[test]
fn chains_of_runs_are_short(rt: HostRuntime) -> Result<(), Fail> {
    for first in [1u64, 1_000_000_000_007, 0xFFFF_FFFF_FFF0_0000] {
        assert!(rt;
            chain_of_steps(rt.alloc(), first, 1)? <= LONGEST,
            "from {first}"
        );
    }
    Ok(())
}

// The longest chain of keys that collide under the seed 1, of so many, under another one.
fn chain_of_colliding(alloc: Global, seed: u64, count: u32) -> Result<u64, AllocError> {
    let mut rows = no_rows(alloc)?;
    let hashes = top_bits(SeededHashes::with_seed(seed));
    let mut index = PlaceIndex::with_capacity_and_hasher(alloc, 0, hashes)?;
    add_colliding(&mut rows, &mut index, 1, count)?;
    Ok(longest(&rows, &index))
}

#[test]
fn keys_that_collide_under_another_seed_do_not(rt: HostRuntime) -> Result<(), Fail> {
    let other = chain_of_colliding(rt.alloc(), 2, 64 * MILLION)?;
    let same = chain_of_colliding(rt.alloc(), 1, 64 * MILLION)?;
    assert!(rt; other <= LONGEST && same > LONGEST);
    Ok(())
}

// How many keys are read to find none of so many others.
fn reads_in_vain(alloc: Global) -> Result<u64, AllocError> {
    let mut rows = no_rows(alloc)?;
    let mut index = PlaceIndex::with_capacity(alloc, 0)?;
    add_steps(&mut rows, &mut index, 0, 1, 10_000)?;
    rows.reads.set(0);
    for key in 10_000..20_000u64 {
        let _place = index.find(&rows, &key);
    }
    Ok(rows.reads.get())
}

#[test]
fn the_bits_of_cells_spare_looks_at_other_keys(rt: HostRuntime) -> Result<(), Fail> {
    // 17 bits of each hash stand in its cell
    assert!(rt; reads_in_vain(rt.alloc())? <= 3);
    Ok(())
}
