//! Families of keys that collide under one seed, found by the hasher's definition, under others.
use lru_index::hashing::{SeededHasher, SeededHashes};
use std::alloc::{AllocError, Global};
use std::hash::{BuildHasher, DefaultHasher, Hash, Hasher};
use std::test::Fail;

const KEYS: u64 = 10_000;

// So many heads would stand for the keys; most keys of one head, where hashes spread.
const HEADS: usize = 16_384;

const LONGEST: u32 = 16;

// The number that FoldHasher of std multiplies each word with.
const FOLD_MULTIPLIER: u128 = 0x9e37_79b9_7f4a_7c15;

// The state after two words.
fn after(hasher: SeededHasher, state: u64, first: u64, second: u64) -> u64 {
    let factor = hasher.multiplier.wrapping_add(second) as u128;
    let product = ((state ^ first) as u128).wrapping_mul(factor);
    (product & 0xFFFF_FFFF_FFFF_FFFF) as u64 ^ (product >> 64) as u64
}

// The most keys of one head.
fn most_of_a_head<K: Hash>(
    alloc: Global,
    hashes: SeededHashes,
    keys: &[K],
) -> Result<u32, AllocError> {
    let mut heads = Vec::new(alloc);
    heads.resize(HEADS, 0u32)?;
    let mut most = 0;
    for key in keys {
        if let Some(count) = heads.get_mut((hashes.hash_one(key) >> 50) as usize) {
            *count = count.wrapping_add(1);
            most = most.max(*count);
        }
    }
    Ok(most)
}

// Whether keys that collide under the seed 1 spread under the next ones, and under the fixed one.
fn spreads_elsewhere<K: Hash>(alloc: Global, keys: &[K]) -> Result<bool, AllocError> {
    let mut most = most_of_a_head(alloc, SeededHashes::fixed(), keys)?;
    for seed in 2..20u64 {
        most = most.max(most_of_a_head(alloc, SeededHashes::with_seed(seed), keys)?);
    }
    Ok(most <= LONGEST)
}

// Whether all keys have one hash under the seed 1.
fn collides<K: Hash>(keys: &[K]) -> bool {
    let hashes = SeededHashes::with_seed(1);
    let mut hash = None;
    for key in keys {
        let next = hashes.hash_one(key);
        if hash.is_some_and(|before| before != next) {
            return false;
        }
        hash = Some(next);
    }
    keys.len() as u64 == KEYS
}

#[test]
fn seeds_are_those_of_the_generator(rt: HostRuntime) -> Result<(), Fail> {
    // the first numbers of SplitMix64 from 1234567, as they are published; the second is odd
    let hasher = SeededHashes::with_seed(1_234_567).initial;
    assert_eq!(rt;
        (hasher.state, hasher.multiplier),
        (6_457_827_717_110_365_317, 3_203_168_211_198_807_973)
    );
    Ok(())
}

// So many bytes, 0, 1, 2 and so on, and their hash by SipHash-1-3 under the key 0, as Rust's own `DefaultHasher` gives it.
static SIP_HASHES: [(u8, u64); 9] = [
    (0, 0xd1fb_a762_150c_532c),
    (1, 0x68a9_1412_8e01_e473),
    (7, 0x2f09_8ab0_c751_325a),
    (8, 0xead4_11e6_7ebe_2eea),
    (9, 0x7592_7f9d_9512_4362),
    (15, 0xf30e_b725_bb91_c9ea),
    (16, 0x8972_1884_33a5_c5b7),
    (20, 0x639e_355a_e68c_0100),
    (63, 0x385d_3e39_e5f3_7359),
];

// The first number of bytes, if there is one, whose hash is another, written at once or a byte at a time.
fn other_sip_hash(alloc: Global) -> Result<Option<u8>, AllocError> {
    for (count, wanted) in &SIP_HASHES {
        let mut bytes = Vec::new(alloc);
        let mut by_bytes = DefaultHasher::new();
        for byte in 0..*count {
            bytes.push(byte)?;
            by_bytes.write(&[byte]);
        }
        let mut at_once = DefaultHasher::new();
        at_once.write(&bytes);
        if (at_once.finish(), by_bytes.finish()) != (*wanted, *wanted) {
            return Ok(Some(*count));
        }
    }
    Ok(None)
}

#[test]
fn keyed_hashes_are_those_of_others(rt: HostRuntime) -> Result<(), Fail> {
    assert_eq!(rt; other_sip_hash(rt.alloc())?, None);
    Ok(())
}

// Numbers whose hashes begin alike: found by trying, since one word leaves nothing to solve.
fn numbers(alloc: Global) -> Result<Vec<u64>, AllocError> {
    let hashes = SeededHashes::with_seed(1);
    let mut keys = Vec::new(alloc);
    for number in 0..u64::MAX {
        if keys.len() as u64 == KEYS {
            break;
        }
        if hashes.hash_one(number) >> 54 == 0 {
            keys.push(number)?;
        }
    }
    Ok(keys)
}

#[test]
fn numbers_spread_under_other_seeds(rt: HostRuntime) -> Result<(), Fail> {
    let keys = numbers(rt.alloc())?;
    let same = most_of_a_head(rt.alloc(), SeededHashes::with_seed(1), &keys)?;
    let other = spreads_elsewhere(rt.alloc(), &keys)?;
    assert!(rt; same > 500 && other);
    Ok(())
}

// The sum of both words brings the multiplier to 0, and so the hash, whatever the first one is.
fn wide_numbers(alloc: Global) -> Result<Vec<u128>, AllocError> {
    let sum = SeededHashes::with_seed(1).initial.multiplier.wrapping_neg();
    let mut keys = Vec::new(alloc);
    for number in 0..KEYS {
        keys.push((sum.wrapping_sub(number) as u128) << 64 | number as u128)?;
    }
    Ok(keys)
}

#[test]
fn wide_numbers_spread_under_other_seeds(rt: HostRuntime) -> Result<(), Fail> {
    let keys = wide_numbers(rt.alloc())?;
    let mut signed = Vec::new(rt.alloc());
    let mut options = Vec::new(rt.alloc());
    for key in &keys {
        signed.push(key.cast_signed())?;
        options.push(Some(*key))?;
    }
    let same = [collides(&keys), collides(&signed), collides(&options)];
    let other = [
        spreads_elsewhere(rt.alloc(), &keys)?,
        spreads_elsewhere(rt.alloc(), &signed)?,
        spreads_elsewhere(rt.alloc(), &options)?,
    ];
    assert_eq!(rt; (same, other), ([true; 3], [true; 3]));
    Ok(())
}

// The second word is the state that the first one leaves, which brings the state to 0.
fn pairs(alloc: Global) -> Result<Vec<(u64, u64)>, AllocError> {
    let hasher = SeededHashes::with_seed(1).initial;
    let mut keys = Vec::new(alloc);
    for first in 0..KEYS {
        keys.push((first, after(hasher, hasher.state, first, first)))?;
    }
    Ok(keys)
}

// The same behind the length of an array.
fn arrays(alloc: Global) -> Result<Vec<[u64; 2]>, AllocError> {
    let hasher = SeededHashes::with_seed(1).initial;
    let start = after(hasher, hasher.state, 2, 2);
    let mut keys = Vec::new(alloc);
    for first in 0..KEYS {
        keys.push([first, after(hasher, start, first, first)])?;
    }
    Ok(keys)
}

#[test]
fn pairs_and_arrays_spread_under_other_seeds(rt: HostRuntime) -> Result<(), Fail> {
    let pairs = pairs(rt.alloc())?;
    let arrays = arrays(rt.alloc())?;
    let same = [collides(&pairs), collides(&arrays)];
    let other = [
        spreads_elsewhere(rt.alloc(), &pairs)?,
        spreads_elsewhere(rt.alloc(), &arrays)?,
    ];
    assert_eq!(rt; (same, other), ([true; 2], [true; 2]));
    Ok(())
}

// Texts of two blocks. The third word is the state that the first block leaves, where that is text itself.
fn texts(alloc: Global) -> Result<Vec<String>, AllocError> {
    let hasher = SeededHashes::with_seed(1).initial;
    let start = hasher.state.rotate_left(32 - 8);
    let filling = u64::from_le_bytes(*b"in front");
    let mut keys = Vec::new(alloc);
    for number in 0..u64::MAX {
        if keys.len() as u64 == KEYS {
            break;
        }
        // seven bits of the number to a byte
        let first = number & 0x7f | (number & 0x3f80) << 1 | (number & 0x1f_c000) << 2;
        let third = after(hasher, start, first | 0x4141_4141_0000_0000, filling);
        if third & 0x8080_8080_8080_8080 != 0 {
            continue;
        }
        let mut bytes = Vec::new(alloc);
        bytes.extend_from_slice(&(first | 0x4141_4141_0000_0000).to_le_bytes())?;
        bytes.extend_from_slice(b"in front")?;
        bytes.extend_from_slice(&third.to_le_bytes())?;
        bytes.extend_from_slice(b"the rest")?;
        keys.push(String::from_utf8_lossy(alloc, &bytes)?)?;
    }
    Ok(keys)
}

#[test]
fn texts_spread_under_other_seeds(rt: HostRuntime) -> Result<(), Fail> {
    let keys = texts(rt.alloc())?;
    let same = collides(&keys);
    let other = spreads_elsewhere(rt.alloc(), &keys)?;
    assert!(rt; same && other);
    Ok(())
}

#[test]
fn keys_that_collide_by_another_hasher_spread(rt: HostRuntime) -> Result<(), Fail> {
    let mut keys = Vec::new(rt.alloc());
    for number in 0..KEYS {
        keys.push(FOLD_MULTIPLIER << 64 | number as u128)?;
    }
    let mut most = most_of_a_head(rt.alloc(), SeededHashes::fixed(), &keys)?;
    for seed in 0..100u64 {
        most = most.max(most_of_a_head(rt.alloc(), SeededHashes::with_seed(seed), &keys)?);
    }
    assert!(rt; most <= LONGEST);
    Ok(())
}
