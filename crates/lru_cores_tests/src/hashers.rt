//! Orders over a hasher of the caller's: SipHash-1-3.
use lru_cores::lru_core::LruCore;
use lru_cores::tiered::TieredCore;
use lru_shard::unit::LruUnit;
use std::alloc::Global;
use std::hash::{BuildHasherDefault, DefaultHasher};
use std::test::Fail;

const KEYS: u64 = 100;

type Keyed = BuildHasherDefault<DefaultHasher>;

// How many of a hundred keys, put in first to last, a shard, a core and the hot one of two tiers have, where even keys are
// taken out again.
fn kept(alloc: Global) -> Result<[usize; 3], Fail> {
    let hashes = Keyed::default();
    let mut unit = LruUnit::<u64, Keyed>::with_capacity_and_hasher(alloc, 0, 1000, hashes)?;
    let mut core = LruCore::<u64, 2, Keyed>::with_capacity_and_hasher(
        alloc, 1000, 0, None, hashes,
    )?;
    let mut tiers = TieredCore::<u64, 2, Keyed>::with_limits_and_hasher(
        alloc, 1000, 1000, 0, hashes,
    )?;
    for key in 0..KEYS {
        unit.admit(key, key, 1)?;
        core.admit(key, key, 1)?;
        tiers.admit(key, key, 1)?;
    }
    for half in 0..KEYS / 2 {
        let key = half * 2;
        let _taken = (unit.remove(key), core.remove(key), tiers.remove(key));
    }
    let odd = |key: &u64| key % 2 == 1;
    Ok([
        (0..KEYS)
            .filter(|key| unit.contains(*key) && odd(key))
            .count(),
        (0..KEYS).filter(|key| core.peek(*key) && odd(key)).count(),
        (0..KEYS)
            .filter(|key| tiers.hot().peek(*key) && odd(key))
            .count(),
    ])
}

#[test]
fn orders_stand_on_a_hasher_of_the_callers(rt: HostRuntime) -> Result<(), Fail> {
    assert_eq!(rt; kept(rt.alloc())?, [50; 3]);
    Ok(())
}
