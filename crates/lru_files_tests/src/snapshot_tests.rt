//! What the bytes of a shard are, and what loading them does.
ghost use Rattle.std.specs.Prelude.{◌<◌};

use log::sink;
use pingora_lru::lru_core::LruCore;
use pingora_lru::unit::Cause;
use pingora_lru_files::persistence::MemoryFolder;
use pingora_lru_files::snapshot::{
    Keyed, LoadError, load_core, load_shard, save_and_load, shard_bytes,
};
use rand::rngs::StdRng;
use rand_core::SeedableRng;
use std::alloc::{AllocError, Global};
use std::test::Fail;

fn empty<const N: usize>(alloc: Global) -> Result<LruCore<Keyed, N>, AllocError>
    requires { 0 < N }
{
    LruCore::with_capacity(alloc, 100, 0)
}

/// The one row key 2, value 20, weight 2.
const ROW: [u8; 24] = [
    2, 0, 0, 0, 0, 0, 0, 0, 20, 0, 0, 0, 0, 0, 0, 0, 2, 0, 0, 0, 0, 0, 0, 0,
];

/// Whether shard 0 of a core with that row has its bytes, and shard 1 none.
fn is_24_bytes(alloc: Global) -> Result<bool, AllocError> {
    let mut core = empty::<2>(alloc)?;
    let shard = core.admit(2, Keyed { key: 2, value: 20 }, 2).ok();
    let bytes = shard_bytes(alloc, &core, 0)?;
    let none = shard_bytes(alloc, &core, 1)?;
    Ok((shard, bytes.as_slice(), none.len()) == (Some(0), ROW.as_slice(), 0))
}

#[test]
fn a_row_is_24_bytes(rt: HostRuntime) -> Result<(), Fail> {
    assert!(rt; is_24_bytes(rt.alloc())?);
    Ok(())
}

/// The row with one byte more.
const LONG: [u8; 25] = [
    2, 0, 0, 0, 0, 0, 0, 0, 20, 0, 0, 0, 0, 0, 0, 0, 2, 0, 0, 0, 0, 0, 0, 0, 0,
];

/// Loads into an empty core, one after another: the shard, the bytes, the answer, and the bytes of shard 0 then. Shard 1
/// stays empty.
static LOADS: [(usize, &[u8], Result<usize, LoadError>, &[u8]); 5] = [
    (0, &[], Ok(0), &[]),
    (0, &LONG, Err(LoadError::Damaged), &[]),
    (1, &ROW, Err(LoadError::Damaged), &[]),
    (0, &ROW, Ok(1), &ROW),
    (0, &ROW, Err(LoadError::Damaged), &ROW),
];

/// The first load, if there is one, that ends otherwise.
fn wrong_load(alloc: Global) -> Result<Option<usize>, AllocError> {
    let mut core = empty::<2>(alloc)?;
    for (place, (shard, bytes, answer, held)) in LOADS.iter().enumerate() {
        let loaded = load_shard(alloc, &mut core, *shard % 2, bytes);
        let zero = shard_bytes(alloc, &core, 0)?;
        let one = shard_bytes(alloc, &core, 1)?;
        if (loaded, zero.as_slice(), one.len()) != (*answer, *held, 0) {
            return Ok(Some(place));
        }
    }
    Ok(None)
}

#[test]
fn bytes_are_loaded_or_nothing_changes(rt: HostRuntime) -> Result<(), Fail> {
    assert_eq!(rt; wrong_load(rt.alloc())?, None);
    Ok(())
}

/// A record with this key and this weight, and value 0.
const fn record(key: u8, weight: [u8; 8]) -> [u8; 24] {
    [
        key, 0, 0, 0, 0, 0, 0, 0, 0, 0, 0, 0, 0, 0, 0, 0, weight[0], weight[1], weight[2],
        weight[3], weight[4], weight[5], weight[6], weight[7],
    ]
}

/// A core whose shard 0 has one row, of key 4 and weight 0, with the bytes of that shard, the counts of both, and the
/// evicted totals.
fn shown(core: &LruCore<Keyed, 2>, alloc: Global) -> Result<(Vec<u8>, [usize; 4]), AllocError> {
    let counts = [
        core.len(),
        core.weight(),
        core.evicted_len(),
        core.evicted_weight(),
    ];
    Ok((shard_bytes(alloc, core, 0)?, counts))
}

/// A weight of 1, and the greatest that one of two shards may have.
const ONE: [u8; 8] = [1, 0, 0, 0, 0, 0, 0, 0];

const GREATEST: [u8; 8] = [255, 255, 255, 255, 255, 255, 255, 127];

/// The first of these, if there is one, that is not refused so, or that changes a shard or a count.
fn wrong_refusal(alloc: Global) -> Result<Option<usize>, AllocError> {
    let held = [record(2, ONE), record(4, ONE)];
    let twice = [record(2, ONE), record(2, ONE)];
    let heavy = [record(0, GREATEST), record(2, ONE)];
    let refused: [(&[u8], LoadError); 5] = [
        (&LONG, LoadError::Damaged),
        (&record(1, ONE), LoadError::Damaged),
        (twice.as_flattened(), LoadError::Damaged),
        (held.as_flattened(), LoadError::Damaged),
        (heavy.as_flattened(), LoadError::Unit(Cause::Weight)),
    ];
    let mut core = empty::<2>(alloc)?;
    if core.insert_tail(4, Keyed { key: 4, value: 40 }, 0).is_err() {
        return Ok(Some(9));
    }
    let before = shown(&core, alloc)?;
    for (place, (bytes, error)) in refused.iter().enumerate() {
        let loaded = load_shard(alloc, &mut core, 0, bytes);
        if (loaded != Err(*error)) | (shown(&core, alloc)? != before) {
            return Ok(Some(place));
        }
    }
    Ok(None)
}

#[test]
fn refused_bytes_change_nothing(rt: HostRuntime) -> Result<(), Fail> {
    assert_eq!(rt; wrong_refusal(rt.alloc())?, None);
    Ok(())
}

/// How each refusal is shown.
static TEXTS: [(LoadError, &str); 4] = [
    (LoadError::Damaged, "damaged"),
    (LoadError::Unit(Cause::Weight), "refused weight"),
    (LoadError::Unit(Cause::Length), "refused length"),
    (LoadError::Unit(Cause::Memory), "refused memory"),
];

/// The first of them, if there is one, that is shown otherwise.
fn wrong_text(alloc: Global) -> Result<Option<LoadError>, AllocError> {
    for &(error, text) in &TEXTS {
        if error.to_string(alloc)?.as_str() != text {
            return Ok(Some(error));
        }
    }
    Ok(None)
}

#[test]
fn a_refusal_has_its_text(rt: HostRuntime) -> Result<(), Fail> {
    assert_eq!(rt; wrong_text(rt.alloc())?, None);
    Ok(())
}

/// The one row key 0, value 0, weight 1.
const ZERO: [u8; 24] = [
    0, 0, 0, 0, 0, 0, 0, 0, 0, 0, 0, 0, 0, 0, 0, 0, 1, 0, 0, 0, 0, 0, 0, 0,
];

/// Loaded twice: the file of shard 0 is whole, that of shard 1 is missing, that of shard 2 has 25 bytes. The second time
/// shard 0 holds its row already. Shard 2 has a row, and keeps it. The counts that are not so, if there are any.
fn wrong_counts(alloc: Global) -> Result<Option<(usize, usize, usize)>, AllocError> {
    let mut folder = MemoryFolder::new(alloc)
        .with("d/c.0", &ZERO)?
        .with("d/c.2", &[0; 25])?;
    let log = sink::Memory::new(alloc);
    let mut core = empty::<3>(alloc)?;
    let admitted = core.admit(2, Keyed { key: 2, value: 20 }, 2).ok();
    for counts in [(1, 1, 1), (0, 1, 2)] {
        let report = load_core(alloc, &mut folder, &log, "d", "c", &mut core)?;
        let found = (
            report.loaded_shards,
            report.missing_shards,
            report.error_shards,
        );
        let zero = shard_bytes(alloc, &core, 0)?;
        let one = shard_bytes(alloc, &core, 1)?;
        let two = shard_bytes(alloc, &core, 2)?;
        let rows = (zero.as_slice(), one.len(), two.as_slice());
        if (admitted, found, rows) != (Some(2), counts, (ZERO.as_slice(), 0, ROW.as_slice())) {
            return Ok(Some(found));
        }
    }
    Ok(None)
}

#[test]
fn a_core_is_loaded_as_far_as_its_files_go(rt: HostRuntime) -> Result<(), Fail> {
    assert_eq!(rt; wrong_counts(rt.alloc())?, None);
    Ok(())
}

/// Whether two cores have the same bytes in both shards.
fn are_same(
    alloc: Global,
    core: &LruCore<Keyed, 2>,
    back: &LruCore<Keyed, 2>,
) -> Result<bool, AllocError> {
    let old = (shard_bytes(alloc, core, 0)?, shard_bytes(alloc, core, 1)?);
    let new = (shard_bytes(alloc, back, 0)?, shard_bytes(alloc, back, 1)?);
    Ok(old == new)
}

/// Whether five rows are saved and loaded into an empty core.
fn comes_back(alloc: Global) -> Result<bool, AllocError> {
    let mut core = empty::<2>(alloc)?;
    let mut are_admitted = true;
    for key in 0..5u64 {
        let value = key + 10;
        let shard = core.admit(key, Keyed { key, value }, 1).ok();
        are_admitted = are_admitted & (shard == Some((key % 2) as usize));
    }
    let mut folder = MemoryFolder::new(alloc);
    let log = sink::Memory::new(alloc);
    let mut rng = StdRng::seed_from_u64(7);
    let mut back = empty::<2>(alloc)?;
    let (saved, loaded) = save_and_load(
        alloc,
        &mut folder,
        &mut rng,
        &log,
        "d",
        "c",
        &core,
        &mut back,
    );
    let saved = saved.ok().map(|report| report.saved_shards);
    let counts = (saved, loaded?.loaded_shards);
    Ok(are_admitted & (counts == (Some(2), 2)) & are_same(alloc, &core, &back)?)
}

#[test]
fn a_core_comes_back(rt: HostRuntime) -> Result<(), Fail> {
    assert!(rt; comes_back(rt.alloc())?);
    Ok(())
}

/// Whether the bytes of 1,200 rows are loaded into an empty shard.
fn come_back(alloc: Global) -> Result<bool, AllocError> {
    let mut core = empty::<1>(alloc)?;
    let mut are_admitted = true;
    for key in 0..1200u64 {
        let shard = core.admit(key, Keyed { key, value: key }, 1).ok();
        are_admitted = are_admitted & (shard == Some(0));
    }
    let bytes = shard_bytes(alloc, &core, 0)?;
    let mut back = empty::<1>(alloc)?;
    let loaded = load_shard(alloc, &mut back, 0, &bytes);
    let again = shard_bytes(alloc, &back, 0)?;
    let is_same = again.as_slice() == bytes.as_slice();
    Ok((are_admitted, bytes.len(), loaded, is_same) == (true, 28_800, Ok(1200), true))
}

#[test]
fn many_rows_come_back(rt: HostRuntime) -> Result<(), Fail> {
    assert!(rt; come_back(rt.alloc())?);
    Ok(())
}
