//! Want of memory in the calls on a core: a call gives its answer, or the refusal that says memory; then it is made again, and
//! gives its answer. The gate runs this with memory for all; `rt try --test --fail-alloc N` refuses the request number N,
//! so at most one of two runs of a script meets a refusal. The gate's sweep refuses each request of `lru_sweep` in
//! turn, which saves and loads cores.
ghost use Rattle.std.specs.Prelude.{◌<◌};

use log::sink;
use lru_test_folders::refusals::{
    Ending, Loaded, end_of_load, end_of_save, is_damaged, unloaded_shard,
};
use lru_test_folders::two_shards::{
    EVEN_BYTES, ODD_BYTES, folder_to_load, folder_to_save, has_temp, is_old, is_old_or_new,
    is_saved,
};
use pingora_lru::lru_core::LruCore;
use pingora_lru::unit::Cause;
use pingora_lru_files::persistence::ShardLoadReport;
use pingora_lru_files::snapshot::{
    Keyed, LoadError, load_core, load_shard, save_core, shard_bytes,
};
use rand::rngs::StdRng;
use rand_core::SeedableRng;
use std::alloc::{AllocError, Global};
use std::test::Fail;

/// The key, the value and the weight of a row.
type Row = (u64, u64, usize);

/// The rows that the bytes of shard 0 tell, most recent first.
const EVEN: [Row; 2] = [(4, 40, 1), (2, 20, 3)];

/// The row that the bytes of shard 1 tell.
const ODD: [Row; 1] = [(7, 70, 2)];

/// Shard 0 with one row more, and the bytes of that row.
const MORE: [Row; 3] = [(4, 40, 1), (2, 20, 3), (6, 60, 5)];

const LAST_BYTES: [u8; 24] = [
    6, 0, 0, 0, 0, 0, 0, 0, 60, 0, 0, 0, 0, 0, 0, 0, 5, 0, 0, 0, 0, 0, 0, 0,
];

/// A row whose weight no shard of two may have.
const HEAVY_BYTES: [u8; 24] = [
    8, 0, 0, 0, 0, 0, 0, 0, 80, 0, 0, 0, 0, 0, 0, 0, 255, 255, 255, 255, 255, 255, 255, 255,
];

/// Rows enough for shard 0 that it grows more than once: their keys are 10, 12 and so on, and each has weight 1.
fn many_bytes() -> [u8; 480] {
    let mut bytes = [0_u8; 480];
    for row in 0..20usize {
        bytes[row * 24] = (10 + 2 * row) as u8;
        bytes[row * 24 + 16] = 1;
    }
    bytes
}

fn empty(alloc: Global) -> Result<LruCore<Keyed, 2>, AllocError> {
    match LruCore::with_capacity(alloc, 100, 0) {
        Ok(core) => Ok(core),
        Err(_) => LruCore::with_capacity(alloc, 100, 0),
    }
}

/// A core with the rows of both shards.
fn filled(alloc: Global) -> Result<LruCore<Keyed, 2>, AllocError> {
    let mut core = empty(alloc)?;
    for (key, value, weight) in [(4, 40, 1), (2, 20, 3), (7, 70, 2)] {
        if core.insert_tail(key, Keyed { key, value }, weight).is_err()
            && core.insert_tail(key, Keyed { key, value }, weight).is_err()
        {
            return Err(AllocError);
        }
    }
    Ok(core)
}

fn shows(core: &LruCore<Keyed, 2>, shard: usize, rows: &[Row]) -> bool
    requires { shard < 2 }
{
    let mut rest = core.iter_shard(shard);
    for (key, value, weight) in rows {
        match rest.next() {
            Some((data, found)) if data.key == *key && data.value == *value && found == *weight =>
                {}
            _ => return false,
        }
    }
    rest.next().is_none()
}

/// Whether these are the rows of shard 0 and of shard 1.
fn has_rows(core: &LruCore<Keyed, 2>, rows: (&[Row], &[Row])) -> bool {
    shows(core, 0, rows.0) & shows(core, 1, rows.1)
}

/// Asks for the bytes of a shard till they come. Whether they are its own.
fn bytes_at_last(alloc: Global, refusals: &mut usize) -> Result<bool, AllocError> {
    let core = filled(alloc)?;
    let bytes = match shard_bytes(alloc, &core, 0) {
        Ok(bytes) => bytes,
        Err(AllocError) => {
            *refusals = refusals.saturating_add(1);
            shard_bytes(alloc, &core, 0)?
        }
    };
    Ok(bytes.as_slice() == EVEN_BYTES.as_slice())
}

/// Loads into a shard of a core with the rows `before`. A refusal that says memory leaves them as they were, and the load is
/// made again. Whether the answer at last is this one.
fn loads_at_last(
    alloc: Global,
    refusals: &mut usize,
    core: &mut LruCore<Keyed, 2>,
    before: (&[Row], &[Row]),
    (shard, bytes, answer): (usize, &[u8], Result<usize, LoadError>),
) -> bool {
    let is_before = has_rows(core, before);
    let mut is_kept = true;
    let mut loaded = load_shard(alloc, core, shard % 2, bytes);
    if loaded == Err(LoadError::Unit(Cause::Memory)) {
        *refusals = refusals.saturating_add(1);
        is_kept = has_rows(core, before);
        loaded = load_shard(alloc, core, shard % 2, bytes);
    }
    is_before & is_kept & (loaded == answer)
}

/// The rows of both shards, and then what is loaded into which of them, with its answer. Refusals of other kinds stand
/// between.
const LOADS: [((&[Row], &[Row]), (usize, &[u8], Result<usize, LoadError>)); 5] = [
    ((&[], &[]), (1, &ODD_BYTES, Ok(1))),
    ((&[], &ODD), (0, &EVEN_BYTES, Ok(2))),
    ((&EVEN, &ODD), (0, &EVEN_BYTES, Err(LoadError::Damaged))),
    (
        (&EVEN, &ODD),
        (0, &HEAVY_BYTES, Err(LoadError::Unit(Cause::Weight))),
    ),
    ((&EVEN, &ODD), (0, &LAST_BYTES, Ok(1))),
];

/// Loads all of that into one core, and then many rows.
fn all_at_last(alloc: Global, refusals: &mut usize) -> Result<bool, AllocError> {
    let mut core = empty(alloc)?;
    let mut are_right = true;
    for (before, load) in LOADS {
        are_right = are_right & loads_at_last(alloc, refusals, &mut core, before, load);
    }
    let bytes = many_bytes();
    let many = (0, bytes.as_slice(), Ok(20));
    let is_last = loads_at_last(alloc, refusals, &mut core, (&MORE, &ODD), many);
    let counts = (core.shard_len(0), core.shard_weight(0));
    Ok(are_right & is_last & (counts == (23, 29)))
}

/// Saves a core over old files. Where a shard, or the whole save, is refused memory, it is made again. Whether all of that
/// is right.
fn save_core_at_last(alloc: Global, refusals: &mut usize) -> Result<bool, AllocError> {
    let core = filled(alloc)?;
    let mut folder = folder_to_save(alloc)?;
    let log = sink::Memory::new(alloc);
    let mut rng = StdRng::seed_from_u64(7);
    let first = save_core(alloc, &mut folder, &mut rng, &log, "d", "c", &core);
    let mut ending = end_of_save(&first);
    let mut is_kept = true;
    if ending == Ending::Refused {
        *refusals = refusals.saturating_add(1);
        is_kept = is_old_or_new(&folder) & (first.is_ok() | is_old(&folder));
        let second = save_core(alloc, &mut folder, &mut rng, &log, "d", "c", &core);
        ending = end_of_save(&second);
    }
    let is_whole = is_kept & (ending == Ending::Whole);
    Ok(is_whole & is_saved(&folder) & has_rows(&core, (&EVEN, &ODD)))
}

/// Whether a core has the rows of each shard that was loaded, and no others.
fn is_loaded(core: &LruCore<Keyed, 2>, loaded: &Loaded) -> bool {
    let rows: (&[Row], &[Row]) = match loaded {
        Err(AllocError) => (&[], &[]),
        Ok(report) if report.failures.is_empty() => (&EVEN, &ODD),
        Ok(report) if unloaded_shard(&report.failures[0]) == 0 => (&[], &ODD),
        Ok(_) => (&EVEN, &[]),
    };
    has_rows(core, rows)
}

/// Whether the load that is made again loads so many shards, which were left; and finds those damaged that were loaded.
fn loads_what_is_left(second: &ShardLoadReport<LoadError>, loaded: usize, left: usize) -> bool {
    for failure in &second.failures {
        if !is_damaged(failure) {
            return false;
        }
    }
    let is_clean = match &second.temp_cleanup {
        Ok(cleanup) => cleanup.failures.is_empty(),
        Err(AllocError) => false,
    };
    is_clean & ((second.loaded_shards, second.error_shards) == (left, loaded))
}

/// Loads an empty core. Where a shard, the whole load, or its cleanup is refused memory, the load is made again: it
/// loads the shards that are left, and the files of the others are damaged to a core that has their rows. Whether all of
/// that is right.
fn load_core_at_last(alloc: Global, refusals: &mut usize) -> Result<bool, AllocError> {
    let mut core = empty(alloc)?;
    let mut folder = folder_to_load(alloc)?;
    let log = sink::Memory::new(alloc);
    let first = load_core(alloc, &mut folder, &log, "d", "c", &mut core);
    let is_first = is_loaded(&core, &first);
    let mut ending = end_of_load(&first);
    if ending == Ending::Refused {
        *refusals = refusals.saturating_add(1);
        let (loaded, left) = match &first {
            Ok(report) => (report.loaded_shards, report.error_shards),
            Err(AllocError) => (0, 2),
        };
        let second = load_core(alloc, &mut folder, &log, "d", "c", &mut core)?;
        if loads_what_is_left(&second, loaded, left) {
            ending = Ending::Whole;
        }
    }
    let is_whole = is_first & (ending == Ending::Whole) & has_rows(&core, (&EVEN, &ODD));
    Ok(is_whole & is_saved(&folder) & !has_temp(&folder))
}

/// What is asked for twice.
#[derive(Clone, Copy, Debug)]
enum Script {
    Bytes,
    Loads,
    SaveCore,
    LoadCore,
}

fn is_right(alloc: Global, script: Script, refusals: &mut usize) -> Result<bool, AllocError> {
    match script {
        Script::Bytes => bytes_at_last(alloc, refusals),
        Script::Loads => all_at_last(alloc, refusals),
        Script::SaveCore => save_core_at_last(alloc, refusals),
        Script::LoadCore => load_core_at_last(alloc, refusals),
    }
}

/// Whether both runs of a script are right, of which one at most is refused memory.
fn is_right_twice(alloc: Global, script: Script) -> Result<bool, AllocError> {
    let mut refusals = 0;
    let first = is_right(alloc, script, &mut refusals)?;
    let second = is_right(alloc, script, &mut refusals)?;
    Ok(first & second & (refusals <= 1))
}

#[test]
fn the_bytes_of_a_shard(rt: HostRuntime) -> Result<(), Fail> {
    assert!(rt; is_right_twice(rt.alloc(), Script::Bytes)?);
    Ok(())
}

#[test]
fn the_rows_of_a_shard(rt: HostRuntime) -> Result<(), Fail> {
    assert!(rt; is_right_twice(rt.alloc(), Script::Loads)?);
    Ok(())
}

#[test]
fn a_save_of_a_core(rt: HostRuntime) -> Result<(), Fail> {
    assert!(rt; is_right_twice(rt.alloc(), Script::SaveCore)?);
    Ok(())
}

#[test]
fn a_load_of_a_core(rt: HostRuntime) -> Result<(), Fail> {
    assert!(rt; is_right_twice(rt.alloc(), Script::LoadCore)?);
    Ok(())
}
