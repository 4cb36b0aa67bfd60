//! A core saved shard by shard, and loaded again.
ghost use Rattle.std.specs.Prelude.{◌≡◌, ◌⊎◌, ◌<◌, false, IfErr, IfOk};
ghost use Rattle.pingora_lru.specs.Core.{IsCore};
ghost use Rattle.lru_folder.specs.Names.{has_slash};
ghost use Rattle.lru_shard_files.specs.Progress.{IfSetup};
ghost use Rattle.lru_shard_files.specs.SnapshotLoads.{LoadsShard};
ghost use Rattle.lru_shard_files.specs.SnapshotSaves.{AreBytesOf, HoldCore};
ghost use Rattle.lru_shard_files.specs.Stores.{AreLoaded, AreSaved, HasNoRows, LoadsAllHeld, LoadsCore, Restores, SavesCore, TellAllKeys, TellsLoadMemory, TellsMemory};

use crate::loading::load_shards;
use crate::save_shards::save_shards;
use crate::snapshot::{Keyed, LoadError, load_shard, shard_bytes};
use log::Log;
use lru_folder::errors::ShardSaveError;
use lru_folder::folder::Folder;
use lru_folder::reports::{ShardLoadReport, ShardSaveReport};
use pingora_lru::lru_core::LruCore;
use rand_core::Rng;
use std::alloc::{AllocError, Global};

/// Saves each shard of a core into the folder `dir_path`, shard i as `file_name.i`, as `save_shards` does: the bytes
/// of shard i are those of `shard_bytes`.
pub fn save_core<F: Folder, R: Rng, L: Log, const N: usize>(
    alloc: Global,
    folder: &mut F,
    rng: &mut R,
    log: &L,
    dir_path: &str,
    file_name: &str,
    core: &LruCore<Keyed, N>,
) -> Result<ShardSaveReport<AllocError>, ShardSaveError<AllocError>>
    requires { has_slash file_name.now ≡ false }

    ensures saves { SavesCore F.meaning
        dir_path.now file_name.now N core.now (R.stream rng.old) folder.old result (R.stream rng.new) folder.new }

    // Where no shard had its turn, no word is drawn.
    ensures drawn { IfErr result (λ e. IfSetup e (rng.new ≡ rng.old)) }

    // Where all shards were saved, their files have the bytes of all rows. Where the device did not fail, all are, or
    // the result tells that memory was refused.
    ensures held { F.meaning.keeps folder.old → AreSaved N result → HoldCore (F.meaning.files folder.new) dir_path.now file_name.now N core.now }
    ensures all { F.meaning.keeps folder.old → F.meaning.faults folder.new ≡ F.meaning.faults folder.old → TellsMemory result ⊎ AreSaved N result }

    ensures valid { IsCore N core.now }
{
    // The shards asked for are below N.
    let serialize = |shard: usize|
        ensures { IfOk result (λ bytes. shard < N → AreBytesOf core.entry.now shard bytes.items) }
    {
        if shard < N {
            shard_bytes(alloc, core, shard)
        } else {
            Ok(Vec::new(alloc))
        }
    };
    save_shards(
        alloc,
        folder,
        rng,
        log,
        dir_path,
        file_name,
        core.shards(),
        serialize,
    )
}

/// Loads each shard of a core from its file in the folder `dir_path`, shard i from `file_name.i`, as `load_shards` does:
/// the rows of a file are put last in shard i as `load_shard` puts them, whose refusal makes it a failed shard.
pub fn load_core<F: Folder, L: Log, const N: usize>(
    alloc: Global,
    folder: &mut F,
    log: &L,
    dir_path: &str,
    file_name: &str,
    core: &mut LruCore<Keyed, N>,
) -> Result<ShardLoadReport<LoadError>, AllocError>
    requires { has_slash file_name.now ≡ false }

    ensures loads { LoadsCore F.meaning
        dir_path.now file_name.now N core.old folder.old result core.new folder.new }

    // A core without rows that loads all shards from files that tell another's rows has those rows. Where the files hold
    // another core and the device did not fail, it does load all, or the result tells that memory was refused.
    ensures restores { F.meaning.keeps folder.old → Restores (F.meaning.files folder.old) dir_path.now file_name.now N core.old result core.new }
    ensures all { F.meaning.keeps folder.old → F.meaning.faults folder.new ≡ F.meaning.faults folder.old → LoadsAllHeld (F.meaning.files folder.old) dir_path.now file_name.now N core.old result }

    ensures valid { IsCore N core.old }
{
    let shards = core.shards();
    // The shards asked for are below N.
    let mut deserialize = |shard: usize, bytes: &[u8]|
        ensures { shard < N → LoadsShard core.entry.now shard bytes.entry result core.exit.now }
    {
        if shard < N {
            load_shard(alloc, core, shard, bytes)?;
        }
        Ok(())
    };
    load_shards(
        alloc,
        folder,
        log,
        dir_path,
        file_name,
        shards,
        &mut deserialize,
    )
}

/// Saves a core into a folder, and loads it from there into another one.
///
/// Where all shards are saved and loaded, a core that had no rows has the same shards as the one that was saved. Where
/// neither the device nor memory fails, all are.
pub fn save_and_load<F: Folder, R: Rng, L: Log, const N: usize>(
    alloc: Global,
    folder: &mut F,
    rng: &mut R,
    log: &L,
    dir_path: &str,
    file_name: &str,
    core: &LruCore<Keyed, N>,
    back: &mut LruCore<Keyed, N>,
) -> (
    Result<ShardSaveReport<AllocError>, ShardSaveError<AllocError>>,
    Result<ShardLoadReport<LoadError>, AllocError>,
)
    requires { has_slash file_name.now ≡ false }

    ensures same { F.meaning.keeps folder.old → TellAllKeys core.now → HasNoRows back.old
        → AreSaved N result.0 → AreLoaded N result.1 → back.new.lists ≡ core.now.lists }

    ensures all { F.meaning.keeps folder.old → F.meaning.faults folder.new ≡ F.meaning.faults folder.old → TellAllKeys core.now → HasNoRows back.old
        → TellsMemory result.0 ⊎ (AreSaved N result.0 × (TellsLoadMemory result.1 ⊎ AreLoaded N result.1)) }
{
    let saved = save_core(alloc, folder, rng, log, dir_path, file_name, core);
    let loaded = load_core(alloc, folder, log, dir_path, file_name, back);
    (saved, loaded)
}
