//! Shards saved one after another.
ghost use Rattle.std.specs.Prelude.{◌≡◌, false, IfErr};
ghost use Rattle.lru_folder.specs.Names.{has_slash};
ghost use Rattle.lru_shard_files.specs.Progress.{IfSetup};
ghost use Rattle.lru_shard_files.specs.Saves.{SavesShards};

use crate::shard_saver::ShardSaver;
use log::Log;
use lru_folder::errors::ShardSaveError;
use lru_folder::folder::Folder;
use lru_folder::reports::ShardSaveReport;
use rand_core::Rng;
use std::alloc::Global;
use std::fmt::Display;

/// Saves so many shards into the folder `dir_path`, shard i as `file_name.i`, from shard 0 up.
///
/// For each shard the closure is called for its bytes, and a random word is drawn for the name of its temp file. A shard
/// fails where its names find no memory, where the closure gives an error, and where the folder fails; the others are
/// saved none the less. A stop at any moment leaves each shard's file as it was, or with the bytes that were given. So does
/// a loss of power, where *as it was* is as a loss at the start could have left it. Of a shard that is saved no loss of
/// power changes the bytes; its file's name is safe from the next sync on.
///
/// `Setup(Memory)`: no room for the failures to come, and the folder was not asked. `Setup(CreateDir)`: `dir_path` was
/// not made. After both the closure was not called. `AllShardsFailed`: as many shards failed as there are.
pub fn save_shards<F, R, L, E, S>(
    alloc: Global,
    folder: &mut F,
    rng: &mut R,
    log: &L,
    dir_path: &str,
    file_name: &str,
    shards: usize,
    mut serialize: S,
) -> Result<ShardSaveReport<E>, ShardSaveError<E>>
where
    F: Folder,
    R: Rng,
    L: Log,
    E: Display + Drop,
    S: FnMut(usize) -> Result<Vec<u8>, E> + Drop,
    requires name { has_slash file_name.now ≡ false }
    requires callable { S.IsAlwaysCallable serialize }

    ensures saves { SavesShards F.meaning
        S.step dir_path.now file_name.now shards serialize (R.stream rng.old) folder.old result (R.stream rng.new) folder.new }

    // Where no shard had its turn, no word is drawn.
    ensures drawn { IfErr result (λ e. IfSetup e (rng.new ≡ rng.old)) }
{
    let mut saver = ShardSaver::start(alloc, folder, dir_path, file_name, shards)?;
    while let Some(shard) = saver.next() {
        let given = serialize(shard);
        let word = rng.next_u32();
        saver.put(folder, word, given);
    }
    saver.finish(log)
}
