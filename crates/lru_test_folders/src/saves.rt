//! Saves for tests. What the closures and the savers are given is data, so that one of each is proved for all tests.
ghost use Rattle.std.specs.Prelude.{◌≡◌, false};
ghost use Rattle.pingora_lru_files.specs.Names.{has_slash};

use crate::refusals::Saved;
use crate::two_shards::bytes_of;
use log::sink;
use pingora_lru_files::persistence::{
    Folder, ShardSaveError, ShardSaveReport, ShardSaver, save_shards,
};
use rand::rngs::StdRng;
use rand_core::SeedableRng;
use std::alloc::{AllocError, Global};

/// The bytes that a save is given for its shards.
#[derive(Clone, Copy)]
pub enum Given<'a> {
    /// These, for each shard.
    Bytes(&'a [u8]),
    /// Those of the two shards.
    TwoShards,
    /// Each its own, and none for the others.
    Each(&'a [&'a [u8]]),
}

/// The bytes of one shard.
fn given_for(alloc: Global, given: Given<'_>, shard: usize) -> Result<Vec<u8>, AllocError> {
    match given {
        Given::Bytes(all) => all.to_vec(alloc),
        Given::TwoShards => bytes_of(alloc, shard),
        Given::Each(rows) => match rows.get(shard) {
            Some(own) => own.to_vec(alloc),
            None => Ok(Vec::new(alloc)),
        },
    }
}

/// Saves as a state, a shard for each word, each in its turn.
pub fn save_in_turns<F: Folder>(
    alloc: Global,
    folder: &mut F,
    dir: &str,
    words: &[u32],
    given: Given<'_>,
) -> Saved {
    let mut saver: ShardSaver<AllocError> = ShardSaver::start(
        alloc,
        folder,
        dir,
        "c",
        words.len(),
    )?;
    for (shard, word) in words.iter().enumerate() {
        if saver.next().is_some() {
            saver.put(folder, *word, given_for(alloc, given, shard));
        }
    }
    if saver.next().is_some() {
        // No save tells this, so that no test takes it for one.
        return Err(ShardSaveError::AllShardsFailed {
            shards: 0,
            failures: Vec::new(alloc),
        });
    }
    saver.finish(&sink::Memory::new(alloc))
}

/// What a save answers whose shards may be refused with a text.
pub type Refusable = Result<ShardSaveReport<&'static str>, ShardSaveError<&'static str>>;

/// Saves so many shards by a closure, under a name with no slash. Each shard that is asked for is noted. The one that is
/// refused gets `no` in place of its bytes.
pub fn save_noting<F: Folder>(
    alloc: Global,
    folder: &mut F,
    rng: &mut StdRng,
    log: &sink::Memory,
    file_name: &str,
    save: (&str, usize, Given<'_>, Option<usize>),
    asked: &mut Vec<usize>,
) -> Refusable
    requires { has_slash file_name.now ≡ false }
{
    let (dir, shards, given, refused) = save;
    let give = |shard: usize| -> Result<Vec<u8>, &str> {
        if asked.push(shard).is_err() {
            return Err("no memory");
        }
        if refused == Some(shard) {
            return Err("no");
        }
        match given_for(alloc, given, shard) {
            Ok(bytes) => Ok(bytes),
            Err(_) => Err("no memory"),
        }
    };
    save_shards(alloc, folder, rng, log, dir, file_name, shards, give)
}

/// Saves so many shards of `c`, and gives the log too.
pub fn save_logging<F: Folder>(
    alloc: Global,
    folder: &mut F,
    save: (&str, usize, Given<'_>, Option<usize>),
) -> (Refusable, Vec<String>) {
    let log = sink::Memory::new(alloc);
    let mut rng = StdRng::seed_from_u64(7);
    let mut asked = Vec::new(alloc);
    let saved = save_noting(alloc, folder, &mut rng, &log, "c", save, &mut asked);
    (saved, log.into_lines().into_vec())
}
