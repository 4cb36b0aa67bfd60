//! Loads for tests. The closure that takes the bytes is told what to take, so that one closure is proved for all tests.
use crate::refusals::Loaded;
use crate::told::told_load;
use crate::two_shards::is_bytes;
use log::sink;
use pingora_lru_files::persistence::{Folder, load_shards};
use pingora_lru_files::snapshot::LoadError;
use std::alloc::{AllocError, Global};

/// What the files of shards should hold. A load refuses all else as damaged.
#[derive(Clone, Copy)]
pub enum Wanted<'a> {
    /// Whatever they hold.
    Any,
    /// These bytes, in each file.
    Bytes(&'a [u8]),
    /// No byte 9.
    NoNine,
    /// The bytes of the two shards.
    TwoShards,
    /// For each shard its bytes, and whether a load takes them none the less.
    Each(&'a [(&'a [u8], bool)]),
}

/// Whether a file holds what it should, and whether a load takes it.
fn judged(wanted: Wanted<'_>, shard: usize, bytes: &[u8]) -> (bool, bool) {
    let holds = match wanted {
        Wanted::Any => true,
        Wanted::Bytes(all) => bytes == all,
        Wanted::NoNine => !bytes.contains(&9),
        Wanted::TwoShards => is_bytes(shard, bytes),
        Wanted::Each(rows) => match rows.get(shard) {
            Some((own, is_taken)) => return (bytes == *own, (bytes == *own) & *is_taken),
            None => false,
        },
    };
    (holds, holds)
}

/// Loads so many shards of `c`. Each shard that the closure gets is noted, with whether its bytes are what they should be.
pub fn load_noting<F: Folder>(
    alloc: Global,
    folder: &mut F,
    log: &sink::Memory,
    (dir, shards, wanted): (&str, usize, Wanted<'_>),
    given: &mut Vec<(usize, bool)>,
) -> Loaded {
    let mut deserialize = |shard: usize, bytes: &[u8]| -> Result<(), LoadError> {
        let (holds, is_taken) = judged(wanted, shard, bytes);
        if given.push((shard, holds)).is_err() {
            Err(LoadError::from(AllocError))
        } else if is_taken {
            Ok(())
        } else {
            Err(LoadError::Damaged)
        }
    };
    load_shards(alloc, folder, log, dir, "c", shards, &mut deserialize)
}

/// Loads so many shards of `c`, and logs that.
pub fn load_logging<F: Folder>(
    alloc: Global,
    folder: &mut F,
    log: &sink::Memory,
    load: (&str, usize, Wanted<'_>),
) -> Loaded {
    load_noting(alloc, folder, log, load, &mut Vec::new(alloc))
}

/// Loads so many shards of `c`. What that tells, and its log.
pub fn load_telling<F: Folder>(
    alloc: Global,
    folder: &mut F,
    load: (&str, usize, Wanted<'_>),
) -> Result<(String, Vec<String>), AllocError> {
    let log = sink::Memory::new(alloc);
    let report = load_logging(alloc, folder, &log, load)?;
    Ok((told_load(alloc, &report)?, log.into_lines().into_vec()))
}
