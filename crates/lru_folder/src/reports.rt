//! What a save, a load and a cleanup report.
ghost use Rattle.std.specs.Prelude.{◌≡◌, []};

use crate::errors::{ShardFileError, ShardLoadFailure, ShardSaveFailure};
use std::alloc::{AllocError, Global};

/// What a save did: each shard was saved or failed.
#[derive(Debug, Drop)]
pub struct ShardSaveReport<E> {
    /// How many shards were saved.
    pub saved_shards: usize,
    /// How many were not.
    pub failed_shards: usize,
    /// Why, for each shard that was not saved, from shard 0 up.
    pub failures: Vec<ShardSaveFailure<E>>,
}

/// What a cleanup of temp files did.
#[derive(Debug, Drop)]
pub struct TempFileCleanupReport {
    /// How many files were removed.
    pub removed_files: usize,
    /// What failed, in the order in which it was met.
    pub failures: Vec<ShardFileError>,
}

impl TempFileCleanupReport {
    /// The report of a cleanup that has done nothing.
    pub fn new(alloc: Global) -> Self
        ensures none { result.removed_files ≡ 0 }
        ensures whole { result.failures.items ≡ [] }
    {
        TempFileCleanupReport {
            removed_files: 0,
            failures: Vec::new(alloc),
        }
    }
}

/// What a load did: each shard was loaded, was missing or failed.
#[derive(Debug, Drop)]
pub struct ShardLoadReport<E> {
    /// How many shards were loaded.
    pub loaded_shards: usize,
    /// How many have no file.
    pub missing_shards: usize,
    /// How many have a file that was not read whole, or was refused.
    pub error_shards: usize,
    /// Why, for each shard that failed, from shard 0 up.
    pub failures: Vec<ShardLoadFailure<E>>,
    /// What the cleanup of temp files did, if it found memory.
    pub temp_cleanup: Result<TempFileCleanupReport, AllocError>,
}
