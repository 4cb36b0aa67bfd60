//! What a save and a load of two shards may tell where one allocation is refused.
use pingora_lru::unit::Cause;
use pingora_lru_files::persistence::{
    FolderFault, ShardFileError, ShardLoadFailure, ShardLoadReport, ShardSaveError,
    ShardSaveFailure, ShardSaveReport, ShardSaveSetupError, TempFileCleanupReport,
};
use pingora_lru_files::snapshot::LoadError;
use std::alloc::AllocError;

/// What a save with an allocator answers.
pub type Saved = Result<ShardSaveReport<AllocError>, ShardSaveError<AllocError>>;

/// What a load answers.
pub type Loaded = Result<ShardLoadReport<LoadError>, AllocError>;

/// The fault that an error tells.
pub fn source_of(error: &ShardFileError) -> FolderFault {
    match error {
        ShardFileError::Create { source, .. } => *source,
        ShardFileError::Write { source, .. } => *source,
        ShardFileError::Flush { source, .. } => *source,
        ShardFileError::Sync { source, .. } => *source,
        ShardFileError::Open { source, .. } => *source,
        ShardFileError::Read { source, .. } => *source,
        ShardFileError::ReadDir { source, .. } => *source,
        ShardFileError::ReadDirEntry { source, .. } => *source,
        ShardFileError::Remove { source, .. } => *source,
        ShardFileError::Rename { source, .. } => *source,
    }
}

fn is_unsaved_for_memory(failure: &ShardSaveFailure<AllocError>) -> bool {
    match failure {
        ShardSaveFailure::Memory { .. } => true,
        ShardSaveFailure::Serialize { .. } => true,
        ShardSaveFailure::Io { source, .. } => source_of(source) == FolderFault::Memory,
    }
}

/// Whether a shard was not loaded for want of memory.
pub fn is_unloaded_for_memory(failure: &ShardLoadFailure<LoadError>) -> bool {
    match failure {
        ShardLoadFailure::Memory { .. } => true,
        ShardLoadFailure::Deserialize { source, .. } => *source == LoadError::Unit(Cause::Memory),
        ShardLoadFailure::Io { source, .. } => source_of(source) == FolderFault::Memory,
    }
}

/// Whether the bytes of a shard were refused as damaged.
pub fn is_damaged(failure: &ShardLoadFailure<LoadError>) -> bool {
    match failure {
        ShardLoadFailure::Deserialize { source, .. } => *source == LoadError::Damaged,
        _ => false,
    }
}

/// The shard that a failure names.
pub fn unloaded_shard(failure: &ShardLoadFailure<LoadError>) -> usize {
    match failure {
        ShardLoadFailure::Memory { shard } => *shard,
        ShardLoadFailure::Deserialize { shard, .. } => *shard,
        ShardLoadFailure::Io { shard, .. } => *shard,
    }
}

/// How a call ended whose allocations may have been refused, one of them at most.
#[derive(Clone, Copy, Debug, PartialEq, Eq)]
pub enum Ending {
    /// It did all that it was to do.
    Whole,
    /// It was refused memory, and nothing else.
    Refused,
    /// It ended otherwise, or its counts are wrong.
    Wrong,
}

/// How a save of two shards ended.
pub fn end_of_save(saved: &Saved) -> Ending {
    match saved {
        Ok(report) if report.failures.is_empty() => {
            if (report.saved_shards, report.failed_shards) == (2, 0) {
                Ending::Whole
            } else {
                Ending::Wrong
            }
        }
        Ok(report) => {
            let is_one = (report.saved_shards, report.failed_shards) == (1, 1);
            if is_one && report.failures.len() == 1 && is_unsaved_for_memory(&report.failures[0]) {
                Ending::Refused
            } else {
                Ending::Wrong
            }
        }
        Err(ShardSaveError::Setup(ShardSaveSetupError::Memory)) => Ending::Refused,
        Err(ShardSaveError::Setup(ShardSaveSetupError::CreateDir { source, .. })) => {
            if *source == FolderFault::Memory {
                Ending::Refused
            } else {
                Ending::Wrong
            }
        }
        Err(ShardSaveError::AllShardsFailed { .. }) => Ending::Wrong,
    }
}

/// How a cleanup of one temp file ended.
fn end_of_cleanup(cleanup: &Result<TempFileCleanupReport, AllocError>) -> Ending {
    match cleanup {
        Ok(report) if report.failures.is_empty() => {
            if report.removed_files == 1 {
                Ending::Whole
            } else {
                Ending::Wrong
            }
        }
        Ok(report) => {
            let is_one = (report.removed_files, report.failures.len()) == (0, 1);
            if is_one && source_of(&report.failures[0]) == FolderFault::Memory {
                Ending::Refused
            } else {
                Ending::Wrong
            }
        }
        Err(AllocError) => Ending::Refused,
    }
}

/// How a load of two shards and a temp file ended.
pub fn end_of_load(loaded: &Loaded) -> Ending {
    let Ok(report) = loaded else {
        return Ending::Refused;
    };
    let cleaned = end_of_cleanup(&report.temp_cleanup);
    if report.missing_shards != 0 || report.error_shards != report.failures.len() {
        return Ending::Wrong;
    }
    if report.failures.is_empty() {
        if report.loaded_shards == 2 {
            return cleaned;
        }
        return Ending::Wrong;
    }
    let is_one = (report.loaded_shards, report.error_shards) == (1, 1);
    if is_one && is_unloaded_for_memory(&report.failures[0]) && cleaned == Ending::Whole {
        Ending::Refused
    } else {
        Ending::Wrong
    }
}
