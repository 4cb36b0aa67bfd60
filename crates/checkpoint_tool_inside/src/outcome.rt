//! What came of a request, and the status that tells it.
ghost use Rattle.std.specs.Prelude.{◌≡◌};
ghost use Rattle.std.specs.List.{list_any};
ghost use Rattle.checkpoint_tool_inside.specs.Texts.{checked_status, is_damaged, is_whole, shown_status, status_of, verdict_of, verdict_on};

use crate::requests::TaskMisuse;
use lru_generations::errors::{CheckpointError, CheckpointFile};
use lru_generations::generation_checks::FoundGeneration;
use lru_generations::newest::Passed;
use lru_generations::newest_loading::Loaded;

/// Whether a generation is whole.
#[derive(Clone, Copy, Debug, PartialEq, Eq)]
pub enum Verdict {
    /// It is.
    Whole,
    /// It has no manifest: its save was cut short, or is still at work.
    Unfinished,
    /// A file of it is not there, damaged or of another checkpoint.
    Damaged(CheckpointError),
}

/// What came of a request.
#[derive(Debug, Drop)]
pub enum Outcome {
    /// Only what the program does is told.
    Helped,
    /// The words ask for nothing that it does.
    Misused(TaskMisuse),
    /// So many rows were saved as this generation.
    Saved {
        /// Its number.
        generation: u64,
        /// How many rows it has.
        rows: u64,
        /// The generations above the one that is kept.
        passed: Vec<Passed>,
        /// Whether the files below the one that is kept are gone, or why some may be left.
        removed: Result<(), CheckpointError>,
    },
    /// This was loaded.
    Shown(Loaded<u64, u64>),
    /// This is told of each generation.
    Checked(Vec<FoundGeneration>),
    /// This line of the input is no row.
    BadLine(u64),
    /// The input was not read.
    Unread,
    /// The input or its rows found no memory.
    Memory,
    /// The checkpoint was not saved, or not loaded.
    Refused(CheckpointError),
}

// What is told of a generation that is not whole, for this reason.
fn verdict_on(error: CheckpointError) -> Verdict
    ensures { result ≡ verdict_on error }
{
    match error {
        CheckpointError::Missing {
            file: CheckpointFile::Manifest,
        } => Verdict::Unfinished,
        CheckpointError::Missing {
            file: CheckpointFile::Shard(_),
        } => Verdict::Damaged(error),
        CheckpointError::Missing {
            file: CheckpointFile::Names,
        } => Verdict::Damaged(error),
        CheckpointError::Memory => Verdict::Damaged(error),
        CheckpointError::Folder { .. } => Verdict::Damaged(error),
        CheckpointError::Damaged { .. } => Verdict::Damaged(error),
        CheckpointError::Other { .. } => Verdict::Damaged(error),
        CheckpointError::LastGeneration => Verdict::Damaged(error),
        CheckpointError::InUse => Verdict::Damaged(error),
    }
}

/// What is told of a generation.
pub fn verdict_of(told: &FoundGeneration) -> Verdict
    ensures { result ≡ verdict_of told.now }
{
    match told.shards {
        Ok(_) => Verdict::Whole,
        Err(error) => verdict_on(error),
    }
}

fn is_damaged(told: &FoundGeneration) -> bool
    ensures { result ≡ is_damaged (verdict_of told.now) }
{
    match verdict_of(told) {
        Verdict::Whole => false,
        Verdict::Unfinished => false,
        Verdict::Damaged(_) => true,
    }
}

fn is_whole(told: &FoundGeneration) -> bool
    ensures { result ≡ is_whole (verdict_of told.now) }
{
    match verdict_of(told) {
        Verdict::Whole => true,
        Verdict::Unfinished => false,
        Verdict::Damaged(_) => false,
    }
}

fn has_damaged(told: &[FoundGeneration]) -> bool
    ensures { result ≡ list_any (λ one. is_damaged (verdict_of one)) told.now }
{
    told.iter().any(|one| is_damaged(one))
}

fn has_whole(told: &[FoundGeneration]) -> bool
    ensures { result ≡ list_any (λ one. is_whole (verdict_of one)) told.now }
{
    told.iter().any(|one| is_whole(one))
}

// 0 where one is whole and none is damaged, and else 1.
fn checked_status(told: &[FoundGeneration]) -> u8
    ensures { result ≡ checked_status told.now }
{
    if has_damaged(told) {
        1
    } else if has_whole(told) {
        0
    } else {
        1
    }
}

// 0 where there is a checkpoint, and else 1.
fn shown_status(loaded: &Loaded<u64, u64>) -> u8
    ensures { result ≡ shown_status loaded.now.newest }
{
    match &loaded.newest {
        Some(_) => 0,
        None => 1,
    }
}

impl Outcome {
    /// 0 where all was done, there is a checkpoint and, of a check, none is damaged; 2 for wrong words or a bad line; else 1.
    pub fn status(&self) -> u8
        ensures { result ≡ status_of self.now }
    {
        match self {
            Outcome::Helped => 0,
            Outcome::Misused(_) => 2,
            Outcome::Saved { .. } => 0,
            Outcome::Shown(loaded) => shown_status(loaded),
            Outcome::Checked(told) => checked_status(told),
            Outcome::BadLine(_) => 2,
            Outcome::Unread => 1,
            Outcome::Memory => 1,
            Outcome::Refused(_) => 1,
        }
    }
}
