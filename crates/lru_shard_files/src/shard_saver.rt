//! A save as a state: each shard's bytes are put in turn.
ghost use Rattle.std.specs.Prelude.{◌≡◌, ◌<◌, ◌↔◌, true, false, None, Option, IfOk, IfErr, IsErrOf, OnOk};
ghost use Rattle.lru_folder.specs.declared.errors.ShardSaveError.TheVariants.{Setup};
ghost use Rattle.lru_folder.specs.declared.errors.ShardSaveSetupError.TheVariants.{Memory};
ghost use Rattle.lru_folder.specs.Files.{Same};
ghost use Rattle.lru_folder.specs.Folder.{Passes};
ghost use Rattle.lru_folder.specs.Losses.{Loses, looking};
ghost use Rattle.lru_folder.specs.Names.{has_slash};
ghost use Rattle.lru_folder.specs.Places.{MakesAll, MakesSome};
ghost use Rattle.lru_shard_files.specs.Progress.{at_start, next_of, TakesTurn, Tells, IsSetupOf, IfCreateDir};
ghost use Rattle.lru_shard_files.specs.Saving.{HasReason};
ghost use Rattle.lru_shard_files.specs.Turns.{SaveTurn, SavesOne};

use crate::save_shard::save_shard;
use log::{Log, info, warn};
use lru_folder::errors::{ShardSaveError, ShardSaveFailure, ShardSaveSetupError};
use lru_folder::folder::Folder;
use lru_folder::reports::ShardSaveReport;
use std::alloc::Global;
use std::fmt::Display;
use std::marker::Model;

/// A save of shards under way, which is given each shard's bytes in turn, from shard 0 up.
#[derive(Drop)]
pub struct ShardSaver<E> {
    alloc: Global,
    dir_path: String,
    file_name: String,
    shards: usize,
    next: usize,
    failures: Vec<ShardSaveFailure<E>>,
}

impl<E> Model for ShardSaver<E> {
    ghost use Rattle.lru_shard_files.specs.Progress.{Progress};

    ghost Value = { Progress E };

    ghost use Rattle.lru_shard_files.specs.SaverInside.{progress_of, IsSound};

    ghost view = { progress_of };

    ghost invariant = { IsSound };
}

impl<E: Drop> ShardSaver<E> {
    /// Begins a save: makes room for one failure a shard, and then the folder.
    ///
    /// `Setup(Memory)`: the room, or the texts that the saver keeps, found no memory, and the folder was not asked.
    /// `Setup(CreateDir)`: the folder did not make `dir_path`.
    pub fn start<F: Folder>(
        alloc: Global,
        folder: &mut F,
        dir_path: &str,
        file_name: &str,
        shards: usize,
    ) -> Result<Self, ShardSaveError<E>>
        requires { has_slash file_name.now ≡ false }

        ensures begun { IfOk result (λ saver. saver ≡ at_start dir_path.now file_name.now shards) }
        ensures made { F.meaning.keeps folder.old → OnOk result (MakesAll dir_path.now (F.meaning.folders folder.old) (F.meaning.folders folder.new)) }
        ensures parents { F.meaning.keeps folder.old → MakesSome dir_path.now (F.meaning.folders folder.old) (F.meaning.folders folder.new) }

        ensures refused { IfErr result (IsSetupOf dir_path.now) }
        ensures early { IsErrOf result (Setup Memory) → folder.new ≡ folder.old }
        ensures reason { F.meaning.keeps folder.old → IfErr result (λ e. IfCreateDir e (HasReason true (F.meaning.faults folder.old) (F.meaning.faults folder.new))) }

        ensures time { F.meaning.keeps folder.old → Passes F.meaning Same folder.old folder.new }
        ensures loss { F.meaning.keeps folder.old → Loses F.meaning looking folder.old folder.new }
        ensures faults { F.meaning.keeps folder.old → OnOk result (F.meaning.faults folder.new ≡ F.meaning.faults folder.old) }
        ensures kept { F.meaning.keeps folder.old ↔ F.meaning.keeps folder.new }
    {
        let (Ok(failures), Ok(dir), Ok(file_name)) = (
            Vec::with_capacity(alloc, shards),
            String::from_str(alloc, dir_path),
            String::from_str(alloc, file_name),
        ) else {
            return Err(ShardSaveError::Setup(ShardSaveSetupError::Memory));
        };
        if let Err(source) = folder.make(dir_path) {
            let path = dir;
            return Err(ShardSaveError::Setup(ShardSaveSetupError::CreateDir { path, source }));
        }
        Ok(ShardSaver {
            alloc,
            dir_path: dir,
            file_name,
            shards,
            next: 0,
            failures,
        })
    }

    /// The shard whose turn it is, or none after the last one.
    pub fn next(&self) -> Option<usize>
        ensures { result ≡ next_of self.now }
    {
        if self.next < self.shards {
            Some(self.next)
        } else {
            None
        }
    }

    /// Takes the turn of the next shard: its bytes, or the error that stands in their place, and the random word for the
    /// name of its temp file. The shard fails where its names find no memory, where it was given an error, and where
    /// the folder fails. A failure may leave the temp file, and the new file where the folder failed as it made the new name
    /// safe.
    pub fn put<F: Folder>(&mut self, folder: &mut F, word: u32, given: Result<Vec<u8>, E>)
        requires { self.old.next < self.old.shards }

        ensures turn { (turn : SaveTurn E) × (turn.word ≡ word) × (turn.given ≡ given) × TakesTurn self.old self.new turn
            × (F.meaning.keeps folder.old → SavesOne F.meaning
            self.old.dir self.old.file_name self.old.next turn folder.old folder.new) }

        ensures kept { F.meaning.keeps folder.old ↔ F.meaning.keeps folder.new }
    {
        let shard = self.next;
        let saved = save_shard(
            self.alloc,
            folder,
            &self.dir_path,
            &self.file_name,
            shard,
            word,
            given,
        );
        if let Err(failure) = saved {
            self.failures.push(failure).unwrap();
        }
        self.next = shard + 1;
    }

    /// Ends the save, logs its failures and its summary, and reports them.
    ///
    /// `AllShardsFailed`: as many shards failed as there are, also where there is none.
    pub fn finish<L: Log>(self, log: &L) -> Result<ShardSaveReport<E>, ShardSaveError<E>>
    where
        E: Display,
        requires { next_of self ≡ None }
        ensures { Tells self.shards self.failures result }
    {
        let shards = self.shards;
        let failures = self.failures;
        let failed_shards = failures.len();
        let saved_shards = shards - failed_shards;
        log_save(log, saved_shards, shards, &failures);
        if failed_shards == shards {
            return Err(ShardSaveError::AllShardsFailed { shards, failures });
        }
        Ok(ShardSaveReport {
            saved_shards,
            failed_shards,
            failures,
        })
    }
}

/// The lines of a save: one for each failure, and the summary.
fn log_save<L: Log, E: Display>(
    log: &L,
    saved: usize,
    shards: usize,
    failures: &[ShardSaveFailure<E>],
) {
    for failure in failures {
        warn!(log; "{failure}. Skipping shard.");
    }
    let failed = failures.len();
    if failed == 0 {
        info!(log; "Successfully saved {saved}/{shards} shards.");
    } else {
        warn!(log; "Saved {saved}/{shards} shards; {failed} shards failed. Persisted LRU state may be incomplete.");
    }
}
