//! The calls of a folder in memory, made again to see what a loss of power may leave.
ghost use Rattle.std.specs.Prelude.{◌≡◌, ℕ, [], IfOk, IsSome, OnOk, None, true, false};
ghost use Rattle.std.specs.FinMap.{get};
ghost use Rattle.lru_memory_folder.specs.DeedInside.{deed_of, noted_of};
ghost use Rattle.lru_memory_folder.specs.HeldInside.{entries_of, files_in};
ghost use Rattle.lru_memory_folder.specs.History.{History, with_call};
ghost use Rattle.lru_memory_folder.specs.Kept.{changes_names, is_synced, IsMarked};
ghost use Rattle.lru_memory_folder.specs.ReplayInside.{Counts, IsReplay, kept_of, loss_in};
ghost use Rattle.lru_memory_folder.specs.MarksInside.{lost_after, lost_done, lost_failed, marked, put_some};

use crate::calls::{End, EndedCall, FileCall};
use crate::held::{PathBytes, copy_all, find, give_name, put, take_out};
use crate::journal::apply;
use std::alloc::{AllocError, Global};

/// The files that the calls so far left, and what a loss of power may leave of them.
#[derive(Drop)]
pub(crate) struct Replay {
    pub(crate) held: PathBytes,
    /// The same files, with the one byte in each loose path.
    pub(crate) lost: PathBytes,
    /// What `lost` was before the first name change that is not kept, if there was one since the last sync.
    pub(crate) chosen: Option<PathBytes>,
    /// How many name changes are still to be kept.
    pub(crate) names_left: usize,
}

/// Puts the one byte into a path that is there.
fn mark(
    alloc: Global,
    lost: &mut PathBytes,
    held: &PathBytes,
    path: &str,
    byte: u8,
) -> Result<(), AllocError>
    ensures { OnOk result (files_in lost.new.entries ≡ marked path.now byte (files_in held.now.entries) (files_in lost.old.entries)) }
{
    match find(held, path) {
        Some(_) => put(alloc, lost, path, vec![in alloc; byte]?),
        None => Ok(()),
    }
}

/// Gives a path that was synced its bytes back.
fn restore(
    alloc: Global,
    lost: &mut PathBytes,
    held: &PathBytes,
    path: &str,
) -> Result<(), AllocError>
    ensures { OnOk result (files_in lost.new.entries ≡ put_some path.now (get (files_in held.now.entries) path.now) (files_in lost.old.entries)) }
{
    match find(held, path) {
        Some(bytes) => put(alloc, lost, path, bytes.to_vec(alloc)?),
        None => Ok(()),
    }
}

/// Does to what a loss leaves what the whole of a call does, which left these files.
fn lose_whole(
    alloc: Global,
    lost: &mut PathBytes,
    held: &PathBytes,
    call: &FileCall,
    byte: u8,
) -> Result<(), AllocError>
    ensures { OnOk result (files_in lost.new.entries ≡ lost_done (deed_of call.now) byte (files_in held.now.entries) (files_in lost.old.entries)) }
{
    match call {
        FileCall::Create(path) => mark(alloc, lost, held, path.as_str(), byte),
        FileCall::Write(path, _) => mark(alloc, lost, held, path.as_str(), byte),
        FileCall::Rename(from, to) => give_name(alloc, lost, from.as_str(), to.as_str()),
        FileCall::Remove(path) => {
            take_out(lost, path.as_str());
            Ok(())
        }
        FileCall::Sync(path) => restore(alloc, lost, held, path.as_str()),
        FileCall::SyncDir(_) => Ok(()),
        FileCall::Look => Ok(()),
    }
}

/// The same of a call that failed.
fn lose_part(
    alloc: Global,
    lost: &mut PathBytes,
    held: &PathBytes,
    call: &FileCall,
    byte: u8,
) -> Result<(), AllocError>
    ensures { OnOk result (files_in lost.new.entries ≡ lost_failed (deed_of call.now) byte (files_in held.now.entries) (files_in lost.old.entries)) }
{
    match call {
        FileCall::Create(path) => mark(alloc, lost, held, path.as_str(), byte),
        FileCall::Write(path, _) => mark(alloc, lost, held, path.as_str(), byte),
        FileCall::Rename(_, _) => Ok(()),
        FileCall::Remove(_) => Ok(()),
        FileCall::Sync(_) => Ok(()),
        FileCall::SyncDir(_) => Ok(()),
        FileCall::Look => Ok(()),
    }
}

/// What a call does that ended so.
fn lose(
    alloc: Global,
    lost: &mut PathBytes,
    held: &PathBytes,
    ended: &EndedCall,
    byte: u8,
) -> Result<(), AllocError>
    ensures { OnOk result (files_in lost.new.entries ≡ lost_after (deed_of ended.now.call) ended.now.end byte (files_in held.now.entries) (files_in lost.old.entries)) }
{
    match ended.end {
        End::Done => lose_whole(alloc, lost, held, &ended.call, byte),
        End::NotFound => lose_part(alloc, lost, held, &ended.call, byte),
        End::Failed(_) => lose_part(alloc, lost, held, &ended.call, byte),
    }
}

/// Whether the call was the whole of a sync, of a file or of a folder's names.
fn is_sync(ended: &EndedCall) -> bool
    ensures { result ≡ is_synced (noted_of ended.now) }
{
    matches!(
        (&ended.call, ended.end),
        (FileCall::Sync(_) | FileCall::SyncDir(_), End::Done)
    )
}

/// Whether the call was the whole of a change of names.
fn changes_names(ended: &EndedCall) -> bool
    ensures { result ≡ changes_names (noted_of ended.now) }
{
    matches!(
        (&ended.call, ended.end),
        (
            FileCall::Create(_) | FileCall::Rename(_, _) | FileCall::Remove(_),
            End::Done
        )
    )
}

impl Replay {
    /// Before the first call. `names`: how many name changes are kept.
    pub(crate) fn new(begun: &PathBytes, names: usize) -> Result<Self, AllocError>
        ensures { IfOk result (λ replay. (byte : ℕ) → IsReplay names byte (record { begun = entries_of begun.now.entries; calls = [] }) replay) }
    {
        Ok(Replay {
            held: copy_all(begun)?,
            lost: copy_all(begun)?,
            chosen: None,
            names_left: names,
        })
    }

    /// Before a change of names: it is one of those that are kept, or what a loss leaves before it is chosen.
    fn count(&mut self) -> Result<(), AllocError>
        requires { self.old.chosen ≡ None }
        ensures held { self.new.held ≡ self.old.held }
        ensures lost { self.new.lost ≡ self.old.lost }
        ensures counts { OnOk result (Counts self.new.chosen (λ files. files_in files.entries) self.old.names_left (files_in self.old.lost.entries) self.new.names_left) }
    {
        if self.names_left == 0 {
            self.chosen = Some(copy_all(&self.lost)?);
        } else {
            self.names_left -= 1;
        }
        Ok(())
    }

    /// Before a call: a sync makes all that came before it safe, and of the name changes after it `names` are kept.
    fn choose(&mut self, ended: &EndedCall, names: usize) -> Result<(), AllocError>
        ensures held { self.new.held ≡ self.old.held }
        ensures lost { self.new.lost ≡ self.old.lost }
        ensures sync { OnOk result (is_synced (noted_of ended.now) ≡ true → (self.new.chosen ≡ None) × (self.new.names_left ≡ names)) }
        ensures chosen { OnOk result (is_synced (noted_of ended.now) ≡ false → IsSome self.old.chosen → self.new.chosen ≡ self.old.chosen) }
        ensures others { OnOk result (is_synced (noted_of ended.now) ≡ false → changes_names (noted_of ended.now) ≡ false
            → (self.new.chosen ≡ self.old.chosen) × (self.new.names_left ≡ self.old.names_left)) }
        ensures counted { OnOk result (is_synced (noted_of ended.now) ≡ false → changes_names (noted_of ended.now) ≡ true → self.old.chosen ≡ None
            → Counts self.new.chosen (λ files. files_in files.entries) self.old.names_left (files_in self.old.lost.entries) self.new.names_left) }
    {
        if is_sync(ended) {
            self.chosen = None;
            self.names_left = names;
            return Ok(());
        }
        if changes_names(ended) && self.chosen.is_none() {
            return self.count();
        }
        Ok(())
    }

    /// Makes a call again.
    pub(crate) fn step(
        &mut self,
        alloc: Global,
        ended: &EndedCall,
        names: usize,
        byte: u8,
    ) -> Result<(), AllocError>
        ensures { OnOk result ((h : History) → IsReplay names byte h self.old → IsReplay names byte (with_call h (deed_of ended.now.call) ended.now.end) self.new) }
    {
        self.choose(ended, names)?;
        apply(alloc, &mut self.held, &ended.call, ended.end)?;
        lose(alloc, &mut self.lost, &self.held, ended, byte)?;
        Ok(())
    }

    /// What a loss of power leaves, once all calls were made.
    pub(crate) fn into_lost(self) -> PathBytes
        ensures { (h : History) (names byte : ℕ) → IsReplay names byte h self → IsMarked byte (loss_in (kept_of names h)) (files_in result.entries) }
    {
        let Replay { lost, chosen, .. } = self;
        match chosen {
            Some(files) => files,
            None => lost,
        }
    }
}
