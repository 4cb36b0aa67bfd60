//! The files of a folder in memory, with the calls that led to them.
ghost use Rattle.std.specs.Prelude.{◌≡◌, ◌<◌, ◌++◌, ◌∷◌, [], length, IfOk, OnErr, OnOk, vec_len, vec_capacity};
ghost use Rattle.std.specs.FinMap.{insert};
ghost use Rattle.lru_memory_folder.specs.Calls.{begun, ended, whole};
ghost use Rattle.lru_memory_folder.specs.DeedInside.{deed_of};
ghost use Rattle.lru_memory_folder.specs.HeldInside.{files_in};
ghost use Rattle.lru_memory_folder.specs.History.{end_of, files_left, with_call, Goes};
ghost use Rattle.lru_memory_folder.specs.Kept.{IsMarked};
ghost use Rattle.lru_memory_folder.specs.ReplayInside.{kept_of, loss_in};

use crate::calls::{End, EndedCall, FileCall, end_of};
use crate::held::{PathBytes, append, copy_all, front, give_name, put, take_out};
use crate::replay::Replay;
use lru_folder::fault::FolderFault;
use std::alloc::{AllocError, Global};
use std::collections::BTreeMap;
use std::marker::Model;

/// The files that a folder began with, its calls since, and the files that these left.
#[derive(Drop)]
pub(crate) struct CallJournal {
    begun: PathBytes,
    calls: Vec<EndedCall>,
    held: PathBytes,
}

impl Model for CallJournal {
    ghost use Rattle.lru_memory_folder.specs.History.{History};

    ghost Value = { History };

    ghost use Rattle.lru_memory_folder.specs.JournalInside.{history_of, IsReplayed};

    ghost view = { history_of };

    ghost invariant = { IsReplayed };
}

impl CallJournal {
    /// A journal that begins without files.
    pub(crate) fn new(alloc: Global) -> Self
        ensures { result ≡ record { begun = []; calls = [] } }
    {
        CallJournal {
            begun: BTreeMap::new(alloc),
            calls: Vec::new(alloc),
            held: BTreeMap::new(alloc),
        }
    }

    /// A journal that begins with these files.
    pub(crate) fn begin(alloc: Global, held: PathBytes) -> Result<Self, AllocError>
        ensures files { IfOk result (λ journal. files_left journal ≡ files_in held.entries) }
        ensures begins { IfOk result (λ journal. journal.calls ≡ []) }
    {
        Ok(CallJournal {
            begun: copy_all(&held)?,
            calls: Vec::new(alloc),
            held,
        })
    }

    /// The files now.
    pub(crate) fn held(&self) -> &PathBytes
        ensures { files_in result.now.entries ≡ files_left self.now }
    {
        &self.held
    }

    /// How many calls there were.
    pub(crate) fn calls(&self) -> usize
        ensures { result ≡ length self.now.calls }
    {
        self.calls.len()
    }

    /// The files, without the calls that led to them.
    pub(crate) fn into_held(self) -> PathBytes
        ensures { files_in result.entries ≡ files_left self }
    {
        self.held
    }

    /// A journal that begins with the files now and with one file more.
    pub(crate) fn with(self, alloc: Global, path: &str, bytes: &[u8]) -> Result<Self, AllocError>
        ensures files { IfOk result (λ journal. files_left journal ≡ insert (files_left self) path.now bytes.now) }
        ensures begins { IfOk result (λ journal. journal.calls ≡ []) }
    {
        let mut held = self.into_held();
        put(alloc, &mut held, path, bytes.to_vec(alloc)?)?;
        CallJournal::begin(alloc, held)
    }

    /// The files that a loss of power leaves which keeps the first `names` name changes since the last sync, and puts one
    /// byte into each path that was then loose.
    pub(crate) fn after_loss(
        &self,
        alloc: Global,
        names: usize,
        byte: u8,
    ) -> Result<PathBytes, AllocError>
        ensures { IfOk result (λ held. IsMarked byte (loss_in (kept_of names self.now)) (files_in held.entries)) }
    {
        let mut replay = Replay::new(&self.begun, names)?;
        for ended in &self.calls {
            replay.step(alloc, ended, names, byte)?;
        }
        Ok(replay.into_lost())
    }

    /// Does what a call does that ends so, and notes it. Where memory is refused, nothing changes.
    pub(crate) fn note(&mut self, alloc: Global, call: FileCall, end: End) -> Result<(), AllocError>
        ensures ok { OnOk result (self.new ≡ with_call self.old (deed_of call) end) }
        ensures err { OnErr result (self.new ≡ self.old) }
    {
        make_ready(alloc, &mut self.calls, &mut self.held, &call, end)?;
        push(&mut self.calls, call, end);
        Ok(())
    }

    /// The same of a call that ends by its fate and by whether what it asks for is there, and answers as it does.
    pub(crate) fn conclude(
        &mut self,
        alloc: Global,
        call: FileCall,
        fate: Option<usize>,
        found: bool,
    ) -> Result<(), FolderFault>
        ensures { Goes (deed_of call) (end_of fate found) self.old self.new result }
    {
        let end = end_of(fate, found);
        self.note(alloc, call, end)?;
        match end {
            End::Done => Ok(()),
            End::NotFound => Err(FolderFault::NotFound),
            End::Failed(_) => Err(FolderFault::Io),
        }
    }
}

/// Does a call, and makes room for it behind the others. Where memory is refused, nothing changes.
fn make_ready(
    alloc: Global,
    calls: &mut Vec<EndedCall>,
    held: &mut PathBytes,
    call: &FileCall,
    end: End,
) -> Result<(), AllocError>
    ensures calls { calls.new.items ≡ calls.old.items }
    ensures room { OnOk result (vec_len calls.new < vec_capacity calls.new) }
    ensures ok { OnOk result (files_in held.new.entries ≡ ended (deed_of call.now) end (files_in held.old.entries)) }
    ensures err { OnErr result (files_in held.new.entries ≡ files_in held.old.entries) }
{
    calls.reserve(1)?;
    apply(alloc, held, call, end)
}

/// Puts a call behind the others, for which there is room.
fn push(calls: &mut Vec<EndedCall>, call: FileCall, end: End)
    requires { vec_len calls.old < vec_capacity calls.old }
    ensures { calls.new.items ≡ calls.old.items ++ record { call = call; end = end } ∷ [] }
{
    calls.push(EndedCall { call, end }).unwrap();
}

/// Does to the files what a call does that ends so. Where memory is refused, nothing changes.
pub(crate) fn apply(
    alloc: Global,
    held: &mut PathBytes,
    call: &FileCall,
    end: End,
) -> Result<(), AllocError>
    ensures ok { OnOk result (files_in held.new.entries ≡ ended (deed_of call.now) end (files_in held.old.entries)) }
    ensures err { OnErr result (files_in held.new.entries ≡ files_in held.old.entries) }
{
    match end {
        End::Done => apply_whole(alloc, held, call),
        End::NotFound => Ok(()),
        End::Failed(part) => apply_front(alloc, held, call, part),
    }
}

/// Does to the files what the whole of a call does.
fn apply_whole(alloc: Global, held: &mut PathBytes, call: &FileCall) -> Result<(), AllocError>
    ensures ok { OnOk result (files_in held.new.entries ≡ whole (deed_of call.now) (files_in held.old.entries)) }
    ensures err { OnErr result (files_in held.new.entries ≡ files_in held.old.entries) }
{
    match call {
        FileCall::Create(path) => put(alloc, held, path.as_str(), Vec::new(alloc)),
        FileCall::Write(path, piece) => append(alloc, held, path.as_str(), piece),
        FileCall::Rename(from, to) => give_name(alloc, held, from.as_str(), to.as_str()),
        FileCall::Remove(path) => {
            take_out(held, path.as_str());
            Ok(())
        }
        FileCall::Sync(_) => Ok(()),
        FileCall::SyncDir(_) => Ok(()),
        FileCall::Look => Ok(()),
    }
}

/// Does to the files what is left of a call that failed, after so many bytes of a piece.
fn apply_front(
    alloc: Global,
    held: &mut PathBytes,
    call: &FileCall,
    part: usize,
) -> Result<(), AllocError>
    ensures ok { OnOk result (files_in held.new.entries ≡ begun (deed_of call.now) part (files_in held.old.entries)) }
    ensures err { OnErr result (files_in held.new.entries ≡ files_in held.old.entries) }
{
    match call {
        FileCall::Write(path, piece) => append(alloc, held, path.as_str(), front(piece, part)),
        FileCall::Create(_) => Ok(()),
        FileCall::Rename(_, _) => Ok(()),
        FileCall::Remove(_) => Ok(()),
        FileCall::Sync(_) => Ok(()),
        FileCall::SyncDir(_) => Ok(()),
        FileCall::Look => Ok(()),
    }
}
