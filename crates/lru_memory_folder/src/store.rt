//! The calls of a folder in memory, each with the fate that it is given.
ghost use Rattle.std.specs.Prelude.{◌≡◌, ℕ, List, [], drop, length, map, true, is_some, string_bytes, IfOk, IsSome, MatchResult, OnOk, take};
ghost use Rattle.std.specs.FinMap.{get, insert, keys};
ghost use Rattle.lru_folder.specs.Files.{bytes_at};
ghost use Rattle.lru_folder.specs.Folder.{IsReading, IsWriting, written_path};
ghost use Rattle.lru_folder.specs.Folder as mode;
ghost use Rattle.lru_folder.specs.Listings.{name_of};
ghost use Rattle.lru_folder.specs.Places.{can_list, folder_of, is_there, listing, MakesAll, MakesSome};
ghost use Rattle.lru_memory_folder.specs.Calls.{Creates, Writes, Renames, Removes, Syncs, SyncsNames, Looks};
ghost use Rattle.lru_memory_folder.specs.History.{end_of, files_left, Goes};
ghost use Rattle.lru_memory_folder.specs.HeldInside.{files_in};
ghost use Rattle.lru_memory_folder.specs.MadeInside.{folders_in, texts_of};
ghost use Rattle.lru_memory_folder.specs.OpenInside.{opened_in};
ghost use Rattle.lru_memory_folder.specs.Kept.{IsMarked};
ghost use Rattle.lru_memory_folder.specs.ReplayInside.{kept_of, loss_in};

use crate::calls::FileCall;
use crate::held::{PathBytes, bytes_of, holds, names_of, paths_of, piece_at};
use crate::journal::CallJournal;
use crate::open::{Open, set, shut};
use crate::places::{folder_of, is_there, make_all};
use lru_folder::fault::FolderFault;
use lru_folder::listed::Listed;
use std::alloc::{AllocError, Global};

/// The files, the folders that were made, and the open file.
#[derive(Drop)]
pub(crate) struct Store {
    alloc: Global,
    pub(crate) journal: CallJournal,
    pub(crate) made: Vec<Vec<u8>>,
    pub(crate) file: Open,
}

impl Store {
    /// A store without files.
    pub(crate) fn new(alloc: Global) -> Self
        ensures journal { result.journal ≡ record { begun = []; calls = [] } }
        ensures made { result.made.items ≡ [] }
        ensures shut { result.file ≡ Open.Closed }
    {
        Store {
            alloc,
            journal: CallJournal::new(alloc),
            made: Vec::new(alloc),
            file: Open::Closed,
        }
    }

    /// The store with one file more, and with that file's folder. It begins anew.
    pub(crate) fn with(self, path: &str, bytes: &[u8]) -> Result<Self, AllocError>
        ensures files { IfOk result (λ store. files_left store.journal ≡ insert (files_left self.journal) path.now bytes.now) }
        ensures folders { IfOk result (λ store. MakesAll (folder_of path.now) (folders_in self.made.items) (folders_in store.made.items)) }
        ensures begins { IfOk result (λ store. store.journal.calls ≡ []) }
        ensures shut { IfOk result (λ store. store.file ≡ Open.Closed) }
    {
        let Store {
            alloc,
            journal,
            mut made,
            ..
        } = self;
        let journal = journal.with(alloc, path, bytes)?;
        make_all(alloc, &mut made, folder_of(path))?;
        Ok(Store {
            alloc,
            journal,
            made,
            file: Open::Closed,
        })
    }

    /// The store as a loss of power leaves it. It begins anew, with the folders that were made.
    pub(crate) fn after_loss(&self, names: usize, byte: u8) -> Result<Self, AllocError>
        ensures files { IfOk result (λ store. IsMarked byte (loss_in (kept_of names self.now.journal)) (files_left store.journal)) }
        ensures folders { IfOk result (λ store. texts_of store.made.items ≡ texts_of self.now.made.items) }
        ensures begins { IfOk result (λ store. store.journal.calls ≡ []) }
        ensures shut { IfOk result (λ store. store.file ≡ Open.Closed) }
    {
        let made = self.made.clone()?;
        let held = self.journal.after_loss(self.alloc, names, byte)?;
        Ok(Store {
            alloc: self.alloc,
            journal: CallJournal::begin(self.alloc, held)?,
            made,
            file: Open::Closed,
        })
    }

    /// The paths of the files, in byte order.
    pub(crate) fn paths(&self) -> Result<Vec<String>, AllocError>
        ensures { IfOk result (λ paths. map string_bytes paths.items ≡ keys (files_left self.now.journal)) }
    {
        paths_of(self.alloc, self.held())
    }

    /// The files now.
    pub(crate) fn held(&self) -> &PathBytes
        ensures { files_in result.now.entries ≡ files_left self.now.journal }
    {
        self.journal.held()
    }

    pub(crate) fn make(&mut self, dir: &str, fate: Option<usize>) -> Result<(), FolderFault>
        ensures closed { self.new.file ≡ Open.Closed }
        ensures goes { Goes Looks (end_of fate true) self.old.journal self.new.journal result }
        ensures all { OnOk result (MakesAll dir.now (folders_in self.old.made.items) (folders_in self.new.made.items)) }
        ensures some { MakesSome dir.now (folders_in self.old.made.items) (folders_in self.new.made.items) }
        ensures none { IsSome fate → self.new.made.items ≡ self.old.made.items }
    {
        shut(&mut self.file);
        if fate.is_none() {
            make_all(self.alloc, &mut self.made, dir.as_bytes())?;
        }
        self.journal
            .conclude(self.alloc, FileCall::Look, fate, true)
    }

    pub(crate) fn create(&mut self, path: &str, fate: Option<usize>) -> Result<(), FolderFault>
        ensures mode { MatchResult result (λ _. opened_in (files_left self.new.journal) self.new.file ≡ mode.Writing path.now) (λ _. self.new.file ≡ Open.Closed) }
        ensures goes { Goes (Creates path.now) (end_of fate (is_there (folders_in self.old.made.items) (folder_of path.now))) self.old.journal self.new.journal result }
        ensures made { self.new.made ≡ self.old.made }
    {
        shut(&mut self.file);
        let name = String::from_str(self.alloc, path)?;
        let call = FileCall::Create(String::from_str(self.alloc, path)?);
        let found = is_there(&self.made, folder_of(path));
        self.journal.conclude(self.alloc, call, fate, found)?;
        set(&mut self.file, Open::Writing(name));
        Ok(())
    }

    pub(crate) fn write(&mut self, piece: &[u8], fate: Option<usize>) -> Result<(), FolderFault>
        requires { IsWriting (opened_in (files_left self.old.journal) self.old.file) }
        ensures mode { self.new.file ≡ self.old.file }
        ensures goes { Goes (Writes (written_path (opened_in (files_left self.old.journal) self.old.file)) piece.now) (end_of fate true) self.old.journal self.new.journal result }
        ensures made { self.new.made ≡ self.old.made }
    {
        let Open::Writing(path) = &self.file else {
            unreachable!()
        };
        let path = String::from_str(self.alloc, path.as_str())?;
        let call = FileCall::Write(path, piece.to_vec(self.alloc)?);
        self.journal.conclude(self.alloc, call, fate, true)
    }

    pub(crate) fn flush(&mut self, fate: Option<usize>) -> Result<(), FolderFault>
        ensures mode { self.new.file ≡ self.old.file }
        ensures goes { Goes Looks (end_of fate true) self.old.journal self.new.journal result }
        ensures made { self.new.made ≡ self.old.made }
    {
        self.journal
            .conclude(self.alloc, FileCall::Look, fate, true)
    }

    pub(crate) fn sync(&mut self, fate: Option<usize>) -> Result<(), FolderFault>
        requires { IsWriting (opened_in (files_left self.old.journal) self.old.file) }
        ensures mode { self.new.file ≡ self.old.file }
        ensures goes { Goes (Syncs (written_path (opened_in (files_left self.old.journal) self.old.file))) (end_of fate true) self.old.journal self.new.journal result }
        ensures made { self.new.made ≡ self.old.made }
    {
        let Open::Writing(path) = &self.file else {
            unreachable!()
        };
        let call = FileCall::Sync(String::from_str(self.alloc, path.as_str())?);
        self.journal.conclude(self.alloc, call, fate, true)
    }

    pub(crate) fn sync_dir(&mut self, dir: &str, fate: Option<usize>) -> Result<(), FolderFault>
        ensures mode { self.new.file ≡ self.old.file }
        ensures goes { Goes (SyncsNames dir.now) (end_of fate (is_there (folders_in self.old.made.items) dir.now)) self.old.journal self.new.journal result }
        ensures made { self.new.made ≡ self.old.made }
    {
        let call = FileCall::SyncDir(String::from_str(self.alloc, dir)?);
        let found = is_there(&self.made, dir.as_bytes());
        self.journal.conclude(self.alloc, call, fate, found)
    }

    pub(crate) fn claim_dir(
        &mut self,
        dir: &str,
        fate: Option<usize>,
        alone: bool,
    ) -> Result<bool, FolderFault>
        ensures mode { self.new.file ≡ self.old.file }
        ensures goes { Goes Looks (end_of fate (is_there (folders_in self.old.made.items) dir.now)) self.old.journal self.new.journal result }
        ensures told { IfOk result (λ told. told ≡ alone) }
        ensures made { self.new.made ≡ self.old.made }
    {
        let found = is_there(&self.made, dir.as_bytes());
        self.journal
            .conclude(self.alloc, FileCall::Look, fate, found)?;
        Ok(alone)
    }

    pub(crate) fn rename(
        &mut self,
        from: &str,
        to: &str,
        fate: Option<usize>,
    ) -> Result<(), FolderFault>
        ensures closed { self.new.file ≡ Open.Closed }
        ensures goes { Goes (Renames from.now to.now) (end_of fate (is_some (get (files_left self.old.journal) from.now))) self.old.journal self.new.journal result }
        ensures made { self.new.made ≡ self.old.made }
    {
        shut(&mut self.file);
        let noted = String::from_str(self.alloc, from)?;
        let call = FileCall::Rename(noted, String::from_str(self.alloc, to)?);
        let found = holds(self.journal.held(), from);
        self.journal.conclude(self.alloc, call, fate, found)
    }

    pub(crate) fn open(&mut self, path: &str, fate: Option<usize>) -> Result<u64, FolderFault>
        ensures mode { MatchResult result (λ _. opened_in (files_left self.old.journal) self.new.file ≡ mode.Reading (bytes_at (files_left self.old.journal) path.now)) (λ _. self.new.file ≡ Open.Closed) }
        ensures goes { Goes Looks (end_of fate (is_some (get (files_left self.old.journal) path.now))) self.old.journal self.new.journal result }
        ensures len { IfOk result (λ len. len ≡ length (bytes_at (files_left self.old.journal) path.now)) }
        ensures made { self.new.made ≡ self.old.made }
    {
        shut(&mut self.file);
        let name = String::from_str(self.alloc, path)?;
        let found = holds(self.journal.held(), path);
        let len = bytes_of(self.journal.held(), path).len() as u64;
        self.journal
            .conclude(self.alloc, FileCall::Look, fate, found)?;
        set(&mut self.file, Open::Reading(name, 0));
        Ok(len)
    }

    pub(crate) fn read(&mut self, max: usize, fate: Option<usize>) -> Result<Vec<u8>, FolderFault>
        requires { IsReading (opened_in (files_left self.old.journal) self.old.file) }
        ensures mode { IsReading (opened_in (files_left self.old.journal) self.new.file) }
        ensures goes { Goes Looks (end_of fate true) self.old.journal self.new.journal result }
        ensures piece { (left : List ℕ) → opened_in (files_left self.old.journal) self.old.file ≡ mode.Reading left → IfOk result (λ piece. piece.items ≡ take max left) }
        ensures rest { (left : List ℕ) → opened_in (files_left self.old.journal) self.old.file ≡ mode.Reading left
            → IfOk result (λ piece. opened_in (files_left self.old.journal) self.new.file ≡ mode.Reading (drop (length piece.items) left)) }
        ensures made { self.new.made ≡ self.old.made }
    {
        let Open::Reading(path, at) = &mut self.file else {
            unreachable!()
        };
        let piece = piece_at(self.alloc, self.journal.held(), path.as_str(), *at, max)?;
        self.journal
            .conclude(self.alloc, FileCall::Look, fate, true)?;
        *at += piece.len();
        Ok(piece)
    }

    pub(crate) fn list(
        &mut self,
        dir: &str,
        fate: Option<usize>,
    ) -> Result<Vec<Listed>, FolderFault>
        ensures closed { self.new.file ≡ Open.Closed }
        ensures goes { Goes Looks (end_of fate (can_list (folders_in self.old.made.items) dir.now)) self.old.journal self.new.journal result }
        ensures listed { IfOk result (λ listed. map name_of listed.items ≡ listing dir.now (files_left self.old.journal)) }
        ensures made { self.new.made ≡ self.old.made }
    {
        shut(&mut self.file);
        let found = !dir.is_empty() && is_there(&self.made, dir.as_bytes());
        let listed = names_of(self.alloc, self.journal.held(), dir)?;
        self.journal
            .conclude(self.alloc, FileCall::Look, fate, found)?;
        Ok(listed)
    }

    pub(crate) fn remove(&mut self, path: &str, fate: Option<usize>) -> Result<(), FolderFault>
        ensures closed { self.new.file ≡ Open.Closed }
        ensures goes { Goes (Removes path.now) (end_of fate (is_some (get (files_left self.old.journal) path.now))) self.old.journal self.new.journal result }
        ensures made { self.new.made ≡ self.old.made }
    {
        shut(&mut self.file);
        let call = FileCall::Remove(String::from_str(self.alloc, path)?);
        let found = holds(self.journal.held(), path);
        self.journal.conclude(self.alloc, call, fate, found)
    }
}
