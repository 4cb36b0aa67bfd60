//! The folder of the operating system.
ghost use Rattle.std.specs.Prelude.{◌≡◌, ◌⊎◌, ℕ, String, string_bytes, List, [], ◌∷◌, true, false, length, map, Some, None, Ok, IfErr, IfOk, IsSomeAnd, MatchResult, OnErr, OnOk};
ghost use Rattle.std.specs.declared.alloc.Global.{Global};
ghost use Rattle.lru_folder.specs.Listings.{name_of};
ghost use Rattle.lru_folder.specs.Folder.{Closed, IsReading, IsWriting};
ghost use Rattle.lru_host_folder.specs.Calls.{after, Closes, Done, Flushes, Lists, Locks, Measures, Opens, Reads, Removes, Renames, SeesFile, SeesFolder, Syncs, SyncsFolder, Writes};
ghost use Rattle.lru_host_folder.specs.HostInside.{mode_of};
ghost use Rattle.lru_host_folder.specs.Steps.{interrupted, let_go, open_place, place_of, shut, system_name, way_to, AreMade, HasReason, IsClaimedCreation, IsListing, IsOneCall, IsRemoval};

use crate::host_open::HostOpen;
use crate::host_system::HostSystem;
use crate::steps::{
    answer, create_claimed, let_go, listing, make_all, open_file, open_folder, read_once,
    remove_unclaimed, rename_for_good, shut, system_name,
};
use crate::system::System;
use lru_folder::fault::FolderFault;
use lru_folder::folder::Folder;
use lru_folder::listed::Listed;
use lru_folder::synced_folder::SyncedFolder;

/// A folder of a system's files.
///
/// What a call of the folder answers is what the system's calls answered: an Ok says that each of them was done, in this
/// order, and a fault that one of them failed or that memory was refused. So it is proved for each system. What a system then
/// does is its promise.
#[derive(Drop)]
pub struct SystemFolder<S: System> {
    system: S,
    file: HostOpen<S::File>,
    claimed: Option<S::File>,
}

/// The files of the operating system.
///
/// No theorem speaks of the files themselves: the clauses of a folder hold of each folder that keeps its meaning, and nothing
/// says that this one does. While nobody else writes there and the disk gives back what was written it should, which is tried
/// by real runs and not proved.
///
/// From `create` until it has its name, or the next call that closes it, a file is locked: another such folder, in this
/// process or not, neither creates nor removes it, and answers `Io`. `rename` syncs the folder of the new name, and answers
/// `Io` where that fails, though the name is given. `make` syncs each folder that it makes into the one above it; one that
/// is there it leaves as it is, also where a stop came between its making and its sync. `sync_dir` opens the folder and syncs
/// it: that the disk keeps the names then is the system's promise. `claim_dir` opens the folder and locks it, as `create` locks
/// a file, so no file is left behind where a program stops: the system then takes the lock back. What is a link or a pipe is
/// not opened. `create` of a path that is there removes it first, so a stop between leaves no file there, where a folder's
/// meaning leaves the old one or the empty one; saves create temp files alone.
///
/// Before it answers `Io` it logs a warning by its runtime: the call, the path and what the system said, as no space, no
/// permission or too long a name. A plain runtime logs to the standard error; a `log::Logged` to a log of one's own.
pub type HostFolder<R> = SystemFolder<HostSystem<R>>;

impl<S: System> SystemFolder<S> {
    /// The folder of this system, with no file open.
    pub fn over(system: S) -> Self
        ensures { result ≡ record { system = system; file = HostOpen.Closed; claimed = None } }
    {
        SystemFolder {
            system,
            file: HostOpen::Closed,
            claimed: None,
        }
    }

    /// The system.
    pub fn system(&self) -> &S
        ensures { result.now ≡ self.now.system }
    {
        &self.system
    }
}

impl<R> SystemFolder<HostSystem<R>>
where
    HostSystem<R>: System,
{
    /// The folder of this runtime, with no file open.
    pub fn new(rt: R) -> Self
        ensures { mode_of result.file ≡ Closed }
    {
        SystemFolder::over(HostSystem::new(rt))
    }
}

impl<S: System> Folder for SystemFolder<S> {
    ghost use Rattle.lru_folder.specs.Meaning.{without_meaning};

    ghost meaning = { without_meaning };

    ghost opened = { λ h. mode_of h.file };

    fn make(&mut self, dir: &str) -> Result<(), FolderFault>
        ensures closed { mode_of self.new.file ≡ Closed }
        ensures done { OnOk result (AreMade S.book (way_to dir.now (length dir.now)) (shut S.book self.old.file (S.book.notes self.old.system)) (S.book.notes self.new.system)) }
        ensures reason { IfErr result (HasReason S.book.note (S.book.notes self.old.system) (S.book.notes self.new.system)) }
        ensures claimed { self.new.claimed ≡ self.old.claimed }
    {
        shut(&mut self.system, &mut self.file);
        make_all(&mut self.system, dir)
    }

    fn create(&mut self, path: &str) -> Result<(), FolderFault>
        ensures mode { MatchResult result (λ _. IsWriting (mode_of self.new.file)) (λ _. mode_of self.new.file ≡ Closed) }
        ensures done { OnOk result (IsClaimedCreation S.book path.now (shut S.book self.old.file (S.book.notes self.old.system)) (S.book.notes self.new.system)) }
        ensures place { OnOk result (open_place S.book self.new.file ≡ S.book.at_path path.now) }
        ensures reason { IfErr result (HasReason S.book.note (S.book.notes self.old.system) (S.book.notes self.new.system)) }
        ensures claimed { self.new.claimed ≡ self.old.claimed }
    {
        shut(&mut self.system, &mut self.file);
        let name = String::from_str(self.system.alloc(), path)?;
        let file = create_claimed(&mut self.system, path)?;
        self.file = HostOpen::Writing(file, name);
        Ok(())
    }

    fn write(&mut self, piece: &[u8]) -> Result<(), FolderFault>
        requires { IsWriting (mode_of self.old.file) }
        ensures mode { mode_of self.new.file ≡ mode_of self.old.file }
        ensures call { IsOneCall S.book self.old.system self.new.system (λ _. Writes (open_place S.book self.old.file) piece.now) result }
        ensures place { open_place S.book self.new.file ≡ open_place S.book self.old.file }
        ensures claimed { self.new.claimed ≡ self.old.claimed }
    {
        let HostOpen::Writing(file, path) = &mut self.file else {
            unreachable!()
        };
        let told = self.system.write(file, piece);
        answer(&self.system, "write to", path, told)
    }

    fn flush(&mut self) -> Result<(), FolderFault>
        requires { IsWriting (mode_of self.old.file) }
        ensures mode { mode_of self.new.file ≡ mode_of self.old.file }
        ensures call { IsOneCall S.book self.old.system self.new.system (λ _. Flushes (open_place S.book self.old.file)) result }
        ensures place { open_place S.book self.new.file ≡ open_place S.book self.old.file }
        ensures claimed { self.new.claimed ≡ self.old.claimed }
    {
        let HostOpen::Writing(file, path) = &mut self.file else {
            unreachable!()
        };
        let told = self.system.flush(file);
        answer(&self.system, "flush", path, told)
    }

    fn sync(&mut self) -> Result<(), FolderFault>
        requires { IsWriting (mode_of self.old.file) }
        ensures mode { mode_of self.new.file ≡ mode_of self.old.file }
        ensures call { IsOneCall S.book self.old.system self.new.system (λ _. Syncs (open_place S.book self.old.file)) result }
        ensures place { open_place S.book self.new.file ≡ open_place S.book self.old.file }
        ensures claimed { self.new.claimed ≡ self.old.claimed }
    {
        let HostOpen::Writing(file, path) = &mut self.file else {
            unreachable!()
        };
        let told = self.system.sync(file);
        answer(&self.system, "sync", path, told)
    }

    fn rename(&mut self, from: &str, to: &str) -> Result<(), FolderFault>
        ensures closed { mode_of self.new.file ≡ Closed }
        ensures done { OnOk result (S.book.notes self.new.system ≡ shut S.book self.old.file (after S.book.note (S.book.notes self.old.system)
            (Done (Renames from.now to.now) ∷ Done (SyncsFolder (place_of to.now)) ∷ []))) }
        ensures reason { IfErr result (HasReason S.book.note (S.book.notes self.old.system) (S.book.notes self.new.system)) }
        ensures claimed { self.new.claimed ≡ self.old.claimed }
    {
        // The open file stays claimed until it has its name, so that nobody else takes it for a leftover.
        let renamed = rename_for_good(&mut self.system, from, to);
        shut(&mut self.system, &mut self.file);
        renamed
    }

    fn open(&mut self, path: &str) -> Result<u64, FolderFault>
        ensures mode { MatchResult result (λ _. IsReading (mode_of self.new.file)) (λ _. mode_of self.new.file ≡ Closed) }
        ensures done { IfOk result (λ len. S.book.notes self.new.system ≡ after S.book.note (shut S.book self.old.file (S.book.notes self.old.system))
            (Done (SeesFile path.now true) ∷ Done (Opens path.now) ∷ Done (Measures (S.book.at_path path.now) len) ∷ [])) }
        ensures place { OnOk result (open_place S.book self.new.file ≡ S.book.at_path path.now) }
        ensures reason { IfErr result (HasReason S.book.note (S.book.notes self.old.system) (S.book.notes self.new.system)) }
        ensures claimed { self.new.claimed ≡ self.old.claimed }
    {
        shut(&mut self.system, &mut self.file);
        let name = String::from_str(self.system.alloc(), path)?;
        let opened = open_file(&mut self.system, path);
        let (file, len) = answer(&self.system, "open", path, opened)?;
        self.file = HostOpen::Reading(file, name);
        Ok(len)
    }

    fn read(&mut self, max: usize) -> Result<Vec<u8>, FolderFault>
        requires { IsReading (mode_of self.old.file) }
        ensures mode { IsReading (mode_of self.new.file) }
        ensures done { IfOk result (λ piece. (n : ℕ) × (S.book.notes self.new.system
            ≡ S.book.note (interrupted S.book.note n (S.book.notes self.old.system)) (Done (Reads (open_place S.book self.old.file) piece.items)))) }
        ensures place { open_place S.book self.new.file ≡ open_place S.book self.old.file }
        ensures reason { IfErr result (HasReason S.book.note (S.book.notes self.old.system) (S.book.notes self.new.system)) }
        ensures claimed { self.new.claimed ≡ self.old.claimed }
    {
        let alloc = self.system.alloc();
        let HostOpen::Reading(file, path) = &mut self.file else {
            unreachable!()
        };
        let mut piece = vec![in alloc; 0u8; max]?;
        let told = read_once(&mut self.system, file, &mut piece);
        let count = answer(&self.system, "read from", path, told)?;
        piece.truncate(count);
        Ok(piece)
    }

    fn list(&mut self, dir: &str) -> Result<Vec<Listed>, FolderFault>
        ensures closed { mode_of self.new.file ≡ Closed }
        ensures done { IfOk result (λ listed. (found : List (String Global)) × (unreadable : ℕ) × (IsListing found unreadable (map name_of listed.items)
            × (S.book.notes self.new.system ≡ S.book.note (shut S.book self.old.file (S.book.notes self.old.system)) (Done (Lists dir.now (map string_bytes found) unreadable))))) }
        ensures reason { IfErr result (λ told. HasReason S.book.note (S.book.notes self.old.system) (S.book.notes self.new.system) told ⊎ ((dir.now ≡ []) × (told ≡ FolderFault.NotFound))) }
        ensures claimed { self.new.claimed ≡ self.old.claimed }
    {
        shut(&mut self.system, &mut self.file);
        if dir.is_empty() {
            return Err(FolderFault::NotFound);
        }
        let told = self.system.list(dir);
        let (mut names, unreadable) = answer(&self.system, "list", dir, told)?;
        names.sort()?;
        Ok(listing(self.system.alloc(), names, unreadable)?)
    }

    fn remove(&mut self, path: &str) -> Result<(), FolderFault>
        ensures closed { mode_of self.new.file ≡ Closed }
        ensures done { OnOk result (IsRemoval S.book path.now (shut S.book self.old.file (S.book.notes self.old.system)) (S.book.notes self.new.system)) }
        ensures reason { IfErr result (HasReason S.book.note (S.book.notes self.old.system) (S.book.notes self.new.system)) }
        ensures claimed { self.new.claimed ≡ self.old.claimed }
    {
        shut(&mut self.system, &mut self.file);
        let removed = remove_unclaimed(&mut self.system, path);
        answer(&self.system, "remove", path, removed)
    }
}

impl<S: System> SyncedFolder for SystemFolder<S> {
    fn sync_dir(&mut self, dir: &str) -> Result<(), FolderFault>
        ensures mode { self.new.file ≡ self.old.file }
        ensures call { IsOneCall S.book self.old.system self.new.system (λ _. SyncsFolder (system_name dir.now)) result }
        ensures claimed { self.new.claimed ≡ self.old.claimed }
    {
        let name = system_name(dir);
        let told = self.system.sync_folder(name);
        answer(&self.system, "sync", name, told)
    }

    fn claim_dir(&mut self, dir: &str) -> Result<bool, FolderFault>
        ensures mode { self.new.file ≡ self.old.file }
        ensures granted { result ≡ Ok true → (S.book.notes self.new.system ≡ after S.book.note (let_go S.book self.old.claimed (S.book.notes self.old.system))
            (Done (SeesFolder (system_name dir.now) true) ∷ Done (Opens (system_name dir.now)) ∷ Done (Locks (S.book.at_path (system_name dir.now)) true) ∷ [])) }
        ensures held { result ≡ Ok true → IsSomeAnd self.new.claimed (λ folder. S.book.file_of folder ≡ S.book.at_path (system_name dir.now)) }
        ensures taken { result ≡ Ok false → (S.book.notes self.new.system ≡ after S.book.note (let_go S.book self.old.claimed (S.book.notes self.old.system))
            (Done (SeesFolder (system_name dir.now) true) ∷ Done (Opens (system_name dir.now)) ∷ Done (Locks (S.book.at_path (system_name dir.now)) false)
            ∷ Done (Closes (S.book.at_path (system_name dir.now))) ∷ [])) }
        ensures none { result ≡ Ok false → self.new.claimed ≡ None }
        ensures err { OnErr result (self.new.claimed ≡ None) }
        ensures reason { IfErr result (HasReason S.book.note (S.book.notes self.old.system) (S.book.notes self.new.system)) }
    {
        let_go(&mut self.system, &mut self.claimed);
        let name = system_name(dir);
        let opened = open_folder(&mut self.system, name);
        let folder = answer(&self.system, "claim", name, opened)?;
        let alone = self.system.lock(&folder);
        if alone {
            self.claimed = Some(folder);
        } else {
            self.system.close(folder);
        }
        Ok(alone)
    }

    fn leave_dir(&mut self)
        ensures mode { self.new.file ≡ self.old.file }
        ensures noted { S.book.notes self.new.system ≡ let_go S.book self.old.claimed (S.book.notes self.old.system) }
        ensures free { self.new.claimed ≡ None }
    {
        let_go(&mut self.system, &mut self.claimed);
    }
}
