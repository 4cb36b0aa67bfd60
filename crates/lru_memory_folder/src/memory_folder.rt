//! A folder in memory, which can be made to fail, and which knows what a stop or a loss of power could have left.
ghost use Rattle.std.specs.Prelude.{◌≡◌, ◌≢◌, [], ℕ, List, not, None, Some, IfOk, IsErrOf, IsTrue, MatchOption, MatchResult, OnOk, length, map, string_bytes, take};
ghost use Rattle.std.specs.FinMap.{get, insert, keys};
ghost use Rattle.std.specs.Option.{option_map};
ghost use Rattle.lru_memory_folder.specs.declared.calls.Plan.TheVariants.{Works, FailsAt, StopsAt};
ghost use Rattle.lru_folder.specs.Files.{created, appended, renamed, removed, AllOrNone, SomeFront, Same};
ghost use Rattle.lru_folder.specs.Losses.{IsSynced, Loses, creating, writing, renaming, removing, looking, firmed, handed_on};
ghost use Rattle.lru_folder.specs.Folder as mode;
ghost use Rattle.lru_folder.specs.Folder.{HasCause, IsReading, IsWriting, Passes, Reads, written_path};
ghost use Rattle.lru_folder.specs.Listings.{name_of};
ghost use Rattle.lru_memory_folder.specs.Kept.{IsMarked};
ghost use Rattle.lru_memory_folder.specs.Memory.{files_of, folders_of, clock_of, faults_of, stopped_since_of, lost_since_of, loose_of, loss_kept, has_another};
ghost use Rattle.lru_memory_folder.specs.MemoryLaws.{memory_meaning};
ghost use Rattle.lru_folder.specs.Places.{folder_of, is_there, can_list, listing, MakesAll, MakesSome};
ghost use Rattle.lru_folder.specs.SyncedNames.{AreSynced};
ghost use Rattle.lru_memory_folder.specs.Plans.{front_of, nothing, GoesAsPlanned};

use crate::calls::Plan;
use crate::held::find;
use crate::places::is_claimed;
use crate::plan::next_fate;
use crate::store::Store;
use lru_folder::fault::FolderFault;
use lru_folder::folder::Folder;
use lru_folder::folder_call::FolderCall;
use lru_folder::listed::Listed;
use lru_folder::synced_folder::SyncedFolder;
use std::alloc::{AllocError, Global};
use std::marker::Model;

/// A folder in memory, for tests and for programs without a disk.
///
/// It keeps the files that it began with and each call since, so it knows what a stop or a loss of power at any moment could
/// have left. A call can be made to fail by a plan.
#[derive(Drop)]
pub struct MemoryFolder {
    store: Store,
    plan: Plan,
    last: FolderCall,
    elsewhere: Option<String>,
}

impl Model for MemoryFolder {
    ghost use Rattle.lru_memory_folder.specs.Memory.{Memory};

    ghost Value = { Memory };

    ghost use Rattle.lru_memory_folder.specs.MemoryInside.{memory_of};

    ghost view = { memory_of };
}

impl MemoryFolder {
    /// A folder without files.
    pub fn new(alloc: Global) -> Self
        ensures { result ≡ record { begun = []; calls = []; made = []; opened = mode.Closed; plan = Works; last = FolderCall.Make; elsewhere = None } }
    {
        MemoryFolder {
            store: Store::new(alloc),
            plan: Plan::Works,
            last: FolderCall::Make,
            elsewhere: None,
        }
    }

    /// The folder with one file more, and with that file's folder. It begins anew: its calls so far are forgotten.
    pub fn with(self, path: &str, bytes: &[u8]) -> Result<Self, AllocError>
        ensures files { IfOk result (λ folder. files_of folder ≡ insert (files_of self) path.now bytes.now) }
        ensures folders { IfOk result (λ folder. MakesAll (folder_of path.now) (folders_of self) (folders_of folder)) }
        ensures begins { IfOk result (λ folder. (folder.calls ≡ []) × (folder.opened ≡ mode.Closed) × (folder.plan ≡ self.plan)) }
        ensures claimed { IfOk result (λ folder. folder.elsewhere ≡ self.elsewhere) }
    {
        let MemoryFolder {
            store,
            plan,
            elsewhere,
            ..
        } = self;
        Ok(MemoryFolder {
            store: store.with(path, bytes)?,
            plan,
            last: FolderCall::Make,
            elsewhere,
        })
    }

    /// The bytes of a path, if it is there.
    pub fn get(&self, path: &str) -> Option<&[u8]>
        ensures { MatchOption result (get (files_of self.now) path.now ≡ None)
            (λ bytes. get (files_of self.now) path.now ≡ Some bytes.now) }
    {
        find(self.store.held(), path)
    }

    /// The paths of the files, in byte order.
    pub fn paths(&self) -> Result<Vec<String>, AllocError>
        ensures { IfOk result (λ paths. map string_bytes paths.items ≡ keys (files_of self.now)) }
    {
        self.store.paths()
    }

    /// How many calls of `Folder` there were since the folder began, those that failed among them. One that was refused
    /// memory did nothing and is not counted.
    pub fn calls(&self) -> usize
        ensures { result ≡ clock_of self.now }
    {
        self.store.journal.calls()
    }

    /// The folder as a loss of power may leave it: the files after the first `names` name changes (by `create`, `rename` and
    /// `remove`) that were done since the last `sync` or `sync_dir` that answered Ok or since the folder began, after all where
    /// there are fewer; and in each of those paths that was loose at some moment from there to the next name change, the one byte in
    /// place of its bytes. A `create` that was done is such a change, and what it makes loose comes after it; one that failed
    /// is none, and the path that it had begun is loose. The folder keeps its folders and begins anew, no call is made to
    /// fail, and nobody else has claimed anything.
    pub fn after_loss(&self, names: usize, byte: u8) -> Result<MemoryFolder, AllocError>
        ensures files { IfOk result (λ folder. IsMarked byte (loss_kept names self.now) (files_of folder)) }
        ensures lost { IfOk result (λ folder. lost_since_of self.now (clock_of self.now) (files_of folder)) }
        ensures folders { IfOk result (λ folder. folders_of folder ≡ folders_of self.now) }
        ensures begins { IfOk result (λ folder. (folder.calls ≡ []) × (folder.opened ≡ mode.Closed) × (folder.plan ≡ Works)) }
        ensures claimed { IfOk result (λ folder. folder.elsewhere ≡ None) }
    {
        Ok(MemoryFolder {
            store: self.store.after_loss(names, byte)?,
            plan: Plan::Works,
            last: FolderCall::Make,
            elsewhere: None,
        })
    }

    /// Makes the `n`-th call from now, counted from 0, answer `Io`, and no other. A `write` puts at most the first `part`
    /// bytes before; any other call does nothing.
    pub fn fail_at(&mut self, n: u64, part: usize)
        ensures { self.new ≡ record self.old { plan = FailsAt n part } }
    {
        self.plan = Plan::FailsAt(n, part);
    }

    /// Makes that call and all later ones answer `Io`.
    pub fn stop_at(&mut self, n: u64, part: usize)
        ensures { self.new ≡ record self.old { plan = StopsAt n part } }
    {
        self.plan = Plan::StopsAt(n, part);
    }

    /// Takes `fail_at` and `stop_at` back.
    pub fn mend(&mut self)
        ensures { self.new ≡ record self.old { plan = Works } }
    {
        self.plan = Plan::Works;
    }

    /// Sets which folder another saver has claimed, if one: `claim_dir` of that folder is refused. There are no other
    /// savers of a folder in memory, so nothing else sets that.
    pub fn claimed_by_another(&mut self, dir: Option<String>)
        ensures { self.new ≡ record self.old { elsewhere = option_map string_bytes dir } }
    {
        self.elsewhere = dir;
    }
}

impl Folder for MemoryFolder {
    ghost meaning = { memory_meaning };

    ghost opened = { λ m. m.opened };

    fn make(&mut self, dir: &str) -> Result<(), FolderFault>
        ensures closed { self.new.opened ≡ mode.Closed }
        ensures done { OnOk result (MakesAll dir.now (folders_of self.old) (folders_of self.new)) }
        ensures part { MakesSome dir.now (folders_of self.old) (folders_of self.new) }
        ensures time { Passes memory_meaning Same self.old self.new }
        ensures loss { Loses memory_meaning looking self.old self.new }
        ensures last { self.new.last ≡ FolderCall.Make }
        ensures cause { HasCause (faults_of self.old) (faults_of self.new) result }
        ensures found { IsErrOf result FolderFault.NotFound → ⊥ }
        ensures planned { GoesAsPlanned nothing self.old self.new result }
    {
        self.last = FolderCall::Make;
        let fate = next_fate(&mut self.plan);
        self.store.make(dir, fate)
    }

    fn create(&mut self, path: &str) -> Result<(), FolderFault>
        ensures mode { MatchResult result (λ _. IsWriting self.new.opened) (λ _. self.new.opened ≡ mode.Closed) }
        ensures done { OnOk result (IsTrue (is_there (folders_of self.old) (folder_of path.now))
            × (files_of self.new ≡ created path.now (files_of self.old)) × (self.new.opened ≡ mode.Writing path.now)) }
        ensures places { folders_of self.new ≡ folders_of self.old }
        ensures time { Passes memory_meaning (AllOrNone (created path.now)) self.old self.new }
        ensures loss { Loses memory_meaning (creating path.now) self.old self.new }
        ensures last { self.new.last ≡ FolderCall.Create }
        ensures cause { HasCause (faults_of self.old) (faults_of self.new) result }
        ensures found { IsErrOf result FolderFault.NotFound → ¬ IsTrue (is_there (folders_of self.old) (folder_of path.now)) }
        ensures planned { GoesAsPlanned nothing self.old self.new result }
    {
        self.last = FolderCall::Create;
        let fate = next_fate(&mut self.plan);
        self.store.create(path, fate)
    }

    fn write(&mut self, piece: &[u8]) -> Result<(), FolderFault>
        requires { IsWriting self.old.opened }
        ensures mode { self.new.opened ≡ self.old.opened }
        ensures done { OnOk result (files_of self.new ≡ appended (written_path self.old.opened) piece.now (files_of self.old)) }
        ensures places { folders_of self.new ≡ folders_of self.old }
        ensures time { Passes memory_meaning (SomeFront (written_path self.old.opened) piece.now) self.old self.new }
        ensures loss { Loses memory_meaning (writing (written_path self.old.opened) piece.now) self.old self.new }
        ensures last { self.new.last ≡ FolderCall.Write }
        ensures cause { HasCause (faults_of self.old) (faults_of self.new) result }
        ensures found { IsErrOf result FolderFault.NotFound → ⊥ }
        ensures planned { GoesAsPlanned (front_of self.old.opened piece.now) self.old self.new result }
    {
        self.last = FolderCall::Write;
        let fate = next_fate(&mut self.plan);
        self.store.write(piece, fate)
    }

    fn flush(&mut self) -> Result<(), FolderFault>
        requires { IsWriting self.old.opened }
        ensures mode { self.new.opened ≡ self.old.opened }
        ensures places { folders_of self.new ≡ folders_of self.old }
        ensures time { Passes memory_meaning Same self.old self.new }
        ensures loss { Loses memory_meaning looking self.old self.new }
        ensures last { self.new.last ≡ FolderCall.Flush }
        ensures cause { HasCause (faults_of self.old) (faults_of self.new) result }
        ensures found { IsErrOf result FolderFault.NotFound → ⊥ }
        ensures planned { GoesAsPlanned nothing self.old self.new result }
    {
        self.last = FolderCall::Flush;
        let fate = next_fate(&mut self.plan);
        self.store.flush(fate)
    }

    fn sync(&mut self) -> Result<(), FolderFault>
        requires { IsWriting self.old.opened }
        ensures mode { self.new.opened ≡ self.old.opened }
        ensures done { OnOk result (IsSynced memory_meaning (written_path self.old.opened) self.old self.new) }
        ensures places { folders_of self.new ≡ folders_of self.old }
        ensures time { Passes memory_meaning Same self.old self.new }
        ensures loss { Loses memory_meaning looking self.old self.new }
        ensures last { self.new.last ≡ FolderCall.Sync }
        ensures cause { HasCause (faults_of self.old) (faults_of self.new) result }
        ensures found { IsErrOf result FolderFault.NotFound → ⊥ }
        ensures planned { GoesAsPlanned nothing self.old self.new result }
    {
        self.last = FolderCall::Sync;
        let fate = next_fate(&mut self.plan);
        self.store.sync(fate)
    }

    fn rename(&mut self, from: &str, to: &str) -> Result<(), FolderFault>
        ensures closed { self.new.opened ≡ mode.Closed }
        ensures done { OnOk result ((get (files_of self.old) from.now ≢ None)
            × (files_of self.new ≡ renamed from.now to.now (files_of self.old))) }
        ensures places { folders_of self.new ≡ folders_of self.old }
        ensures time { Passes memory_meaning (AllOrNone (renamed from.now to.now)) self.old self.new }
        ensures loss { Loses memory_meaning (renaming from.now to.now) self.old self.new }
        ensures settled { OnOk result ((q : List ℕ) → loose_of self.new q → handed_on from.now to.now (loose_of self.old) q) }
        ensures last { self.new.last ≡ FolderCall.Rename }
        ensures cause { HasCause (faults_of self.old) (faults_of self.new) result }
        ensures found { IsErrOf result FolderFault.NotFound → get (files_of self.old) from.now ≡ None }
        ensures planned { GoesAsPlanned nothing self.old self.new result }
    {
        self.last = FolderCall::Rename;
        let fate = next_fate(&mut self.plan);
        self.store.rename(from, to, fate)
    }

    fn open(&mut self, path: &str) -> Result<u64, FolderFault>
        ensures mode { MatchResult result (λ _. IsReading self.new.opened) (λ _. self.new.opened ≡ mode.Closed) }
        ensures done { IfOk result (λ len. (bytes : List ℕ) × (get (files_of self.old) path.now ≡ Some bytes)
            × (len ≡ length bytes) × (self.new.opened ≡ mode.Reading bytes)) }
        ensures places { folders_of self.new ≡ folders_of self.old }
        ensures time { Passes memory_meaning Same self.old self.new }
        ensures loss { Loses memory_meaning looking self.old self.new }
        ensures last { self.new.last ≡ FolderCall.Open }
        ensures cause { HasCause (faults_of self.old) (faults_of self.new) result }
        ensures found { IsErrOf result FolderFault.NotFound → get (files_of self.old) path.now ≡ None }
        ensures planned { GoesAsPlanned nothing self.old self.new result }
    {
        self.last = FolderCall::Open;
        let fate = next_fate(&mut self.plan);
        self.store.open(path, fate)
    }

    fn read(&mut self, max: usize) -> Result<Vec<u8>, FolderFault>
        requires { IsReading self.old.opened }
        ensures mode { IsReading self.new.opened }
        ensures done { (left : List ℕ) → self.old.opened ≡ mode.Reading left →
            IfOk result (λ piece. (rest : List ℕ) × (self.new.opened ≡ mode.Reading rest) × Reads max left piece.items rest) }
        ensures whole { (left : List ℕ) → self.old.opened ≡ mode.Reading left → IfOk result (λ piece. piece.items ≡ take max left) }
        ensures places { folders_of self.new ≡ folders_of self.old }
        ensures time { Passes memory_meaning Same self.old self.new }
        ensures loss { Loses memory_meaning looking self.old self.new }
        ensures last { self.new.last ≡ FolderCall.Read }
        ensures cause { HasCause (faults_of self.old) (faults_of self.new) result }
        ensures found { IsErrOf result FolderFault.NotFound → ⊥ }
        ensures planned { GoesAsPlanned nothing self.old self.new result }
    {
        self.last = FolderCall::Read;
        let fate = next_fate(&mut self.plan);
        self.store.read(max, fate)
    }

    fn list(&mut self, dir: &str) -> Result<Vec<Listed>, FolderFault>
        ensures closed { self.new.opened ≡ mode.Closed }
        ensures done { IfOk result (λ listed. IsTrue (can_list (folders_of self.old) dir.now)
            × (map name_of listed.items ≡ listing dir.now (files_of self.old))) }
        ensures places { folders_of self.new ≡ folders_of self.old }
        ensures time { Passes memory_meaning Same self.old self.new }
        ensures loss { Loses memory_meaning looking self.old self.new }
        ensures last { self.new.last ≡ FolderCall.List }
        ensures cause { HasCause (faults_of self.old) (faults_of self.new) result }
        ensures found { IsErrOf result FolderFault.NotFound → ¬ IsTrue (can_list (folders_of self.old) dir.now) }
        ensures planned { GoesAsPlanned nothing self.old self.new result }
    {
        self.last = FolderCall::List;
        let fate = next_fate(&mut self.plan);
        self.store.list(dir, fate)
    }

    fn remove(&mut self, path: &str) -> Result<(), FolderFault>
        ensures closed { self.new.opened ≡ mode.Closed }
        ensures done { OnOk result ((get (files_of self.old) path.now ≢ None)
            × (files_of self.new ≡ removed path.now (files_of self.old))) }
        ensures places { folders_of self.new ≡ folders_of self.old }
        ensures time { Passes memory_meaning (AllOrNone (removed path.now)) self.old self.new }
        ensures loss { Loses memory_meaning (removing path.now) self.old self.new }
        ensures settled { OnOk result ((q : List ℕ) → loose_of self.new q → firmed path.now (loose_of self.old) q) }
        ensures last { self.new.last ≡ FolderCall.Remove }
        ensures cause { HasCause (faults_of self.old) (faults_of self.new) result }
        ensures found { IsErrOf result FolderFault.NotFound → get (files_of self.old) path.now ≡ None }
        ensures planned { GoesAsPlanned nothing self.old self.new result }
    {
        self.last = FolderCall::Remove;
        let fate = next_fate(&mut self.plan);
        self.store.remove(path, fate)
    }
}

impl SyncedFolder for MemoryFolder {
    fn sync_dir(&mut self, dir: &str) -> Result<(), FolderFault>
        ensures mode { self.new.opened ≡ self.old.opened }
        ensures done { OnOk result (AreSynced memory_meaning dir.now self.old self.new) }
        ensures places { folders_of self.new ≡ folders_of self.old }
        ensures time { Passes memory_meaning Same self.old self.new }
        ensures loss { Loses memory_meaning looking self.old self.new }
        ensures last { self.new.last ≡ FolderCall.Sync }
        ensures cause { HasCause (faults_of self.old) (faults_of self.new) result }
        ensures found { IsErrOf result FolderFault.NotFound → ¬ IsTrue (is_there (folders_of self.old) dir.now) }
        ensures planned { GoesAsPlanned nothing self.old self.new result }
    {
        self.last = FolderCall::Sync;
        let fate = next_fate(&mut self.plan);
        self.store.sync_dir(dir, fate)
    }

    fn claim_dir(&mut self, dir: &str) -> Result<bool, FolderFault>
        ensures mode { self.new.opened ≡ self.old.opened }
        ensures granted { IfOk result (λ alone. alone ≡ not (has_another self.old.elsewhere dir.now)) }
        ensures places { folders_of self.new ≡ folders_of self.old }
        ensures time { Passes memory_meaning Same self.old self.new }
        ensures loss { Loses memory_meaning looking self.old self.new }
        ensures last { self.new.last ≡ FolderCall.Claim }
        ensures cause { HasCause (faults_of self.old) (faults_of self.new) result }
        ensures found { IsErrOf result FolderFault.NotFound → ¬ IsTrue (is_there (folders_of self.old) dir.now) }
        ensures planned { GoesAsPlanned nothing self.old self.new result }
    {
        self.last = FolderCall::Claim;
        let fate = next_fate(&mut self.plan);
        let alone = !is_claimed(&self.elsewhere, dir);
        self.store.claim_dir(dir, fate, alone)
    }

    // No other saver sees what this one claims.
    fn leave_dir(&mut self)
        ensures { self.new ≡ self.old }
    {}
}
