//! A folder, with what a stop or a loss of power at any moment may leave.
ghost use Rattle.std.specs.Prelude.{◌≡◌, ◌≢◌, ◌↔◌, ℕ, List, None, Some, IfOk, IsTrue, OnOk, IsErrOf, MatchResult, length, map};
ghost use Rattle.std.specs.FinMap.{get};
ghost use Rattle.lru_folder.specs.Files.{created, appended, renamed, removed, AllOrNone, SomeFront, Same};
ghost use Rattle.lru_folder.specs.Losses.{IsSynced, Loses, creating, writing, renaming, removing, looking, firmed, handed_on};
ghost use Rattle.lru_folder.specs.declared.folder_call.FolderCall.{FolderCall};
ghost use Rattle.lru_folder.specs.Places.{folder_of, is_there, can_list, listing, MakesAll, MakesSome};
ghost use Rattle.lru_folder.specs.Listings.{name_of};
ghost use Rattle.lru_folder.specs.Meaning.{Meaning};
ghost use Rattle.lru_folder.specs.Folder.{Opened, Closed, Writing, Reading, IsWriting, IsReading, written_path, Reads, Passes, HasCause};

use crate::fault::FolderFault;
use crate::folder_call::FolderCall;
use crate::listed::Listed;

/// A place for files, of which at most one is open.
///
/// A path is a text, and so is a folder. A folder may stand with a slash at its end or without one; the empty folder
/// and `/` are always there. `Io` is answered only where the folder failed, and `Memory` only where memory was refused.
pub trait Folder {
    /// What the folder holds, at every moment, with the laws of that, and whether it keeps this meaning: no call gains or
    /// loses that.
    ghost meaning: { Meaning Self };

    /// The open file.
    ghost opened: { Self → Opened };

    /// Makes the folder and its parents, the texts before each slash. A fault may leave some of them. Closes the open file.
    fn make(&mut self, dir: &str) -> Result<(), FolderFault>
        ensures closed { opened self.new ≡ Closed }
        ensures done { meaning.keeps self.old → OnOk result (MakesAll dir.now (meaning.folders self.old) (meaning.folders self.new)) }
        ensures part { meaning.keeps self.old → MakesSome dir.now (meaning.folders self.old) (meaning.folders self.new) }
        ensures time { meaning.keeps self.old → Passes meaning Same self.old self.new }
        ensures loss { meaning.keeps self.old → Loses meaning looking self.old self.new }
        ensures last { meaning.keeps self.old → meaning.last_call self.new ≡ FolderCall.Make }
        ensures cause { meaning.keeps self.old → HasCause (meaning.faults self.old) (meaning.faults self.new) result }
        ensures found { meaning.keeps self.old → IsErrOf result FolderFault.NotFound → ⊥ }
        ensures kept { meaning.keeps self.old ↔ meaning.keeps self.new };

    /// Makes the path hold no bytes, and opens it for writing. A fault leaves the old file or the empty one, and nothing open.
    /// `NotFound`: the folder of the path is not there.
    fn create(&mut self, path: &str) -> Result<(), FolderFault>
        ensures mode { MatchResult result (λ _. IsWriting (opened self.new)) (λ _. opened self.new ≡ Closed) }
        ensures done { meaning.keeps self.old → OnOk result (IsTrue (is_there (meaning.folders self.old) (folder_of path.now))
            × (meaning.files self.new ≡ created path.now (meaning.files self.old)) × (opened self.new ≡ Writing path.now)) }
        ensures places { meaning.keeps self.old → meaning.folders self.new ≡ meaning.folders self.old }
        ensures time { meaning.keeps self.old → Passes meaning (AllOrNone (created path.now)) self.old self.new }
        ensures loss { meaning.keeps self.old → Loses meaning (creating path.now) self.old self.new }
        ensures last { meaning.keeps self.old → meaning.last_call self.new ≡ FolderCall.Create }
        ensures cause { meaning.keeps self.old → HasCause (meaning.faults self.old) (meaning.faults self.new) result }
        ensures found { meaning.keeps self.old → IsErrOf result FolderFault.NotFound → ¬ IsTrue (is_there (meaning.folders self.old) (folder_of path.now)) }
        ensures kept { meaning.keeps self.old ↔ meaning.keeps self.new };

    /// Puts the piece at the end of the open file, which stays open. A fault may leave any front of the piece there.
    fn write(&mut self, piece: &[u8]) -> Result<(), FolderFault>
        requires { IsWriting (opened self.old) }
        ensures mode { opened self.new ≡ opened self.old }
        ensures done { meaning.keeps self.old → OnOk result (meaning.files self.new ≡ appended (written_path (opened self.old)) piece.now (meaning.files self.old)) }
        ensures places { meaning.keeps self.old → meaning.folders self.new ≡ meaning.folders self.old }
        ensures time { meaning.keeps self.old → Passes meaning (SomeFront (written_path (opened self.old)) piece.now) self.old self.new }
        ensures loss { meaning.keeps self.old → Loses meaning (writing (written_path (opened self.old)) piece.now) self.old self.new }
        ensures last { meaning.keeps self.old → meaning.last_call self.new ≡ FolderCall.Write }
        ensures cause { meaning.keeps self.old → HasCause (meaning.faults self.old) (meaning.faults self.new) result }
        ensures found { meaning.keeps self.old → IsErrOf result FolderFault.NotFound → ⊥ }
        ensures kept { meaning.keeps self.old ↔ meaning.keeps self.new };

    /// Passes on what was written to the open file, which stays open.
    fn flush(&mut self) -> Result<(), FolderFault>
        requires { IsWriting (opened self.old) }
        ensures mode { opened self.new ≡ opened self.old }
        ensures places { meaning.keeps self.old → meaning.folders self.new ≡ meaning.folders self.old }
        ensures time { meaning.keeps self.old → Passes meaning Same self.old self.new }
        ensures loss { meaning.keeps self.old → Loses meaning looking self.old self.new }
        ensures last { meaning.keeps self.old → meaning.last_call self.new ≡ FolderCall.Flush }
        ensures cause { meaning.keeps self.old → HasCause (meaning.faults self.old) (meaning.faults self.new) result }
        ensures found { meaning.keeps self.old → IsErrOf result FolderFault.NotFound → ⊥ }
        ensures kept { meaning.keeps self.old ↔ meaning.keeps self.new };

    /// Makes what was written to the open file, and each name given before, safe from a loss of power. The file stays open.
    fn sync(&mut self) -> Result<(), FolderFault>
        requires { IsWriting (opened self.old) }
        ensures mode { opened self.new ≡ opened self.old }
        ensures done { meaning.keeps self.old → OnOk result (IsSynced meaning (written_path (opened self.old)) self.old self.new) }
        ensures places { meaning.keeps self.old → meaning.folders self.new ≡ meaning.folders self.old }
        ensures time { meaning.keeps self.old → Passes meaning Same self.old self.new }
        ensures loss { meaning.keeps self.old → Loses meaning looking self.old self.new }
        ensures last { meaning.keeps self.old → meaning.last_call self.new ≡ FolderCall.Sync }
        ensures cause { meaning.keeps self.old → HasCause (meaning.faults self.old) (meaning.faults self.new) result }
        ensures found { meaning.keeps self.old → IsErrOf result FolderFault.NotFound → ⊥ }
        ensures kept { meaning.keeps self.old ↔ meaning.keeps self.new };

    /// Gives the file of `from` the path `to`. A fault leaves all of that or none. Closes the open file.
    /// `NotFound`: `from` is not there.
    fn rename(&mut self, from: &str, to: &str) -> Result<(), FolderFault>
        ensures closed { opened self.new ≡ Closed }
        ensures done { meaning.keeps self.old → OnOk result ((get (meaning.files self.old) from.now ≢ None)
            × (meaning.files self.new ≡ renamed from.now to.now (meaning.files self.old))) }
        ensures places { meaning.keeps self.old → meaning.folders self.new ≡ meaning.folders self.old }
        ensures time { meaning.keeps self.old → Passes meaning (AllOrNone (renamed from.now to.now)) self.old self.new }
        ensures loss { meaning.keeps self.old → Loses meaning (renaming from.now to.now) self.old self.new }
        ensures settled { meaning.keeps self.old → OnOk result ((q : List ℕ) → meaning.loose self.new q → handed_on from.now to.now (meaning.loose self.old) q) }
        ensures last { meaning.keeps self.old → meaning.last_call self.new ≡ FolderCall.Rename }
        ensures cause { meaning.keeps self.old → HasCause (meaning.faults self.old) (meaning.faults self.new) result }
        ensures found { meaning.keeps self.old → IsErrOf result FolderFault.NotFound → get (meaning.files self.old) from.now ≡ None }
        ensures kept { meaning.keeps self.old ↔ meaning.keeps self.new };

    /// Opens the path for reading from its start, and answers its length in bytes. A fault leaves nothing open.
    /// `NotFound`: the path is not there.
    fn open(&mut self, path: &str) -> Result<u64, FolderFault>
        ensures mode { MatchResult result (λ _. IsReading (opened self.new)) (λ _. opened self.new ≡ Closed) }
        ensures done { meaning.keeps self.old → IfOk result (λ len. (bytes : List ℕ) × (get (meaning.files self.old) path.now ≡ Some bytes)
            × (len ≡ length bytes) × (opened self.new ≡ Reading bytes)) }
        ensures places { meaning.keeps self.old → meaning.folders self.new ≡ meaning.folders self.old }
        ensures time { meaning.keeps self.old → Passes meaning Same self.old self.new }
        ensures loss { meaning.keeps self.old → Loses meaning looking self.old self.new }
        ensures last { meaning.keeps self.old → meaning.last_call self.new ≡ FolderCall.Open }
        ensures cause { meaning.keeps self.old → HasCause (meaning.faults self.old) (meaning.faults self.new) result }
        ensures found { meaning.keeps self.old → IsErrOf result FolderFault.NotFound → get (meaning.files self.old) path.now ≡ None }
        ensures kept { meaning.keeps self.old ↔ meaning.keeps self.new };

    /// The next bytes of the open file, at most `max`; for `max` above 0 none only at its end. The file stays open;
    /// after a fault the place in it is not known.
    fn read(&mut self, max: usize) -> Result<Vec<u8>, FolderFault>
        requires { IsReading (opened self.old) }
        ensures mode { IsReading (opened self.new) }
        ensures done { meaning.keeps self.old → (left : List ℕ) → opened self.old ≡ Reading left →
            IfOk result (λ piece. (rest : List ℕ) × (opened self.new ≡ Reading rest) × Reads max left piece.items rest) }
        ensures places { meaning.keeps self.old → meaning.folders self.new ≡ meaning.folders self.old }
        ensures time { meaning.keeps self.old → Passes meaning Same self.old self.new }
        ensures loss { meaning.keeps self.old → Loses meaning looking self.old self.new }
        ensures last { meaning.keeps self.old → meaning.last_call self.new ≡ FolderCall.Read }
        ensures cause { meaning.keeps self.old → HasCause (meaning.faults self.old) (meaning.faults self.new) result }
        ensures found { meaning.keeps self.old → IsErrOf result FolderFault.NotFound → ⊥ }
        ensures kept { meaning.keeps self.old ↔ meaning.keeps self.new };

    /// The names of the files in the folder, in byte order, and then `Unreadable` for each name that is no UTF-8.
    /// Closes the open file.
    /// `NotFound`: the folder is not there, or its text is empty.
    fn list(&mut self, dir: &str) -> Result<Vec<Listed>, FolderFault>
        ensures closed { opened self.new ≡ Closed }
        ensures done { meaning.keeps self.old → IfOk result (λ listed. IsTrue (can_list (meaning.folders self.old) dir.now)
            × (map name_of listed.items ≡ listing dir.now (meaning.files self.old))) }
        ensures places { meaning.keeps self.old → meaning.folders self.new ≡ meaning.folders self.old }
        ensures time { meaning.keeps self.old → Passes meaning Same self.old self.new }
        ensures loss { meaning.keeps self.old → Loses meaning looking self.old self.new }
        ensures last { meaning.keeps self.old → meaning.last_call self.new ≡ FolderCall.List }
        ensures cause { meaning.keeps self.old → HasCause (meaning.faults self.old) (meaning.faults self.new) result }
        ensures found { meaning.keeps self.old → IsErrOf result FolderFault.NotFound → ¬ IsTrue (can_list (meaning.folders self.old) dir.now) }
        ensures kept { meaning.keeps self.old ↔ meaning.keeps self.new };

    /// Takes the path away. A fault leaves all of that or none. Closes the open file.
    /// `NotFound`: the path is not there.
    fn remove(&mut self, path: &str) -> Result<(), FolderFault>
        ensures closed { opened self.new ≡ Closed }
        ensures done { meaning.keeps self.old → OnOk result ((get (meaning.files self.old) path.now ≢ None)
            × (meaning.files self.new ≡ removed path.now (meaning.files self.old))) }
        ensures places { meaning.keeps self.old → meaning.folders self.new ≡ meaning.folders self.old }
        ensures time { meaning.keeps self.old → Passes meaning (AllOrNone (removed path.now)) self.old self.new }
        ensures loss { meaning.keeps self.old → Loses meaning (removing path.now) self.old self.new }
        ensures settled { meaning.keeps self.old → OnOk result ((q : List ℕ) → meaning.loose self.new q → firmed path.now (meaning.loose self.old) q) }
        ensures last { meaning.keeps self.old → meaning.last_call self.new ≡ FolderCall.Remove }
        ensures cause { meaning.keeps self.old → HasCause (meaning.faults self.old) (meaning.faults self.new) result }
        ensures found { meaning.keeps self.old → IsErrOf result FolderFault.NotFound → get (meaning.files self.old) path.now ≡ None }
        ensures kept { meaning.keeps self.old ↔ meaning.keeps self.new };
}
