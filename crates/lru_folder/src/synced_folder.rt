//! The sync of a folder's names, and a folder that one saver has for itself.
ghost use Rattle.std.specs.Prelude.{◌≡◌, ◌↔◌, IsErrOf, IsTrue, OnOk};
ghost use Rattle.lru_folder.specs.Files.{Same};
ghost use Rattle.lru_folder.specs.Folder.{HasCause, Passes};
ghost use Rattle.lru_folder.specs.Losses.{Loses, looking};
ghost use Rattle.lru_folder.specs.Places.{is_there};
ghost use Rattle.lru_folder.specs.declared.folder_call.FolderCall.{FolderCall};
ghost use Rattle.lru_folder.specs.declared.fault.FolderFault.{FolderFault};
ghost use Rattle.lru_folder.specs.SyncedNames.{AreSynced};

use crate::fault::FolderFault;
use crate::folder::Folder;
use crate::folder_call::FolderCall;

/// A folder that syncs names, those of one of its folders at a time, as the system does, and that one saver can claim for
/// itself.
pub trait SyncedFolder: Folder {
    /// Makes the names in the folder, as they were given and taken away, safe from a loss of power. The bytes of a file
    /// are made safe by `sync` alone. The open file stays open. Its call is called `Sync`. A fault changes nothing.
    /// `NotFound`: the folder is not there.
    fn sync_dir(&mut self, dir: &str) -> Result<(), FolderFault>
        ensures mode { Self.opened self.new ≡ Self.opened self.old }
        ensures done { Self.meaning.keeps self.old → OnOk result (AreSynced Self.meaning dir.now self.old self.new) }
        ensures places { Self.meaning.keeps self.old → Self.meaning.folders self.new ≡ Self.meaning.folders self.old }
        ensures time { Self.meaning.keeps self.old → Passes Self.meaning Same self.old self.new }
        ensures loss { Self.meaning.keeps self.old → Loses Self.meaning looking self.old self.new }
        ensures last { Self.meaning.keeps self.old → Self.meaning.last_call self.new ≡ FolderCall.Sync }
        ensures cause { Self.meaning.keeps self.old → HasCause (Self.meaning.faults self.old) (Self.meaning.faults self.new) result }
        ensures found { Self.meaning.keeps self.old → IsErrOf result FolderFault.NotFound → ¬ IsTrue (is_there (Self.meaning.folders self.old) dir.now) }
        ensures kept { Self.meaning.keeps self.old ↔ Self.meaning.keeps self.new };

    /// Has the folder for this saver alone, until `leave_dir` or until this value is gone: true. False: another saver has
    /// it. Who does not claim is kept from nothing. What this value had claimed it lets go of first, however the claim
    /// ends, so it has at most one folder. No file is made or changed, and the open file stays open.
    /// `NotFound`: the folder is not there.
    fn claim_dir(&mut self, dir: &str) -> Result<bool, FolderFault>
        ensures mode { Self.opened self.new ≡ Self.opened self.old }
        ensures places { Self.meaning.keeps self.old → Self.meaning.folders self.new ≡ Self.meaning.folders self.old }
        ensures time { Self.meaning.keeps self.old → Passes Self.meaning Same self.old self.new }
        ensures loss { Self.meaning.keeps self.old → Loses Self.meaning looking self.old self.new }
        ensures last { Self.meaning.keeps self.old → Self.meaning.last_call self.new ≡ FolderCall.Claim }
        ensures cause { Self.meaning.keeps self.old → HasCause (Self.meaning.faults self.old) (Self.meaning.faults self.new) result }
        ensures found { Self.meaning.keeps self.old → IsErrOf result FolderFault.NotFound → ¬ IsTrue (is_there (Self.meaning.folders self.old) dir.now) }
        ensures kept { Self.meaning.keeps self.old ↔ Self.meaning.keeps self.new };

    /// Lets go of the folder that was claimed, if one was. It cannot fail, changes nothing else, and does not count as a
    /// call. The open file stays open.
    fn leave_dir(&mut self)
        ensures mode { Self.opened self.new ≡ Self.opened self.old }
        ensures places { Self.meaning.keeps self.old → Self.meaning.folders self.new ≡ Self.meaning.folders self.old }
        ensures time { Self.meaning.keeps self.old → Passes Self.meaning Same self.old self.new }
        ensures loss { Self.meaning.keeps self.old → Loses Self.meaning looking self.old self.new }
        ensures last { Self.meaning.keeps self.old → Self.meaning.last_call self.new ≡ Self.meaning.last_call self.old }
        ensures faults { Self.meaning.keeps self.old → Self.meaning.faults self.new ≡ Self.meaning.faults self.old }
        ensures kept { Self.meaning.keeps self.old ↔ Self.meaning.keeps self.new };
}
