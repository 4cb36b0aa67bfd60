//! The names of a checkpoint's files synced, and their folder claimed.
ghost use Rattle.std.specs.Prelude.{◌≡◌, ◌↔◌, ℕ, List, IfErr, OnOk};
ghost use Rattle.lru_folder.specs.Files.{Same};
ghost use Rattle.lru_folder.specs.Folder.{Passes};
ghost use Rattle.lru_folder.specs.Losses.{Loses, looking};
ghost use Rattle.lru_folder.specs.SyncedNames.{AreSynced};
ghost use Rattle.lru_generations.specs.Causes.{HasSaveReason};
ghost use Rattle.lru_generations.specs.Saving.{HasReasonOrIsInUse};

use crate::errors::{CheckpointError, CheckpointFile};
use crate::file_errors::CallFault;
use lru_folder::folder_call::FolderCall;
use lru_folder::synced_folder::SyncedFolder;

// Syncs the names in the folder.
pub(crate) fn sync_names<F: SyncedFolder>(folder: &mut F, dir: &str) -> Result<(), CheckpointError>
    ensures synced { F.meaning.keeps folder.old → OnOk result (AreSynced F.meaning dir.now folder.old folder.new) }
    ensures time { F.meaning.keeps folder.old → Passes F.meaning Same folder.old folder.new }
    ensures loss { F.meaning.keeps folder.old → Loses F.meaning looking folder.old folder.new }
    ensures reason { F.meaning.keeps folder.old → (file_name : List ℕ) (generation : ℕ) → IfErr result (HasSaveReason F.meaning dir.now file_name generation folder.old folder.new) }
    ensures faults { F.meaning.keeps folder.old → OnOk result (F.meaning.faults folder.new ≡ F.meaning.faults folder.old) }
    ensures places { F.meaning.keeps folder.old → F.meaning.folders folder.new ≡ F.meaning.folders folder.old }
    ensures kept { F.meaning.keeps folder.old ↔ F.meaning.keeps folder.new }
{
    match folder.sync_dir(dir) {
        Ok(()) => Ok(()),
        Err(source) => {
            let call = FolderCall::Sync;
            let fault = CallFault { call, source };
            let file = CheckpointFile::Names;
            Err(CheckpointError::Folder { file, fault })
        }
    }
}

// Claims the folder. `InUse`: another save has it.
pub(crate) fn claim<F: SyncedFolder>(folder: &mut F, dir: &str) -> Result<(), CheckpointError>
    ensures time { F.meaning.keeps folder.old → Passes F.meaning Same folder.old folder.new }
    ensures loss { F.meaning.keeps folder.old → Loses F.meaning looking folder.old folder.new }
    ensures reason { F.meaning.keeps folder.old → (file_name : List ℕ) (generation : ℕ) → IfErr result (HasReasonOrIsInUse F.meaning dir.now file_name generation folder.old folder.new) }
    ensures places { F.meaning.keeps folder.old → F.meaning.folders folder.new ≡ F.meaning.folders folder.old }
    ensures kept { F.meaning.keeps folder.old ↔ F.meaning.keeps folder.new }
{
    match folder.claim_dir(dir) {
        Ok(true) => Ok(()),
        Ok(false) => Err(CheckpointError::InUse),
        Err(source) => {
            let call = FolderCall::Claim;
            let fault = CallFault { call, source };
            let file = CheckpointFile::Names;
            Err(CheckpointError::Folder { file, fault })
        }
    }
}
