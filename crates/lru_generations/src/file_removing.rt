//! A file removed, where it is there.
ghost use Rattle.std.specs.Prelude.{◌≡◌, ◌↔◌, ℕ, List, is_some, IfErr, IfOk, OnOk};
ghost use Rattle.std.specs.FinMap.{get};
ghost use Rattle.lru_folder.specs.Files.{removed};
ghost use Rattle.lru_generations.specs.Touching.{HasReason, TouchesOnly};

use crate::file_errors::CallFault;
use lru_folder::fault::FolderFault;
use lru_folder::folder::Folder;
use lru_folder::folder_call::FolderCall;

/// Removes the file, and tells whether it was there. A stop or a loss of power at any moment leaves the file as it was or
/// gone, and each other path as it was. Where the call fails the file is as it was or gone, for which the device or memory is
/// the reason.
pub fn remove_file<F: Folder>(folder: &mut F, path: &str) -> Result<bool, CallFault>
    ensures there { F.meaning.keeps folder.old → IfOk result (λ there. there ≡ is_some (get (F.meaning.files folder.old) path.now)) }
    ensures done { F.meaning.keeps folder.old → OnOk result (F.meaning.files folder.new ≡ removed path.now (F.meaning.files folder.old)) }
    ensures touches { F.meaning.keeps folder.old → TouchesOnly F.meaning (λ q. q ≡ path.now) folder.old folder.new }

    // No path becomes loose.
    ensures firm { F.meaning.keeps folder.old → (q : List ℕ) → F.meaning.loose folder.new q → F.meaning.loose folder.old q }

    // An error names the call that failed, and it has its reason.
    ensures named { F.meaning.keeps folder.old → IfErr result (λ fault. F.meaning.last_call folder.new ≡ fault.call) }
    ensures reason { F.meaning.keeps folder.old → IfErr result (λ fault. HasReason ⊥ (F.meaning.faults folder.old) (F.meaning.faults folder.new) fault.source) }

    ensures faults { F.meaning.keeps folder.old → OnOk result (F.meaning.faults folder.new ≡ F.meaning.faults folder.old) }
    ensures places { F.meaning.keeps folder.old → F.meaning.folders folder.new ≡ F.meaning.folders folder.old }
    ensures kept { F.meaning.keeps folder.old ↔ F.meaning.keeps folder.new }
{
    match folder.remove(path) {
        Ok(()) => Ok(true),
        Err(FolderFault::NotFound) => Ok(false),
        Err(source) => {
            let call = FolderCall::Remove;
            Err(CallFault { call, source })
        }
    }
}
