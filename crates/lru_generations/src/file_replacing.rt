//! A file replaced by another one, at once or not at all.
ghost use Rattle.std.specs.Prelude.{◌≡◌, ◌≢◌, ◌↔◌, ℕ, List, IfErr, OnOk, IsTrue};
ghost use Rattle.lru_folder.specs.Losses.{firmed};
ghost use Rattle.lru_folder.specs.Places.{folder_of, is_there};
ghost use Rattle.lru_generations.specs.Touching.{HasReason, TouchesOnly};
ghost use Rattle.lru_folder.specs.declared.folder_call.FolderCall.{FolderCall};
ghost use Rattle.lru_generations.specs.Replacing.{IsReplaced, Replaces};

use crate::file_errors::CallFault;
use crate::file_writing::write_file;
use lru_folder::folder::Folder;
use lru_folder::folder_call::FolderCall;

/// Replaces the file, or makes it: writes a temporary file and syncs it, and then gives it the path.
///
/// A stop or a loss of power at any moment leaves the file as it was, or with these bytes. Where it leaves these
/// bytes, it also leaves every other file that was synced before: so what the file names can be written before it.
/// Where a call fails, the temporary path holds anything or nothing, and the file is as it was or has these bytes.
pub fn replace_file<F: Folder>(
    folder: &mut F,
    temp: &str,
    path: &str,
    bytes: &[u8],
) -> Result<(), CallFault>
    requires { temp.now ≢ path.now }

    ensures done { F.meaning.keeps folder.old → OnOk result (IsReplaced temp.now path.now bytes.now
        (F.meaning.files folder.old) (F.meaning.loose folder.old) (F.meaning.files folder.old) (F.meaning.files folder.new)) }
    ensures replaces { F.meaning.keeps folder.old → Replaces F.meaning temp.now path.now bytes.now folder.old folder.new }

    // A file that was replaced is not loose.
    ensures firm { F.meaning.keeps folder.old → OnOk result ((q : List ℕ) → F.meaning.loose folder.new q → firmed temp.now (firmed path.now (F.meaning.loose folder.old)) q) }

    // Where another call failed than the renaming, no path but the temporary one has changed at any moment.
    ensures unnamed { F.meaning.keeps folder.old → IfErr result (λ fault. fault.call ≢ FolderCall.Rename → TouchesOnly F.meaning (λ q. q ≡ temp.now) folder.old folder.new) }

    // An error names the call that failed, and it has its reason.
    ensures named { F.meaning.keeps folder.old → IfErr result (λ fault. F.meaning.last_call folder.new ≡ fault.call) }
    ensures reason { F.meaning.keeps folder.old → IfErr result (λ fault. HasReason
        (¬ IsTrue (is_there (F.meaning.folders folder.old) (folder_of temp.now))) (F.meaning.faults folder.old) (F.meaning.faults folder.new) fault.source) }

    ensures faults { F.meaning.keeps folder.old → OnOk result (F.meaning.faults folder.new ≡ F.meaning.faults folder.old) }
    ensures places { F.meaning.keeps folder.old → F.meaning.folders folder.new ≡ F.meaning.folders folder.old }
    ensures kept { F.meaning.keeps folder.old ↔ F.meaning.keeps folder.new }
{
    if let Err(fault) = write_file(folder, temp, bytes) {
        return Err(fault);
    }
    if let Err(source) = folder.rename(temp, path) {
        return Err(CallFault {
            call: FolderCall::Rename,
            source,
        });
    }
    Ok(())
}
