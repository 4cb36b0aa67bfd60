//! A file written whole.
ghost use Rattle.std.specs.Prelude.{◌≡◌, ◌↔◌, ◌<◌, ◌≤◌, IfErr, OnOk, IsTrue};
ghost use Rattle.lru_folder.specs.Places.{folder_of, is_there};
ghost use Rattle.lru_generations.specs.Touching.{HasReason, IsWritten, TouchesOnly};

use crate::file_errors::CallFault;
use lru_folder::folder::Folder;
use lru_folder::folder_call::FolderCall;

/// Writes the file: what it held is gone, it has these bytes, and they and each name that was given before are
/// safe from a loss of power. Where a call fails, the path holds anything or nothing.
pub fn write_file<F: Folder>(folder: &mut F, path: &str, bytes: &[u8]) -> Result<(), CallFault>
    ensures written { F.meaning.keeps folder.old → OnOk result (IsWritten F.meaning path.now bytes.now folder.old folder.new) }

    // At every moment no other path changes.
    ensures touches { F.meaning.keeps folder.old → TouchesOnly F.meaning (λ q. q ≡ path.now) folder.old folder.new }

    // An error names the call that failed, and it has its reason.
    ensures named { F.meaning.keeps folder.old → IfErr result (λ fault. F.meaning.last_call folder.new ≡ fault.call) }
    ensures reason { F.meaning.keeps folder.old → IfErr result (λ fault. HasReason
        (¬ IsTrue (is_there (F.meaning.folders folder.old) (folder_of path.now))) (F.meaning.faults folder.old) (F.meaning.faults folder.new) fault.source) }

    ensures faults { F.meaning.keeps folder.old → OnOk result (F.meaning.faults folder.new ≡ F.meaning.faults folder.old) }
    ensures places { F.meaning.keeps folder.old → F.meaning.folders folder.new ≡ F.meaning.folders folder.old }
    ensures kept { F.meaning.keeps folder.old ↔ F.meaning.keeps folder.new }
{
    if let Err(source) = folder.create(path) {
        return Err(CallFault {
            call: FolderCall::Create,
            source,
        });
    }
    if let Err(source) = folder.write(bytes) {
        return Err(CallFault {
            call: FolderCall::Write,
            source,
        });
    }
    if let Err(source) = folder.flush() {
        return Err(CallFault {
            call: FolderCall::Flush,
            source,
        });
    }
    if let Err(source) = folder.sync() {
        return Err(CallFault {
            call: FolderCall::Sync,
            source,
        });
    }
    Ok(())
}
