//! The files of a checkpoint that a folder lists.
ghost use Rattle.std.specs.Prelude.{◌≡◌, ◌↔◌, false, IfErr, IfOk, OnOk};
ghost use Rattle.lru_folder.specs.Names.{has_slash};
ghost use Rattle.lru_generations.specs.Listing.{HasParts};
ghost use Rattle.lru_generations.specs.Touching.{TouchesNothing};
ghost use Rattle.lru_generations.specs.Loads.{IsFault};
ghost use Rattle.lru_generations.specs.Faults.{IsUnlisted};

use crate::errors::{CheckpointError, CheckpointFile};
use crate::file_errors::ReadError;
use crate::listing::list_parts;
use crate::names::PartName;
use lru_folder::folder::Folder;
use std::alloc::Global;

// The parts that have a file in the folder. At every moment all files are as they were.
pub(crate) fn parts_of<F: Folder>(
    alloc: Global,
    folder: &mut F,
    dir: &str,
    file_name: &str,
) -> Result<Vec<PartName>, CheckpointError>
    requires { has_slash file_name.now ≡ false }
    ensures parts { F.meaning.keeps folder.old → IfOk result (λ parts. HasParts dir.now file_name.now (F.meaning.files folder.old) parts.items) }
    ensures error { IfErr result IsFault }
    ensures reason { F.meaning.keeps folder.old → IfErr result (IsUnlisted F.meaning dir.now folder.old folder.new) }
    ensures touches { F.meaning.keeps folder.old → TouchesNothing F.meaning folder.old folder.new }
    ensures files { F.meaning.keeps folder.old → F.meaning.files folder.new ≡ F.meaning.files folder.old }
    ensures faults { F.meaning.keeps folder.old → OnOk result (F.meaning.faults folder.new ≡ F.meaning.faults folder.old) }
    ensures places { F.meaning.keeps folder.old → F.meaning.folders folder.new ≡ F.meaning.folders folder.old }
    ensures kept { F.meaning.keeps folder.old ↔ F.meaning.keeps folder.new }
{
    match list_parts(alloc, folder, dir, file_name) {
        Ok(parts) => Ok(parts),
        Err(ReadError::Memory) => Err(CheckpointError::Memory),
        Err(ReadError::Folder(fault)) => {
            let file = CheckpointFile::Names;
            Err(CheckpointError::Folder { file, fault })
        }
    }
}
