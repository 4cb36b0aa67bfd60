//! Files of a checkpoint removed.
ghost use Rattle.std.specs.Prelude.{◌≡◌, ◌↔◌, ℕ, List, None, Contains, IfErr, IfOk, OnOk, string_bytes};
ghost use Rattle.std.specs.FinMap.{get};
ghost use Rattle.lru_generations.specs.declared.names.PartName.{PartName};
ghost use Rattle.lru_generations.specs.Names.{part_path};
ghost use Rattle.lru_generations.specs.Touching.{TouchesOnly};
ghost use Rattle.lru_generations.specs.Loads.{IsFault};
ghost use Rattle.lru_generations.specs.Faults.{IsFailed};
ghost use Rattle.lru_generations.specs.Removing.{IsPathOf, NamesOnly, file_of};

use crate::errors::{CheckpointError, CheckpointFile};
use crate::file_removing::remove_file;
use crate::names::{PartName, frame_path, manifest_path, manifest_temp_path};
use lru_folder::folder::Folder;
use std::alloc::{AllocError, Global};

// The path of a part's file.
fn part_path(
    alloc: Global,
    dir: &str,
    file_name: &str,
    part: PartName,
) -> Result<String, AllocError>
    ensures { IfOk result (λ path. string_bytes path ≡ part_path dir.now file_name.now part) }
{
    match part {
        PartName::Frame { generation, shard } => {
            frame_path(alloc, dir, file_name, generation, shard)
        }
        PartName::Manifest { generation } => manifest_path(alloc, dir, file_name, generation),
        PartName::Temp { generation } => manifest_temp_path(alloc, dir, file_name, generation),
    }
}

// The file that an error tells of.
fn file_of(part: PartName) -> CheckpointFile
    ensures { result ≡ file_of part }
{
    match part {
        PartName::Frame { shard, .. } => CheckpointFile::Shard(shard),
        PartName::Manifest { .. } => CheckpointFile::Manifest,
        PartName::Temp { .. } => CheckpointFile::Manifest,
    }
}

// Removes the file of a part, where it is there.
pub(crate) fn remove_part<F: Folder>(
    alloc: Global,
    folder: &mut F,
    dir: &str,
    file_name: &str,
    part: PartName,
) -> Result<(), CheckpointError>
    ensures gone { F.meaning.keeps folder.old → OnOk result (get (F.meaning.files folder.new) (part_path dir.now file_name.now part) ≡ None) }
    ensures touches { F.meaning.keeps folder.old → TouchesOnly F.meaning (λ q. q ≡ part_path dir.now file_name.now part) folder.old folder.new }
    ensures firm { F.meaning.keeps folder.old → (q : List ℕ) → F.meaning.loose folder.new q → F.meaning.loose folder.old q }
    ensures error { IfErr result IsFault }
    ensures named { (parts : List PartName) → Contains parts part → IfErr result (NamesOnly parts) }
    ensures reason { F.meaning.keeps folder.old → IfErr result (IsFailed F.meaning folder.old folder.new) }
    ensures faults { F.meaning.keeps folder.old → OnOk result (F.meaning.faults folder.new ≡ F.meaning.faults folder.old) }
    ensures places { F.meaning.keeps folder.old → F.meaning.folders folder.new ≡ F.meaning.folders folder.old }
    ensures kept { F.meaning.keeps folder.old ↔ F.meaning.keeps folder.new }
{
    let Ok(path) = part_path(alloc, dir, file_name, part) else {
        return Err(CheckpointError::Memory);
    };
    match remove_file(folder, &path) {
        Ok(_) => Ok(()),
        Err(fault) => {
            let file = file_of(part);
            Err(CheckpointError::Folder { file, fault })
        }
    }
}

// Removes the file of each of these parts, where it is there, one after the other. At every moment no other path changes.
//
// `Memory`: no memory was found for a path. `Folder`: the file that is named was not removed, for which the device or memory is
// the reason; those of the parts before it are gone. The other errors are never told.
pub(crate) fn remove_parts<F: Folder>(
    alloc: Global,
    folder: &mut F,
    dir: &str,
    file_name: &str,
    parts: &[PartName],
) -> Result<(), CheckpointError>
    ensures gone { F.meaning.keeps folder.old → OnOk result ((part : PartName) → Contains parts.now part
        → get (F.meaning.files folder.new) (part_path dir.now file_name.now part) ≡ None) }
    ensures touches { F.meaning.keeps folder.old → TouchesOnly F.meaning (IsPathOf dir.now file_name.now parts.now) folder.old folder.new }

    // No path becomes loose.
    ensures firm { F.meaning.keeps folder.old → (q : List ℕ) → F.meaning.loose folder.new q → F.meaning.loose folder.old q }

    // An error names the file that was not removed, and it has its reason.
    ensures error { IfErr result IsFault }
    ensures named { IfErr result (NamesOnly parts.now) }
    ensures reason { F.meaning.keeps folder.old → IfErr result (IsFailed F.meaning folder.old folder.new) }

    ensures faults { F.meaning.keeps folder.old → OnOk result (F.meaning.faults folder.new ≡ F.meaning.faults folder.old) }
    ensures places { F.meaning.keeps folder.old → F.meaning.folders folder.new ≡ F.meaning.folders folder.old }
    ensures kept { F.meaning.keeps folder.old ↔ F.meaning.keeps folder.new }
{
    for part in parts {
        remove_part(alloc, folder, dir, file_name, *part)?;
    }
    Ok(())
}
