//! The parts of a checkpoint saved.
ghost use Rattle.std.specs.Prelude.{◌≡◌, ◌↔◌, ◌<◌, ◌≤◌, ◌^◌, ℕ, suc, List, length, IfErr, IfOk, OnOk};
ghost use Rattle.lru_folder.specs.Losses.{firmed};
ghost use Rattle.lru_frames.specs.declared.row.Row.{Row};
ghost use Rattle.lru_frames.specs.Frame.{frame_of, Fits};
ghost use Rattle.lru_frames.specs.Marks.{mark_of};
ghost use Rattle.lru_generations.specs.Manifests.{IsManifest, part_header, manifest_bytes};
ghost use Rattle.lru_generations.specs.Names.{frame_path, manifest_path, manifest_temp_path};
ghost use Rattle.lru_generations.specs.Touching.{IsWritten, TouchesOnly};
ghost use Rattle.lru_generations.specs.Replacing.{IsReplaced, Replaces};
ghost use Rattle.lru_generations.specs.Checkpoints.{Shards, AreFirm, AreHandedOut, AreMarked, FitsEach, HasFrames, IsFrame, most_shards};
ghost use Rattle.lru_generations.specs.Causes.{HasSaveReason, IsToldOf, IsUnnamed};

use crate::errors::{CheckpointError, CheckpointFile};
use crate::file_replacing::replace_file;
use crate::file_writing::write_file;
use crate::manifest::{Manifest, encode_manifest};
use crate::names::{frame_path, manifest_path, manifest_temp_path};
use lru_folder::folder::Folder;
use lru_frames::frame::Header;
use lru_frames::mark::Mark;
use lru_frames::source::Source;
use lru_frames::stored::Stored;
use std::alloc::Global;

/// The most shards that a checkpoint may have.
pub const MOST_SHARDS: usize = 1_048_576;

// Writes the frame of one shard of so many to its file.
fn save_frame<F: Folder, K: Stored, V: Stored, S: Source<K, V>>(
    alloc: Global,
    folder: &mut F,
    dir: &str,
    file_name: &str,
    generation: u64,
    count: u64,
    shard: u64,
    source: &S,
) -> Result<Mark, CheckpointError>
    requires shard { shard < count }
    requires count { count ≡ S.count source.now }
    requires few { count ≤ most_shards }

    ensures saved { IfOk result (λ mark. (rows : List (Row K V)) × (S.hands_out source.now shard rows × (Fits K.is_value V.is_value (part_header generation count shard) rows
        × ((mark ≡ mark_of K.bytes_of V.bytes_of (part_header generation count shard) rows)
        × (F.meaning.keeps folder.old → IsWritten F.meaning (frame_path dir.now file_name.now generation shard)
        (frame_of K.bytes_of V.bytes_of (part_header generation count shard) rows) folder.old folder.new))))) }
    ensures touches { F.meaning.keeps folder.old → TouchesOnly F.meaning (λ q. q ≡ frame_path dir.now file_name.now generation shard) folder.old folder.new }
    ensures named { IfErr result (IsToldOf (λ file. file ≡ CheckpointFile.Shard shard)) }
    ensures reason { F.meaning.keeps folder.old → IfErr result (HasSaveReason F.meaning dir.now file_name.now generation folder.old folder.new) }
    ensures faults { F.meaning.keeps folder.old → OnOk result (F.meaning.faults folder.new ≡ F.meaning.faults folder.old) }
    ensures places { F.meaning.keeps folder.old → F.meaning.folders folder.new ≡ F.meaning.folders folder.old }
    ensures kept { F.meaning.keeps folder.old ↔ F.meaning.keeps folder.new }
{
    let Ok(path) = frame_path(alloc, dir, file_name, generation, shard) else {
        return Err(CheckpointError::Memory);
    };
    let shards = count + 1;
    let header = Header {
        shards,
        shard,
        generation,
    };
    let Ok((bytes, mark)) = source.frame(alloc, header) else {
        return Err(CheckpointError::Memory);
    };
    match write_file(folder, &path, &bytes) {
        Ok(()) => Ok(mark),
        Err(fault) => {
            let file = CheckpointFile::Shard(shard);
            Err(CheckpointError::Folder { file, fault })
        }
    }
}

/// Writes the frame of each shard that the source hands out to its file, and syncs it, one after the other; their marks.
/// At every moment no path but those of the frames of this generation changes.
///
/// `Memory`: no memory was found for a name or for bytes. `Folder`: a call failed on the file that is named. The other
/// errors are never told.
pub fn save_frames<F: Folder, K: Stored, V: Stored, S: Source<K, V>>(
    alloc: Global,
    folder: &mut F,
    dir: &str,
    file_name: &str,
    generation: u64,
    source: &S,
) -> Result<Vec<Mark>, CheckpointError>
    requires { S.count source.now ≤ most_shards }
    ensures saved { IfOk result (λ marks. (shards : Shards K V) × (AreHandedOut (S.hands_out source.now) (S.count source.now) shards
        × (AreMarked K.bytes_of V.bytes_of generation (S.count source.now) shards marks.items × (FitsEach K.is_value V.is_value generation (S.count source.now) shards
        × (F.meaning.keeps folder.old → HasFrames K.bytes_of V.bytes_of dir.now file_name.now generation (S.count source.now) shards (F.meaning.files folder.new)
        × AreFirm dir.now file_name.now generation (S.count source.now) (F.meaning.loose folder.new)))))) }
    ensures touches { F.meaning.keeps folder.old → TouchesOnly F.meaning (IsFrame dir.now file_name.now generation) folder.old folder.new }
    ensures named { IfErr result (IsToldOf (λ file. (shard : ℕ) × ((shard < S.count source.now) × (file ≡ CheckpointFile.Shard shard)))) }
    ensures reason { F.meaning.keeps folder.old → IfErr result (HasSaveReason F.meaning dir.now file_name.now generation folder.old folder.new) }
    ensures faults { F.meaning.keeps folder.old → OnOk result (F.meaning.faults folder.new ≡ F.meaning.faults folder.old) }
    ensures places { F.meaning.keeps folder.old → F.meaning.folders folder.new ≡ F.meaning.folders folder.old }
    ensures kept { F.meaning.keeps folder.old ↔ F.meaning.keeps folder.new }
{
    let count = source.shards() as u64;
    let mut marks = Vec::new(alloc);
    for shard in 0..count {
        let mark = save_frame(
            alloc, folder, dir, file_name, generation, count, shard, source,
        )?;
        let Ok(()) = marks.push(mark) else {
            return Err(CheckpointError::Memory);
        };
    }
    Ok(marks)
}

/// Replaces the manifest of its generation by this one. A stop or a loss of power at any moment leaves the manifest as it
/// was, or this one, and with this one each file that was synced before.
///
/// `Memory`: no memory was found for a name or for bytes. `Folder`: a call failed on the file that a manifest is first
/// written to. After both the manifest is as it was, unless the call that failed is its renaming, which may have been done.
/// The other errors are never told.
pub fn save_manifest<F: Folder>(
    alloc: Global,
    folder: &mut F,
    dir: &str,
    file_name: &str,
    manifest: &Manifest,
) -> Result<(), CheckpointError>
    requires { suc (length manifest.now.frames.items) < 2 ^ 64 }
    ensures done { F.meaning.keeps folder.old → OnOk result (IsReplaced (manifest_temp_path dir.now file_name.now manifest.now.generation)
        (manifest_path dir.now file_name.now manifest.now.generation) (manifest_bytes manifest.now.generation manifest.now.frames.items)
        (F.meaning.files folder.old) (F.meaning.loose folder.old) (F.meaning.files folder.old) (F.meaning.files folder.new)) }
    ensures fits { OnOk result (IsManifest manifest.now.generation manifest.now.frames.items) }
    ensures told { IfErr result (λ error. IsUnnamed error → IsManifest manifest.now.generation manifest.now.frames.items) }
    ensures replaces { F.meaning.keeps folder.old → Replaces F.meaning (manifest_temp_path dir.now file_name.now manifest.now.generation)
        (manifest_path dir.now file_name.now manifest.now.generation) (manifest_bytes manifest.now.generation manifest.now.frames.items) folder.old folder.new }
    ensures firm { F.meaning.keeps folder.old → OnOk result ((q : List ℕ) → F.meaning.loose folder.new q
        → firmed (manifest_temp_path dir.now file_name.now manifest.now.generation) (firmed (manifest_path dir.now file_name.now manifest.now.generation) (F.meaning.loose folder.old)) q) }
    // Where another call failed than the renaming, no path but the temporary one has changed at any moment.
    ensures unnamed { F.meaning.keeps folder.old → IfErr result (λ error. ¬ IsUnnamed error
        → TouchesOnly F.meaning (λ q. q ≡ manifest_temp_path dir.now file_name.now manifest.now.generation) folder.old folder.new) }

    ensures named { IfErr result (IsToldOf (λ file. file ≡ CheckpointFile.Manifest)) }
    ensures reason { F.meaning.keeps folder.old → IfErr result (HasSaveReason F.meaning dir.now file_name.now manifest.now.generation folder.old folder.new) }
    ensures faults { F.meaning.keeps folder.old → OnOk result (F.meaning.faults folder.new ≡ F.meaning.faults folder.old) }
    ensures places { F.meaning.keeps folder.old → F.meaning.folders folder.new ≡ F.meaning.folders folder.old }
    ensures kept { F.meaning.keeps folder.old ↔ F.meaning.keeps folder.new }
{
    let Ok(temp) = manifest_temp_path(alloc, dir, file_name, manifest.generation) else {
        return Err(CheckpointError::Memory);
    };
    let Ok(path) = manifest_path(alloc, dir, file_name, manifest.generation) else {
        return Err(CheckpointError::Memory);
    };
    let Ok(bytes) = encode_manifest(alloc, manifest) else {
        return Err(CheckpointError::Memory);
    };
    match replace_file(folder, &temp, &path, &bytes) {
        Ok(()) => Ok(()),
        Err(fault) => {
            let file = CheckpointFile::Manifest;
            Err(CheckpointError::Folder { file, fault })
        }
    }
}
