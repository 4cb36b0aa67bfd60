//! A generation saved for good.
ghost use Rattle.std.specs.Prelude.{◌≡◌, ◌↔◌, ◌<◌, ◌≤◌, ◌^◌, ℕ, suc, List, false, length, IfErr, IfOk, OnOk, IsTrue};
ghost use Rattle.lru_folder.specs.Files.{Files};
ghost use Rattle.lru_folder.specs.Names.{has_slash};
ghost use Rattle.lru_generations.specs.Touching.{TouchesOnly};
ghost use Rattle.lru_generations.specs.Checkpoints.{Shards, AreFirm, AreHandedOut, AreMarked, FitsEach, HasCheckpoint, HasFrames, IsFrame, IsWhole, SavesCheckpoint, most_shards};
ghost use Rattle.lru_generations.specs.Causes.{HasSaveReason, IsUnnamed};
ghost use Rattle.lru_generations.specs.Loads.{IsFault};
ghost use Rattle.lru_generations.specs.Saving.{IsUnfinished};

use crate::errors::CheckpointError;
use crate::generation_removing::remove_part;
use crate::manifest::Manifest;
use crate::names::PartName;
use crate::saving::{save_frames, save_manifest};
use crate::syncing::sync_names;
use lru_folder::folder::Folder;
use lru_folder::folder_call::FolderCall;
use lru_folder::synced_folder::SyncedFolder;
use lru_frames::mark::Mark;
use lru_frames::source::Source;
use lru_frames::stored::Stored;
use std::alloc::Global;

// Whether the renaming of a manifest failed: it may have been done.
fn is_unnamed(error: &CheckpointError) -> bool
    ensures { IsTrue result ↔ IsUnnamed error.now }
{
    match error {
        CheckpointError::Folder { fault, .. } => fault.call == FolderCall::Rename,
        _ => false,
    }
}

// Takes away the frames of so many shards and the file that a manifest is first written to, as far as that can be done.
fn clear<F: Folder>(
    alloc: Global,
    folder: &mut F,
    dir: &str,
    file_name: &str,
    generation: u64,
    count: u64,
)
    ensures touches { F.meaning.keeps folder.old → TouchesOnly F.meaning (IsUnfinished dir.now file_name.now generation) folder.old folder.new }
    ensures places { F.meaning.keeps folder.old → F.meaning.folders folder.new ≡ F.meaning.folders folder.old }
    ensures kept { F.meaning.keeps folder.old ↔ F.meaning.keeps folder.new }
{
    for shard in 0..count {
        let part = PartName::Frame { generation, shard };
        let _ = remove_part(alloc, folder, dir, file_name, part);
    }
    let part = PartName::Temp { generation };
    let _ = remove_part(alloc, folder, dir, file_name, part);
}

// Writes the frame of each shard to its file, and syncs the files and their names; their marks.
fn save_parts<F: SyncedFolder, K: Stored, V: Stored, S: Source<K, V>>(
    alloc: Global,
    folder: &mut F,
    dir: &str,
    file_name: &str,
    generation: u64,
    source: &S,
) -> Result<Vec<Mark>, CheckpointError>
    requires { S.count source.now ≤ most_shards }
    ensures saved { IfOk result (λ frames. (shards : Shards K V) × (AreHandedOut (S.hands_out source.now) (S.count source.now) shards
        × (AreMarked K.bytes_of V.bytes_of generation (S.count source.now) shards frames.items × (FitsEach K.is_value V.is_value generation (S.count source.now) shards
        × (F.meaning.keeps folder.old → HasFrames K.bytes_of V.bytes_of dir.now file_name.now generation (S.count source.now) shards (F.meaning.files folder.new)
        × AreFirm dir.now file_name.now generation (S.count source.now) (F.meaning.loose folder.new)))))) }
    ensures touches { F.meaning.keeps folder.old → TouchesOnly F.meaning (IsFrame dir.now file_name.now generation) folder.old folder.new }
    ensures reason { F.meaning.keeps folder.old → IfErr result (λ error. (mid : F) × HasSaveReason F.meaning dir.now file_name.now generation mid folder.new error) }
    ensures places { F.meaning.keeps folder.old → F.meaning.folders folder.new ≡ F.meaning.folders folder.old }
    ensures kept { F.meaning.keeps folder.old ↔ F.meaning.keeps folder.new }
{
    let frames = match save_frames(alloc, folder, dir, file_name, generation, source) {
        Err(error) => return Err(error),
        Ok(frames) => frames,
    };
    match sync_names(folder, dir) {
        Err(error) => Err(error),
        Ok(()) => Ok(frames),
    }
}

// Saves the shards that the source hands out as the checkpoint of this generation, for good: once it answers Ok, each loss of
// power from then on leaves the whole new checkpoint. It answers what the manifest tells.
//
// Each shard's frame is written to its own file and synced, and so is its name. Then the manifest is written and synced, and
// gets its name, which is synced. A stop or a loss of power at any moment leaves the manifest as it was, and with it all files
// but those of this generation; or it leaves the whole new checkpoint. Where it fails before the manifest may have its name, what
// was written is taken away again, as far as that can be done.
//
// `Memory`: no memory was found for a name or for bytes. `Folder`: a call failed on the file that is named. The other errors are
// never told.
pub(crate) fn save_for_good<F: SyncedFolder, K: Stored, V: Stored, S: Source<K, V>>(
    alloc: Global,
    folder: &mut F,
    dir: &str,
    file_name: &str,
    generation: u64,
    source: &S,
) -> Result<Manifest, CheckpointError>
    requires few { S.count source.now ≤ most_shards }
    requires name { has_slash file_name.now ≡ false }

    // After an Ok the new checkpoint is there, and each loss of power leaves it.
    ensures saved { F.meaning.keeps folder.old → OnOk result ((shards : Shards K V) × (AreHandedOut (S.hands_out source.now) (S.count source.now) shards
        × (HasCheckpoint K.bytes_of K.is_value V.bytes_of V.is_value dir.now file_name.now generation shards (F.meaning.files folder.new)
        × ((m : Files) → F.meaning.lost_since folder.new (F.meaning.clock folder.new) m
        → HasCheckpoint K.bytes_of K.is_value V.bytes_of V.is_value dir.now file_name.now generation shards m)))) }

    // What its manifest tells is whole.
    ensures told { F.meaning.keeps folder.old → IfOk result (λ manifest. (manifest.generation ≡ generation)
        × IsWhole dir.now file_name.now generation manifest.frames.items (F.meaning.files folder.new)) }

    // A stop, and a loss of power, at any moment leaves the files as they were, or the whole new checkpoint.
    ensures saves { F.meaning.keeps folder.old → SavesCheckpoint K.bytes_of K.is_value V.bytes_of V.is_value
        dir.now file_name.now (S.hands_out source.now) (S.count source.now) F.meaning generation folder.old folder.new }

    // An error names the file and the call that failed, and it has its reason.
    ensures reason { F.meaning.keeps folder.old → IfErr result (λ error. (mid : F) × ((now : F) × HasSaveReason F.meaning dir.now file_name.now generation mid now error)) }

    ensures error { F.meaning.keeps folder.old → IfErr result IsFault }
    ensures places { F.meaning.keeps folder.old → F.meaning.folders folder.new ≡ F.meaning.folders folder.old }
    ensures kept { F.meaning.keeps folder.old ↔ F.meaning.keeps folder.new }
{
    let count = source.shards() as u64;
    let frames = match save_parts(alloc, folder, dir, file_name, generation, source) {
        Err(error) => {
            clear(alloc, folder, dir, file_name, generation, count);
            return Err(error);
        }
        Ok(frames) => frames,
    };
    let manifest = Manifest { generation, frames };
    if let Err(error) = save_manifest(alloc, folder, dir, file_name, &manifest) {
        if is_unnamed(&error) {
            return Err(error);
        }
        clear(alloc, folder, dir, file_name, generation, count);
        return Err(error);
    }
    match sync_names(folder, dir) {
        Err(error) => Err(error),
        Ok(()) => Ok(manifest),
    }
}
