//! The next checkpoint saved, and what is older than the one before it removed.
ghost use Rattle.std.specs.Prelude.{◌≡◌, ◌↔◌, ◌<◌, ◌≤◌, ◌^◌, ℕ, List, false, IfErr, IfOk, OnOk, Some, None, Contains, option_copied};
ghost use Rattle.std.specs.FinMap.{get};
ghost use Rattle.lru_folder.specs.Files.{Files};
ghost use Rattle.lru_folder.specs.Folder.{LeavesOnly};
ghost use Rattle.lru_folder.specs.Names.{has_slash};
ghost use Rattle.lru_generations.specs.declared.names.PartName.{PartName};
ghost use Rattle.lru_generations.specs.declared.names.PartName.TheVariants.{Manifest};
ghost use Rattle.lru_generations.specs.Listing.{IsLeftover};
ghost use Rattle.lru_generations.specs.Names.{IsPart, part_path};
ghost use Rattle.lru_generations.specs.Touching.{TouchesOnly};
ghost use Rattle.lru_generations.specs.Checkpoints.{Shards, AreHandedOut, HasCheckpoint, most_shards};
ghost use Rattle.lru_generations.specs.Loads.{IsFault};
ghost use Rattle.lru_generations.specs.Faults.{IsFailed};
ghost use Rattle.lru_generations.specs.Newest.{HasManifest, IsAsKnown, IsHighestTaken, IsNewest};
ghost use Rattle.lru_generations.specs.Saving.{IsForGood, IsLeft, IsOld, IsOlder, IsUnsaved, IsUnremoved, IsUnused, KeepsFrames, NamesOlder, SavesAfter, SavesNext, TellsPassed};

use crate::errors::CheckpointError;
use crate::generation_removing::remove_parts;
use crate::generation_saving::save_for_good;
use crate::known::Known;
use crate::listing::{leftovers, manifests_apart, older_than};
use crate::names::PartName;
use crate::newest::Passed;
use crate::survey::{Surveyed, survey};
use lru_folder::folder::Folder;
use lru_folder::synced_folder::SyncedFolder;
use lru_frames::source::Source;
use lru_frames::stored::Stored;
use std::alloc::Global;

/// A checkpoint that was saved for good.
#[derive(Debug, Drop)]
pub struct Saved {
    /// Its number.
    pub generation: u64,
    /// The checkpoint before it that is kept: the newest one that was whole, by its checks.
    pub kept: Option<u64>,
    /// The generations above that one which were not whole, and why. Their files are left as they are; a later save removes
    /// them, once a newer one is kept.
    pub passed: Vec<Passed>,
    /// Whether the files of the generations below the one that is kept are gone, or why some may be left: memory or the device
    /// failed.
    pub removed: Result<(), CheckpointError>,
    /// That it is whole: the next save that is handed it need not read it again.
    pub known: Known,
}

// Removes the parts that no manifest tells of: what a stop left.
fn remove_leftovers<F: Folder>(
    alloc: Global,
    folder: &mut F,
    dir: &str,
    file_name: &str,
    parts: &[PartName],
) -> Result<(), CheckpointError>
    ensures gone { F.meaning.keeps folder.old → OnOk result ((part : PartName) → Contains parts.now part → IsLeftover parts.now part
        → get (F.meaning.files folder.new) (part_path dir.now file_name.now part) ≡ None) }
    ensures touches { F.meaning.keeps folder.old → TouchesOnly F.meaning (IsLeft dir.now file_name.now parts.now) folder.old folder.new }
    ensures error { IfErr result IsFault }
    ensures reason { F.meaning.keeps folder.old → IfErr result (IsFailed F.meaning folder.old folder.new) }
    ensures places { F.meaning.keeps folder.old → F.meaning.folders folder.new ≡ F.meaning.folders folder.old }
    ensures kept { F.meaning.keeps folder.old ↔ F.meaning.keeps folder.new }
{
    let Ok(left) = leftovers(alloc, parts) else {
        return Err(CheckpointError::Memory);
    };
    remove_parts(alloc, folder, dir, file_name, &left)
}

// Removes the parts of generations below the one that is kept, if one is: their manifests first, so that what a stop leaves of
// a generation is unfinished, and not a manifest that tells of frames which are gone.
fn remove_older<F: Folder>(
    alloc: Global,
    folder: &mut F,
    dir: &str,
    file_name: &str,
    parts: &[PartName],
    kept: Option<u64>,
) -> Result<(), CheckpointError>
    ensures gone { F.meaning.keeps folder.old → OnOk result ((part : PartName) → Contains parts.now part → IsOlder kept part
        → get (F.meaning.files folder.new) (part_path dir.now file_name.now part) ≡ None) }
    ensures touches { F.meaning.keeps folder.old → ((part : PartName) → Contains parts.now part → IsPart part)
        → TouchesOnly F.meaning (IsOld dir.now file_name.now kept) folder.old folder.new }

    // At every moment a generation that has its manifest has its frames, where each manifest that is older is among the parts.
    ensures frames { F.meaning.keeps folder.old → ((part : PartName) → Contains parts.now part → IsPart part)
        → ((generation : ℕ) → generation < 2 ^ 64 → HasManifest dir.now file_name.now (F.meaning.files folder.old) generation → IsOlder kept (Manifest generation)
        → Contains parts.now (Manifest generation))
        → LeavesOnly F.meaning (KeepsFrames dir.now file_name.now (F.meaning.files folder.old)) folder.old folder.new }

    ensures named { IfErr result (NamesOlder kept) }
    ensures reason { F.meaning.keeps folder.old → IfErr result (IsFailed F.meaning folder.old folder.new) }
    ensures places { F.meaning.keeps folder.old → F.meaning.folders folder.new ≡ F.meaning.folders folder.old }
    ensures kept { F.meaning.keeps folder.old ↔ F.meaning.keeps folder.new }
{
    let Some(newest) = kept else {
        return Ok(());
    };
    let older = older_than(alloc, parts, newest)?;
    let (manifests, others) = manifests_apart(alloc, &older)?;
    remove_parts(alloc, folder, dir, file_name, &manifests)?;
    remove_parts(alloc, folder, dir, file_name, &others)
}

// The same as `save_after`, but that the folder is left claimed.
fn save_claimed<F: SyncedFolder, K: Stored, V: Stored, S: Source<K, V>>(
    alloc: Global,
    folder: &mut F,
    dir: &str,
    file_name: &str,
    source: &S,
    known: Option<&Known>,
) -> Result<Saved, CheckpointError>
    requires few { S.count source.now ≤ most_shards }
    requires name { has_slash file_name.now ≡ false }
    ensures saves { F.meaning.keeps folder.old → SavesAfter K.bytes_of K.is_value V.bytes_of V.is_value
        dir.now file_name.now (S.hands_out source.now) (S.count source.now) (option_copied known.entry) F.meaning folder.old folder.new }
    ensures frames { F.meaning.keeps folder.old → LeavesOnly F.meaning (KeepsFrames dir.now file_name.now (F.meaning.files folder.old)) folder.old folder.new }
    ensures next { F.meaning.keeps folder.old → IfOk result (λ saved. IsUnused dir.now file_name.now (F.meaning.files folder.old) saved.generation) }
    ensures for_good { F.meaning.keeps folder.old → IfOk result (λ saved. (shards : Shards K V) × (AreHandedOut (S.hands_out source.now) (S.count source.now) shards
        × IsForGood K.bytes_of K.is_value V.bytes_of V.is_value dir.now file_name.now F.meaning saved.generation shards folder.new)) }
    ensures told { F.meaning.keeps folder.old → IfOk result (λ saved. (saved.known.generation ≡ saved.generation)
        × IsAsKnown dir.now file_name.now (F.meaning.files folder.new) (Some saved.known)) }
    ensures newest { F.meaning.keeps folder.old → IfOk result (λ saved. IsHighestTaken dir.now file_name.now (F.meaning.files folder.old) (option_copied known.entry) saved.kept) }
    ensures passed { F.meaning.keeps folder.old → IfOk result (λ saved. TellsPassed F.meaning dir.now file_name.now (F.meaning.files folder.old) saved.kept saved.passed.items) }
    ensures gone { F.meaning.keeps folder.old → IfOk result (λ saved. OnOk saved.removed ((part : PartName) (bytes : List ℕ) → IsPart part → IsOlder saved.kept part
        → get (F.meaning.files folder.old) (part_path dir.now file_name.now part) ≡ Some bytes → get (F.meaning.files folder.new) (part_path dir.now file_name.now part) ≡ None)) }
    ensures unremoved { F.meaning.keeps folder.old → IfOk result (λ saved. IfErr saved.removed (IsUnremoved F.meaning saved.kept)) }
    ensures error { F.meaning.keeps folder.old → IfErr result IsUnsaved }
    ensures untouched { F.meaning.keeps folder.old → IfErr result (λ error. ¬ IsFault error → F.meaning.files folder.new ≡ F.meaning.files folder.old) }
    ensures places { F.meaning.keeps folder.old → F.meaning.folders folder.new ≡ F.meaning.folders folder.old }
    ensures kept { F.meaning.keeps folder.old ↔ F.meaning.keeps folder.new }
{
    let found = survey(alloc, folder, dir, file_name, known)?;
    let Surveyed {
        parts,
        newest,
        generation,
    } = found;
    remove_leftovers(alloc, folder, dir, file_name, &parts)?;
    let manifest = save_for_good(alloc, folder, dir, file_name, generation, source)?;
    let removed = remove_older(alloc, folder, dir, file_name, &parts, newest.generation);
    Ok(Saved {
        generation,
        kept: newest.generation,
        passed: newest.passed,
        removed,
        known: Known::new(manifest),
    })
}

/// Saves as `save` does, but need not read the frames of the checkpoint that is known: one that this process has loaded or saved.
///
/// The manifest of that generation is read, and compared with what is known. Where it is another one, or is damaged or gone, the
/// frames of what is there are read, and so are those of each generation above it: all is as with `save`. Where it is the same the
/// generation is taken for whole and kept: that its frames still hold what they held rests on nobody but saves having written there.
/// Should they be damaged since, the new checkpoint may be the only whole one that is left: older ones are removed once it stands
/// for good. Whatever happened, a checkpoint that stood whole stands until the new one does.
///
/// The errors are those of `save`.
pub fn save_after<F: SyncedFolder, K: Stored, V: Stored, S: Source<K, V>>(
    alloc: Global,
    folder: &mut F,
    dir: &str,
    file_name: &str,
    source: &S,
    known: Option<&Known>,
) -> Result<Saved, CheckpointError>
    requires few { S.count source.now ≤ most_shards }
    requires name { has_slash file_name.now ≡ false }

    // What stood whole stands, until the new one stands whole; and nothing else comes to stand.
    ensures saves { F.meaning.keeps folder.old → SavesAfter K.bytes_of K.is_value V.bytes_of V.is_value
        dir.now file_name.now (S.hands_out source.now) (S.count source.now) (option_copied known.entry) F.meaning folder.old folder.new }

    // Meanwhile a generation that has its manifest has its frames: none is told as damaged for what was removed of it.
    ensures frames { F.meaning.keeps folder.old → LeavesOnly F.meaning (KeepsFrames dir.now file_name.now (F.meaning.files folder.old)) folder.old folder.new }

    // After an Ok each loss leaves the new one, in a generation of which there was no file.
    ensures next { F.meaning.keeps folder.old → IfOk result (λ saved. IsUnused dir.now file_name.now (F.meaning.files folder.old) saved.generation) }
    ensures for_good { F.meaning.keeps folder.old → IfOk result (λ saved. (shards : Shards K V) × (AreHandedOut (S.hands_out source.now) (S.count source.now) shards
        × IsForGood K.bytes_of K.is_value V.bytes_of V.is_value dir.now file_name.now F.meaning saved.generation shards folder.new)) }

    // It is known to be whole from then on.
    ensures told { F.meaning.keeps folder.old → IfOk result (λ saved. (saved.known.generation ≡ saved.generation)
        × IsAsKnown dir.now file_name.now (F.meaning.files folder.new) (Some saved.known)) }

    // The one that is kept was the highest that was whole, or that is known and still had its manifest; those above it are told, and
    // what was below it is gone.
    ensures newest { F.meaning.keeps folder.old → IfOk result (λ saved. IsHighestTaken dir.now file_name.now (F.meaning.files folder.old) (option_copied known.entry) saved.kept) }

    // Where what is known is whole still, that was the newest whole one, and it stands beside the new one: all is as with `save`.
    ensures as_known { F.meaning.keeps folder.old → IsAsKnown dir.now file_name.now (F.meaning.files folder.old) (option_copied known.entry)
        → IfOk result (λ saved. IsNewest dir.now file_name.now (F.meaning.files folder.old) saved.kept)
        × SavesNext K.bytes_of K.is_value V.bytes_of V.is_value dir.now file_name.now (S.hands_out source.now) (S.count source.now) F.meaning folder.old folder.new }

    ensures passed { F.meaning.keeps folder.old → IfOk result (λ saved. TellsPassed F.meaning dir.now file_name.now (F.meaning.files folder.old) saved.kept saved.passed.items) }
    ensures gone { F.meaning.keeps folder.old → IfOk result (λ saved. OnOk saved.removed ((part : PartName) (bytes : List ℕ) → IsPart part → IsOlder saved.kept part
        → get (F.meaning.files folder.old) (part_path dir.now file_name.now part) ≡ Some bytes → get (F.meaning.files folder.new) (part_path dir.now file_name.now part) ≡ None)) }

    // That a file which is older was not removed has its reason, and names it.
    ensures unremoved { F.meaning.keeps folder.old → IfOk result (λ saved. IfErr saved.removed (IsUnremoved F.meaning saved.kept)) }

    // Where neither memory nor the device failed, nothing was done.
    ensures error { F.meaning.keeps folder.old → IfErr result IsUnsaved }
    ensures untouched { F.meaning.keeps folder.old → IfErr result (λ error. ¬ IsFault error → F.meaning.files folder.new ≡ F.meaning.files folder.old) }

    ensures places { F.meaning.keeps folder.old → F.meaning.folders folder.new ≡ F.meaning.folders folder.old }
    ensures kept { F.meaning.keeps folder.old ↔ F.meaning.keeps folder.new }
{
    match save_claimed(alloc, folder, dir, file_name, source, known) {
        Err(error) => {
            folder.leave_dir();
            Err(error)
        }
        Ok(saved) => {
            folder.leave_dir();
            Ok(saved)
        }
    }
}

/// Saves the shards that the source hands out as the next checkpoint, for good, and keeps the newest one that was whole; then
/// removes the files of those below it.
///
/// One shard's rows are held at a time. What a stop or a failure left of earlier saves is removed first, before room is needed.
/// The newest checkpoint that is whole is found by reading its files: what is damaged is neither kept for it nor stands in the way.
///
/// A stop or a loss of power at any moment leaves each whole checkpoint until the new one is whole, and the newest one beside the
/// new one. What then stands whole, with none above it, stood before or is the new one: never a mixture. After an Ok each loss
/// leaves the new one. The name of the file is one in the folder, which has to be there.
///
/// `InUse`: another save has the folder. `LastGeneration`: the greatest number is in use. In both cases nothing was done. `Memory`:
/// no memory was found. `Folder`: a call failed on the file that is named, for which the device or memory is the reason, or that
/// the folder is not there. The new checkpoint is then not there, unless it was its renaming or the sync of the names that failed;
/// what was written of it is taken away, as far as that can be done. That files below the kept generation were not removed is told
/// in the answer, and is no error.
pub fn save<F: SyncedFolder, K: Stored, V: Stored, S: Source<K, V>>(
    alloc: Global,
    folder: &mut F,
    dir: &str,
    file_name: &str,
    source: &S,
) -> Result<Saved, CheckpointError>
    requires few { S.count source.now ≤ most_shards }
    requires name { has_slash file_name.now ≡ false }

    // What stood whole stands, until the new one stands whole; and nothing else comes to stand.
    ensures saves { F.meaning.keeps folder.old → SavesNext K.bytes_of K.is_value V.bytes_of V.is_value
        dir.now file_name.now (S.hands_out source.now) (S.count source.now) F.meaning folder.old folder.new }

    // Meanwhile a generation that has its manifest has its frames: none is told as damaged for what was removed of it.
    ensures frames { F.meaning.keeps folder.old → LeavesOnly F.meaning (KeepsFrames dir.now file_name.now (F.meaning.files folder.old)) folder.old folder.new }

    // After an Ok each loss leaves the new one, in a generation of which there was no file.
    ensures next { F.meaning.keeps folder.old → IfOk result (λ saved. IsUnused dir.now file_name.now (F.meaning.files folder.old) saved.generation) }
    ensures for_good { F.meaning.keeps folder.old → IfOk result (λ saved. (shards : Shards K V) × (AreHandedOut (S.hands_out source.now) (S.count source.now) shards
        × IsForGood K.bytes_of K.is_value V.bytes_of V.is_value dir.now file_name.now F.meaning saved.generation shards folder.new)) }

    // It is known to be whole from then on.
    ensures told { F.meaning.keeps folder.old → IfOk result (λ saved. (saved.known.generation ≡ saved.generation)
        × IsAsKnown dir.now file_name.now (F.meaning.files folder.new) (Some saved.known)) }

    // The one that is kept was the newest whole one, those above it are told, and what was below it is gone.
    ensures newest { F.meaning.keeps folder.old → IfOk result (λ saved. IsNewest dir.now file_name.now (F.meaning.files folder.old) saved.kept) }
    ensures passed { F.meaning.keeps folder.old → IfOk result (λ saved. TellsPassed F.meaning dir.now file_name.now (F.meaning.files folder.old) saved.kept saved.passed.items) }
    ensures gone { F.meaning.keeps folder.old → IfOk result (λ saved. OnOk saved.removed ((part : PartName) (bytes : List ℕ) → IsPart part → IsOlder saved.kept part
        → get (F.meaning.files folder.old) (part_path dir.now file_name.now part) ≡ Some bytes → get (F.meaning.files folder.new) (part_path dir.now file_name.now part) ≡ None)) }

    // That a file which is older was not removed has its reason, and names it.
    ensures unremoved { F.meaning.keeps folder.old → IfOk result (λ saved. IfErr saved.removed (IsUnremoved F.meaning saved.kept)) }

    // Where neither memory nor the device failed, nothing was done.
    ensures error { F.meaning.keeps folder.old → IfErr result IsUnsaved }
    ensures untouched { F.meaning.keeps folder.old → IfErr result (λ error. ¬ IsFault error → F.meaning.files folder.new ≡ F.meaning.files folder.old) }

    ensures places { F.meaning.keeps folder.old → F.meaning.folders folder.new ≡ F.meaning.folders folder.old }
    ensures kept { F.meaning.keeps folder.old ↔ F.meaning.keeps folder.new }
{
    save_after(alloc, folder, dir, file_name, source, None)
}
