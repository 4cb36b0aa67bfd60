//! A cache of one owner saved and loaded.
ghost use Rattle.std.specs.Prelude.{◌≡◌, ◌↔◌, ◌⊎◌, ℕ, List, false, None, Some, IfErr, IfOk, IfSome, OnOk, option_copied};
ghost use Rattle.std.specs.FinMap.{get};
ghost use Rattle.lru_folder.specs.Names.{has_slash};
ghost use Rattle.lru_generations.specs.declared.names.PartName.{PartName};
ghost use Rattle.lru_generations.specs.Names.{IsPart, part_path};
ghost use Rattle.lru_generations.specs.Touching.{TouchesNothing};
ghost use Rattle.lru_generations.specs.Checkpoints.{Shards, AreHandedOut};
ghost use Rattle.lru_generations.specs.Loads.{IsFault, IsRefused, IsRefusedFrame};
ghost use Rattle.lru_generations.specs.Faults.{IsFailed, IsUnlisted};
ghost use Rattle.lru_generations.specs.Newest.{AreGenerations, ArePassed, IsAsKnown, IsHighestTaken, IsNewest};
ghost use Rattle.lru_generations.specs.Saving.{IsForGood, IsOlder, IsUnsaved, IsUnused, SavesAfter, SavesNext, TellsPassed};
ghost use Rattle.lru_cache_checkpoints.specs.Restores.{IfUnloaded, IsCopyOf, Restores};

use crate::cache_captures::{CacheSource, restore_shards};
use crate::restored::{RestoreError, Restored};
use lru_folder::folder::Folder;
use lru_folder::synced_folder::SyncedFolder;
use lru_frames::stored::Stored;
use lru_generations::errors::CheckpointError;
use lru_generations::generations::{Saved, save, save_after};
use lru_generations::known::Known;
use lru_generations::newest_loading::{Loaded, load};
use lru_owned_cache::cache::Cache;
use std::alloc::Global;
use std::hash::Hash;

/// Saves the entries of a cache as the next checkpoint, of one shard, as `save` of `lru_generations` does.
pub fn save_cache<F: SyncedFolder, K: Hash + Clone + Stored, V: Clone + Stored>(
    alloc: Global,
    folder: &mut F,
    dir: &str,
    file_name: &str,
    cache: &Cache<K, V>,
) -> Result<Saved, CheckpointError>
    requires { has_slash file_name.now ≡ false }

    // What stood whole stands, until the new one stands whole; and nothing else comes to stand.
    ensures saves { F.meaning.keeps folder.old → SavesNext K.bytes_of K.is_value V.bytes_of V.is_value
        dir.now file_name.now (λ shard. IsCopyOf K.is_clone V.is_clone cache.now) 1 F.meaning folder.old folder.new }

    // After an Ok each loss leaves the new one, in a generation of which there was no file.
    ensures next { F.meaning.keeps folder.old → IfOk result (λ saved. IsUnused dir.now file_name.now (F.meaning.files folder.old) saved.generation) }
    ensures for_good { F.meaning.keeps folder.old → IfOk result (λ saved. (shards : Shards K V) × (AreHandedOut (λ shard. IsCopyOf K.is_clone V.is_clone cache.now) 1 shards
        × IsForGood K.bytes_of K.is_value V.bytes_of V.is_value dir.now file_name.now F.meaning saved.generation shards folder.new)) }

    // It is known to be whole from then on.
    ensures told { F.meaning.keeps folder.old → IfOk result (λ saved. (saved.known.generation ≡ saved.generation)
        × IsAsKnown dir.now file_name.now (F.meaning.files folder.new) (Some saved.known)) }

    // The one that is kept was the newest whole one, those above it are told, and what was below it is gone.
    ensures newest { F.meaning.keeps folder.old → IfOk result (λ saved. IsNewest dir.now file_name.now (F.meaning.files folder.old) saved.kept) }
    ensures passed { F.meaning.keeps folder.old → IfOk result (λ saved. TellsPassed F.meaning dir.now file_name.now (F.meaning.files folder.old) saved.kept saved.passed.items) }
    ensures gone { F.meaning.keeps folder.old → IfOk result (λ saved. OnOk saved.removed ((part : PartName) (bytes : List ℕ) → IsPart part → IsOlder saved.kept part
        → get (F.meaning.files folder.old) (part_path dir.now file_name.now part) ≡ Some bytes → get (F.meaning.files folder.new) (part_path dir.now file_name.now part) ≡ None)) }

    // Where neither memory nor the device failed, nothing was done.
    ensures error { F.meaning.keeps folder.old → IfErr result IsUnsaved }
    ensures untouched { F.meaning.keeps folder.old → IfErr result (λ error. ¬ IsFault error → F.meaning.files folder.new ≡ F.meaning.files folder.old) }

    ensures places { F.meaning.keeps folder.old → F.meaning.folders folder.new ≡ F.meaning.folders folder.old }
    ensures kept { F.meaning.keeps folder.old ↔ F.meaning.keeps folder.new }
{
    save(alloc, folder, dir, file_name, &CacheSource { cache })
}

/// Saves as `save_cache` does, but need not read the frames of the checkpoint that is known, as `save_after` of `lru_generations`.
pub fn save_cache_after<F: SyncedFolder, K: Hash + Clone + Stored, V: Clone + Stored>(
    alloc: Global,
    folder: &mut F,
    dir: &str,
    file_name: &str,
    cache: &Cache<K, V>,
    known: Option<&Known>,
) -> Result<Saved, CheckpointError>
    requires { has_slash file_name.now ≡ false }

    // What stood whole stands, until the new one stands whole; and nothing else comes to stand.
    ensures saves { F.meaning.keeps folder.old → SavesAfter K.bytes_of K.is_value V.bytes_of V.is_value
        dir.now file_name.now (λ shard. IsCopyOf K.is_clone V.is_clone cache.now) 1 (option_copied known.entry) F.meaning folder.old folder.new }

    // After an Ok each loss leaves the new one, in a generation of which there was no file.
    ensures next { F.meaning.keeps folder.old → IfOk result (λ saved. IsUnused dir.now file_name.now (F.meaning.files folder.old) saved.generation) }
    ensures for_good { F.meaning.keeps folder.old → IfOk result (λ saved. (shards : Shards K V) × (AreHandedOut (λ shard. IsCopyOf K.is_clone V.is_clone cache.now) 1 shards
        × IsForGood K.bytes_of K.is_value V.bytes_of V.is_value dir.now file_name.now F.meaning saved.generation shards folder.new)) }

    // It is known to be whole from then on.
    ensures told { F.meaning.keeps folder.old → IfOk result (λ saved. (saved.known.generation ≡ saved.generation)
        × IsAsKnown dir.now file_name.now (F.meaning.files folder.new) (Some saved.known)) }

    // The one that is kept was the highest that was whole, or that is known and still had its manifest; those above it are told, and
    // what was below it is gone.
    ensures newest { F.meaning.keeps folder.old → IfOk result (λ saved. IsHighestTaken dir.now file_name.now (F.meaning.files folder.old) (option_copied known.entry) saved.kept) }

    // Where what is known is whole still, all is as without it.
    ensures as_known { F.meaning.keeps folder.old → IsAsKnown dir.now file_name.now (F.meaning.files folder.old) (option_copied known.entry)
        → IfOk result (λ saved. IsNewest dir.now file_name.now (F.meaning.files folder.old) saved.kept)
        × SavesNext K.bytes_of K.is_value V.bytes_of V.is_value dir.now file_name.now (λ shard. IsCopyOf K.is_clone V.is_clone cache.now) 1 F.meaning folder.old folder.new }

    ensures passed { F.meaning.keeps folder.old → IfOk result (λ saved. TellsPassed F.meaning dir.now file_name.now (F.meaning.files folder.old) saved.kept saved.passed.items) }
    ensures gone { F.meaning.keeps folder.old → IfOk result (λ saved. OnOk saved.removed ((part : PartName) (bytes : List ℕ) → IsPart part → IsOlder saved.kept part
        → get (F.meaning.files folder.old) (part_path dir.now file_name.now part) ≡ Some bytes → get (F.meaning.files folder.new) (part_path dir.now file_name.now part) ≡ None)) }

    // Where neither memory nor the device failed, nothing was done.
    ensures error { F.meaning.keeps folder.old → IfErr result IsUnsaved }
    ensures untouched { F.meaning.keeps folder.old → IfErr result (λ error. ¬ IsFault error → F.meaning.files folder.new ≡ F.meaning.files folder.old) }

    ensures places { F.meaning.keeps folder.old → F.meaning.folders folder.new ≡ F.meaning.folders folder.old }
    ensures kept { F.meaning.keeps folder.old ↔ F.meaning.keeps folder.new }
{
    save_after(alloc, folder, dir, file_name, &CacheSource { cache }, known)
}

/// Loads the newest checkpoint into a cache: its entries are put, those of each shard the last first, so that what was saved of a
/// cache stands in an empty one as it stood. Where there is no checkpoint, nothing is put.
pub fn load_cache<F: Folder, K: Hash + Stored, V: Stored>(
    alloc: Global,
    folder: &mut F,
    dir: &str,
    file_name: &str,
    cache: &mut Cache<K, V>,
) -> Result<Restored, RestoreError<K, V>>
    requires { has_slash file_name.now ≡ false }
    ensures restores { F.meaning.keeps folder.old → Restores K.bytes_of K.is_value K.is_same V.bytes_of V.is_value V.is_same
        dir.now file_name.now (F.meaning.files folder.old) K.eq cache.old result cache.new }

    // Of the generations that have a manifest, those above it were passed over.
    ensures passed { F.meaning.keeps folder.old → IfOk result (λ restored. (generations : List ℕ)
        × (AreGenerations dir.now file_name.now (F.meaning.files folder.old) generations
        × ArePassed (λ generation error. IsRefused F.meaning (IsRefusedFrame F.meaning K.bytes_of K.is_value V.bytes_of V.is_value dir.now file_name.now)
        dir.now file_name.now generation folder.old folder.new error)
        generations restored.generation restored.passed.items)) }

    // What is known of it is whole.
    ensures known { F.meaning.keeps folder.old → IfOk result (λ restored. IfSome restored.known (λ known. (restored.generation ≡ Some known.generation)
        × IsAsKnown dir.now file_name.now (F.meaning.files folder.old) (Some known))) }

    // Where none was loaded, the folder was not listed, memory was refused or a call failed.
    ensures reason { F.meaning.keeps folder.old → IfErr result (IfUnloaded (λ error. IsUnlisted F.meaning dir.now folder.old folder.new error
        ⊎ IsFailed F.meaning folder.old folder.new error)) }

    ensures touches { F.meaning.keeps folder.old → TouchesNothing F.meaning folder.old folder.new }
    ensures files { F.meaning.keeps folder.old → F.meaning.files folder.new ≡ F.meaning.files folder.old }
    ensures faults { F.meaning.keeps folder.old → OnOk result (F.meaning.faults folder.new ≡ F.meaning.faults folder.old) }
    ensures places { F.meaning.keeps folder.old → F.meaning.folders folder.new ≡ F.meaning.folders folder.old }
    ensures kept { F.meaning.keeps folder.old ↔ F.meaning.keeps folder.new }
{
    let Loaded { newest, passed } = load(alloc, folder, dir, file_name)?;
    let Some(checkpoint) = newest else {
        return Ok(Restored {
            generation: None,
            known: None,
            left_out: 0,
            passed,
        });
    };
    let left_out = restore_shards(cache, checkpoint.shards)?;
    Ok(Restored {
        generation: Some(checkpoint.generation),
        known: Some(checkpoint.known),
        left_out,
        passed,
    })
}
