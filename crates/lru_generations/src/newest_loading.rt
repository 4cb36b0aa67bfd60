//! The newest checkpoint loaded.
ghost use Rattle.std.specs.Prelude.{◌≡◌, ◌↔◌, ◌⊎◌, ◌<◌, ℕ, List, Option, Some, false, AllPairs, Contains, IfErr, IfOk, IfSome, OnOk};
ghost use Rattle.lru_folder.specs.Names.{has_slash};
ghost use Rattle.lru_generations.specs.Touching.{TouchesNothing};
ghost use Rattle.lru_generations.specs.Checkpoints.{Shards, HasCheckpoint};
ghost use Rattle.lru_generations.specs.Loads.{IsFault, IsRefused, IsRefusedFrame};
ghost use Rattle.lru_generations.specs.Faults.{IsFailed, IsUnlisted};
ghost use Rattle.lru_generations.specs.Loaded.{IsLoaded, IsLoadedBelow, IsReadable, IsReadableBelow, IsSameCheckpoint, number_of};
ghost use Rattle.lru_generations.specs.Newest.{AreGenerations, AreGenerationsBelow, ArePassed, IsAsKnown, IsBelow};
ghost use Rattle.lru_generations.specs.declared.names.PartName.{PartName};
ghost use Rattle.lru_generations.specs.Names.{generation_of};

use crate::errors::CheckpointError;
use crate::folder_listing::parts_of;
use crate::known::Known;
use crate::listing::{generations_of, older_than};
use crate::loading::load_generation;
use crate::names::PartName;
use crate::newest::{Passed, pass_over};
use lru_folder::folder::Folder;
use lru_frames::row::Row;
use lru_frames::stored::Stored;
use std::alloc::{AllocError, Global};

/// A checkpoint that was loaded.
#[derive(Debug, Drop)]
pub struct Checkpoint<K, V> {
    /// Its number.
    pub generation: u64,
    /// The rows of each shard, from shard 0 on.
    pub shards: Vec<Vec<Row<K, V>>>,
    /// That it was whole: a save that is handed it need not read it again.
    pub known: Known,
}

/// What a load found.
#[derive(Debug, Drop)]
pub struct Loaded<K, V> {
    /// The newest checkpoint that can be read, where there is one.
    pub newest: Option<Checkpoint<K, V>>,
    /// The generations above it that have a manifest, the highest first.
    pub passed: Vec<Passed>,
}

// Loads the first of these generations that can be read.
fn load_newest<F: Folder, K: Stored, V: Stored>(
    alloc: Global,
    folder: &mut F,
    dir: &str,
    file_name: &str,
    generations: &[u64],
) -> Result<Loaded<K, V>, CheckpointError>
    requires falling { AllPairs (λ first later. later < first) generations.now }
    ensures loaded { F.meaning.keeps folder.old → (bound : Option ℕ) → AreGenerationsBelow dir.now file_name.now (F.meaning.files folder.old) bound generations.now
        → IfOk result (λ loaded. IsLoadedBelow K.bytes_of K.is_value V.bytes_of V.is_value dir.now file_name.now (F.meaning.files folder.old) bound loaded.newest) }
    ensures written { F.meaning.keeps folder.old → (bound : Option ℕ) → AreGenerationsBelow dir.now file_name.now (F.meaning.files folder.old) bound generations.now
        → (generation : ℕ) (shards : Shards K V)
        → HasCheckpoint K.bytes_of K.is_value V.bytes_of V.is_value dir.now file_name.now generation shards (F.meaning.files folder.old) → IsBelow bound generation
        → ((higher : ℕ) → generation < higher → ¬ IsReadableBelow K.bytes_of K.is_value V.bytes_of V.is_value dir.now file_name.now (F.meaning.files folder.old) bound higher)
        → IfOk result (λ loaded. IsSameCheckpoint K.is_same V.is_same generation shards loaded.newest) }
    ensures passed { F.meaning.keeps folder.old → IfOk result (λ loaded. ArePassed
        (λ generation error. IsRefused F.meaning (IsRefusedFrame F.meaning K.bytes_of K.is_value V.bytes_of V.is_value dir.now file_name.now)
        dir.now file_name.now generation folder.old folder.new error)
        generations.now (number_of loaded.newest) loaded.passed.items) }
    ensures known { F.meaning.keeps folder.old → IfOk result (λ loaded. IfSome loaded.newest (λ checkpoint. (checkpoint.known.generation ≡ checkpoint.generation)
        × IsAsKnown dir.now file_name.now (F.meaning.files folder.old) (Some checkpoint.known))) }
    ensures error { IfErr result IsFault }
    ensures reason { F.meaning.keeps folder.old → IfErr result (IsFailed F.meaning folder.old folder.new) }
    ensures touches { F.meaning.keeps folder.old → TouchesNothing F.meaning folder.old folder.new }
    ensures files { F.meaning.keeps folder.old → F.meaning.files folder.new ≡ F.meaning.files folder.old }
    ensures faults { F.meaning.keeps folder.old → OnOk result (F.meaning.faults folder.new ≡ F.meaning.faults folder.old) }
    ensures places { F.meaning.keeps folder.old → F.meaning.folders folder.new ≡ F.meaning.folders folder.old }
    ensures kept { F.meaning.keeps folder.old ↔ F.meaning.keeps folder.new }
{
    let mut passed = Vec::new(alloc);
    for generation in generations {
        let generation = *generation;
        match load_generation(alloc, folder, dir, file_name, generation) {
            Ok((manifest, shards)) => {
                let known = Known::new(manifest);
                let newest = Some(Checkpoint {
                    generation,
                    shards,
                    known,
                });
                return Ok(Loaded { newest, passed });
            }
            Err(error) => pass_over(&mut passed, generation, error)?,
        }
    }
    let newest = None;
    Ok(Loaded { newest, passed })
}

// The parts of the generations below the bound.
fn parts_below(
    alloc: Global,
    parts: Vec<PartName>,
    bound: Option<u64>,
) -> Result<Vec<PartName>, AllocError>
    ensures { IfOk result (λ below. (part : PartName) → Contains below.items part ↔ (Contains parts.items part × IsBelow bound (generation_of part))) }
{
    match bound {
        None => Ok(parts),
        Some(bound) => older_than(alloc, &parts, bound),
    }
}

/// Loads the newest checkpoint below a bound, or the newest of all where there is none: as `load` does, as if the generations
/// from the bound on were not there.
///
/// The errors are those of `load`.
pub fn load_below<F: Folder, K: Stored, V: Stored>(
    alloc: Global,
    folder: &mut F,
    dir: &str,
    file_name: &str,
    bound: Option<u64>,
) -> Result<Loaded<K, V>, CheckpointError>
    requires { has_slash file_name.now ≡ false }

    // Whatever the files are, what is loaded stands there whole, and nothing between it and the bound does.
    ensures loaded { F.meaning.keeps folder.old → IfOk result (λ loaded.
        IsLoadedBelow K.bytes_of K.is_value V.bytes_of V.is_value dir.now file_name.now (F.meaning.files folder.old) bound loaded.newest) }

    // The newest checkpoint that stands there whole below the bound is loaded.
    ensures written { F.meaning.keeps folder.old → (generation : ℕ) (shards : Shards K V)
        → HasCheckpoint K.bytes_of K.is_value V.bytes_of V.is_value dir.now file_name.now generation shards (F.meaning.files folder.old) → IsBelow bound generation
        → ((higher : ℕ) → generation < higher → ¬ IsReadableBelow K.bytes_of K.is_value V.bytes_of V.is_value dir.now file_name.now (F.meaning.files folder.old) bound higher)
        → IfOk result (λ loaded. IsSameCheckpoint K.is_same V.is_same generation shards loaded.newest) }

    // Of the generations below the bound that have a manifest, those above it are passed over.
    ensures passed { F.meaning.keeps folder.old → IfOk result (λ loaded. (generations : List ℕ)
        × (AreGenerationsBelow dir.now file_name.now (F.meaning.files folder.old) bound generations
        × ArePassed (λ generation error. IsRefused F.meaning (IsRefusedFrame F.meaning K.bytes_of K.is_value V.bytes_of V.is_value dir.now file_name.now)
        dir.now file_name.now generation folder.old folder.new error)
        generations (number_of loaded.newest) loaded.passed.items)) }

    // It is known to be whole.
    ensures known { F.meaning.keeps folder.old → IfOk result (λ loaded. IfSome loaded.newest (λ checkpoint. (checkpoint.known.generation ≡ checkpoint.generation)
        × IsAsKnown dir.now file_name.now (F.meaning.files folder.old) (Some checkpoint.known))) }

    ensures error { IfErr result IsFault }
    ensures reason { F.meaning.keeps folder.old → IfErr result (λ error. IsUnlisted F.meaning dir.now folder.old folder.new error
        ⊎ IsFailed F.meaning folder.old folder.new error) }

    ensures touches { F.meaning.keeps folder.old → TouchesNothing F.meaning folder.old folder.new }
    ensures files { F.meaning.keeps folder.old → F.meaning.files folder.new ≡ F.meaning.files folder.old }
    ensures faults { F.meaning.keeps folder.old → OnOk result (F.meaning.faults folder.new ≡ F.meaning.faults folder.old) }
    ensures places { F.meaning.keeps folder.old → F.meaning.folders folder.new ≡ F.meaning.folders folder.old }
    ensures kept { F.meaning.keeps folder.old ↔ F.meaning.keeps folder.new }
{
    let listed = parts_of(alloc, folder, dir, file_name)?;
    let parts = parts_below(alloc, listed, bound)?;
    let generations = generations_of(alloc, &parts)?;
    load_newest(alloc, folder, dir, file_name, &generations)
}

/// Loads the newest checkpoint: the whole one of the highest generation that can be read as such rows, or none where none can.
/// A generation above it, which is not whole or not of such rows, is passed over. At every moment all files are as they were.
///
/// `Memory`: no memory was found. `Folder`: the folder was not listed or a file was not read, for which the device or memory is
/// the reason, or the folder is not there. The other errors are never told.
pub fn load<F: Folder, K: Stored, V: Stored>(
    alloc: Global,
    folder: &mut F,
    dir: &str,
    file_name: &str,
) -> Result<Loaded<K, V>, CheckpointError>
    requires { has_slash file_name.now ≡ false }

    // Whatever the files are, what is loaded stands there whole, and nothing above it does; or nothing stands there whole.
    ensures loaded { F.meaning.keeps folder.old → IfOk result (λ loaded.
        IsLoaded K.bytes_of K.is_value V.bytes_of V.is_value dir.now file_name.now (F.meaning.files folder.old) loaded.newest) }

    // The newest checkpoint that stands there whole is loaded.
    ensures written { F.meaning.keeps folder.old → (generation : ℕ) (shards : Shards K V)
        → HasCheckpoint K.bytes_of K.is_value V.bytes_of V.is_value dir.now file_name.now generation shards (F.meaning.files folder.old)
        → ((higher : ℕ) → generation < higher → ¬ IsReadable K.bytes_of K.is_value V.bytes_of V.is_value dir.now file_name.now (F.meaning.files folder.old) higher)
        → IfOk result (λ loaded. IsSameCheckpoint K.is_same V.is_same generation shards loaded.newest) }

    // Of the generations that have a manifest, those above it are passed over.
    ensures passed { F.meaning.keeps folder.old → IfOk result (λ loaded. (generations : List ℕ)
        × (AreGenerations dir.now file_name.now (F.meaning.files folder.old) generations
        × ArePassed (λ generation error. IsRefused F.meaning (IsRefusedFrame F.meaning K.bytes_of K.is_value V.bytes_of V.is_value dir.now file_name.now)
        dir.now file_name.now generation folder.old folder.new error)
        generations (number_of loaded.newest) loaded.passed.items)) }

    // It is known to be whole.
    ensures known { F.meaning.keeps folder.old → IfOk result (λ loaded. IfSome loaded.newest (λ checkpoint. (checkpoint.known.generation ≡ checkpoint.generation)
        × IsAsKnown dir.now file_name.now (F.meaning.files folder.old) (Some checkpoint.known))) }

    ensures error { IfErr result IsFault }
    ensures reason { F.meaning.keeps folder.old → IfErr result (λ error. IsUnlisted F.meaning dir.now folder.old folder.new error
        ⊎ IsFailed F.meaning folder.old folder.new error) }

    ensures touches { F.meaning.keeps folder.old → TouchesNothing F.meaning folder.old folder.new }
    ensures files { F.meaning.keeps folder.old → F.meaning.files folder.new ≡ F.meaning.files folder.old }
    ensures faults { F.meaning.keeps folder.old → OnOk result (F.meaning.faults folder.new ≡ F.meaning.faults folder.old) }
    ensures places { F.meaning.keeps folder.old → F.meaning.folders folder.new ≡ F.meaning.folders folder.old }
    ensures kept { F.meaning.keeps folder.old ↔ F.meaning.keeps folder.new }
{
    load_below(alloc, folder, dir, file_name, None)
}
