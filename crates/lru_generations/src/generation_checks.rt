//! Each generation of a folder: whole, or why it is not.
ghost use Rattle.std.specs.Prelude.{◌≡◌, ◌↔◌, ◌⊎◌, ◌<◌, ℕ, false, map, AllPairs, Contains, IfErr, IfOk, OnOk};
ghost use Rattle.lru_folder.specs.Names.{has_slash};
ghost use Rattle.lru_generations.specs.declared.names.PartName.{PartName};
ghost use Rattle.lru_generations.specs.Names.{generation_of};
ghost use Rattle.lru_generations.specs.Touching.{TouchesNothing};
ghost use Rattle.lru_generations.specs.Loads.{IsFault};
ghost use Rattle.lru_generations.specs.declared.generation_checks.FoundGeneration.{FoundGeneration};
ghost use Rattle.lru_generations.specs.Faults.{IsFailed, IsUnlisted};
ghost use Rattle.lru_generations.specs.Told.{AreAll, IsTold};

use crate::checking::check_generation;
use crate::errors::CheckpointError;
use crate::folder_listing::parts_of;
use crate::names::PartName;
use lru_folder::folder::Folder;
use std::alloc::{AllocError, Global};

/// A generation that a folder has a file of.
#[derive(Clone, Copy, Debug, PartialEq, Eq)]
pub struct FoundGeneration {
    /// Its number.
    pub generation: u64,
    /// How many shards it has where it is whole, and else what of it is not there, damaged or of another checkpoint.
    pub shards: Result<u64, CheckpointError>,
}

// The generations of these parts, each once, the highest first.
fn numbers_in(alloc: Global, parts: &[PartName]) -> Result<Vec<u64>, AllocError>
    ensures found { IfOk result (λ generations. (generation : ℕ) → Contains generations.items generation
        ↔ ((part : PartName) × (Contains parts.now part × (generation_of part ≡ generation)))) }
    ensures falling { IfOk result (λ generations. AllPairs (λ first later. later < first) generations.items) }
{
    let mut generations = Vec::new(alloc);
    for part in parts {
        generations.push(part.generation())?;
    }
    generations.sort_unstable();
    generations.dedup();
    generations.reverse();
    Ok(generations)
}

// Tells of one generation.
fn tell<F: Folder>(
    alloc: Global,
    folder: &mut F,
    dir: &str,
    file_name: &str,
    generation: u64,
) -> Result<FoundGeneration, CheckpointError>
    ensures number { IfOk result (λ told. told.generation ≡ generation) }
    ensures told { F.meaning.keeps folder.old → IfOk result (λ told. IsTold dir.now file_name.now F.meaning folder.old folder.new generation told.shards) }
    ensures error { IfErr result IsFault }
    ensures reason { F.meaning.keeps folder.old → IfErr result (IsFailed F.meaning folder.old folder.new) }
    ensures touches { F.meaning.keeps folder.old → TouchesNothing F.meaning folder.old folder.new }
    ensures files { F.meaning.keeps folder.old → F.meaning.files folder.new ≡ F.meaning.files folder.old }
    ensures faults { F.meaning.keeps folder.old → OnOk result (F.meaning.faults folder.new ≡ F.meaning.faults folder.old) }
    ensures places { F.meaning.keeps folder.old → F.meaning.folders folder.new ≡ F.meaning.folders folder.old }
    ensures kept { F.meaning.keeps folder.old ↔ F.meaning.keeps folder.new }
{
    match check_generation(alloc, folder, dir, file_name, generation) {
        Ok(manifest) => {
            let shards = Ok(manifest.frames.len() as u64);
            Ok(FoundGeneration { generation, shards })
        }
        Err(error) => {
            if error.is_fault() {
                return Err(error);
            }
            let shards = Err(error);
            Ok(FoundGeneration { generation, shards })
        }
    }
}

// Tells of each of these generations.
fn tell_each<F: Folder>(
    alloc: Global,
    folder: &mut F,
    dir: &str,
    file_name: &str,
    generations: &[u64],
) -> Result<Vec<FoundGeneration>, CheckpointError>
    ensures all { IfOk result (λ told. map (λ one. one.generation) told.items ≡ generations.now) }
    ensures told { F.meaning.keeps folder.old → IfOk result (λ told. (one : FoundGeneration) → Contains told.items one
        → IsTold dir.now file_name.now F.meaning folder.old folder.new one.generation one.shards) }
    ensures error { IfErr result IsFault }
    ensures reason { F.meaning.keeps folder.old → IfErr result (IsFailed F.meaning folder.old folder.new) }
    ensures touches { F.meaning.keeps folder.old → TouchesNothing F.meaning folder.old folder.new }
    ensures files { F.meaning.keeps folder.old → F.meaning.files folder.new ≡ F.meaning.files folder.old }
    ensures faults { F.meaning.keeps folder.old → OnOk result (F.meaning.faults folder.new ≡ F.meaning.faults folder.old) }
    ensures places { F.meaning.keeps folder.old → F.meaning.folders folder.new ≡ F.meaning.folders folder.old }
    ensures kept { F.meaning.keeps folder.old ↔ F.meaning.keeps folder.new }
{
    let mut told = Vec::new(alloc);
    for generation in generations {
        let one = tell(alloc, folder, dir, file_name, *generation)?;
        let Ok(()) = told.push(one) else {
            return Err(CheckpointError::Memory);
        };
    }
    Ok(told)
}

/// Tells of each generation that the folder has a file of, the highest first, whether it is whole, by the checks of its files and
/// whatever its rows hold. At every moment all files are as they were.
///
/// `Memory`: no memory was found. `Folder`: the folder was not listed or a file was not read, for which the device or memory is
/// the reason, or the folder is not there. The other errors are never told.
pub fn check_all<F: Folder>(
    alloc: Global,
    folder: &mut F,
    dir: &str,
    file_name: &str,
) -> Result<Vec<FoundGeneration>, CheckpointError>
    requires { has_slash file_name.now ≡ false }

    // No generation is left out, and none is told of twice.
    ensures all { F.meaning.keeps folder.old → IfOk result (λ told. AreAll dir.now file_name.now (F.meaning.files folder.old) (map (λ one. one.generation) told.items)) }

    // Of each it is told whether it is whole.
    ensures told { F.meaning.keeps folder.old → IfOk result (λ told. (one : FoundGeneration) → Contains told.items one
        → IsTold dir.now file_name.now F.meaning folder.old folder.new one.generation one.shards) }

    ensures error { IfErr result IsFault }
    ensures reason { F.meaning.keeps folder.old → IfErr result (λ error. IsUnlisted F.meaning dir.now folder.old folder.new error
        ⊎ IsFailed F.meaning folder.old folder.new error) }

    ensures touches { F.meaning.keeps folder.old → TouchesNothing F.meaning folder.old folder.new }
    ensures files { F.meaning.keeps folder.old → F.meaning.files folder.new ≡ F.meaning.files folder.old }
    ensures faults { F.meaning.keeps folder.old → OnOk result (F.meaning.faults folder.new ≡ F.meaning.faults folder.old) }
    ensures places { F.meaning.keeps folder.old → F.meaning.folders folder.new ≡ F.meaning.folders folder.old }
    ensures kept { F.meaning.keeps folder.old ↔ F.meaning.keeps folder.new }
{
    let parts = parts_of(alloc, folder, dir, file_name)?;
    let generations = numbers_in(alloc, &parts)?;
    tell_each(alloc, folder, dir, file_name, &generations)
}
