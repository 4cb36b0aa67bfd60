//! The newest checkpoint that is whole.
ghost use Rattle.std.specs.Prelude.{◌≡◌, ◌↔◌, ◌⊎◌, ◌<◌, ◌∷◌, ◌++◌, [], AllPairs, IfErr, IfOk, OnOk, option_copied};
ghost use Rattle.lru_generations.specs.Touching.{TouchesNothing};
ghost use Rattle.lru_generations.specs.Loads.{IsFault, IsRefused, IsRefusedByCheck};
ghost use Rattle.lru_generations.specs.Faults.{IsFailed};
ghost use Rattle.lru_generations.specs.Newest.{ArePassed, HasAllManifests, IsHighestTaken};

use crate::checking::check_unless_known;
use crate::errors::CheckpointError;
use crate::known::{Known, manifest_of};
use lru_folder::folder::Folder;
use std::alloc::Global;

/// A generation that was passed over.
#[derive(Clone, Copy, Debug, PartialEq, Eq)]
pub struct Passed {
    /// Its number.
    pub generation: u64,
    /// Why: what of it is not there, damaged or of another checkpoint.
    pub error: CheckpointError,
}

/// The newest generation that is taken for whole.
#[derive(Debug, Drop)]
pub struct Newest {
    /// Its number, where there is one.
    pub generation: Option<u64>,
    /// The generations above it, the highest first.
    pub passed: Vec<Passed>,
}

// Passes a generation over. That memory or the device failed is no reason to.
pub(crate) fn pass_over(
    passed: &mut Vec<Passed>,
    generation: u64,
    error: CheckpointError,
) -> Result<(), CheckpointError>
    ensures passed { OnOk result (passed.new.items ≡ passed.old.items ++ record { generation = generation; error = error } ∷ []) }
    ensures unblamed { OnOk result (¬ IsFault error) }
    ensures told { IfErr result (λ e. ((e ≡ error) × IsFault error) ⊎ ((e ≡ CheckpointError.Memory) × (¬ IsFault error))) }
{
    if error.is_fault() {
        return Err(error);
    }
    let Ok(()) = passed.push(Passed { generation, error }) else {
        return Err(CheckpointError::Memory);
    };
    Ok(())
}

/// The first of these generations that is whole, by the checks of its files and whatever its rows hold, or that is known to have
/// been and still has its manifest. Another one is passed over; that memory or the device failed ends the search. At every moment all files are as they were.
///
/// `Memory`: no memory was found. `Folder`: a file was not read, for which the device or memory is the reason. The other errors
/// are never told.
pub fn newest_whole<F: Folder>(
    alloc: Global,
    folder: &mut F,
    dir: &str,
    file_name: &str,
    generations: &[u64],
    known: Option<&Known>,
) -> Result<Newest, CheckpointError>
    requires falling { AllPairs (λ first later. later < first) generations.now }

    // Where each generation with a manifest is among them, it is the highest one in the folder that is taken for whole.
    ensures newest { F.meaning.keeps folder.old → HasAllManifests dir.now file_name.now (F.meaning.files folder.old) generations.now
        → IfOk result (λ it. IsHighestTaken dir.now file_name.now (F.meaning.files folder.old) (option_copied known.entry) it.generation) }

    // What is passed over is what stands in front of it.
    ensures passed { F.meaning.keeps folder.old → IfOk result (λ it. ArePassed
        (λ generation error. IsRefused F.meaning (IsRefusedByCheck F.meaning dir.now file_name.now) dir.now file_name.now generation folder.old folder.new error)
        generations.now it.generation it.passed.items) }

    ensures error { IfErr result IsFault }
    ensures reason { F.meaning.keeps folder.old → IfErr result (IsFailed F.meaning folder.old folder.new) }

    ensures touches { F.meaning.keeps folder.old → TouchesNothing F.meaning folder.old folder.new }
    ensures files { F.meaning.keeps folder.old → F.meaning.files folder.new ≡ F.meaning.files folder.old }
    ensures faults { F.meaning.keeps folder.old → OnOk result (F.meaning.faults folder.new ≡ F.meaning.faults folder.old) }
    ensures places { F.meaning.keeps folder.old → F.meaning.folders folder.new ≡ F.meaning.folders folder.old }
    ensures kept { F.meaning.keeps folder.old ↔ F.meaning.keeps folder.new }
{
    let mut passed = Vec::new(alloc);
    for generation in generations {
        let number = *generation;
        match check_unless_known(alloc, folder, dir, file_name, number, manifest_of(known)) {
            Ok(_) => {
                let generation = Some(number);
                return Ok(Newest { generation, passed });
            }
            Err(error) => pass_over(&mut passed, number, error)?,
        }
    }
    let generation = None;
    Ok(Newest { generation, passed })
}
