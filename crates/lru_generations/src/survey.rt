//! What a save finds in its folder.
ghost use Rattle.std.specs.Prelude.{◌≡◌, ◌↔◌, ◌<◌, ◌^◌, ℕ, List, false, IfErr, IfOk, OnOk, option_copied};
ghost use Rattle.lru_folder.specs.Files.{Files};
ghost use Rattle.lru_folder.specs.Names.{has_slash};
ghost use Rattle.lru_generations.specs.Touching.{TouchesNothing};
ghost use Rattle.lru_generations.specs.Saving.{AreNamed, IsSurveyed, IsUnsaved, TellsPassed};

use crate::errors::CheckpointError;
use crate::folder_listing::parts_of;
use crate::known::Known;
use crate::listing::{generation_above, generations_of};
use crate::names::PartName;
use crate::newest::{Newest, newest_whole};
use crate::syncing::{claim, sync_names};
use lru_folder::synced_folder::SyncedFolder;
use std::alloc::Global;

// What a save finds.
#[derive(Debug, Drop)]
pub(crate) struct Surveyed {
    // The parts that have a file.
    pub(crate) parts: Vec<PartName>,
    // The newest generation that is taken for whole, and those above it.
    pub(crate) newest: Newest,
    // The least number above all.
    pub(crate) generation: u64,
}

// Claims the folder, looks at what is in it, and syncs its names, so that no loss of power brings back a name that is not there.
//
// `InUse`: another save has it. `LastGeneration`: the greatest number is in use. The other errors are faults.
pub(crate) fn survey<F: SyncedFolder>(
    alloc: Global,
    folder: &mut F,
    dir: &str,
    file_name: &str,
    known: Option<&Known>,
) -> Result<Surveyed, CheckpointError>
    requires { has_slash file_name.now ≡ false }
    ensures found { F.meaning.keeps folder.old → IfOk result (λ seen. IsSurveyed dir.now file_name.now (F.meaning.files folder.old)
        (option_copied known.entry) seen.parts.items seen.newest.generation seen.generation) }
    ensures passed { F.meaning.keeps folder.old → IfOk result (λ seen. TellsPassed F.meaning dir.now file_name.now (F.meaning.files folder.old)
        seen.newest.generation seen.newest.passed.items) }
    ensures fits { IfOk result (λ seen. seen.generation < 2 ^ 64) }
    ensures named { F.meaning.keeps folder.old → OnOk result ((m : Files) → F.meaning.lost_since folder.new (F.meaning.clock folder.new) m
        → AreNamed dir.now (F.meaning.files folder.old) m) }
    ensures error { F.meaning.keeps folder.old → IfErr result IsUnsaved }
    ensures touches { F.meaning.keeps folder.old → TouchesNothing F.meaning folder.old folder.new }
    ensures files { F.meaning.keeps folder.old → F.meaning.files folder.new ≡ F.meaning.files folder.old }
    ensures places { F.meaning.keeps folder.old → F.meaning.folders folder.new ≡ F.meaning.folders folder.old }
    ensures kept { F.meaning.keeps folder.old ↔ F.meaning.keeps folder.new }
{
    claim(folder, dir)?;
    let parts = parts_of(alloc, folder, dir, file_name)?;
    let Some(generation) = generation_above(&parts) else {
        return Err(CheckpointError::LastGeneration);
    };
    let generations = generations_of(alloc, &parts)?;
    let newest = newest_whole(alloc, folder, dir, file_name, &generations, known)?;
    sync_names(folder, dir)?;
    Ok(Surveyed {
        parts,
        newest,
        generation,
    })
}
