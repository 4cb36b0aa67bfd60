//! The manifest of a generation, read.
ghost use Rattle.std.specs.Prelude.{◌≡◌, ◌≢◌, ◌↔◌, ◌<◌, ◌≤◌, ◌^◌, ℕ, List, length, IfErr, IfOk, OnOk, MatchResult, Some};
ghost use Rattle.std.specs.FinMap.{get};
ghost use Rattle.lru_frames.specs.declared.mark.Mark.{Mark};
ghost use Rattle.lru_generations.specs.Manifests.{IsManifest, manifest_bytes};
ghost use Rattle.lru_generations.specs.Names.{manifest_path};
ghost use Rattle.lru_generations.specs.Touching.{TouchesNothing};
ghost use Rattle.lru_generations.specs.Checkpoints.{most_shards};
ghost use Rattle.lru_generations.specs.Loads.{IsFault, IsRefusedManifest, refused, unread};

use crate::errors::{CheckpointError, CheckpointFile};
use crate::file_errors::ReadError;
use crate::file_reading::{Found, read_file};
use crate::manifest::{Manifest, decode_manifest};
use crate::names::manifest_path;
use crate::saving::MOST_SHARDS;
use lru_folder::folder::Folder;
use lru_frames::errors::FrameError;
use std::alloc::Global;

// The bytes of the longest manifest.
const MOST_BYTES: u64 = 25_165_888;

// Why a file of a checkpoint was not read.
pub(crate) fn unread(file: CheckpointFile, error: ReadError) -> CheckpointError
    ensures { result ≡ unread file error }
{
    match error {
        ReadError::Memory => CheckpointError::Memory,
        ReadError::Folder(fault) => CheckpointError::Folder { file, fault },
    }
}

// Why the bytes of a file of a checkpoint were refused.
pub(crate) fn refused(file: CheckpointFile, error: FrameError) -> CheckpointError
    ensures { result ≡ refused file error }
{
    match error {
        FrameError::Memory => CheckpointError::Memory,
        FrameError::Damaged(part) => CheckpointError::Damaged { file, part },
    }
}

// The manifest of a generation. At every moment all files are as they were.
//
// `Memory`: no memory was found. `Folder`: the file was not read, for which the device or memory is the reason. `Missing`: it is
// not there. `Damaged`: it is damaged. `Other`: it is another generation's, or too long. The other errors are never told.
pub(crate) fn load_manifest<F: Folder>(
    alloc: Global,
    folder: &mut F,
    dir: &str,
    file_name: &str,
    generation: u64,
) -> Result<Manifest, CheckpointError>
    // What is read is what stands there.
    ensures found { F.meaning.keeps folder.old → IfOk result (λ manifest. get (F.meaning.files folder.old) (manifest_path dir.now file_name.now generation)
        ≡ Some (manifest_bytes generation manifest.frames.items)) }
    ensures number { IfOk result (λ manifest. manifest.generation ≡ generation) }
    ensures fits { IfOk result (λ manifest. IsManifest generation manifest.frames.items) }
    ensures few { IfOk result (λ manifest. length manifest.frames.items ≤ most_shards) }

    // What was written is read, unless memory or the device fails.
    ensures written { F.meaning.keeps folder.old → (marks : List Mark) → IsManifest generation marks → length marks ≤ most_shards
        → get (F.meaning.files folder.old) (manifest_path dir.now file_name.now generation) ≡ Some (manifest_bytes generation marks)
        → MatchResult result (λ manifest. manifest.frames.items ≡ marks) IsFault }

    ensures refused { F.meaning.keeps folder.old → IfErr result (IsRefusedManifest F.meaning dir.now file_name.now generation folder.old folder.new) }
    ensures touches { F.meaning.keeps folder.old → TouchesNothing F.meaning folder.old folder.new }
    ensures files { F.meaning.keeps folder.old → F.meaning.files folder.new ≡ F.meaning.files folder.old }
    ensures faults { F.meaning.keeps folder.old → OnOk result (F.meaning.faults folder.new ≡ F.meaning.faults folder.old) }
    ensures quiet { F.meaning.keeps folder.old → IfErr result (λ error. ¬ IsFault error → F.meaning.faults folder.new ≡ F.meaning.faults folder.old) }
    ensures places { F.meaning.keeps folder.old → F.meaning.folders folder.new ≡ F.meaning.folders folder.old }
    ensures kept { F.meaning.keeps folder.old ↔ F.meaning.keeps folder.new }
{
    let file = CheckpointFile::Manifest;
    let Ok(path) = manifest_path(alloc, dir, file_name, generation) else {
        return Err(CheckpointError::Memory);
    };
    let bytes = match read_file(alloc, folder, &path, MOST_BYTES) {
        Err(error) => return Err(unread(file, error)),
        Ok(Found::Nothing) => return Err(CheckpointError::Missing { file }),
        Ok(Found::TooLong) => return Err(CheckpointError::Other { file }),
        Ok(Found::Bytes(bytes)) => bytes,
    };
    let manifest = match decode_manifest(alloc, &bytes) {
        Err(error) => return Err(refused(file, error)),
        Ok(manifest) => manifest,
    };
    if manifest.generation != generation || manifest.frames.len() > MOST_SHARDS {
        return Err(CheckpointError::Other { file });
    }
    Ok(manifest)
}
