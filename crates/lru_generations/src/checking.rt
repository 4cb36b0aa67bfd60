//! A checkpoint of any content, told whole by its checks.
ghost use Rattle.std.specs.Prelude.{◌≡◌, ◌≢◌, ◌↔◌, ◌<◌, ◌≤◌, ◌^◌, ℕ, suc, List, length, slice_get, IfErr, IfOk, OnOk, Some, IsTrue, option_copied};
ghost use Rattle.std.specs.FinMap.{get};
ghost use Rattle.lru_frames.specs.declared.mark.Mark.{Mark};
ghost use Rattle.lru_frames.specs.Frame.{IsHeader};
ghost use Rattle.lru_generations.specs.Manifests.{IsManifest, part_header};
ghost use Rattle.lru_generations.specs.Names.{frame_path};
ghost use Rattle.lru_generations.specs.Touching.{TouchesNothing};
ghost use Rattle.lru_generations.specs.Checkpoints.{IsKnown, IsTaken, IsWhole, IsWholeFrame};
ghost use Rattle.lru_generations.specs.Loads.{IsFault, IsRefused, IsRefusedByCheck};

use crate::errors::{CheckpointError, CheckpointFile};
use crate::file_reading::{Found, read_file};
use crate::manifest::Manifest;
use crate::names::frame_path;
use crate::reading::{load_manifest, unread};
use lru_folder::folder::Folder;
use lru_frames::frame::Header;
use lru_frames::mark::Mark;
use lru_frames::marked::inspect;
use std::alloc::Global;

// Reads the frame of a shard, and compares it with its mark.
fn check_frame<F: Folder>(
    alloc: Global,
    folder: &mut F,
    dir: &str,
    file_name: &str,
    header: Header,
    mark: Mark,
) -> Result<(), CheckpointError>
    ensures found { F.meaning.keeps folder.old → OnOk result ((bytes : List ℕ)
        × ((get (F.meaning.files folder.old) (frame_path dir.now file_name.now header.generation header.shard) ≡ Some bytes) × IsWholeFrame header mark bytes)) }
    ensures whole { F.meaning.keeps folder.old → (bytes : List ℕ) → get (F.meaning.files folder.old) (frame_path dir.now file_name.now header.generation header.shard) ≡ Some bytes
        → IsWholeFrame header mark bytes → IsHeader header → IfErr result IsFault }
    ensures refused { F.meaning.keeps folder.old → IfErr result (IsRefusedByCheck F.meaning dir.now file_name.now header mark folder.old folder.new) }
    ensures touches { F.meaning.keeps folder.old → TouchesNothing F.meaning folder.old folder.new }
    ensures files { F.meaning.keeps folder.old → F.meaning.files folder.new ≡ F.meaning.files folder.old }
    ensures faults { F.meaning.keeps folder.old → OnOk result (F.meaning.faults folder.new ≡ F.meaning.faults folder.old) }
    ensures quiet { F.meaning.keeps folder.old → IfErr result (λ error. ¬ IsFault error → F.meaning.faults folder.new ≡ F.meaning.faults folder.old) }
    ensures places { F.meaning.keeps folder.old → F.meaning.folders folder.new ≡ F.meaning.folders folder.old }
    ensures kept { F.meaning.keeps folder.old ↔ F.meaning.keeps folder.new }
{
    let file = CheckpointFile::Shard(header.shard);
    let Ok(path) = frame_path(alloc, dir, file_name, header.generation, header.shard) else {
        return Err(CheckpointError::Memory);
    };
    let bytes = match read_file(alloc, folder, &path, mark.length) {
        Err(error) => return Err(unread(file, error)),
        Ok(Found::Nothing) => return Err(CheckpointError::Missing { file }),
        Ok(Found::TooLong) => return Err(CheckpointError::Other { file }),
        Ok(Found::Bytes(bytes)) => bytes,
    };
    let it = match inspect(&bytes) {
        Err(part) => return Err(CheckpointError::Damaged { file, part }),
        Ok(it) => it,
    };
    if it.header != header {
        return Err(CheckpointError::Other { file });
    }
    if it.mark != mark {
        return Err(CheckpointError::Other { file });
    }
    Ok(())
}

// Reads each frame that this manifest tells of, and compares it with its mark.
fn check_frames<F: Folder>(
    alloc: Global,
    folder: &mut F,
    dir: &str,
    file_name: &str,
    manifest: &Manifest,
) -> Result<(), CheckpointError>
    requires { suc (length manifest.now.frames.items) < 2 ^ 64 }
    ensures found { F.meaning.keeps folder.old → OnOk result ((shard : ℕ) (mark : Mark) → slice_get manifest.now.frames.items shard ≡ Some mark
        → (bytes : List ℕ) × ((get (F.meaning.files folder.old) (frame_path dir.now file_name.now manifest.now.generation shard) ≡ Some bytes)
        × IsWholeFrame (part_header manifest.now.generation (length manifest.now.frames.items) shard) mark bytes)) }
    ensures whole { F.meaning.keeps folder.old → manifest.now.generation < 2 ^ 64 → ((shard : ℕ) (mark : Mark) → slice_get manifest.now.frames.items shard ≡ Some mark
        → (bytes : List ℕ) × ((get (F.meaning.files folder.old) (frame_path dir.now file_name.now manifest.now.generation shard) ≡ Some bytes)
        × IsWholeFrame (part_header manifest.now.generation (length manifest.now.frames.items) shard) mark bytes)) → IfErr result IsFault }
    ensures refused { F.meaning.keeps folder.old → IfErr result (λ error. (shard : ℕ) × ((mark : Mark) × ((slice_get manifest.now.frames.items shard ≡ Some mark)
        × IsRefusedByCheck F.meaning dir.now file_name.now (part_header manifest.now.generation (length manifest.now.frames.items) shard) mark folder.old folder.new error))) }
    ensures touches { F.meaning.keeps folder.old → TouchesNothing F.meaning folder.old folder.new }
    ensures files { F.meaning.keeps folder.old → F.meaning.files folder.new ≡ F.meaning.files folder.old }
    ensures faults { F.meaning.keeps folder.old → OnOk result (F.meaning.faults folder.new ≡ F.meaning.faults folder.old) }
    ensures quiet { F.meaning.keeps folder.old → IfErr result (λ error. ¬ IsFault error → F.meaning.faults folder.new ≡ F.meaning.faults folder.old) }
    ensures places { F.meaning.keeps folder.old → F.meaning.folders folder.new ≡ F.meaning.folders folder.old }
    ensures kept { F.meaning.keeps folder.old ↔ F.meaning.keeps folder.new }
{
    for shard in 0..manifest.frames.len() {
        let header = manifest.part(shard as u64);
        let mark = manifest.frames[shard];
        if let Err(error) = check_frame(alloc, folder, dir, file_name, header, mark) {
            return Err(error);
        }
    }
    Ok(())
}

// Whether this is the manifest that is known.
fn is_known(manifest: &Manifest, known: Option<&Manifest>) -> bool
    ensures { IsTrue result ↔ IsKnown (option_copied known.entry) manifest.now }
{
    match known {
        None => false,
        Some(known) => {
            known.generation == manifest.generation && known.frames == manifest.frames
        }
    }
}

/// Whether the checkpoint of a generation is whole, or is the one that is known to have been: its manifest.
///
/// Where the manifest is that of the known one, no frame is read: that it is whole rests on what was known. Else it is checked as
/// by `check_generation`, whose errors it has. At every moment all files are as they were.
pub fn check_unless_known<F: Folder>(
    alloc: Global,
    folder: &mut F,
    dir: &str,
    file_name: &str,
    generation: u64,
    known: Option<&Manifest>,
) -> Result<Manifest, CheckpointError>
    // What is taken for whole is whole, or has the manifest that was known; where none is known it is whole.
    ensures found { F.meaning.keeps folder.old → IfOk result (λ manifest. IsTaken dir.now file_name.now (option_copied known.entry) generation manifest.frames.items (F.meaning.files folder.old)) }

    // What is not is neither, unless memory or the device fails.
    ensures whole { F.meaning.keeps folder.old → (marks : List Mark) → IsTaken dir.now file_name.now (option_copied known.entry) generation marks (F.meaning.files folder.old) → IfErr result IsFault }

    // An error tells which file was refused, and why.
    ensures refused { F.meaning.keeps folder.old → IfErr result (IsRefused F.meaning
        (IsRefusedByCheck F.meaning dir.now file_name.now) dir.now file_name.now generation folder.old folder.new) }

    ensures touches { F.meaning.keeps folder.old → TouchesNothing F.meaning folder.old folder.new }
    ensures files { F.meaning.keeps folder.old → F.meaning.files folder.new ≡ F.meaning.files folder.old }
    ensures faults { F.meaning.keeps folder.old → OnOk result (F.meaning.faults folder.new ≡ F.meaning.faults folder.old) }
    ensures quiet { F.meaning.keeps folder.old → IfErr result (λ error. ¬ IsFault error → F.meaning.faults folder.new ≡ F.meaning.faults folder.old) }
    ensures places { F.meaning.keeps folder.old → F.meaning.folders folder.new ≡ F.meaning.folders folder.old }
    ensures kept { F.meaning.keeps folder.old ↔ F.meaning.keeps folder.new }
{
    let manifest = match load_manifest(alloc, folder, dir, file_name, generation) {
        Err(error) => return Err(error),
        Ok(manifest) => manifest,
    };
    if is_known(&manifest, known) {
        return Ok(manifest);
    }
    match check_frames(alloc, folder, dir, file_name, &manifest) {
        Err(error) => Err(error),
        Ok(()) => Ok(manifest),
    }
}

/// Whether the checkpoint of a generation is whole, by the checks of its files and whatever its rows hold: its manifest. No more
/// than one frame is held. At every moment all files are as they were.
///
/// The errors are those of `load_generation`; as no row is read, `Damaged` never tells of rows in a frame.
pub fn check_generation<F: Folder>(
    alloc: Global,
    folder: &mut F,
    dir: &str,
    file_name: &str,
    generation: u64,
) -> Result<Manifest, CheckpointError>
    // What is told to be whole is whole.
    ensures found { F.meaning.keeps folder.old → IfOk result (λ manifest. IsWhole dir.now file_name.now generation manifest.frames.items (F.meaning.files folder.old)) }

    // What is not told to be whole is not, unless memory or the device fails.
    ensures whole { F.meaning.keeps folder.old → (marks : List Mark) → IsWhole dir.now file_name.now generation marks (F.meaning.files folder.old) → IfErr result IsFault }

    // An error tells which file was refused, and why.
    ensures refused { F.meaning.keeps folder.old → IfErr result (IsRefused F.meaning
        (IsRefusedByCheck F.meaning dir.now file_name.now) dir.now file_name.now generation folder.old folder.new) }

    ensures touches { F.meaning.keeps folder.old → TouchesNothing F.meaning folder.old folder.new }
    ensures files { F.meaning.keeps folder.old → F.meaning.files folder.new ≡ F.meaning.files folder.old }
    ensures faults { F.meaning.keeps folder.old → OnOk result (F.meaning.faults folder.new ≡ F.meaning.faults folder.old) }
    ensures quiet { F.meaning.keeps folder.old → IfErr result (λ error. ¬ IsFault error → F.meaning.faults folder.new ≡ F.meaning.faults folder.old) }
    ensures places { F.meaning.keeps folder.old → F.meaning.folders folder.new ≡ F.meaning.folders folder.old }
    ensures kept { F.meaning.keeps folder.old ↔ F.meaning.keeps folder.new }
{
    check_unless_known(alloc, folder, dir, file_name, generation, None)
}
