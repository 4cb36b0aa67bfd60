//! A checkpoint loaded.
ghost use Rattle.std.specs.Prelude.{◌≡◌, ◌≢◌, ◌↔◌, ◌<◌, ◌≤◌, ◌^◌, ℕ, suc, List, length, slice_get, IfErr, IfOk, OnOk, MatchResult, Some};
ghost use Rattle.std.specs.FinMap.{get};
ghost use Rattle.lru_frames.specs.declared.mark.Mark.{Mark};
ghost use Rattle.lru_frames.specs.declared.row.Row.{Row};
ghost use Rattle.lru_frames.specs.Frame.{frame_of, Fits};
ghost use Rattle.lru_frames.specs.Marks.{mark_of};
ghost use Rattle.lru_frames.specs.Rows.{AreSame, IsSameRow};
ghost use Rattle.lru_generations.specs.Manifests.{IsManifest, part_header};
ghost use Rattle.lru_generations.specs.Names.{frame_path};
ghost use Rattle.lru_generations.specs.Touching.{TouchesNothing};
ghost use Rattle.lru_generations.specs.Checkpoints.{Shards, AreMarked, FitsEach, HasCheckpoint, HasFrames, IsWhole, most_shards};
ghost use Rattle.lru_generations.specs.Loads.{AreSameShards, IsFault, IsRefused, IsRefusedFrame, rows_of};

use crate::errors::{CheckpointError, CheckpointFile};
use crate::file_reading::{Found, read_file};
use crate::manifest::Manifest;
use crate::names::frame_path;
use crate::reading::{load_manifest, refused, unread};
use lru_folder::folder::Folder;
use lru_frames::frame::{Frame, Header};
use lru_frames::mark::Mark;
use lru_frames::marked::decode_marked;
use lru_frames::row::Row;
use lru_frames::stored::Stored;
use std::alloc::Global;

// The rows of a shard of so many, read from the frame that has this mark.
fn load_frame<F: Folder, K: Stored, V: Stored>(
    alloc: Global,
    folder: &mut F,
    dir: &str,
    file_name: &str,
    header: Header,
    mark: Mark,
) -> Result<Vec<Row<K, V>>, CheckpointError>
    ensures found { F.meaning.keeps folder.old → IfOk result (λ rows. get (F.meaning.files folder.old) (frame_path dir.now file_name.now header.generation header.shard)
        ≡ Some (frame_of K.bytes_of V.bytes_of header rows.items)) }
    ensures fits { IfOk result (λ rows. Fits K.is_value V.is_value header rows.items) }
    ensures marked { IfOk result (λ rows. mark ≡ mark_of K.bytes_of V.bytes_of header rows.items) }
    ensures written { F.meaning.keeps folder.old → (rows : List (Row K V)) → Fits K.is_value V.is_value header rows → mark ≡ mark_of K.bytes_of V.bytes_of header rows
        → get (F.meaning.files folder.old) (frame_path dir.now file_name.now header.generation header.shard) ≡ Some (frame_of K.bytes_of V.bytes_of header rows)
        → MatchResult result (λ found. AreSame (IsSameRow K.is_same V.is_same) found.items rows) IsFault }
    ensures refused { F.meaning.keeps folder.old → IfErr result (IsRefusedFrame F.meaning K.bytes_of K.is_value V.bytes_of V.is_value dir.now file_name.now header mark folder.old folder.new) }
    ensures touches { F.meaning.keeps folder.old → TouchesNothing F.meaning folder.old folder.new }
    ensures files { F.meaning.keeps folder.old → F.meaning.files folder.new ≡ F.meaning.files folder.old }
    ensures faults { F.meaning.keeps folder.old → OnOk result (F.meaning.faults folder.new ≡ F.meaning.faults folder.old) }
    ensures quiet { F.meaning.keeps folder.old → IfErr result (λ error. ¬ IsFault error → F.meaning.faults folder.new ≡ F.meaning.faults folder.old) }
    ensures places { F.meaning.keeps folder.old → F.meaning.folders folder.new ≡ F.meaning.folders folder.old }
    ensures kept { F.meaning.keeps folder.old ↔ F.meaning.keeps folder.new }
{
    let file = CheckpointFile::Shard(header.shard);
    let Ok(path) = frame_path(alloc, dir, file_name, header.generation, header.shard) else {
        return Err(CheckpointError::Memory);
    };
    let bytes = match read_file(alloc, folder, &path, mark.length) {
        Err(error) => return Err(unread(file, error)),
        Ok(Found::Nothing) => return Err(CheckpointError::Missing { file }),
        Ok(Found::TooLong) => return Err(CheckpointError::Other { file }),
        Ok(Found::Bytes(bytes)) => bytes,
    };
    let (frame, found): (Frame<K, V>, Mark) = match decode_marked(alloc, &bytes) {
        Err(error) => return Err(refused(file, error)),
        Ok(decoded) => decoded,
    };
    if frame.header != header {
        return Err(CheckpointError::Other { file });
    }
    if found != mark {
        return Err(CheckpointError::Other { file });
    }
    Ok(frame.rows)
}

// The rows of each shard that this manifest tells of, from shard 0 on.
fn load_frames<F: Folder, K: Stored, V: Stored>(
    alloc: Global,
    folder: &mut F,
    dir: &str,
    file_name: &str,
    manifest: &Manifest,
) -> Result<Vec<Vec<Row<K, V>>>, CheckpointError>
    requires { suc (length manifest.now.frames.items) < 2 ^ 64 }
    ensures marked { IfOk result (λ shards. AreMarked K.bytes_of V.bytes_of manifest.now.generation (length manifest.now.frames.items) (rows_of shards.items) manifest.now.frames.items) }
    ensures found { F.meaning.keeps folder.old → IfOk result (λ shards. HasFrames K.bytes_of V.bytes_of
        dir.now file_name.now manifest.now.generation (length manifest.now.frames.items) (rows_of shards.items) (F.meaning.files folder.old)) }
    ensures fits { IfOk result (λ shards. FitsEach K.is_value V.is_value manifest.now.generation (length manifest.now.frames.items) (rows_of shards.items)) }
    ensures written { F.meaning.keeps folder.old → (shards : Shards K V)
        → AreMarked K.bytes_of V.bytes_of manifest.now.generation (length manifest.now.frames.items) shards manifest.now.frames.items
        → FitsEach K.is_value V.is_value manifest.now.generation (length manifest.now.frames.items) shards
        → HasFrames K.bytes_of V.bytes_of dir.now file_name.now manifest.now.generation (length manifest.now.frames.items) shards (F.meaning.files folder.old) → IfErr result IsFault }
    ensures refused { F.meaning.keeps folder.old → IfErr result (λ error. (shard : ℕ) × ((mark : Mark) × ((slice_get manifest.now.frames.items shard ≡ Some mark)
        × IsRefusedFrame F.meaning K.bytes_of K.is_value V.bytes_of V.is_value dir.now file_name.now
        (part_header manifest.now.generation (length manifest.now.frames.items) shard) mark folder.old folder.new error))) }
    ensures touches { F.meaning.keeps folder.old → TouchesNothing F.meaning folder.old folder.new }
    ensures files { F.meaning.keeps folder.old → F.meaning.files folder.new ≡ F.meaning.files folder.old }
    ensures faults { F.meaning.keeps folder.old → OnOk result (F.meaning.faults folder.new ≡ F.meaning.faults folder.old) }
    ensures quiet { F.meaning.keeps folder.old → IfErr result (λ error. ¬ IsFault error → F.meaning.faults folder.new ≡ F.meaning.faults folder.old) }
    ensures places { F.meaning.keeps folder.old → F.meaning.folders folder.new ≡ F.meaning.folders folder.old }
    ensures kept { F.meaning.keeps folder.old ↔ F.meaning.keeps folder.new }
{
    let mut shards = Vec::new(alloc);
    for shard in 0..manifest.frames.len() {
        let header = manifest.part(shard as u64);
        let mark = manifest.frames[shard];
        let rows = match load_frame(alloc, folder, dir, file_name, header, mark) {
            Err(error) => return Err(error),
            Ok(rows) => rows,
        };
        let Ok(()) = shards.push(rows) else {
            return Err(CheckpointError::Memory);
        };
    }
    Ok(shards)
}

/// Loads the checkpoint of a generation: its manifest, and the rows of each of its shards, read from the frames that the manifest
/// tells of; or an error and no rows. At every moment all files are as they were.
///
/// `Memory`: no memory was found. `Folder`: a file was not read, for which the device or memory is the reason.
/// `Missing`, `Damaged`, `Other`: a file is not there, is damaged, or is another one than the manifest tells of; each names the
/// file. The other errors are never told.
pub fn load_generation<F: Folder, K: Stored, V: Stored>(
    alloc: Global,
    folder: &mut F,
    dir: &str,
    file_name: &str,
    generation: u64,
) -> Result<(Manifest, Vec<Vec<Row<K, V>>>), CheckpointError>
    // What is loaded stands there whole, and so does what its manifest tells.
    ensures found { F.meaning.keeps folder.old → IfOk result (λ loaded. HasCheckpoint K.bytes_of K.is_value V.bytes_of V.is_value
        dir.now file_name.now generation (rows_of loaded.1.items) (F.meaning.files folder.old)) }
    ensures told { F.meaning.keeps folder.old → IfOk result (λ loaded. (loaded.0.generation ≡ generation)
        × IsWhole dir.now file_name.now generation loaded.0.frames.items (F.meaning.files folder.old)) }

    // What stands there whole is loaded, unless memory or the device fails.
    ensures written { F.meaning.keeps folder.old → (shards : Shards K V)
        → HasCheckpoint K.bytes_of K.is_value V.bytes_of V.is_value dir.now file_name.now generation shards (F.meaning.files folder.old)
        → MatchResult result (λ found. AreSameShards K.is_same V.is_same (rows_of found.1.items) shards) IsFault }

    // An error tells which file was refused, and why.
    ensures refused { F.meaning.keeps folder.old → IfErr result (IsRefused F.meaning
        (IsRefusedFrame F.meaning K.bytes_of K.is_value V.bytes_of V.is_value dir.now file_name.now)
        dir.now file_name.now generation folder.old folder.new) }

    ensures touches { F.meaning.keeps folder.old → TouchesNothing F.meaning folder.old folder.new }
    ensures files { F.meaning.keeps folder.old → F.meaning.files folder.new ≡ F.meaning.files folder.old }
    ensures faults { F.meaning.keeps folder.old → OnOk result (F.meaning.faults folder.new ≡ F.meaning.faults folder.old) }
    ensures quiet { F.meaning.keeps folder.old → IfErr result (λ error. ¬ IsFault error → F.meaning.faults folder.new ≡ F.meaning.faults folder.old) }
    ensures places { F.meaning.keeps folder.old → F.meaning.folders folder.new ≡ F.meaning.folders folder.old }
    ensures kept { F.meaning.keeps folder.old ↔ F.meaning.keeps folder.new }
{
    let manifest = match load_manifest(alloc, folder, dir, file_name, generation) {
        Err(error) => return Err(error),
        Ok(manifest) => manifest,
    };
    let shards = match load_frames(alloc, folder, dir, file_name, &manifest) {
        Err(error) => return Err(error),
        Ok(shards) => shards,
    };
    Ok((manifest, shards))
}
