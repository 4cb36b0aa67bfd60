//! The file of one shard, saved: it is written under another name, which then becomes the shard's.
ghost use Rattle.std.specs.FinMap.{get};
ghost use Rattle.std.specs.Prelude.{◌≢◌, ◌≡◌, ◌↔◌, ℕ, List, [], Some, IfErr, IfOk, IsErrOf, OnErr, OnOk, string_bytes};
ghost use Rattle.lru_folder.specs.Blames.{failed_call, blame_of};
ghost use Rattle.lru_folder.specs.Files.{appended, SomeFront};
ghost use Rattle.lru_folder.specs.Folder.{HasCause, IsWriting, Passes, written_path};
ghost use Rattle.lru_folder.specs.Losses.{Loses, writing};
ghost use Rattle.lru_folder.specs.Places.{folder_of, is_there};
ghost use Rattle.lru_shard_files.specs.Saving.{IsSaved, IsStepOf, HasReason, SparesFile};
ghost use Rattle.lru_shard_files.specs.Stages.{HoldsFirm, HoldsOpen, IsInPlace};
ghost use Rattle.lru_shard_files.specs.Turns.{shard_path, temp_path, Ends, SavesOne, turn_of};

use lru_folder::errors::{ShardFileError, ShardSaveFailure};
use lru_folder::fault::FolderFault;
use lru_folder::folder::Folder;
use lru_folder::folder_call::FolderCall;
use lru_folder::names::{path_of, shard_path, temp_name};
use std::alloc::{AllocError, Global};

/// The most bytes that one write passes on.
const PIECE_LEN: usize = 8192;

/// Puts the bytes at the end of the open file, in pieces. A fault may leave any front of them there.
fn write_pieces<F: Folder>(folder: &mut F, bytes: &[u8]) -> Result<(), FolderFault>
    requires { IsWriting (F.opened folder.old) }

    // All pieces together do what one write of the bytes does, to a file that is there.
    ensures done { F.meaning.keeps folder.old → (held : List ℕ) → get (F.meaning.files folder.old) (written_path (F.opened folder.old)) ≡ Some held
        → OnOk result (F.meaning.files folder.new ≡ appended (written_path (F.opened folder.old)) bytes.now (F.meaning.files folder.old)) }
    ensures time { F.meaning.keeps folder.old → (held : List ℕ) → get (F.meaning.files folder.old) (written_path (F.opened folder.old)) ≡ Some held
        → Passes F.meaning (SomeFront (written_path (F.opened folder.old)) bytes.now) folder.old folder.new }
    ensures loss { F.meaning.keeps folder.old → (held : List ℕ) → get (F.meaning.files folder.old) (written_path (F.opened folder.old)) ≡ Some held
        → Loses F.meaning (writing (written_path (F.opened folder.old)) bytes.now) folder.old folder.new }

    ensures mode { F.opened folder.new ≡ F.opened folder.old }
    ensures last { F.meaning.keeps folder.old → OnErr result (F.meaning.last_call folder.new ≡ FolderCall.Write) }
    ensures cause { F.meaning.keeps folder.old → HasCause (F.meaning.faults folder.old) (F.meaning.faults folder.new) result }
    ensures found { F.meaning.keeps folder.old → IsErrOf result FolderFault.NotFound → ⊥ }
    ensures places { F.meaning.keeps folder.old → F.meaning.folders folder.new ≡ F.meaning.folders folder.old }
    ensures kept { F.meaning.keeps folder.old ↔ F.meaning.keeps folder.new }
{
    for piece in bytes.chunks(PIECE_LEN) {
        folder.write(piece)?;
    }
    Ok(())
}

// The steps of a save. Each is a function of its own, so that its contract says which stage of the save it leads to, what is
// safe where it fails, and why it fails, whatever came before it: `start` is the folder as the save began.

/// The first step: the temporary file is there, and holds no bytes.
fn create_temp<F: Folder>(folder: &mut F, temp: &str) -> Result<(), FolderFault>
    ensures step { F.meaning.keeps folder.old → (at path bytes : List ℕ) → temp.now ≡ at → at ≢ path
        → OnOk result (HoldsOpen F.meaning F.opened at path bytes [] folder.old folder.new) }
    ensures spares { F.meaning.keeps folder.old → (at path bytes : List ℕ) → temp.now ≡ at → at ≢ path
        → SparesFile F.meaning at path bytes folder.old folder.new }
    ensures reason { F.meaning.keeps folder.old → (at : List ℕ) → temp.now ≡ at → IfErr result (HasReason
        (is_there (F.meaning.folders folder.old) (folder_of at)) (F.meaning.faults folder.old) (F.meaning.faults folder.new)) }

    ensures mode { OnOk result (IsWriting (F.opened folder.new)) }
    ensures last { F.meaning.keeps folder.old → OnErr result (F.meaning.last_call folder.new ≡ FolderCall.Create) }
    ensures places { F.meaning.keeps folder.old → F.meaning.folders folder.new ≡ F.meaning.folders folder.old }
    ensures kept { F.meaning.keeps folder.old ↔ F.meaning.keeps folder.new }
{
    folder.create(temp)
}

/// The second step: the temporary file holds the bytes.
fn fill_temp<F: Folder>(folder: &mut F, bytes: &[u8]) -> Result<(), FolderFault>
    requires { IsWriting (F.opened folder.old) }

    ensures step { (temp path : List ℕ) (start : F) → HoldsOpen F.meaning F.opened temp path bytes.now [] start folder.old
        → OnOk result (HoldsOpen F.meaning F.opened temp path bytes.now bytes.now start folder.new) }
    ensures spares { (temp path : List ℕ) (start : F) → HoldsOpen F.meaning F.opened temp path bytes.now [] start folder.old
        → SparesFile F.meaning temp path bytes.now start folder.new }
    ensures reason { (temp path : List ℕ) (start : F) → HoldsOpen F.meaning F.opened temp path bytes.now [] start folder.old → IfErr result (HasReason
        (is_there (F.meaning.folders start) (folder_of temp)) (F.meaning.faults start) (F.meaning.faults folder.new)) }

    ensures mode { F.opened folder.new ≡ F.opened folder.old }
    ensures last { F.meaning.keeps folder.old → OnErr result (F.meaning.last_call folder.new ≡ FolderCall.Write) }
    ensures places { F.meaning.keeps folder.old → F.meaning.folders folder.new ≡ F.meaning.folders folder.old }
    ensures kept { F.meaning.keeps folder.old ↔ F.meaning.keeps folder.new }
{
    write_pieces(folder, bytes)
}

/// The third step: they are passed on.
fn flush_temp<F: Folder>(folder: &mut F) -> Result<(), FolderFault>
    requires { IsWriting (F.opened folder.old) }

    ensures step { (temp path bytes : List ℕ) (start : F) → HoldsOpen F.meaning F.opened temp path bytes bytes start folder.old
        → OnOk result (HoldsOpen F.meaning F.opened temp path bytes bytes start folder.new) }
    ensures spares { (temp path bytes : List ℕ) (start : F) → HoldsOpen F.meaning F.opened temp path bytes bytes start folder.old
        → SparesFile F.meaning temp path bytes start folder.new }
    ensures reason { (temp path bytes : List ℕ) (start : F) → HoldsOpen F.meaning F.opened temp path bytes bytes start folder.old → IfErr result (HasReason
        (is_there (F.meaning.folders start) (folder_of temp)) (F.meaning.faults start) (F.meaning.faults folder.new)) }

    ensures mode { F.opened folder.new ≡ F.opened folder.old }
    ensures last { F.meaning.keeps folder.old → OnErr result (F.meaning.last_call folder.new ≡ FolderCall.Flush) }
    ensures places { F.meaning.keeps folder.old → F.meaning.folders folder.new ≡ F.meaning.folders folder.old }
    ensures kept { F.meaning.keeps folder.old ↔ F.meaning.keeps folder.new }
{
    folder.flush()
}

/// The fourth step: a loss of power no longer changes them.
fn sync_temp<F: Folder>(folder: &mut F) -> Result<(), FolderFault>
    requires { IsWriting (F.opened folder.old) }

    ensures step { (temp path bytes : List ℕ) (start : F) → HoldsOpen F.meaning F.opened temp path bytes bytes start folder.old
        → OnOk result (HoldsFirm F.meaning temp path bytes start folder.new) }
    ensures spares { (temp path bytes : List ℕ) (start : F) → HoldsOpen F.meaning F.opened temp path bytes bytes start folder.old
        → SparesFile F.meaning temp path bytes start folder.new }
    ensures reason { (temp path bytes : List ℕ) (start : F) → HoldsOpen F.meaning F.opened temp path bytes bytes start folder.old → IfErr result (HasReason
        (is_there (F.meaning.folders start) (folder_of temp)) (F.meaning.faults start) (F.meaning.faults folder.new)) }

    ensures last { F.meaning.keeps folder.old → OnErr result (F.meaning.last_call folder.new ≡ FolderCall.Sync) }
    ensures places { F.meaning.keeps folder.old → F.meaning.folders folder.new ≡ F.meaning.folders folder.old }
    ensures kept { F.meaning.keeps folder.old ↔ F.meaning.keeps folder.new }
{
    folder.sync()
}

/// The last step: the temporary file becomes the file.
fn rename_temp<F: Folder>(folder: &mut F, temp: &str, path: &str) -> Result<(), FolderFault>
    ensures step { (from to bytes : List ℕ) (start : F) → temp.now ≡ from → path.now ≡ to → HoldsFirm F.meaning from to bytes start folder.old
        → OnOk result (IsInPlace F.meaning from to bytes start folder.new) }
    ensures spares { (from to bytes : List ℕ) (start : F) → temp.now ≡ from → path.now ≡ to → HoldsFirm F.meaning from to bytes start folder.old
        → SparesFile F.meaning from to bytes start folder.new }
    ensures reason { (from to bytes : List ℕ) (start : F) → temp.now ≡ from → HoldsFirm F.meaning from to bytes start folder.old → IfErr result (HasReason
        (is_there (F.meaning.folders start) (folder_of from)) (F.meaning.faults start) (F.meaning.faults folder.new)) }

    ensures last { F.meaning.keeps folder.old → OnErr result (F.meaning.last_call folder.new ≡ FolderCall.Rename) }
    ensures places { F.meaning.keeps folder.old → F.meaning.folders folder.new ≡ F.meaning.folders folder.old }
    ensures kept { F.meaning.keeps folder.old ↔ F.meaning.keeps folder.new }
{
    folder.rename(temp, path)
}

/// Saves the bytes under the temporary path, which then becomes the file's. They are synced before that, so that a loss of
/// power finds no file under its name whose bytes it can still change. A fault leaves the temporary file as it is.
pub(crate) fn save_file<F: Folder>(
    folder: &mut F,
    temp: String,
    path: String,
    bytes: &[u8],
) -> Result<(), ShardFileError>
    requires { string_bytes temp ≢ string_bytes path }

    ensures saved { F.meaning.keeps folder.old
        → OnOk result (IsSaved (string_bytes temp) (string_bytes path) bytes.now (F.meaning.files folder.old) (F.meaning.files folder.new)) }

    // A stop, and a loss of power, at any moment leaves the file as it was, or with these bytes. A saved file is not loose.
    ensures any_moment { F.meaning.keeps folder.old → SparesFile F.meaning
        (string_bytes temp) (string_bytes path) bytes.now folder.old folder.new }
    ensures firm { F.meaning.keeps folder.old → OnOk result (¬ F.meaning.loose folder.new (string_bytes path)) }

    // An error names the call that failed, and it has its reason.
    ensures step { IfErr result (IsStepOf (string_bytes temp) (string_bytes path)) }
    ensures named { F.meaning.keeps folder.old → IfErr result (λ e. F.meaning.last_call folder.new ≡ failed_call e) }
    ensures reason { F.meaning.keeps folder.old → IfErr result (λ e. HasReason
        (is_there (F.meaning.folders folder.old) (folder_of (string_bytes temp))) (F.meaning.faults folder.old) (F.meaning.faults folder.new) (blame_of e).cause) }

    ensures faults { F.meaning.keeps folder.old → OnOk result (F.meaning.faults folder.new ≡ F.meaning.faults folder.old) }
    ensures places { F.meaning.keeps folder.old → F.meaning.folders folder.new ≡ F.meaning.folders folder.old }
    ensures kept { F.meaning.keeps folder.old ↔ F.meaning.keeps folder.new }
{
    if let Err(source) = create_temp(folder, &temp) {
        return Err(ShardFileError::Create { path: temp, source });
    }
    if let Err(source) = fill_temp(folder, bytes) {
        return Err(ShardFileError::Write { path: temp, source });
    }
    if let Err(source) = flush_temp(folder) {
        return Err(ShardFileError::Flush { path: temp, source });
    }
    if let Err(source) = sync_temp(folder) {
        return Err(ShardFileError::Sync { path: temp, source });
    }
    if let Err(source) = rename_temp(folder, &temp, &path) {
        return Err(ShardFileError::Rename {
            from: temp,
            to: path,
            source,
        });
    }
    Ok(())
}

/// The temp path and the path of a shard.
fn paths_of(
    alloc: Global,
    dir_path: &str,
    file_name: &str,
    shard: usize,
    word: u32,
) -> Result<(String, String), AllocError>
    ensures { IfOk result (λ paths. (string_bytes paths.0 ≡ temp_path dir_path.now file_name.now shard word)
        × (string_bytes paths.1 ≡ shard_path dir_path.now file_name.now shard)) }
{
    let temp = temp_name(alloc, file_name, shard, word)?;
    let temp = path_of(alloc, dir_path, temp.as_str())?;
    let path = shard_path(alloc, dir_path, file_name, shard)?;
    Ok((temp, path))
}

/// Saves one shard, if its bytes were given and its names find memory.
pub(crate) fn save_shard<F: Folder, E: Drop>(
    alloc: Global,
    folder: &mut F,
    dir_path: &str,
    file_name: &str,
    shard: usize,
    word: u32,
    given: Result<Vec<u8>, E>,
) -> Result<(), ShardSaveFailure<E>>
    ensures ends { Ends dir_path.now file_name.now shard (turn_of word given result) }
    ensures saves { F.meaning.keeps folder.old → SavesOne F.meaning
        dir_path.now file_name.now shard (turn_of word given result) folder.old folder.new }
    ensures kept { F.meaning.keeps folder.old ↔ F.meaning.keeps folder.new }
{
    let Ok((temp, path)) = paths_of(alloc, dir_path, file_name, shard, word) else {
        return Err(ShardSaveFailure::Memory { shard });
    };
    match given {
        Ok(bytes) => match save_file(folder, temp, path, &bytes) {
            Ok(()) => Ok(()),
            Err(source) => Err(ShardSaveFailure::Io { shard, source }),
        },
        Err(source) => Err(ShardSaveFailure::Serialize { shard, source }),
    }
}
