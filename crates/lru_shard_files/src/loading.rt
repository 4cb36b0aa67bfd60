//! Shards loaded from their files.
ghost use Rattle.std.specs.Prelude.{◌≡◌, ◌≢◌, ◌↔◌, ◌<◌, ◌≤◌, ℕ, List, [], false, length, IfOk, IfErr, IsErrAnd, Option, option_map, string_bytes, vec_len};
ghost use Rattle.lru_folder.specs.Blames.{failed_call};
ghost use Rattle.std.specs.FinMap.{get};
ghost use Rattle.lru_folder.specs.Folder.{IsReading, Reading};
ghost use Rattle.lru_shard_files.specs.LoadingInside.{outcome_of, IfFolder, IsReadDeviceFault, IsReadFault};
ghost use Rattle.lru_shard_files.specs.Loading.{IfIo, IsDeviceFault, IsTrueTurn, IsUnread, LoadsOne, LoadsShards, LoadTurn, TurnCalls};
ghost use Rattle.lru_folder.specs.Names.{has_slash, shard_path};
ghost use Rattle.lru_folder.specs.Sparing.{SparesAllBut};

use crate::cleanup::remove_temp_files;
use log::{Log, info, warn};
use lru_folder::errors::{ShardFileError, ShardLoadFailure};
use lru_folder::fault::FolderFault;
use lru_folder::folder::Folder;
use lru_folder::folder_call::FolderCall;
use lru_folder::names::shard_path;
use lru_folder::reports::{ShardLoadReport, TempFileCleanupReport};
use std::alloc::{AllocError, Global};
use std::fmt::Display;

/// The most bytes that are asked for at once.
const PIECE_LEN: usize = 8192;

/// Why an open file was not read to its end.
#[derive(Drop)]
enum FileReadError {
    Folder(FolderFault),
    Memory,
}

impl From<AllocError> for FileReadError {
    ghost use Rattle.lru_shard_files.specs.declared.loading.FileReadError.TheVariants.{Memory};

    ghost from_gives = { λ _ error. error ≡ Memory };

    fn from(_: AllocError) -> Self {
        FileReadError::Memory
    }
}

impl From<FolderFault> for FileReadError {
    ghost use Rattle.lru_shard_files.specs.declared.loading.FileReadError.TheVariants as variant;

    ghost from_gives = { λ fault error. error ≡ variant.Folder fault };

    fn from(fault: FolderFault) -> Self {
        FileReadError::Folder(fault)
    }
}

/// The bytes of the file that was just opened, of which there are so many, read in pieces.
fn read_opened<F: Folder>(alloc: Global, folder: &mut F, len: u64) -> Result<Vec<u8>, FileReadError>
    requires { IsReading (F.opened folder.old) }
    ensures whole { F.meaning.keeps folder.old → (left : List ℕ) → F.opened folder.old ≡ Reading left → len ≡ length left → IfOk result (λ bytes. bytes.items ≡ left) }
    ensures cause { F.meaning.keeps folder.old → IfErr result (IsReadFault (F.meaning.faults folder.old < F.meaning.faults folder.new)) }
    ensures named { F.meaning.keeps folder.old → IfErr result (λ e. IfFolder e (F.meaning.last_call folder.new ≡ FolderCall.Read)) }
    ensures told { F.meaning.keeps folder.old → F.meaning.faults folder.old < F.meaning.faults folder.new → IsErrAnd result IsReadDeviceFault }
    ensures files { F.meaning.keeps folder.old → F.meaning.files folder.new ≡ F.meaning.files folder.old }
    ensures spares { F.meaning.keeps folder.old → SparesAllBut F.meaning [] folder.old folder.new }
    ensures later { F.meaning.keeps folder.old → F.meaning.faults folder.old ≤ F.meaning.faults folder.new }
    ensures places { F.meaning.keeps folder.old → F.meaning.folders folder.new ≡ F.meaning.folders folder.old }
    ensures kept { F.meaning.keeps folder.old ↔ F.meaning.keeps folder.new }
{
    let len = len as usize;
    let mut bytes = Vec::with_capacity(alloc, len)?;
    while bytes.len() < len {
        let piece = folder.read(PIECE_LEN.min(len - bytes.len()))?;
        if piece.is_empty() {
            break;
        }
        bytes.extend_from_slice(&piece)?;
    }
    Ok(bytes)
}

/// The bytes of a shard's file, or `None` where it is not there.
fn read_shard<F: Folder, E>(
    alloc: Global,
    folder: &mut F,
    dir_path: &str,
    file_name: &str,
    shard: usize,
) -> Result<Option<Vec<u8>>, ShardLoadFailure<E>>
    ensures found { F.meaning.keeps folder.old → IfOk result (λ bytes. option_map (λ b. b.items) bytes ≡ get (F.meaning.files folder.old) (shard_path dir_path.now file_name.now shard)) }
    ensures unread { IfErr result (IsUnread (F.meaning.keeps folder.old) (F.meaning.faults folder.old < F.meaning.faults folder.new) (shard_path dir_path.now file_name.now shard) shard) }
    ensures named { F.meaning.keeps folder.old → IfErr result (λ f. IfIo f (λ e. F.meaning.last_call folder.new ≡ failed_call e)) }
    ensures told { F.meaning.keeps folder.old → F.meaning.faults folder.old < F.meaning.faults folder.new → IsErrAnd result IsDeviceFault }
    ensures files { F.meaning.keeps folder.old → F.meaning.files folder.new ≡ F.meaning.files folder.old }
    ensures spares { F.meaning.keeps folder.old → SparesAllBut F.meaning [] folder.old folder.new }
    ensures later { F.meaning.keeps folder.old → F.meaning.faults folder.old ≤ F.meaning.faults folder.new }
    ensures places { F.meaning.keeps folder.old → F.meaning.folders folder.new ≡ F.meaning.folders folder.old }
    ensures kept { F.meaning.keeps folder.old ↔ F.meaning.keeps folder.new }
{
    let Ok(path) = shard_path(alloc, dir_path, file_name, shard) else {
        return Err(ShardLoadFailure::Memory { shard });
    };
    let len = match folder.open(&path) {
        Ok(len) => len,
        Err(FolderFault::NotFound) => return Ok(None),
        Err(source) => {
            let source = ShardFileError::Open { path, source };
            return Err(ShardLoadFailure::Io { shard, source });
        }
    };
    match read_opened(alloc, folder, len) {
        Ok(bytes) => Ok(Some(bytes)),
        Err(FileReadError::Memory) => Err(ShardLoadFailure::Memory { shard }),
        Err(FileReadError::Folder(source)) => {
            let source = ShardFileError::Read { path, source };
            Err(ShardLoadFailure::Io { shard, source })
        }
    }
}

/// What became of a shard that did not fail.
#[derive(Clone, Copy)]
enum ShardLoad {
    Loaded,
    Missing,
}

/// Loads one shard: the closure gets the bytes of its file, if that is there.
fn load_from_file<F: Folder, E, C: FnMut(usize, &[u8]) -> Result<(), E>>(
    alloc: Global,
    folder: &mut F,
    dir_path: &str,
    file_name: &str,
    shard: usize,
    deserialize: &mut C,
) -> Result<ShardLoad, ShardLoadFailure<E>>
    requires { C.IsAlwaysCallable deserialize.old }
    ensures callable { C.IsAlwaysCallable deserialize.new }
    ensures turn { (turn : LoadTurn E) × (result ≡ outcome_of shard turn)
        × TurnCalls C.step shard deserialize.old turn deserialize.new
        × IsTrueTurn (F.meaning.keeps folder.old) (F.meaning.faults folder.old < F.meaning.faults folder.new) (F.meaning.files folder.old) (shard_path dir_path.now file_name.now shard) shard turn
        × (F.meaning.keeps folder.old → LoadsOne F.meaning
        dir_path.now file_name.now shard turn folder.old folder.new) }
    ensures files { F.meaning.keeps folder.old → F.meaning.files folder.new ≡ F.meaning.files folder.old }
    ensures later { F.meaning.keeps folder.old → F.meaning.faults folder.old ≤ F.meaning.faults folder.new }
    ensures places { F.meaning.keeps folder.old → F.meaning.folders folder.new ≡ F.meaning.folders folder.old }
    ensures kept { F.meaning.keeps folder.old ↔ F.meaning.keeps folder.new }
{
    let Some(bytes) = read_shard(alloc, folder, dir_path, file_name, shard)? else {
        return Ok(ShardLoad::Missing);
    };
    match deserialize(shard, &bytes) {
        Ok(()) => Ok(ShardLoad::Loaded),
        Err(source) => Err(ShardLoadFailure::Deserialize { shard, source }),
    }
}

/// Logs each failure of a cleanup, and then what it did, if it did anything.
fn log_cleanup<L: Log>(log: &L, cleanup: &Result<TempFileCleanupReport, AllocError>) {
    match cleanup {
        Ok(report) => {
            for failure in &report.failures {
                warn!(log; "{failure}");
            }
            let removed = report.removed_files;
            let failures = report.failures.len();
            if removed > 0 || failures > 0 {
                info!(log; "Temp file cleanup completed. Removed: {removed}, Errors: {failures}");
            }
        }
        Err(_) => warn!(log; "Temp file cleanup failed: out of memory"),
    }
}

/// Logs how many of the shards were loaded.
fn log_load<L: Log, E>(log: &L, shards: usize, report: &ShardLoadReport<E>) {
    let loaded = report.loaded_shards;
    let missing = report.missing_shards;
    let errored = report.error_shards;
    if loaded == shards {
        info!(log; "Successfully loaded {loaded}/{shards} shards.");
    } else if loaded == 0 && errored == 0 {
        info!(log; "No persisted LRU shards found. LRU will start empty.");
    } else {
        warn!(log; "Loaded {loaded}/{shards} shards (missing: {missing}, errored: {errored}). LRU state may be incomplete.");
    }
}

/// Loads shards from their files, from shard 0 up, and then removes the temp files, which are all files of
/// the folder whose names begin with `file_name` and end in `.tmp`, those of another name that begins so among them.
///
/// The closure gets a shard's number and the bytes of its file. A shard is missing where its file is not there; it has
/// failed where the folder or memory kept its file back, and where the closure refused the bytes. A failure stops
/// nothing. `AllocError`: there was no room for one failure a shard, and neither the folder nor the closure was called.
pub fn load_shards<F: Folder, L: Log, E: Display, C: FnMut(usize, &[u8]) -> Result<(), E>>(
    alloc: Global,
    folder: &mut F,
    log: &L,
    dir_path: &str,
    file_name: &str,
    shards: usize,
    deserialize: &mut C,
) -> Result<ShardLoadReport<E>, AllocError>
    requires name { has_slash file_name.now ≡ false }
    requires callable { C.IsAlwaysCallable deserialize.old }

    ensures loads { LoadsShards F.meaning
        C.step dir_path.now file_name.now shards deserialize.old folder.old result deserialize.new folder.new }

    ensures callable { C.IsAlwaysCallable deserialize.new }
{
    let mut failures = Vec::with_capacity(alloc, shards)?;
    let mut loaded_shards = 0;
    let mut missing_shards = 0;
    for shard in 0..shards {
        match load_from_file(alloc, folder, dir_path, file_name, shard, deserialize) {
            Ok(ShardLoad::Loaded) => loaded_shards += 1,
            Ok(ShardLoad::Missing) => missing_shards += 1,
            Err(failure) => {
                warn!(log; "{failure}. Skipping shard.");
                failures.push(failure).unwrap();
            }
        }
    }
    let temp_cleanup = remove_temp_files(alloc, folder, dir_path, file_name);
    log_cleanup(log, &temp_cleanup);
    let report = ShardLoadReport {
        loaded_shards,
        missing_shards,
        error_shards: failures.len(),
        failures,
        temp_cleanup,
    };
    log_load(log, shards, &report);
    Ok(report)
}
