//! A file read whole.
ghost use Rattle.std.specs.Prelude.{◌≡◌, ◌≢◌, ◌↔◌, ◌<◌, ◌≤◌, ℕ, List, length, IfOk, IfErr, OnOk};
ghost use Rattle.std.specs.FinMap.{get};
ghost use Rattle.lru_folder.specs.Folder.{IsReading, Reading};
ghost use Rattle.lru_generations.specs.Touching.{TouchesNothing};
ghost use Rattle.lru_generations.specs.Reading.{IfFolder, HasReadReason, IsFound};

use crate::file_errors::{CallFault, ReadError};
use lru_folder::fault::FolderFault;
use lru_folder::folder::Folder;
use lru_folder::folder_call::FolderCall;
use std::alloc::Global;

// The most bytes that are asked for at once.
const PIECE_LEN: usize = 65_536;

/// What was found at a path.
#[derive(Debug, Drop)]
pub enum Found {
    /// The file is not there.
    Nothing,
    /// The bytes of the file.
    Bytes(Vec<u8>),
    /// The file is longer than was asked for. None of its bytes was read.
    TooLong,
}

// The bytes of the file that was just opened, of which there are so many, read in pieces. No memory is asked for by that
// number: it is for as many bytes as have come, or twice as many, and a piece.
fn read_opened<F: Folder>(alloc: Global, folder: &mut F, len: u64) -> Result<Vec<u8>, ReadError>
    requires { IsReading (F.opened folder.old) }
    ensures whole { F.meaning.keeps folder.old → (left : List ℕ) → F.opened folder.old ≡ Reading left → len ≡ length left → IfOk result (λ bytes. bytes.items ≡ left) }
    ensures touches { F.meaning.keeps folder.old → TouchesNothing F.meaning folder.old folder.new }
    ensures named { F.meaning.keeps folder.old → IfErr result (λ e. IfFolder e (λ fault. F.meaning.last_call folder.new ≡ fault.call)) }
    ensures reason { F.meaning.keeps folder.old → IfErr result (HasReadReason (F.meaning.faults folder.old) (F.meaning.faults folder.new)) }
    ensures files { F.meaning.keeps folder.old → F.meaning.files folder.new ≡ F.meaning.files folder.old }
    ensures faults { F.meaning.keeps folder.old → OnOk result (F.meaning.faults folder.new ≡ F.meaning.faults folder.old) }
    ensures places { F.meaning.keeps folder.old → F.meaning.folders folder.new ≡ F.meaning.folders folder.old }
    ensures kept { F.meaning.keeps folder.old ↔ F.meaning.keeps folder.new }
{
    let len = len as usize;
    let mut bytes = Vec::new(alloc);
    while bytes.len() < len {
        let piece = match folder.read(PIECE_LEN.min(len - bytes.len())) {
            Ok(piece) => piece,
            Err(source) => {
                let call = FolderCall::Read;
                return Err(ReadError::Folder(CallFault { call, source }));
            }
        };
        if piece.is_empty() {
            break;
        }
        bytes.extend_from_slice(&piece)?;
    }
    Ok(bytes)
}

/// What stands at the path: the bytes of the file, where there are at most so many. At every moment all files are as they
/// were.
///
/// A file that is longer is not read. So the caller says how much memory a file may take, and not the file: it is at most
/// twice the bytes that were read, and a piece of 64 KiB.
///
/// `Memory`: no room for the bytes. `Folder`: the file was not opened or not read, for which the device or memory
/// is the reason.
pub fn read_file<F: Folder>(
    alloc: Global,
    folder: &mut F,
    path: &str,
    most: u64,
) -> Result<Found, ReadError>
    ensures found { F.meaning.keeps folder.old → IfOk result (λ found. IsFound most found (get (F.meaning.files folder.old) path.now)) }
    ensures touches { F.meaning.keeps folder.old → TouchesNothing F.meaning folder.old folder.new }
    ensures named { F.meaning.keeps folder.old → IfErr result (λ e. IfFolder e (λ fault. F.meaning.last_call folder.new ≡ fault.call)) }
    ensures reason { F.meaning.keeps folder.old → IfErr result (HasReadReason (F.meaning.faults folder.old) (F.meaning.faults folder.new)) }
    ensures files { F.meaning.keeps folder.old → F.meaning.files folder.new ≡ F.meaning.files folder.old }
    ensures faults { F.meaning.keeps folder.old → OnOk result (F.meaning.faults folder.new ≡ F.meaning.faults folder.old) }
    ensures places { F.meaning.keeps folder.old → F.meaning.folders folder.new ≡ F.meaning.folders folder.old }
    ensures kept { F.meaning.keeps folder.old ↔ F.meaning.keeps folder.new }
{
    let len = match folder.open(path) {
        Ok(len) => len,
        Err(FolderFault::NotFound) => return Ok(Found::Nothing),
        Err(source) => {
            let call = FolderCall::Open;
            return Err(ReadError::Folder(CallFault { call, source }));
        }
    };
    if len > most {
        return Ok(Found::TooLong);
    }
    match read_opened(alloc, folder, len) {
        Ok(bytes) => Ok(Found::Bytes(bytes)),
        Err(error) => Err(error),
    }
}
