//! A shard that is written in two pieces.
use lru_test_folders::saves::{Given, save_in_turns};
use lru_test_folders::told::{joined, told_save};
use pingora_lru_files::persistence::MemoryFolder;
use std::alloc::{AllocError, Global};
use std::test::Fail;

/// How the answer begins where the one shard is not saved.
const FAILED: &str = "All 1 shards failed to save; see prior warnings for per-shard causes.\n";

/// A call of a save of one shard of 8193 bytes, after the one that makes the folder: how the answer begins and what comes then
/// where it fails, whether the shard is saved over the older file, and how many bytes the temp file then has.
struct Call {
    number: u64,
    begins: &'static str,
    text: &'static str,
    is_saved: bool,
    temp: Option<usize>,
}

static CALLS: [Call; 7] = [
    Call {
        number: 1,
        begins: FAILED,
        text: "failed to save shard 0: failed to create c.0.0000002a.tmp: input or output failed",
        is_saved: false,
        temp: None,
    },
    Call {
        number: 2,
        begins: FAILED,
        text: "failed to save shard 0: failed to write to c.0.0000002a.tmp: input or output failed",
        is_saved: false,
        temp: Some(0),
    },
    Call {
        number: 3,
        begins: FAILED,
        text: "failed to save shard 0: failed to write to c.0.0000002a.tmp: input or output failed",
        is_saved: false,
        temp: Some(8192),
    },
    Call {
        number: 4,
        begins: FAILED,
        text: "failed to save shard 0: failed to flush temp file c.0.0000002a.tmp: input or output failed",
        is_saved: false,
        temp: Some(8193),
    },
    Call {
        number: 5,
        begins: FAILED,
        text: "failed to save shard 0: failed to sync c.0.0000002a.tmp: input or output failed",
        is_saved: false,
        temp: Some(8193),
    },
    Call {
        number: 6,
        begins: FAILED,
        text: "failed to save shard 0: failed to rename file from c.0.0000002a.tmp to c.0: input or output failed",
        is_saved: false,
        temp: Some(8193),
    },
    // No call is left.
    Call {
        number: 7,
        begins: "",
        text: "saved 1 failed 0",
        is_saved: true,
        temp: None,
    },
];

/// How many bytes a file has that is there.
fn len_of(file: Option<&[u8]>) -> Option<usize> {
    match file {
        Some(bytes) => Some(bytes.len()),
        None => None,
    }
}

/// Whether the folder has the files that are left then, of which the saved one has these bytes.
fn is_left(folder: &MemoryFolder, call: &Call, bytes: &[u8]) -> bool {
    let file: &[u8] = if call.is_saved { bytes } else { b"old" };
    let has_temp = len_of(folder.get("c.0.0000002a.tmp")) == call.temp;
    has_temp & (folder.get("c.0") == Some(file))
}

/// Whether a save of that shard over an older file, where this call fails, tells so, and leaves such files.
fn ends_so(alloc: Global, call: &Call, bytes: &[u8]) -> Result<bool, AllocError> {
    let mut folder = MemoryFolder::new(alloc).with("c.0", b"old")?;
    folder.fail_at(call.number, 0);
    let saved = save_in_turns(alloc, &mut folder, "", &[42], Given::Bytes(bytes));
    let told = told_save(alloc, &saved)?;
    let text = joined(alloc, &[call.begins, call.text, "\n"])?;
    Ok((told.as_str() == text.as_str()) & is_left(&folder, call, bytes))
}

/// The first call, if there is one, at which it ends otherwise.
fn wrong_call(alloc: Global) -> Result<Option<u64>, AllocError> {
    let bytes = vec![in alloc; 7; 8193]?;
    for call in &CALLS {
        if !ends_so(alloc, call, &bytes)? {
            return Ok(Some(call.number));
        }
    }
    Ok(None)
}

#[test]
fn each_call_of_two_pieces(rt: HostRuntime) -> Result<(), Fail> {
    assert_eq!(rt; wrong_call(rt.alloc())?, None);
    Ok(())
}
