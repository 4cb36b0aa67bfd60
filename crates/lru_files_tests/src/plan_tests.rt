//! Which call of a save a planned failure meets.
use lru_test_folders::saves::{Given, save_in_turns};
use lru_test_folders::told::{joined, told_save};
use pingora_lru_files::persistence::MemoryFolder;
use std::alloc::{AllocError, Global};
use std::test::Fail;

/// A call of a save of three shards after the one that makes the folder: its number, its shard, and the text of the failure
/// that it causes.
struct Call {
    number: u64,
    shard: usize,
    text: &'static str,
}

static CALLS: [Call; 15] = [
    Call {
        number: 1,
        shard: 0,
        text: "failed to save shard 0: failed to create d/c.0.0000002a.tmp: input or output failed",
    },
    Call {
        number: 2,
        shard: 0,
        text: "failed to save shard 0: failed to write to d/c.0.0000002a.tmp: input or output failed",
    },
    Call {
        number: 3,
        shard: 0,
        text: "failed to save shard 0: failed to flush temp file d/c.0.0000002a.tmp: input or output failed",
    },
    Call {
        number: 4,
        shard: 0,
        text: "failed to save shard 0: failed to sync d/c.0.0000002a.tmp: input or output failed",
    },
    Call {
        number: 5,
        shard: 0,
        text: "failed to save shard 0: failed to rename file from d/c.0.0000002a.tmp to d/c.0: input or output failed",
    },
    Call {
        number: 6,
        shard: 1,
        text: "failed to save shard 1: failed to create d/c.1.0000002b.tmp: input or output failed",
    },
    Call {
        number: 7,
        shard: 1,
        text: "failed to save shard 1: failed to write to d/c.1.0000002b.tmp: input or output failed",
    },
    Call {
        number: 8,
        shard: 1,
        text: "failed to save shard 1: failed to flush temp file d/c.1.0000002b.tmp: input or output failed",
    },
    Call {
        number: 9,
        shard: 1,
        text: "failed to save shard 1: failed to sync d/c.1.0000002b.tmp: input or output failed",
    },
    Call {
        number: 10,
        shard: 1,
        text: "failed to save shard 1: failed to rename file from d/c.1.0000002b.tmp to d/c.1: input or output failed",
    },
    Call {
        number: 11,
        shard: 2,
        text: "failed to save shard 2: failed to create d/c.2.0000002c.tmp: input or output failed",
    },
    Call {
        number: 12,
        shard: 2,
        text: "failed to save shard 2: failed to write to d/c.2.0000002c.tmp: input or output failed",
    },
    Call {
        number: 13,
        shard: 2,
        text: "failed to save shard 2: failed to flush temp file d/c.2.0000002c.tmp: input or output failed",
    },
    Call {
        number: 14,
        shard: 2,
        text: "failed to save shard 2: failed to sync d/c.2.0000002c.tmp: input or output failed",
    },
    Call {
        number: 15,
        shard: 2,
        text: "failed to save shard 2: failed to rename file from d/c.2.0000002c.tmp to d/c.2: input or output failed",
    },
];

/// The words of the save.
static WORDS: [u32; 3] = [42, 43, 44];

/// The bytes of each shard.
const BYTES: Option<&'static [u8]> = Some(b"abc");

/// The files where a call for a shard alone fails; and where all from one of its calls on fail, how the answer begins, what
/// is told of the shards after it, and the files then.
struct Shard {
    alone: &'static [Option<&'static [u8]>],
    counts: &'static str,
    after: &'static str,
    stopped: &'static [Option<&'static [u8]>],
}

static SHARDS: [Shard; 3] = [
    Shard {
        alone: &[None, BYTES, BYTES],
        counts: "All 3 shards failed to save; see prior warnings for per-shard causes.\n",
        after: "failed to save shard 1: failed to create d/c.1.0000002b.tmp: input or output failed\nfailed to save shard 2: failed to create d/c.2.0000002c.tmp: input or output failed\n",
        stopped: &[None, None, None],
    },
    Shard {
        alone: &[BYTES, None, BYTES],
        counts: "saved 1 failed 2\n",
        after: "failed to save shard 2: failed to create d/c.2.0000002c.tmp: input or output failed\n",
        stopped: &[BYTES, None, None],
    },
    Shard {
        alone: &[BYTES, BYTES, None],
        counts: "saved 2 failed 1\n",
        after: "",
        stopped: &[BYTES, BYTES, None],
    },
];

/// What is told where this call alone fails, or all from it on.
fn text_of(alloc: Global, call: &Call, is_stop: bool) -> Result<String, AllocError> {
    if !is_stop {
        return joined(alloc, &["saved 2 failed 1\n", call.text, "\n"]);
    }
    let shard = &SHARDS[call.shard % 3];
    joined(alloc, &[shard.counts, call.text, "\n", shard.after])
}

/// Whether the folder has these files.
fn holds(folder: &MemoryFolder, files: &[Option<&'static [u8]>]) -> bool {
    let left = [
        folder.get("d/c.0"),
        folder.get("d/c.1"),
        folder.get("d/c.2"),
    ];
    left.as_slice() == files
}

/// Whether the folder has the files that are left then.
fn is_left(folder: &MemoryFolder, call: &Call, is_stop: bool) -> bool {
    let shard = &SHARDS[call.shard % 3];
    if is_stop {
        holds(folder, shard.stopped)
    } else {
        holds(folder, shard.alone)
    }
}

/// An empty folder where this call alone fails, or all from it on.
fn folder_of(alloc: Global, call: &Call, is_stop: bool) -> MemoryFolder {
    let mut folder = MemoryFolder::new(alloc);
    if is_stop {
        folder.stop_at(call.number, 0);
    } else {
        folder.fail_at(call.number, 0);
    }
    folder
}

/// Whether a save of three shards of `c` into `d` tells so then, and leaves such files.
fn ends_so(alloc: Global, call: &Call, is_stop: bool) -> Result<bool, AllocError> {
    let mut folder = folder_of(alloc, call, is_stop);
    let saved = save_in_turns(alloc, &mut folder, "d", &WORDS, Given::Bytes(b"abc"));
    let told = told_save(alloc, &saved)?;
    let text = text_of(alloc, call, is_stop)?;
    Ok((told.as_str() == text.as_str()) & is_left(&folder, call, is_stop))
}

/// The first call, if there is one, at which a save ends otherwise. Where the call alone fails, the other shards are saved.
/// Where all calls fail from there on, each shard before it is saved, and none after it. Each failure is told as one of the
/// folder, none as want of memory.
fn wrong_call(alloc: Global, is_stop: bool) -> Result<Option<u64>, AllocError> {
    for call in &CALLS {
        if !ends_so(alloc, call, is_stop)? {
            return Ok(Some(call.number));
        }
    }
    Ok(None)
}

#[test]
fn one_call_fails(rt: HostRuntime) -> Result<(), Fail> {
    assert_eq!(rt; wrong_call(rt.alloc(), false)?, None);
    Ok(())
}

#[test]
fn all_calls_fail_from_one_on(rt: HostRuntime) -> Result<(), Fail> {
    assert_eq!(rt; wrong_call(rt.alloc(), true)?, None);
    Ok(())
}
