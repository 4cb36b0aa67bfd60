//! A save of two shards over older files, of which one call fails, or all from one on.
use log::sink;
use lru_test_folders::loads::{Wanted, load_logging};
use lru_test_folders::saves::{Given, Refusable, save_logging};
use lru_test_folders::told::told_names;
use pingora_lru_files::persistence::{MemoryFolder, ShardSaveError, ShardSaveSetupError};
use std::alloc::{AllocError, Global};
use std::test::Fail;

/// How a save of two shards ended.
#[derive(Clone, Copy, PartialEq, Eq)]
enum Ended {
    /// The folder was not made.
    NotMade,
    /// Both shards failed.
    BothFailed,
    /// One shard is saved, and one failed.
    OneFailed,
    Otherwise,
}

fn end_of(saved: &Refusable) -> Ended {
    match saved {
        Ok(report) => {
            let failures = report.failures.len();
            if (report.saved_shards, report.failed_shards, failures) == (1, 1, 1) {
                Ended::OneFailed
            } else {
                Ended::Otherwise
            }
        }
        Err(ShardSaveError::AllShardsFailed { failures, .. }) => {
            if failures.len() == 2 {
                Ended::BothFailed
            } else {
                Ended::Otherwise
            }
        }
        Err(ShardSaveError::Setup(ShardSaveSetupError::CreateDir { .. })) => Ended::NotMade,
        Err(ShardSaveError::Setup(ShardSaveSetupError::Memory)) => Ended::Otherwise,
    }
}

/// What fails of the calls of a save.
#[derive(Clone, Copy)]
enum Fault {
    /// The call of this number.
    At(u64),
    /// That call and all after it.
    From(u64),
}

/// The bytes that are saved.
static GIVEN: [&[u8]; 2] = [b"ab", b"cd"];

/// Saves `ab` and `cd` over older files with a fault, of a write after one byte, and mends the folder.
fn save(alloc: Global, fault: Fault) -> Result<(Ended, MemoryFolder), AllocError> {
    let mut folder = MemoryFolder::new(alloc)
        .with("d/c.0", b"old")?
        .with("d/c.1", b"old")?;
    match fault {
        Fault::At(call) => folder.fail_at(call, 1),
        Fault::From(call) => folder.stop_at(call, 1),
    }
    let (saved, _) = save_logging(alloc, &mut folder, ("d", 2, Given::Each(&GIVEN), None));
    folder.mend();
    Ok((end_of(&saved), folder))
}

/// Whether a load finds both shards, and its cleanup leaves no other file.
fn is_found_whole(alloc: Global, folder: &mut MemoryFolder) -> Result<bool, AllocError> {
    let log = sink::Memory::new(alloc);
    let report = load_logging(alloc, folder, &log, ("d", 2, Wanted::Any))?;
    let counts = (report.loaded_shards, report.temp_cleanup?.failures.len());
    Ok((counts == (2, 0)) & (told_names(alloc, folder, "d")?.as_str() == "c.0 c.1 "))
}

/// How a save ends, with the bytes of both files then.
struct Left {
    ended: Ended,
    zero: &'static [u8],
    one: &'static [u8],
}

/// The calls from the first number up to the last one, which is left out: how the save ends where one of them fails
/// alone and where all from it on do.
struct Calls {
    first: u64,
    last: u64,
    alone: Left,
    stopped: Left,
}

static CALLS: [Calls; 3] = [
    Calls {
        first: 0,
        last: 1,
        alone: Left {
            ended: Ended::NotMade,
            zero: b"old",
            one: b"old",
        },
        stopped: Left {
            ended: Ended::NotMade,
            zero: b"old",
            one: b"old",
        },
    },
    Calls {
        first: 1,
        last: 6,
        alone: Left {
            ended: Ended::OneFailed,
            zero: b"old",
            one: b"cd",
        },
        stopped: Left {
            ended: Ended::BothFailed,
            zero: b"old",
            one: b"old",
        },
    },
    Calls {
        first: 6,
        last: 11,
        alone: Left {
            ended: Ended::OneFailed,
            zero: b"ab",
            one: b"old",
        },
        stopped: Left {
            ended: Ended::OneFailed,
            zero: b"ab",
            one: b"old",
        },
    },
];

/// Whether the files have these bytes.
fn is_left(folder: &MemoryFolder, left: &Left) -> bool {
    (folder.get("d/c.0") == Some(left.zero)) & (folder.get("d/c.1") == Some(left.one))
}

/// Whether a save with this fault ends so and leaves these files, which a load then finds.
fn ends_so(alloc: Global, fault: Fault, left: &Left) -> Result<bool, AllocError> {
    let (ended, mut folder) = save(alloc, fault)?;
    let is_so = (ended == left.ended) & is_left(&folder, left);
    Ok(is_so & is_found_whole(alloc, &mut folder)?)
}

/// Whether saves end so where this call fails alone, and where all fail from it on.
fn both_end_so(alloc: Global, call: u64, calls: &Calls) -> Result<bool, AllocError> {
    let ends_alone = ends_so(alloc, Fault::At(call), &calls.alone)?;
    Ok(ends_alone & ends_so(alloc, Fault::From(call), &calls.stopped)?)
}

/// The first call, if there is one, at which a save ends otherwise.
fn wrong_call(alloc: Global) -> Result<Option<u64>, AllocError> {
    for calls in &CALLS {
        for call in calls.first..calls.last {
            if !both_end_so(alloc, call, calls)? {
                return Ok(Some(call));
            }
        }
    }
    Ok(None)
}

#[test]
fn every_fault_of_a_save(rt: HostRuntime) -> Result<(), Fail> {
    assert_eq!(rt; wrong_call(rt.alloc())?, None);
    Ok(())
}
