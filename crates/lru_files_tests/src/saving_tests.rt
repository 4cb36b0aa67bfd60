//! What a save leaves, reports and logs.
use log::sink;
use lru_test_folders::saves::{Given, save_in_turns, save_logging, save_noting};
use lru_test_folders::told::{are_lines, told_names, told_save};
use pingora_lru_files::persistence::{
    Folder, FolderFault, HostFolder, MemoryFolder, ShardSaveError, ShardSaveSetupError,
};
use rand::rngs::StdRng;
use rand_core::{Rng, SeedableRng};
use std::alloc::{AllocError, Global};
use std::fs;
use std::test::Fail;

/// A save of `abc` into an empty folder: how many shards, which of them has no bytes to give, and which call fails; then what
/// the save tells and logs, the names that are there, and the bytes of shards 0, 1 and 2.
struct Row {
    shards: usize,
    refuses: usize,
    fails: u64,
    text: &'static str,
    lines: &'static [(&'static str, &'static str)],
    names: &'static str,
    files: &'static [Option<&'static [u8]>],
}

const BYTES: Option<&'static [u8]> = Some(b"abc");

static SAVES: [Row; 4] = [
    Row {
        shards: 2,
        refuses: 9,
        fails: 99,
        text: "saved 2 failed 0\n",
        lines: &[("[INFO", "] Successfully saved 2/2 shards.")],
        names: "c.0 c.1 ",
        files: &[BYTES, BYTES, None],
    },
    Row {
        shards: 3,
        refuses: 1,
        fails: 99,
        text: "saved 2 failed 1\nfailed to serialize shard 1: no\n",
        lines: &[
            (
                "[WARN",
                "] failed to serialize shard 1: no. Skipping shard.",
            ),
            (
                "[WARN",
                "] Saved 2/3 shards; 1 shards failed. Persisted LRU state may be incomplete.",
            ),
        ],
        names: "c.0 c.2 ",
        files: &[BYTES, None, BYTES],
    },
    Row {
        shards: 0,
        refuses: 9,
        fails: 99,
        text: "All 0 shards failed to save; see prior warnings for per-shard causes.\n",
        lines: &[("[INFO", "] Successfully saved 0/0 shards.")],
        names: "",
        files: &[None, None, None],
    },
    Row {
        shards: 2,
        refuses: 9,
        fails: 0,
        text: "failed to create d: input or output failed\n",
        lines: &[],
        names: "not found",
        files: &[None, None, None],
    },
];

/// Whether the folder has these files.
fn holds(folder: &MemoryFolder, files: &[Option<&'static [u8]>]) -> bool {
    let left = [
        folder.get("d/c.0"),
        folder.get("d/c.1"),
        folder.get("d/c.2"),
    ];
    left.as_slice() == files
}

fn ends_so(alloc: Global, row: &Row) -> Result<bool, AllocError> {
    let mut folder = MemoryFolder::new(alloc);
    folder.fail_at(row.fails, 0);
    let save = ("d", row.shards, Given::Bytes(b"abc"), Some(row.refuses));
    let (saved, logged) = save_logging(alloc, &mut folder, save);
    let is_told = told_save(alloc, &saved)?.as_str() == row.text;
    let is_listed = told_names(alloc, &mut folder, "d")?.as_str() == row.names;
    Ok(is_told & is_listed & holds(&folder, row.files) & are_lines(&logged, row.lines))
}

/// The first row, if there is one, that ends otherwise.
fn wrong_row(alloc: Global) -> Result<Option<usize>, AllocError> {
    for (place, row) in SAVES.iter().enumerate() {
        if !ends_so(alloc, row)? {
            return Ok(Some(place));
        }
    }
    Ok(None)
}

#[test]
fn saves_and_what_they_leave(rt: HostRuntime) -> Result<(), Fail> {
    assert_eq!(rt; wrong_row(rt.alloc())?, None);
    Ok(())
}

/// Whether a save whose folder is not made asks for no shard, and draws no word.
fn asks_for_none(alloc: Global) -> bool {
    let log = sink::Memory::new(alloc);
    let mut rng = StdRng::seed_from_u64(7);
    let mut folder = MemoryFolder::new(alloc);
    folder.fail_at(0, 0);
    let mut asked = Vec::new(alloc);
    let save = ("d", 2, Given::Bytes(b""), None);
    let refused = save_noting(alloc, &mut folder, &mut rng, &log, "c", save, &mut asked);
    let is_refused = matches!(
        refused,
        Err(ShardSaveError::Setup(ShardSaveSetupError::CreateDir { .. }))
    );
    let is_drawn = rng.next_u32() != StdRng::seed_from_u64(7).next_u32();
    is_refused & asked.is_empty() & !is_drawn
}

/// Whether a save of three shards asks for each of them once, from shard 0 up.
fn asks_for_each(alloc: Global) -> bool {
    let log = sink::Memory::new(alloc);
    let mut rng = StdRng::seed_from_u64(7);
    let mut folder = MemoryFolder::new(alloc);
    let mut asked = Vec::new(alloc);
    let save = ("d", 3, Given::Bytes(b""), None);
    let saved = save_noting(alloc, &mut folder, &mut rng, &log, "c", save, &mut asked);
    let count = match saved {
        Ok(report) => report.saved_shards,
        Err(_) => 0,
    };
    (count == 3) & (asked.as_slice() == [0, 1, 2].as_slice())
}

#[test]
fn what_is_asked_for(rt: HostRuntime) -> Result<(), Fail> {
    assert_eq!(rt;
        (asks_for_none(rt.alloc()), asks_for_each(rt.alloc())),
        (true, true)
    );
    Ok(())
}

/// The temp file of that save.
const TEMP: &str = "c.0.0000002a.tmp";

/// A save that is stopped at a call, a write after so many bytes: how many name changes since the last sync a loss of power
/// keeps, if there is one, and what the file and the temp file then have. What was not safe is an `X`.
struct Stop {
    call: u64,
    part: usize,
    loss: Option<usize>,
    file: &'static [u8],
    temp: Option<&'static [u8]>,
}

static STOPS: [Stop; 15] = [
    // A stop at each call leaves the file old or new, and the temp file missing or a front of the new bytes.
    Stop {
        call: 0,
        part: 0,
        loss: None,
        file: b"old",
        temp: None,
    },
    Stop {
        call: 1,
        part: 0,
        loss: None,
        file: b"old",
        temp: Some(b""),
    },
    Stop {
        call: 1,
        part: 2,
        loss: None,
        file: b"old",
        temp: Some(b"ne"),
    },
    Stop {
        call: 2,
        part: 0,
        loss: None,
        file: b"old",
        temp: Some(b"new"),
    },
    Stop {
        call: 3,
        part: 0,
        loss: None,
        file: b"old",
        temp: Some(b"new"),
    },
    Stop {
        call: 4,
        part: 0,
        loss: None,
        file: b"old",
        temp: Some(b"new"),
    },
    Stop {
        call: 5,
        part: 0,
        loss: None,
        file: b"new",
        temp: None,
    },
    // A loss of power leaves the file old or new, whatever it makes of the temp file. Here at the write: the temp file was
    // made, and no sync came after.
    Stop {
        call: 1,
        part: 0,
        loss: Some(0),
        file: b"old",
        temp: None,
    },
    Stop {
        call: 1,
        part: 0,
        loss: Some(1),
        file: b"old",
        temp: Some(b"X"),
    },
    // At the sync.
    Stop {
        call: 3,
        part: 0,
        loss: Some(0),
        file: b"old",
        temp: None,
    },
    Stop {
        call: 3,
        part: 0,
        loss: Some(1),
        file: b"old",
        temp: Some(b"X"),
    },
    Stop {
        call: 3,
        part: 0,
        loss: Some(9),
        file: b"old",
        temp: Some(b"X"),
    },
    // At the rename.
    Stop {
        call: 4,
        part: 0,
        loss: Some(0),
        file: b"old",
        temp: Some(b"new"),
    },
    // Not stopped.
    Stop {
        call: 9,
        part: 0,
        loss: Some(0),
        file: b"old",
        temp: Some(b"new"),
    },
    Stop {
        call: 9,
        part: 0,
        loss: Some(1),
        file: b"new",
        temp: None,
    },
];

/// Saves `new` over `old` with the word 42, stopped at the n-th call after the one that makes the folder.
fn stopped(alloc: Global, n: u64, part: usize) -> Result<MemoryFolder, AllocError> {
    let mut folder = MemoryFolder::new(alloc).with("c.0", b"old")?;
    folder.stop_at(n.saturating_add(1), part);
    drop(save_in_turns(alloc, &mut folder, "", &[42], Given::Bytes(b"new")));
    folder.mend();
    Ok(folder)
}

/// Whether the file and the temp file are there with these bytes.
fn has_so(folder: &MemoryFolder, file: Option<&[u8]>, temp: Option<&[u8]>) -> bool {
    (folder.get("c.0") == file) & (folder.get(TEMP) == temp)
}

/// Whether such a save leaves that.
fn leaves_so(alloc: Global, stop: &Stop) -> Result<bool, AllocError> {
    let folder = stopped(alloc, stop.call, stop.part)?;
    match stop.loss {
        Some(names) => {
            let left = folder.after_loss(names, b'X')?;
            Ok(has_so(&left, Some(stop.file), stop.temp))
        }
        None => Ok(has_so(&folder, Some(stop.file), stop.temp)),
    }
}

/// The first row, if there is one, that ends otherwise.
fn wrong_stop(alloc: Global) -> Result<Option<usize>, AllocError> {
    for (place, stop) in STOPS.iter().enumerate() {
        if !leaves_so(alloc, stop)? {
            return Ok(Some(place));
        }
    }
    Ok(None)
}

#[test]
fn stops_and_losses_leave_old_or_new(rt: HostRuntime) -> Result<(), Fail> {
    assert_eq!(rt; wrong_stop(rt.alloc())?, None);
    Ok(())
}

/// A loss of power after the temp file took the file's name without a sync, and was removed then: how many name changes it
/// keeps, and what is there. So much would a save lose that left its sync out.
struct Loss {
    names: usize,
    file: Option<&'static [u8]>,
    temp: Option<&'static [u8]>,
}

static UNSAFE_LOSSES: [Loss; 4] = [
    Loss {
        names: 0,
        file: Some(b"old"),
        temp: None,
    },
    Loss {
        names: 1,
        file: Some(b"old"),
        temp: Some(b"X"),
    },
    Loss {
        names: 2,
        file: Some(b"X"),
        temp: None,
    },
    Loss {
        names: 3,
        file: None,
        temp: None,
    },
];

/// That folder.
fn without_sync(alloc: Global) -> Result<MemoryFolder, FolderFault> {
    let mut folder = MemoryFolder::new(alloc).with("c.0", b"old")?;
    folder.create(TEMP)?;
    folder.write(b"new")?;
    folder.rename(TEMP, "c.0")?;
    folder.remove("c.0")?;
    Ok(folder)
}

/// The first row, if there is one, that ends otherwise.
fn wrong_unsafe_loss(alloc: Global) -> Result<Option<usize>, FolderFault> {
    let folder = without_sync(alloc)?;
    for loss in &UNSAFE_LOSSES {
        let left = folder.after_loss(loss.names, b'X')?;
        if !has_so(&left, loss.file, loss.temp) {
            return Ok(Some(loss.names));
        }
    }
    Ok(None)
}

#[test]
fn a_loss_of_power_without_a_sync(rt: HostRuntime) -> Result<(), Fail> {
    assert_eq!(rt; wrong_unsafe_loss(rt.alloc())?, None);
    Ok(())
}

/// Whether a save of two empty shards, of which the second is not created, tells so. The failing call comes after the one
/// that makes the folder, and the first shard's four: it is created, flushed, synced and renamed.
fn names_its_path(alloc: Global) -> Result<bool, AllocError> {
    let mut folder = MemoryFolder::new(alloc);
    folder.fail_at(5, 0);
    let saved = save_in_turns(alloc, &mut folder, "d", &[1, 42], Given::Bytes(b""));
    let told = told_save(alloc, &saved)?;
    let wanted =
        "saved 1 failed 1\nfailed to save shard 1: failed to create d/c.1.0000002a.tmp: input or output failed\n";
    Ok((told.as_str() == wanted) & (folder.get("d/c.0") == Some(b"".as_slice())))
}

#[test]
fn a_failure_names_its_path(rt: HostRuntime) -> Result<(), Fail> {
    assert!(rt; names_its_path(rt.alloc())?);
    Ok(())
}

/// Saves two shards of `c` into a real folder, and tells that.
fn save_there<F: Folder>(alloc: Global, folder: &mut F, dir: &str) -> Result<String, AllocError> {
    let (saved, _) = save_logging(alloc, folder, (dir, 2, Given::Bytes(b"abc"), None));
    told_save(alloc, &saved)
}

/// The first two bytes of a file of a real folder, with its length.
fn read_two<F: Folder>(folder: &mut F, path: &str) -> Option<(u64, Vec<u8>)> {
    let len = folder.open(path).ok()?;
    Some((len, folder.read(2).ok()?))
}

/// Whether a save into a folder is found there. The last save is into a file, which stands where the folder should be.
fn is_found_there<F: Folder>(alloc: Global, folder: &mut F) -> Result<bool, AllocError> {
    let saved = save_there(alloc, folder, "saved_here/deep")?;
    let names = told_names(alloc, folder, "saved_here/deep")?;
    let is_read = match read_two(folder, "saved_here/deep/c.0") {
        Some((len, front)) => (len == 3) & (front.as_slice() == b"ab".as_slice()),
        None => false,
    };
    let refused = save_there(alloc, folder, "saved_here/deep/c.0")?;
    let is_saved = saved.as_str() == "saved 2 failed 0\n";
    let is_refused = refused.as_str()
        == "failed to create saved_here/deep/c.0: input or output failed\n";
    Ok(is_read & is_saved & is_refused & (names.as_str() == "c.0 c.1 "))
}

#[test]
fn a_real_folder(rt: HostRuntime) -> Result<(), Fail> {
    let is_found = is_found_there(rt.alloc(), &mut HostFolder::new(rt))?;
    let bytes = fs::read(&rt, "saved_here/deep/c.1")?;
    assert!(rt; is_found & (bytes.as_slice() == b"abc".as_slice()));
    fs::remove_dir_all(&rt, "saved_here")?;
    Ok(())
}
