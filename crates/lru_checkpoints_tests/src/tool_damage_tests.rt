//! Damage and faults: a line that tells them, and no row.
use crate::tool_fixture::{Run, answers, empty, other_run, other_run_on_empty, saves, written};
use lru_folder::folder::Folder;
use lru_memory_folder::memory_folder::MemoryFolder;
use std::alloc::{AllocError, Global};
use std::test::Fail;

// A folder with two checkpoints.
fn with_two(alloc: Global) -> Result<MemoryFolder, AllocError> {
    let mut folder = empty(alloc)?;
    let first = saves(alloc, &mut folder, "1 1 1\n", "generation 0 rows 1\n")?;
    let second = saves(alloc, &mut folder, "1 2 1\n", "generation 1 rows 1\n")?;
    if first & second {
        Ok(folder)
    } else {
        Err(AllocError)
    }
}

// A folder with two checkpoints, a file of which has the byte at this place changed.
fn with_changed(alloc: Global, path: &str, place: usize) -> Result<MemoryFolder, AllocError> {
    let folder = with_two(alloc)?;
    let mut bytes = Vec::new(alloc);
    let Some(old) = folder.get(path) else {
        return Err(AllocError);
    };
    bytes.extend_from_slice(old)?;
    let Some(byte) = bytes.get_mut(place) else {
        return Err(AllocError);
    };
    *byte ^= 1;
    folder.with(path, &bytes)
}

#[rattlefmt::skip]
static DAMAGED_FRAME: [Run; 7] = [
    ("check d c", "", 1, "generation 1 damaged: shard 2: damaged check\ngeneration 0 whole\n"),
    ("show d c", "", 0, "generation 1 damaged: shard 2: damaged check\ngeneration 0\n1 1 1\n"),
    ("show --before d c", "", 1, "no checkpoint\n"),
    ("save d c", "1 3 1\n", 0, "generation 2 rows 1\ngeneration 1 damaged: shard 2: damaged check\n"),
    ("show --before d c", "", 0, "generation 1 damaged: shard 2: damaged check\ngeneration 0\n1 1 1\n"),
    ("save d c", "1 4 1\n", 0, "generation 3 rows 1\n"),
    ("check d c", "", 0, "generation 3 whole\ngeneration 2 whole\n"),
];

#[test]
fn a_damaged_frame_of_the_newest_is_passed_over(rt: HostRuntime) -> Result<(), Fail> {
    let mut folder = with_changed(rt.alloc(), "d/c.1.2", 40)?;
    assert_eq!(rt; other_run(rt.alloc(), &mut folder, &DAMAGED_FRAME)?, None);
    Ok(())
}

#[rattlefmt::skip]
static SHORT_FRAME: [Run; 1] = [
    ("check d c", "", 1, "generation 1 damaged: shard 2: damaged length\ngeneration 0 whole\n"),
];

#[test]
fn a_frame_that_is_too_short_is_told(rt: HostRuntime) -> Result<(), Fail> {
    let mut folder = with_two(rt.alloc())?.with("d/c.1.2", b"no frame")?;
    assert_eq!(rt; other_run(rt.alloc(), &mut folder, &SHORT_FRAME)?, None);
    Ok(())
}

#[rattlefmt::skip]
static MISSING_FRAME: [Run; 3] = [
    ("check d c", "", 1, "generation 1 whole\ngeneration 0 damaged: shard 3: not there\n"),
    ("show d c", "", 0, "generation 1\n1 2 1\n"),
    ("show --before d c", "", 1, "generation 0 damaged: shard 3: not there\nno checkpoint\n"),
];

#[test]
fn a_missing_frame_of_the_one_before_is_told(rt: HostRuntime) -> Result<(), Fail> {
    let mut folder = with_two(rt.alloc())?;
    let is_removed = folder.remove("d/c.0.3").is_ok();
    let other = other_run(rt.alloc(), &mut folder, &MISSING_FRAME)?;
    assert_eq!(rt; (is_removed, other), (true, None));
    Ok(())
}

// A folder with two checkpoints, a file of which has the name of another.
fn renamed(alloc: Global, old: &str, new: &str) -> Result<MemoryFolder, AllocError> {
    let mut folder = with_two(alloc)?;
    match folder.rename(old, new) {
        Ok(()) => Ok(folder),
        Err(_) => Err(AllocError),
    }
}

#[rattlefmt::skip]
static MOVED_FRAME: [Run; 1] = [
    ("show d c", "", 0, "generation 1 damaged: shard 0: not there\ngeneration 0\n1 1 1\n"),
];

#[rattlefmt::skip]
static OTHER_FRAME: [Run; 2] = [
    ("show d c", "", 1, "generation 1 damaged: shard 0: of another checkpoint\ngeneration 0 damaged: shard 0: not there\nno checkpoint\n"),
    ("check d c", "", 1, "generation 1 damaged: shard 0: of another checkpoint\ngeneration 0 damaged: shard 0: not there\n"),
];

#[test]
fn a_frame_of_another_shard_is_told(rt: HostRuntime) -> Result<(), Fail> {
    let mut folder = renamed(rt.alloc(), "d/c.1.0", "d/c.1.1")?;
    assert_eq!(rt; other_run(rt.alloc(), &mut folder, &MOVED_FRAME)?, None);
    Ok(())
}

#[test]
fn a_frame_of_another_generation_is_told(rt: HostRuntime) -> Result<(), Fail> {
    let mut folder = renamed(rt.alloc(), "d/c.0.0", "d/c.1.0")?;
    assert_eq!(rt; other_run(rt.alloc(), &mut folder, &OTHER_FRAME)?, None);
    Ok(())
}

#[rattlefmt::skip]
static DAMAGED_MANIFEST: [Run; 3] = [
    ("check d c", "", 1, "generation 1 damaged: manifest: damaged check\ngeneration 0 whole\n"),
    ("show d c", "", 0, "generation 1 damaged: manifest: damaged check\ngeneration 0\n1 1 1\n"),
    ("save d c", "1 3 1\n", 0, "generation 2 rows 1\ngeneration 1 damaged: manifest: damaged check\n"),
];

#[test]
fn a_damaged_manifest_of_the_newest_is_passed_over(rt: HostRuntime) -> Result<(), Fail> {
    let mut folder = with_changed(rt.alloc(), "d/c.1.manifest", 40)?;
    assert_eq!(rt;
        other_run(rt.alloc(), &mut folder, &DAMAGED_MANIFEST)?,
        None
    );
    Ok(())
}

#[rattlefmt::skip]
static OTHER_MANIFEST: [Run; 1] = [
    ("show d c", "", 1, "generation 1 damaged: manifest: of another checkpoint\nno checkpoint\n"),
];

#[test]
fn a_manifest_of_another_generation_is_told(rt: HostRuntime) -> Result<(), Fail> {
    let mut folder = renamed(rt.alloc(), "d/c.0.manifest", "d/c.1.manifest")?;
    assert_eq!(rt; other_run(rt.alloc(), &mut folder, &OTHER_MANIFEST)?, None);
    Ok(())
}

#[rattlefmt::skip]
static NO_MANIFEST: [Run; 5] = [
    ("check d c", "", 0, "generation 1 unfinished\ngeneration 0 whole\n"),
    ("show d c", "", 0, "generation 0\n1 1 1\n"),
    ("save d c", "1 3 1\n", 0, "generation 2 rows 1\n"),
    ("check d c", "", 0, "generation 2 whole\ngeneration 0 whole\n"),
    ("show --before d c", "", 0, "generation 0\n1 1 1\n"),
];

#[test]
fn a_generation_without_a_manifest_is_unfinished(rt: HostRuntime) -> Result<(), Fail> {
    let mut folder = with_two(rt.alloc())?;
    let is_removed = folder.remove("d/c.1.manifest").is_ok();
    let other = other_run(rt.alloc(), &mut folder, &NO_MANIFEST)?;
    assert_eq!(rt; (is_removed, other), (true, None));
    Ok(())
}

#[rattlefmt::skip]
static ALONE: [Run; 3] = [
    ("check d c", "", 1, "generation 7 unfinished\n"),
    ("show d c", "", 1, "no checkpoint\n"),
    ("show --before d c", "", 1, "no checkpoint\n"),
];

#[test]
fn a_generation_that_is_unfinished_is_no_checkpoint(rt: HostRuntime) -> Result<(), Fail> {
    let mut folder = empty(rt.alloc())?.with("d/c.7.0", b"")?;
    assert_eq!(rt; other_run(rt.alloc(), &mut folder, &ALONE)?, None);
    Ok(())
}

#[rattlefmt::skip]
static NONE: [Run; 3] = [
    ("show d c", "", 1, "no checkpoint\n"),
    ("show --before d c", "", 1, "no checkpoint\n"),
    ("check d c", "", 1, "no checkpoint\n"),
];

#[test]
fn no_checkpoint_is_told(rt: HostRuntime) -> Result<(), Fail> {
    assert_eq!(rt; other_run_on_empty(rt.alloc(), &NONE)?, (None, false));
    Ok(())
}

#[rattlefmt::skip]
static CLAIMED: [Run; 4] = [
    ("save d c", "1 3 1\n", 1, "failed: another save is at work in the folder\n"),
    ("show d c", "", 0, "generation 1\n1 2 1\n"),
    ("show --before d c", "", 0, "generation 0\n1 1 1\n"),
    ("check d c", "", 0, "generation 1 whole\ngeneration 0 whole\n"),
];

#[test]
fn a_folder_that_another_save_has_is_left(rt: HostRuntime) -> Result<(), Fail> {
    let mut folder = with_two(rt.alloc())?;
    folder.claimed_by_another(Some(String::from_str(rt.alloc(), "d")?));
    assert_eq!(rt; other_run(rt.alloc(), &mut folder, &CLAIMED)?, None);
    Ok(())
}

#[rattlefmt::skip]
static LAST: [Run; 1] = [
    ("save d c", "1 1 1\n", 1, "failed: no generation is left\n"),
];

#[test]
fn a_number_above_the_last_is_not_found(rt: HostRuntime) -> Result<(), Fail> {
    let mut folder = empty(rt.alloc())?.with("d/c.18446744073709551615.0", b"")?;
    assert_eq!(rt; other_run(rt.alloc(), &mut folder, &LAST)?, None);
    Ok(())
}

// What of a folder's calls fails, and what is told.
static FAULTS: [(u64, &str); 3] = [
    (0, "failed: folder: input or output failed\n"),
    (1, "failed: manifest: input or output failed\n"),
    (3, "failed: shard 0: input or output failed\n"),
];

#[test]
fn a_fault_is_no_damage(rt: HostRuntime) -> Result<(), Fail> {
    let mut folder = with_two(rt.alloc())?;
    for (call, text) in FAULTS.iter() {
        folder.fail_at(*call, 0);
        assert!(rt; answers(rt.alloc(), &mut folder, "show d c", "", 1, text)?);
    }
    Ok(())
}

static NO_FOLDER: [Run; 1] = [("save e c", "1 1 1\n", 1, "failed: folder: not found\n")];

#[test]
fn a_missing_folder_is_a_fault(rt: HostRuntime) -> Result<(), Fail> {
    assert_eq!(rt; other_run_on_empty(rt.alloc(), &NO_FOLDER)?, (None, false));
    Ok(())
}

// What a check may tell after a save that stopped: what it had begun is unfinished, and so is what it had begun to remove. No
// generation is damaged.
static OLD: [&str; 2] = [
    "generation 1 whole\ngeneration 0 whole\n",
    "generation 2 unfinished\ngeneration 1 whole\ngeneration 0 whole\n",
];

static NEW: [&str; 3] = [
    "generation 2 whole\ngeneration 1 whole\n",
    "generation 2 whole\ngeneration 1 whole\ngeneration 0 unfinished\n",
    "generation 2 whole\ngeneration 1 whole\ngeneration 0 whole\n",
];

// A save that stops at a call, and what is found then.
#[derive(Drop)]
struct AfterStop {
    is_saved: bool,
    is_old: bool,
    is_new: bool,
    // each generation is whole or unfinished
    is_checked: bool,
}

fn stopped(alloc: Global, call: u64) -> Result<AfterStop, AllocError> {
    let mut folder = with_two(alloc)?;
    folder.stop_at(call, 1);
    let is_saved = saves(alloc, &mut folder, "1 3 1\n", "generation 2 rows 1\n")?;
    folder.mend();
    let is_old = shows(alloc, &mut folder, "generation 1\n1 2 1\n")?;
    let is_new = shows(alloc, &mut folder, "generation 2\n1 3 1\n")?;
    let texts: &[&str] = if is_new { &NEW } else { &OLD };
    let is_checked = checks(alloc, &mut folder, texts)?;
    Ok(AfterStop {
        is_saved,
        is_old,
        is_new,
        is_checked,
    })
}

fn shows(alloc: Global, folder: &mut MemoryFolder, text: &str) -> Result<bool, AllocError> {
    answers(alloc, folder, "show d c", "", 0, text)
}

// Whether a check tells one of these.
fn checks(alloc: Global, folder: &mut MemoryFolder, texts: &[&str]) -> Result<bool, AllocError> {
    let text = written(alloc, folder, "check d c")?;
    Ok(texts.iter().any(|told| text.as_slice() == told.as_bytes()))
}

#[test]
fn a_save_that_stops_leaves_the_old_rows_or_the_new_ones(rt: HostRuntime) -> Result<(), Fail> {
    let mut news = 0usize;
    for call in 0..60 {
        let found = stopped(rt.alloc(), call)?;
        let is_one = found.is_old != found.is_new;
        let is_told = found.is_new | !found.is_saved;
        assert!(rt; is_one & is_told & found.is_checked, "{call}");
        news = news.saturating_add(usize::from(found.is_new));
    }
    assert!(rt; (0 < news) & (news < 60));
    Ok(())
}

// What a save tells of which one removal failed: the file that was not removed first.
static LEFT: [&str; 5] = [
    "generation 2 rows 1\nolder files left: manifest: input or output failed\n",
    "generation 2 rows 1\nolder files left: shard 0: input or output failed\n",
    "generation 2 rows 1\nolder files left: shard 1: input or output failed\n",
    "generation 2 rows 1\nolder files left: shard 2: input or output failed\n",
    "generation 2 rows 1\nolder files left: shard 3: input or output failed\n",
];

// How many of the calls of a save, each failing in turn, make it tell this, with the status of a save that was done.
fn told_by(alloc: Global, text: &str) -> Result<usize, AllocError> {
    let mut count = 0usize;
    for call in 0..60 {
        let mut folder = with_two(alloc)?;
        folder.fail_at(call, 0);
        if saves(alloc, &mut folder, "1 3 1\n", text)? {
            count = count.saturating_add(1);
        }
    }
    Ok(count)
}

#[test]
fn an_older_file_that_is_left_is_told(rt: HostRuntime) -> Result<(), Fail> {
    for text in LEFT.iter() {
        assert_eq!(rt; told_by(rt.alloc(), text)?, 1, "{text}");
    }
    Ok(())
}
