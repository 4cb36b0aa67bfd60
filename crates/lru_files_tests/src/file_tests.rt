//! Saves and loads by the program's commands, over a folder in memory.
use crate::run_tests::words;
use crate::unlisted::Unlisted;
use log::sink;
use log::sink::Discard;
use lru_test_folders::told::are_lines;
use lru_tool_inside::engine::run;
use pingora_lru_files::persistence::{Folder, MemoryFolder};
use rand::rngs::StdRng;
use rand_core::{Rng, SeedableRng};
use std::alloc::{AllocError, Global};
use std::io;
use std::test::Fail;

/// Whether this input is answered so, with seed 7 and no watermark.
pub fn answers_over<F: Folder>(
    alloc: Global,
    folder: &mut F,
    input: &[u8],
    status: u8,
    text: &str,
) -> Result<bool, AllocError> {
    let arguments = words(alloc, "9 - 7")?;
    let mut reader = input;
    let mut writer = Vec::new(alloc);
    let answer = run(
        alloc,
        folder,
        &Discard,
        &arguments,
        &mut reader,
        &mut writer,
    );
    Ok((answer, writer.as_slice()) == (status, text.as_bytes()))
}

const ROW: &[u8] = b"\x02\0\0\0\0\0\0\0\x14\0\0\0\0\0\0\0\x02\0\0\0\0\0\0\0";

/// Whether a row is saved and loaded, over itself and into an empty cache.
fn loads_it(alloc: Global) -> Result<bool, AllocError> {
    let mut folder = MemoryFolder::new(alloc);
    let input = b"admit 2 20 2\nsave d c\nload d c\nremove 2\nload d c\nlist 0\n".as_slice();
    let text =
        "0\nsaved 2 failed 0\nloaded 1 missing 0 errored 1 removed 0\n2 20 2\nloaded 2 missing 0 errored 0 removed 0\n1 2:20:2\n";
    let is_saved = answers_over(alloc, &mut folder, input, 0, text)?;
    let files = (folder.get("d/c.0"), folder.get("d/c.1"));
    let are_files = files == (Some(ROW), Some(b"".as_slice()));
    let text = "loaded 2 missing 0 errored 0 removed 0\n1 2:20:2\n0\n1 2 0 0\n";
    let input = b"load d/ c\nlist 0\nlist 1\ntotal\n".as_slice();
    Ok(is_saved & are_files & answers_over(alloc, &mut folder, input, 0, text)?)
}

#[test]
fn loads_what_it_saved(rt: HostRuntime) -> Result<(), Fail> {
    assert!(rt; loads_it(rt.alloc())?);
    Ok(())
}

/// Which call fails of a save into an empty folder and a load, and what is told. The first call makes the folder, and each
/// shard has four, since it has no bytes.
static FAULTS: [(u64, &str); 5] = [
    (0, "save refused\nloaded 0 missing 2 errored 0 removed 0\n"),
    (
        1,
        "saved 1 failed 1\nloaded 1 missing 1 errored 0 removed 0\n",
    ),
    (
        2,
        "saved 1 failed 1\nloaded 1 missing 1 errored 0 removed 1\n",
    ),
    (
        8,
        "saved 1 failed 1\nloaded 1 missing 1 errored 0 removed 1\n",
    ),
    (
        9,
        "saved 2 failed 0\nloaded 1 missing 0 errored 1 removed 0\n",
    ),
];

const SAVED_AND_LOADED: &[u8] = b"save d c\nload d c\n";

/// Whether the failure of this call is told so.
fn tells_fault(alloc: Global, call: u64, text: &str) -> Result<bool, AllocError> {
    let mut folder = MemoryFolder::new(alloc);
    folder.fail_at(call, 0);
    answers_over(alloc, &mut folder, SAVED_AND_LOADED, 0, text)
}

/// Whether that of all calls from the second on is.
fn tells_stop(alloc: Global) -> Result<bool, AllocError> {
    let mut folder = MemoryFolder::new(alloc);
    folder.stop_at(1, 0);
    let text = "saved 0 failed 2\nloaded 0 missing 0 errored 2 removed 0\n";
    answers_over(alloc, &mut folder, SAVED_AND_LOADED, 0, text)
}

/// The first call, if there is one, whose failure is told otherwise; and 99 where that of all calls is.
fn wrong_fault(alloc: Global) -> Result<Option<u64>, AllocError> {
    for (call, text) in &FAULTS {
        if !tells_fault(alloc, *call, text)? {
            return Ok(Some(*call));
        }
    }
    Ok(if tells_stop(alloc)? { None } else { Some(99) })
}

#[test]
fn tells_what_was_not_saved(rt: HostRuntime) -> Result<(), Fail> {
    assert_eq!(rt; wrong_fault(rt.alloc())?, None);
    Ok(())
}

// A cleanup that found no memory has no count.
#[test]
fn tells_that_nothing_was_listed(rt: HostRuntime) -> Result<(), Fail> {
    let input = b"load d c\nsave d c\n".as_slice();
    let text = "loaded 0 missing 2 errored 0 removed -\nsaved 0 failed 2\n";
    assert!(rt; answers_over(rt.alloc(), &mut Unlisted::new(), input, 0, text)?);
    Ok(())
}

fn loads_none(alloc: Global) -> Result<bool, AllocError> {
    let mut folder = MemoryFolder::new(alloc)
        .with("d/c.1", b"1234567890123456789012345")?
        .with("d/c.1.0000002a.tmp", b"12")?;
    let input = b"admit 3 30 3\nload d c\nload d x\nload e c\nlist 1\n".as_slice();
    let text =
        "1\nloaded 0 missing 1 errored 1 removed 1\nloaded 0 missing 2 errored 0 removed 0\nloaded 0 missing 2 errored 0 removed 0\n1 3:30:3\n";
    answers_over(alloc, &mut folder, input, 0, text)
}

#[test]
fn loads_no_damaged_shard(rt: HostRuntime) -> Result<(), Fail> {
    assert!(rt; loads_none(rt.alloc())?);
    Ok(())
}

/// Whether a save that fails at this call leaves the temp file of this shard under this word.
fn leaves_word(alloc: Global, call: u64, shard: u64, word: u32) -> Result<bool, AllocError> {
    let path = format!(in alloc; "d/c.{shard}.{word:08x}.tmp")?;
    let mut folder = MemoryFolder::new(alloc);
    folder.fail_at(call, 0);
    let is_told = answers_over(alloc, &mut folder, b"save d c\n", 0, "saved 1 failed 1\n")?;
    Ok((is_told, folder.get(&path)) == (true, Some(b"".as_slice())))
}

/// The first shard, if there is one, whose temp file has another word than the generator draws.
fn wrong_word(alloc: Global) -> Result<Option<u64>, AllocError> {
    let mut rng = StdRng::seed_from_u64(7);
    for (shard, call) in [(0, 2), (1, 6)] {
        if !leaves_word(alloc, call, shard, rng.next_u32())? {
            return Ok(Some(shard));
        }
    }
    Ok(None)
}

// The generator of the program draws the word of each temp file.
#[test]
fn draws_the_words_of_a_save(rt: HostRuntime) -> Result<(), Fail> {
    assert_eq!(rt; wrong_word(rt.alloc())?, None);
    Ok(())
}

/// What the two lines of the log are to end with.
static LOGGED: [(&str, &str); 2] = [
    ("", "No persisted LRU shards found. LRU will start empty."),
    ("", "Successfully saved 2/2 shards."),
];

fn logs_both(alloc: Global) -> Result<bool, AllocError> {
    let arguments = words(alloc, "9 - 7")?;
    let log = sink::Memory::new(alloc);
    let mut reader = b"load d c\nsave d c\n".as_slice();
    let mut writer = Vec::new(alloc);
    let status = run(
        alloc,
        &mut MemoryFolder::new(alloc),
        &log,
        &arguments,
        &mut reader,
        &mut writer,
    );
    let lines = log.into_lines().into_vec();
    Ok((status == 0) & are_lines(&lines, &LOGGED))
}

#[test]
fn logs_a_save_and_a_load(rt: HostRuntime) -> Result<(), Fail> {
    assert!(rt; logs_both(rt.alloc())?);
    Ok(())
}

fn takes_texts(alloc: Global) -> Result<bool, AllocError> {
    let mut folder = MemoryFolder::new(alloc);
    let input = "save a/b/ \u{e9}\nload a/b \u{e9}\nsave / -\nload / -\nsave 1 2\nload 1 2\n";
    let text =
        "saved 2 failed 0\nloaded 2 missing 0 errored 0 removed 0\nsaved 2 failed 0\nloaded 2 missing 0 errored 0 removed 0\nsaved 2 failed 0\nloaded 2 missing 0 errored 0 removed 0\n";
    let is_told = answers_over(alloc, &mut folder, input.as_bytes(), 0, text)?;
    let is_first = folder.get("a/b/\u{e9}.0") == Some(b"".as_slice());
    let is_second = folder.get("/-.1") == Some(b"".as_slice());
    Ok(is_told & is_first & is_second)
}

#[test]
fn takes_texts_for_folder_and_file(rt: HostRuntime) -> Result<(), Fail> {
    assert!(rt; takes_texts(rt.alloc())?);
    Ok(())
}

/// Lines that are bad.
static BAD: [&[u8]; 23] = [
    b"save",
    b"save d",
    b"save d ",
    b"save  c",
    b"save d c ",
    b"save d  c",
    b"save d c 1",
    b"save d c/x",
    b"save d /c",
    b"save d c/",
    b"save d \xff",
    b"save \xc3 c",
    b"Save d c",
    b"saves d c",
    b"load",
    b"load d",
    b"load d ",
    b"load  c",
    b"load d c ",
    b"load d c d",
    b"load d /",
    b"load d c\xe2\x82",
    b"load \xff c",
];

/// This line between two others.
fn between(alloc: Global, bad: &[u8]) -> Result<Vec<u8>, AllocError> {
    let mut input = b"save d c\n".to_vec(alloc)?;
    input.extend_from_slice(bad)?;
    input.extend_from_slice(b"\ntotal\n")?;
    Ok(input)
}

/// The first of them, if there is one, at which the program does not stop.
fn wrong_line(alloc: Global) -> Result<Option<usize>, AllocError> {
    let text = "saved 2 failed 0\nerror line 2\n";
    for (place, bad) in BAD.iter().enumerate() {
        let input = between(alloc, bad)?;
        if !answers_over(alloc, &mut MemoryFolder::new(alloc), &input, 2, text)? {
            return Ok(Some(place));
        }
    }
    Ok(None)
}

#[test]
fn stops_at_a_bad_save_or_load(rt: HostRuntime) -> Result<(), Fail> {
    assert_eq!(rt; wrong_line(rt.alloc())?, None);
    Ok(())
}

// A file for each shard, of one row and of none, and a temp file.
fn stored(alloc: Global) -> Result<MemoryFolder, AllocError> {
    Ok(
        MemoryFolder::new(alloc)
            .with("d/c.0", ROW)?
            .with("d/c.1", b"")?
            .with("d/c.1.0000002a.tmp", b"")?,
    )
}

fn refuses_none(alloc: Global) -> Result<bool, AllocError> {
    let mut folder = stored(alloc)?;
    let input = b"load d c\nsave d c\n".as_slice();
    let text = "loaded 2 missing 0 errored 0 removed 1\nsaved 2 failed 0\n";
    answers_over(alloc, &mut folder, input, 0, text)
}

// Where nothing is refused, both files are loaded and saved.
#[test]
fn refuses_no_file_without_cause(rt: HostRuntime) -> Result<(), Fail> {
    assert!(rt; refuses_none(rt.alloc())?);
    Ok(())
}

// What a load may tell where one allocation is refused.
static LOADS: [&str; 6] = [
    "loaded 2 missing 0 errored 0 removed 1\n",
    "loaded 1 missing 0 errored 1 removed 1\n",
    "loaded 2 missing 0 errored 0 removed 0\n",
    "loaded 2 missing 0 errored 0 removed -\n",
    "refused memory\n",
    "error memory\n",
];

// What a save may tell there.
static SAVES: [&str; 4] = [
    "saved 2 failed 0\n",
    "saved 1 failed 1\n",
    "save refused\n",
    "error memory\n",
];

/// Whether this input is answered by one of these texts, with status 1 where that is `error memory`.
fn answers_one(alloc: Global, folder: &mut MemoryFolder, input: &[u8], texts: &[&str]) -> bool {
    let Ok(arguments) = words(alloc, "9 - 7") else {
        return true;
    };
    let mut reader = input;
    let mut room = [0_u8; 64];
    let mut writer = io::Cursor::new(room.as_mut_slice());
    let status = run(
        alloc,
        folder,
        &Discard,
        &arguments,
        &mut reader,
        &mut writer,
    );
    let written = writer.position() as usize;
    if written > 64 {
        return false;
    }
    let text = &room[..written];
    let is_memory = text == b"error memory\n".as_slice();
    ((status == 1) == is_memory) & texts.iter().any(|allowed| allowed.as_bytes() == text)
}

fn are_told(alloc: Global) -> bool {
    let Ok(mut folder) = stored(alloc) else {
        return true;
    };
    answers_one(alloc, &mut folder, b"load d c\n", &LOADS)
        & answers_one(alloc, &mut folder, b"save d c\n", &SAVES)
}

// The gate runs this with memory for all; `rt try --test --fail-alloc N` refuses the request number N: then the program tells
// one of these texts, and no other.
#[test]
fn tells_where_memory_is_refused_to_a_file(rt: HostRuntime) -> Result<(), Fail> {
    assert!(rt; are_told(rt.alloc()));
    Ok(())
}
