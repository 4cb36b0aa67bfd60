//! Loads and cleanups in real folders.
ghost use Rattle.std.specs.Prelude.{◌≡◌, false};
ghost use Rattle.pingora_lru_files.specs.Names.{has_slash};

use log::{Level, Logged, sink};
use lru_test_folders::loads::{Wanted, load_logging, load_telling};
use lru_test_folders::odd_names::OddNames;
use lru_test_folders::saves::{Given, save_noting};
use lru_test_folders::told::{are_lines, told_names, told_save};
use pingora_lru_files::persistence::{Folder, FolderFault, HostFolder};
use rand::rngs::StdRng;
use rand_core::SeedableRng;
use std::alloc::{AllocError, Global};
use std::os::unix::fs::symlink;
use std::test::Fail;
use std::{fs, io};

/// Saves so many shards under a name that has no slash, each with these bytes, and tells that.
fn save_as<F: Folder>(
    alloc: Global,
    folder: &mut F,
    dir: &str,
    file_name: &str,
    shards: usize,
    bytes: &[u8],
) -> Result<String, AllocError>
    requires { has_slash file_name.now ≡ false }
{
    let log = sink::Memory::new(alloc);
    let mut rng = StdRng::seed_from_u64(7);
    let mut asked = Vec::new(alloc);
    let save = (dir, shards, Given::Bytes(bytes), None);
    told_save(
        alloc,
        &save_noting(alloc, folder, &mut rng, &log, file_name, save, &mut asked),
    )
}

/// Whether a second folder can neither create nor remove the file which this one writes, as that of another process whose
/// generator has the same seed, and the file takes its name none the less.
fn has_its_file_alone<F: Folder, G: Folder>(
    folder: &mut F,
    other: &mut G,
    temp: &str,
    path: &str,
) -> bool {
    if folder.create(temp).is_err() {
        return false;
    }
    let is_written = folder.write(b"abc").is_ok();
    let refused = Err(FolderFault::Io);
    let is_alone = (other.create(temp) == refused) & (other.remove(temp) == refused);
    let is_synced = folder.sync().is_ok();
    is_written & is_alone & is_synced & folder.rename(temp, path).is_ok()
}

/// Whether a file of many pages is written whole and read whole.
fn comes_back<F: Folder>(alloc: Global, folder: &mut F, dir: &str) -> Result<bool, AllocError> {
    let mut large = Vec::new(alloc);
    for place in 0..100_000usize {
        large.push((place % 251) as u8)?;
    }
    let saved = save_as(alloc, folder, dir, "c", 1, &large)?;
    let (told, logged) = load_telling(alloc, folder, (dir, 1, Wanted::Bytes(&large)))?;
    let is_loaded = (told.as_str() == "loaded 1 missing 0 errored 0\nremoved 0\n")
        & are_lines(&logged, &[("[INFO", "] Successfully loaded 1/1 shards.")]);
    Ok((saved.as_str() == "saved 1 failed 0\n") & is_loaded)
}

/// As long as a name may be whose temp file has 255 bytes: `.0`, eight digits with their dot, and `.tmp` come behind it.
const LONGEST_NAME: &str =
    "nnnnnnnnnnnnnnnnnnnnnnnnnnnnnnnnnnnnnnnnnnnnnnnnnnnnnnnnnnnnnnnnnnnnnnnnnnnnnnnnnnnnnnnnnnnnnnnnnnnnnnnnnnnnnnnnnnnnnnnnnnnnnnnnnnnnnnnnnnnnnnnnnnnnnnnnnnnnnnnnnnnnnnnnnnnnnnnnnnnnnnnnnnnnnnnnnnnnnnnnnnnnnnnnnnnnnnnnnnnnnnnnnnnnnnnnnnnnnnnn";

const TOO_LONG_NAME: &str =
    "nnnnnnnnnnnnnnnnnnnnnnnnnnnnnnnnnnnnnnnnnnnnnnnnnnnnnnnnnnnnnnnnnnnnnnnnnnnnnnnnnnnnnnnnnnnnnnnnnnnnnnnnnnnnnnnnnnnnnnnnnnnnnnnnnnnnnnnnnnnnnnnnnnnnnnnnnnnnnnnnnnnnnnnnnnnnnnnnnnnnnnnnnnnnnnnnnnnnnnnnnnnnnnnnnnnnnnnnnnnnnnnnnnnnnnnnnnnnnnnnn";

/// Where a shard of that name stands, which has room enough.
const TOO_LONG_PATH: &str =
    "long_here/nnnnnnnnnnnnnnnnnnnnnnnnnnnnnnnnnnnnnnnnnnnnnnnnnnnnnnnnnnnnnnnnnnnnnnnnnnnnnnnnnnnnnnnnnnnnnnnnnnnnnnnnnnnnnnnnnnnnnnnnnnnnnnnnnnnnnnnnnnnnnnnnnnnnnnnnnnnnnnnnnnnnnnnnnnnnnnnnnnnnnnnnnnnnnnnnnnnnnnnnnnnnnnnnnnnnnnnnnnnnnnnnnnnnnnnnnnnnnnnnn.0";

/// Whether a shard is saved under the longest name, and refused under one of a byte more, for which no temp file can be made.
/// A file of both names is there then.
fn refuses_longer_names<F: Folder>(
    alloc: Global,
    folder: &mut F,
    dir: &str,
) -> Result<bool, AllocError> {
    let saved = save_as(alloc, folder, dir, LONGEST_NAME, 1, b"abc")?;
    let refused = save_as(alloc, folder, dir, TOO_LONG_NAME, 1, b"new")?;
    let left = told_names(alloc, folder, dir)?;
    let wanted = format!(in alloc; "{LONGEST_NAME}.0 {TOO_LONG_NAME}.0 ")?;
    let is_told = refused.as_str().starts_with(
        "All 1 shards failed to save; see prior warnings for per-shard causes.\nfailed to save shard 0: failed to create long_here/n",
    ) & refused.as_str().ends_with(".tmp: input or output failed\n");
    Ok(is_told & ((saved.as_str(), left.as_str()) == ("saved 1 failed 0\n", wanted.as_str())))
}

/// Shards of `c` that are saved, each with these bytes, and what is told.
struct Saved {
    dir: &'static str,
    shards: usize,
    bytes: &'static [u8],
    text: &'static str,
}

/// Shards of `c` that are loaded, each of which must have these bytes, and what is told and logged.
struct Loaded {
    dir: &'static str,
    shards: usize,
    bytes: &'static [u8],
    text: &'static str,
    lines: &'static [(&'static str, &'static str)],
}

/// A step of a test: what is done, or what must be so.
enum Step {
    /// A folder is made, with those above it.
    Dir(&'static str),
    /// A file is written.
    File(&'static str, &'static str),
    /// A link is made that leads to the first.
    Link(&'static str, &'static str),
    Saves(Saved),
    Loads(Loaded),
    /// A folder lists these names.
    Lists(&'static str, &'static str),
    /// A second folder can neither create nor remove the temp file while it is written, and it takes its name.
    IsAlone(&'static str, &'static str),
    /// A large file is saved into a folder, and loaded.
    ComesBack(&'static str),
    /// In a folder a name can be too long.
    RefusesLongerNames(&'static str),
    /// A file has this text.
    Holds(&'static str, &'static str),
    /// A path is there, or is not.
    Exists(&'static str, bool),
    /// A file is removed.
    RemoveFile(&'static str),
    /// A folder is removed with all that is in it.
    RemoveDir(&'static str),
}

/// Whether such a save tells so.
fn saves_so<F: Folder>(alloc: Global, folder: &mut F, saved: &Saved) -> Result<bool, AllocError> {
    let told = save_as(alloc, folder, saved.dir, "c", saved.shards, saved.bytes)?;
    Ok(told.as_str() == saved.text)
}

/// Whether such a load tells and logs so.
fn loads_so<F: Folder>(alloc: Global, folder: &mut F, loaded: &Loaded) -> Result<bool, AllocError> {
    let wanted = Wanted::Bytes(loaded.bytes);
    let (told, logged) = load_telling(alloc, folder, (loaded.dir, loaded.shards, wanted))?;
    Ok((told.as_str() == loaded.text) & are_lines(&logged, loaded.lines))
}

/// Takes a step by the system, and answers whether what it asks is so. Any other step is passed over.
fn is_done(rt: HostRuntime, step: &Step) -> io::Result<bool> {
    match step {
        Step::Dir(path) => fs::create_dir_all(&rt, *path)?,
        Step::File(path, text) => fs::write(&rt, *path, *text)?,
        Step::Link(target, path) => symlink(&rt, *target, *path)?,
        Step::RemoveFile(path) => fs::remove_file(&rt, *path)?,
        Step::RemoveDir(path) => fs::remove_dir_all(&rt, *path)?,
        Step::Holds(path, text) => return Ok(fs::read_to_string(&rt, *path)?.as_str() == *text),
        Step::Exists(path, is_there) => return Ok(fs::exists(&rt, *path)? == *is_there),
        _ => {}
    }
    Ok(true)
}

/// Takes a step by the folder, or by both, and answers whether what it asks is so. Any other step is passed over.
fn is_so<F: Folder, G: Folder>(
    alloc: Global,
    folder: &mut F,
    other: &mut G,
    step: &Step,
) -> Result<bool, AllocError> {
    match step {
        Step::Saves(saved) => saves_so(alloc, folder, saved),
        Step::Loads(loaded) => loads_so(alloc, folder, loaded),
        Step::Lists(dir, names) => Ok(told_names(alloc, folder, dir)?.as_str() == *names),
        Step::IsAlone(temp, path) => Ok(has_its_file_alone(folder, other, temp, path)),
        Step::ComesBack(dir) => comes_back(alloc, folder, dir),
        Step::RefusesLongerNames(dir) => refuses_longer_names(alloc, folder, dir),
        _ => Ok(true),
    }
}

/// The number of the first step, if there is one, that goes otherwise.
fn wrong_step<F: Folder>(
    rt: HostRuntime,
    folder: &mut F,
    steps: &[Step],
) -> Result<Option<usize>, Fail> {
    let mut other = HostFolder::new(rt);
    for (place, step) in steps.iter().enumerate() {
        if !(is_done(rt, step)? & is_so(rt.alloc(), folder, &mut other, step)?) {
            return Ok(Some(place));
        }
    }
    Ok(None)
}

/// What is done in real folders.
static STEPS: [Step; 48] = [
    // What was saved is loaded and cleaned up. A temp file goes, a folder that has such a name stays, and so does a file
    // with another one.
    Step::Saves(Saved {
        dir: "loaded_here/d",
        shards: 2,
        bytes: b"abc",
        text: "saved 2 failed 0\n",
    }),
    Step::File("loaded_here/d/c.0.0000002a.tmp", "ab"),
    Step::Dir("loaded_here/d/c.1.0000002a.tmp"),
    Step::File("loaded_here/d/x.tmp", "x"),
    Step::Loads(Loaded {
        dir: "loaded_here/d/",
        shards: 3,
        bytes: b"abc",
        text: "loaded 2 missing 1 errored 0\nremoved 1\n",
        lines: &[
            (
                "[INFO",
                "] Temp file cleanup completed. Removed: 1, Errors: 0",
            ),
            (
                "[WARN",
                "] Loaded 2/3 shards (missing: 1, errored: 0). LRU state may be incomplete.",
            ),
        ],
    }),
    Step::Exists("loaded_here/d/c.0.0000002a.tmp", false),
    Step::Exists("loaded_here/d/c.1.0000002a.tmp", true),
    Step::Exists("loaded_here/d/x.tmp", true),
    Step::Exists("loaded_here/d/c.0", true),
    Step::RemoveDir("loaded_here"),
    // A folder is not there.
    Step::Loads(Loaded {
        dir: "never_made",
        shards: 2,
        bytes: b"abc",
        text: "loaded 0 missing 2 errored 0\nremoved 0\n",
        lines: &[(
            "[INFO",
            "] No persisted LRU shards found. LRU will start empty.",
        )],
    }),
    // A file stands where the folder should be.
    Step::File("no_folder", "abc"),
    Step::Loads(Loaded {
        dir: "no_folder",
        shards: 1,
        bytes: b"abc",
        text: "loaded 0 missing 0 errored 1\nfailed to load shard 0: failed to open no_folder/c.0: input or output failed\nremoved 0\nfailed to read directory no_folder: input or output failed\n",
        lines: &[
            (
                "[WARN",
                "] failed to load shard 0: failed to open no_folder/c.0: input or output failed. Skipping shard.",
            ),
            (
                "[WARN",
                "] failed to read directory no_folder: input or output failed",
            ),
            (
                "[INFO",
                "] Temp file cleanup completed. Removed: 0, Errors: 1",
            ),
            (
                "[WARN",
                "] Loaded 0/1 shards (missing: 0, errored: 1). LRU state may be incomplete.",
            ),
        ],
    }),
    Step::RemoveFile("no_folder"),
    // A folder stands where the file should be.
    Step::Dir("no_file/c.0"),
    Step::Loads(Loaded {
        dir: "no_file",
        shards: 1,
        bytes: b"abc",
        text: "loaded 0 missing 0 errored 1\nfailed to load shard 0: failed to open no_file/c.0: input or output failed\nremoved 0\n",
        lines: &[
            (
                "[WARN",
                "] failed to load shard 0: failed to open no_file/c.0: input or output failed. Skipping shard.",
            ),
            (
                "[WARN",
                "] Loaded 0/1 shards (missing: 0, errored: 1). LRU state may be incomplete.",
            ),
        ],
    }),
    Step::RemoveDir("no_file"),
    // Another folder leaves a file that is being written.
    Step::Dir("claimed_here"),
    Step::IsAlone("claimed_here/c.0.0000002a.tmp", "claimed_here/c.0"),
    Step::Holds("claimed_here/c.0", "abc"),
    Step::Lists("claimed_here", "c.0 "),
    Step::RemoveDir("claimed_here"),
    // A leftover of the same name is made anew. What a stopped save of the same word left: a file, and a link that is not
    // written through.
    Step::Dir("left_here"),
    Step::File("left_here/kept", "kept"),
    Step::File("left_here/c.0.0000002a.tmp", "longer than abc"),
    Step::Link("kept", "left_here/c.1.0000002a.tmp"),
    Step::IsAlone("left_here/c.0.0000002a.tmp", "left_here/c.0"),
    Step::IsAlone("left_here/c.1.0000002a.tmp", "left_here/c.1"),
    Step::Lists("left_here", "c.0 c.1 kept "),
    Step::Holds("left_here/c.0", "abc"),
    Step::Holds("left_here/c.1", "abc"),
    Step::Holds("left_here/kept", "kept"),
    Step::RemoveDir("left_here"),
    // A link stands where the file should be. The first link leads to a file with the right bytes, the second nowhere.
    Step::Dir("linked_here"),
    Step::File("linked_here/kept", "abc"),
    Step::Link("kept", "linked_here/c.0"),
    Step::Link("nowhere", "linked_here/c.1"),
    Step::Loads(Loaded {
        dir: "linked_here",
        shards: 2,
        bytes: b"abc",
        text: "loaded 0 missing 0 errored 2\nfailed to load shard 0: failed to open linked_here/c.0: input or output failed\nfailed to load shard 1: failed to open linked_here/c.1: input or output failed\nremoved 0\n",
        lines: &[
            (
                "[WARN",
                "] failed to load shard 0: failed to open linked_here/c.0: input or output failed. Skipping shard.",
            ),
            (
                "[WARN",
                "] failed to load shard 1: failed to open linked_here/c.1: input or output failed. Skipping shard.",
            ),
            (
                "[WARN",
                "] Loaded 0/2 shards (missing: 0, errored: 2). LRU state may be incomplete.",
            ),
        ],
    }),
    Step::Saves(Saved {
        dir: "linked_here",
        shards: 2,
        bytes: b"new",
        text: "saved 2 failed 0\n",
    }),
    Step::Holds("linked_here/kept", "abc"),
    Step::RemoveDir("linked_here"),
    // A large file comes back.
    Step::ComesBack("large_here"),
    Step::RemoveDir("large_here"),
    // A name is too long. The file that is there stays.
    Step::Dir("long_here"),
    Step::File(TOO_LONG_PATH, "old"),
    Step::RefusesLongerNames("long_here"),
    Step::Holds(TOO_LONG_PATH, "old"),
    Step::RemoveDir("long_here"),
];

#[test]
fn real_folders(rt: HostRuntime) -> Result<(), Fail> {
    assert_eq!(rt; wrong_step(rt, &mut HostFolder::new(rt), &STEPS)?, None);
    Ok(())
}

/// What is done in a folder that lists a name more, which is no UTF-8.
static ODD_NAME: [Step; 6] = [
    Step::Dir("odd_names"),
    Step::File("odd_names/c.0", "abc"),
    Step::File("odd_names/c.0.0000002a.tmp", "ab"),
    Step::Lists("odd_names", "c.0 c.0.0000002a.tmp ? "),
    Step::Loads(Loaded {
        dir: "odd_names",
        shards: 1,
        bytes: b"abc",
        text: "loaded 1 missing 0 errored 0\nremoved 1\nfailed to read directory entry in odd_names: input or output failed\n",
        lines: &[
            (
                "[WARN",
                "] failed to read directory entry in odd_names: input or output failed",
            ),
            (
                "[INFO",
                "] Temp file cleanup completed. Removed: 1, Errors: 1",
            ),
            ("[INFO", "] Successfully loaded 1/1 shards."),
        ],
    }),
    Step::RemoveDir("odd_names"),
];

/// What is done in a folder that lists a name more, whose file has vanished.
static VANISHED: [Step; 4] = [
    Step::Dir("vanished"),
    Step::File("vanished/c.0.0000002a.tmp", "ab"),
    Step::Lists("vanished", "c.0.0000002a.tmp "),
    Step::RemoveDir("vanished"),
];

/// The number of the first such step, if there is one, that goes otherwise. What the folder logs is not kept.
fn wrong_odd_step(
    rt: HostRuntime,
    names: OddNames<HostRuntime>,
    steps: &[Step],
) -> Result<Option<usize>, Fail> {
    let mut folder = HostFolder::new(Logged::new(names, Level::Warn, sink::Discard));
    wrong_step(rt, &mut folder, steps)
}

#[test]
fn odd_folders(rt: HostRuntime) -> Result<(), Fail> {
    let named = wrong_odd_step(rt, OddNames::new(rt), &ODD_NAME)?;
    let vanished = wrong_odd_step(rt, OddNames::vanished(rt), &VANISHED)?;
    assert_eq!(rt; (named, vanished), (None, None));
    Ok(())
}

/// How many shards of one are errored where a file stands in the folder's place. The folder logs where the load does.
fn errored_by_one_log(rt: HostRuntime, log: &sink::Memory) -> Result<usize, AllocError> {
    let mut folder = HostFolder::new(Logged::new(rt, Level::Info, log));
    let report = load_logging(
        rt.alloc(),
        &mut folder,
        log,
        ("causes_here", 1, Wanted::Any),
    )?;
    Ok(report.error_shards)
}

/// What the load logs. What the system says stands before the failure that it brought about.
static CAUSES: [(&str, &str); 6] = [
    (
        "[WARN",
        "] failed to open causes_here/c.0: Not a directory (os error 20)",
    ),
    (
        "[WARN",
        "] failed to load shard 0: failed to open causes_here/c.0: input or output failed. Skipping shard.",
    ),
    (
        "[WARN",
        "] failed to list causes_here: Not a directory (os error 20)",
    ),
    (
        "[WARN",
        "] failed to read directory causes_here: input or output failed",
    ),
    (
        "[INFO",
        "] Temp file cleanup completed. Removed: 0, Errors: 1",
    ),
    (
        "[WARN",
        "] Loaded 0/1 shards (missing: 0, errored: 1). LRU state may be incomplete.",
    ),
];

/// Whether each of these calls is answered so.
fn are_refused(rt: HostRuntime, log: &sink::Memory) -> bool {
    let mut folder = HostFolder::new(Logged::new(rt, Level::Warn, log));
    let (refused, missing) = (Err(FolderFault::Io), Err(FolderFault::NotFound));
    (folder.make("quoted_here/file") == refused)
        & (folder.rename("quoted_here/file", "quoted_here/d") == refused)
        & (folder.rename("quoted_here/none", "quoted_here/d") == missing)
        & (folder.remove("quoted_here/none") == missing)
}

/// What they log. A path that is not there is not a cause, and not logged.
static REFUSALS: [(&str, &str); 2] = [
    (
        "[WARN",
        "] failed to create quoted_here/file: File exists (os error 17)",
    ),
    (
        "[WARN",
        "] failed to give a file the name quoted_here/d: Is a directory (os error 21)",
    ),
];

/// Whether the load logs its causes, and ends so.
fn is_cause_logged(rt: HostRuntime) -> Result<bool, AllocError> {
    let log = sink::Memory::new(rt.alloc());
    let count = errored_by_one_log(rt, &log)?;
    let lines = log.into_lines().into_vec();
    Ok((count == 1) & are_lines(&lines, &CAUSES))
}

/// Whether the calls are answered so, and the system is quoted.
fn is_quoted(rt: HostRuntime) -> bool {
    let log = sink::Memory::new(rt.alloc());
    let is_refused = are_refused(rt, &log);
    let lines = log.into_lines().into_vec();
    is_refused & are_lines(&lines, &REFUSALS)
}

/// What stands there before, and goes then.
static QUOTED: [Step; 3] = [
    Step::File("causes_here", "abc"),
    Step::Dir("quoted_here/d"),
    Step::File("quoted_here/file", "abc"),
];

static QUOTED_GOES: [Step; 2] = [
    Step::RemoveFile("causes_here"),
    Step::RemoveDir("quoted_here"),
];

/// Takes steps by the system.
fn take(rt: HostRuntime, steps: &[Step]) -> io::Result<()> {
    for step in steps {
        is_done(rt, step)?;
    }
    Ok(())
}

#[test]
fn the_system_is_quoted(rt: HostRuntime) -> Result<(), Fail> {
    take(rt, &QUOTED)?;
    assert_eq!(rt; (is_cause_logged(rt)?, is_quoted(rt)), (true, true));
    take(rt, &QUOTED_GOES)?;
    Ok(())
}
