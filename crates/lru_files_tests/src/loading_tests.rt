//! What a load logs and reports.
use log::sink;
use lru_test_folders::loads::{Wanted, load_noting, load_telling};
use lru_test_folders::shelf::{File, Shelf};
use lru_test_folders::told::are_lines;
use pingora_lru_files::persistence::FolderFault;
use std::alloc::{AllocError, Global};
use std::test::Fail;

/// The files of `d`, what its listing gives, and the path that is stuck; how many shards are loaded, which take every byte
/// but 9; and then what the load tells and logs. The lines stand in the order failures, cleanup, summary.
struct Row {
    files: &'static [(&'static str, File<'static>)],
    listing: Result<&'static [&'static str], FolderFault>,
    stuck: &'static str,
    shards: usize,
    text: &'static str,
    lines: &'static [(&'static str, &'static str)],
}

static LOADS: [Row; 5] = [
    // All is loaded.
    Row {
        files: &[("d/c.0", File::Bytes(&[1, 2])), ("d/c.1", File::Bytes(&[]))],
        listing: Err(FolderFault::NotFound),
        stuck: "",
        shards: 2,
        text: "loaded 2 missing 0 errored 0\nremoved 0\n",
        lines: &[("[INFO", "] Successfully loaded 2/2 shards.")],
    },
    // Nothing is there.
    Row {
        files: &[],
        listing: Err(FolderFault::NotFound),
        stuck: "",
        shards: 2,
        text: "loaded 0 missing 2 errored 0\nremoved 0\n",
        lines: &[(
            "[INFO",
            "] No persisted LRU shards found. LRU will start empty.",
        )],
    },
    // Each failure is told and logged.
    Row {
        files: &[
            ("d/c.0", File::Bytes(&[1])),
            ("d/c.2", File::FailsToOpen(FolderFault::Memory)),
            ("d/c.3", File::FailsToRead(FolderFault::Io)),
            ("d/c.4", File::Bytes(&[9])),
        ],
        listing: Ok(&[
            "c.0",
            "c.0.00000000.tmp",
            "c.1.00000000.tmp",
            "cd.1.00000000.tmp",
            "x.tmp",
            "",
        ]),
        stuck: "d/c.1.00000000.tmp",
        shards: 5,
        text: "loaded 1 missing 1 errored 3\nfailed to load shard 2: failed to open d/c.2: out of memory\nfailed to load shard 3: failed to read from d/c.3: input or output failed\nfailed to deserialize shard 4: damaged\nremoved 2\nfailed to remove temp file d/c.1.00000000.tmp: input or output failed\nfailed to read directory entry in d: input or output failed\n",
        lines: &[
            (
                "[WARN",
                "] failed to load shard 2: failed to open d/c.2: out of memory. Skipping shard.",
            ),
            (
                "[WARN",
                "] failed to load shard 3: failed to read from d/c.3: input or output failed. Skipping shard.",
            ),
            (
                "[WARN",
                "] failed to deserialize shard 4: damaged. Skipping shard.",
            ),
            (
                "[WARN",
                "] failed to remove temp file d/c.1.00000000.tmp: input or output failed",
            ),
            (
                "[WARN",
                "] failed to read directory entry in d: input or output failed",
            ),
            (
                "[INFO",
                "] Temp file cleanup completed. Removed: 2, Errors: 2",
            ),
            (
                "[WARN",
                "] Loaded 1/5 shards (missing: 1, errored: 3). LRU state may be incomplete.",
            ),
        ],
    },
    // The cleanup finds no memory.
    Row {
        files: &[],
        listing: Err(FolderFault::Memory),
        stuck: "",
        shards: 0,
        text: "loaded 0 missing 0 errored 0\nremoved none\n",
        lines: &[
            ("[WARN", "] Temp file cleanup failed: out of memory"),
            ("[INFO", "] Successfully loaded 0/0 shards."),
        ],
    },
    // The folder is not listed.
    Row {
        files: &[],
        listing: Err(FolderFault::Io),
        stuck: "",
        shards: 0,
        text: "loaded 0 missing 0 errored 0\nremoved 0\nfailed to read directory d: input or output failed\n",
        lines: &[
            (
                "[WARN",
                "] failed to read directory d: input or output failed",
            ),
            (
                "[INFO",
                "] Temp file cleanup completed. Removed: 0, Errors: 1",
            ),
            ("[INFO", "] Successfully loaded 0/0 shards."),
        ],
    },
];

fn ends_so(alloc: Global, row: &Row) -> Result<bool, AllocError> {
    let mut shelf = Shelf::new(alloc, row.files, row.listing, row.stuck);
    let (told, logged) = load_telling(alloc, &mut shelf, ("d", row.shards, Wanted::NoNine))?;
    Ok((told.as_str() == row.text) & are_lines(&logged, row.lines))
}

/// The first row, if there is one, that ends otherwise.
fn wrong_row(alloc: Global) -> Result<Option<usize>, AllocError> {
    for (place, row) in LOADS.iter().enumerate() {
        if !ends_so(alloc, row)? {
            return Ok(Some(place));
        }
    }
    Ok(None)
}

#[test]
fn loads_and_what_they_tell(rt: HostRuntime) -> Result<(), Fail> {
    assert_eq!(rt; wrong_row(rt.alloc())?, None);
    Ok(())
}

/// The files of shards 0, 2 and 3.
static FILES: [(&str, File<'static>); 3] = [
    ("c.0", File::Bytes(b"zero")),
    ("c.2", File::Bytes(b"bad")),
    ("c.3", File::Bytes(b"")),
];

/// Their bytes, and whether a load takes them.
static TAKEN: [(&[u8], bool); 4] = [(b"zero", true), (b"", true), (b"bad", false), (b"", true)];

// The closure gets each file that is there, from shard 0 up.
fn are_given_in_order(alloc: Global) -> Result<bool, AllocError> {
    let mut shelf = Shelf::new(alloc, &FILES, Err(FolderFault::NotFound), "");
    let log = sink::Memory::new(alloc);
    let mut given = Vec::new(alloc);
    let load = ("", 4, Wanted::Each(&TAKEN));
    let report = load_noting(alloc, &mut shelf, &log, load, &mut given)?;
    let counts = (
        report.loaded_shards,
        report.missing_shards,
        report.error_shards,
    );
    let is_in_order = given.as_slice() == [(0, true), (2, true), (3, true)].as_slice();
    Ok(is_in_order & (counts == (2, 1, 1)))
}

#[test]
fn files_are_given_in_order(rt: HostRuntime) -> Result<(), Fail> {
    assert!(rt; are_given_in_order(rt.alloc())?);
    Ok(())
}
