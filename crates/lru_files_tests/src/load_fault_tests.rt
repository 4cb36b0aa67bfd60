//! A load of one shard, of which one call fails.
use lru_test_folders::loads::{Wanted, load_telling};
use pingora_lru_files::persistence::MemoryFolder;
use std::alloc::{AllocError, Global};
use std::test::Fail;

/// How many bytes the shard's file has, whether a temp file stands beside it, and which call fails; then what is told.
struct Fault {
    len: usize,
    has_temp: bool,
    call: u64,
    text: &'static str,
}

static FAULTS: [Fault; 8] = [
    Fault {
        len: 24,
        has_temp: true,
        call: 0,
        text: "loaded 0 missing 0 errored 1\nfailed to load shard 0: failed to open d/c.0: input or output failed\nremoved 1\n",
    },
    Fault {
        len: 24,
        has_temp: true,
        call: 1,
        text: "loaded 0 missing 0 errored 1\nfailed to load shard 0: failed to read from d/c.0: input or output failed\nremoved 1\n",
    },
    Fault {
        len: 24,
        has_temp: true,
        call: 2,
        text: "loaded 1 missing 0 errored 0\nremoved 0\nfailed to read directory d: input or output failed\n",
    },
    Fault {
        len: 24,
        has_temp: true,
        call: 3,
        text: "loaded 1 missing 0 errored 0\nremoved 0\nfailed to remove temp file d/c.0.0000002a.tmp: input or output failed\n",
    },
    Fault {
        len: 8193,
        has_temp: false,
        call: 0,
        text: "loaded 0 missing 0 errored 1\nfailed to load shard 0: failed to open d/c.0: input or output failed\nremoved 0\n",
    },
    Fault {
        len: 8193,
        has_temp: false,
        call: 1,
        text: "loaded 0 missing 0 errored 1\nfailed to load shard 0: failed to read from d/c.0: input or output failed\nremoved 0\n",
    },
    Fault {
        len: 8193,
        has_temp: false,
        call: 2,
        text: "loaded 0 missing 0 errored 1\nfailed to load shard 0: failed to read from d/c.0: input or output failed\nremoved 0\n",
    },
    Fault {
        len: 8193,
        has_temp: false,
        call: 3,
        text: "loaded 1 missing 0 errored 0\nremoved 0\nfailed to read directory d: input or output failed\n",
    },
];

/// A folder with such a file, beside which a temp file may stand.
fn folder_of(alloc: Global, bytes: &[u8], has_temp: bool) -> Result<MemoryFolder, AllocError> {
    let folder = MemoryFolder::new(alloc).with("d/c.0", bytes)?;
    if has_temp {
        folder.with("d/c.0.0000002a.tmp", b"left")
    } else {
        Ok(folder)
    }
}

/// Whether such a load tells that.
fn ends_so(alloc: Global, fault: &Fault) -> Result<bool, AllocError> {
    let bytes = vec![in alloc; 7; fault.len]?;
    let mut folder = folder_of(alloc, &bytes, fault.has_temp)?;
    folder.fail_at(fault.call, 0);
    let (told, _) = load_telling(alloc, &mut folder, ("d", 1, Wanted::Bytes(&bytes)))?;
    Ok(told.as_str() == fault.text)
}

/// The first row, if there is one, that tells otherwise.
fn wrong_row(alloc: Global) -> Result<Option<(usize, u64)>, AllocError> {
    for fault in &FAULTS {
        if !ends_so(alloc, fault)? {
            return Ok(Some((fault.len, fault.call)));
        }
    }
    Ok(None)
}

#[test]
fn every_fault_of_a_load(rt: HostRuntime) -> Result<(), Fail> {
    assert_eq!(rt; wrong_row(rt.alloc())?, None);
    Ok(())
}
