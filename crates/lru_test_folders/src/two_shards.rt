//! The files of two shards, for tests of want of memory: each is made anew where the first try finds none.
use pingora_lru_files::persistence::MemoryFolder;
use std::alloc::{AllocError, Global};

/// The rows of shard 0, key 4, value 40, weight 1 before key 2, value 20, weight 3.
pub const EVEN_BYTES: [u8; 48] = [
    4, 0, 0, 0, 0, 0, 0, 0, 40, 0, 0, 0, 0, 0, 0, 0, 1, 0, 0, 0, 0, 0, 0, 0, 2, 0, 0, 0, 0, 0, 0,
    0, 20, 0, 0, 0, 0, 0, 0, 0, 3, 0, 0, 0, 0, 0, 0, 0,
];

/// The row of shard 1, key 7, value 70, weight 2.
pub const ODD_BYTES: [u8; 24] = [
    7, 0, 0, 0, 0, 0, 0, 0, 70, 0, 0, 0, 0, 0, 0, 0, 2, 0, 0, 0, 0, 0, 0, 0,
];

/// A temp file that an earlier save has left.
const TEMP: &str = "d/c.0.0000002a.tmp";

/// The bytes of each of the two.
pub fn bytes_of(alloc: Global, shard: usize) -> Result<Vec<u8>, AllocError> {
    if shard == 0 {
        EVEN_BYTES.as_slice().to_vec(alloc)
    } else {
        ODD_BYTES.as_slice().to_vec(alloc)
    }
}

/// Whether these are the bytes of that one.
pub fn is_bytes(shard: usize, bytes: &[u8]) -> bool {
    if shard == 0 {
        bytes == EVEN_BYTES.as_slice()
    } else {
        bytes == ODD_BYTES.as_slice()
    }
}

fn folder_with(alloc: Global, zero: &[u8], one: &[u8]) -> Result<MemoryFolder, AllocError> {
    MemoryFolder::new(alloc)
        .with("d/c.0", zero)?
        .with("d/c.1", one)?
        .with(TEMP, b"left")
}

/// A folder in which older files stand under both names.
pub fn folder_to_save(alloc: Global) -> Result<MemoryFolder, AllocError> {
    match folder_with(alloc, b"old", b"older") {
        Ok(folder) => Ok(folder),
        Err(AllocError) => folder_with(alloc, b"old", b"older"),
    }
}

/// A folder with the files of both.
pub fn folder_to_load(alloc: Global) -> Result<MemoryFolder, AllocError> {
    match folder_with(alloc, &EVEN_BYTES, &ODD_BYTES) {
        Ok(folder) => Ok(folder),
        Err(AllocError) => folder_with(alloc, &EVEN_BYTES, &ODD_BYTES),
    }
}

/// Whether the older files stand there.
pub fn is_old(folder: &MemoryFolder) -> bool {
    folder.get("d/c.0") == Some(b"old".as_slice())
        && folder.get("d/c.1") == Some(b"older".as_slice())
}

/// Whether both files have their bytes.
pub fn is_saved(folder: &MemoryFolder) -> bool {
    folder.get("d/c.0") == Some(EVEN_BYTES.as_slice())
        && folder.get("d/c.1") == Some(ODD_BYTES.as_slice())
}

/// Whether each file is as it was or has its bytes.
pub fn is_old_or_new(folder: &MemoryFolder) -> bool {
    let zero = folder.get("d/c.0");
    let one = folder.get("d/c.1");
    (zero == Some(b"old".as_slice()) || zero == Some(EVEN_BYTES.as_slice()))
        && (one == Some(b"older".as_slice()) || one == Some(ODD_BYTES.as_slice()))
}

/// Whether the temp file stands there.
pub fn has_temp(folder: &MemoryFolder) -> bool {
    folder.get(TEMP).is_some()
}
