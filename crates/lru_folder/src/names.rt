//! The names of a shard's files.
ghost use Rattle.std.specs.Prelude.{◌≡◌, IfOk, string_bytes};
ghost use Rattle.lru_folder.specs.Names.{is_temp_name, path_text, shard_path, shard_text, temp_text};

use std::alloc::{AllocError, Global};

/// The path of a name in a folder, which ends in no slash but where it is all that there is.
pub fn path_of(alloc: Global, dir: &str, name: &str) -> Result<String, AllocError>
    ensures { IfOk result (λ path. string_bytes path ≡ path_text dir.now name.now) }
{
    let bytes = dir.as_bytes();
    if bytes.len() == 0 || bytes[bytes.len() - 1] == b'/' {
        format!(in alloc; "{dir}{name}")
    } else {
        format!(in alloc; "{dir}/{name}")
    }
}

/// The name of a shard's file.
pub fn shard_name(alloc: Global, file_name: &str, shard: usize) -> Result<String, AllocError>
    ensures { IfOk result (λ name. string_bytes name ≡ shard_text file_name.now shard) }
{
    format!(in alloc; "{file_name}.{shard}")
}

/// The path of a shard's file.
pub fn shard_path(
    alloc: Global,
    dir: &str,
    file_name: &str,
    shard: usize,
) -> Result<String, AllocError>
    ensures { IfOk result (λ path. string_bytes path ≡ shard_path dir.now file_name.now shard) }
{
    let name = shard_name(alloc, file_name, shard)?;
    path_of(alloc, dir, &name)
}

/// The name of the file that a shard is first written to, with a random word.
pub fn temp_name(
    alloc: Global,
    file_name: &str,
    shard: usize,
    word: u32,
) -> Result<String, AllocError>
    ensures { IfOk result (λ name. string_bytes name ≡ temp_text file_name.now shard word) }
{
    format!(in alloc; "{file_name}.{shard}.{word:08x}.tmp")
}

/// Whether cleanup removes this name.
pub fn is_temp_name(file_name: &str, name: &str) -> bool
    ensures { result ≡ is_temp_name file_name.now name.now }
{
    name.starts_with(file_name) && name.ends_with(".tmp")
}
