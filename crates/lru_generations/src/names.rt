//! The names of a checkpoint's files.
//!
//! The file of a shard is called `FILE.GENERATION.SHARD`, the manifest `FILE.GENERATION.manifest`, and the
//! file that a manifest is first written to `FILE.GENERATION.manifest.tmp`. The numbers are decimal and
//! have no zeros in front. No two of these names are one, nor is one of them a name of another `FILE`.
ghost use Rattle.std.specs.Prelude.{◌≡◌, ◌≢◌, ◌<◌, ◌^◌, ◌∷◌, ◌++◌, ℕ, List, IfOk, MatchOption, string_bytes};
ghost use Rattle.std.specs.Fmt.{decimal};
ghost use Rattle.lru_generations.specs.declared.names.PartName.{PartName};
ghost use Rattle.lru_generations.specs.Names.{IsPart, LacksDot, frame_path, generation_of, manifest_path, manifest_temp_path, part_text};

use lru_folder::names::{path_of, shard_name, shard_path};
use std::alloc::{AllocError, Global};

/// A file of a checkpoint.
#[derive(Clone, Copy, Debug, PartialEq, Eq)]
pub enum PartName {
    /// The frame of a shard.
    Frame {
        /// The number of the checkpoint.
        generation: u64,
        /// The number of the shard.
        shard: u64,
    },
    /// The manifest.
    Manifest {
        /// The number of the checkpoint.
        generation: u64,
    },
    /// The file that the manifest is first written to.
    Temp {
        /// The number of the checkpoint.
        generation: u64,
    },
}

impl PartName {
    /// The number of the checkpoint that the part is of.
    pub fn generation(&self) -> u64
        ensures { result ≡ generation_of self.now }
    {
        match self {
            PartName::Frame { generation, .. } => *generation,
            PartName::Manifest { generation } => *generation,
            PartName::Temp { generation } => *generation,
        }
    }
}

/// The path of the file of a shard of this generation.
pub fn frame_path(
    alloc: Global,
    dir: &str,
    file_name: &str,
    generation: u64,
    shard: u64,
) -> Result<String, AllocError>
    ensures { IfOk result (λ path. string_bytes path ≡ frame_path dir.now file_name.now generation shard) }
{
    let front = shard_name(alloc, file_name, generation as usize)?;
    shard_path(alloc, dir, &front, shard as usize)
}

/// The path of the manifest of this generation.
pub fn manifest_path(
    alloc: Global,
    dir: &str,
    file_name: &str,
    generation: u64,
) -> Result<String, AllocError>
    ensures { IfOk result (λ path. string_bytes path ≡ manifest_path dir.now file_name.now generation) }
{
    let name = format!(in alloc; "{file_name}.{generation}.manifest")?;
    path_of(alloc, dir, &name)
}

/// The path of the file that the manifest of this generation is first written to.
pub fn manifest_temp_path(
    alloc: Global,
    dir: &str,
    file_name: &str,
    generation: u64,
) -> Result<String, AllocError>
    ensures { IfOk result (λ path. string_bytes path ≡ manifest_temp_path dir.now file_name.now generation) }
{
    let name = format!(in alloc; "{file_name}.{generation}.manifest.tmp")?;
    path_of(alloc, dir, &name)
}

// The number that is written so: with a sign or with zeros in front it is none.
fn number_in(text: &str) -> Option<u64>
    ensures { MatchOption result ((number : ℕ) → number < 2 ^ 64 → text.now ≢ decimal number) (λ number. text.now ≡ decimal number) }
{
    let bytes = text.as_bytes();
    if bytes.len() > 1 && bytes[0] == b'0' {
        return None;
    }
    if !bytes.is_empty() && bytes[0] == b'+' {
        return None;
    }
    text.parse().ok()
}

// The two words behind the checkpoint's own name: what stands before the next dot, and what behind it.
fn words_of<'a>(file_name: &str, name: &'a str) -> Option<(&'a str, &'a str)>
    ensures { MatchOption result
        ((number kind : List ℕ) → name.now ≢ file_name.now ++ (46 ∷ (number ++ (46 ∷ kind))))
        (λ words. LacksDot words.0.now × (name.now ≡ file_name.now ++ (46 ∷ (words.0.now ++ (46 ∷ words.1.now))))) }
{
    let rest = name.strip_prefix(file_name)?;
    let rest = rest.strip_prefix('.')?;
    rest.split_once('.')
}

/// The file whose name this is, where it is one of a checkpoint's.
pub fn part_of(file_name: &str, name: &str) -> Option<PartName>
    ensures { MatchOption result
        ((part : PartName) → IsPart part → name.now ≢ part_text file_name.now part)
        (λ part. IsPart part × (name.now ≡ part_text file_name.now part)) }
{
    let (number, kind) = words_of(file_name, name)?;
    let generation = number_in(number)?;
    match kind {
        "manifest" => Some(PartName::Manifest { generation }),
        "manifest.tmp" => Some(PartName::Temp { generation }),
        _ => {
            let shard = number_in(kind)?;
            Some(PartName::Frame { generation, shard })
        }
    }
}
