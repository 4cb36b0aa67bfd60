//! The files of a checkpoint that stand in a folder, and what they tell of its generations.
ghost use Rattle.std.specs.Prelude.{◌≡◌, ◌↔◌, ◌<◌, ◌≤◌, ◌^◌, ℕ, suc, AllPairs, Contains, IfErr, IfOk, IsTrue, MatchOption, OnOk, Some, false, map};
ghost use Rattle.lru_folder.specs.Listings.{name_of};
ghost use Rattle.lru_folder.specs.Names.{has_slash};
ghost use Rattle.lru_folder.specs.Places.{can_list};
ghost use Rattle.lru_generations.specs.Reading.{IfFolder};
ghost use Rattle.lru_generations.specs.Touching.{TouchesNothing};
ghost use Rattle.lru_generations.specs.declared.names.PartName.{PartName};
ghost use Rattle.lru_generations.specs.declared.names.PartName.TheVariants.{Manifest};
ghost use Rattle.lru_generations.specs.Listing.{HasListReason, HasParts, IsAbove, IsAnyManifest, IsLeftover};
ghost use Rattle.lru_generations.specs.Names.{IsPart, generation_of, part_text};

use crate::file_errors::{CallFault, ReadError};
use crate::names::{PartName, part_of};
use lru_folder::folder::Folder;
use lru_folder::folder_call::FolderCall;
use lru_folder::listed::Listed;
use std::alloc::{AllocError, Global};

// The parts whose names are listed.
fn parts_in(alloc: Global, file_name: &str, listed: &[Listed]) -> Result<Vec<PartName>, AllocError>
    ensures { IfOk result (λ parts. (part : PartName) → Contains parts.items part
        ↔ (IsPart part × Contains (map name_of listed.now) (Some (part_text file_name.now part)))) }
{
    let mut parts = Vec::new(alloc);
    for entry in listed {
        if let Listed::Name(name) = entry {
            if let Some(part) = part_of(file_name, name.as_str()) {
                parts.push(part)?;
            }
        }
    }
    Ok(parts)
}

/// The parts that have a file in the folder. At every moment all files are as they were.
///
/// `Memory`: no room for the parts. `Folder`: the folder was not listed, for which the device or memory is the reason,
/// or it is not there.
pub fn list_parts<F: Folder>(
    alloc: Global,
    folder: &mut F,
    dir: &str,
    file_name: &str,
) -> Result<Vec<PartName>, ReadError>
    requires { has_slash file_name.now ≡ false }
    ensures parts { F.meaning.keeps folder.old → IfOk result (λ parts. HasParts dir.now file_name.now (F.meaning.files folder.old) parts.items) }
    ensures touches { F.meaning.keeps folder.old → TouchesNothing F.meaning folder.old folder.new }
    ensures named { F.meaning.keeps folder.old → IfErr result (λ e. IfFolder e (λ fault. F.meaning.last_call folder.new ≡ fault.call)) }
    ensures reason { F.meaning.keeps folder.old → IfErr result (HasListReason (¬ IsTrue (can_list (F.meaning.folders folder.old) dir.now))
        (F.meaning.faults folder.old) (F.meaning.faults folder.new)) }
    ensures files { F.meaning.keeps folder.old → F.meaning.files folder.new ≡ F.meaning.files folder.old }
    ensures faults { F.meaning.keeps folder.old → OnOk result (F.meaning.faults folder.new ≡ F.meaning.faults folder.old) }
    ensures places { F.meaning.keeps folder.old → F.meaning.folders folder.new ≡ F.meaning.folders folder.old }
    ensures kept { F.meaning.keeps folder.old ↔ F.meaning.keeps folder.new }
{
    let listed = match folder.list(dir) {
        Ok(listed) => listed,
        Err(source) => {
            let call = FolderCall::List;
            return Err(ReadError::Folder(CallFault { call, source }));
        }
    };
    match parts_in(alloc, file_name, &listed) {
        Ok(parts) => Ok(parts),
        Err(_) => Err(ReadError::Memory),
    }
}

/// The generations that have a manifest among the parts, each once, the highest first.
pub fn generations_of(alloc: Global, parts: &[PartName]) -> Result<Vec<u64>, AllocError>
    ensures found { IfOk result (λ generations. (generation : ℕ) → Contains generations.items generation ↔ Contains parts.now (Manifest generation)) }
    ensures falling { IfOk result (λ generations. AllPairs (λ first later. later < first) generations.items) }
{
    let mut generations = Vec::new(alloc);
    for part in parts {
        if let PartName::Manifest { generation } = part {
            generations.push(*generation)?;
        }
    }
    generations.sort_unstable();
    generations.dedup();
    generations.reverse();
    Ok(generations)
}

/// The least number above the generation of each part. None where a part has the last number that there is.
pub fn generation_above(parts: &[PartName]) -> Option<u64>
    ensures { MatchOption result
        ((part : PartName) × (Contains parts.now part × (suc (generation_of part) ≡ 2 ^ 64)))
        (λ next. IsAbove parts.now next × ((number : ℕ) → IsAbove parts.now number → next ≤ number)) }
{
    let mut next = 0;
    for part in parts {
        let generation = part.generation();
        if generation >= next {
            next = generation.checked_add(1)?;
        }
    }
    Some(next)
}

// Whether the manifest of this generation is among the parts.
fn has_manifest(parts: &[PartName], generation: u64) -> bool
    ensures { IsTrue result ↔ Contains parts.now (Manifest generation) }
{
    parts.contains(&PartName::Manifest { generation })
}

// Whether no manifest tells of the part.
fn is_leftover(parts: &[PartName], part: PartName) -> bool
    ensures { IsTrue result ↔ IsLeftover parts.now part }
{
    match part {
        PartName::Temp { .. } => true,
        _ => !has_manifest(parts, part.generation()),
    }
}

/// The parts that no manifest tells of, in order: those of a generation without a manifest, and each file that a
/// manifest was first written to.
pub fn leftovers(alloc: Global, parts: &[PartName]) -> Result<Vec<PartName>, AllocError>
    ensures { IfOk result (λ left. (part : PartName) → Contains left.items part ↔ (Contains parts.now part × IsLeftover parts.now part)) }
{
    let mut left = Vec::new(alloc);
    for part in parts {
        if is_leftover(parts, *part) {
            left.push(*part)?;
        }
    }
    Ok(left)
}

/// The parts of a lower generation than this one, in order.
pub fn older_than(
    alloc: Global,
    parts: &[PartName],
    generation: u64,
) -> Result<Vec<PartName>, AllocError>
    ensures { IfOk result (λ older. (part : PartName) → Contains older.items part ↔ (Contains parts.now part × (generation_of part < generation))) }
{
    let mut older = Vec::new(alloc);
    for part in parts {
        if part.generation() < generation {
            older.push(*part)?;
        }
    }
    Ok(older)
}

/// The manifests among the parts, and the other parts, both in order.
pub fn manifests_apart(
    alloc: Global,
    parts: &[PartName],
) -> Result<(Vec<PartName>, Vec<PartName>), AllocError>
    ensures manifests { IfOk result (λ both. (part : PartName) → Contains both.0.items part ↔ (Contains parts.now part × IsAnyManifest part)) }
    ensures others { IfOk result (λ both. (part : PartName) → Contains both.1.items part ↔ (Contains parts.now part × (¬ IsAnyManifest part))) }
{
    let mut manifests = Vec::new(alloc);
    let mut others = Vec::new(alloc);
    for part in parts {
        match part {
            PartName::Manifest { .. } => manifests.push(*part)?,
            PartName::Frame { .. } => others.push(*part)?,
            PartName::Temp { .. } => others.push(*part)?,
        }
    }
    Ok((manifests, others))
}
