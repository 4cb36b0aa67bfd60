//! The manifest of a checkpoint: which generation is whole, and which frames it has.
//!
//! A checkpoint of N shards has N + 1 parts. Those below N are the frames of its shards, and part N is the
//! manifest: a frame with one row for each shard, which has the number of rows, the check and the length of the
//! shard's frame. So a manifest is no shard's frame, it tells no more shards than it has rows, and what is told
//! of frames that are changed, cut short or longer is told of manifests too.
ghost use Rattle.std.specs.Prelude.{◌≡◌, ◌≢◌, ◌<◌, ◌^◌, ◌++◌, ℕ, suc, List, [], length, map, IfOk, IfErr, IsErrAnd, MatchResult, Err};
ghost use Rattle.lru_frames.specs.declared.errors.FrameError.TheVariants.{Damaged, Memory};
ghost use Rattle.lru_frames.specs.declared.errors.Part.TheVariants.{Length};
ghost use Rattle.lru_frames.specs.declared.mark.Mark.{Mark};
ghost use Rattle.lru_frames.specs.Envelope.{ChangesWithinEight};
ghost use Rattle.lru_frames.specs.Frame.{IsDamaged};
ghost use Rattle.lru_generations.specs.Manifests.{IsFrameOf, IsRefused, IsManifest, IsWrongManifest, part_header, manifest_bytes, mark_row, row_mark};

use lru_frames::errors::{FrameError, Part};
use lru_frames::frame::{Frame, Header, decode, encode};
use lru_frames::mark::Mark;
use lru_frames::row::Row;
use std::alloc::{AllocError, Global};

/// What a manifest tells.
#[derive(Debug, Drop)]
pub struct Manifest {
    /// The number of the checkpoint that is whole.
    pub generation: u64,
    /// The mark of the frame of each shard, from shard 0 on.
    pub frames: Vec<Mark>,
}

impl Manifest {
    /// The header of a part of the checkpoint: of the frame of a shard, or behind them all of the manifest.
    pub fn part(&self, number: u64) -> Header
        requires { suc (length self.now.frames.items) < 2 ^ 64 }
        ensures { result ≡ part_header self.now.generation (length self.now.frames.items) number }
    {
        Header {
            shards: self.frames.len() as u64 + 1,
            shard: number,
            generation: self.generation,
        }
    }
}

// The rows of these marks.
fn rows_of(alloc: Global, marks: &[Mark]) -> Result<Vec<Row<u64, u64>>, AllocError>
    ensures { IfOk result (λ rows. rows.items ≡ map mark_row marks.now) }
{
    let rows = marks.iter().map(|mark| Row {
        key: mark.rows,
        data: mark.check,
        weight: mark.length as usize,
    });
    rows.collect(alloc)
}

// The marks of these rows.
fn marks_of(alloc: Global, rows: &[Row<u64, u64>]) -> Result<Vec<Mark>, AllocError>
    ensures { IfOk result (λ marks. marks.items ≡ map row_mark rows.now) }
{
    let marks = rows.iter().map(|row| Mark {
        rows: row.key,
        length: row.weight as u64,
        check: row.data,
    });
    marks.collect(alloc)
}

/// The bytes of a manifest.
pub fn encode_manifest(alloc: Global, manifest: &Manifest) -> Result<Vec<u8>, AllocError>
    requires { suc (length manifest.now.frames.items) < 2 ^ 64 }
    ensures bytes { IfOk result (λ bytes. bytes.items ≡ manifest_bytes manifest.now.generation manifest.now.frames.items) }
    ensures fits { IfOk result (λ bytes. IsManifest manifest.now.generation manifest.now.frames.items) }
{
    let rows = rows_of(alloc, &manifest.frames)?;
    encode(alloc, manifest.part(rows.len() as u64), &rows)
}

// The manifest that this frame is.
fn manifest_in(alloc: Global, frame: Frame<u64, u64>) -> Result<Manifest, FrameError>
    ensures found { IfOk result (λ manifest. IsFrameOf frame.header frame.rows.items manifest.generation manifest.frames.items) }
    ensures wrong { IfErr result (λ error. IsRefused error frame.header frame.rows.items) }
{
    let header = frame.header;
    if header.shard.checked_add(1) != Some(header.shards) {
        return Err(FrameError::Damaged(Part::Header));
    }
    if frame.rows.len() as u64 != header.shard {
        return Err(FrameError::Damaged(Part::Rows));
    }
    match marks_of(alloc, &frame.rows) {
        Err(_) => Err(FrameError::Memory),
        Ok(frames) => Ok(Manifest {
            generation: header.generation,
            frames,
        }),
    }
}

/// The manifest whose bytes these are, read whole or refused as `lru_frames::frame::decode` refuses a frame.
///
/// `Damaged(Header)` is also told of a frame that is not the last part, and `Damaged(Rows)` of a last part that
/// has not one row for each shard.
pub fn decode_manifest(alloc: Global, bytes: &[u8]) -> Result<Manifest, FrameError>
    // What is read is what these bytes are written for.
    ensures found { IfOk result (λ manifest. IsManifest manifest.generation manifest.frames.items
        × (bytes.now ≡ manifest_bytes manifest.generation manifest.frames.items)) }

    // What was written is read, unless memory runs out.
    ensures written { (generation : ℕ) (marks : List Mark) → IsManifest generation marks → bytes.now ≡ manifest_bytes generation marks
        → MatchResult result (λ found. (found.generation ≡ generation) × (found.frames.items ≡ marks)) (λ error. error ≡ Memory) }

    // An error tells what is wrong with the bytes, or that memory ran out.
    ensures wrong { IfErr result (λ error. IsWrongManifest error bytes.now) }

    // What was written and then changed anywhere within 8 bytes side by side is damaged.
    ensures changed { (generation : ℕ) (marks : List Mark) → ChangesWithinEight (manifest_bytes generation marks) bytes.now → IsErrAnd result IsDamaged }

    // A beginning of what was written is told by its length, and so is what has bytes behind it.
    ensures cut { (generation : ℕ) (marks : List Mark) (rest : List ℕ) → length (manifest_bytes generation marks) < 2 ^ 64
        → rest ≢ [] → manifest_bytes generation marks ≡ bytes.now ++ rest → result ≡ Err (Damaged Length) }
    ensures longer { (generation : ℕ) (marks : List Mark) (rest : List ℕ) → rest ≢ []
        → bytes.now ≡ manifest_bytes generation marks ++ rest → result ≡ Err (Damaged Length) }
{
    match decode(alloc, bytes) {
        Err(error) => Err(error),
        Ok(frame) => manifest_in(alloc, frame),
    }
}
