//! Frames and their marks.
ghost use Rattle.std.specs.Prelude.{◌≡◌, ◌≢◌, ◌<◌, ◌≤◌, ◌^◌, ◌++◌, ℕ, List, [], length, Err, IfOk, IfErr, IsErr, IsErrAnd, IsOk, MatchResult};
ghost use Rattle.lru_frames.specs.declared.errors.Part.TheVariants.{Length};
ghost use Rattle.lru_frames.specs.declared.errors.FrameError.TheVariants.{Damaged, Memory};
ghost use Rattle.lru_frames.specs.declared.frame.Header.{Header};
ghost use Rattle.lru_frames.specs.declared.row.Row.{Row};
ghost use Rattle.lru_frames.specs.Causes.{IsWrong};
ghost use Rattle.lru_frames.specs.Envelope.{ChangesWithinEight, sealed};
ghost use Rattle.lru_frames.specs.Rows.{IsSameRow, AreSame};
ghost use Rattle.lru_frames.specs.Frame.{frame_of, header_bytes, Fits, IsDamaged, IsHeader};
ghost use Rattle.lru_frames.specs.Marks.{IsWrongFrame, mark_in, mark_of};

use crate::envelope::opened;
use crate::errors::{FrameError, Part};
use crate::frame::{Frame, Header, decode, encode, take_header};
use crate::mark::Mark;
use crate::row::Row;
use crate::stored::Stored;
use crate::words::take_word;
use std::alloc::{AllocError, Global};

// The bytes of the check at the end.
const CHECK: usize = 8;

// The mark of sealed bytes whose content has so many rows.
fn mark_at(bytes: &[u8], rows: u64) -> Mark
    requires { 8 ≤ length bytes.now }
    ensures { (content : List ℕ) → bytes.now ≡ sealed content → result ≡ mark_in rows content }
{
    let end = bytes.split_at(bytes.len() - CHECK).1;
    let check = match take_word(end) {
        None => 0,
        Some((check, _)) => check,
    };
    Mark {
        rows,
        length: bytes.len() as u64,
        check,
    }
}

/// The bytes of a frame, and its mark.
pub fn encode_marked<K: Stored, V: Stored>(
    alloc: Global,
    header: Header,
    rows: &[Row<K, V>],
) -> Result<(Vec<u8>, Mark), AllocError>
    requires { header.shard < header.shards }
    ensures bytes { IfOk result (λ made. made.0.items ≡ frame_of K.bytes_of V.bytes_of header rows.now) }
    ensures mark { IfOk result (λ made. made.1 ≡ mark_of K.bytes_of V.bytes_of header rows.now) }
    ensures fits { IfOk result (λ made. Fits K.is_value V.is_value header rows.now) }
{
    let bytes = encode(alloc, header, rows)?;
    let mark = mark_at(&bytes, rows.len() as u64);
    Ok((bytes, mark))
}

/// The frame whose bytes these are, read whole or refused as by `decode`, and its mark.
pub fn decode_marked<K: Stored, V: Stored>(
    alloc: Global,
    bytes: &[u8],
) -> Result<(Frame<K, V>, Mark), FrameError>
    // What is read is what these bytes are written for.
    ensures found { IfOk result (λ found. bytes.now ≡ frame_of K.bytes_of V.bytes_of found.0.header found.0.rows.items) }
    ensures mark { IfOk result (λ found. found.1 ≡ mark_of K.bytes_of V.bytes_of found.0.header found.0.rows.items) }
    ensures fits { IfOk result (λ found. Fits K.is_value V.is_value found.0.header found.0.rows.items) }

    // What was written is read, unless memory runs out.
    ensures written { (header : Header) (rows : List (Row K V)) → Fits K.is_value V.is_value header rows
        → bytes.now ≡ frame_of K.bytes_of V.bytes_of header rows
        → MatchResult result
        (λ found. (found.0.header ≡ header) × AreSame (IsSameRow K.is_same V.is_same) found.0.rows.items rows)
        (λ error. error ≡ Memory) }

    // An error tells what is wrong with the bytes, or that memory ran out.
    ensures wrong { IfErr result (λ error. IsWrong K.bytes_of K.is_value V.bytes_of V.is_value error bytes.now) }

    // What was written and then changed anywhere within 8 bytes side by side is damaged.
    ensures changed { (header : Header) (rows : List (Row K V))
        → ChangesWithinEight (frame_of K.bytes_of V.bytes_of header rows) bytes.now → IsErrAnd result IsDamaged }

    // A beginning of what was written is told by its length, and so is what has bytes behind it.
    ensures cut { (header : Header) (rows : List (Row K V)) (rest : List ℕ)
        → length (frame_of K.bytes_of V.bytes_of header rows) < 2 ^ 64 → rest ≢ []
        → frame_of K.bytes_of V.bytes_of header rows ≡ bytes.now ++ rest → result ≡ Err (Damaged Length) }
    ensures longer { (header : Header) (rows : List (Row K V)) (rest : List ℕ)
        → rest ≢ [] → bytes.now ≡ frame_of K.bytes_of V.bytes_of header rows ++ rest → result ≡ Err (Damaged Length) }
{
    match decode(alloc, bytes) {
        Err(error) => Err(error),
        Ok(frame) => {
            let mark = mark_at(bytes, frame.rows.len() as u64);
            Ok((frame, mark))
        }
    }
}

/// What a frame tells of itself, whatever its rows hold.
#[derive(Clone, Copy, Debug, PartialEq, Eq)]
pub struct Inspected {
    /// Which shard it is, and of which generation.
    pub header: Header,
    /// Its mark.
    pub mark: Mark,
}

/// What the frame whose bytes these are tells of itself, by its check alone: no row is read, so it may hold rows of any types.
pub fn inspect(bytes: &[u8]) -> Result<Inspected, Part>
    ensures found { IfOk result (λ it. (rest : List ℕ) × ((bytes.now ≡ sealed (header_bytes it.header it.mark.rows ++ rest))
        × (it.mark ≡ mark_in it.mark.rows (header_bytes it.header it.mark.rows ++ rest)))) }
    ensures shard { IfOk result (λ it. it.header.shard < it.header.shards) }

    // Each frame is told.
    ensures written { (header : Header) (count : ℕ) (rest : List ℕ) → IsHeader header → count < 2 ^ 64
        → bytes.now ≡ sealed (header_bytes header count ++ rest) → IfOk result (λ it. (it.header ≡ header) × (it.mark ≡ mark_in count (header_bytes header count ++ rest))) × IsOk result }

    // An error tells what is wrong with the bytes.
    ensures wrong { IfErr result (λ part. IsWrongFrame part bytes.now) }

    // What was sealed and then changed anywhere within 8 bytes side by side, cut short or made longer is refused.
    ensures changed { (content : List ℕ) → ChangesWithinEight (sealed content) bytes.now → IsErr result }
    ensures cut { (content rest : List ℕ) → length (sealed content) < 2 ^ 64 → rest ≢ []
        → sealed content ≡ bytes.now ++ rest → result ≡ Err Length }
    ensures longer { (content rest : List ℕ) → rest ≢ [] → bytes.now ≡ sealed content ++ rest → result ≡ Err Length }
{
    let content = match opened(bytes) {
        Err(part) => return Err(part),
        Ok(content) => content,
    };
    let Some((header, count, _)) = take_header(content) else {
        return Err(Part::Header);
    };
    if header.shard >= header.shards {
        return Err(Part::Header);
    }
    let mark = mark_at(bytes, count);
    Ok(Inspected { header, mark })
}
