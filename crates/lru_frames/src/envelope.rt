//! What stands around the content of a frame.
ghost use Rattle.std.specs.Prelude.{◌≡◌, ◌≢◌, ◌+◌, ◌<◌, ◌^◌, ◌++◌, ℕ, List, length, ◌≤◌, MatchResult, MatchOption, IfSome, IfErr, OnOk, take, drop, vec_len, Err};
ghost use Rattle.lru_frames.specs.declared.errors.Part.TheVariants.{Length};
ghost use Rattle.lru_frames.specs.Words.{word};
ghost use Rattle.lru_frames.specs.Causes.{IsWrongAround};
ghost use Rattle.lru_frames.specs.Envelope.{head_of, with_check, sealed};

use crate::crc64;
use crate::errors::Part;
use crate::words::{put_word, take_word};
use std::alloc::AllocError;

// The bytes of the text LRUFRAME as a number.
const MAGIC: u64 = 0x454D_4152_4655_524C;

const VERSION: u64 = 2;

// Where the length stands.
const LENGTH: usize = 16;

// The bytes before a content: magic, version and length. A check follows it.
const HEAD: usize = 24;

const CHECK: usize = 8;

// Begins a frame: its head, with a length that `seal` makes good.
pub(crate) fn open_head(out: &mut Vec<u8>) -> Result<(), AllocError>
    ensures { OnOk result (out.new.items ≡ out.old.items ++ head_of 0) }
{
    put_word(out, MAGIC)?;
    put_word(out, VERSION)?;
    put_word(out, 0)
}

// Writes a number over the 8 bytes from a place on.
fn set_word(bytes: &mut [u8], place: usize, number: u64)
    requires { place + 8 ≤ length bytes.old }
    ensures { bytes.new ≡ take place bytes.old ++ (word number ++ drop (place + 8) bytes.old) }
{
    bytes[place..place + 8].copy_from_slice(&number.to_le_bytes());
}

// Ends a frame: puts its length into the head, and the check behind it all.
pub(crate) fn seal(out: &mut Vec<u8>) -> Result<(), AllocError>
    requires { 24 ≤ vec_len out.old }
    ensures { (content : List ℕ) → out.old.items ≡ head_of 0 ++ content → OnOk result (out.new.items ≡ sealed content) }
{
    let length = out.len() as u64 + CHECK as u64;
    set_word(out, LENGTH, length);
    let check = crc64(out);
    put_word(out, check)
}

// What stands behind a number, where the bytes begin with it.
fn behind(bytes: &[u8], number: u64) -> Option<&[u8]>
    ensures { MatchOption result
        ((rest : List ℕ) → bytes.now ≡ word number ++ rest → ⊥)
        (λ rest. bytes.now ≡ word number ++ rest.now) }
{
    match take_word(bytes) {
        None => None,
        Some((found, rest)) => { if found == number { Some(rest) } else { None } }
    }
}

// The length that the head tells.
fn told_length(bytes: &[u8]) -> Result<u64, Part>
    ensures head { MatchResult result
        (λ told. (rest : List ℕ) × (bytes.now ≡ head_of told ++ rest))
        (λ _. (told : ℕ) (rest : List ℕ) → bytes.now ≡ head_of told ++ rest → ⊥) }
    ensures wrong { IfErr result (λ part. IsWrongAround part bytes.now) }
{
    let Some(rest) = behind(bytes, MAGIC) else {
        return Err(Part::Magic);
    };
    let Some(rest) = behind(rest, VERSION) else {
        return Err(Part::Version);
    };
    match take_word(rest) {
        None => Err(Part::Length),
        Some((told, _)) => Ok(told),
    }
}

// The bytes before a check, where the check behind them is theirs.
fn checked(bytes: &[u8]) -> Option<&[u8]>
    requires { 8 ≤ length bytes.now }
    ensures front { MatchOption result
        ((front : List ℕ) → bytes.now ≡ with_check front → ⊥)
        (λ front. bytes.now ≡ with_check front.now) }
    ensures length { IfSome result (λ front. length front.now + 8 ≡ length bytes.now) }
{
    let (front, end) = bytes.split_at(bytes.len() - CHECK);
    match behind(end, crc64(front)) {
        None => None,
        Some(_) => Some(front),
    }
}

// The content, where the bytes are sealed. Bytes whose head tells another length are refused for it.
pub(crate) fn opened(bytes: &[u8]) -> Result<&[u8], Part>
    ensures content { MatchResult result
        (λ content. bytes.now ≡ sealed content.now)
        (λ _. (content : List ℕ) → bytes.now ≡ sealed content → ⊥) }
    ensures wrong { IfErr result (λ part. IsWrongAround part bytes.now) }
    ensures short { length bytes.now < 32 → result ≡ Err Length }
    ensures told { (told : ℕ) (rest : List ℕ) → told < 2 ^ 64 → told ≢ length bytes.now
        → bytes.now ≡ head_of told ++ rest → 32 ≤ length bytes.now → result ≡ Err Length }
{
    if bytes.len() < HEAD + CHECK {
        return Err(Part::Length);
    }
    match told_length(bytes) {
        Err(part) => return Err(part),
        Ok(told) => {
            if told != bytes.len() as u64 {
                return Err(Part::Length);
            }
        }
    }
    match checked(bytes) {
        None => Err(Part::Check),
        Some(front) => Ok(front.split_at(HEAD).1),
    }
}
