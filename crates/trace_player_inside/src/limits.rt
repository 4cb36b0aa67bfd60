//! Limits as words: numbers of bytes, with or without a unit.
ghost use Rattle.std.specs.Prelude.{◌≡◌, OnOk, OnErr};
ghost use Rattle.trace_player_inside.specs.Limits.{unit_of, digits_of, scale_of, limit_in, limit_read, with_limit};

use crate::numbers::{NumberFault, number_from};
use std::alloc::AllocError;
use std::fmt;
use std::fmt::Display;

/// Why a word is no limit.
#[derive(Clone, Copy, Debug, PartialEq, Eq)]
pub enum LimitFault {
    /// It is no number, and no number with a unit.
    NotNumber,
    /// It is 2^64 bytes or more, or has more than 20 digits.
    TooLarge,
    /// It is 0.
    Zero,
}

impl Display for LimitFault {
    fn fmt<W: fmt::Write>(&self, f: &mut fmt::Formatter<W>) -> fmt::Result {
        f.write_str(match self {
            LimitFault::NotNumber => "a limit is a number of bytes, such as 512, 64K, 1M or 1G",
            LimitFault::TooLarge => "the limit is too large",
            LimitFault::Zero => "a limit of 0 keeps nothing, it has to be at least 1",
        })
    }
}

// How many bytes a unit has, if the byte is one.
fn unit_of(byte: u8) -> Option<u64>
    ensures { result ≡ unit_of byte }
{
    match byte {
        b'K' | b'k' => Some(1024),
        b'M' | b'm' => Some(1024 * 1024),
        b'G' | b'g' => Some(1024 * 1024 * 1024),
        _ => None,
    }
}

// What stands before the unit of a word, and how many bytes that has: the whole word and 1 where it has none.
fn split_unit(word: &[u8]) -> (&[u8], u64)
    ensures digits { result.0.now ≡ digits_of word.now }
    ensures scale { result.1 ≡ scale_of word.now }
{
    let Some((last, digits)) = word.split_last() else {
        return (word, 1);
    };
    match unit_of(*last) {
        Some(scale) => (digits, scale),
        None => (word, 1),
    }
}

fn scaled(number: u64, scale: u64) -> Result<usize, LimitFault>
    ensures { result ≡ limit_in number scale }
{
    match number.checked_mul(scale) {
        None => Err(LimitFault::TooLarge),
        Some(0) => Err(LimitFault::Zero),
        Some(limit) => Ok(limit as usize),
    }
}

/// The limit that a word is, in bytes: 1 to 20 decimal digits, and then `K`, `M`, `G` or nothing. `K` is 1024 bytes, `M` 1024 K
/// and `G` 1024 M, and a small letter is as its capital. It is at least 1 and below 2^64.
pub fn limit_of(word: &[u8]) -> Result<usize, LimitFault>
    ensures { result ≡ limit_read word.now }
{
    let (digits, scale) = split_unit(word);
    match number_from(digits) {
        Ok(number) => scaled(number, scale),
        Err(NumberFault::TooLarge) => Err(LimitFault::TooLarge),
        Err(NumberFault::Missing | NumberFault::NotDigits) => Err(LimitFault::NotNumber),
    }
}

/// Puts a limit behind these, but for one that is among them. Where it finds no memory they stay as they are.
pub fn add_limit(limits: &mut Vec<usize>, limit: usize) -> Result<(), AllocError>
    ensures added { OnOk result (limits.new.items ≡ with_limit limits.old.items limit) }
    ensures refused { OnErr result (limits.new.items ≡ limits.old.items) }
{
    if limits.contains(&limit) {
        return Ok(());
    }
    limits.push(limit)?;
    Ok(())
}
