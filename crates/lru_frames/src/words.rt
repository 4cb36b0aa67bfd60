//! Numbers in 8 or 16 bytes each, the lowest byte first, and bytes behind their count.
ghost use Rattle.std.specs.Prelude.{◌≡◌, ◌<◌, ◌^◌, ◌++◌, ℕ, List, length, OnOk, MatchOption};
ghost use Rattle.lru_frames.specs.Words.{word, counted};
ghost use Rattle.lru_frames.specs.Signed.{signed_word, wide_word};

use std::alloc::AllocError;

// Adds a number at the end.
#[tactic(auto, unfolding(crate::specs::Words::word))]
pub(crate) fn put_word(out: &mut Vec<u8>, number: u64) -> Result<(), AllocError>
    ensures { OnOk result (out.new.items ≡ out.old.items ++ word number) }
{
    out.extend_from_slice(&number.to_le_bytes())
}

// The number at the front, and the bytes behind it.
pub(crate) fn take_word(bytes: &[u8]) -> Option<(u64, &[u8])>
    ensures { MatchOption result (length bytes.now < 8) (λ found. bytes.now ≡ word found.0 ++ found.1.now) }
{
    if bytes.len() < 8 {
        return None;
    }
    let (front, rest) = bytes.split_at(8);
    let number = u64::from_le_bytes([
        front[0], front[1], front[2], front[3], front[4], front[5], front[6], front[7],
    ]);
    Some((number, rest))
}

// Adds bytes at the end, behind their count.
pub(crate) fn put_counted(out: &mut Vec<u8>, bytes: &[u8]) -> Result<(), AllocError>
    ensures { OnOk result (out.new.items ≡ out.old.items ++ counted bytes.now) }
{
    put_word(out, bytes.len() as u64)?;
    out.extend_from_slice(bytes)
}

// The counted bytes at the front, and the bytes behind them.
pub(crate) fn take_counted(bytes: &[u8]) -> Option<(&[u8], &[u8])>
    ensures { MatchOption result
        ((text rest : List ℕ) → length text < 2 ^ 64 → bytes.now ≡ counted text ++ rest → ⊥)
        (λ found. bytes.now ≡ counted found.0.now ++ found.1.now) }
{
    match take_word(bytes) {
        None => None,
        Some((count, rest)) => {
            if (rest.len() as u64) < count {
                return None;
            }
            Some(rest.split_at(count as usize))
        }
    }
}

// Adds a number that may be below zero at the end.
pub(crate) fn put_signed(out: &mut Vec<u8>, number: i64) -> Result<(), AllocError>
    ensures { OnOk result (out.new.items ≡ out.old.items ++ signed_word number) }
{
    put_word(out, number.cast_unsigned())
}

// Such a number at the front, and the bytes behind it.
pub(crate) fn take_signed(bytes: &[u8]) -> Option<(i64, &[u8])>
    ensures { MatchOption result (length bytes.now < 8) (λ found. bytes.now ≡ signed_word found.0 ++ found.1.now) }
{
    match take_word(bytes) {
        None => None,
        Some((number, rest)) => Some((number.cast_signed(), rest)),
    }
}

// How many numbers there are of 8 bytes.
const WORDS: u128 = 0x1_0000_0000_0000_0000;

// Adds a number of 16 bytes at the end.
pub(crate) fn put_wide(out: &mut Vec<u8>, number: u128) -> Result<(), AllocError>
    ensures { OnOk result (out.new.items ≡ out.old.items ++ wide_word number) }
{
    put_word(out, (number % WORDS) as u64)?;
    put_word(out, (number / WORDS) as u64)
}

// A number of 16 bytes at the front, and the bytes behind it.
pub(crate) fn take_wide(bytes: &[u8]) -> Option<(u128, &[u8])>
    ensures { MatchOption result
        ((number : ℕ) (rest : List ℕ) → bytes.now ≡ wide_word number ++ rest → ⊥)
        (λ found. bytes.now ≡ wide_word found.0 ++ found.1.now) }
{
    match take_word(bytes) {
        None => None,
        Some((low, rest)) => match take_word(rest) {
            None => None,
            Some((high, rest)) => Some((u128::from(high) * WORDS + u128::from(low), rest)),
        },
    }
}
