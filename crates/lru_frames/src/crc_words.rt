//! Steps of one byte and of many, by tables.
ghost use Rattle.std.specs.Prelude.{◌≡◌, ◌+◌, ◌*◌, ◌%◌, ◌^◌, ◌<◌, ℕ, length, bit_xor};
ghost use Rattle.std.specs.List.{fold};
ghost use Rattle.lru_frames.specs.Crc.{bit_steps, step};

use crate::crc_tables::{FAR, NEAR};

const BYTE: u64 = 0xff;

#[inline(always)]
fn near_entry(row: usize, number: u64) -> u64
    requires { row < 8 }
    ensures { result ≡ bit_steps (8 + row * 8) (number % 2 ^ 8) }
{
    NEAR[row][(number & BYTE) as usize]
}

#[inline(always)]
fn far_entry(row: usize, number: u64) -> u64
    requires { row < 8 }
    ensures { result ≡ bit_steps (200 + row * 8) (number % 2 ^ 8) }
{
    FAR[row][(number & BYTE) as usize]
}

// A state with one more byte.
#[inline(always)]
pub(crate) fn stepped(state: u64, byte: u8) -> u64
    ensures { result ≡ step state byte }
{
    near_entry(0, state ^ u64::from(byte)) ^ (state >> 8)
}

// A state after 64 steps of a bit.
#[inline(always)]
pub(crate) fn near(state: u64) -> u64
    ensures { result ≡ bit_steps 64 state }
{
    near_entry(7, state)
        ^ near_entry(6, state >> 8)
        ^ near_entry(5, state >> 16)
        ^ near_entry(4, state >> 24)
        ^ near_entry(3, state >> 32)
        ^ near_entry(2, state >> 40)
        ^ near_entry(1, state >> 48)
        ^ near_entry(0, state >> 56)
}

// A state after 256 steps of a bit.
#[inline(always)]
pub(crate) fn far(state: u64) -> u64
    ensures { result ≡ bit_steps 256 state }
{
    far_entry(7, state)
        ^ far_entry(6, state >> 8)
        ^ far_entry(5, state >> 16)
        ^ far_entry(4, state >> 24)
        ^ far_entry(3, state >> 32)
        ^ far_entry(2, state >> 40)
        ^ far_entry(1, state >> 48)
        ^ far_entry(0, state >> 56)
}

// Eight bytes as the number that is added to the state before them.
#[inline(always)]
pub(crate) fn word(bytes: &[u8]) -> u64
    requires { length bytes.now ≡ 8 }
    ensures { (state : ℕ) → fold step state bytes.now ≡ bit_steps 64 (bit_xor state result) }
{
    u64::from_le_bytes([
        bytes[0], bytes[1], bytes[2], bytes[3], bytes[4], bytes[5], bytes[6], bytes[7],
    ])
}
