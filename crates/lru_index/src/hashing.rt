//! The hash of a key, with the seed of a table.
ghost use Rattle.std.specs.Prelude.{◌≡◌, ◌+◌, ◌-◌, ◌/◌, ◌≤◌, ◌<◌, ◌^◌, length};
ghost use Rattle.lru_index.specs.Hashing.{hash_by, number_at, short_word, folded_multiply, mixed, turned, blocks_mixed, written, spread, drawn, seeded, unseeded};

use std::hash::{BuildHasher, Hash, Hasher};

/// How far apart the numbers lie that SplitMix64 makes its draws of: the golden ratio's part of 2 to the 64.
const STEP: u64 = 0x9e37_79b9_7f4a_7c15;

/// A fast hasher, whose seed decides both what a key's words are joined to and what they are multiplied with.
///
/// So keys that collide under one seed stand apart under another, whatever their type: no clause says so, but it is tested.
/// Who sees hashes, or measures how long calls take, can find the seed, and then keys that collide: against such a one take
/// a keyed hash, as std's `RandomState`.
#[derive(Clone, Copy)]
pub struct SeededHasher {
    /// What the next words are joined to; at last the hash.
    pub state: u64,
    /// What they are multiplied with.
    pub multiplier: u64,
}

impl SeededHasher {
    // Takes two words in.
    #[inline(always)]
    fn mix(&mut self, first: u64, second: u64)
        ensures { self.new ≡ mixed self.old first second }
    {
        self.state = multiply_folded(self.state ^ first, self.multiplier.wrapping_add(second));
    }

    // Turns the state, so that texts of different lengths do not meet where their words are the same. Eight bytes, as of a
    // `u64`, leave it as it is.
    #[inline(always)]
    fn turn(&mut self, len: usize)
        requires { len < 2 ^ 64 }
        ensures { self.new ≡ turned self.old len }
    {
        self.state = self.state.rotate_left((len % 64) as u32 + 56);
    }

    // Takes in all blocks of 16 bytes that have bytes behind them.
    #[inline(always)]
    fn mix_blocks(&mut self, bytes: &[u8])
        requires { 0 < length bytes.now }
        ensures { self.new ≡ blocks_mixed self.old bytes.now ((length bytes.now - 1) / 16) }
    {
        let mut at = 0;
        while bytes.len() - at > 16 {
            self.mix(read_word(bytes, at), read_word(bytes, at + 8));
            at += 16;
        }
    }
}

impl Hasher for SeededHasher {
    ghost write = { written };

    ghost finish = { λ h. h.state };

    #[inline(always)]
    fn finish(&self) -> u64 {
        self.state
    }

    #[inline(always)]
    fn write(&mut self, bytes: &[u8]) {
        let len = bytes.len();
        self.turn(len);
        // Each word of a number goes into both factors: else some seeds would give runs of numbers long chains.
        let (first, second) = if len > 16 {
            self.mix_blocks(bytes);
            (read_word(bytes, len - 16), read_word(bytes, len - 8))
        } else if len > 8 {
            let low = read_word(bytes, 0);
            let sum = low.wrapping_add(read_word(bytes, len - 8));
            (low ^ sum.rotate_left(32), sum)
        } else {
            let word = read_short(bytes);
            (word, word)
        };
        self.mix(first, second);
    }
}

// The product of two words, its halves joined.
#[inline(always)]
fn multiply_folded(a: u64, b: u64) -> u64
    ensures { result ≡ folded_multiply a b }
{
    let product = a as u128 * b as u128;
    (product % 0x1_0000_0000_0000_0000) as u64 ^ (product >> 64) as u64
}

#[inline(always)]
fn read_half(bytes: &[u8], at: usize) -> u64
    requires { at + 4 ≤ length bytes.now }
    ensures number { result ≡ number_at bytes.now at 4 }
    ensures small { result < 2 ^ 32 }
{
    u32::from_le_bytes([bytes[at], bytes[at + 1], bytes[at + 2], bytes[at + 3]]) as u64
}

#[inline(always)]
pub(crate) fn read_word(bytes: &[u8], at: usize) -> u64
    requires { at + 8 ≤ length bytes.now }
    ensures { result ≡ number_at bytes.now at 8 }
{
    u64::from_le_bytes([
        bytes[at],
        bytes[at + 1],
        bytes[at + 2],
        bytes[at + 3],
        bytes[at + 4],
        bytes[at + 5],
        bytes[at + 6],
        bytes[at + 7],
    ])
}

// At most eight bytes, by reads that may overlap.
#[inline(always)]
fn read_short(bytes: &[u8]) -> u64
    ensures { result ≡ short_word bytes.now }
{
    let len = bytes.len();
    if len >= 4 {
        read_half(bytes, 0) + (read_half(bytes, len - 4) << 32)
    } else if len > 0 {
        bytes[0] as u64 + ((bytes[len / 2] as u64) << 8) + ((bytes[len - 1] as u64) << 16)
    } else {
        0
    }
}

/// Makes the hashers of an index, all from one seed.
///
/// The hash of a `u64` is one multiplication to 128 bits, whose halves are joined.
#[derive(Clone, Copy)]
pub struct SeededHashes {
    /// The hasher that each key starts from.
    pub initial: SeededHasher,
}

impl SeededHashes {
    /// The hashes of a seed.
    pub fn with_seed(seed: u64) -> Self
        ensures { result.initial ≡ seeded seed }
    {
        SeededHashes {
            initial: SeededHasher {
                state: draw(seed.wrapping_add(STEP)),
                multiplier: draw(seed.wrapping_add(STEP.wrapping_mul(2))) | 1,
            },
        }
    }

    /// The hashes of the seed that stays the same from run to run.
    pub fn fixed() -> Self
        ensures { result.initial ≡ unseeded }
    {
        SeededHashes {
            initial: SeededHasher {
                state: 0x243f_6a88_85a3_08d3,
                multiplier: STEP,
            },
        }
    }
}

// The last step of SplitMix64.
fn draw(z: u64) -> u64
    ensures { result ≡ spread z }
{
    let a = (z ^ (z >> 30)).wrapping_mul(0xbf58_476d_1ce4_e5b9);
    let b = (a ^ (a >> 27)).wrapping_mul(0x94d0_49bb_1331_11eb);
    b ^ (b >> 31)
}

impl BuildHasher for SeededHashes {
    type Hasher = SeededHasher;

    ghost build_hasher = { λ s. s.initial };

    #[inline(always)]
    fn build_hasher(&self) -> SeededHasher {
        self.initial
    }
}

/// The hash of a key.
#[inline(always)]
pub fn hash_of<S: BuildHasher, K: Hash>(hash_builder: &S, key: &K) -> u64
    ensures { result ≡ hash_by S.BuildHasher S.Hasher.Hasher hash_builder.now (K.hash_input key.now) }
{
    hash_builder.hash_one(key)
}
