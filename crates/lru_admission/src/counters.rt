//! Counters of four bits, two to a byte, and which of them a hash has.
ghost use Rattle.std.specs.Prelude.{◌≡◌, ◌+◌, ◌*◌, ◌/◌, ◌%◌, ◌^◌, ◌<◌, ◌≤◌, length, map, replicate, slice_index, All, IfOk};
ghost use Rattle.lru_admission.specs.Sketch.{mixed, counter_by, least_of, lifted, raised, counted};
ghost use Rattle.lru_admission.specs.Representation.{counts_in, counted_in};

use std::alloc::{AllocError, Global};

/// How much a counter of four bits can hold.
pub(crate) const MOST: u8 = 15;

// A hash with its bits mixed, as hashes of alike keys may differ in few: the last steps of MurmurHash3.
fn mix(hash: u64) -> u64
    ensures { result ≡ mixed hash }
{
    let a = (hash ^ (hash >> 33)).wrapping_mul(0xff51_afd7_ed55_8ccd);
    let b = (a ^ (a >> 33)).wrapping_mul(0xc4ce_b9fe_1a85_ec53);
    b ^ (b >> 33)
}

// One of the counters, of which there are `counters`, that a hash of these bits has, once they are mixed.
#[tactic(auto, unfolding(crate::specs::Sketch::counter_by))]
fn pick(bits: u64, which: u64, counters: usize) -> usize
    requires which { which < 4 }
    requires some { 0 < counters }
    ensures counter { result ≡ counter_by counters bits which }
    ensures below { result < counters }
{
    let step = bits & 0xffff_ffff;
    let spot = ((bits >> 32) + which * step) & 0xffff_ffff;
    ((spot as u128 * counters as u128) >> 32) as usize
}

// What a counter holds.
fn count_at(bytes: &[u8], counter: usize) -> u8
    requires { counter < length (counts_in bytes.now) }
    ensures count { result ≡ slice_index (counts_in bytes.now) counter }
    ensures small { result < 16 }
{
    let byte = bytes[counter / 2];
    if counter % 2 == 0 {
        byte % 16
    } else {
        byte / 16
    }
}

// Gives a counter at least so much.
fn lift(bytes: &mut [u8], counter: usize, level: u8)
    requires counter { counter < length (counts_in bytes.old) }
    requires level { level < 16 }
    ensures { counts_in bytes.new ≡ lifted (counts_in bytes.old) counter level }
{
    let byte = bytes[counter / 2];
    let (low, high) = (byte % 16, byte / 16);
    bytes[counter / 2] = if counter % 2 == 0 {
        16 * high + low.max(level)
    } else {
        16 * high.max(level) + low
    };
}

/// The least of what a hash's counters hold.
pub(crate) fn least_of(bytes: &[u8], hash: u64) -> u8
    requires some { 0 < length bytes.now }
    requires few { 2 * length bytes.now < 2 ^ 64 }
    ensures least { result ≡ least_of (counts_in bytes.now) hash }
    ensures small { result < 16 }
{
    let (bits, counters) = (mix(hash), 2 * bytes.len());
    let first = count_at(bytes, pick(bits, 0, counters));
    let second = count_at(bytes, pick(bits, 1, counters));
    let third = count_at(bytes, pick(bits, 2, counters));
    let fourth = count_at(bytes, pick(bits, 3, counters));
    first.min(second).min(third.min(fourth))
}

/// Raises the least of a hash's counters by one, up to 15.
pub(crate) fn raise(bytes: &mut [u8], hash: u64)
    requires some { 0 < length bytes.old }
    requires few { 2 * length bytes.old < 2 ^ 64 }
    ensures { counts_in bytes.new ≡ raised (counts_in bytes.old) hash }
{
    let level = (least_of(bytes, hash) + 1).min(MOST);
    let (bits, counters) = (mix(hash), 2 * bytes.len());
    lift(bytes, pick(bits, 0, counters), level);
    lift(bytes, pick(bits, 1, counters), level);
    lift(bytes, pick(bits, 2, counters), level);
    lift(bytes, pick(bits, 3, counters), level);
}

/// Counts a use of a hash behind `uses` since the last halving, and answers how many there are then.
pub(crate) fn count_use(bytes: &mut [u8], uses: usize, hash: u64) -> usize
    requires some { 0 < length bytes.old }
    requires few { 10 * length bytes.old < 2 ^ 64 }
    requires young { uses < 10 * length bytes.old }
    ensures counted { counted_in bytes.new result ≡ counted (counted_in bytes.old uses) hash }
    ensures young { result < 10 * length bytes.old }
{
    raise(bytes, hash);
    if uses + 1 == 10 * bytes.len() {
        halve(bytes);
        0
    } else {
        uses + 1
    }
}

/// How many bytes of counters there are, each of four bits.
pub(crate) fn len_of(bytes: &[u8]) -> usize
    ensures len { result ≡ length bytes.now }
    ensures small { All (λ count. count < 16) (counts_in bytes.now) }
{
    bytes.len()
}

/// Counters that hold nothing, two to a byte.
pub(crate) fn zeros(alloc: Global, len: usize) -> Result<Vec<u8>, AllocError>
    ensures { IfOk result (λ bytes. bytes.items ≡ replicate len 0) }
{
    vec![in alloc; 0; len]
}

/// Halves what each counter holds.
pub(crate) fn halve(bytes: &mut [u8])
    ensures { counts_in bytes.new ≡ map (λ count. count / 2) (counts_in bytes.old) }
{
    for byte in bytes.iter_mut() {
        let (low, high) = (*byte % 16, *byte / 16);
        *byte = 16 * (high / 2) + low / 2;
    }
}
