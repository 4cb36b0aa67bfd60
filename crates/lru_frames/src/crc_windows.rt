//! Many bytes without tables. The polynomial divides one of ten terms, each a whole number of bytes from the first one, so a byte
//! may go where it is added to nine others behind it: what is left of many bytes is a window of the last ones.
ghost use Rattle.std.specs.Prelude.{◌≡◌, ◌+◌, ◌<◌, ◌≤◌, length, take, drop, replicate, slice_index, bit_xor};
ghost use Rattle.std.specs.List.{fold};
ghost use Rattle.lru_frames.specs.Crc.{all_ones, step};
ghost use Rattle.lru_frames.specs.CrcWindows.{places, sum_at, state_of};

use crate::crc_lanes::state_by_tables;

// How many bytes lie between the first and the last of the ten.
const SPAN: usize = 1145;

// How many bytes are put behind a window before it is moved to the front.
const CHUNK: usize = 4096;

const ROOM: usize = 5241;

// Bytes that lead from a state of zeros to one of ones.
const ONES: [u8; 8] = [0xfa, 0x35, 0x9f, 0x75, 0x18, 0xec, 0x95, 0xf0];

const START: usize = 1137;

// The byte behind a window that begins at this place, where the byte in front of the window is taken away.
#[inline(always)]
fn tapped(window: &[u8; ROOM], start: usize, byte: u8) -> u8
    requires { start < CHUNK }
    ensures { result ≡ sum_at places window.now start (bit_xor byte (slice_index window.now start)) }
{
    byte ^ window[start]
        ^ window[start + 281]
        ^ window[start + 305]
        ^ window[start + 424]
        ^ window[start + 496]
        ^ window[start + 773]
        ^ window[start + 937]
        ^ window[start + 983]
        ^ window[start + 991]
}

// Puts bytes behind the window in front.
#[inline(always)]
fn put(window: &mut [u8; ROOM], chunk: &[u8])
    requires { length chunk.now ≤ CHUNK }
    ensures { state_of (take SPAN (drop (length chunk.now) window.new)) ≡ fold step (state_of (take SPAN window.old)) chunk.now }
{
    for (k, byte) in chunk.iter().enumerate() {
        window[k + SPAN] = tapped(window, k, *byte);
    }
}

// Makes zeros a window in front that stands for a state of ones.
#[inline(always)]
fn start(window: &mut [u8; ROOM])
    requires { window.old ≡ replicate ROOM 0 }
    ensures { state_of (take SPAN window.new) ≡ all_ones }
{
    window[START..SPAN].copy_from_slice(&ONES);
}

// The state after so many bytes more as a window has, where zeros stand behind it.
#[inline(always)]
fn closed(window: &[u8; ROOM], last: &[u8]) -> u64
    requires count { length last.now ≡ SPAN }
    requires zeros { take SPAN (drop SPAN window.now) ≡ replicate SPAN 0 }
    ensures { result ≡ fold step (state_of (take SPAN window.now)) last.now }
{
    let mut sums = [0; SPAN];
    for (k, byte) in last.iter().enumerate() {
        sums[k] = tapped(window, k, *byte);
    }
    state_by_tables(0, &sums)
}

// The state after the bytes, from one of ones. It has a window among its own variables, so it is a call of its own.
#[inline(never)]
pub(crate) fn state_by_window(bytes: &[u8]) -> u64
    requires { SPAN ≤ length bytes.now }
    ensures { result ≡ fold step all_ones bytes.now }
{
    let (mut rest, last) = bytes.split_at(bytes.len() - SPAN);
    let mut window = [0; ROOM];
    start(&mut window);
    while !rest.is_empty() {
        let (chunk, back) = rest.split_at(rest.len().min(CHUNK));
        put(&mut window, chunk);
        window.copy_within(chunk.len()..chunk.len() + SPAN, 0);
        rest = back;
    }
    window[SPAN..SPAN + SPAN].copy_from_slice(&[0; SPAN]);
    closed(&window, last)
}
