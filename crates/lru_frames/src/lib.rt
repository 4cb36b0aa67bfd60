//! The bytes of one shard's checkpoint: rows in a frame that is read whole or refused, and the check of bytes that tells damage.
//!
//! A frame is read exactly as it was written, or refused as damaged or for want of memory. `Stored` are the types that may be saved.
//! `crc64` is CRC-64 as the format xz has it, the plain division bit by bit: it finds each change within eight bytes side by side. It
//! stands on nothing but std.
#![tactic(auto)]

mod crc;
mod crc_lanes;
pub mod crc_laws;
mod crc_tables;
mod crc_windows;
mod crc_words;
mod envelope;
pub mod errors;
pub mod frame;
pub mod laws;
pub mod mark;
pub mod marked;
pub mod row;
mod rows;
pub mod source;
pub mod stored;
mod words;

pub use crc::crc64;
