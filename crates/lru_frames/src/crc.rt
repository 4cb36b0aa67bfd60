//! The check of bytes: by tables where they are few, by a window where they are many.
ghost use Rattle.std.specs.Prelude.{◌≡◌};
ghost use Rattle.lru_frames.specs.Crc.{crc_of};

use crate::crc_lanes::state_by_tables;
use crate::crc_windows::state_by_window;

// From how many bytes on a window takes less time than tables.
const MANY: usize = 4096;

/// The check of all bytes.
#[tactic(auto, unfolding(crate::specs::Crc::crc_of))]
pub fn crc64(bytes: &[u8]) -> u64
    ensures { result ≡ crc_of bytes.now }
{
    if bytes.len() < MANY {
        !state_by_tables(u64::MAX, bytes)
    } else {
        !state_by_window(bytes)
    }
}
