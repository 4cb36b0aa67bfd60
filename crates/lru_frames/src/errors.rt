//! Why the bytes of a frame were refused.
ghost use Rattle.std.specs.Prelude.{◌≡◌};
ghost use Rattle.lru_frames.specs.Errors.{number_of};

use std::error::Error;
use std::fmt;
use std::fmt::Display;

/// The part of a frame where damage was found. Magic and version are looked at before the length that
/// is told, then the check, then header and rows.
#[derive(Clone, Copy, Debug, PartialEq, Eq)]
pub enum Part {
    /// There are fewer bytes than any frame has, or not as many as the head tells.
    Length,
    /// The bytes begin as no frame does.
    Magic,
    /// The frame is of another version.
    Version,
    /// The check is not that of the bytes.
    Check,
    /// The content begins with no header: the shard's number is not below the number of shards.
    Header,
    /// Behind the header there are not just as many rows of these types as it tells.
    Rows,
}

impl Display for Part {
    ghost use Rattle.std.specs.Prelude.{Some};
    ghost use Rattle.lru_frames.specs.Errors.{part_text};

    ghost output = { λ part. Some (part_text part) };

    fn fmt<W: fmt::Write>(&self, f: &mut fmt::Formatter<W>) -> fmt::Result {
        match self {
            Part::Length => f.write_str("length"),
            Part::Magic => f.write_str("magic"),
            Part::Version => f.write_str("version"),
            Part::Check => f.write_str("check"),
            Part::Header => f.write_str("header"),
            Part::Rows => f.write_str("rows"),
        }
    }
}

/// Why no frame was read.
#[derive(Clone, Copy, Debug, PartialEq, Eq)]
pub enum FrameError {
    /// The bytes are no frame.
    Damaged(Part),
    /// No memory was found for the rows.
    Memory,
}

impl FrameError {
    /// The number of this error: 1 for memory, from 2 on for the parts in their order.
    pub fn number(&self) -> u8
        ensures { result ≡ number_of self.now }
    {
        match self {
            FrameError::Memory => 1,
            FrameError::Damaged(Part::Length) => 2,
            FrameError::Damaged(Part::Magic) => 3,
            FrameError::Damaged(Part::Version) => 4,
            FrameError::Damaged(Part::Check) => 5,
            FrameError::Damaged(Part::Header) => 6,
            FrameError::Damaged(Part::Rows) => 7,
        }
    }
}

impl Display for FrameError {
    ghost use Rattle.std.specs.Prelude.{Some};
    ghost use Rattle.lru_frames.specs.Errors.{frame_error_text};

    ghost output = { λ error. Some (frame_error_text error) };

    fn fmt<W: fmt::Write>(&self, f: &mut fmt::Formatter<W>) -> fmt::Result {
        match self {
            FrameError::Damaged(part) => write!(f, "damaged {part}"),
            FrameError::Memory => f.write_str("out of memory"),
        }
    }
}

impl Error for FrameError {}
