//! Shards that are handed out one at a time, each as the frame of its rows.
ghost use Rattle.std.specs.Prelude.{◌≡◌, ◌<◌, ℕ, List, length, IfOk, IfSome, slice_get};
ghost use Rattle.lru_frames.specs.declared.frame.Header.{Header};
ghost use Rattle.lru_frames.specs.declared.row.Row.{Row};
ghost use Rattle.lru_frames.specs.Frame.{frame_of, Fits};
ghost use Rattle.lru_frames.specs.Marks.{mark_of};
ghost use Rattle.lru_frames.specs.Sources.{IsFrameOf};

use crate::frame::Header;
use crate::mark::Mark;
use crate::marked::encode_marked;
use crate::row::Row;
use crate::stored::Stored;
use std::alloc::{AllocError, Global};

/// Shards of which a checkpoint is saved. They are handed out one at a time, so that the rows of one alone are held beside
/// their owner's.
pub trait Source<K: Stored, V: Stored> {
    /// How many shards there are.
    ghost count: { Self → ℕ };

    /// Rows that a shard may hand out. What one owner holds hands out its own rows; what threads share, those of a moment.
    ghost hands_out: { Self → ℕ → List (Row K V) → Type 0 };

    /// How many shards there are.
    fn shards(&self) -> usize
        ensures { result ≡ count self.now };

    /// The frame of a shard under this header, which names it, and the mark of that frame.
    ///
    /// # Errors
    ///
    /// There is no memory.
    fn frame(&self, alloc: Global, header: Header) -> Result<(Vec<u8>, Mark), AllocError>
        requires named { header.shard < count self.now }
        requires part { header.shard < header.shards }
        ensures { IfOk result (λ made. IsFrameOf K.bytes_of K.is_value V.bytes_of V.is_value (hands_out self.now header.shard) header made.0.items made.1) };
}

impl<'a, K: Stored, V: Stored> Source<K, V> for &'a [Vec<Row<K, V>>] {
    ghost count = { λ shards. length shards.now };

    ghost hands_out = { λ shards shard rows. IfSome (slice_get shards.now shard) (λ held. held.items ≡ rows) };

    fn shards(&self) -> usize {
        self.len()
    }

    fn frame(&self, alloc: Global, header: Header) -> Result<(Vec<u8>, Mark), AllocError> {
        let rows = &self[header.shard as usize];
        encode_marked(alloc, header, rows)
    }
}
