//! Laws of the bytes of frames. Each stands on a function that does nothing.
ghost use Rattle.std.specs.Prelude.{◌≡◌, ◌<◌, ◌^◌, ◌++◌, ℕ, List, [], length};
ghost use Rattle.lru_frames.specs.declared.frame.Header.{Header};
ghost use Rattle.lru_frames.specs.declared.row.Row.{Row};
ghost use Rattle.lru_frames.specs.Envelope.{ChangesWithinEight};
ghost use Rattle.lru_frames.specs.Rows.{IsSameRow, AreSame};
ghost use Rattle.lru_frames.specs.Frame.{frame_of, Fits};

use crate::stored::Stored;

/// A frame begins no other frame, and is that of one header and of one list of rows.
pub fn one_frame<K: Stored, V: Stored>()
    ensures { (header other : Header) (rows others : List (Row K V)) (rest : List ℕ)
        → Fits K.is_value V.is_value header rows → Fits K.is_value V.is_value other others
        → length (frame_of K.bytes_of V.bytes_of other others) < 2 ^ 64
        → frame_of K.bytes_of V.bytes_of header rows ++ rest ≡ frame_of K.bytes_of V.bytes_of other others
        → (rest ≡ []) × (header ≡ other) × AreSame (IsSameRow K.is_same V.is_same) rows others }
{}

/// No frame is another frame with bytes changed within 8 that stand side by side, in whichever part.
pub fn more_than_eight_bytes_apart<K: Stored, V: Stored>()
    ensures { (header other : Header) (rows others : List (Row K V))
        → ChangesWithinEight (frame_of K.bytes_of V.bytes_of header rows) (frame_of K.bytes_of V.bytes_of other others) → ⊥ }
{}
