//! What tells a frame from every other one.

/// The mark of a frame: what a manifest keeps of it, so that a frame of another save is not taken for it.
#[derive(Clone, Copy, Debug, PartialEq, Eq)]
pub struct Mark {
    /// How many rows the frame has.
    pub rows: u64,
    /// How many bytes the whole frame has.
    pub length: u64,
    /// The check at its end.
    pub check: u64,
}
