//! A slip.

/// What was put: its number in its box, from 0 on, with the hash and the weight of the pair.
#[derive(Clone, Copy, Debug, PartialEq, Eq)]
pub struct Slip {
    /// The number that the box gave it.
    pub number: u64,
    /// The hash of the key.
    pub hash: u64,
    /// The weight of the row that left.
    pub weight: usize,
}
