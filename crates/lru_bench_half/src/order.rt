//! What each phase does with a key, on any order.

/// An order of rows with a limit on their number. Each call answers whether the key had a row, but for
/// `admit` and `admit_and_evict`, which answer whether it has one now.
pub trait Order {
    /// Puts a row first. The order may then be over its limit.
    fn admit(&mut self, key: u64) -> bool;

    /// Puts a row first, and evicts where the order is over its limit.
    fn admit_and_evict(&mut self, key: u64) -> bool;

    /// Puts the key's row first.
    fn promote(&mut self, key: u64) -> bool;

    /// Looks for the key's row.
    fn peek(&self, key: u64) -> bool;

    /// Looks for the weight of the key's row.
    fn peek_weight(&self, key: u64) -> bool;

    /// Takes the key's row out.
    fn remove(&mut self, key: u64) -> bool;

    /// Puts the key's row first, or a new one where there is none, and evicts where the order is over.
    fn get_or_admit(&mut self, key: u64) -> bool;

    /// How many rows have odd data, found by a walk over all of them.
    fn odd_rows(&self) -> u64;
}
