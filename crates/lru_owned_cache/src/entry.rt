//! An entry of a cache.

/// A key with its value and its weight.
#[derive(Debug, Drop)]
pub struct Entry<K, V> {
    /// The key.
    pub key: K,
    /// The value.
    pub value: V,
    /// The weight.
    pub weight: usize,
}
