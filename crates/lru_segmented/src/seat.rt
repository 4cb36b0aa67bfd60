//! Where a value stands.

/// A value, and whether its entry is of the upper segment.
#[derive(Drop)]
pub struct RankedValue<V> {
    pub(crate) value: V,
    pub(crate) upper: bool,
}
