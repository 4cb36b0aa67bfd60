//! Makers of hashers that can tell whether they hash alike.
ghost use Rattle.std.specs.Prelude.{◌≡◌, true};

use crate::hashing::SeededHashes;

/// A maker of hashers that can be compared with another, so that a hash that one made serves where the other is used.
pub trait SameHashes {
    /// Whether the other is the same, and so hashes every key alike. False says nothing.
    fn is_same(&self, other: &Self) -> bool
        ensures { result ≡ true → self.now ≡ other.now };
}

impl SameHashes for SeededHashes {
    #[inline(always)]
    fn is_same(&self, other: &Self) -> bool {
        let (own, others) = (self.initial, other.initial);
        own.state == others.state && own.multiplier == others.multiplier
    }
}
