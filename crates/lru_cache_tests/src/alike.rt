//! Keys of one hash.
use std::hash::{Hash, Hasher};

/// A key whose hash is that of every other.
#[derive(Clone, Copy, Debug, PartialEq, Eq)]
pub struct Alike(pub u8);

impl Hash for Alike {
    ghost use Rattle.std.specs.Prelude.{[]};
    ghost use Rattle.std.proofs.Common.{refl};

    ghost hash_input = { λ _. [] };

    ghost respects_eq = { λ x y e. refl };

    fn hash<H: Hasher>(&self, _state: &mut H) {}
}
