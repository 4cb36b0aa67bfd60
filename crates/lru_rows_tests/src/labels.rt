//! A key and a value without a default.
ghost use Rattle.std.specs.Prelude.{◌==◌};
ghost use Rattle.std.specs.Hash as fed;
ghost use Rattle.std.specs.Cmp.Rules.{comparing, hashing};
ghost use Rattle.std.proofs.Common.{rules};

use std::hash::{Hash, Hasher};

/// A key that equals each of the same number, whatever its letter.
#[derive(Drop)]
pub struct Label {
    pub number: u32,
    pub letter: char,
}

impl PartialEq for Label {
    ghost eq = { λ a b. a.number == b.number };

    ghost laws = { Prim.search (comparing, rules) };

    fn eq(&self, other: &Label) -> bool {
        self.number == other.number
    }
}

impl Eq for Label {
    ghost laws = { Prim.search (comparing, rules) };
}

impl Hash for Label {
    ghost hash_input = { λ a. fed.u32 a.number };

    ghost respects_eq = { Prim.search (hashing, rules) };

    fn hash<H: Hasher>(&self, state: &mut H) {
        self.number.hash(state);
    }
}

/// A value that is nothing but its amount.
#[derive(Drop)]
pub struct Worth {
    pub amount: u64,
}
