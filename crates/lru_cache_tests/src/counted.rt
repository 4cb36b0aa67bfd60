//! Keys and values that count their drops.
ghost use Rattle.std.specs.Prelude.{◌==◌};
ghost use Rattle.std.specs.Hash as fed;
ghost use Rattle.std.specs.Cmp.Rules.{comparing, hashing};
ghost use Rattle.std.proofs.Common.{rules};

use std::cell::Cell;
use std::hash::{Hash, Hasher};

/// What raises a number that others see too where it is dropped. It equals each of the same number, whatever its letter.
pub struct Counted<'a> {
    pub number: u32,
    pub letter: char,
    drops: &'a Cell<u64>,
}

impl<'a> Counted<'a> {
    pub fn new(number: u32, letter: char, drops: &'a Cell<u64>) -> Self {
        Counted {
            number,
            letter,
            drops,
        }
    }
}

impl<'a> Drop for Counted<'a> {
    fn drop(self) {
        let Self {
            number: _,
            letter: _,
            drops,
        } = self;
        drops.set(drops.get().wrapping_add(1));
    }
}

impl<'a> PartialEq for Counted<'a> {
    ghost eq = { λ a b. a.number == b.number };

    ghost laws = { Prim.search (comparing, rules) };

    fn eq(&self, other: &Counted<'a>) -> bool {
        self.number == other.number
    }
}

impl<'a> Eq for Counted<'a> {
    ghost laws = { Prim.search (comparing, rules) };
}

impl<'a> Hash for Counted<'a> {
    ghost hash_input = { λ a. fed.u32 a.number };

    ghost respects_eq = { Prim.search (hashing, rules) };

    fn hash<H: Hasher>(&self, state: &mut H) {
        self.number.hash(state);
    }
}
