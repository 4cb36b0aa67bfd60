//! A sketch of how often keys were used.
ghost use Rattle.std.specs.Prelude.{◌≡◌, ◌<◌, IfOk};
ghost use Rattle.lru_admission.specs.Sketch.{IsSketch, entries_of, fresh, estimate, counted, halved};

use crate::counters::{count_use, halve, least_of, len_of, zeros};
use std::alloc::{AllocError, Global};
use std::marker::Model;

/// Counts uses of keys, by their hashes, so that those used often can be told from others.
///
/// A hash has four counters of four bits, and shares each with other hashes. A use raises the least of them, and they tell
/// an estimate: at least the uses since the last halving, up to 15. After ten times as many uses as there are entries all
/// counters are halved, so that what was used long ago counts for less. There are two counters for each entry, which take a
/// byte. Only the constructor takes memory.
///
/// Who hashes keys seeds the hashes, as `lru_index::hashing::SeededHashes` does: who knows the seed can pick keys that share
/// their counters.
#[derive(Drop)]
pub struct Sketch {
    bytes: Vec<u8>,
    uses: usize,
}

impl Model for Sketch {
    ghost use Rattle.lru_admission.specs.Sketch.{Counted, counted_code};
    ghost use Rattle.lru_admission.specs.Representation.{counted_in, IsKept};

    ghost Value = { Counted };

    ghost coded = { counted_code };

    ghost view = { λ s. counted_in s.bytes.items s.uses };

    ghost invariant = { λ s. IsKept s.bytes.items s.uses };
}

impl Sketch {
    /// A sketch of no uses, for so many entries; of none it is as of one.
    ///
    /// # Errors
    ///
    /// There is no memory for that many.
    pub fn new(alloc: Global, entries: usize) -> Result<Self, AllocError>
        ensures { IfOk result (λ sketch. sketch ≡ fresh entries) }
    {
        let len = entries.max(1);
        if len.checked_mul(10).is_none() {
            return Err(AllocError);
        }
        Ok(Sketch {
            bytes: zeros(alloc, len)?,
            uses: 0,
        })
    }

    /// For how many entries it is.
    pub fn entries(&self) -> usize
        ensures value { result ≡ entries_of self.now }
        ensures valid { IsSketch self.now }
    {
        len_of(&self.bytes)
    }

    /// How many uses came since the last halving.
    pub fn uses(&self) -> usize
        ensures { result ≡ self.now.uses }
    {
        self.uses
    }

    /// How often a key with this hash was used, as far as is known: from 0 to 15.
    pub fn estimate(&self, hash: u64) -> u8
        ensures estimate { result ≡ estimate self.now hash }
        ensures small { result < 16 }
    {
        least_of(&self.bytes, hash)
    }

    /// Counts a use of a key with this hash. It may be the one that halves.
    pub fn count(&mut self, hash: u64)
        ensures { self.new ≡ counted self.old hash }
    {
        self.uses = count_use(&mut self.bytes, self.uses, hash);
    }

    /// Halves each counter, rounded down.
    pub fn halve(&mut self)
        ensures { self.new ≡ halved self.old }
    {
        halve(&mut self.bytes);
        self.uses = 0;
    }
}
