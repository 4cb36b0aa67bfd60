//! N shards under one limit on their weight, of one owner.
ghost use Rattle.std.specs.Prelude.{◌≡◌, ◌+◌, ◌%◌, ◌<◌, ◌≤◌, [], length, Ok, IfOk, IfErr, Option, option_map, map, replicate};
ghost use Rattle.lru_shard.specs.Shard.{shard};
ghost use Rattle.lru_cores.specs.Representation.Units.{lists_of};

use lru_index::hashing::SeededHashes;
pub use lru_shard::eviction::EvictError;
use lru_shard::totals::Totals;
use lru_shard::unit::{Cause, LruUnit, LruUnitIter, Refused};
use std::alloc::{AllocError, Global};
use std::hash::BuildHasher;
use std::marker::Model;

// Makes a call on one shard, and brings the totals of all shards after it.
macro_rules! counted {
    ($totals:expr, $shard:ident, $call:expr) => {{
        let before = Totals::of($shard);
        let answer = $call;
        let after = Totals::of($shard);
        $totals.change(before, after);
        answer
    }};
}

/// N shards, each a list of rows, most recent first. A key's shard is the key modulo N.
///
/// The core is over where the sum of all weights is above its weight limit, or where it has a
/// watermark and more rows than that. Calls may make it over; evictions bring it back.
///
/// Only the constructors, `reserve_shard`, `peek_lru`, `evict_to_limit` and a call that makes a row for a missing key
/// take memory.
#[derive(Drop)]
pub struct LruCore<T, const N: usize, S: BuildHasher = SeededHashes> {
    pub(crate) units: Vec<LruUnit<T, S>>,
    pub(crate) totals: Totals,
    pub(crate) weight_limit: usize,
    pub(crate) watermark: Option<usize>,
    pub(crate) evicted_weight: usize,
    pub(crate) evicted_len: usize,
}

impl<T, const N: usize, S: BuildHasher> Model for LruCore<T, N, S> {
    ghost use Rattle.lru_cores.specs.Core.{Core, core_code};

    ghost Value = { Core T };

    ghost coded = { core_code T.code };

    ghost use Rattle.lru_cores.specs.Representation.Units.{lists_of, AreUnits};

    ghost view = { λ c. record {
      lists = lists_of c.units.items;
      weight_limit = c.weight_limit;
      watermark = c.watermark;
      evicted_weight = c.evicted_weight;
      evicted_len = c.evicted_len;
    } };

    ghost invariant = { λ c. AreUnits N c.units.items c.totals.weight c.totals.len };
}

// Empty shards, each with room for `capacity` rows.
fn empty_units<T: Drop, S: BuildHasher + Copy>(
    alloc: Global,
    count: usize,
    capacity: usize,
    cap: usize,
    hash_builder: S,
) -> Result<Vec<LruUnit<T, S>>, AllocError>
    ensures { IfOk result (λ units. units.items ≡ replicate count (shard [] cap)) }
{
    let mut units = Vec::with_capacity(alloc, count)?;
    for _ in 0..count {
        let unit = LruUnit::with_capacity_and_hasher(alloc, capacity, cap, hash_builder)?;
        units.push(unit)?;
    }
    Ok(units)
}

impl<T, const N: usize> LruCore<T, N> {
    /// An empty core with a limit on its weight. Each shard has room for `capacity` rows, and may weigh
    /// `usize::MAX / N`. The seed of the hashes stays the same from run to run.
    pub fn with_capacity(
        alloc: Global,
        weight_limit: usize,
        capacity: usize,
    ) -> Result<Self, AllocError>
    where
        T: Drop,
        requires { 0 < N }
        ensures { IfOk result (λ core. core ≡ record {
          lists = replicate N [];
          weight_limit = weight_limit;
          watermark = None;
          evicted_weight = 0;
          evicted_len = 0;
        }) }
    {
        Self::with_capacity_and_watermark(alloc, weight_limit, capacity, None)
    }

    /// An empty core with a limit on its weight and, where there is a watermark, on its length.
    /// Each shard has room for `capacity` rows, and may weigh `usize::MAX / N`.
    pub fn with_capacity_and_watermark(
        alloc: Global,
        weight_limit: usize,
        capacity: usize,
        watermark: Option<usize>,
    ) -> Result<Self, AllocError>
    where
        T: Drop,
        requires { 0 < N }
        ensures { IfOk result (λ core. core ≡ record {
          lists = replicate N [];
          weight_limit = weight_limit;
          watermark = watermark;
          evicted_weight = 0;
          evicted_len = 0;
        }) }
    {
        let hashes = SeededHashes::fixed();
        LruCore::with_capacity_and_hasher(alloc, weight_limit, capacity, watermark, hashes)
    }

    /// The same with a seed for the hashes of all shards: who picks the keys and does not know it can't pick keys that
    /// collide. A key's shard does not hang on it.
    pub fn with_capacity_and_seed(
        alloc: Global,
        weight_limit: usize,
        capacity: usize,
        watermark: Option<usize>,
        seed: u64,
    ) -> Result<Self, AllocError>
    where
        T: Drop,
        requires { 0 < N }
        ensures { IfOk result (λ core. core ≡ record {
          lists = replicate N [];
          weight_limit = weight_limit;
          watermark = watermark;
          evicted_weight = 0;
          evicted_len = 0;
        }) }
    {
        let hashes = SeededHashes::with_seed(seed);
        LruCore::with_capacity_and_hasher(alloc, weight_limit, capacity, watermark, hashes)
    }
}

impl<T, const N: usize, S: BuildHasher> LruCore<T, N, S> {
    ghost use Rattle.lru_shard.specs.Row.{pair_of, row_of, is_held, last_row, weight_of};
    ghost use Rattle.lru_shard.specs.Unit.{VisitsEach};
    ghost use Rattle.lru_cores.specs.Core.{core_weight, core_len, list_at, home, IsCore};

    /// The same over hashers of the caller's, which all shards share.
    pub fn with_capacity_and_hasher(
        alloc: Global,
        weight_limit: usize,
        capacity: usize,
        watermark: Option<usize>,
        hash_builder: S,
    ) -> Result<Self, AllocError>
    where
        T: Drop,
        S: Copy,
        requires { 0 < N }
        ensures { IfOk result (λ core. core ≡ record {
          lists = replicate N [];
          weight_limit = weight_limit;
          watermark = watermark;
          evicted_weight = 0;
          evicted_len = 0;
        }) }
    {
        Ok(LruCore {
            units: empty_units(alloc, N, capacity, usize::MAX / N, hash_builder)?,
            totals: Totals { weight: 0, len: 0 },
            weight_limit,
            watermark,
            evicted_weight: 0,
            evicted_len: 0,
        })
    }

    /// The number of shards, N.
    pub fn shards(&self) -> usize
        ensures value { result ≡ N }
        ensures valid { IsCore N self.now }
    {
        // Read for the proof alone, which learns from it what the type says of itself (here and below).
        let _units = &self.units;
        N
    }

    /// The sum of the weights of all rows.
    pub fn weight(&self) -> usize
        ensures { result ≡ core_weight self.now }
    {
        self.totals.weight
    }

    /// The number of all rows.
    pub fn len(&self) -> usize
        ensures { result ≡ core_len self.now }
    {
        self.totals.len
    }

    /// The weight above which the core is over.
    pub fn weight_limit(&self) -> usize
        ensures { result ≡ self.now.weight_limit }
    {
        self.weight_limit
    }

    /// Sets the weight above which the core is over. It evicts nothing.
    pub fn set_weight_limit(&mut self, limit: usize)
        ensures { self.new ≡ record self.old { weight_limit = limit } }
    {
        self.weight_limit = limit;
    }

    /// The sum of the weights of all rows evicted so far, modulo 2^64.
    pub fn evicted_weight(&self) -> usize
        ensures { result ≡ self.now.evicted_weight }
    {
        self.evicted_weight
    }

    /// The number of all rows evicted so far, modulo 2^64.
    pub fn evicted_len(&self) -> usize
        ensures { result ≡ self.now.evicted_len }
    {
        self.evicted_len
    }

    /// The number of rows of a shard.
    pub fn shard_len(&self, shard: usize) -> usize
        requires { shard < N }
        ensures { result ≡ length (list_at self.now shard) }
    {
        self.units[shard].len()
    }

    /// The sum of the weights of the rows of a shard.
    pub fn shard_weight(&self, shard: usize) -> usize
        requires { shard < N }
        ensures { result ≡ weight_of (list_at self.now shard) }
    {
        self.units[shard].used_weight()
    }

    /// The rows of a shard as pairs of data and weight, most recent first.
    pub fn iter_shard(&self, shard: usize) -> LruUnitIter<'_, T>
        requires { shard < N }
        ensures { result ≡ map pair_of (list_at self.now shard) }
    {
        self.units[shard].iter()
    }

    /// Calls a closure with the data and the weight of each row of a shard, most recent first.
    pub fn iter_for_each<F: FnMut((&T, usize))>(&self, shard: usize, mut visit: F)
        requires shard { shard < N }
        requires visit { F.IsAlwaysCallable visit }
        ensures { VisitsEach (λ p x q. F.step p x tt q) visit (list_at self.now shard) }
    {
        let mut rest = self.iter_shard(shard);
        while let Some(pair) = rest.next() {
            visit(pair);
        }
    }

    /// Whether a key has a row.
    pub fn peek(&self, key: u64) -> bool
        ensures { result ≡ is_held (list_at self.now (home self.now key)) key }
    {
        let _units = &self.units;
        let shard = (key % N as u64) as usize;
        self.units[shard].contains(key)
    }

    /// The weight of a key.
    pub fn peek_weight(&self, key: u64) -> Option<usize>
        ensures { result ≡ option_map (λ r. r.weight) (row_of (list_at self.now (home self.now key)) key) }
    {
        let _units = &self.units;
        let shard = (key % N as u64) as usize;
        self.units[shard].peek_weight(key)
    }

    /// The data, cloned, and the weight of the row of a shard that was used longest ago; `None` of an empty
    /// shard, and past N. A clone has to equal its source.
    pub fn peek_lru(&self, shard: usize) -> Result<Option<(T, usize)>, AllocError>
    where
        T: Clone,
        requires { (d e : T) → T.is_clone d e → e ≡ d }
        ensures ok { IfOk result (λ found. found ≡ option_map pair_of (last_row (list_at self.now shard))) }
        ensures err { IfErr result (λ _. 0 < length (list_at self.now shard)) }
    {
        let _units = &self.units;
        if shard >= N {
            return Ok(None);
        }
        let unit = &self.units[shard];
        let Some((data, weight)) = unit.peek_lru() else {
            return Ok(None);
        };
        Ok(Some((data.clone()?, weight)))
    }

    /// Makes room for `additional` more rows in a shard; past N it does nothing. Nothing else changes,
    /// also where it is refused.
    pub fn reserve_shard(&mut self, shard: usize, additional: usize) -> Result<(), AllocError>
        ensures same { self.new ≡ self.old }
        ensures past { N ≤ shard → result ≡ Ok tt }
    {
        if shard >= N {
            return Ok(());
        }
        let unit = &mut self.units[shard];
        unit.reserve(additional)
    }
}

impl<T: Drop, const N: usize, S: BuildHasher> LruCore<T, N, S> {
    ghost use Rattle.lru_shard.specs.Row.{row, pair_of, row_of, is_held, without};
    ghost use Rattle.lru_shard.specs.Unit.{Updates, accessed};
    ghost use Rattle.lru_cores.specs.Core.{list_at, with_list, home};
    ghost use Rattle.lru_shard.specs.ShardCalls.{promoted_past};
    ghost use Rattle.lru_cores.specs.CoreCalls.{CoreAdmits, CoreInsertsTail, CoreIncrements, CoreUpdates, CoreSetsWeight, CorePulls};

    /// Puts a row first in the shard of its key, in place of the key's, and answers that shard.
    /// A weight of 0 counts as 1.
    ///
    /// It may make the core over, and evicts nothing. A refusal, for Length, Weight or Memory as a
    /// shard refuses, hands the data back and changes nothing.
    pub fn admit(&mut self, key: u64, data: T, weight: usize) -> Result<usize, Refused<T>>
        ensures { CoreAdmits self.old key «data» weight result self.new }
    {
        let _units = &self.units;
        let shard = (key % N as u64) as usize;
        let unit = &mut self.units[shard];
        let answer = counted!(self.totals, unit, unit.admit(key, data, weight.max(1)));
        if let Err(refused) = answer {
            return Err(refused);
        }
        Ok(shard)
    }

    /// Puts a row last in the shard of its key where the key has none, and answers true; else it answers
    /// false, and the data is dropped. A weight of 0 is kept.
    ///
    /// It may make the core over, and evicts nothing. A refusal, for Length, Weight or Memory as a
    /// shard refuses, hands the data back and changes nothing.
    pub fn insert_tail(&mut self, key: u64, data: T, weight: usize) -> Result<bool, Refused<T>>
        ensures { CoreInsertsTail self.old key «data» weight result self.new }
    {
        let _units = &self.units;
        let shard = (key % N as u64) as usize;
        let unit = &mut self.units[shard];
        counted!(self.totals, unit, unit.insert_tail(key, data, weight))
    }

    /// Adds to a key's weight, puts its row first, and answers the new weight, as `LruUnit` does.
    ///
    /// It may make the core over, and evicts nothing. A refusal, for Length, Weight or Memory as a
    /// shard refuses, comes before `admit_data` is called, and changes nothing.
    pub fn increment_weight<F: FnOnce() -> T + Drop>(
        &mut self,
        key: u64,
        admit_data: F,
        delta: usize,
        max_weight: Option<usize>,
    ) -> Result<usize, Cause>
        requires { F.IsAlwaysCallable admit_data }
        ensures { CoreIncrements (F.post admit_data) self.old key delta max_weight result self.new }
    {
        let _units = &self.units;
        let shard = (key % N as u64) as usize;
        let unit = &mut self.units[shard];
        let answer = counted!(
            self.totals,
            unit,
            unit.increment_weight(key, admit_data, delta, max_weight)
        );
        let (_, new_weight, _) = match answer {
            Ok(done) => done,
            Err(cause) => return Err(cause),
        };
        Ok(new_weight)
    }

    /// Updates a key's data and weight, or admits what `admit_data` gives, puts the row first, and answers
    /// the weight that the key had, `None` for a new row, as `LruUnit` does.
    ///
    /// It may make the core over, and evicts nothing. A refusal is a shard's: a new key is refused for
    /// Length or Memory before `admit_data` is called, and for Weight after it, which hands back what it
    /// gave; a present one for Weight alone, which keeps what `update` wrote.
    pub fn update_or_admit<U, A>(
        &mut self,
        key: u64,
        update: U,
        admit_data: A,
    ) -> Result<Option<usize>, Refused<Option<(T, usize)>>>
    where
        U: FnOnce(&mut T, usize) -> usize + Drop,
        A: FnOnce() -> (T, usize) + Drop,
        requires update { U.IsAlwaysCallable update }
        requires admit_data { A.IsAlwaysCallable admit_data }
        ensures { CoreUpdates (Updates (U.post update)) (A.post admit_data) self.old key result self.new }
    {
        let _units = &self.units;
        let shard = (key % N as u64) as usize;
        let unit = &mut self.units[shard];
        let answer = counted!(
            self.totals,
            unit,
            unit.update_or_admit(key, update, admit_data)
        );
        let (was, _) = match answer {
            Ok(done) => done,
            Err(refused) => return Err(refused.untold()),
        };
        Ok(was)
    }

    /// Gives a key another weight, in its place, and answers the weight that it had; `None` where it has
    /// no row. A weight of 0 counts as 1.
    ///
    /// It may make the core over, and evicts nothing. It is refused for Weight alone, and changes nothing
    /// then.
    pub fn set_weight(&mut self, key: u64, weight: usize) -> Result<Option<usize>, Cause>
        ensures { CoreSetsWeight self.old key weight result self.new }
    {
        let _units = &self.units;
        let shard = (key % N as u64) as usize;
        let unit = &mut self.units[shard];
        counted!(self.totals, unit, unit.set_weight(key, weight.max(1)))
    }

    /// Puts a key's row first, and answers whether there is one.
    pub fn promote(&mut self, key: u64) -> bool
        ensures answer { result ≡ is_held (list_at self.old (home self.old key)) key }
        ensures rows { self.new ≡ with_list self.old (home self.old key) (accessed (list_at self.old (home self.old key)) key) }
    {
        let _units = &self.units;
        let shard = (key % N as u64) as usize;
        self.units[shard].access(key)
    }

    /// Puts a key's row first unless it is among the first `top`, and answers whether there is one.
    /// With `top` 0 a row that is there is always put first.
    pub fn promote_top_n(&mut self, key: u64, top: usize) -> bool
        ensures answer { result ≡ is_held (list_at self.old (home self.old key)) key }
        ensures rows { self.new ≡ with_list self.old (home self.old key) (promoted_past (list_at self.old (home self.old key)) key top) }
    {
        let _units = &self.units;
        let shard = (key % N as u64) as usize;
        let unit = &mut self.units[shard];
        if !unit.need_promote(key, top) {
            return true;
        }
        unit.access(key)
    }

    /// Takes a key's row out, and answers its data and weight. It counts as no eviction.
    pub fn remove(&mut self, key: u64) -> Option<(T, usize)>
        ensures answer { result ≡ option_map pair_of (row_of (list_at self.old (home self.old key)) key) }
        ensures rows { self.new ≡ with_list self.old (home self.old key) (without (list_at self.old (home self.old key)) key) }
    {
        let _units = &self.units;
        let shard = (key % N as u64) as usize;
        let unit = &mut self.units[shard];
        counted!(self.totals, unit, unit.remove(key))
    }

    /// Moves a key's row out of `from`, puts it first in the shard of the same number here, and answers its
    /// weight; `None` where `from` has no such row. The key may have no row here.
    ///
    /// It may make the core over, and evicts nothing. A refusal, for Length, Weight or Memory as a shard
    /// refuses a new row, changes neither core.
    pub fn pull(&mut self, from: &mut Self, key: u64) -> Result<Option<usize>, Cause>
        requires { row_of (list_at self.old (home self.old key)) key ≡ None }
        ensures { CorePulls self.old from.old key result self.new from.new }
    {
        let _units = &self.units;
        let _others = &from.units;
        let shard = (key % N as u64) as usize;
        let unit = &mut self.units[shard];
        let other = &mut from.units[shard];
        counted!(
            from.totals,
            other,
            counted!(self.totals, unit, unit.pull(other, key))
        )
    }
}
