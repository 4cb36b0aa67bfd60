//! Two cores as the tiers of a cache: rows go from one to the other whole, and no key has a row in both.
ghost use Rattle.std.specs.Prelude.{◌≡◌, ℕ, ◌<◌, List, [], Ok, Err, None, IfOk, IfErr, OnOk, OnErr, option_map, replicate, IsFalse};
ghost use Rattle.lru_cores.specs.Tiers.{Tiers, AreTiers};
ghost use Rattle.lru_cores.specs.TierRuns.{Event, Runs, IsAccounted};

use crate::lru_core::LruCore;
use lru_index::hashing::SeededHashes;
use lru_shard::eviction::drawn_shards;
use lru_shard::unit::{Cause, Refused};
use rand_core::Rng;
use std::alloc::{AllocError, Global};
use std::hash::BuildHasher;
use std::marker::Model;

/// One of the two tiers.
#[derive(Clone, Copy, Debug, PartialEq, Eq)]
pub enum Tier {
    Hot,
    Cold,
}

/// A `balance` that was refused.
#[derive(Debug, Drop)]
pub struct BalanceError<T> {
    /// Why a spill was refused, or Memory where an eviction found none.
    pub cause: Cause,
    /// The data and the weight of each row that was evicted, in order; none where a spill was refused.
    pub evicted: Vec<(T, usize)>,
}

/// A hot and a cold core of N shards each, with a limit on the weight of each. No key has a row in both.
///
/// New rows come into the hot core. What makes it over spills into the cold one, and what makes that over
/// is evicted.
#[derive(Drop)]
pub struct TieredCore<T, const N: usize, S: BuildHasher = SeededHashes> {
    hot: LruCore<T, N, S>,
    cold: LruCore<T, N, S>,
}

impl<T, const N: usize, S: BuildHasher> Model for TieredCore<T, N, S> {
    ghost use Rattle.lru_cores.specs.Tiers.{Tiers, tiers, tiers_code, AreTiers};

    ghost Value = { Tiers T };

    ghost coded = { tiers_code T.code };

    ghost view = { λ t. tiers t.hot t.cold };

    ghost invariant = { λ t. AreTiers N (tiers t.hot t.cold) };
}

impl<T, const N: usize> TieredCore<T, N> {
    ghost use Rattle.lru_cores.specs.Tiers.{tiers, empty_tier};

    /// Two empty cores with these limits on their weights. Each shard has room for `capacity` rows, and may
    /// weigh `usize::MAX / N`. The seed of the hashes stays the same from run to run.
    pub fn with_limits(
        alloc: Global,
        hot_limit: usize,
        cold_limit: usize,
        capacity: usize,
    ) -> Result<Self, AllocError>
    where
        T: Drop,
        requires { 0 < N }
        ensures { IfOk result (λ tiered. tiered ≡ tiers (empty_tier N hot_limit) (empty_tier N cold_limit)) }
    {
        let hashes = SeededHashes::fixed();
        TieredCore::with_limits_and_hasher(alloc, hot_limit, cold_limit, capacity, hashes)
    }

    /// The same with a seed for the hashes of both cores: who picks the keys and does not know it can't pick keys that
    /// collide. A key's shard does not hang on it.
    pub fn with_limits_and_seed(
        alloc: Global,
        hot_limit: usize,
        cold_limit: usize,
        capacity: usize,
        seed: u64,
    ) -> Result<Self, AllocError>
    where
        T: Drop,
        requires { 0 < N }
        ensures { IfOk result (λ tiered. tiered ≡ tiers (empty_tier N hot_limit) (empty_tier N cold_limit)) }
    {
        let hashes = SeededHashes::with_seed(seed);
        TieredCore::with_limits_and_hasher(alloc, hot_limit, cold_limit, capacity, hashes)
    }
}

impl<T, const N: usize, S: BuildHasher> TieredCore<T, N, S> {
    ghost use Rattle.lru_cores.specs.Core.{Core};
    ghost use Rattle.lru_cores.specs.Eviction.{is_over};
    ghost use Rattle.lru_cores.specs.Tiers.{tiers, row_where, AreTiers, empty_tier};

    /// The same over hashers of the caller's, which all shards share.
    pub fn with_limits_and_hasher(
        alloc: Global,
        hot_limit: usize,
        cold_limit: usize,
        capacity: usize,
        hash_builder: S,
    ) -> Result<Self, AllocError>
    where
        T: Drop,
        S: Copy,
        requires { 0 < N }
        ensures { IfOk result (λ tiered. tiered ≡ tiers (empty_tier N hot_limit) (empty_tier N cold_limit)) }
    {
        Ok(TieredCore {
            hot: LruCore::with_capacity_and_hasher(alloc, hot_limit, capacity, None, hash_builder)?,
            cold: LruCore::with_capacity_and_hasher(
                alloc,
                cold_limit,
                capacity,
                None,
                hash_builder,
            )?,
        })
    }

    /// The hot core.
    pub fn hot(&self) -> &LruCore<T, N, S>
        ensures value { result.now ≡ self.now.hot }
        ensures valid { AreTiers N self.now }
    {
        &self.hot
    }

    /// The cold core.
    pub fn cold(&self) -> &LruCore<T, N, S>
        ensures value { result.now ≡ self.now.cold }
        ensures valid { AreTiers N self.now }
    {
        &self.cold
    }

    /// The tier that has a row of a key, and the row's weight.
    pub fn peek_weight(&self, key: u64) -> Option<(Tier, usize)>
        ensures { result ≡ option_map (λ found. (found.0, found.1.weight)) (row_where self.now key) }
    {
        if let Some(weight) = self.hot.peek_weight(key) {
            return Some((Tier::Hot, weight));
        }
        let weight = self.cold.peek_weight(key)?;
        Some((Tier::Cold, weight))
    }

    fn is_hot_over(&self) -> bool
        ensures { result ≡ is_over self.now.hot }
    {
        self.hot.weight() > self.hot.weight_limit()
    }
}

impl<T: Drop, const N: usize, S: BuildHasher> TieredCore<T, N, S> {
    ghost use Rattle.lru_cores.specs.Eviction.{is_over};
    ghost use Rattle.lru_cores.specs.Tiers.{tiers, core_without, row_where};
    ghost use Rattle.lru_cores.specs.TierCalls.{AdmitsHot, Touches, Spills, SpillsToLimit, StopsSpilling, Balances};

    /// Puts a row first in the shard of its key in the hot core, in place of the key's, and answers that shard.
    /// A weight of 0 counts as 1. A row of the key in the cold core is dropped.
    ///
    /// It may make the hot core over, and moves nothing. A refusal, for Length, Weight or Memory as a shard
    /// refuses, hands the data back and changes nothing.
    pub fn admit(&mut self, key: u64, data: T, weight: usize) -> Result<usize, Refused<T>>
        ensures { AdmitsHot self.old key «data» weight result self.new }
    {
        let shard = match self.hot.admit(key, data, weight) {
            Ok(shard) => shard,
            Err(refused) => return Err(refused),
        };
        self.cold.remove(key);
        Ok(shard)
    }

    /// Puts a hot row first, or pulls a cold one into the hot core, and answers the tier that it was in; `None`
    /// where the key has no row.
    ///
    /// It may make the hot core over. A hot row is never refused. A cold one is refused for Length, Weight or
    /// Memory, as the hot core refuses a new row; then nothing changes.
    pub fn touch(&mut self, key: u64) -> Result<Option<Tier>, Cause>
        ensures { Touches self.old key result self.new }
    {
        if self.hot.promote(key) {
            return Ok(Some(Tier::Hot));
        }
        match self.hot.pull(&mut self.cold, key) {
            Ok(Some(_)) => Ok(Some(Tier::Cold)),
            Ok(None) => Ok(None),
            Err(cause) => Err(cause),
        }
    }

    /// Takes a key's row out of the tier that has it, and answers the tier, its data and its weight.
    pub fn remove(&mut self, key: u64) -> Option<(Tier, T, usize)>
        ensures answer { result ≡ option_map (λ found. (found.0, found.1.value, found.1.weight)) (row_where self.old key) }
        ensures left { self.new ≡ tiers (core_without self.old.hot key) (core_without self.old.cold key) }
    {
        if let Some((data, weight)) = self.hot.remove(key) {
            return Some((Tier::Hot, data, weight));
        }
        let (data, weight) = self.cold.remove(key)?;
        Some((Tier::Cold, data, weight))
    }

    /// Where the hot core is over, moves the row that its `evict_step` would take of these two draws into the
    /// cold core, first in its shard, and answers its key. Else it answers `None`, and nothing changes.
    ///
    /// It may make the cold core over. A refusal, for Length, Weight or Memory as the cold core refuses a new
    /// row, changes nothing.
    pub fn spill_step(&mut self, a: usize, b: usize) -> Result<Option<u64>, Cause>
        requires a { a < N }
        requires b { b < N }
        ensures { Spills self.old a b result self.new }
    {
        let Some(key) = self.hot.victim_key(a, b) else {
            return Ok(None);
        };
        match self.cold.pull(&mut self.hot, key) {
            Ok(Some(_)) => Ok(Some(key)),
            Ok(None) => unreachable!(),
            Err(cause) => Err(cause),
        }
    }

    // Spills while the hot core is over, each time by two draws, a and then b.
    fn spill_to_limit<R: Rng>(&mut self, rng: &mut R) -> Result<(), Cause>
        ensures ok { OnOk result (SpillsToLimit self.old (R.stream rng.old) self.new (R.stream rng.new)) }
        ensures err { IfErr result (λ cause. StopsSpilling self.old (R.stream rng.old) cause self.new (R.stream rng.new)) }
    {
        while self.is_hot_over() {
            // Read for the proof alone, which learns from it what the type says of itself.
            let _hot = &self.hot;
            let (a, b) = drawn_shards::<R, N>(rng);
            if let Err(cause) = self.spill_step(a, b) {
                return Err(cause);
            }
        }
        Ok(())
    }

    /// Spills while the hot core is over, then evicts while the cold core is over, and answers the data and the
    /// weight of each evicted row, in order. For each spill and each eviction it draws two shards, a and then b,
    /// from the generator. With one shard nothing is drawn.
    ///
    /// A refused spill ends it with its cause and no pairs; an eviction that finds no memory ends it with
    /// Memory and the pairs evicted so far. What was spilled and evicted before stands.
    pub fn balance<R: Rng>(
        &mut self,
        alloc: Global,
        rng: &mut R,
    ) -> Result<Vec<(T, usize)>, BalanceError<T>>
        ensures ok { IfOk result (λ pairs. Balances self.old (R.stream rng.old) (Ok pairs.items) self.new (R.stream rng.new)) }
        ensures err { IfErr result (λ stopped. Balances self.old (R.stream rng.old) (Err (stopped.cause, stopped.evicted.items)) self.new (R.stream rng.new)) }
        ensures hot { OnOk result (IsFalse (is_over self.new.hot)) }
        ensures cold { OnOk result (IsFalse (is_over self.new.cold)) }
    {
        if let Err(cause) = self.spill_to_limit(rng) {
            return Err(BalanceError {
                cause,
                evicted: Vec::new(alloc),
            });
        }
        match self.cold.evict_to_limit(alloc, rng) {
            Ok(pairs) => Ok(pairs),
            Err(stopped) => Err(BalanceError {
                cause: Cause::Memory,
                evicted: stopped.evicted,
            }),
        }
    }
}

/// A law of any list of calls: each key that was admitted, and not removed since, is once in one of the tiers, or
/// once among the pairs that `balance` answered after its last admission; no other key is anywhere.
///
/// It does nothing when it is called: its contract is the law.
pub fn tiers_law<T>()
    // The calls are any list, so this is so after each call of a longer list too.
    ensures { (n : ℕ) (old new : Tiers T) (events : List (Event T)) → AreTiers n old → Runs old events new
        → AreTiers n new × IsAccounted old events new }
{}
