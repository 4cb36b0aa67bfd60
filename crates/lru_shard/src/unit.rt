//! One shard: rows in the order of their last use, under a cap on their weight.
ghost use Rattle.std.specs.Prelude.{◌≡◌, ◌<◌, ◌-◌, ◌∷◌, ℕ, length, nat_eq, Some, None, IfOk, IfErr};
ghost use Rattle.lru_rows.specs.Rows.{recency, placed, row_of as placed_of, most_rows as most_placed};
ghost use Rattle.lru_shard.specs.Shard.{number_of, refusal, size_of, and_row};
ghost use Rattle.lru_shard.specs.Unit.{raised, started};

pub use crate::iter::LruUnitIter;
use lru_index::hashing::SeededHashes;
use lru_list::linked_list::{LinkedListIter, MOST_ITEMS};
use lru_rows::rows::Rows;
use std::alloc::{AllocError, Global};
use std::error::Error;
use std::fmt;
use std::fmt::Display;
use std::hash::BuildHasher;
use std::marker::Model;

/// Why a call was refused. The number of a cause is its value: `cause as u8`, or `number`.
#[derive(Clone, Copy, Debug, PartialEq, Eq)]
pub enum Cause {
    /// A growth was refused.
    Memory = 1,
    /// The shard's weight would pass its cap.
    Weight = 2,
    /// The shard has as many rows as it may have.
    Length = 3,
}

impl Display for Cause {
    ghost use Rattle.std.specs.Prelude.{Some};
    ghost use Rattle.lru_shard.specs.Causes.{cause_text};

    ghost output = { λ cause. Some (cause_text cause) };

    fn fmt<W: fmt::Write>(&self, f: &mut fmt::Formatter<W>) -> fmt::Result {
        match self {
            Cause::Memory => f.write_str("out of memory"),
            Cause::Weight => f.write_str("too heavy for the shard"),
            Cause::Length => f.write_str("the shard is full"),
        }
    }
}

impl Error for Cause {}

impl Cause {
    /// The number of this cause.
    pub fn number(self) -> u8
        ensures { result ≡ number_of self }
    {
        self as u8
    }
}

/// A refused call: why, and what it was given, handed back.
#[derive(Debug, Drop)]
pub struct Refused<D> {
    /// Why the call was refused.
    pub cause: Cause,
    /// What is handed back.
    pub held: D,
}

impl<D> Refused<D> {
    fn new(cause: Cause, held: D) -> Self
        ensures cause { result.cause ≡ cause }
        ensures held { result.held ≡ held }
    {
        Refused { cause, held }
    }
}

/// A refused `update_or_admit`: why, and what the called closure gave.
#[derive(Debug, Drop)]
pub struct RefusedUpdate<T> {
    /// Why the call was refused.
    pub cause: Cause,
    /// The weight that the called closure gave, at least 1; 0 where none was called.
    pub weight: usize,
    /// The data and the weight that `admit_data` gave, handed back.
    pub held: Option<(T, usize)>,
}

impl<T> RefusedUpdate<T> {
    fn new(cause: Cause, weight: usize, held: Option<(T, usize)>) -> Self
        ensures cause { result.cause ≡ cause }
        ensures weight { result.weight ≡ weight }
        ensures held { result.held ≡ held }
    {
        RefusedUpdate {
            cause,
            weight,
            held,
        }
    }

    /// The refusal without the weight that was given.
    pub fn untold(self) -> Refused<Option<(T, usize)>>
        ensures cause { result.cause ≡ self.cause }
        ensures held { result.held ≡ self.held }
    {
        Refused {
            cause: self.cause,
            held: self.held,
        }
    }
}

// The weight of a row that is there, with `delta` added.
fn raised(weight: usize, delta: usize, max_weight: Option<usize>) -> usize
    ensures { result ≡ raised weight delta max_weight }
{
    let sum = weight.saturating_add(delta);
    match max_weight {
        None => sum,
        Some(most) => sum.min(most).max(weight),
    }
}

// The weight of a new row.
fn started(delta: usize, max_weight: Option<usize>) -> usize
    ensures { result ≡ started delta max_weight }
{
    match max_weight {
        None => delta.max(1),
        Some(most) => delta.min(most).max(1),
    }
}

// Puts a row first for which a place was made sure of.
#[inline(always)]
fn put_vacant<T: Drop, S: BuildHasher>(rows: &mut Rows<u64, T, S>, key: u64, data: T, weight: usize)
    requires absent { placed_of nat_eq rows.old.rows key ≡ None }
    requires vacant { 0 < rows.old.free }
    requires short { length rows.old.rows < most_placed }
    ensures { (p : ℕ) × (rows.new ≡ recency (placed p key «data» weight ∷ rows.old.rows) (rows.old.free - 1)) }
{
    if rows.push_first(key, data, weight).is_err() {
        unreachable!()
    }
}

/// Rows with distinct keys, most recent first, under a cap on the sum of their weights.
/// It has at most as many rows as its cap, and never more than 4294967293.
///
/// Only `with_capacity`, `reserve` and a call that makes a row for a missing key take memory.
#[derive(Drop)]
pub struct LruUnit<T, S: BuildHasher = SeededHashes> {
    // what calls write comes first: behind a lock it lies beside the lock's own word
    used_weight: usize,
    cap: usize,
    rows: Rows<u64, T, S>,
}

impl<T, S: BuildHasher> Model for LruUnit<T, S> {
    ghost use Rattle.lru_shard.specs.Shard.{Shard, shard, shard_code};

    ghost Value = { Shard T };

    ghost coded = { shard_code T.code };

    ghost use Rattle.lru_shard.specs.Representation.{rows_in, IsKept};

    ghost view = { λ u. shard (rows_in u.rows.rows) u.cap };

    ghost invariant = { λ u. IsKept u.rows u.used_weight u.cap };
}

impl<T> LruUnit<T> {
    ghost use Rattle.std.specs.Prelude.{[], IfOk};
    ghost use Rattle.lru_shard.specs.Shard.{shard};

    /// An empty shard with room for `capacity` rows, whose weights may sum up to `cap`. The seed of the hashes stays the
    /// same from run to run.
    pub fn with_capacity(alloc: Global, capacity: usize, cap: usize) -> Result<Self, AllocError>
    where
        T: Drop,
        ensures { IfOk result (λ unit. unit ≡ shard [] cap) }
    {
        LruUnit::with_capacity_and_hasher(alloc, capacity, cap, SeededHashes::fixed())
    }

    /// The same with a seed for the hashes: who picks the keys and does not know it can't pick keys that collide.
    pub fn with_capacity_and_seed(
        alloc: Global,
        capacity: usize,
        cap: usize,
        seed: u64,
    ) -> Result<Self, AllocError>
    where
        T: Drop,
        ensures { IfOk result (λ unit. unit ≡ shard [] cap) }
    {
        LruUnit::with_capacity_and_hasher(alloc, capacity, cap, SeededHashes::with_seed(seed))
    }
}

impl<T, S: BuildHasher> LruUnit<T, S> {
    ghost use Rattle.std.specs.Prelude.{[], IfOk, map, option_map, is_some};
    ghost use Rattle.std.specs.Option.{option_copied};
    ghost use Rattle.lru_shard.specs.Row.{weight_of, row_of, pair_of, is_held, without, last_row, without_last};
    ghost use Rattle.lru_shard.specs.Shard.{shard, IsShard};
    ghost use Rattle.lru_shard.specs.Unit.{accessed, needs_promote};
    ghost use Rattle.lru_shard.specs.Unit.{shown};

    /// An empty shard with room for `capacity` rows, whose weights may sum up to `cap`, over hashers of the caller's.
    pub fn with_capacity_and_hasher(
        alloc: Global,
        capacity: usize,
        cap: usize,
        hash_builder: S,
    ) -> Result<Self, AllocError>
    where
        T: Drop,
        S: Drop,
        ensures { IfOk result (λ unit. unit ≡ shard [] cap) }
    {
        Ok(LruUnit {
            rows: Rows::with_capacity_and_hasher(alloc, capacity, hash_builder)?,
            used_weight: 0,
            cap,
        })
    }

    /// Makes room for `additional` more rows. Nothing else changes, also where it is refused.
    pub fn reserve(&mut self, additional: usize) -> Result<(), AllocError>
        ensures { self.new ≡ self.old }
    {
        self.rows.reserve(additional)
    }

    /// How many rows there are.
    pub fn len(&self) -> usize
        ensures value { result ≡ length self.now.rows }
        ensures valid { IsShard self.now }
    {
        self.rows.len()
    }

    /// The sum of the weights of the rows.
    pub fn used_weight(&self) -> usize
        ensures value { result ≡ weight_of self.now.rows }
        ensures valid { IsShard self.now }
    {
        self.used_weight
    }

    /// The rows as pairs of data and weight, most recent first.
    pub fn iter(&self) -> LruUnitIter<'_, T>
        ensures { result ≡ map pair_of self.now.rows }
    {
        LruUnitIter {
            rows: self.rows.iter(),
        }
    }

    /// Whether a key has a row.
    pub fn contains(&self, key: u64) -> bool
        ensures { result ≡ is_held self.now.rows key }
    {
        self.rows.find(&key).is_some()
    }

    /// The data of a key.
    pub fn peek(&self, key: u64) -> Option<&T>
        ensures { option_copied result ≡ option_map (λ r. r.value) (row_of self.now.rows key) }
    {
        let place = self.rows.find(&key)?;
        Some(self.rows.value_at(place))
    }

    /// The weight of a key.
    pub fn peek_weight(&self, key: u64) -> Option<usize>
        ensures { result ≡ option_map (λ r. r.weight) (row_of self.now.rows key) }
    {
        let place = self.rows.find(&key)?;
        Some(self.rows.weight_at(place))
    }

    /// The data and the weight of the row that was used longest ago.
    pub fn peek_lru(&self) -> Option<(&T, usize)>
        ensures { option_map shown result ≡ option_map pair_of (last_row self.now.rows) }
    {
        let place = self.rows.last()?;
        Some((self.rows.value_at(place), self.rows.weight_at(place)))
    }

    /// The key of the row that was used longest ago.
    pub fn lru_key(&self) -> Option<u64>
        ensures { result ≡ option_map (λ r. r.key) (last_row self.now.rows) }
    {
        let place = self.rows.last()?;
        Some(*self.rows.key_at(place))
    }

    /// The keys of the rows, most recent first.
    pub fn keys(&self) -> LinkedListIter<'_, u64>
        ensures { result ≡ map (λ r. r.key) self.now.rows }
    {
        self.rows.keys()
    }

    /// Whether a key is not among the first `limit`. It takes as many steps as it looks at keys.
    pub fn need_promote(&self, key: u64, limit: usize) -> bool
        ensures { result ≡ needs_promote self.now.rows key limit }
    {
        !self.rows.is_near_first(&key, limit)
    }

    /// Puts a key's row first, and answers whether there is one.
    pub fn access(&mut self, key: u64) -> bool
        ensures answer { result ≡ is_held self.old.rows key }
        ensures rows { self.new ≡ shard (accessed self.old.rows key) self.old.cap }
    {
        let Some(place) = self.rows.find(&key) else {
            return false;
        };
        self.rows.promote(place);
        true
    }
}

impl<T: Drop, S: BuildHasher> LruUnit<T, S> {
    ghost use Rattle.std.specs.Prelude.{option_map};
    ghost use Rattle.lru_shard.specs.Row.{row_of, pair_of, without, last_row, without_last};
    ghost use Rattle.lru_shard.specs.Shard.{shard};
    ghost use Rattle.lru_shard.specs.Unit.{Admits, InsertsTail, IncrementsWeight, AdmitsMade, UpdatesOrAdmits, AdmitsGiven, Updates, SetsWeight, Pulls};

    /// Puts a row first, in place of its key's, and answers the weight that the key had, 0 for a new key.
    ///
    /// A new key is refused for Length, Weight or Memory, in this order, a present one for Weight alone.
    /// A refusal hands the data back and changes nothing.
    pub fn admit(&mut self, key: u64, data: T, weight: usize) -> Result<usize, Refused<T>>
        ensures { Admits self.old key «data» weight result self.new }
    {
        let Some(place) = self.rows.find(&key) else {
            return self.admit_new(key, data, weight);
        };
        let old = self.rows.weight_at(place);
        let rest = self.used_weight - old;
        if weight > self.cap - rest {
            return Err(Refused::new(Cause::Weight, data));
        }
        let _replaced = self.rows.replace(place, data);
        self.rows.set_weight(place, weight);
        self.rows.promote(place);
        self.used_weight = rest + weight;
        Ok(old)
    }

    // Why a row more of this weight is refused, whatever memory there is.
    #[inline(always)]
    fn allow(&self, weight: usize) -> Result<(), Cause>
        ensures allowed { IfOk result (λ _. refusal self.now.cap (size_of self.now.rows) (and_row (size_of self.now.rows) weight) ≡ None) }
        ensures refused { IfErr result (λ cause. refusal self.now.cap (size_of self.now.rows) (and_row (size_of self.now.rows) weight) ≡ Some cause) }
    {
        if self.rows.len() >= self.cap.min(MOST_ITEMS) {
            return Err(Cause::Length);
        }
        if weight > self.cap - self.used_weight {
            return Err(Cause::Weight);
        }
        Ok(())
    }

    // `admit` of a key that has no row.
    fn admit_new(&mut self, key: u64, data: T, weight: usize) -> Result<usize, Refused<T>>
        requires { row_of self.old.rows key ≡ None }
        ensures { Admits self.old key «data» weight result self.new }
    {
        if let Err(cause) = self.allow(weight) {
            return Err(Refused::new(cause, data));
        }
        if let Err(unpushed) = self.rows.push_first(key, data, weight) {
            return Err(Refused::new(Cause::Memory, unpushed.value));
        }
        self.used_weight += weight;
        Ok(0)
    }

    /// Puts a row last where its key has none, and answers true; else it answers false, and the data is
    /// dropped.
    ///
    /// A new key is refused for Length, Weight or Memory, in this order. A refusal hands the data back
    /// and changes nothing.
    pub fn insert_tail(&mut self, key: u64, data: T, weight: usize) -> Result<bool, Refused<T>>
        ensures { InsertsTail self.old key «data» weight result self.new }
    {
        if self.rows.find(&key).is_some() {
            return Ok(false);
        }
        if let Err(cause) = self.allow(weight) {
            return Err(Refused::new(cause, data));
        }
        if let Err(unpushed) = self.rows.push_last(key, data, weight) {
            return Err(Refused::new(Cause::Memory, unpushed.value));
        }
        self.used_weight += weight;
        Ok(true)
    }

    /// Adds to a key's weight, and puts its row first. The new weight is at most `usize::MAX` and, where
    /// there is a `max_weight`, at most that, but never less than the weight that the key had. A key with no
    /// row gets one: its weight is `delta`, at most `max_weight`, and at least 1, and `admit_data` makes its
    /// data. The answer is the old weight, 0 for a new row, the new one, and whether the row is new.
    ///
    /// A new key is refused for Length, Weight or Memory, in this order, a present one for Weight alone.
    /// A refusal comes before `admit_data` is called, and changes nothing.
    pub fn increment_weight<F: FnOnce() -> T + Drop>(
        &mut self,
        key: u64,
        admit_data: F,
        delta: usize,
        max_weight: Option<usize>,
    ) -> Result<(usize, usize, bool), Cause>
        requires { F.IsAlwaysCallable admit_data }
        ensures { IncrementsWeight (F.post admit_data) self.old key delta max_weight result self.new }
    {
        let Some(place) = self.rows.find(&key) else {
            let weight = started(delta, max_weight);
            if let Err(cause) = self.admit_made(key, admit_data, weight) {
                return Err(cause);
            }
            return Ok((0, weight, true));
        };
        let old = self.rows.weight_at(place);
        let weight = raised(old, delta, max_weight);
        let rest = self.used_weight - old;
        if weight > self.cap - rest {
            return Err(Cause::Weight);
        }
        self.rows.set_weight(place, weight);
        self.rows.promote(place);
        self.used_weight = rest + weight;
        Ok((old, weight, false))
    }

    // Puts a new row of this weight first. Its data are made once nothing can refuse it any more.
    fn admit_made<F: FnOnce() -> T + Drop>(
        &mut self,
        key: u64,
        admit_data: F,
        weight: usize,
    ) -> Result<(), Cause>
        requires absent { row_of self.old.rows key ≡ None }
        requires callable { F.IsAlwaysCallable admit_data }
        ensures { AdmitsMade (F.post admit_data) self.old key weight result self.new }
    {
        if let Err(cause) = self.allow(weight) {
            return Err(cause);
        }
        if self.rows.make_vacancy().is_err() {
            return Err(Cause::Memory);
        }
        let data = admit_data();
        put_vacant(&mut self.rows, key, data, weight);
        self.used_weight += weight;
        Ok(())
    }

    /// Lends a key's data to `update`, with its weight, gives the key the weight that `update` answers, and
    /// puts its row first. A key with no row gets the data and the weight that `admit_data` gives. A weight
    /// of 0 counts as 1. The answer is the old weight, `None` for a new row, and the new one.
    ///
    /// A new key is refused for Length or Memory before `admit_data` is called, and for Weight after it: then
    /// what it gave is handed back, and nothing changes. A present key is refused for Weight alone: it keeps
    /// what `update` did to the data, at the old weight and place, and nothing is handed back. The refusal tells
    /// the weight that the called closure gave.
    #[inline(always)]
    pub fn update_or_admit<U, A>(
        &mut self,
        key: u64,
        update: U,
        admit_data: A,
    ) -> Result<(Option<usize>, usize), RefusedUpdate<T>>
    where
        U: FnOnce(&mut T, usize) -> usize + Drop,
        A: FnOnce() -> (T, usize) + Drop,
        requires update { U.IsAlwaysCallable update }
        requires admit_data { A.IsAlwaysCallable admit_data }
        ensures { UpdatesOrAdmits (Updates (U.post update)) (A.post admit_data) self.old key result self.new }
    {
        let Some(place) = self.rows.find(&key) else {
            return self.admit_given(key, admit_data);
        };
        let old = self.rows.weight_at(place);
        let weight = self.rows.update(place, update).max(1);
        let rest = self.used_weight - old;
        if weight > self.cap - rest {
            return Err(RefusedUpdate::new(Cause::Weight, weight, None));
        }
        self.rows.set_weight(place, weight);
        self.rows.promote(place);
        self.used_weight = rest + weight;
        Ok((Some(old), weight))
    }

    // `update_or_admit` of a key that has no row. A place is made sure of before the closure is called, so that nothing
    // but the weight can be refused afterwards.
    fn admit_given<A: FnOnce() -> (T, usize) + Drop>(
        &mut self,
        key: u64,
        admit_data: A,
    ) -> Result<(Option<usize>, usize), RefusedUpdate<T>>
        requires absent { row_of self.old.rows key ≡ None }
        requires callable { A.IsAlwaysCallable admit_data }
        ensures { AdmitsGiven (A.post admit_data) self.old key result self.new }
    {
        if let Err(cause) = self.allow(0) {
            return Err(RefusedUpdate::new(cause, 0, None));
        }
        if self.rows.make_vacancy().is_err() {
            return Err(RefusedUpdate::new(Cause::Memory, 0, None));
        }
        let (data, given) = admit_data();
        let weight = given.max(1);
        if weight > self.cap - self.used_weight {
            let held = Some((data, given));
            return Err(RefusedUpdate::new(Cause::Weight, weight, held));
        }
        put_vacant(&mut self.rows, key, data, weight);
        self.used_weight += weight;
        Ok((None, weight))
    }

    /// Gives a key another weight, in its place, and answers the weight that it had; `None` where it has
    /// no row.
    ///
    /// It is refused for Weight alone, and changes nothing then.
    pub fn set_weight(&mut self, key: u64, weight: usize) -> Result<Option<usize>, Cause>
        ensures { SetsWeight self.old key weight result self.new }
    {
        let Some(place) = self.rows.find(&key) else {
            return Ok(None);
        };
        let old = self.rows.weight_at(place);
        let rest = self.used_weight - old;
        if weight > self.cap - rest {
            return Err(Cause::Weight);
        }
        self.rows.set_weight(place, weight);
        self.used_weight = rest + weight;
        Ok(Some(old))
    }

    /// Takes a key's row out, and answers its data and weight.
    pub fn remove(&mut self, key: u64) -> Option<(T, usize)>
        ensures answer { result ≡ option_map pair_of (row_of self.old.rows key) }
        ensures rows { self.new ≡ shard (without self.old.rows key) self.old.cap }
    {
        let taken = self.rows.remove(&key)?;
        self.used_weight -= taken.weight;
        Some((taken.value, taken.weight))
    }

    /// Moves a key's row out of `from`, puts it first here, and answers its weight; `None` where `from` has no
    /// such row. The key may have no row here.
    ///
    /// It is refused for Length, Weight or Memory, in this order, as a new row is. A refusal changes neither
    /// shard.
    pub fn pull(&mut self, from: &mut Self, key: u64) -> Result<Option<usize>, Cause>
        requires { row_of self.old.rows key ≡ None }
        ensures { Pulls self.old from.old key result self.new from.new }
    {
        let Some(weight) = from.peek_weight(key) else {
            return Ok(None);
        };
        if let Err(cause) = self.allow(weight) {
            return Err(cause);
        }
        if self.rows.make_vacancy().is_err() {
            return Err(Cause::Memory);
        }
        let Some((data, _)) = from.remove(key) else {
            unreachable!()
        };
        put_vacant(&mut self.rows, key, data, weight);
        self.used_weight += weight;
        Ok(Some(weight))
    }

    /// Takes the row out that was used longest ago, and answers its data and weight.
    pub fn evict(&mut self) -> Option<(T, usize)>
        ensures answer { result ≡ option_map pair_of (last_row self.old.rows) }
        ensures rows { self.new ≡ shard (without_last self.old.rows) self.old.cap }
    {
        let taken = self.rows.pop_last()?;
        self.used_weight -= taken.weight;
        Some((taken.value, taken.weight))
    }
}
