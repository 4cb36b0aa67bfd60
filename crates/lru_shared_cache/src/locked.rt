//! Shards behind locks.
ghost use Rattle.std.specs.Prelude.{◌≡◌, ◌∷◌, ◌++◌, ◌<◌, ◌↔◌, [], Ok, None, true, length, vec_len, OnErr, IfOk, IsTrue};
ghost use Rattle.lru_shared_cache.specs.Making.{note, is_among, left_of, left_but};
ghost use Rattle.lru_shared_cache.specs.Shards.{MaySee, MayDo};

use crate::shards::Shards;
use crossbeam_utils::CachePadded;
use lru_short_locks::ShortMutex;
use std::alloc::{AllocError, Global};
use std::marker::Model;
use std::sync::{Condvar, MutexGuard, Wait};

// A value that is being made: the hash of its key, and the number of this making. The key stays with who makes it.
#[derive(Clone, Copy, Drop)]
struct Note {
    hash: u64,
    number: u64,
}

// Which values are being made for a shard, and how many makings have begun.
#[derive(Drop)]
struct Making {
    notes: Vec<Note>,
    begun: u64,
}

impl Making {
    // None is being made.
    fn none(alloc: Global) -> Self
        ensures { result.notes.items ≡ [] }
    {
        Making {
            notes: Vec::new(alloc),
            begun: 0,
        }
    }

    // Whether one of this hash is.
    fn contains(&self, hash: u64) -> bool
        ensures { result ≡ is_among self.now.notes.items hash }
    {
        let mut rest = self.notes.as_slice();
        while let Some((note, tail)) = rest.split_first() {
            if note.hash == hash {
                return true;
            }
            rest = tail;
        }
        false
    }

    // Notes that one of this hash is, and answers its number.
    fn begin(&mut self, hash: u64) -> Result<u64, AllocError>
        ensures noted { IfOk result (λ number. self.new.notes.items ≡ self.old.notes.items ++ note hash number ∷ []) }
        ensures refused { OnErr result (self.new.notes.items ≡ self.old.notes.items) }
    {
        let number = self.begun;
        self.notes.push(Note { hash, number })?;
        self.begun = number.wrapping_add(1);
        Ok(number)
    }

    // Notes that none of this hash is any longer, and answers whether one was.
    fn end(&mut self, hash: u64) -> bool
        ensures left { self.new.notes.items ≡ left_of self.old.notes.items hash }
        ensures was { IsTrue result ↔ length self.new.notes.items < length self.old.notes.items }
    {
        let before = self.notes.len();
        self.notes.retain(|other| other.hash != hash);
        self.notes.len() < before
    }

    // Notes that the one of this number is not any longer, and answers whether it still was.
    fn settle(&mut self, number: u64) -> bool
        ensures left { self.new.notes.items ≡ left_but self.old.notes.items number }
        ensures was { IsTrue result ↔ length self.new.notes.items < length self.old.notes.items }
    {
        let before = self.notes.len();
        self.notes.retain(|other| other.number != number);
        self.notes.len() < before
    }
}

// What lies behind the lock of a shard: a cache, and which values are being made for it.
#[derive(Drop)]
struct Shelf<C> {
    cache: C,
    making: Making,
}

/// A shard: a cache behind its lock, and what those wait on who ask for a value that another thread makes.
#[derive(Drop)]
pub struct Shard<C> {
    shelf: ShortMutex<Shelf<C>>,
    ended: Condvar,
}

/// The cache of a shard under its lock, which is held as long as this is there.
#[derive(Drop)]
pub struct Held<'a, C> {
    shelf: MutexGuard<'a, Shelf<C>>,
}

impl<'a, C> Model for Held<'a, C> {
    ghost use Rattle.std.specs.Sync.Mutex.{mutex_guard_value};

    // the cache behind the lock
    ghost Value = { C };

    ghost coded = { C.code };

    ghost view = { λ held. (mutex_guard_value held.shelf).cache };
}

impl<'a, C> Held<'a, C> {
    /// The cache, as it is while the lock is held.
    pub fn cache(&self) -> &C
        ensures { result.now ≡ self.now }
    {
        &self.shelf.cache
    }
}

impl<C> Shard<C> {
    /// A shard of a cache, for which nothing is being made.
    pub(crate) fn new(alloc: Global, cache: C) -> Self {
        let making = Making::none(alloc);
        Shard {
            shelf: ShortMutex::new(Shelf { cache, making }),
            ended: Condvar::new(),
        }
    }

    /// Takes the lock, and holds it as long as what it answers is there.
    pub fn lock(&self, rt: &impl Wait) -> Held<'_, C> {
        Held {
            shelf: self.shelf.lock(rt),
        }
    }
}

/// Puts each of these caches behind a lock of its own. No two of them share a line of the processor's cache, so that a thread
/// at one doesn't slow a thread at another.
///
/// # Errors
///
/// There is no memory.
pub fn behind_locks<C: Drop>(
    alloc: Global,
    caches: Vec<C>,
) -> Result<Vec<CachePadded<Shard<C>>>, AllocError>
    ensures { IfOk result (λ shards. vec_len shards ≡ vec_len caches) }
{
    let mut shards = Vec::with_capacity(alloc, caches.len())?;
    for cache in caches {
        shards.push(CachePadded::new(Shard::new(alloc, cache)))?;
    }
    Ok(shards)
}

// Whether a look-up found none.
fn has_found_none<V>(found: &Result<Option<V>, AllocError>) -> bool
    ensures { result ≡ true → found.now ≡ Ok None }
{
    matches!(found, Ok(None))
}

/// Shards, each behind its lock, and what waits for the locks. How many there are is known by the type, so that a hash is
/// divided by a number that the compiler knows.
#[derive(Drop)]
pub struct Locked<'a, C, W, const N: usize> {
    /// The shards, in the order of their numbers.
    pub shards: &'a [CachePadded<Shard<C>>],
    /// By which a call may wait.
    pub rt: &'a W,
    // which making this call began
    number: u64,
    ghost has_shards: { length shards.now ≡ N },
}

impl<'a, C, W, const N: usize> Locked<'a, C, W, N> {
    /// These shards, and what waits for their locks.
    #[inline(always)]
    pub fn new(shards: &'a [CachePadded<Shard<C>>], rt: &'a W) -> Self
        requires { length shards.now ≡ N }
        ensures { result.shards.now ≡ shards.now }
    {
        let number = 0;
        Locked { shards, rt, number }
    }
}

// Each call takes the lock of its shard, does once what it is to do, and lets go of it.
impl<'a, C, W: Wait, const N: usize> Shards<C> for Locked<'a, C, W, N> {
    ghost many = { λ l. length l.shards.now };

    ghost sees = { λ l i P. MaySee P };

    ghost does = { λ l i P n. MayDo P };

    ghost may_end = { Unit {0} };

    ghost sees_more = { λ P Q more s i d. (d.0, more d.0 d.1) };

    ghost does_more = { λ P Q more s t i d. (d.0, (d.1.0, more d.0 d.1.0 d.1.1)) };

    ghost sees_any = { λ P s i d. d.1 };

    ghost does_any = { λ P s t i d. d.1.1 };

    #[inline(always)]
    fn count(&self) -> usize {
        N
    }

    #[inline(always)]
    fn look<R, F: FnOnce(&C) -> R>(&self, shard: usize, look: F) -> R {
        let shelf = self.shards[shard].shelf.lock(self.rt);
        look(&shelf.cache)
    }

    #[inline(always)]
    fn on<R, F: FnOnce(&mut C) -> R + Drop>(&mut self, shard: usize, act: F) -> R {
        let mut shelf = self.shards[shard].shelf.lock(self.rt);
        act(&mut shelf.cache)
    }

    #[inline(always)]
    fn begin<V: Drop, P, F>(
        &mut self,
        shard: usize,
        hash: u64,
        is_there: P,
        act: F,
    ) -> Result<Option<V>, AllocError>
    where
        P: Fn(&C) -> bool + Drop,
        F: FnOnce(&mut C) -> Result<Option<V>, AllocError> + Drop,
    {
        let shard = &self.shards[shard];
        let mut shelf = shard.shelf.lock(self.rt);
        for _ in self.rt.forever() {
            if !shelf.making.contains(hash) || is_there(&shelf.cache) {
                break;
            }
            shelf = shard.ended.wait(self.rt, shelf);
        }
        let found = act(&mut shelf.cache);
        if has_found_none(&found) {
            let Ok(number) = shelf.making.begin(hash) else {
                return Err(AllocError);
            };
            self.number = number;
        }
        found
    }

    #[inline(always)]
    fn finish<R, F: FnOnce(&mut C) -> R + Drop>(&mut self, shard: usize, act: F) -> Option<R> {
        let shard = &self.shards[shard];
        let mut shelf = shard.shelf.lock(self.rt);
        if !shelf.making.settle(self.number) {
            return None;
        }
        let answer = act(&mut shelf.cache);
        drop(shelf);
        shard.ended.notify_all();
        Some(answer)
    }

    #[inline(always)]
    fn renew<R, F: FnOnce(&mut C) -> R + Drop>(&mut self, shard: usize, hash: u64, act: F) -> R {
        let shard = &self.shards[shard];
        let mut shelf = shard.shelf.lock(self.rt);
        let is_ended = shelf.making.end(hash);
        let answer = act(&mut shelf.cache);
        drop(shelf);
        if is_ended {
            shard.ended.notify_all();
        }
        answer
    }
}
