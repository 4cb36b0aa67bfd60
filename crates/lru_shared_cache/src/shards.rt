//! Shards that a call can be done on, of one owner or behind locks. What is called on them is written once, over both.
ghost use Rattle.std.specs.Prelude.{◌≡◌, ℕ, ◌<◌, length, Option, Result};
ghost use Rattle.lru_shared_cache.specs.Shards.{home, Looks, Acts, Begins, Finishes, Sees, Owns};

use std::alloc::AllocError;

// How many values the low bits of a hash have, by which its shard is told.
const LOW: u64 = 4294967296;

/// The shard of a hash among so many. It takes the low bits: the index of a shard takes the high ones, which so differ among
/// the keys of a shard as they do among all.
#[inline(always)]
pub fn home_of(shards: usize, hash: u64) -> usize
    requires { 0 < shards }
    ensures value { result ≡ home shards hash }
    ensures below { result < shards }
{
    (hash % LOW) as usize % shards
}

/// Shards that are told by their numbers, from 0 on.
pub trait Shards<S> {
    // how many there are
    ghost many: { Self → ℕ };

    // what is known of the shard of a number, where it is so
    ghost sees: { Self → ℕ → (S → Type 0) → Type 0 };

    // what is known of all shards afterwards, where that of a number is changed so
    ghost does: { Self → ℕ → (S → S → Type 0) → Self → Type 0 };

    // whether others may end the making of a value
    ghost may_end: { Type 0 };

    // what follows from what is known of a shard is known of it
    ghost sees_more: { (P Q : S → Type 0) → ((a : S) → P a → Q a) → (s : Self) (i : ℕ) → sees s i P → sees s i Q };

    // what follows from how a shard is changed is known of that
    ghost does_more: { (P Q : S → S → Type 0) → ((a b : S) → P a b → Q a b) → (s t : Self) (i : ℕ) → does s i P t → does s i Q t };

    // what is known of a shard, and hangs on none, is so
    ghost sees_any: { (P : Type 0) → (s : Self) (i : ℕ) → sees s i (λ a. P) → P };

    // what is known of how a shard is changed, and hangs on none, is so
    ghost does_any: { (P : Type 0) → (s t : Self) (i : ℕ) → does s i (λ a b. P) t → P };

    /// How many shards there are.
    fn count(&self) -> usize
        ensures { result ≡ many self.now };

    /// Shows a shard to a closure, and answers what that does.
    fn look<R, F: FnOnce(&S) -> R>(&self, shard: usize, look: F) -> R
        requires shard { shard < many self.now }
        requires look { F.IsAlwaysCallable look }
        ensures { sees self.now shard (Looks (F.post look) result) };

    /// Lends a shard to a closure, and answers what that does.
    fn on<R, F: FnOnce(&mut S) -> R + Drop>(&mut self, shard: usize, act: F) -> R
        requires shard { shard < many self.old }
        requires act { F.IsAlwaysCallable act }
        ensures acts { does self.old shard (Acts (F.post act) result) self.new }
        ensures many { many self.new ≡ many self.old };

    /// Lends a shard to a closure that looks for a value by a hash, and answers what that does. Where others use the shards
    /// too, it waits as long as one of them makes a value of that hash and `is_there` answers false; and where the closure
    /// finds none, it is noted that one is being made, until `finish` is called.
    ///
    /// # Errors
    ///
    /// What the closure tells; or there is no memory for the note, and what it found is let go.
    fn begin<V: Drop, P, F>(
        &mut self,
        shard: usize,
        hash: u64,
        is_there: P,
        act: F,
    ) -> Result<Option<V>, AllocError>
    where
        P: Fn(&S) -> bool + Drop,
        F: FnOnce(&mut S) -> Result<Option<V>, AllocError> + Drop,
        requires shard { shard < many self.old }
        requires is_there { P.IsAlwaysCallable is_there }
        requires act { F.IsAlwaysCallable act }
        ensures acts { does self.old shard (Begins (F.post act) result) self.new }
        ensures many { many self.new ≡ many self.old };

    /// As `on`; and the value of which `begin` noted that it is being made is no longer: who waits for it goes on. Where
    /// others have ended that making meanwhile, by `renew`, nothing is called, and the answer is `None`.
    fn finish<R, F: FnOnce(&mut S) -> R + Drop>(&mut self, shard: usize, act: F) -> Option<R>
        requires shard { shard < many self.old }
        requires act { F.IsAlwaysCallable act }
        ensures acts { Finishes may_end (λ P. does self.old shard P self.new) (F.post act) result }
        ensures many { many self.new ≡ many self.old };

    /// As `on`, for a closure that leaves what is newer than any value of this hash that is being made: those makings end,
    /// and who waits for them goes on.
    fn renew<R, F: FnOnce(&mut S) -> R + Drop>(&mut self, shard: usize, hash: u64, act: F) -> R
        requires shard { shard < many self.old }
        requires act { F.IsAlwaysCallable act }
        ensures acts { does self.old shard (Acts (F.post act) result) self.new }
        ensures many { many self.new ≡ many self.old };
}

/// Ends the making of a value of which nothing is put.
pub fn give_up<S, T: Shards<S>>(shards: &mut T, shard: usize)
    requires { shard < T.many shards.old }
    ensures same { T.does shards.old shard (λ before after. after ≡ before) shards.new }
    ensures many { T.many shards.new ≡ T.many shards.old }
{
    drop(shards.finish(shard, |_shard: &mut S| {}));
}

/// Shards of one owner. Nobody else makes a value meanwhile, nor ends a making.
#[derive(Drop)]
pub struct Owned<S> {
    /// The shards, in the order of their numbers.
    pub shards: Vec<S>,
}

impl<S> Shards<S> for Owned<S> {
    ghost many = { λ o. length o.shards.items };

    ghost sees = { λ o i P. Sees o.shards.items i P };

    ghost does = { λ o i P n. Owns o.shards.items i P n.shards.items };

    ghost may_end = { ⊥ };

    ghost sees_more = { λ P Q more s i d. (d.0, (d.1.0, more d.0 d.1.1)) };

    ghost does_more = { λ P Q more s t i d. (d.0, (d.1.0, (d.1.1.0, (more d.0 d.1.0 d.1.1.1.0, d.1.1.1.1)))) };

    ghost sees_any = { λ P s i d. d.1.1 };

    ghost does_any = { λ P s t i d. d.1.1.1.0 };

    #[inline(always)]
    fn count(&self) -> usize {
        self.shards.len()
    }

    #[inline(always)]
    fn look<R, F: FnOnce(&S) -> R>(&self, shard: usize, look: F) -> R {
        look(&self.shards[shard])
    }

    #[inline(always)]
    fn on<R, F: FnOnce(&mut S) -> R + Drop>(&mut self, shard: usize, act: F) -> R {
        act(&mut self.shards[shard])
    }

    #[inline(always)]
    fn begin<V: Drop, P, F>(
        &mut self,
        shard: usize,
        _hash: u64,
        _is_there: P,
        act: F,
    ) -> Result<Option<V>, AllocError>
    where
        P: Fn(&S) -> bool + Drop,
        F: FnOnce(&mut S) -> Result<Option<V>, AllocError> + Drop,
    {
        act(&mut self.shards[shard])
    }

    #[inline(always)]
    fn finish<R, F: FnOnce(&mut S) -> R + Drop>(&mut self, shard: usize, act: F) -> Option<R> {
        Some(act(&mut self.shards[shard]))
    }

    #[inline(always)]
    fn renew<R, F: FnOnce(&mut S) -> R + Drop>(&mut self, shard: usize, _hash: u64, act: F) -> R {
        act(&mut self.shards[shard])
    }
}
