//! The calls of a core as values, and runs of them: what any list of calls answers and leaves.
ghost use Rattle.std.specs.Prelude.{◌≡◌, ◌+◌, min, All, IfOk, OnErr};
ghost use Rattle.lru_cores.specs.CoreCalls.{CoreIncrements, CoreUpdates};
ghost use Rattle.lru_cores.specs.Calls.{IsAllowed, Overwrites, Gives, Run};

use crate::lru_core::{EvictError, LruCore};
use lru_shard::unit::{Cause, Refused};
use rand_core::Rng;
use std::alloc::{AllocError, Global};

/// A call of a core, with what it is given.
#[derive(Debug, Drop)]
pub enum Call<T> {
    Admit {
        key: u64,
        data: T,
        weight: usize,
    },
    InsertTail {
        key: u64,
        data: T,
        weight: usize,
    },
    /// `data` is what a missing key gets.
    IncrementWeight {
        key: u64,
        data: T,
        delta: usize,
        max_weight: Option<usize>,
    },
    /// A present key gets the data `present`, and its weight grows by `delta`, up to `usize::MAX`; a missing
    /// one gets the data `missing` and the weight `delta`.
    UpdateOrAdmit {
        key: u64,
        present: T,
        missing: T,
        delta: usize,
    },
    SetWeight {
        key: u64,
        weight: usize,
    },
    Promote {
        key: u64,
    },
    PromoteTopN {
        key: u64,
        top: usize,
    },
    Remove {
        key: u64,
    },
    EvictShard {
        shard: u64,
    },
    EvictStep {
        a: usize,
        b: usize,
    },
    EvictToLimit,
    SetWeightLimit {
        limit: usize,
    },
    Peek {
        key: u64,
    },
    PeekWeight {
        key: u64,
    },
    PeekLru {
        shard: usize,
    },
    Totals,
}

/// What a call answers.
#[derive(Debug, Drop)]
pub enum Reply<T> {
    /// `admit`: the shard.
    Shard(Result<usize, Refused<T>>),
    /// `insert_tail`: whether the row is new.
    Inserted(Result<bool, Refused<T>>),
    /// `increment_weight`: the new weight.
    Weight(Result<usize, Cause>),
    /// `update_or_admit`: the weight that the key had.
    Updated(Result<Option<usize>, Refused<Option<(T, usize)>>>),
    /// `set_weight`: the weight that the key had.
    Was(Result<Option<usize>, Cause>),
    /// `promote`, `promote_top_n`, `peek`: whether the key has a row.
    Held(bool),
    /// `remove`, `evict_shard`, `evict_step`: the row that left.
    Left(Option<(T, usize)>),
    /// `evict_to_limit`: the rows that left, in order.
    Evicted(Result<Vec<(T, usize)>, EvictError<T>>),
    /// `peek_weight`: the weight of the key.
    Known(Option<usize>),
    /// `peek_lru`: a copy of the last row.
    Last(Result<Option<(T, usize)>, AllocError>),
    /// `len`, `weight`, `evicted_len` and `evicted_weight`.
    Totals {
        len: usize,
        weight: usize,
        evicted_len: usize,
        evicted_weight: usize,
    },
    /// `set_weight_limit`.
    Done,
}

/// Does a call. A clone of the data has to equal its source, and the two shards of an `EvictStep` are below N.
pub fn answer<T: Drop + Clone, R: Rng, const N: usize>(
    core: &mut LruCore<T, N>,
    alloc: Global,
    rng: &mut R,
    call: Call<T>,
) -> Reply<T>
    requires clones { (d e : T) → T.is_clone d e → e ≡ d }
    requires allowed { IsAllowed N call }
    ensures { Gives core.old (R.stream rng.old) call result core.new (R.stream rng.new) }
{
    match call {
        Call::Admit { key, data, weight } => Reply::Shard(core.admit(key, data, weight)),
        Call::InsertTail { key, data, weight } => Reply::Inserted(core.insert_tail(
            key, data, weight,
        )),
        Call::IncrementWeight {
            key,
            data,
            delta,
            max_weight,
        } => Reply::Weight(increment(core, key, data, delta, max_weight)),
        Call::UpdateOrAdmit {
            key,
            present,
            missing,
            delta,
        } => Reply::Updated(update(core, key, present, missing, delta)),
        Call::SetWeight { key, weight } => Reply::Was(core.set_weight(key, weight)),
        Call::Promote { key } => Reply::Held(core.promote(key)),
        Call::PromoteTopN { key, top } => Reply::Held(core.promote_top_n(key, top)),
        Call::Remove { key } => Reply::Left(core.remove(key)),
        Call::EvictShard { shard } => Reply::Left(core.evict_shard(shard)),
        Call::EvictStep { a, b } => Reply::Left(core.evict_step(a, b)),
        Call::EvictToLimit => Reply::Evicted(core.evict_to_limit(alloc, rng)),
        Call::SetWeightLimit { limit } => {
            core.set_weight_limit(limit);
            Reply::Done
        }
        Call::Peek { key } => Reply::Held(core.peek(key)),
        Call::PeekWeight { key } => Reply::Known(core.peek_weight(key)),
        Call::PeekLru { shard } => Reply::Last(core.peek_lru(shard)),
        Call::Totals => Reply::Totals {
            len: core.len(),
            weight: core.weight(),
            evicted_len: core.evicted_len(),
            evicted_weight: core.evicted_weight(),
        },
    }
}

// The call `IncrementWeight`.
fn increment<T: Drop, const N: usize>(
    core: &mut LruCore<T, N>,
    key: u64,
    data: T,
    delta: usize,
    max_weight: Option<usize>,
) -> Result<usize, Cause>
    ensures { CoreIncrements (λ made. made ≡ «data») core.old key delta max_weight result core.new }
{
    core.increment_weight(key, || data, delta, max_weight)
}

// The call `UpdateOrAdmit`.
fn update<T: Drop, const N: usize>(
    core: &mut LruCore<T, N>,
    key: u64,
    present: T,
    missing: T,
    delta: usize,
) -> Result<Option<usize>, Refused<Option<(T, usize)>>>
    ensures { CoreUpdates (Overwrites present delta) (λ made. made ≡ (missing, delta)) core.old key result core.new }
{
    core.update_or_admit(
        key,
        |value: &mut T, weight: usize| -> usize
            ensures given { result ≡ min (weight + delta) 18446744073709551615 }
            ensures left { value.new ≡ present }
        {
            *value = present;
            weight.saturating_add(delta)
        },
        || (missing, delta),
    )
}

/// Does calls one after the other, and answers their replies. Room for all replies is made first: where
/// that is refused, no call is done.
pub fn run<T: Drop + Clone, R: Rng, const N: usize>(
    core: &mut LruCore<T, N>,
    alloc: Global,
    rng: &mut R,
    calls: Vec<Call<T>>,
) -> Result<Vec<Reply<T>>, AllocError>
    requires clones { (d e : T) → T.is_clone d e → e ≡ d }
    requires allowed { All (IsAllowed N) calls.items }
    ensures ok { IfOk result (λ replies. Run core.old (R.stream rng.old) calls.items replies.items core.new (R.stream rng.new)) }
    ensures err { OnErr result ((core.new ≡ core.old) × (rng.new ≡ rng.old)) }
{
    let mut replies = Vec::with_capacity(alloc, calls.len())?;
    let mut rest = calls.into_iter();
    while let Some(call) = rest.next() {
        match replies.push(answer(core, alloc, rng, call)) {
            Ok(()) => {}
            Err(_) => unreachable!(),
        }
    }
    Ok(replies)
}
