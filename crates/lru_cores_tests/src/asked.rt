//! Calls as they stand in a table.
use lru_cores::calls::Call;

/// A call with what it is given, in the order of `Call`'s fields.
#[derive(Clone, Copy, Debug)]
pub enum Asked {
    /// A key, its data and its weight.
    Admit(u64, u64, usize),
    /// A key, its data and its weight.
    InsertTail(u64, u64, usize),
    /// A key, the data of a missing one, what is added, and the most that it may come to.
    Increment(u64, u64, usize, Option<usize>),
    /// A key, the data of a present one and of a missing one, and what is added.
    Update(u64, u64, u64, usize),
    /// A key and its weight.
    SetWeight(u64, usize),
    /// A key.
    Promote(u64),
    /// A key, and how many rows count as first.
    PromoteTopN(u64, usize),
    /// A key.
    Remove(u64),
    /// A shard, modulo N.
    EvictShard(u64),
    /// Two shards.
    EvictStep(usize, usize),
    /// Down to the limits.
    EvictToLimit,
    /// A limit.
    SetWeightLimit(usize),
    /// A key.
    Peek(u64),
    /// A key.
    PeekWeight(u64),
    /// A shard.
    PeekLru(usize),
    /// The four sums.
    Totals,
}

/// A call, the text of its reply, and that of what it leaves: the weight, and the rows of each shard as data and
/// weight, most recent first.
pub type Step = (Asked, &'static str, &'static str);

/// The call that is asked for.
pub fn call_of(asked: Asked) -> Call<u64> {
    match asked {
        Asked::Admit(key, data, weight) => Call::Admit { key, data, weight },
        Asked::InsertTail(key, data, weight) => Call::InsertTail { key, data, weight },
        Asked::Increment(key, data, delta, max_weight) => Call::IncrementWeight {
            key,
            data,
            delta,
            max_weight,
        },
        Asked::Update(key, present, missing, delta) => Call::UpdateOrAdmit {
            key,
            present,
            missing,
            delta,
        },
        Asked::SetWeight(key, weight) => Call::SetWeight { key, weight },
        Asked::Promote(key) => Call::Promote { key },
        Asked::PromoteTopN(key, top) => Call::PromoteTopN { key, top },
        Asked::Remove(key) => Call::Remove { key },
        Asked::EvictShard(shard) => Call::EvictShard { shard },
        Asked::EvictStep(a, b) => Call::EvictStep { a, b },
        Asked::EvictToLimit => Call::EvictToLimit,
        Asked::SetWeightLimit(limit) => Call::SetWeightLimit { limit },
        Asked::Peek(key) => Call::Peek { key },
        Asked::PeekWeight(key) => Call::PeekWeight { key },
        Asked::PeekLru(shard) => Call::PeekLru { shard },
        Asked::Totals => Call::Totals,
    }
}
