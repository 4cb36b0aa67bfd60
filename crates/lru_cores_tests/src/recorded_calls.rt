//! Calls as data, and what they answer.
use lru_recording::entry::Call;
use lru_recording::journal::Seat;
use lru_recording::recorded::RecordedLru;
use lru_recording::tie::Registry;
use lru_shard::unit::Cause;
use rand::rngs::StdRng;
use std::alloc::{AllocError, Global};
use std::sync::Wait;

/// An answer. Of evicted pairs it has the number and the first.
#[derive(Clone, Copy, PartialEq, Eq)]
pub enum Answer {
    Shard(usize),
    Flag(bool),
    Weight(usize),
    Found(Option<usize>),
    Pair(Option<(u64, usize)>),
    Pairs(usize, Option<(u64, usize)>),
    Refused(Cause),
}

fn flag(answer: Result<bool, AllocError>) -> Answer {
    match answer {
        Ok(flag) => Answer::Flag(flag),
        Err(_) => Answer::Refused(Cause::Memory),
    }
}

fn pair(answer: Result<Option<(u64, usize)>, AllocError>) -> Answer {
    match answer {
        Ok(pair) => Answer::Pair(pair),
        Err(_) => Answer::Refused(Cause::Memory),
    }
}

fn found(answer: Result<Option<usize>, Cause>) -> Answer {
    match answer {
        Ok(weight) => Answer::Found(weight),
        Err(cause) => Answer::Refused(cause),
    }
}

fn weight(answer: Result<usize, Cause>) -> Answer {
    match answer {
        Ok(weight) => Answer::Weight(weight),
        Err(cause) => Answer::Refused(cause),
    }
}

// Makes a call on a key. The data of a row is its key.
fn ask_key<B: Registry, R: Wait, const N: usize>(
    rt: &R,
    lru: &RecordedLru<u64, B, N>,
    seat: &mut Seat<B>,
    call: Call,
) -> Option<Answer> {
    let answer = match call {
        Call::Admit { key, weight } => match lru.admit(rt, seat, key, key, weight) {
            Ok(shard) => Answer::Shard(shard),
            Err(refused) => Answer::Refused(refused.cause),
        },
        Call::InsertTail { key, weight } => match lru.insert_tail(rt, seat, key, key, weight) {
            Ok(added) => Answer::Flag(added),
            Err(refused) => Answer::Refused(refused.cause),
        },
        Call::IncrementWeight { key, delta } => {
            weight(lru.increment_weight(rt, seat, key, || key, delta, None))
        }
        Call::IncrementWeightUpTo {
            key,
            delta,
            max_weight,
        } => weight(lru.increment_weight(rt, seat, key, || key, delta, Some(max_weight))),
        Call::UpdateOrAdmit { key, weight } => found(
            lru.update_or_admit(
                rt,
                seat,
                key,
                |data: &mut u64, _| {
                    *data = key;
                    weight
                },
                || (key, weight),
            )
            .map_err(|refused| refused.cause),
        ),
        Call::SetWeight { key, weight } => found(lru.set_weight(rt, seat, key, weight)),
        Call::Promote { key } => flag(lru.promote(rt, seat, key)),
        Call::PromoteTopN { key, top } => flag(lru.promote_top_n(rt, seat, key, top)),
        Call::Remove { key } => pair(lru.remove(rt, seat, key)),
        Call::Peek { key } => flag(lru.peek(rt, seat, key)),
        Call::PeekWeight { key } => found(
            lru.peek_weight(rt, seat, key).map_err(|_| Cause::Memory),
        ),
        Call::EvictShard { .. } | Call::EvictToLimit | Call::PeekLru => return None,
    };
    Some(answer)
}

/// Makes a call. The data of a row is its key; a `peek_lru` is one of this shard.
pub fn ask<B: Registry, R: Wait, const N: usize>(
    rt: &R,
    alloc: Global,
    lru: &RecordedLru<u64, B, N>,
    seat: &mut Seat<B>,
    rng: &mut StdRng,
    shard: usize,
    call: Call,
) -> Answer {
    if let Some(answer) = ask_key(rt, lru, seat, call) {
        return answer;
    }
    match call {
        Call::EvictShard { shard } => pair(lru.evict_shard(rt, seat, shard)),
        Call::EvictToLimit => match lru.evict_to_limit(rt, alloc, seat, rng) {
            Ok(pairs) => Answer::Pairs(pairs.len(), pairs.first().copied()),
            Err(_) => Answer::Refused(Cause::Memory),
        },
        _ => pair(lru.peek_lru(rt, seat, shard)),
    }
}
