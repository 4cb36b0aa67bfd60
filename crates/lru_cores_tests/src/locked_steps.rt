//! A list of calls on an `Lru`, done one by one: the text of each reply, and of the `Lru` after it.
use crate::asked::{Step, call_of};
use crate::shown::{rows_of, text_of};
use lru_cores::calls::{Call, Reply};
use lru_shard::unit::Refused;
use lru_shared_order::lru::Lru;
use rand::rngs::StdRng;
use std::alloc::{AllocError, Global};
use std::sync::Wait;

fn update<R: Wait, const N: usize>(
    rt: &R,
    lru: &Lru<u64, N>,
    key: u64,
    present: u64,
    missing: u64,
    delta: usize,
) -> Result<Option<usize>, Refused<Option<(u64, usize)>>> {
    lru.update_or_admit(
        rt,
        key,
        |value: &mut u64, weight: usize| {
            *value = present;
            weight.saturating_add(delta)
        },
        || (missing, delta),
    )
}

// Does a call on an `Lru`. An `evict_step` is no call of it.
pub fn answer_of<R: Wait, const N: usize>(
    rt: &R,
    alloc: Global,
    rng: &mut StdRng,
    lru: &Lru<u64, N>,
    call: Call<u64>,
) -> Reply<u64> {
    match call {
        Call::Admit { key, data, weight } => Reply::Shard(lru.admit(rt, key, data, weight)),
        Call::InsertTail { key, data, weight } => Reply::Inserted(lru.insert_tail(
            rt, key, data, weight,
        )),
        Call::IncrementWeight {
            key,
            data,
            delta,
            max_weight,
        } => Reply::Weight(lru.increment_weight(rt, key, || data, delta, max_weight)),
        Call::UpdateOrAdmit {
            key,
            present,
            missing,
            delta,
        } => Reply::Updated(update(rt, lru, key, present, missing, delta)),
        Call::SetWeight { key, weight } => Reply::Was(lru.set_weight(rt, key, weight)),
        Call::Promote { key } => Reply::Held(lru.promote(rt, key)),
        Call::PromoteTopN { key, top } => Reply::Held(lru.promote_top_n(rt, key, top)),
        Call::Remove { key } => Reply::Left(lru.remove(rt, key)),
        Call::EvictShard { shard } => Reply::Left(lru.evict_shard(rt, shard)),
        Call::EvictStep { .. } => Reply::Left(None),
        Call::EvictToLimit => Reply::Evicted(lru.evict_to_limit(rt, alloc, rng)),
        Call::SetWeightLimit { limit } => {
            lru.set_weight_limit(limit);
            Reply::Done
        }
        Call::Peek { key } => Reply::Held(lru.peek(rt, key)),
        Call::PeekWeight { key } => Reply::Known(lru.peek_weight(rt, key)),
        Call::PeekLru { shard } => Reply::Last(lru.peek_lru(rt, shard)),
        Call::Totals => Reply::Totals {
            len: lru.len(),
            weight: lru.weight(),
            evicted_len: lru.evicted_len(),
            evicted_weight: lru.evicted_weight(),
        },
    }
}

// The rows of each shard of an `Lru`, behind its weight.
pub fn show<R: Wait, const N: usize>(
    rt: &R,
    alloc: Global,
    lru: &Lru<u64, N>,
    text: &mut String,
) -> Result<(), AllocError> {
    let weight = lru.weight();
    write!(text, "{weight}:")?;
    for shard in 0..lru.shards() {
        let rows = rows_of(rt, alloc, lru, shard)?;
        write!(text, " {rows:?}")?;
    }
    Ok(())
}

// The same as a text of its own.
pub fn shown<R: Wait, const N: usize>(
    rt: &R,
    alloc: Global,
    lru: &Lru<u64, N>,
) -> Result<String, AllocError> {
    let mut text = String::new(alloc);
    show(rt, alloc, lru, &mut text)?;
    Ok(text)
}

// Does a call, and says where it answers or leaves something else.
fn tell_fault<R: Wait, const N: usize>(
    rt: &R,
    alloc: Global,
    lru: &Lru<u64, N>,
    rng: &mut StdRng,
    (asked, reply, left): Step,
    faults: &mut String,
) -> Result<(), AllocError> {
    let answer = text_of(alloc, answer_of(rt, alloc, rng, lru, call_of(asked)))?;
    let shown = shown(rt, alloc, lru)?;
    if (answer.as_str(), shown.as_str()) != (reply, left) {
        write!(faults, "{asked:?} answers {answer} and leaves {shown}\n")?;
    }
    Ok(())
}

// Does the calls in turn, and says which answer or leave something else; nothing, where all is well.
pub fn tell_faults<R: Wait, const N: usize>(
    rt: &R,
    alloc: Global,
    lru: &Lru<u64, N>,
    rng: &mut StdRng,
    steps: &[Step],
    faults: &mut String,
) -> Result<(), AllocError> {
    for step in steps {
        tell_fault(rt, alloc, lru, rng, *step, faults)?;
    }
    Ok(())
}
