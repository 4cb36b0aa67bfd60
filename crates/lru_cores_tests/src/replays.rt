//! Drawn calls on an `Lru` and on a core answer the same, and leave the same, by one thread and by two.
ghost use Rattle.lru_cores.specs.Calls.{IsAllowed};

use crate::locked_steps::answer_of;
use crate::shown::{tell_core_state, tell_state, text_of};
use lru_cores::calls;
use lru_cores::calls::Call;
use lru_cores::lru_core::LruCore;
use lru_shared_order::lru::Lru;
use rand::rngs::StdRng;
use rand_core::{Rng, SeedableRng};
use std::alloc::{AllocError, Global};
use std::sync::Wait;
use std::test::Fail;
use std::thread;
use std::thread::Threads;

// Which calls are drawn: those on any key and shard, or those alone that take one of one shard of two.
#[derive(Clone, Copy)]
enum Of {
    All,
    Shard(u64),
}

// What is drawn for a call, whichever it will be.
struct Drawn {
    key: u64,
    // any key, also where those of one shard alone are called
    any: u64,
    shard: u64,
    data: u64,
    weight: usize,
    most: usize,
    kind: u64,
}

fn draw(rng: &mut StdRng, of: Of) -> Drawn {
    let any = rng.next_u64() % 8;
    let data = rng.next_u64() % 1000;
    let weight = (rng.next_u64() % 6) as usize;
    let most = (rng.next_u64() % 8) as usize;
    let word = rng.next_u64();
    let (key, shard, kind) = match of {
        Of::All => (any, word / 15 % 5, word % 15),
        Of::Shard(shard) => ((any & !1) | (shard & 1), shard & 1, word % 12),
    };
    Drawn {
        key,
        any,
        shard,
        data,
        weight,
        most,
        kind,
    }
}

// A bound of an increment, in three of four calls.
fn bound(most: usize) -> Option<usize> {
    if most < 6 { Some(most) } else { None }
}

fn drawn_call<const N: usize>(rng: &mut StdRng, of: Of) -> Call<u64>
    ensures { IsAllowed N result }
{
    let Drawn {
        key,
        any,
        shard,
        data,
        weight,
        most,
        kind,
    } = draw(rng, of);
    match kind {
        0 => Call::Admit { key, data, weight },
        1 => Call::InsertTail { key, data, weight },
        2 => Call::IncrementWeight {
            key,
            data,
            delta: weight,
            max_weight: bound(most),
        },
        3 => Call::UpdateOrAdmit {
            key,
            present: data,
            missing: any,
            delta: weight,
        },
        4 => Call::SetWeight { key, weight },
        5 => Call::Promote { key },
        6 => Call::PromoteTopN { key, top: most / 2 },
        7 => Call::Remove { key },
        8 => Call::Peek { key },
        9 => Call::PeekWeight { key },
        10 => Call::PeekLru {
            shard: shard as usize,
        },
        11 => Call::EvictShard { shard },
        12 => Call::EvictToLimit,
        13 => Call::SetWeightLimit {
            limit: most.saturating_add(15),
        },
        _ => Call::Totals,
    }
}

// The answers of so many drawn calls on an `Lru`. Calls are drawn by one generator, and shards by another.
fn answers_of<R: Wait, const N: usize>(
    rt: &R,
    alloc: Global,
    lru: &Lru<u64, N>,
    seed: u64,
    of: Of,
) -> Result<String, AllocError> {
    let mut rng = StdRng::seed_from_u64(seed);
    let mut draws = StdRng::seed_from_u64(seed);
    let mut text = String::new(alloc);
    for _ in 0..500u32 {
        let call = drawn_call::<N>(&mut rng, of);
        let reply = answer_of(rt, alloc, &mut draws, lru, call);
        text.push_str(text_of(alloc, reply)?.as_str())?;
    }
    Ok(text)
}

// The answers of the same calls on a core.
fn tell_core_answers<const N: usize>(
    alloc: Global,
    core: &mut LruCore<u64, N>,
    seed: u64,
    of: Of,
    text: &mut String,
) -> Result<(), AllocError> {
    let mut rng = StdRng::seed_from_u64(seed);
    let mut draws = StdRng::seed_from_u64(seed);
    for _ in 0..500u32 {
        let call = drawn_call::<N>(&mut rng, of);
        let reply = calls::answer(core, alloc, &mut draws, call);
        text.push_str(text_of(alloc, reply)?.as_str())?;
    }
    Ok(())
}

// The generators of calls and of shards.
#[derive(Drop)]
struct Generators {
    calls: StdRng,
    draws: StdRng,
}

impl Generators {
    fn of_seed(seed: u64) -> Self {
        Generators {
            calls: StdRng::seed_from_u64(seed),
            draws: StdRng::seed_from_u64(seed),
        }
    }
}

// One call on an `Lru`: what it answers, and the whole state after it.
fn turn<R: Wait>(
    rt: &R,
    alloc: Global,
    lru: &Lru<u64, 3>,
    generators: &mut Generators,
) -> Result<String, AllocError> {
    let call = drawn_call::<3>(&mut generators.calls, Of::All);
    let reply = answer_of(rt, alloc, &mut generators.draws, lru, call);
    let mut text = text_of(alloc, reply)?;
    tell_state(rt, alloc, lru, &mut text)?;
    Ok(text)
}

fn core_turn(
    alloc: Global,
    core: &mut LruCore<u64, 3>,
    generators: &mut Generators,
) -> Result<String, AllocError> {
    let call = drawn_call::<3>(&mut generators.calls, Of::All);
    let reply = calls::answer(core, alloc, &mut generators.draws, call);
    let mut text = text_of(alloc, reply)?;
    tell_core_state(alloc, core, &mut text)?;
    Ok(text)
}

// One call at a time: the first turn, if there is one, after which they are not alike.
fn other_turn<R: Wait>(rt: &R, alloc: Global, seed: u64) -> Result<Option<u32>, AllocError> {
    let mut generators = Generators::of_seed(seed);
    let mut core_generators = Generators::of_seed(seed);
    let lru = Lru::<u64, 3>::with_capacity_and_watermark(alloc, 20, 2, Some(5))?;
    let mut core = LruCore::<u64, 3>::with_capacity_and_watermark(alloc, 20, 2, Some(5))?;
    for turn_number in 0..500u32 {
        let text = turn(rt, alloc, &lru, &mut generators)?;
        if text != core_turn(alloc, &mut core, &mut core_generators)? {
            return Ok(Some(turn_number));
        }
    }
    Ok(None)
}

// The first seed and turn, if there are such, after which they are not alike.
fn other_answer<R: Wait>(rt: &R, alloc: Global) -> Result<Option<(u64, u32)>, AllocError> {
    for seed in 0..20u64 {
        if let Some(turn) = other_turn(rt, alloc, seed)? {
            return Ok(Some((seed, turn)));
        }
    }
    Ok(None)
}

#[test]
fn answers_as_a_core(rt: HostRuntime) -> Result<(), Fail> {
    assert_eq!(rt; other_answer(&rt, rt.alloc())?, None);
    Ok(())
}

// Two threads, each on one shard.
fn answers_of_both<R: Threads + Wait + Sync>(
    rt: &R,
    alloc: Global,
    lru: &Lru<u64, 2>,
    seed: u64,
) -> (Result<String, AllocError>, Result<String, AllocError>) {
    thread::join(
        rt,
        || answers_of(rt, alloc, lru, seed, Of::Shard(0)),
        || answers_of(rt, alloc, lru, seed, Of::Shard(1)),
    )
}

// The texts of both threads, each on a line.
fn lines_of(
    even: Result<String, AllocError>,
    odd: Result<String, AllocError>,
) -> Result<String, AllocError> {
    let mut text = even?;
    let odd = odd?;
    write!(text, "\n{odd}\n")?;
    Ok(text)
}

// What two threads answer, and leave.
fn text_of_both<R: Threads + Wait + Sync>(
    rt: &R,
    alloc: Global,
    seed: u64,
) -> Result<String, AllocError> {
    let lru = Lru::<u64, 2>::with_capacity_and_watermark(alloc, 20, 2, Some(5))?;
    let (even, odd) = answers_of_both(rt, alloc, &lru, seed);
    let mut text = lines_of(even, odd)?;
    tell_state(rt, alloc, &lru, &mut text)?;
    Ok(text)
}

// What a core answers and leaves, which does the calls of the one and then those of the other.
fn text_of_core(alloc: Global, seed: u64) -> Result<String, AllocError> {
    let mut core = LruCore::<u64, 2>::with_capacity_and_watermark(alloc, 20, 2, Some(5))?;
    let mut text = String::new(alloc);
    for shard in [0u64, 1] {
        tell_core_answers(alloc, &mut core, seed, Of::Shard(shard), &mut text)?;
        text.push_str("\n")?;
    }
    tell_core_state(alloc, &core, &mut text)?;
    Ok(text)
}

// Whether they are alike.
fn are_alike<R: Threads + Wait + Sync>(
    rt: &R,
    alloc: Global,
    seed: u64,
) -> Result<bool, AllocError> {
    Ok(text_of_both(rt, alloc, seed)? == text_of_core(alloc, seed)?)
}

// The first seed, if there is one, at which they are not.
fn other_seed<R: Threads + Wait + Sync>(rt: &R, alloc: Global) -> Result<Option<u64>, AllocError> {
    for seed in 0..20u64 {
        if !are_alike(rt, alloc, seed)? {
            return Ok(Some(seed));
        }
    }
    Ok(None)
}

#[test]
fn two_threads_answer_as_a_core(rt: HostRuntime) -> Result<(), Fail> {
    assert_eq!(rt; other_seed(&rt, rt.alloc())?, None);
    Ok(())
}
