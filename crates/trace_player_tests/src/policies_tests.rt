//! Each policy over a worked trace, and over made ones beside a plain simulation.
use crate::plain::{most_of_all, plain_hits};
use std::alloc::{AllocError, Global};
use std::test::Fail;
use trace_player_inside::future::{hits_at_best, next_uses};
use trace_player_inside::made::{Kind, Recipe, keys_of};
use trace_player_inside::plain_program::Takes;
use trace_player_inside::player::Request;
use trace_player_inside::policies::{POLICIES, Policy, Refusal, hits};
use trace_player_inside::sampling::Sample;

// Requests for 1, 2, 1, 3, 2, 4, 1 and 3.
static KEYS: [u64; 8] = [1, 2, 1, 3, 2, 4, 1, 3];

// Under each limit the hits of LRU, of FIFO, of two segments of which the upper one has a half, and of the optimum, by hand.
// Under 2, FIFO has 1 and 2 at the third request, 3 and 2 at the fifth, 1 and 4 at the last; in segments 1 is above from the
// third request on, and is found again at the seventh; the optimum keeps 1 and 2, and then 1 alone.
static WORKED: [(usize, [u64; 4]); 5] = [
    (0, [0, 0, 0, 0]),
    (1, [0, 0, 0, 2]),
    (2, [1, 2, 2, 3]),
    (3, [2, 3, 3, 4]),
    (4, [4, 4, 4, 4]),
];

static WORKED_POLICIES: [Policy; 4] = [
    Policy::Lru,
    Policy::Fifo,
    Policy::Segmented(5),
    Policy::Optimum,
];

fn ones_of(alloc: Global, keys: &[u64]) -> Result<Vec<Request>, AllocError> {
    let mut requests = Vec::new(alloc);
    for key in keys {
        requests.push(Request { key: *key, size: 1 })?;
    }
    Ok(requests)
}

fn wrong_worked(alloc: Global) -> Result<String, Refusal> {
    let requests = ones_of(alloc, &KEYS)?;
    for (limit, wanted) in &WORKED {
        for (policy, wanted) in WORKED_POLICIES.iter().zip(wanted) {
            let told = hits(alloc, *policy, *limit, &requests)?;
            if told != *wanted {
                return Ok(format!(in alloc; "{policy} {limit}: {told}")?);
            }
        }
    }
    Ok(String::new(alloc))
}

// Kinds of traces, the most sizes that their objects have, and seeds.
static TRACES: [(Kind, usize, u64); 8] = [
    (Kind::Zipf, 1, 1),
    (Kind::Zipf, 1, 2),
    (Kind::Zipf, 4, 3),
    (Kind::Scan, 1, 4),
    (Kind::Scan, 3, 5),
    (Kind::Loop, 1, 6),
    (Kind::Shift, 1, 7),
    (Kind::Mixed, 3, 8),
];

// A trace of six keys and those of walks and loops. Where there are several sizes, an object has another one each time.
fn small_trace(
    alloc: Global,
    kind: Kind,
    sizes: usize,
    seed: u64,
) -> Result<Vec<Request>, AllocError> {
    let keys = keys_of(
        alloc,
        &Recipe {
            kind,
            keys: 6,
            requests: 80,
            cache: 2,
            seed,
        },
    )?;
    let mut requests = ones_of(alloc, &keys)?;
    for (place, request) in requests.iter_mut().enumerate() {
        request.size = place.wrapping_mul(7) % sizes.max(1) + 1;
    }
    Ok(requests)
}

// As many objects as the cache is likely to have, by their mean size.
fn counted(limit: usize, requests: &[Request]) -> usize {
    let mut bytes = 0usize;
    for request in requests {
        bytes = bytes.saturating_add(request.size);
    }
    let mean = bytes / requests.len().max(1);
    (limit / mean.max(1)).min(requests.len())
}

fn wrong_policy(alloc: Global, limit: usize, requests: &[Request]) -> Result<String, Refusal> {
    for policy in &POLICIES {
        if *policy == Policy::Optimum {
            continue;
        }
        let told = hits(alloc, *policy, limit, requests)?;
        let plain = plain_hits(alloc, *policy, limit, counted(limit, requests), requests)?;
        if told != plain {
            return Ok(format!(in alloc; "{policy} {limit}: {told}, and not {plain}")?);
        }
    }
    Ok(String::new(alloc))
}

fn wrong_policies(alloc: Global) -> Result<String, Refusal> {
    for (kind, sizes, seed) in &TRACES {
        let requests = small_trace(alloc, *kind, *sizes, *seed)?;
        for limit in 1..8 {
            let wrong = wrong_policy(alloc, limit, &requests)?;
            if !wrong.is_empty() {
                return Ok(format!(in alloc; "{kind:?} {sizes} {seed}: {wrong}")?);
            }
        }
    }
    Ok(String::new(alloc))
}

// The optimum is the most that any choice finds, of objects of size 1.
fn wrong_optimum(alloc: Global) -> Result<String, Refusal> {
    for seed in 1..=3 {
        let requests = small_trace(alloc, Kind::Zipf, 1, seed)?;
        let next = next_uses(alloc, &requests)?;
        for limit in 1..=5 {
            let told = hits_at_best(alloc, limit, &requests, &next)?;
            if told != most_of_all(limit as u32, &requests) {
                return Ok(format!(in alloc; "optimum {seed} {limit}: {told}")?);
            }
        }
    }
    Ok(String::new(alloc))
}

// No policy finds more than the optimum, or than the bound where sizes differ, but each object has one.
fn wrong_bound(alloc: Global) -> Result<String, Refusal> {
    for (kind, sizes, seed) in &TRACES {
        let mut requests = small_trace(alloc, *kind, 1, *seed)?;
        for request in requests.iter_mut() {
            request.size = (request.key % (*sizes).max(1) as u64) as usize + 1;
        }
        for limit in 1..8 {
            let best = hits(alloc, Policy::Optimum, limit, &requests)?;
            for policy in &POLICIES {
                if hits(alloc, *policy, limit, &requests)? > best {
                    return Ok(format!(in alloc; "{kind:?} {policy} {limit}: over {best}")?);
                }
            }
        }
    }
    Ok(String::new(alloc))
}

// A sample of all keys tells what an LRU finds, and no error.
fn wrong_sample(alloc: Global) -> Result<String, Refusal> {
    let requests = small_trace(alloc, Kind::Mixed, 3, 9)?;
    let mut sample = Sample::new(alloc, 1, &[1, 2, 3, 5, 8])?;
    for request in &requests {
        sample.take(*request)?;
    }
    for estimate in &sample.estimates(alloc)? {
        let found = hits(alloc, Policy::Lru, estimate.limit, &requests)?;
        if estimate.misses.saturating_add(found) != sample.sampled || estimate.error != 0 {
            return Ok(format!(in alloc; "sample {estimate:?}")?);
        }
    }
    Ok(String::new(alloc))
}

// A sample of one key in 4, of 4000 requests for as many keys: about 1000 of them, each a miss. With n of them the error is
// 1.96 times the root of 12 n, over 4000.
fn wrong_rate(alloc: Global) -> Result<String, Refusal> {
    let mut sample = Sample::new(alloc, 4, &[100])?;
    for key in 0..4000 {
        sample.take(Request { key, size: 1 })?;
    }
    let count = sample.sampled;
    for estimate in &sample.estimates(alloc)? {
        let is_near = estimate.error >= 520 && estimate.error <= 550;
        if count < 940 || count > 1060 || estimate.misses != count.wrapping_mul(4) || !is_near {
            return Ok(format!(in alloc; "rate {count} {estimate:?}")?);
        }
    }
    Ok(String::new(alloc))
}

fn text_of(alloc: Global, wrong: Result<String, Refusal>) -> Result<String, AllocError> {
    match wrong {
        Ok(wrong) => Ok(wrong),
        Err(refusal) => format!(in alloc; "{refusal:?}"),
    }
}

fn wrong_of_all(alloc: Global) -> Result<String, AllocError> {
    let mut wrong = text_of(alloc, wrong_worked(alloc))?;
    wrong.push_str(&text_of(alloc, wrong_policies(alloc))?)?;
    wrong.push_str(&text_of(alloc, wrong_optimum(alloc))?)?;
    wrong.push_str(&text_of(alloc, wrong_bound(alloc))?)?;
    wrong.push_str(&text_of(alloc, wrong_sample(alloc))?)?;
    wrong.push_str(&text_of(alloc, wrong_rate(alloc))?)?;
    Ok(wrong)
}

#[test]
fn each_policy_is_as_it_is_plain(rt: HostRuntime) -> Result<(), Fail> {
    let wrong = wrong_of_all(rt.alloc())?;
    assert_eq!(rt; wrong.as_str(), "");
    Ok(())
}

// How many of these seeds make the trace that the first of them makes.
fn alike(alloc: Global, kind: Kind) -> Result<usize, AllocError> {
    let first = small_trace(alloc, kind, 1, 1)?;
    let mut alike = 0usize;
    for seed in 1..=8 {
        if small_trace(alloc, kind, 1, seed)?.as_slice() == first.as_slice() {
            alike = alike.wrapping_add(1);
        }
    }
    Ok(alike)
}

#[test]
fn each_seed_makes_its_own_trace(rt: HostRuntime) -> Result<(), Fail> {
    let alloc: Global = rt.alloc();
    assert_eq!(rt;
        [alike(alloc, Kind::Zipf)?, alike(alloc, Kind::Mixed)?],
        [1, 1]
    );
    Ok(())
}
