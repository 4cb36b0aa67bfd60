//! What can be found at most, by one who knows all requests before the first.
ghost use Rattle.std.specs.Prelude.{◌≡◌, ◌≤◌, max, length, vec_len, IfOk, IfSome};
ghost use Rattle.std.specs.List.{All};

use crate::player::Request;
use lru_rows::rows::Rows;
use std::alloc::{AllocError, Global};
use std::collections::BTreeSet;

/// The place that stands for no further request for a key.
pub const NEVER: usize = usize::MAX;

/// For each request the place of the next one for its key, or `NEVER`.
///
/// # Errors
///
/// There is no memory.
pub fn next_uses(alloc: Global, requests: &[Request]) -> Result<Vec<usize>, AllocError>
    ensures { IfOk result (λ next. vec_len next ≡ length requests.now) }
{
    let mut next = vec![in alloc; NEVER; requests.len()]?;
    let mut places = Rows::with_capacity(alloc, 0)?;
    for (place, request) in requests.iter().enumerate() {
        match places.find(&request.key) {
            Some(row) => {
                let before = places.replace(row, place);
                if let Some(cell) = next.get_mut(before) {
                    *cell = place;
                }
            }
            None => {
                if places.push_first(request.key, place, 1).is_err() {
                    return Err(AllocError);
                }
            }
        }
    }
    Ok(next)
}

/// The size of all objects, where it is one and the same.
pub(crate) fn only_size(requests: &[Request]) -> Option<usize>
    ensures { IfSome result (λ size. All (λ q. max q.size 1 ≡ size) requests.now) }
{
    let size = requests.first()?.size.max(1);
    requests
        .iter()
        .all(|request| request.size.max(1) == size)
        .then_some(size)
}

/// How many requests find their object at best, whatever is kept and let in: exactly, where all objects have one size. Else it
/// is a bound on that, where each object keeps its size. `next` is what `next_uses` tells of the requests.
///
/// # Errors
///
/// There is no memory.
pub fn hits_at_best(
    alloc: Global,
    limit: usize,
    requests: &[Request],
    next: &[usize],
) -> Result<u64, AllocError>
    ensures { IfOk result (λ hits. hits ≤ length next.now) }
{
    match only_size(requests) {
        Some(size) => most_hits(alloc, limit / size.max(1), next),
        None => bound_on_hits(alloc, limit, requests, next),
    }
}

// The hits of a cache of so many objects that lets go of the one whose next request is the last of all. An object is known
// by the place of its next request: it is found there if it is still kept.
fn most_hits(alloc: Global, objects: usize, next: &[usize]) -> Result<u64, AllocError>
    ensures { IfOk result (λ hits. hits ≤ length next.now) }
{
    let mut kept = BTreeSet::new(alloc);
    let mut hits = 0u64;
    for (place, next) in next.iter().enumerate() {
        if kept.remove(&place) {
            hits = hits.saturating_add(1);
        }
        if *next == NEVER {
            continue;
        }
        kept.insert(*next)?;
        if kept.len() > objects {
            let _last = kept.pop_last();
        }
    }
    Ok(hits)
}

// What it takes to find each object again: its size, at each request from one for it to the next. One that never fits is
// found by nobody.
fn costs_of(
    alloc: Global,
    limit: usize,
    requests: &[Request],
    next: &[usize],
) -> Result<Vec<u128>, AllocError>
    ensures { IfOk result (λ costs. vec_len costs ≤ length next.now) }
{
    let mut costs = Vec::new(alloc);
    for (place, later) in next.iter().enumerate() {
        let Some(request) = requests.get(place) else {
            break;
        };
        let size = request.size.max(1);
        if *later != NEVER && size <= limit {
            costs.push(size as u128 * later.saturating_sub(place) as u128)?;
        }
    }
    costs.sort_unstable();
    Ok(costs)
}

// A bound on the hits, whatever the sizes. To find an object again is to have kept its size from one request to the next, and
// all that is kept at all requests is no more than the limit for each: so no more can be found than of those that take least.
fn bound_on_hits(
    alloc: Global,
    limit: usize,
    requests: &[Request],
    next: &[usize],
) -> Result<u64, AllocError>
    ensures { IfOk result (λ hits. hits ≤ length next.now) }
{
    let costs = costs_of(alloc, limit, requests, next)?;
    let mut left = limit as u128 * requests.len() as u128;
    let mut hits = 0u64;
    for cost in &costs {
        if *cost > left {
            break;
        }
        left -= *cost;
        hits = hits.saturating_add(1);
    }
    Ok(hits)
}
