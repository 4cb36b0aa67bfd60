//! Plain simulations: lists of objects, of which those that go first stand first.
use lru_admission::sketch::Sketch;
use lru_index::hashing::{SeededHashes, hash_of};
use std::alloc::{AllocError, Global};
use trace_player_inside::player::Request;
use trace_player_inside::policies::Policy;

/// What objects weigh together.
fn weight_of(objects: &[Request]) -> usize {
    let mut weight = 0usize;
    for object in objects {
        weight = weight.saturating_add(object.size);
    }
    weight
}

/// Takes a key's object out, if it is there.
fn take_out(objects: &mut Vec<Request>, key: u64) -> Option<Request> {
    let place = objects.iter().position(|object| object.key == key)?;
    if place < objects.len() {
        return Some(objects.remove(place));
    }
    None
}

/// The first objects go while they are too heavy.
fn drop_first(objects: &mut Vec<Request>, limit: usize) {
    while !objects.is_empty() && weight_of(objects) > limit {
        let _gone = objects.remove(0);
    }
}

/// What was asked for stands last, with the size that was asked for.
fn ask_lru(objects: &mut Vec<Request>, limit: usize, request: Request) -> Result<bool, AllocError> {
    let was = take_out(objects, request.key);
    if request.size <= limit {
        objects.push(request)?;
        drop_first(objects, limit);
    }
    Ok(was.is_some())
}

/// What came in stands last.
fn ask_fifo(
    objects: &mut Vec<Request>,
    limit: usize,
    request: Request,
) -> Result<bool, AllocError> {
    if objects.iter().any(|object| object.key == request.key) {
        return Ok(true);
    }
    if request.size <= limit {
        objects.push(request)?;
        drop_first(objects, limit);
    }
    Ok(false)
}

/// Two lists: what was asked for again stands last in the second one.
fn ask_segments(
    lists: &mut (Vec<Request>, Vec<Request>),
    limit: usize,
    protected: usize,
    request: Request,
) -> Result<bool, AllocError> {
    let (lower, upper) = lists;
    let was = match take_out(lower, request.key) {
        None => take_out(upper, request.key),
        was => was,
    };
    if let Some(object) = was {
        upper.push(object)?;
        while !upper.is_empty() && weight_of(upper) > protected {
            lower.push(upper.remove(0))?;
        }
        return Ok(true);
    }
    if request.size <= limit {
        let left = limit - request.size;
        let above = weight_of(upper);
        drop_first(lower, left.saturating_sub(above));
        let below = weight_of(lower);
        drop_first(upper, left.saturating_sub(below));
        lower.push(request)?;
    }
    Ok(false)
}

/// As for LRU, but of those that would go the one that was used most has to be beaten.
fn ask_sketch(
    objects: &mut Vec<Request>,
    sketch: &mut Sketch,
    limit: usize,
    request: Request,
) -> Result<bool, AllocError> {
    let hashes = SeededHashes::fixed();
    let hash = hash_of(&hashes, &request.key);
    sketch.count(hash);
    if let Some(object) = take_out(objects, request.key) {
        objects.push(object)?;
        return Ok(true);
    }
    if request.size <= limit {
        let mut weight = weight_of(objects);
        let mut gone = 0usize;
        let mut is_beaten = true;
        for object in objects.iter() {
            if weight.saturating_add(request.size) <= limit {
                break;
            }
            weight = weight.saturating_sub(object.size);
            gone = gone.saturating_add(1);
            let rival = hash_of(&hashes, &object.key);
            is_beaten = is_beaten && sketch.estimate(rival) < sketch.estimate(hash);
        }
        if is_beaten {
            objects.push(request)?;
            drop_first(objects, limit);
        }
    }
    Ok(false)
}

/// The hits of a policy under a limit, whose sketch is for so many objects. The optimum has none here.
pub fn plain_hits(
    alloc: Global,
    policy: Policy,
    limit: usize,
    counted: usize,
    requests: &[Request],
) -> Result<u64, AllocError> {
    let mut lists = (Vec::new(alloc), Vec::new(alloc));
    let mut sketch = Sketch::new(alloc, counted)?;
    let mut hits = 0u64;
    for request in requests {
        let is_found = match policy {
            Policy::Lru => ask_lru(&mut lists.0, limit, *request)?,
            Policy::Fifo => ask_fifo(&mut lists.0, limit, *request)?,
            Policy::Segmented(tenths) => {
                let protected = limit.saturating_mul(tenths as usize) / 10;
                ask_segments(&mut lists, limit, protected, *request)?
            }
            Policy::Admission => ask_sketch(&mut lists.0, &mut sketch, limit, *request)?,
            Policy::Optimum => false,
        };
        hits = hits.saturating_add(is_found as u64);
    }
    Ok(hits)
}

/// The most hits of all ways to keep at most so many of six keys, by the sets that may be kept.
pub fn most_of_all(objects: u32, requests: &[Request]) -> u64 {
    let mut best = [None; 64];
    best[0] = Some(0u64);
    for request in requests {
        let bit = 1usize << (request.key % 6);
        let mut next = [None; 64];
        for (kept, found) in best.iter().enumerate() {
            if let Some(found) = *found {
                let found = found.saturating_add((kept & bit != 0) as u64);
                keep_any(&mut next, kept | bit, objects, found);
            }
        }
        best = next;
    }
    best.iter()
        .map(|found| found.unwrap_or(0))
        .max()
        .unwrap_or(0)
}

/// Any of these objects may be kept, if they are few enough.
fn keep_any(next: &mut [Option<u64>], there: usize, objects: u32, found: u64) {
    for (left, best) in next.iter_mut().enumerate() {
        if left & there == left && left.count_ones() <= objects {
            *best = Some(best.unwrap_or(0).max(found));
        }
    }
}
