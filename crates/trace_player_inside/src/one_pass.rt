//! One pass over a trace for all limits, where every object has the size 1.
//!
//! Under a limit the cache has the objects that were asked for in the last so many requests: a window that ends at the
//! request that is played. So it is enough to know, at each request, when its key was asked for before, and which requests
//! of the trace are the last for their keys. A window has as many objects as it has such requests.
ghost use Rattle.std.specs.Prelude.{◌≡◌, ◌+◌, ◌<◌, ◌↔◌, IsTrue, ℕ, List, cond, eqb, length, drop, map, Some, IfOk, OnOk, IfSome};
ghost use Rattle.std.specs.List.Sorted.{IsNonDecreasing, IsPermutation};
ghost use Rattle.trace_player_inside.specs.Traces.{played, near, AreOfSizeOne};
ghost use Rattle.trace_player_inside.specs.Representation.Windows.{place_of, window_after, empty_window, tally_of, oldest, after, with_request, asked, summed};

use crate::player::{Request, Tally};
use lru_rows::rows::Rows;
use std::alloc::{AllocError, Global};

/// Whether each request is for an object of size 1.
pub fn are_of_size_one(requests: &[Request]) -> bool
    ensures { IsTrue result ↔ AreOfSizeOne requests.now }
{
    requests.iter().all(|request| request.size == 1)
}

// The requests that a cache under a limit has the objects of: those from a place on, up to now.
#[derive(Clone, Copy)]
struct Window {
    limit: usize,
    start: usize,
    // How many objects it has.
    held: usize,
    hits: u64,
    evictions: u64,
}

impl Window {
    fn new(limit: usize) -> Self
        ensures { result ≡ empty_window limit }
    {
        Window {
            limit,
            start: 0,
            held: 0,
            hits: 0,
            evictions: 0,
        }
    }

    // Plays a request whose key was asked for before at the place below `previous`, or never where that is 0.
    fn ask(&mut self, previous: usize, is_last: &[bool])
        ensures { self.new ≡ window_after previous is_last.now self.old }
    {
        if self.start < previous {
            self.hits = self.hits.wrapping_add(1);
        } else if self.held < self.limit {
            self.held += 1;
        } else {
            self.start = past_oldest(is_last, self.start);
            // (nothing is let in under a limit of 0, and so nothing is evicted)
            self.evictions = self.evictions.wrapping_add(self.limit.min(1) as u64);
        }
    }

    // The tally of so many requests of size 1.
    fn tally(&self, requests: usize) -> Tally
        ensures { result ≡ tally_of requests self.now }
    {
        Tally {
            requests: requests as u64,
            hits: self.hits,
            bytes: requests as u64,
            hit_bytes: self.hits,
            evictions: self.evictions,
        }
    }
}

// The place behind the first request, from `start` on, that is the last for its key.
fn past_oldest(is_last: &[bool], mut start: usize) -> usize
    ensures { result ≡ start + oldest (drop start is_last.now) }
{
    while start < is_last.len() {
        let is_found = is_last[start];
        start += 1;
        if is_found {
            return start;
        }
    }
    start
}

// Plays a request through windows in the order of their limits, up to the first that has the object. Those behind it have
// it too, and do not count it themselves.
fn ask_in_order(windows: &mut [Window], previous: usize, is_last: &[bool])
    ensures { windows.new ≡ asked previous is_last.now windows.old }
{
    for window in windows.iter_mut() {
        let is_found = window.start < previous;
        window.ask(previous, is_last);
        if is_found {
            return;
        }
    }
}

// Notes a request, and answers the place behind the last one for its key, or 0 where it is the first.
fn note(
    places: &mut Rows<u64, usize>,
    is_last: &mut Vec<bool>,
    key: u64,
) -> Result<usize, AllocError>
    requires { (k : ℕ) → IfSome (place_of places.old k) (λ place. place < length is_last.old.items) }
    ensures previous { IfOk result (λ previous. previous ≡ after (place_of places.old key)) }
    ensures places { OnOk result ((k : ℕ) → place_of places.new k ≡ cond (eqb key k) (Some (length is_last.old.items)) (place_of places.old k)) }
    ensures is_last { OnOk result (is_last.new.items ≡ with_request (place_of places.old key) is_last.old.items) }
{
    let place = is_last.len();
    let previous = match places.find(&key) {
        Some(row) => {
            let before = places.replace(row, place);
            is_last[before] = false;
            before + 1
        }
        None => {
            if places.push_first(key, place, 1).is_err() {
                return Err(AllocError);
            }
            0
        }
    };
    is_last.push(true)?;
    Ok(previous)
}

fn windows_of(alloc: Global, limits: &[usize]) -> Result<Vec<Window>, AllocError>
    ensures { IfOk result (λ windows. windows.items ≡ map empty_window limits.now) }
{
    limits
        .iter()
        .map(|limit| Window::new(*limit))
        .collect(alloc)
}

// Plays a trace through windows that are empty at first, and stand in the order of their limits.
fn play_windows(
    alloc: Global,
    windows: &mut [Window],
    requests: &[Request],
) -> Result<(), AllocError>
    requires { AreOfSizeOne requests.now }
    ensures tallies { OnOk result ((limits : List ℕ) → windows.old ≡ map empty_window limits → IsNonDecreasing limits → map (tally_of (length requests.now)) (summed 0 windows.new) ≡ map (λ limit. played limit requests.now) limits) }
    ensures hits { OnOk result ((limits : List ℕ) → map (λ tally. tally.hits) (map (λ limit. played limit requests.now) limits) ≡ map (λ limit. near limit requests.now) limits) }
{
    let mut places = Rows::with_capacity(alloc, 0)?;
    let mut is_last = Vec::with_capacity(alloc, requests.len())?;
    for request in requests {
        let previous = note(&mut places, &mut is_last, request.key)?;
        ask_in_order(windows, previous, &is_last);
    }
    Ok(())
}

// The tallies of windows, each with the hits of those before it.
fn tallies_of(alloc: Global, windows: &[Window], requests: usize) -> Result<Vec<Tally>, AllocError>
    ensures { IfOk result (λ tallies. tallies.items ≡ map (tally_of requests) (summed 0 windows.now)) }
{
    let mut tallies = Vec::with_capacity(alloc, windows.len())?;
    let mut hits = 0u64;
    for window in windows {
        hits = hits.wrapping_add(window.hits);
        let whole = Window { hits, ..*window };
        tallies.push(whole.tally(requests))?;
    }
    Ok(tallies)
}

// The tallies of a trace under limits that stand in order. The hits are those that distances tell, under any limits.
fn play_in_order(
    alloc: Global,
    limits: &[usize],
    requests: &[Request],
) -> Result<Vec<Tally>, AllocError>
    requires sizes { AreOfSizeOne requests.now }
    requires rises { IsNonDecreasing limits.now }
    ensures tallies { IfOk result (λ tallies. tallies.items ≡ map (λ limit. played limit requests.now) limits.now) }
    ensures hits { IfOk result (λ _. (some : List ℕ) → map (λ tally. tally.hits) (map (λ limit. played limit requests.now) some) ≡ map (λ limit. near limit requests.now) some) }
{
    let mut windows = windows_of(alloc, limits)?;
    play_windows(alloc, &mut windows, requests)?;
    tallies_of(alloc, &windows, requests.len())
}

// The tallies of limits, from those of the same limits in order.
fn by_place(
    alloc: Global,
    limits: &[usize],
    sorted: &[usize],
    tallies: &[Tally],
) -> Result<Vec<Tally>, AllocError>
    requires same { IsPermutation limits.now sorted.now }
    requires rises { IsNonDecreasing sorted.now }
    requires beside { length tallies.now ≡ length sorted.now }
    ensures { IfOk result (λ answers. (made : ℕ → Tally) → tallies.now ≡ map made sorted.now → answers.items ≡ map made limits.now) }
{
    let mut answers = Vec::with_capacity(alloc, limits.len())?;
    for limit in limits {
        let Ok(place) = sorted.binary_search(limit) else {
            unreachable!()
        };
        answers.push(tallies[place])?;
    }
    Ok(answers)
}

/// The tallies of a trace by caches under these limits, each as `play` has it, in one pass. Each object has to have the
/// size 1, as `are_of_size_one` tells.
///
/// It takes one look-up for each request, a byte for each, and a row for each key. There may be no memory for that, and a
/// trace of more than 4294967293 keys finds none.
pub fn play_all(
    alloc: Global,
    limits: &[usize],
    requests: &[Request],
) -> Result<Vec<Tally>, AllocError>
    requires { AreOfSizeOne requests.now }
    ensures tallies { IfOk result (λ tallies. tallies.items ≡ map (λ limit. played limit requests.now) limits.now) }
    ensures hits { IfOk result (λ tallies. map (λ tally. tally.hits) tallies.items ≡ map (λ limit. near limit requests.now) limits.now) }
{
    let mut sorted = Vec::from_slice(alloc, limits)?;
    sorted.sort_unstable();
    let in_order = play_in_order(alloc, &sorted, requests)?;
    let tallies = by_place(alloc, limits, &sorted, &in_order)?;
    Ok(tallies)
}
