//! A plain checker of histories and receipts.
ghost use Rattle.std.specs.Prelude.{◌≡◌, vec_len};

use lru_recording::entry::{Call, Entry, Reply};
use lru_recording::journal::Seat;
use lru_recording::recorded::{Recorded, RecordedLru};
use lru_recording::tie::Registry;
use lru_shard::unit::LruUnit;
use std::alloc::{AllocError, Global};

// A list of keys and weights, most recent first.
type Rows = Vec<(u64, usize)>;

fn place_of(rows: &Rows, key: u64) -> Option<usize> {
    for (place, row) in rows.iter().enumerate() {
        if row.0 == key {
            return Some(place);
        }
    }
    None
}

fn weight_of(rows: &Rows, key: u64) -> Option<usize> {
    for row in rows {
        if row.0 == key {
            return Some(row.1);
        }
    }
    None
}

// Takes a key's row out, and answers its weight.
fn take(rows: &mut Rows, key: u64) -> Option<usize> {
    let place = place_of(rows, key)?;
    if place < rows.len() {
        return Some(rows.remove(place).1);
    }
    None
}

// Puts a row first, in place of its key's, and answers the weight that this one had.
fn put_first(rows: &mut Rows, key: u64, weight: usize) -> Result<Option<usize>, AllocError> {
    let was = take(rows, key);
    rows.insert(0, (key, weight))?;
    Ok(was)
}

fn found(weight: Option<usize>) -> Reply {
    match weight {
        None => Reply::NotFound,
        Some(weight) => Reply::Found(weight),
    }
}

// The weight of a row after an increment, by its weight before.
fn grown(was: Option<usize>, delta: usize, max_weight: Option<usize>) -> usize {
    let most = max_weight.unwrap_or(usize::MAX);
    match was {
        None => delta.min(most).max(1),
        Some(old) => old.saturating_add(delta).min(most).max(old),
    }
}

fn grow(
    rows: &mut Rows,
    key: u64,
    delta: usize,
    max_weight: Option<usize>,
) -> Result<Reply, AllocError> {
    let weight = grown(weight_of(rows, key), delta, max_weight);
    put_first(rows, key, weight)?;
    Ok(Reply::Weight(weight))
}

fn promote(rows: &mut Rows, key: u64, top: usize) -> Result<Reply, AllocError> {
    let Some(place) = place_of(rows, key) else {
        return Ok(Reply::Flag(false));
    };
    if place >= top && place < rows.len() {
        let row = rows.remove(place);
        rows.insert(0, row)?;
    }
    Ok(Reply::Flag(true))
}

// Makes a call on the list, and answers its reply.
fn reply_of(rows: &mut Rows, call: Call) -> Result<Reply, AllocError> {
    Ok(match call {
        Call::Admit { key, weight } => {
            Reply::Weight(put_first(rows, key, weight.max(1))?.unwrap_or(0))
        }
        Call::InsertTail { key, weight } => {
            let missing = weight_of(rows, key).is_none();
            if missing {
                rows.push((key, weight))?;
            }
            Reply::Flag(missing)
        }
        Call::IncrementWeight { key, delta } => grow(rows, key, delta, None)?,
        Call::IncrementWeightUpTo {
            key,
            delta,
            max_weight,
        } => grow(rows, key, delta, Some(max_weight))?,
        Call::UpdateOrAdmit { key, weight } => found(put_first(rows, key, weight)?),
        Call::SetWeight { key, weight } => {
            let was = weight_of(rows, key);
            for row in rows.iter_mut() {
                if row.0 == key {
                    row.1 = weight.max(1);
                }
            }
            found(was)
        }
        Call::Promote { key } => promote(rows, key, 0)?,
        Call::PromoteTopN { key, top } => promote(rows, key, top)?,
        Call::EvictShard { .. } | Call::EvictToLimit => found(rows.pop().map(|row| row.1)),
        Call::Remove { key } => found(take(rows, key)),
        Call::Peek { key } => Reply::Flag(weight_of(rows, key).is_some()),
        Call::PeekWeight { key } => found(weight_of(rows, key)),
        Call::PeekLru => found(rows.last().map(|row| row.1)),
    })
}

// The number whose shard a call is of, where it names one.
fn number_in(call: Call) -> Option<u64> {
    match call {
        Call::Admit { key, .. }
        | Call::InsertTail { key, .. }
        | Call::IncrementWeight { key, .. }
        | Call::IncrementWeightUpTo { key, .. }
        | Call::UpdateOrAdmit { key, .. }
        | Call::SetWeight { key, .. }
        | Call::Promote { key }
        | Call::PromoteTopN { key, .. }
        | Call::Remove { key }
        | Call::Peek { key }
        | Call::PeekWeight { key } => Some(key),
        Call::EvictShard { shard } => Some(shard),
        Call::EvictToLimit | Call::PeekLru => None,
    }
}

// Whether each call is of this shard and has the plain list's reply, and the list at the end is the shard's.
fn is_legal<const N: usize>(
    alloc: Global,
    shard: usize,
    history: &[Entry],
    unit: &LruUnit<u64>,
) -> Result<bool, AllocError> {
    if N == 0 {
        return Ok(false);
    }
    let mut rows = Vec::new(alloc);
    for entry in history {
        let of_shard = match number_in(entry.call) {
            None => true,
            Some(number) => (number % N as u64) as usize == shard,
        };
        if !of_shard || reply_of(&mut rows, entry.call)? != entry.reply {
            return Ok(false);
        }
    }
    let mut units = unit.iter();
    for row in &rows {
        let Some((data, weight)) = units.next() else {
            return Ok(false);
        };
        if *data != row.0 || weight != row.1 {
            return Ok(false);
        }
    }
    Ok(units.next().is_none())
}

fn entry_at(histories: &[Vec<Entry>], shard: usize, place: usize) -> Option<Entry> {
    histories.get(shard)?.get(place).copied()
}

// Whether each receipt is the entry at its place, with its seat and turn, and there are as many receipts as entries.
fn is_tied<B: Registry>(histories: &[Vec<Entry>], seats: &[Seat<B>]) -> bool {
    let mut left = 0usize;
    for history in histories {
        left = left.wrapping_add(history.len());
    }
    for seat in seats {
        for (turn, receipt) in seat.receipts().iter().enumerate() {
            let entry = Entry {
                seat: seat.number,
                turn,
                call: receipt.call,
                reply: receipt.reply,
            };
            if entry_at(histories, receipt.shard, receipt.place) != Some(entry) {
                return false;
            }
            left = left.wrapping_sub(1);
        }
    }
    left == 0
}

/// Whether all histories are legal, with the shards at their ends, and the receipts are their entries, each once.
pub fn is_right<B: Registry, const N: usize>(
    alloc: Global,
    recorded: &Recorded<u64, B, N>,
) -> Result<bool, AllocError> {
    for (shard, (history, unit)) in recorded
        .histories
        .iter()
        .zip(recorded.units.iter())
        .enumerate()
    {
        if !is_legal::<N>(alloc, shard, history.as_slice(), unit)? {
            return Ok(false);
        }
    }
    Ok(is_tied(recorded.histories.as_slice(), recorded.seats.as_slice()))
}

/// Ends a run, where these are all seats, in order.
pub fn finished<B: Registry, const N: usize>(
    lru: RecordedLru<u64, B, N>,
    seats: Vec<Seat<B>>,
    count: usize,
) -> Option<Recorded<u64, B, N>>
    requires { B.seats ≡ count }
{
    if seats.len() != count {
        return None;
    }
    for (number, seat) in seats.iter().enumerate() {
        if seat.number != number {
            return None;
        }
    }
    Some(lru.finish(seats))
}
