//! Messages through an actor's shard, in batches of 1 and of 64, beside the calls of a shard of one owner; and pairs through
//! a box.
ghost use Rattle.std.specs.Prelude.{◌≡◌, ◌<◌};

use crate::trace;
use crate::watch::Watch;
use pingora_lru::unit::LruUnit;
use pingora_lru_async::async_lru::{Effect, LruMsg, ShardState, process_batch};
use pingora_lru_async::mailbox::{Blanks, BoxRegistry, LedgerBox, MailState};
use std::alloc::{AllocError, Global};
use std::collections::HashMap;
use std::io;
use std::marker::Brand;
use std::rt::Clock;
use std::sync::Wait;
use std::time::Instant;

const CALLS: usize = 1_000_000;

const MOST: usize = 64;

// An actor's shard with all that its messages change, and the room for a batch.
#[derive(Drop)]
struct Actor {
    state: ShardState<u64>,
    map: HashMap<u64, usize>,
    queue: MailState<(u64, usize)>,
    batch: Vec<LruMsg<u64>>,
    effects: Vec<Effect<u64>>,
}

impl Actor {
    fn new(alloc: Global, rows: usize) -> Result<Self, AllocError> {
        Ok(Actor {
            state: ShardState::with_capacity(alloc, rows, usize::MAX)?,
            map: HashMap::with_capacity(alloc, rows)?,
            queue: MailState::new(alloc),
            batch: Vec::with_capacity(alloc, MOST)?,
            effects: Vec::with_capacity(alloc, MOST)?,
        })
    }

    // Processes the batch, and answers how many of its messages were not refused.
    fn flush(&mut self) -> usize {
        self.effects.clear();
        if self.batch.len() > MOST || self.effects.capacity() < self.batch.len() {
            return 0;
        }
        process_batch(
            &mut self.state,
            &mut self.map,
            &mut self.queue,
            &mut self.batch,
            &mut self.effects,
        );
        self.effects.iter().filter(|effect| !effect.refused).count()
    }
}

// Admits each key, or promotes it, by messages in batches of this size.
fn send(actor: &mut Actor, keys: &[u64], size: usize, is_new: bool) -> Result<usize, AllocError> {
    let mut done = 0usize;
    for key in keys {
        let message = if is_new {
            LruMsg::Admit {
                hash: *key,
                key: *key,
                weight: 1,
            }
        } else {
            LruMsg::Promote { hash: *key }
        };
        actor.batch.push(message)?;
        if actor.batch.len() >= size {
            done = done.wrapping_add(actor.flush());
        }
    }
    Ok(done.wrapping_add(actor.flush()))
}

// Admits the keys of all and promotes by the trace, by a shard's own calls.
fn measure_unit<R: Print + Clock>(
    rt: &R,
    alloc: Global,
    watch: Watch,
    all: &[u64],
    trace: &[u64],
) -> io::Result<()> {
    let mut unit = LruUnit::with_capacity(alloc, all.len(), usize::MAX)?;
    let start = Instant::now(rt)?;
    let done = all
        .iter()
        .filter(|key| unit.admit(**key, **key, 1).is_ok())
        .count();
    watch.tell(rt, "a shard's own calls, admit", done, all.len(), start)?;
    let start = Instant::now(rt)?;
    let done = trace.iter().filter(|key| unit.access(**key)).count();
    watch.tell(rt, "a shard's own calls, promote", done, trace.len(), start)
}

// Sends messages with these keys, and tells how many were not refused.
fn time<R: Print + Clock>(
    rt: &R,
    alloc: Global,
    watch: Watch,
    actor: &mut Actor,
    (keys, name): (&[u64], &str),
    size: usize,
) -> io::Result<()> {
    let start = Instant::now(rt)?;
    let done = send(actor, keys, size, name == "admit")?;
    let what = format!(in alloc; "messages in batches of {size}, {name}")?;
    watch.tell(rt, what.as_str(), done, keys.len(), start)
}

// Puts a million pairs into a box, and takes each out again.
fn measure_box<B: BoxRegistry, R: Print + Clock + Wait>(
    rt: &R,
    alloc: Global,
    watch: Watch,
    blanks: Blanks,
) -> io::Result<()>
    requires tables { (blanks.puts.tie.table.shared.table_id ≡ B.puts) × (blanks.takes.tie.table.shared.table_id ≡ B.takes) }
    requires counts { (B.putters ≡ blanks.putters) × (B.takers ≡ blanks.takers) }
{
    let (ledger, mut puts, mut takes) = LedgerBox::<u64, B>::new(alloc, blanks)?;
    let (Some(putter), Some(taker)) = (puts.first_mut(), takes.first_mut()) else {
        return Ok(());
    };
    let start = Instant::now(rt)?;
    let mut done = 0usize;
    for key in 0..CALLS as u64 {
        let put = ledger.put(rt, putter, key, key, 1).is_ok();
        if put && matches!(ledger.take(rt, taker), Ok(Some(_))) {
            done = done.wrapping_add(1);
        }
    }
    watch.tell(rt, "a box, put and take", done, CALLS, start)
}

/// Admits so many rows and promotes a million times, by a shard's own calls and by messages; and puts a million pairs into a
/// box.
pub fn measure<R: Print + Clock + Wait>(
    rt: &R,
    alloc: Global,
    watch: Watch,
    rows: u32,
) -> io::Result<()>
    requires { 0 < rows }
{
    let trace = trace::uniform_keys(alloc, 7, rows, CALLS)?;
    let mut all = Vec::with_capacity(alloc, rows as usize)?;
    for key in 0..rows as u64 {
        all.push(key)?;
    }
    measure_unit(rt, alloc, watch, &all, &trace)?;
    for size in [1, MOST] {
        let mut actor = Actor::new(alloc, rows as usize)?;
        time(rt, alloc, watch, &mut actor, (&all, "admit"), size)?;
        time(rt, alloc, watch, &mut actor, (&trace, "promote"), size)?;
    }
    let blanks = Blanks::new(alloc, 1, 1)?;
    measure_box::<Brand, R>(rt, alloc, watch, blanks)
}
