//! Messages of one shard under a cap of 10, with its map of weights and its queue of evicted pairs.
use lru_actors::effect::{Effect, Reply};
use lru_actors::message::LruMsg;
use lru_actors::process::process_msg;
use lru_actors::state::ShardState;
use lru_mailbox::MailState;
use std::alloc::Global;
use std::collections::HashMap;
use std::io;
use std::io::Write;

const STEPS: usize = 9;

fn message(step: usize) -> LruMsg<u8> {
    match step {
        0 => LruMsg::Admit {
            hash: 7,
            key: 1,
            weight: 6,
        },
        // too heavy
        1 => LruMsg::Admit {
            hash: 8,
            key: 2,
            weight: 5,
        },
        2 => LruMsg::InsertTail {
            hash: 9,
            key: 3,
            weight: 0,
        },
        3 => LruMsg::IncrementWeight {
            hash: 10,
            key: 4,
            delta: 2,
            max_weight: None,
        },
        4 => LruMsg::Snapshot,
        5 => LruMsg::Evict,
        6 => LruMsg::PeekLru,
        7 => LruMsg::Remove { hash: 10 },
        _ => LruMsg::Evict,
    }
}

// The first four rows, what the map has for four hashes, and of the queue how many pairs wait, were put, taken and lost.
type Shown = ([(u64, u8, usize); 4], [Option<usize>; 4], [u64; 4]);

fn shown(
    state: &ShardState<u8>,
    map: &HashMap<u64, usize>,
    queue: &MailState<(u8, usize)>,
) -> Shown {
    let mut rows = [(0, 0, 0); 4];
    for (slot, (hash, key, weight)) in rows.iter_mut().zip(state.iter()) {
        *slot = (hash, *key, weight);
    }
    let weights = [
        map.get(&7).copied(),
        map.get(&8).copied(),
        map.get(&9).copied(),
        map.get(&10).copied(),
    ];
    let counts = [
        queue.len() as u64,
        queue.pushed(),
        queue.taken(),
        queue.lost(),
    ];
    (rows, weights, counts)
}

// Whether memory may have been wanting.
fn was_refused(effect: &Effect<u8>) -> bool {
    effect.refused || matches!(effect.reply, Some(Reply::Memory))
}

// Processes a message, and once more where it was refused and nothing but the count of refused messages changed.
fn process(
    state: &mut ShardState<u8>,
    map: &mut HashMap<u64, usize>,
    queue: &mut MailState<(u8, usize)>,
    step: usize,
) -> Effect<u8> {
    let before = shown(state, map, queue);
    let count = state.refused();
    let effect = process_msg(state, map, queue, message(step));
    let counted = if effect.refused { 1 } else { 0 };
    if was_refused(&effect)
        && state.refused() == count.wrapping_add(counted)
        && before == shown(state, map, queue)
    {
        return process_msg(state, map, queue, message(step));
    }
    effect
}

pub fn script<W: Write>(alloc: Global, out: &mut W) -> io::Result<()> {
    let mut state = match ShardState::with_capacity(alloc, 0, 10) {
        Ok(state) => state,
        Err(_) => ShardState::with_capacity(alloc, 0, 10)?,
    };
    let mut map = HashMap::new(alloc);
    let mut queue = MailState::new(alloc);
    for step in 0..STEPS {
        let effect = process(&mut state, &mut map, &mut queue, step);
        let (refused, reply) = (effect.refused, effect.reply);
        writeln!(out, "message {step} refused {refused} reply {reply:?}")?;
        let all = shown(&state, &map, &queue);
        writeln!(out, "left {all:?}")?;
    }
    for _ in 0..STEPS {
        let Some((key, weight)) = queue.pop() else {
            break;
        };
        writeln!(out, "evicted {key} {weight}")?;
    }
    Ok(())
}
