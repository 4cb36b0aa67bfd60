//! The shard of an actor by its worked rows, with its map and its queue.
use lru_actors::effect::{Effect, Reply};
use lru_actors::key::hash_key;
use lru_actors::message::LruMsg;
use lru_actors::process::{choose_victim, process_batch, process_msg};
use lru_actors::state::ShardState;
use lru_mailbox::{LedgerState, MailState, PutShare, Putter};
use std::alloc::{AllocError, Global};
use std::collections::HashMap;
use std::hash::{Hash, Hasher};
use std::test::Fail;

fn admit<K>(hash: u64, key: K, weight: usize) -> LruMsg<K> {
    LruMsg::Admit { hash, key, weight }
}

// What a message came to: whose row left, how many rows are left, whether it was refused, and whether the limits are to be
// looked at.
type Told = (Option<u64>, usize, bool, bool);

fn told<K>(effect: &Effect<K>) -> Told {
    (
        effect.cleared,
        effect.len_after,
        effect.refused,
        effect.look,
    )
}

// An actor's shard, with its map and its queue.
#[derive(Drop)]
struct Actor<K: Drop> {
    state: ShardState<K>,
    map: HashMap<u64, usize>,
    evicted: MailState<(K, usize)>,
}

impl<K: Clone + Drop> Actor<K> {
    fn new(alloc: Global, cap: usize) -> Result<Self, AllocError> {
        Ok(Actor {
            state: ShardState::with_capacity(alloc, 0, cap)?,
            map: HashMap::new(alloc),
            evicted: MailState::new(alloc),
        })
    }

    fn serve(&mut self, message: LruMsg<K>) -> Told {
        told(&process_msg(&mut self.state, &mut self.map, &mut self.evicted, message))
    }
}

// The only row of a shard.
fn only_row<K: Clone + Drop>(state: &ShardState<K>) -> Option<(u64, &K, usize)> {
    let mut rows = state.iter();
    let first = rows.next();
    if rows.next().is_some() { None } else { first }
}

// Admits two keys of one hash, and answers whether one row has the first key and the second weight.
fn keeps_the_first_key(actor: &mut Actor<&'static str>) -> bool {
    actor.serve(admit(7, "a", 2));
    actor.serve(admit(7, "b", 5));
    match only_row(&actor.state) {
        Some((hash, key, weight)) => (hash == 7) & (*key == "a") & (weight == 5),
        None => false,
    }
}

// Whether the row leaves, once, with that key and that weight.
fn leaves_once(actor: &mut Actor<&'static str>) -> bool {
    let left = actor.serve(LruMsg::Evict);
    let none = actor.serve(LruMsg::Evict);
    let are_told = ((left.0, left.1, left.2), (none.0, none.2))
        == ((Some(7), 0, false), (None, false));
    let is_queued = actor.evicted.pop() == Some(("a", 5));
    are_told & is_queued & actor.evicted.pop().is_none() & actor.map.is_empty()
}

// A row keeps its first key and takes the second weight; it is evicted once.
fn one_row_is_evicted(alloc: Global) -> Result<bool, AllocError> {
    let mut actor = Actor::new(alloc, 100)?;
    let is_kept = keeps_the_first_key(&mut actor);
    Ok(is_kept & leaves_once(&mut actor))
}

#[test]
fn evicts_the_one_row(rt: HostRuntime) -> Result<(), Fail> {
    assert!(rt; one_row_is_evicted(rt.alloc())?);
    Ok(())
}

fn heavy_is_refused(alloc: Global) -> Result<bool, AllocError> {
    let mut actor = Actor::new(alloc, 10)?;
    let (_, _, first, _) = actor.serve(admit(7, 1u8, 6));
    let (_, _, second, look) = actor.serve(admit(8, 2, 5));
    let state = (
        actor.state.refused(),
        actor.state.len(),
        actor.state.used_weight(),
    );
    let map = (actor.map.len(), actor.map.get(&7).copied());
    Ok(((first, second, look), state, map) == ((false, true, true), (1, 1, 6), (1, Some(6))))
}

fn heavy_is_refused_alone(alloc: Global) -> Result<bool, AllocError> {
    let mut alone = ShardState::with_capacity(alloc, 0, 10)?;
    alone.step(admit(7, 1u8, 6));
    Ok(alone.step(admit(8, 2, 5)).refused)
}

#[test]
fn refuses_what_is_too_heavy(rt: HostRuntime) -> Result<(), Fail> {
    assert!(rt; heavy_is_refused(rt.alloc())? & heavy_is_refused_alone(rt.alloc())?);
    Ok(())
}

fn batch(alloc: Global) -> Result<Vec<LruMsg<u8>>, AllocError> {
    let mut batch = Vec::with_capacity(alloc, 4)?;
    batch.push(admit(7, 1, 0))?;
    batch.push(LruMsg::InsertTail {
        hash: 8,
        key: 2,
        weight: 0,
    })?;
    batch.push(LruMsg::Promote { hash: 8 })?;
    batch.push(LruMsg::Evict)?;
    Ok(batch)
}

fn are_in_order(effects: &[Effect<u8>]) -> bool {
    match effects {
        [first, second, _, last] => (first.put, second.put, last.cleared)
            == (Some((7, 1)), Some((8, 0)), Some(7)),
        _ => false,
    }
}

// Whether a batch that is served into a box is emptied, and comes to what it should.
fn serves_into(
    alloc: Global,
    ledger: &mut LedgerState<u8>,
    share: &mut PutShare,
) -> Result<bool, AllocError> {
    let mut state = ShardState::with_capacity(alloc, 0, 100)?;
    let mut map = HashMap::new(alloc);
    let mut dispatch = Putter { ledger, share };
    let mut batch = batch(alloc)?;
    let mut effects = Vec::with_capacity(alloc, 4)?;
    if batch.len() > 4 {
        return Ok(false);
    }
    process_batch(
        &mut state,
        &mut map,
        &mut dispatch,
        &mut batch,
        &mut effects,
    );
    Ok(batch.is_empty() & are_in_order(&effects))
}

// A batch into a box with slips: the hash of the row that was evicted stands on the slip.
fn a_batch_is_served(alloc: Global) -> Result<bool, AllocError> {
    let (mut ledger, mut puts, _takes) = LedgerState::new(alloc, 1, 0)?;
    let Some(mut share) = puts.pop() else {
        return Ok(false);
    };
    let is_served = serves_into(alloc, &mut ledger, &mut share)?;
    let is_on_slip = match share.slips() {
        [slip] => (slip.hash, slip.weight) == (7, 1),
        _ => false,
    };
    Ok(is_served & is_on_slip)
}

#[test]
fn serves_a_batch_in_order(rt: HostRuntime) -> Result<(), Fail> {
    let victims = (choose_victim(3, 5, 2, 2), choose_victim(3, 5, 1, 2));
    assert!(rt; a_batch_is_served(rt.alloc())? & (victims == (3, 5)));
    Ok(())
}

// Whether a snapshot of three rows has them all.
fn is_shown_whole(alloc: Global) -> Result<bool, AllocError> {
    let mut state = ShardState::with_capacity(alloc, 0, 100)?;
    for (key, weight) in [(1u8, 2), (2, 3), (3, 5)] {
        state.step(admit(u64::from(key), key, weight));
    }
    match state.step(LruMsg::Snapshot).reply {
        Some(Reply::Rows(rows)) => Ok(rows.as_slice() == [(3, 5), (2, 3), (1, 2)].as_slice()),
        _ => Ok(false),
    }
}

#[test]
fn a_snapshot_has_all_rows(rt: HostRuntime) -> Result<(), Fail> {
    assert!(rt; is_shown_whole(rt.alloc())?);
    Ok(())
}

/// A key whose hash is that of every other.
#[derive(Clone, Copy, Debug, PartialEq, Eq)]
struct Alike {
    name: u8,
}

impl Hash for Alike {
    ghost use Rattle.std.specs.Hash as fed;
    ghost use Rattle.std.proofs.Common.{refl};

    ghost hash_input = { λ _. fed.u8 0 };

    ghost respects_eq = { λ x y e. refl };

    fn hash<H: Hasher>(&self, state: &mut H) {
        state.write_u8(0);
    }
}

// One row is left, with the first key and the second weight.
fn are_one_row(alloc: Global) -> Result<bool, AllocError> {
    let mut state = ShardState::with_capacity(alloc, 0, 100)?;
    for (name, weight) in [(1, 2), (2, 5)] {
        let key = Alike { name };
        state.step(admit(hash_key(&key), key, weight));
    }
    let other = hash_key(&Alike { name: 9 });
    match only_row(&state) {
        Some((hash, key, weight)) => Ok((hash, key.name, weight) == (other, 1, 5)),
        None => Ok(false),
    }
}

#[test]
fn takes_keys_of_one_hash_for_one_row(rt: HostRuntime) -> Result<(), Fail> {
    assert!(rt; are_one_row(rt.alloc())?);
    Ok(())
}

// How many of a hundred thousand rows an actor's shard and its map have, and how many it refused.
fn counts_of_many(alloc: Global) -> Result<(usize, usize, u64), AllocError> {
    let mut actor = Actor::new(alloc, usize::MAX)?;
    for hash in 0..100_000u64 {
        actor.serve(admit(hash, hash, 1));
    }
    Ok((actor.state.len(), actor.map.len(), actor.state.refused()))
}

#[test]
fn a_shard_takes_many_rows(rt: HostRuntime) -> Result<(), Fail> {
    assert_eq!(rt; counts_of_many(rt.alloc())?, (100_000, 100_000, 0));
    Ok(())
}
