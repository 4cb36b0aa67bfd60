//! Messages processed with the map of weights and the queue of evicted pairs.
ghost use Rattle.std.specs.Prelude.{◌≡◌, ℕ, ◌<◌, Some, None, IsTrue, IsFalse, IsSome, nat_eq, ◌≤◌, [], vec_len, vec_capacity};
ghost use Rattle.std.specs.HashMap as hash;
ghost use Rattle.lru_shard.specs.Victims.{longer_of};
ghost use Rattle.lru_actors.specs.Messages.{looks};
ghost use Rattle.lru_actors.specs.Processing.{mapped, queued, MapHasRoom, HasPlace, MayWantRoom, IsKept, HandsOver, Processes, ProcessesAll};

use crate::effect::Effect;
use crate::message::LruMsg;
use crate::state::ShardState;
use lru_mailbox::Dispatch;
use lru_shard::eviction::longer_of;
use std::collections::HashMap;

/// Processes one message: makes the room that it may need in the map of weights and in the queue of evicted
/// pairs, lets the shard serve it, and brings the map after it. An evicted pair goes into the queue. A message
/// that finds no memory, or that the shard refuses, changes the count of refused messages alone.
pub fn process_msg<K: Clone + Drop, D: Dispatch<K>>(
    state: &mut ShardState<K>,
    map: &mut HashMap<u64, usize>,
    dispatch: &mut D,
    msg: LruMsg<K>,
) -> Effect<K>
    ensures { Processes D.Puts D.IsSame D.queue K.is_clone D.MayRefuse state.old (hash.get nat_eq map.old) dispatch.old msg result state.new (hash.get nat_eq map.new) dispatch.new }
{
    if !make_room(state, map, dispatch, &msg) {
        return state.refuse(is_looking(&msg));
    }
    let mut effect = state.step(msg);
    follow(map, effect.put, effect.cleared);
    let evicted = effect.evicted.take();
    hand_over(dispatch, effect.cleared, evicted);
    effect
}

/// Processes the messages of a batch in order, and empties it: effect number i is that of message number i,
/// on what the messages before it left. It takes no memory of its own.
pub fn process_batch<K: Clone + Drop, D: Dispatch<K>>(
    state: &mut ShardState<K>,
    map: &mut HashMap<u64, usize>,
    dispatch: &mut D,
    batch: &mut Vec<LruMsg<K>>,
    effects: &mut Vec<Effect<K>>,
)
    requires few { vec_len batch.old ≤ 64 }
    requires none { effects.old.items ≡ [] }
    requires room { vec_len batch.old ≤ vec_capacity effects.old }
    ensures emptied { batch.new.items ≡ [] }
    ensures processed { ProcessesAll D.Puts D.IsSame D.queue K.is_clone D.MayRefuse state.old (hash.get nat_eq map.old) dispatch.old batch.old.items effects.new.items state.new (hash.get nat_eq map.new) dispatch.new }
{
    // The last one is at hand, so the first is made the last.
    batch.reverse();
    while let Some(msg) = batch.pop() {
        effects.push_reserved(process_msg(state, map, dispatch, msg));
    }
}

// Whether the limits are looked at after a message.
fn is_looking<K>(msg: &LruMsg<K>) -> bool
    ensures { result ≡ looks msg.now }
{
    matches!(msg, LruMsg::Admit { .. } | LruMsg::IncrementWeight { .. })
}

// Makes the room that a message may need.
fn make_room<K: Clone + Drop, D: Dispatch<K>>(
    state: &ShardState<K>,
    map: &mut HashMap<u64, usize>,
    dispatch: &mut D,
    msg: &LruMsg<K>,
) -> bool
    ensures map { (k : ℕ) → hash.get nat_eq map.new k ≡ hash.get nat_eq map.old k }
    ensures kept { IsKept D.Puts D.IsSame D.queue dispatch.old dispatch.new }
    ensures queue { D.queue dispatch.new ≡ D.queue dispatch.old }
    ensures map_room { IsTrue result → MapHasRoom (hash.get nat_eq map.new) (hash.spare map.new) msg.now }
    ensures place { IsTrue result → HasPlace (D.HasRoom dispatch.new) state.now.shard.rows msg.now }
    ensures wanted { IsFalse result → MayWantRoom (D.MayRefuse dispatch.old) (hash.get nat_eq map.old) state.now.shard.rows msg.now }
{
    match msg {
        LruMsg::Admit { hash, .. }
        | LruMsg::IncrementWeight { hash, .. }
        | LruMsg::InsertTail { hash, .. } => has_room(map, *hash),
        LruMsg::Evict => state.len() == 0 || dispatch.reserve_one().is_ok(),
        _ => true,
    }
}

// Makes room for a hash that the map has not.
fn has_room(map: &mut HashMap<u64, usize>, key: u64) -> bool
    ensures map { (k : ℕ) → hash.get nat_eq map.new k ≡ hash.get nat_eq map.old k }
    ensures room { IsTrue result → hash.get nat_eq map.new key ≡ None → 0 < hash.spare map.new }
    ensures wanted { IsFalse result → hash.get nat_eq map.old key ≡ None }
{
    map.len() < map.capacity() || map.contains_key(&key) || map.reserve(1).is_ok()
}

// Sets a weight, and takes a hash out.
fn follow(map: &mut HashMap<u64, usize>, put: Option<(u64, usize)>, cleared: Option<u64>)
    requires { (p : ℕ × ℕ) → put ≡ Some p → hash.get nat_eq map.old p.0 ≡ None → 0 < hash.spare map.old }
    ensures { (k : ℕ) → hash.get nat_eq map.new k ≡ mapped put cleared (hash.get nat_eq map.old) k }
{
    if let Some((hash, weight)) = put {
        set(map, hash, weight);
    }
    if let Some(hash) = cleared {
        map.remove(&hash);
    }
}

// Sets the weight of a hash.
fn set(map: &mut HashMap<u64, usize>, key: u64, weight: usize)
    requires { hash.get nat_eq map.old key ≡ None → 0 < hash.spare map.old }
    ensures { (k : ℕ) → hash.get nat_eq map.new k ≡ mapped (Some (key, weight)) None (hash.get nat_eq map.old) k }
{
    match map.insert(key, weight) {
        Ok(_) => {}
        Err(_) => unreachable!(),
    }
}

// Puts an evicted pair into the queue.
fn hand_over<K, D: Dispatch<K>>(dispatch: &mut D, cleared: Option<u64>, evicted: Option<(K, usize)>)
    requires room { IsSome evicted → D.HasRoom dispatch.old }
    requires known { IsSome evicted → IsSome cleared }
    ensures handed { HandsOver D.Puts D.IsSame D.queue cleared evicted dispatch.old dispatch.new }
    ensures queue { D.queue dispatch.new ≡ queued evicted (D.queue dispatch.old) }
{
    let Some((key, weight)) = evicted else {
        return;
    };
    match cleared {
        Some(hash) => dispatch.put(hash, key, weight),
        None => unreachable!(),
    }
}

/// Which of two shards gives up a row: the first, unless it is the shorter one.
pub fn choose_victim(a: usize, b: usize, len_a: usize, len_b: usize) -> usize
    ensures { result ≡ longer_of a b len_a len_b }
{
    longer_of(a, b, len_a, len_b)
}
