//! The loops of eviction workers and callback workers.
ghost use Rattle.std.specs.Prelude.{◌≡◌, ◌<◌, vec_len};
ghost use Rattle.lru_shard.specs.Victims.{longer_of};
ghost use Rattle.lru_workers.specs.Outlets.{number_at};

use crate::callback::AsyncEvictionCallback;
use crate::outlet::TakenPair;
use crate::world::World;
use lru_actors::process::choose_victim;
use lru_boxes::{BoxRegistry, TakeSeat};
use lru_inbox::tie::Archive;
use rand::RngExt;
use rand_core::Rng;
use std::sync::Wait;
use std::sync::atomic::Ordering;
use std::thread;

/// What an eviction worker does: it waits for the trigger, and then asks for evictions while a limit is passed. It ends
/// once the trigger is stopped.
pub fn evict<K: Clone + Drop, G: Rng + Drop, R: Wait, B: BoxRegistry + Archive>(
    rt: &R,
    world: &World<K, B>,
    mut rng: G,
)
    requires { 0 < vec_len world.now.shards }
{
    let mut seen = 0;
    for _ in rt.forever() {
        world.rests(rt, seen);
        let Some(count) = world.trigger.wait(rt, seen) else {
            break;
        };
        seen = count;
        evict_while_over(rt, world, &mut rng);
    }
}

// Asks for evictions while a limit is passed and no stop is raised, but for none that those under way may make needless.
fn evict_while_over<K: Clone + Drop, G: Rng, R: Wait, B: BoxRegistry + Archive>(
    rt: &R,
    world: &World<K, B>,
    rng: &mut G,
)
    requires { 0 < vec_len world.now.shards }
{
    for _ in rt.forever() {
        if world.is_stopped() || !world.over_limit() {
            break;
        }
        if world.may_ask() {
            ask_one(rt, world, rng);
        }
        thread::yield_now();
    }
}

// Asks the longer one of two drawn shards for an eviction, with leave to ask for one. It may refuse; then the leave is given
// back, and the next look asks again.
fn ask_one<K: Clone + Drop, G: Rng, R: Wait, B: BoxRegistry + Archive>(
    rt: &R,
    world: &World<K, B>,
    rng: &mut G,
)
    requires { 0 < vec_len world.now.shards }
{
    let count = world.shards.len();
    let (a, b) = if count == 1 {
        (0, 0)
    } else {
        let a = rng.random_range(0..count);
        let b = rng.random_range(0..count);
        (a, b)
    };
    let victim = longer(look_at(world, a), look_at(world, b));
    let asked = world.shards[victim].mailbox.push_evict(rt);
    if asked.is_err() {
        world.evictions_done(1);
    }
}

// A shard that was drawn, and how many rows it is told to have.
#[derive(Clone, Copy)]
struct Drawn {
    shard: usize,
    len: usize,
}

// Looks at a shard.
fn look_at<K: Clone + Drop, B: BoxRegistry + Archive>(world: &World<K, B>, shard: usize) -> Drawn
    requires { shard < vec_len world.now.shards }
    ensures { result.shard ≡ shard }
{
    Drawn {
        shard,
        len: world.shards[shard].len.load(Ordering::SeqCst),
    }
}

// The longer one of two shards, the first where they are as long.
fn longer(a: Drawn, b: Drawn) -> usize
    ensures { result ≡ longer_of a.shard b.shard a.len b.len }
{
    choose_victim(a.shard, b.shard, a.len, b.len)
}

/// What a callback worker does: it takes pairs one at a time and calls the callback with each, until all is closed and
/// empty. It gives its seat back.
pub fn call_back<K: Clone + Drop, C: AsyncEvictionCallback<K>, R: Wait, B: BoxRegistry + Archive>(
    rt: &R,
    world: &World<K, B>,
    callback: &C,
    seat: Option<TakeSeat<B>>,
) -> Option<TakeSeat<B>>
    requires { C.ready callback.now }
    ensures { number_at result ≡ number_at seat }
{
    let mut seat = seat;
    for _ in rt.forever() {
        match world.outlet.take(rt, &mut seat) {
            TakenPair::Pair(key, weight) => callback.call(key, weight),
            TakenPair::Nothing => break,
            TakenPair::NoMemory => thread::yield_now(),
        }
    }
    seat
}
