//! The threads of an order served by actors. Each lets go of all that it shares and then, as its last step, fills a cell,
//! for which closing waits: the handle of a thread may not be shared among threads, and so an order that threads share has
//! none.
ghost use Rattle.std.specs.Prelude.{◌≡◌, ◌<◌, vec_len};
ghost use Rattle.std.specs.Arc.{arc_value};

use crate::refusals::BuildError;
use lru_actors::ReplyCell;
use lru_boxes::{BoxRegistry, PutSeat, TakeSeat};
use lru_inbox::tie::Archive;
use lru_workers::actor::Actor;
use lru_workers::callback::{AsyncEvictionCallback, Gate};
use lru_workers::workers::{call_back, evict};
use lru_workers::world::World;
use rand::rngs::StdRng;
use rand_core::SeedableRng;
use std::alloc::Global;
use std::sync::{Arc, Wait};
use std::thread;
use std::thread::Threads;

// An actor with the world that it works in, whose cap is that of one of the world's shards.
#[derive(Drop)]
pub(crate) struct Placed<K: Clone + Drop, B: BoxRegistry + Archive> {
    pub(crate) actor: Actor<K, B>,
    pub(crate) world: Arc<World<K, B>, Global>,
    ghost one_of_all: { actor.shards ≡ vec_len (arc_value world).shards },
}

impl<K: Clone + Drop, B: BoxRegistry + Archive> Placed<K, B> {
    // What the actor does, to its end. The world is let go then, and its seat given back.
    fn run<G: Gate, R: Wait>(self, rt: &R, gate: &Option<Arc<G, Global>>) -> Option<PutSeat<B>> {
        let Placed { actor, world } = self;
        actor.run(rt, &*world, gate)
    }
}

pub(crate) fn start_actor<
    K: Clone + Drop + Send + Sync + 'static,
    B: BoxRegistry + Archive + Send + Sync + 'static,
    G: Gate + Drop + 'static,
    R: Threads + Wait + Copy + Send + 'static,
>(
    rt: R,
    placed: Placed<K, B>,
    gate: Option<Arc<G, Global>>,
    ended: Arc<ReplyCell<Option<PutSeat<B>>>, Global>,
) -> Result<(), BuildError> {
    let job = move || {
        let seat = placed.run(&rt, &gate);
        drop(gate);
        ended.give(&rt, seat);
    };
    match thread::spawn(&rt, job) {
        Ok(_handle) => Ok(()),
        Err(_) => Err(BuildError::Thread),
    }
}

pub(crate) fn start_eviction_worker<
    K: Clone + Drop + Send + Sync + 'static,
    R: Threads + Wait + Copy + Send + 'static,
    B: BoxRegistry + Archive + Send + Sync + 'static,
>(
    rt: R,
    world: Arc<World<K, B>, Global>,
    seed: u64,
    ended: Arc<ReplyCell<()>, Global>,
) -> Result<(), BuildError>
    requires { 0 < vec_len (arc_value world).shards }
{
    let job = move ||
        requires { 0 < vec_len (arc_value world).shards }
    {
        evict(&rt, &*world, StdRng::seed_from_u64(seed));
        drop(world);
        ended.give(&rt, ());
    };
    match thread::spawn(&rt, job) {
        Ok(_handle) => Ok(()),
        Err(_) => Err(BuildError::Thread),
    }
}

pub(crate) fn start_callback_worker<
    K: Clone + Drop + Send + Sync + 'static,
    C: AsyncEvictionCallback<K> + Drop + 'static,
    R: Threads + Wait + Copy + Send + 'static,
    B: BoxRegistry + Archive + Send + Sync + 'static,
>(
    rt: R,
    world: Arc<World<K, B>, Global>,
    callback: Arc<C, Global>,
    seat: Option<TakeSeat<B>>,
    ended: Arc<ReplyCell<Option<TakeSeat<B>>>, Global>,
) -> Result<(), BuildError>
    requires { C.ready (arc_value callback) }
{
    let job = move ||
        requires { C.ready (arc_value callback) }
    {
        let seat = call_back(&rt, &*world, &*callback, seat);
        drop(world);
        drop(callback);
        ended.give(&rt, seat);
    };
    match thread::spawn(&rt, job) {
        Ok(_handle) => Ok(()),
        Err(_) => Err(BuildError::Thread),
    }
}
