//! How the threads of an order are started.
ghost use Rattle.std.specs.Prelude.{◌≡◌, ◌+◌, ◌%◌, ◌^◌, ◌<◌, [], All, vec_len, IfOk, OnOk, IsSome, is_some};
ghost use Rattle.std.specs.Option.{ForSome};
ghost use Rattle.lru_inbox.specs.Logs.{hand, blank_logs, blank_fronts};
ghost use Rattle.lru_inbox.specs.Inboxes.{taken_in};
ghost use Rattle.lru_workers.specs.Replying.{AreTakers, HasNothing};
ghost use Rattle.std.specs.Arc.{arc_value};
ghost use Rattle.lru_async.specs.Orders.{limits_of, limits_told, HasWorkers};

use crate::async_lru::AsyncLru;
use crate::builder::{AsyncLruBuilder, BuilderSettings};
use crate::cells::cell_and_clone;
use crate::receiver::EvictionReceiver;
use crate::refusals::BuildError;
use crate::threads::{Placed, start_actor, start_callback_worker, start_eviction_worker};
use lru_actors::message::LruMsg;
use lru_boxes::{BoxRegistry, PutSeat, TakeSeat};
use lru_inbox::Taker;
use lru_inbox::tie::Archive;
use lru_inbox::voice::Voice;
use lru_workers::actor::Actor;
use lru_workers::callback::{AsyncEvictionCallback, Gate};
use lru_workers::outlet::Outlet;
use lru_workers::world::{OrderLimits, World, next_taker};
use std::alloc::{AllocError, Global};
use std::hash::Hash;
use std::sync::{Arc, Wait};
use std::thread::Threads;

// The seed of an eviction worker, by its number.
fn seed_of(seed: u64, number: usize) -> u64
    ensures { result ≡ (seed + number) % 2 ^ 64 }
{
    seed.wrapping_add(number as u64)
}

// The limits that a builder was told.
fn limits_told(settings: &BuilderSettings) -> OrderLimits
    ensures { result ≡ limits_told settings.now }
{
    OrderLimits {
        weight_limit: settings.weight_limit,
        len_watermark: settings.len_watermark,
    }
}

// The seats of those who put, for the rows of the shards, and for their actors: where there are logs the rows have them.
fn seats_apart<B: BoxRegistry>(
    alloc: Global,
    logged: bool,
    seats: Vec<PutSeat<B>>,
) -> (Vec<PutSeat<B>>, Vec<PutSeat<B>>)
    requires { All (λ s. s.share.slips ≡ []) seats.items }
    ensures { All (λ s. s.share.slips ≡ []) result.0.items }
{
    if logged {
        return (seats, Vec::new(alloc));
    }
    (Vec::new(alloc), seats)
}

// The actor of one of N shards.
fn actor_of_one<K: Clone + Drop, const N: usize, B: BoxRegistry + Archive>(
    alloc: Global,
    taker: Taker<K, B>,
    capacity: usize,
    seat: Option<PutSeat<B>>,
) -> Result<Actor<K, B>, AllocError>
    requires { 0 < N }
    ensures { IfOk result (λ actor. actor.shards ≡ N) }
{
    Actor::new(alloc, taker, N, capacity, seat)
}

// An order of empty shards round their world, with room for as many threads as were told, none of which is started.
fn order_of_none<K: Clone + Drop, const N: usize, B: BoxRegistry + Archive>(
    alloc: Global,
    settings: &BuilderSettings,
    world: Arc<World<K, B>, Global>,
) -> Result<AsyncLru<K, N, B>, AllocError>
    requires some { 0 < N }
    requires count { vec_len (arc_value world).shards ≡ N }
    ensures world { IfOk result (λ lru. lru.world ≡ world) }
    ensures evicting { IfOk result (λ lru. vec_len lru.eviction_workers ≡ 0) }
    ensures calling { IfOk result (λ lru. vec_len lru.callback_workers ≡ 0) }
{
    Ok(AsyncLru {
        world,
        alloc,
        actors: Vec::with_capacity(alloc, N)?,
        eviction_workers: Vec::with_capacity(alloc, settings.num_eviction_workers)?,
        callback_workers: Vec::with_capacity(alloc, settings.num_callback_workers)?,
    })
}

// An order of empty shards, as it was told, no thread of which is started.
fn idle<K: Clone + Drop, const N: usize, B: BoxRegistry + Archive>(
    alloc: Global,
    settings: &BuilderSettings,
    logs: &mut Option<Voice<LruMsg<K>, B>>,
    seats: Vec<PutSeat<B>>,
    outlet: Outlet<K, B>,
) -> Result<AsyncLru<K, N, B>, BuildError>
    requires some { 0 < N }
    requires named { IsSome logs.old → B.shards ≡ N }
    requires logs { ForSome logs.old (λ v. v.token.me ≡ (hand (blank_logs 0 N) (blank_fronts 0 N) [], [])) }
    requires fresh { All (λ s. s.share.slips ≡ []) seats.items }
    ensures limits { IfOk result (λ lru. limits_of lru ≡ limits_told settings.now) }
    ensures evicting { IfOk result (λ lru. vec_len lru.eviction_workers ≡ 0) }
    ensures calling { IfOk result (λ lru. vec_len lru.callback_workers ≡ 0) }
    ensures logs { OnOk result (AreTakers 0 N logs.new × (is_some logs.new ≡ is_some logs.old)) }
{
    let world = World::new(
        alloc,
        logs,
        seats,
        N,
        settings.capacity,
        limits_told(settings),
        outlet,
    )?;
    let Ok(world) = Arc::new(alloc, world) else {
        return Err(BuildError::Memory);
    };
    Ok(order_of_none(alloc, settings, world)?)
}

// Starts the threads of a builder. Its type parameters stand in the order of the builder's.
pub(crate) fn launch<
    K: Hash + Eq + Clone + Drop + Send + Sync + 'static,
    C: AsyncEvictionCallback<K> + Drop + 'static,
    const N: usize,
    G: Gate + Drop + 'static,
    R: Threads + Wait + Copy + Send + 'static,
    B: BoxRegistry + Archive + Send + Sync + 'static,
>(
    rt: R,
    alloc: Global,
    builder: AsyncLruBuilder<K, C, N, G>,
    logs: Option<Voice<LruMsg<K>, B>>,
    outlet: Outlet<K, B>,
    puts: Vec<PutSeat<B>>,
    takes: Vec<TakeSeat<B>>,
) -> Result<AsyncLru<K, N, B>, BuildError>
    requires some { 0 < N }
    requires ready { C.ready (arc_value builder.callback) }
    requires logs { ForSome logs (λ v. v.token.me ≡ (hand (blank_logs 0 N) (blank_fronts 0 N) [], [])) }
    requires shards { IsSome logs → B.shards ≡ N }
    requires fresh { All (λ s. s.share.slips ≡ []) puts.items }
    ensures limits { IfOk result (λ lru. limits_of lru ≡ limits_told builder.settings) }
    ensures workers { IfOk result (λ lru. HasWorkers lru builder.settings) }
{
    let mut logs = logs;
    let (row_seats, puts) = seats_apart(alloc, logs.is_some(), puts);
    let mut lru = idle::<K, N, B>(alloc, &builder.settings, &mut logs, row_seats, outlet)?;
    match start::<K, C, N, G, R, B>(rt, &mut lru, &builder, logs, puts, takes) {
        Ok(()) => Ok(lru),
        Err(refused) => {
            lru.close(&rt);
            Err(refused)
        }
    }
}

// Starts all threads of an order. Its type parameters stand in the order of the builder's.
fn start<
    K: Hash + Eq + Clone + Drop + Send + Sync + 'static,
    C: AsyncEvictionCallback<K> + Drop + 'static,
    const N: usize,
    G: Gate + Drop + 'static,
    R: Threads + Wait + Copy + Send + 'static,
    B: BoxRegistry + Archive + Send + Sync + 'static,
>(
    rt: R,
    lru: &mut AsyncLru<K, N, B>,
    builder: &AsyncLruBuilder<K, C, N, G>,
    logs: Option<Voice<LruMsg<K>, B>>,
    puts: Vec<PutSeat<B>>,
    takes: Vec<TakeSeat<B>>,
) -> Result<(), BuildError>
    requires ready { C.ready (arc_value builder.now.callback) }
    requires logs { AreTakers 0 N logs }
    requires shards { IsSome logs → B.shards ≡ N }
    requires evicting { vec_len lru.old.eviction_workers ≡ 0 }
    requires calling { vec_len lru.old.callback_workers ≡ 0 }
    ensures world { lru.new.world ≡ lru.old.world }
    ensures workers { OnOk result (HasWorkers lru.new builder.now.settings) }
{
    let settings = builder.settings;
    lru.start_actors(rt, logs, settings.capacity, &builder.gate, puts)?;
    lru.start_eviction_workers(rt, settings.num_eviction_workers, settings.seed)?;
    lru.start_callback_workers(rt, &builder.callback, settings.num_callback_workers, takes)
}

impl<
    K: Hash + Eq + Clone + Drop + Send + Sync + 'static,
    const N: usize,
    B: BoxRegistry + Archive + Send + Sync + 'static,
> AsyncLru<K, N, B> {
    fn start_actors<G: Gate + Drop + 'static, R: Threads + Wait + Copy + Send + 'static>(
        &mut self,
        rt: R,
        logs: Option<Voice<LruMsg<K>, B>>,
        capacity: usize,
        gate: &Option<Arc<G, Global>>,
        puts: Vec<PutSeat<B>>,
    ) -> Result<(), BuildError>
        requires logs { AreTakers 0 N logs }
        requires shards { IsSome logs → B.shards ≡ N }
        ensures world { self.new.world ≡ self.old.world }
        ensures workers { vec_len self.new.eviction_workers ≡ vec_len self.old.eviction_workers }
        ensures others { vec_len self.new.callback_workers ≡ vec_len self.old.callback_workers }
    {
        let mut logs = logs;
        let mut puts = puts;
        puts.reverse();
        for shard in 0..N {
            let taker = next_taker(&mut logs, shard, N)?;
            self.start_actor(rt, taker, capacity, gate, puts.pop())?;
        }
        Ok(())
    }

    fn start_actor<G: Gate + Drop + 'static, R: Threads + Wait + Copy + Send + 'static>(
        &mut self,
        rt: R,
        taker: Taker<K, B>,
        capacity: usize,
        gate: &Option<Arc<G, Global>>,
        seat: Option<PutSeat<B>>,
    ) -> Result<(), BuildError>
        requires nothing { HasNothing (taken_in taker.voice) }
        requires shards { IsSome taker.voice → B.shards ≡ N }
        ensures world { self.new.world ≡ self.old.world }
        ensures workers { vec_len self.new.eviction_workers ≡ vec_len self.old.eviction_workers }
        ensures others { vec_len self.new.callback_workers ≡ vec_len self.old.callback_workers }
    {
        self.actors.reserve(1)?;
        let actor = actor_of_one::<K, N, B>(self.alloc, taker, capacity, seat)?;
        let gate = match gate {
            Some(gate) => Some(Arc::try_clone(gate)?),
            None => None,
        };
        let (ended, theirs) = cell_and_clone(self.alloc)?;
        let placed = Placed {
            actor,
            world: Arc::try_clone(&self.world)?,
        };
        start_actor(rt, placed, gate, theirs)?;
        self.actors.push_reserved(ended);
        Ok(())
    }

    fn start_eviction_workers<R: Threads + Wait + Copy + Send + 'static>(
        &mut self,
        rt: R,
        count: usize,
        seed: u64,
    ) -> Result<(), BuildError>
        ensures world { self.new.world ≡ self.old.world }
        ensures started { OnOk result (vec_len self.new.eviction_workers ≡ vec_len self.old.eviction_workers + count) }
        ensures others { vec_len self.new.callback_workers ≡ vec_len self.old.callback_workers }
    {
        for number in 0..count {
            self.eviction_workers.reserve(1)?;
            let (ended, theirs) = cell_and_clone(self.alloc)?;
            let world = Arc::try_clone(&self.world)?;
            start_eviction_worker(rt, world, seed_of(seed, number), theirs)?;
            self.eviction_workers.push_reserved(ended);
        }
        Ok(())
    }

    fn start_callback_workers<
        C: AsyncEvictionCallback<K> + Drop + 'static,
        R: Threads + Wait + Copy + Send + 'static,
    >(
        &mut self,
        rt: R,
        callback: &Arc<C, Global>,
        count: usize,
        takes: Vec<TakeSeat<B>>,
    ) -> Result<(), BuildError>
        requires { C.ready (arc_value callback.now) }
        ensures world { self.new.world ≡ self.old.world }
        ensures started { OnOk result (vec_len self.new.callback_workers ≡ vec_len self.old.callback_workers + count) }
        ensures others { vec_len self.new.eviction_workers ≡ vec_len self.old.eviction_workers }
    {
        let mut takes = takes;
        takes.reverse();
        for _ in 0..count {
            self.callback_workers.reserve(1)?;
            let world = Arc::try_clone(&self.world)?;
            let callback = Arc::try_clone(callback)?;
            let (ended, theirs) = cell_and_clone(self.alloc)?;
            start_callback_worker(rt, world, callback, takes.pop(), theirs)?;
            self.callback_workers.push_reserved(ended);
        }
        Ok(())
    }
}

impl<K: Clone + Drop, const N: usize, B: BoxRegistry + Archive> AsyncLru<K, N, B> {
    // With a receiver of its evicted pairs.
    pub(crate) fn with_receiver(
        self,
        rt: &impl Wait,
        alone: bool,
    ) -> Result<(Self, EvictionReceiver<K, B>), BuildError>
        ensures { IfOk result (λ made. made.0 ≡ self) }
    {
        match Arc::try_clone(&self.world) {
            Ok(world) => Ok((self, EvictionReceiver::new(world, alone))),
            Err(_) => {
                self.close(rt);
                Err(BuildError::Memory)
            }
        }
    }
}
