//! An actor that this thread serves: which replies go to whom, what is counted, and how many messages are taken at once.
ghost use Rattle.std.specs.Prelude.{◌≡◌, vec_len, IfOk};
ghost use Rattle.std.specs.Arc.{arc_value};

use lru_actors::effect::Reply;
use lru_actors::message::LruMsg;
use lru_actors::{Letter, ReplyCell};
use lru_inbox::{Taker, Told};
use lru_mailbox::Mailbox;
use lru_workers::actor::Actor;
use lru_workers::callback::{Gate, NoGate};
use lru_workers::outlet::Outlet;
use lru_workers::world::{OrderLimits, World};
use std::alloc::{AllocError, Global};
use std::marker::Brand;
use std::sync::atomic::{AtomicUsize, Ordering};
use std::sync::{Arc, Wait};
use std::test::Fail;

/// What someone who asked looks into.
type Cell = Arc<ReplyCell<Told<u64, Brand>>, Global>;

// A world of one shard, whose limits are not passed.
fn one_shard(alloc: Global) -> Result<World<u64>, AllocError>
    ensures { IfOk result (λ world. vec_len world.shards ≡ 1) }
{
    let limits = OrderLimits {
        weight_limit: 1000,
        len_watermark: None,
    };
    let outlet = Outlet::Mailbox(Mailbox::new(alloc));
    World::new(alloc, &mut None, Vec::new(alloc), 1, 0, limits, outlet)
}

// Serves what waits in the only shard, and then nothing more.
fn serve<G: Gate, R: Wait>(
    rt: &R,
    world: &World<u64>,
    gate: &Option<Arc<G, Global>>,
    alloc: Global,
) -> Result<(), AllocError>
    requires { vec_len world.now.shards ≡ 1 }
{
    world.shards[0].mailbox.close(rt);
    let actor = Actor::new(alloc, Taker::new(0, None), 1, 0, None)?;
    let _seat = actor.run(rt, world, gate);
    Ok(())
}

// Puts a message for the only shard.
fn put<R: Wait>(rt: &R, world: &World<u64>, message: LruMsg<u64>)
    requires { vec_len world.now.shards ≡ 1 }
{
    let _put = world.shards[0].mailbox.push(rt, Letter::new(message));
}

// Asks for the weight of the only shard.
fn ask<R: Wait>(rt: &R, world: &World<u64>, alloc: Global) -> Result<Cell, Fail>
    requires { vec_len world.now.shards ≡ 1 }
{
    let cell = Arc::new(alloc, ReplyCell::new())?;
    let theirs = Arc::try_clone(&cell)?;
    let _put = world.shards[0]
        .mailbox
        .push(rt, Letter::asking(LruMsg::QueryWeight, theirs));
    Ok(cell)
}

// The weight that was answered.
fn weight<R: Wait>(rt: &R, cell: &Cell) -> Option<usize> {
    match cell.take(rt)?.reply {
        Reply::Weight(weight) => Some(weight),
        _ => None,
    }
}

fn admission(key: u64, weight: usize) -> LruMsg<u64> {
    LruMsg::Admit {
        hash: key,
        key,
        weight,
    }
}

// Two rows come, and one is evicted; after each of these someone asks.
fn asks<R: Wait>(rt: &R, world: &World<u64>, alloc: Global) -> Result<[Option<usize>; 3], Fail>
    requires { vec_len world.now.shards ≡ 1 }
{
    put(rt, world, admission(1, 5));
    let first = ask(rt, world, alloc)?;
    put(rt, world, admission(2, 7));
    let second = ask(rt, world, alloc)?;
    put(rt, world, LruMsg::Evict);
    let third = ask(rt, world, alloc)?;
    let none: Option<Arc<NoGate, Global>> = None;
    serve(rt, world, &none, alloc)?;
    Ok([weight(rt, &first), weight(rt, &second), weight(rt, &third)])
}

// The first evicted pair.
fn evicted<R: Wait>(rt: &R, world: &World<u64>) -> Option<(u64, usize)> {
    match &world.outlet {
        Outlet::Mailbox(mailbox) => {
            mailbox.close(rt);
            mailbox.pop(rt)
        }
        Outlet::Ledger(_) => None,
    }
}

#[test]
fn each_gets_the_reply_to_its_own_question(rt: HostRuntime) -> Result<(), Fail> {
    let world = one_shard(rt.alloc())?;
    assert_eq!(rt;
        asks(&rt, &world, rt.alloc())?,
        [Some(5), Some(12), Some(7)]
    );
    Ok(())
}

#[test]
fn a_batch_is_counted_once(rt: HostRuntime) -> Result<(), Fail> {
    let world = one_shard(rt.alloc())?;
    let _replies = asks(&rt, &world, rt.alloc())?;
    let here = world.shards[0].len.load(Ordering::SeqCst);
    let counted = [
        world.len(),
        world.weight(),
        here,
        world.evicted_len(),
        world.evicted_weight(),
    ];
    assert_eq!(rt;
        (counted, evicted(&rt, &world)),
        ([1, 7, 1, 1, 5], Some((1, 5)))
    );
    Ok(())
}

/// A gate that counts the messages, and those before which the world has no row.
#[derive(Drop)]
struct Watching {
    world: Arc<World<u64>, Global>,
    passed: AtomicUsize,
    before_all: AtomicUsize,
}

impl Gate for Watching {
    fn pass(&self, _shard: usize) {
        self.passed.fetch_add(1, Ordering::SeqCst);
        if self.world.len() == 0 {
            self.before_all.fetch_add(1, Ordering::SeqCst);
        }
    }
}

// How many messages passed the gate, and how many before the first was processed.
fn passes<R: Wait>(
    rt: &R,
    world: Arc<World<u64>, Global>,
    alloc: Global,
) -> Result<(usize, usize), Fail>
    requires { vec_len (arc_value world).shards ≡ 1 }
{
    for key in 0..100u64 {
        put(rt, &*world, admission(key, 1));
    }
    let watching = Watching {
        world: Arc::try_clone(&world)?,
        passed: AtomicUsize::new(0),
        before_all: AtomicUsize::new(0),
    };
    let gate = Arc::new(alloc, watching)?;
    serve(rt, &*world, &Some(Arc::try_clone(&gate)?), alloc)?;
    Ok((
        gate.passed.load(Ordering::SeqCst),
        gate.before_all.load(Ordering::SeqCst),
    ))
}

#[test]
fn takes_16_at_once_and_passes_the_gate_for_each(rt: HostRuntime) -> Result<(), Fail> {
    let world = Arc::new(rt.alloc(), one_shard(rt.alloc())?)?;
    assert_eq!(rt; passes(&rt, world, rt.alloc())?, (100, 16));
    Ok(())
}
