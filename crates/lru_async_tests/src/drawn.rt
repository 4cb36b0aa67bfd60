//! An eviction worker asks the longer one of two drawn shards.
ghost use Rattle.std.specs.Prelude.{◌≡◌, ◌+◌, ◌%◌, ◌^◌, ℕ, vec_len, IfOk};
ghost use Rattle.rand_core.specs.Steps.{stream_of, steps_u32};

use crate::callbacks::LOOKS;
use lru_mailbox::Mailbox;
use lru_workers::outlet::Outlet;
use lru_workers::workers::evict;
use lru_workers::world::{Change, OrderLimits, World};
use rand_core::utils::NextWord;
use rand_core::{Rng, utils};
use std::alloc::{AllocError, Global};
use std::marker::Model;
use std::sync::Wait;
use std::test::Fail;
use std::thread;
use std::thread::Threads;

/// A generator whose words are 2^31 and 0 by turns, so that of two shards it draws one and then the other.
#[derive(Drop)]
pub struct Alternating(u32);

impl Model for Alternating {
    ghost Value = { ℕ };

    ghost view = { λ a. a.0 };
}

impl NextWord<u32> for Alternating {
    ghost step = { λ s. ((s + 2147483648) % 2 ^ 32, (s + 2147483648) % 2 ^ 32) };

    fn next_word(&mut self) -> u32 {
        self.0 = self.0.wrapping_add(0x8000_0000);
        self.0
    }
}

impl Rng for Alternating {
    ghost stream = { stream_of (steps_u32 (λ s. ((s + 2147483648) % 2 ^ 32, (s + 2147483648) % 2 ^ 32))) };

    fn next_u32(&mut self) -> u32 {
        self.next_word()
    }

    fn next_u64(&mut self) -> u64 {
        utils::next_u64_via_u32(self)
    }

    fn fill_bytes(&mut self, dst: &mut [u8]) {
        utils::fill_bytes_via_u32(self, dst)
    }
}

// A shard that has gained so many rows of weight 1.
fn gained(rows: usize) -> Change {
    Change {
        weight_before: 0,
        weight_after: rows,
        len_before: 0,
        len_after: rows,
        evicted_weight: 0,
        evicted_len: 0,
        refused: 0,
        heaviest: 1,
    }
}

// A world of two shards with so many rows, whose limit is passed.
fn two_shards(alloc: Global, first: usize, second: usize) -> Result<World<u64>, AllocError>
    ensures { IfOk result (λ world. vec_len world.shards ≡ 2) }
{
    let limits = OrderLimits {
        weight_limit: 0,
        len_watermark: None,
    };
    let outlet = Outlet::Mailbox(Mailbox::new(alloc));
    let world = World::new(alloc, &mut None, Vec::new(alloc), 2, 0, limits, outlet)?;
    world.count(0, &gained(first));
    world.count(1, &gained(second));
    Ok(world)
}

// How many messages each shard was ever sent.
fn sent<R: Wait>(rt: &R, world: &World<u64>) -> (u64, u64)
    requires { vec_len world.now.shards ≡ 2 }
{
    (
        world.shards[0].mailbox.put_and_lost(rt).0,
        world.shards[1].mailbox.put_and_lost(rt).0,
    )
}

// Stops the world once an eviction was asked for.
fn stop<R: Wait>(rt: &R, world: &World<u64>)
    requires { vec_len world.now.shards ≡ 2 }
{
    for _ in 0..LOOKS {
        if sent(rt, world) != (0, 0) {
            break;
        }
        thread::yield_now();
    }
    world.shut(rt);
}

// Which shards an eviction worker asks until it is stopped.
fn asked<R: Threads + Wait + Sync>(rt: &R, world: &World<u64>) -> (u64, u64)
    requires { vec_len world.now.shards ≡ 2 }
{
    world.trigger.raise(rt);
    let ((), ()) = thread::join(rt, || evict(rt, world, Alternating(0)), || stop(rt, world));
    sent(rt, world)
}

#[test]
fn asks_the_longer_of_two_shards(rt: HostRuntime) -> Result<(), Fail> {
    let first = two_shards(rt.alloc(), 5, 3)?;
    let second = two_shards(rt.alloc(), 3, 5)?;
    assert_eq!(rt; (asked(&rt, &first), asked(&rt, &second)), ((1, 0), (0, 1)));
    Ok(())
}
