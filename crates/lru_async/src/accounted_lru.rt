//! An order served by actors whose history is accounted for.
ghost use Rattle.std.specs.Prelude.{◌≡◌, ◌<◌, ◌≤◌, [], vec_len, vec_capacity, IfOk};
ghost use Rattle.lru_shard.specs.Limits.{cap_of};
ghost use Rattle.lru_mailbox.specs.Ledger.{slips_of};
ghost use Rattle.lru_mailbox.specs.Slips.{lists_of, IsSettled};
ghost use Rattle.lru_async.specs.Accounts.{Accounts};

use crate::async_lru::AsyncLru;
use crate::ending::end_all;
use crate::logged_lru::LoggedLru;
use crate::seats_back::{all_puts, all_takes, sole};
use lru_boxes::{BoxRegistry, LedgerBox, PutSeat, TakeSeat};
use lru_inbox::tie::Archive;
use lru_mailbox::Settled;
use lru_workers::ShardEnd;
use std::alloc::{AllocError, Global};
use std::sync::{Arc, Wait};

/// What an order came to, with the account of each shard.
#[derive(Drop)]
pub struct Account<K: Clone + Drop, B: BoxRegistry + Archive> {
    /// What each shard came to, in order: its log, and the rows that were left.
    pub shards: Vec<ShardEnd<K, B>>,
    /// What became of each evicted pair: for each shard, in order, the slips of what it evicted.
    pub settled: Settled<K>,
}

/// A [`LoggedLru`] whose evicted pairs go through a box that counts each. Once it is closed its whole history is accounted for.
#[derive(Drop)]
pub struct AccountedLru<K: Clone + Drop, const N: usize, B: BoxRegistry + Archive> {
    logged: LoggedLru<K, N, B>,
    ledger: Arc<LedgerBox<K, B>, Global>,
    takers: usize,
    // empty, with room for all shards and seats
    ends: Vec<ShardEnd<K, B>>,
    puts: Vec<PutSeat<B>>,
    takes: Vec<TakeSeat<B>>,
    ghost shards_are: { B.shards ≡ N },
    ghost putters_are: { B.putters ≡ N },
    ghost takers_are: { B.takers ≡ takers },
    ghost no_ends: { (ends.items ≡ []) × (N ≤ vec_capacity ends) },
    ghost no_puts: { (puts.items ≡ []) × (N ≤ vec_capacity puts) },
}

// AccountRoom for what so many shards come to, for their seats, and for those of so many who take.
#[derive(Drop)]
pub(crate) struct AccountRoom<K: Clone + Drop, B: BoxRegistry + Archive> {
    ends: Vec<ShardEnd<K, B>>,
    puts: Vec<PutSeat<B>>,
    takes: Vec<TakeSeat<B>>,
    shards: usize,
    takers: usize,
    ghost no_ends: { (ends.items ≡ []) × (shards ≤ vec_capacity ends) },
    ghost no_puts: { (puts.items ≡ []) × (shards ≤ vec_capacity puts) },
}

impl<K: Clone + Drop, B: BoxRegistry + Archive> AccountRoom<K, B> {
    pub(crate) fn new(alloc: Global, shards: usize, takers: usize) -> Result<Self, AllocError>
        ensures { IfOk result (λ room. (room.shards ≡ shards) × (room.takers ≡ takers)) }
    {
        Ok(AccountRoom {
            ends: Vec::with_capacity(alloc, shards)?,
            puts: Vec::with_capacity(alloc, shards)?,
            takes: Vec::with_capacity(alloc, takers)?,
            shards,
            takers,
        })
    }
}

impl<K: Clone + Drop, const N: usize, B: BoxRegistry + Archive> AccountedLru<K, N, B> {
    ghost use Rattle.lru_async.specs.AccountedOrders.{logged_of, order_in};

    // One of an order over logs and its box, with the room that its end needs.
    pub(crate) fn over(
        lru: AsyncLru<K, N, B>,
        ledger: Arc<LedgerBox<K, B>, Global>,
        room: AccountRoom<K, B>,
    ) -> Self
        requires shards { (0 < N) × (B.shards ≡ N) }
        requires counts { (B.putters ≡ N) × (B.takers ≡ room.takers) }
        requires room { room.shards ≡ N }
        ensures { order_in result ≡ lru }
    {
        let AccountRoom {
            ends,
            puts,
            takes,
            shards: _,
            takers,
        } = room;
        AccountedLru {
            logged: LoggedLru::over(lru),
            ledger,
            takers,
            ends,
            puts,
            takes,
        }
    }

    /// The order, for its calls.
    pub fn logged(&self) -> &LoggedLru<K, N, B>
        ensures { result.now ≡ logged_of self.now }
    {
        &self.logged
    }

    /// Ends all threads as `AsyncLru::close` does, and accounts for all: of each shard, for every hash, the rows that its log's
    /// messages ever made are held, were removed, or were evicted; each that was evicted has one slip, in order; and each slip was
    /// taken, is lost or is left.
    pub fn close(self, rt: &impl Wait) -> Account<K, B>
        ensures count { vec_len result.shards ≡ N }
        ensures accounts { Accounts (cap_of N) 0 result.shards.items (lists_of result.settled.puts.items) }
        ensures settled { IsSettled (lists_of result.settled.puts.items) (lists_of result.settled.takes.items) result.settled.lost.items (slips_of result.settled.left.items) }
    {
        let AccountedLru {
            logged,
            ledger,
            takers,
            ends,
            puts,
            takes,
        } = self;
        let mut ends = ends;
        let mut puts = puts;
        let mut takes = takes;
        let lru = logged.into_lru();
        // with logs no actor has a seat
        let mut of_actors = Vec::new(lru.alloc());
        let (_closed, world) = lru.end(rt, &mut of_actors, &mut takes);
        let places = sole(rt, world).into_shards();
        end_all(rt, places, N, &mut ends, &mut puts);
        let puts = all_puts(rt, puts, N);
        let takes = all_takes(rt, takes, takers);
        let settled = sole(rt, ledger).settle(puts, takes);
        Account {
            shards: ends,
            settled,
        }
    }
}
