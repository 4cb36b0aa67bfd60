//! An order served by actors, whose evicted pairs are counted.
ghost use Rattle.std.specs.Prelude.{◌≡◌, length};
ghost use Rattle.lru_mailbox.specs.Ledger.{slips_of};
ghost use Rattle.lru_mailbox.specs.Slips.{lists_of, IsSettled};

use crate::async_lru::AsyncLru;
use crate::seats_back::{all_puts, all_takes, sole};
use lru_boxes::{BoxRegistry, LedgerBox, PutSeat, TakeSeat};
use lru_inbox::tie::Archive;
use lru_mailbox::Settled;
use std::alloc::Global;
use std::marker::Brand;
use std::sync::{Arc, Wait};

/// An [`AsyncLru`] whose evicted pairs go through a box: once it is closed, each of them was taken, is lost or is left.
#[derive(Drop)]
pub struct LedgerLru<K: Clone + Drop, const N: usize, B: BoxRegistry + Archive = Brand> {
    lru: AsyncLru<K, N, B>,
    ledger: Arc<LedgerBox<K, B>, Global>,
    takers: usize,
    // empty, with room for all seats
    puts: Vec<PutSeat<B>>,
    takes: Vec<TakeSeat<B>>,
    ghost putters_are: { B.putters ≡ N },
    ghost takers_are: { B.takers ≡ takers },
}

impl<K: Clone + Drop, const N: usize, B: BoxRegistry + Archive> LedgerLru<K, N, B> {
    ghost use Rattle.lru_async.specs.Orders.{order_of};

    pub(crate) fn new(
        lru: AsyncLru<K, N, B>,
        ledger: Arc<LedgerBox<K, B>, Global>,
        takers: usize,
        puts: Vec<PutSeat<B>>,
        takes: Vec<TakeSeat<B>>,
    ) -> Self
        requires counts { (B.putters ≡ N) × (B.takers ≡ takers) }
        ensures { order_of result ≡ lru }
    {
        LedgerLru {
            lru,
            ledger,
            takers,
            puts,
            takes,
        }
    }

    /// The order. Its `lost_pairs` answers how many pairs the box lost.
    pub fn lru(&self) -> &AsyncLru<K, N, B>
        ensures { result.now ≡ order_of self.now }
    {
        &self.lru
    }

    /// Ends all threads as `AsyncLru::close` does, takes their seats back, and settles the box with all of them: it tells
    /// what became of every pair, for each actor what it put, and for each callback worker what it took.
    pub fn close(self, rt: &impl Wait) -> Settled<K>
        ensures puts { length result.puts.items ≡ N }
        ensures takes { length result.takes.items ≡ B.takers }
        ensures settled { IsSettled (lists_of result.puts.items) (lists_of result.takes.items) result.lost.items (slips_of result.left.items) }
    {
        let LedgerLru {
            lru,
            ledger,
            takers,
            puts,
            takes,
        } = self;
        let mut puts = puts;
        let mut takes = takes;
        // (what was evicted and what is lost stands in the lists that are settled)
        let (_closed, world) = lru.end(rt, &mut puts, &mut takes);
        drop(world);
        let puts = all_puts(rt, puts, N);
        let takes = all_takes(rt, takes, takers);
        sole(rt, ledger).settle(puts, takes)
    }
}
