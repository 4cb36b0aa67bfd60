//! A box that threads share.
ghost use Rattle.std.specs.Prelude.{◌≡◌, [], map, All, IfOk};
ghost use Rattle.lru_mailbox.specs.Ledger.{slips_of};
ghost use Rattle.lru_mailbox.specs.Slips.{lists_of, IsSettled};
ghost use Rattle.lru_short_locks.specs.Hands.{up};
ghost use Rattle.lru_boxes.specs.Putting.{MayWait, PutsSlip, TakesSlip};

use crate::desk::Desk;
use crate::seats::{PutSeat, TakeSeat};
use crate::tie::{Blanks, BoxRegistry};
use lru_mailbox::{MailError, Settled, Slip};
use std::alloc::{AllocError, Global};
use std::sync::{Condvar, Mutex, MutexGuard, Wait};

/// Pairs of a key and a weight that threads put and take, first come first served: a `Desk` behind a lock. Each pair that is
/// put gets a slip, and in the end every slip was taken, is lost, or is left.
///
/// Who puts has a put seat, who takes a take seat, which keeps its own slips. The seats are those that `new` gave with the
/// box: by their type, of which `B` is a part, they fit no other one.
#[derive(Drop)]
pub struct LedgerBox<K: Drop, B: BoxRegistry> {
    desk: Mutex<Desk<K, B>>,
    changed: Condvar,
}

impl<K: Drop, B: BoxRegistry> LedgerBox<K, B> {
    /// An open box where nothing waits, and its seats, which are numbered in order and have no slips.
    pub fn new(
        alloc: Global,
        blanks: Blanks,
    ) -> Result<(Self, Vec<PutSeat<B>>, Vec<TakeSeat<B>>), AllocError>
        requires tables { (blanks.puts.tie.table.shared.table_id ≡ B.puts) × (blanks.takes.tie.table.shared.table_id ≡ B.takes) }
        requires counts { (B.putters ≡ blanks.putters) × (B.takers ≡ blanks.takers) }
        ensures putters { IfOk result (λ made. map (λ s. s.number) made.1.items ≡ up 0 B.putters) }
        ensures takers { IfOk result (λ made. map (λ s. s.number) made.2.items ≡ up 0 B.takers) }
        ensures put_slips { IfOk result (λ made. All (λ s. s.share.slips ≡ []) made.1.items) }
        ensures take_slips { IfOk result (λ made. All (λ s. s.share.slips ≡ []) made.2.items) }
    {
        let (desk, puts, takes) = Desk::new(alloc, blanks)?;
        let ledger = LedgerBox {
            desk: Mutex::new(desk),
            changed: Condvar::new(),
        };
        Ok((ledger, puts, takes))
    }

    /// Puts a pair last, with its slip at the seat; where the box is closed the slip is lost. Where memory refuses it, or all
    /// of 18446744073709551615 numbers were given, the key is handed back and nothing changes.
    pub fn put(
        &self,
        rt: &impl Wait,
        seat: &mut PutSeat<B>,
        hash: u64,
        key: K,
        weight: usize,
    ) -> Result<(), MailError<K>>
        ensures slip { PutsSlip seat.old.share.slips hash key weight result seat.new.share.slips }
        ensures number { seat.new.number ≡ seat.old.number }
    {
        let answer = self.desk.lock(rt).put(seat, hash, key, weight);
        self.changed.notify_one();
        answer
    }

    /// Takes the first pair, with its slip at the seat. It waits while the box is open and empty; `None` once it is closed
    /// and empty. Where memory refuses it, the pair waits on.
    pub fn take(
        &self,
        rt: &impl Wait,
        seat: &mut TakeSeat<B>,
    ) -> Result<Option<(Slip, K)>, AllocError>
        ensures slip { TakesSlip seat.old.share.slips result seat.new.share.slips }
        ensures number { seat.new.number ≡ seat.old.number }
    {
        let mut desk = self
            .changed
            .wait_while(rt, self.desk.lock(rt), |desk| is_idle(desk));
        desk.take(seat)
    }

    /// Closes the box. What waits can still be taken; what is put later is lost.
    pub fn close(&self, rt: &impl Wait) {
        self.desk.lock(rt).close();
        self.changed.notify_all();
    }

    /// Closes the box. What waits is lost.
    pub fn leave(&self, rt: &impl Wait) {
        self.desk.lock(rt).leave();
        self.changed.notify_all();
    }

    /// How many pairs wait.
    pub fn len(&self, rt: &impl Wait) -> usize
        ensures { MayWait K result }
    {
        self.desk.lock(rt).len()
    }

    /// How many pairs are lost.
    pub fn lost_len(&self, rt: &impl Wait) -> usize {
        self.desk.lock(rt).lost_len()
    }

    /// Ends the box: what was put and taken with each seat, the slips that are lost, and the pairs that are left. It takes
    /// all seats, so that nothing is put or taken afterwards. It takes no memory, and refuses nothing.
    pub fn settle(self, puts: Vec<PutSeat<B>>, takes: Vec<TakeSeat<B>>) -> Settled<K>
        requires putters { map (λ s. s.number) puts.items ≡ up 0 B.putters }
        requires takers { map (λ s. s.number) takes.items ≡ up 0 B.takers }
        ensures puts { lists_of result.puts.items ≡ map (λ s. s.share.slips) puts.items }
        ensures takes { lists_of result.takes.items ≡ map (λ s. s.share.slips) takes.items }
        ensures settled { IsSettled (lists_of result.puts.items) (lists_of result.takes.items) result.lost.items (slips_of result.left.items) }
    {
        let LedgerBox { desk, changed: _ } = self;
        desk.into_inner().settle(puts, takes)
    }

    /// Lends the desk until the guard is dropped. Who puts pairs into it calls `wake` afterwards.
    pub fn lend<R: Wait>(&self, rt: &R) -> MutexGuard<'_, Desk<K, B>> {
        self.desk.lock(rt)
    }

    /// Wakes all who wait for a pair.
    pub fn wake(&self) {
        self.changed.notify_all();
    }
}

// Whether there is nothing to take, and something may come.
fn is_idle<K: Drop, B: BoxRegistry>(desk: &Desk<K, B>) -> bool {
    desk.len() == 0 && !desk.is_closed()
}
