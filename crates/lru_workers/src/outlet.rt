//! Where evicted pairs wait for those who take them.
ghost use Rattle.std.specs.Prelude.{◌≡◌, true, false};
ghost use Rattle.lru_workers.specs.Outlets.{is_ledger, taken_by_pair, taken_by_slip, pair_in, number_at, taken_at, NotesAt};

use lru_boxes::{BoxRegistry, LedgerBox, TakeSeat};
use lru_mailbox::{Mailbox, Slip};
use std::alloc::{AllocError, Global};
use std::marker::Brand;
use std::sync::{Arc, Wait};

/// Where evicted pairs wait: a mailbox, or a box that counts every pair.
#[derive(Drop)]
pub enum Outlet<K: Drop, B: BoxRegistry = Brand> {
    /// A mailbox of pairs.
    Mailbox(Mailbox<(K, usize)>),
    /// A box of pairs with their slips.
    Ledger(Arc<LedgerBox<K, B>, Global>),
}

/// What a taker is answered.
#[derive(Debug, Drop)]
pub enum TakenPair<K> {
    /// A key and its weight.
    Pair(K, usize),
    /// All is closed and empty.
    Nothing,
    /// There was no memory for the slip, and the pair waits on.
    NoMemory,
}

impl<K: Drop> TakenPair<K> {
    /// The pair that was taken, if one was.
    pub fn into_pair(self) -> Option<(K, usize)>
        ensures { result ≡ pair_in self }
    {
        match self {
            TakenPair::Pair(key, weight) => Some((key, weight)),
            _ => None,
        }
    }
}

// What a taker of a mailbox is answered.
fn taken_of_pair<K>(pair: Option<(K, usize)>) -> TakenPair<K>
    ensures { result ≡ taken_by_pair pair }
{
    match pair {
        Some((key, weight)) => TakenPair::Pair(key, weight),
        None => TakenPair::Nothing,
    }
}

// What a taker of a box is answered: the weight is that of the slip.
fn taken_of_slip<K>(taken: Result<Option<(Slip, K)>, AllocError>) -> TakenPair<K>
    ensures { result ≡ taken_by_slip taken }
{
    match taken {
        Ok(Some((slip, key))) => TakenPair::Pair(key, slip.weight),
        Ok(None) => TakenPair::Nothing,
        Err(_) => TakenPair::NoMemory,
    }
}

impl<K: Drop, B: BoxRegistry> Outlet<K, B> {
    /// Takes the first pair. It waits while there is none and one may come. Of a box it takes with a seat.
    pub fn take(&self, rt: &impl Wait, seat: &mut Option<TakeSeat<B>>) -> TakenPair<K>
        ensures seat { number_at seat.new ≡ number_at seat.old }
        ensures slips { is_ledger self.now ≡ true → NotesAt (taken_at seat.old) result (taken_at seat.new) }
        ensures same { is_ledger self.now ≡ false → seat.new ≡ seat.old }
    {
        match self {
            Outlet::Mailbox(mailbox) => taken_of_pair(mailbox.pop(rt)),
            Outlet::Ledger(ledger) => {
                let Some(seat) = seat else {
                    return TakenPair::Nothing;
                };
                taken_of_slip(ledger.take(rt, seat))
            }
        }
    }

    /// Whether it counts every pair.
    pub fn is_ledger(&self) -> bool
        ensures { result ≡ is_ledger self.now }
    {
        matches!(self, Outlet::Ledger(_))
    }

    /// No pair waits that is put from now on; what waits can still be taken.
    pub fn close(&self, rt: &impl Wait) {
        match self {
            Outlet::Mailbox(mailbox) => mailbox.close(rt),
            Outlet::Ledger(ledger) => ledger.close(rt),
        }
    }

    /// What waits is lost, and all that is put from now on.
    pub fn leave(&self, rt: &impl Wait) {
        match self {
            Outlet::Mailbox(mailbox) => drop(mailbox.leave(rt)),
            Outlet::Ledger(ledger) => ledger.leave(rt),
        }
    }

    /// How many pairs are lost, modulo 2^64.
    pub fn lost(&self, rt: &impl Wait) -> usize {
        match self {
            Outlet::Mailbox(mailbox) => mailbox.lend(rt).lost() as usize,
            Outlet::Ledger(ledger) => ledger.lost_len(rt),
        }
    }
}
