//! The state of a box.
ghost use Rattle.std.specs.Prelude.{◌≡◌, ◌+◌, ◌++◌, ◌<◌, ◌≤◌, [], vec_len, vec_capacity, IfOk};
ghost use Rattle.std.specs.VecDeque.{deque_len, deque_capacity};
ghost use Rattle.lru_mailbox.specs.Ledger.{slips_of};
ghost use Rattle.lru_mailbox.specs.Slips.{slips_in, lists_of, AreFresh};

use crate::MailError;
use crate::shares::{PutShare, SideShare, TakeShare};
use crate::slip::Slip;
use std::alloc::{AllocError, Global};
use std::collections::VecDeque;
use std::marker::Model;

/// Pairs of a key and a weight that were put and wait to be taken, first come first served, and the slips of
/// those that are lost. Each pair that is put gets the next number, from 0 on, on a slip with its hash and weight.
///
/// A closed box loses what is put, and stays closed.
#[derive(Drop)]
pub struct LedgerState<K: Drop> {
    waiting: VecDeque<(Slip, K)>,
    // It has room for the slips of all that wait.
    lost: VecDeque<Slip>,
    next: u64,
    closed: bool,
    // Empty, with room for the lists that `settle` answers.
    puts: Vec<Vec<Slip>>,
    takes: Vec<Vec<Slip>>,
}

impl<K: Drop> Model for LedgerState<K> {
    ghost use Rattle.std.specs.Prelude.{◌-◌, ◌+◌, min, vec_capacity};
    ghost use Rattle.std.specs.VecDeque.{deque_len, deque_capacity};
    ghost use Rattle.lru_mailbox.specs.Ledger.{Stock, book_of, stock_of, stock_code, seats_of, most_numbers, IsStocked};
    ghost use Rattle.lru_mailbox.specs.Slips.{lists_of};

    ghost Value = { Stock K };

    ghost coded = { stock_code K.code };

    ghost view = { λ s. stock_of (book_of s.waiting.items s.lost.items s.next s.closed)
        (min (most_numbers - s.next) (min (deque_capacity s.waiting - deque_len s.waiting) (deque_capacity s.lost - (deque_len s.lost + deque_len s.waiting)))) (seats_of (vec_capacity s.puts) (vec_capacity s.takes)) };

    ghost invariant = { λ s. IsStocked (deque_len s.lost + deque_len s.waiting) (deque_capacity s.lost) (lists_of s.puts.items) (lists_of s.takes.items) };
}

impl<K: Drop> LedgerState<K> {
    ghost use Rattle.std.specs.Prelude.{length, ◌∷◌, IsOk, IsErr, min};
    ghost use Rattle.lru_mailbox.specs.Ledger.{slip_put, put, shut, left, empty, seats_of, Puts, Takes, Makes, IsTied};
    ghost use Rattle.lru_mailbox.specs.Slips.{IsSettled};

    /// An open box where nothing waits, and its shares.
    pub fn new(
        alloc: Global,
        putters: usize,
        takers: usize,
    ) -> Result<(Self, Vec<PutShare>, Vec<TakeShare>), AllocError>
        ensures { IfOk result (λ made. Makes putters takers made.0 made.1.items made.2.items) }
    {
        let state = LedgerState::without_shares(alloc, putters, takers)?;
        let puts = fresh_shares(alloc, putters)?;
        let takes = fresh_shares(alloc, takers)?;
        Ok((state, puts, takes))
    }

    /// An open box where nothing waits, with room to tell in the end of so many who put and so many who take. Its shares
    /// are made apart from it.
    pub fn without_shares(alloc: Global, putters: usize, takers: usize) -> Result<Self, AllocError>
        ensures book { IfOk result (λ state. state.book ≡ empty) }
        ensures seats { IfOk result (λ state. state.seats ≡ seats_of putters takers) }
    {
        Ok(LedgerState {
            waiting: VecDeque::new(alloc),
            lost: VecDeque::new(alloc),
            next: 0,
            closed: false,
            puts: Vec::with_capacity(alloc, putters)?,
            takes: Vec::with_capacity(alloc, takers)?,
        })
    }

    /// How many pairs wait.
    pub fn len(&self) -> usize
        ensures { result ≡ length self.now.book.waiting }
    {
        self.waiting.len()
    }

    /// How many pairs are lost.
    pub fn lost_len(&self) -> usize
        ensures { result ≡ length self.now.book.lost }
    {
        self.lost.len()
    }

    /// Whether what is put is lost.
    pub fn is_closed(&self) -> bool
        ensures { result ≡ self.now.book.closed }
    {
        self.closed
    }

    /// Makes room for one more pair, and for its slip in the share. Nothing else changes, also where memory
    /// refuses it, or where all of 18446744073709551615 numbers were given.
    pub fn reserve_one(&mut self, share: &mut PutShare) -> Result<(), AllocError>
        ensures same { self.new.book ≡ self.old.book }
        ensures seats { self.new.seats ≡ self.old.seats }
        ensures share { share.new.slips ≡ share.old.slips }
        ensures room { IsOk result → 0 < min self.new.room share.new.room }
        ensures refused { IsErr result → min self.old.room share.old.room ≡ 0 }
    {
        if self.next == u64::MAX {
            return Err(AllocError);
        }
        share.reserve_one()?;
        self.waiting.reserve(1)?;
        self.lost.reserve(self.waiting.len() + 1)
    }

    /// Puts a pair last, with its slip in the share, and answers the slip; where the box is closed the slip is lost.
    /// It takes no memory. There has to be room, as a `reserve_one` before it makes.
    pub fn put_reserved(&mut self, share: &mut PutShare, hash: u64, key: K, weight: usize) -> Slip
        requires { 0 < min self.old.room share.old.room }
        ensures slip { result ≡ slip_put self.old.book hash weight }
        ensures book { self.new.book ≡ put self.old.book hash key weight }
        ensures share { share.new.slips ≡ share.old.slips ++ slip_put self.old.book hash weight ∷ [] }
        ensures seats { self.new.seats ≡ self.old.seats }
    {
        let slip = Slip {
            number: self.next,
            hash,
            weight,
        };
        self.next += 1;
        share.note(slip);
        if self.closed {
            self.lost.push_back_reserved(slip);
        } else {
            self.waiting.push_back_reserved((slip, key));
        }
        slip
    }

    /// Puts a pair last, with its slip in the share; where the box is closed the slip is lost. Where memory
    /// refuses it, the key is handed back and nothing changes.
    pub fn put(
        &mut self,
        share: &mut PutShare,
        hash: u64,
        key: K,
        weight: usize,
    ) -> Result<(), MailError<K>>
        ensures puts { Puts self.old share.old hash key weight result self.new share.new }
        ensures seats { self.new.seats ≡ self.old.seats }
    {
        if self.reserve_one(share).is_err() {
            return Err(MailError::Memory(key));
        }
        let _slip = self.put_reserved(share, hash, key, weight);
        Ok(())
    }

    /// Takes the first pair that waits, with its slip in the share; `None` where none waits. Where memory
    /// refuses it, the pair waits on.
    pub fn take(&mut self, share: &mut TakeShare) -> Result<Option<(Slip, K)>, AllocError>
        ensures takes { Takes self.old.book share.old result self.new.book share.new }
        ensures seats { self.new.seats ≡ self.old.seats }
    {
        if self.waiting.is_empty() {
            return Ok(None);
        }
        share.reserve_one()?;
        let Some((slip, key)) = self.waiting.pop_front() else {
            unreachable!()
        };
        share.note(slip);
        Ok(Some((slip, key)))
    }

    /// Closes the box. What waits can still be taken.
    pub fn close(&mut self)
        ensures shut { self.new.book ≡ shut self.old.book }
        ensures seats { self.new.seats ≡ self.old.seats }
    {
        self.closed = true;
    }

    /// Closes the box. What waits is lost.
    pub fn leave(&mut self)
        ensures left { self.new.book ≡ left self.old.book }
        ensures seats { self.new.seats ≡ self.old.seats }
    {
        self.close();
        lose_all(&mut self.waiting, &mut self.lost);
    }

    /// Ends the box: the slips that are lost, and the pairs that are left. The lists of what was put and taken are
    /// empty, with room for those of all shares. It takes no memory.
    pub fn end(self) -> Settled<K>
        ensures puts { (result.puts.items ≡ []) × (self.seats.putters ≤ vec_capacity result.puts) }
        ensures takes { (result.takes.items ≡ []) × (self.seats.takers ≤ vec_capacity result.takes) }
        ensures lost { result.lost.items ≡ self.book.lost }
        ensures left { result.left.items ≡ self.book.waiting }
    {
        let LedgerState {
            waiting,
            lost,
            next: _,
            closed: _,
            puts,
            takes,
        } = self;
        Settled {
            puts,
            takes,
            lost: lost.into_vec(),
            left: waiting,
        }
    }

    /// Ends the box: what each share put and took, the slips that are lost, and the pairs that are left. It
    /// takes no memory. The shares are those that `new` gave, in order.
    pub fn settle(self, puts: Vec<PutShare>, takes: Vec<TakeShare>) -> Settled<K>
        requires putters { vec_len puts ≤ self.seats.putters }
        requires takers { vec_len takes ≤ self.seats.takers }
        requires tied { IsTied self.book (slips_in puts.items) (slips_in takes.items) }
        ensures puts { lists_of result.puts.items ≡ slips_in puts.items }
        ensures takes { lists_of result.takes.items ≡ slips_in takes.items }
        ensures lost { result.lost.items ≡ self.book.lost }
        ensures left { result.left.items ≡ self.book.waiting }
        ensures settled { IsSettled (lists_of result.puts.items) (lists_of result.takes.items) result.lost.items (slips_of result.left.items) }
    {
        let Settled {
            puts: put_lists,
            takes: take_lists,
            lost,
            left,
        } = self.end();
        Settled {
            puts: gather(put_lists, puts),
            takes: gather(take_lists, takes),
            lost,
            left,
        }
    }
}

/// What became of all pairs that were put into a box.
#[derive(Drop)]
pub struct Settled<K: Drop> {
    /// The slips that each putter put, in order.
    pub puts: Vec<Vec<Slip>>,
    /// The slips of the pairs that each taker took, in order.
    pub takes: Vec<Vec<Slip>>,
    /// The slips of the pairs that are lost, in order.
    pub lost: Vec<Slip>,
    /// The pairs that are left, in order.
    pub left: VecDeque<(Slip, K)>,
}

fn fresh_shares<Side>(alloc: Global, count: usize) -> Result<Vec<SideShare<Side>>, AllocError>
    ensures { IfOk result (λ shares. AreFresh count shares.items) }
{
    let mut shares = Vec::with_capacity(alloc, count)?;
    for _ in 0..count {
        shares.push_reserved(SideShare::new(alloc));
    }
    Ok(shares)
}

// Puts the slips of each share behind the lists. There is room for them.
fn gather<Side>(mut lists: Vec<Vec<Slip>>, shares: Vec<SideShare<Side>>) -> Vec<Vec<Slip>>
    requires { vec_len lists + vec_len shares ≤ vec_capacity lists }
    ensures { lists_of result.items ≡ lists_of lists.items ++ slips_in shares.items }
{
    for share in shares {
        lists.push_reserved(share.into_slips());
    }
    lists
}

// Puts the slips of all pairs before those that are lost already. There is room for them.
fn lose_all<K: Drop>(waiting: &mut VecDeque<(Slip, K)>, lost: &mut VecDeque<Slip>)
    requires { deque_len lost.old + deque_len waiting.old ≤ deque_capacity lost.old }
    ensures empty { waiting.new.items ≡ [] }
    ensures none { deque_len waiting.new ≡ 0 }
    ensures lost { lost.new.items ≡ slips_of waiting.old.items ++ lost.old.items }
    ensures room { deque_len lost.new ≤ deque_capacity lost.new }
{
    while let Some((slip, _key)) = waiting.pop_back() {
        lost.push_front_reserved(slip);
    }
}
