//! A box for tests, with its one putter and its one taker: so it can be settled at any time.
ghost use Rattle.std.specs.Prelude.{◌≡◌};

use lru_mailbox::{LedgerState, MailError, PutShare, Settled, Slip, TakeShare};
use std::alloc::{AllocError, Global};
use std::marker::Model;

#[derive(Drop)]
pub struct Single {
    ledger: LedgerState<u8>,
    putter: PutShare,
    taker: TakeShare,
}

impl Model for Single {
    ghost use Rattle.std.specs.Prelude.{◌≡◌, ℕ, ◌∷◌, []};
    ghost use Rattle.lru_mailbox.specs.Ledger.{Book, IsTied, seats_of};

    ghost Value = { Book ℕ };

    ghost view = { λ s. s.ledger.book };

    ghost invariant = { λ s. IsTied s.ledger.book (s.putter.slips ∷ []) (s.taker.slips ∷ []) × (s.ledger.seats ≡ seats_of 1 1) };
}

impl Single {
    pub fn new(alloc: Global) -> Result<Option<Self>, AllocError> {
        let (ledger, mut puts, mut takes) = LedgerState::new(alloc, 1, 1)?;
        let (Some(putter), Some(taker)) = (puts.pop(), takes.pop()) else {
            return Ok(None);
        };
        Ok(Some(Single {
            ledger,
            putter,
            taker,
        }))
    }

    pub fn put(&mut self, hash: u64, key: u8, weight: usize) -> Result<(), MailError<u8>> {
        self.ledger.put(&mut self.putter, hash, key, weight)
    }

    pub fn take(&mut self) -> Result<Option<(Slip, u8)>, AllocError> {
        self.ledger.take(&mut self.taker)
    }

    pub fn leave(&mut self) {
        self.ledger.leave();
    }

    pub fn settle(self, alloc: Global) -> Result<Settled<u8>, AllocError> {
        let Single {
            ledger,
            putter,
            taker,
        } = self;
        let mut puts = Vec::new(alloc);
        puts.push(putter)?;
        let mut takes = Vec::new(alloc);
        takes.push(taker)?;
        Ok(ledger.settle(puts, takes))
    }
}
