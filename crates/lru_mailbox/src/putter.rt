//! A box with one of its shares.
use crate::dispatch::Dispatch;
use crate::{LedgerState, PutShare};
use std::alloc::AllocError;

/// A box that is lent with the share of one that puts into it.
#[derive(Drop)]
pub struct Putter<'a, K: Drop> {
    /// The box.
    pub ledger: &'a mut LedgerState<K>,
    /// The share that gets the slips of what is put.
    pub share: &'a mut PutShare,
}

impl<'a, K: Drop> Dispatch<K> for Putter<'a, K> {
    ghost use Rattle.std.specs.Prelude.{◌≡◌, ◌<◌, min};
    ghost use Rattle.lru_mailbox.specs.Dispatching.{queue_of_book, IsPut};

    ghost queue = { λ s. queue_of_book s.ledger.now.book };

    ghost HasRoom = { λ s. 0 < min s.ledger.now.room s.share.now.room };

    ghost MayRefuse = { λ s. min s.ledger.now.room s.share.now.room ≡ 0 };

    ghost Puts = { λ s hash key weight t. IsPut s.ledger.now.book s.share.now.slips hash key weight t.ledger.now.book t.share.now.slips };

    ghost IsSame = { λ s t. (t.ledger.now.book ≡ s.ledger.now.book) × (t.share.now.slips ≡ s.share.now.slips) };

    fn reserve_one(&mut self) -> Result<(), AllocError> {
        self.ledger.reserve_one(self.share)
    }

    fn put(&mut self, hash: u64, key: K, weight: usize) {
        let _slip = self.ledger.put_reserved(self.share, hash, key, weight);
    }
}
