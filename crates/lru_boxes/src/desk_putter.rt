//! A desk with one of its seats.
use crate::desk::Desk;
use crate::seats::PutSeat;
use crate::tie::BoxRegistry;
use lru_mailbox::Dispatch;
use std::alloc::AllocError;

/// A desk that is lent, and the seat of one who puts. What the seat is afterwards is known, since it is no reference.
#[derive(Drop)]
pub struct DeskPutter<'a, K: Drop, B: BoxRegistry> {
    /// The desk.
    pub desk: &'a mut Desk<K, B>,
    /// The seat that gets the slips of what is put.
    pub seat: PutSeat<B>,
}

impl<'a, K: Drop, B: BoxRegistry> Dispatch<K> for DeskPutter<'a, K, B> {
    ghost use Rattle.std.specs.Prelude.{◌≡◌, ◌<◌, min};
    ghost use Rattle.lru_mailbox.specs.Dispatching.{queue_of_book, IsPut};

    ghost queue = { λ s. queue_of_book s.desk.now.book };

    ghost HasRoom = { λ s. 0 < min s.desk.now.room s.seat.share.room };

    ghost MayRefuse = { λ s. min s.desk.now.room s.seat.share.room ≡ 0 };

    ghost Puts = { λ s hash key weight t. IsPut s.desk.now.book s.seat.share.slips hash key weight t.desk.now.book t.seat.share.slips };

    ghost IsSame = { λ s t. (t.desk.now.book ≡ s.desk.now.book) × (t.seat.share.slips ≡ s.seat.share.slips) };

    fn reserve_one(&mut self) -> Result<(), AllocError> {
        self.desk.reserve_one(&mut self.seat)
    }

    fn put(&mut self, hash: u64, key: K, weight: usize) {
        self.desk.put_reserved(&mut self.seat, hash, key, weight);
    }
}
