//! Where evicted pairs go.
ghost use Rattle.std.specs.Prelude.{◌≡◌, IsOk, IsErr};
ghost use Rattle.lru_mailbox.specs.Queue.{dispatched};

use crate::MailState;
use std::alloc::AllocError;

/// A queue of the pairs of key and weight that were evicted. What is put into a closed one is lost, and counted.
pub trait Dispatch<K> {
    ghost use Rattle.std.specs.Prelude.{ℕ};
    ghost use Rattle.lru_mailbox.specs.Queue.{Queue};

    // the pairs that wait, whether it is closed, and how many are lost
    ghost queue: { Self → Queue K };

    // there is room for one more
    ghost HasRoom: { Self → Type 0 };

    // room for one more may be refused
    ghost MayRefuse: { Self → Type 0 };

    // what a put of a pair, of this hash, does to all of it
    ghost Puts: { Self → ℕ → K → ℕ → Self → Type 0 };

    // nothing but its room has changed
    ghost IsSame: { Self → Self → Type 0 };

    /// Makes room for one more pair. Nothing else changes, also where memory refuses it.
    fn reserve_one(&mut self) -> Result<(), AllocError>
        ensures room { IsOk result → HasRoom self.new }
        ensures refused { IsErr result → MayRefuse self.old }
        ensures same { IsSame self.old self.new }
        ensures queue { queue self.new ≡ queue self.old };

    /// Puts a pair last, or where this is closed counts it as lost. There has to be room. It takes no memory.
    fn put(&mut self, hash: u64, key: K, weight: usize)
        requires { HasRoom self.old }
        ensures puts { Puts self.old hash key weight self.new }
        ensures queue { queue self.new ≡ dispatched (queue self.old) key weight };
}

impl<K: Drop> Dispatch<K> for MailState<(K, usize)> {
    ghost use Rattle.std.specs.Prelude.{◌≡◌, ◌<◌};
    ghost use Rattle.lru_mailbox.specs.Mail.{posted_or_lost};
    ghost use Rattle.lru_mailbox.specs.Dispatching.{queue_of_post};

    ghost queue = { λ s. queue_of_post s.post };

    ghost HasRoom = { λ s. 0 < s.room };

    ghost MayRefuse = { λ s. s.room ≡ 0 };

    ghost Puts = { λ s hash key weight t. t.post ≡ posted_or_lost s.post (key, weight) };

    ghost IsSame = { λ s t. t.post ≡ s.post };

    fn reserve_one(&mut self) -> Result<(), AllocError> {
        MailState::reserve_one(self)
    }

    fn put(&mut self, _hash: u64, key: K, weight: usize) {
        self.put_or_lose((key, weight));
    }
}
