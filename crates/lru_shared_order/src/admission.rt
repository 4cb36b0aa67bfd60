//! One admission of a batch.
ghost use Rattle.std.specs.Prelude.{◌≡◌, ◌%◌, ◌<◌};
ghost use Rattle.lru_shared_order.specs.Batches.{waiting, home_of, waits_for};

use lru_shard::unit::Refused;

/// What became of the data of an admission.
#[derive(Debug, Drop)]
pub enum Fate<T> {
    /// They are still to be admitted.
    Waiting(T),
    /// They stand in a row of the shard of this number.
    Admitted(usize),
    /// They were refused, and are handed back.
    HandedBack(Refused<T>),
}

/// One admission of a batch. Whoever made it reads its answer here.
#[derive(Debug, Drop)]
pub struct Admission<T> {
    /// The key of the row.
    pub key: u64,
    /// What the row is to weigh; 0 counts as 1.
    pub weight: usize,
    /// What became of its data.
    pub fate: Fate<T>,
}

impl<T> Admission<T> {
    /// One that is still to be admitted.
    pub fn new(key: u64, data: T, weight: usize) -> Self
        ensures { result ≡ waiting key «data» weight }
    {
        Admission {
            key,
            weight,
            fate: Fate::Waiting(data),
        }
    }

    /// The shard that it waits for, of N; `None` once it is answered.
    pub fn home<const N: usize>(&self) -> Option<usize>
        requires { 0 < N }
        ensures { result ≡ home_of N self.now }
    {
        match &self.fate {
            Fate::Waiting(_) => Some((self.key % N as u64) as usize),
            _ => None,
        }
    }

    /// Whether it waits for this shard of N.
    pub fn waits_for<const N: usize>(&self, shard: usize) -> bool
        requires { 0 < N }
        ensures { result ≡ waits_for N shard self.now }
    {
        match &self.fate {
            Fate::Waiting(_) => self.key % N as u64 == shard as u64,
            _ => false,
        }
    }
}
