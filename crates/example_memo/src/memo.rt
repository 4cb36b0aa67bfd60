//! Answers that are worked out once, as long as a cache keeps them.
//!
//! What is promised rests on what `Cache` promises: an entry that comes out has its own key's value, and the cache is never over
//! its limits. No clause here speaks of lists, places or hashes.
ghost use Rattle.std.specs.Prelude.{◌≡◌, ℕ, ◌≤◌, length, map, IfOk};

use lru_owned_cache::cache::Cache;
use std::alloc::{AllocError, Global};
use std::marker::Model;

/// Work that takes long, and whose outcome depends on the key alone.
pub trait Work {
    // what comes of a key
    ghost outcome: { ℕ → ℕ };

    /// Does the work for a key.
    fn work_out(&self, key: u64) -> u64
        ensures { result ≡ outcome key };
}

/// The answers to what was asked last, at most so many.
#[derive(Drop)]
pub struct Memo<W: Work> {
    work: W,
    answers: Cache<u64, u64>,
}

impl<W: Work> Model for Memo<W> {
    ghost use Rattle.example_memo.specs.Answers.{Answers, AreRight};

    ghost Value = { Answers };

    ghost view = { λ m. record { kept = m.answers.entries; most = m.answers.most_entries } };

    ghost invariant = { λ m. AreRight W.outcome m.answers.entries };
}

impl<W: Work + Drop> Memo<W> {
    /// No answers yet, and a place for `most`.
    ///
    /// # Errors
    ///
    /// There is no memory.
    pub fn new(alloc: Global, work: W, most: usize) -> Result<Self, AllocError>
        ensures { IfOk result (λ memo. memo.most ≡ most) }
    {
        Ok(Memo {
            work,
            answers: Cache::new(alloc, usize::MAX, most)?,
        })
    }

    /// How many answers are kept.
    pub fn len(&self) -> usize
        ensures kept { result ≡ length self.now.kept }
        ensures budget { result ≤ self.now.most }
    {
        self.answers.len()
    }

    /// What comes of a key. The work is done only where the answer is not kept; then it is, in place of the one that was asked
    /// for longest ago. Where there is no memory for it, it is answered all the same.
    pub fn ask(&mut self, key: u64) -> u64
        ensures answer { result ≡ W.outcome key }
        ensures most { self.new.most ≡ self.old.most }
    {
        if let Some(answer) = self.answers.update(&key, |answer, _weight| *answer) {
            return answer;
        }
        let answer = self.work.work_out(key);
        let _ = self.answers.put(key, answer, 1, |_forgotten| {});
        answer
    }

    /// What comes of each of these keys, in their order, however many of them are asked for again.
    ///
    /// # Errors
    ///
    /// There is no memory for the list.
    pub fn ask_all(&mut self, alloc: Global, keys: &[u64]) -> Result<Vec<u64>, AllocError>
        ensures answers { IfOk result (λ answers. answers.items ≡ map W.outcome keys.now) }
        ensures most { self.new.most ≡ self.old.most }
    {
        let mut answers = Vec::with_capacity(alloc, keys.len())?;
        for key in keys {
            answers.push(self.ask(*key))?;
        }
        Ok(answers)
    }
}
