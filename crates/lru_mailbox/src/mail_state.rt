//! The state of a mailbox.
ghost use Rattle.std.specs.Prelude.{◌≡◌, ◌+◌, ◌++◌, ◌<◌, ◌≤◌, take, drop, vec_len, vec_capacity};
ghost use Rattle.std.specs.VecDeque.{deque_len};
ghost use Rattle.lru_mailbox.specs.Mail.{moved_up};

use crate::mail_error::MailError;
use std::alloc::{AllocError, Global};
use std::collections::VecDeque;
use std::marker::Model;
use std::mem;

/// Messages that wait, and counts of all that were put: each was taken, is lost, or waits. Counts begin
/// again at 2^64.
///
/// A closed mailbox takes no message, and stays closed.
#[derive(Drop)]
pub struct MailState<M> {
    waiting: VecDeque<M>,
    // How many wait before the message of `push_evict` that waits.
    evict: Option<usize>,
    closed: bool,
    pushed: u64,
    taken: u64,
    lost: u64,
}

impl<M> Model for MailState<M> {
    ghost use Rattle.std.specs.Prelude.{◌-◌};
    ghost use Rattle.std.specs.VecDeque.{deque_len, deque_capacity};
    ghost use Rattle.lru_mailbox.specs.Mail.{Mail, post_of, mail_of, mail_code, IsPost};

    ghost Value = { Mail M };

    ghost coded = { mail_code M.code };

    ghost view = { λ s. mail_of (post_of s.waiting.items s.evict s.closed s.pushed s.taken s.lost) (deque_capacity s.waiting - deque_len s.waiting) };

    ghost invariant = { λ s. IsPost (post_of s.waiting.items s.evict s.closed s.pushed s.taken s.lost) };
}

impl<M> MailState<M> {
    ghost use Rattle.std.specs.Prelude.{length, take, false, option_to_list, IsOk, IsErr};
    ghost use Rattle.lru_mailbox.specs.Mail.{empty, posted, served, shut, left, posted_or_lost, Pushes, PushesEvict, IsPost};

    /// An open mailbox where nothing waits.
    pub fn new(alloc: Global) -> Self
        ensures { result.post ≡ empty }
    {
        MailState {
            waiting: VecDeque::new(alloc),
            evict: None,
            closed: false,
            pushed: 0,
            taken: 0,
            lost: 0,
        }
    }

    /// How many messages wait.
    pub fn len(&self) -> usize
        ensures value { result ≡ length self.now.post.waiting }
        ensures valid { IsPost self.now.post }
    {
        self.waiting.len()
    }

    /// Whether no message is put any more.
    pub fn is_closed(&self) -> bool
        ensures { result ≡ self.now.post.closed }
    {
        self.closed
    }

    /// How many messages were put, modulo 2^64.
    pub fn pushed(&self) -> u64
        ensures { result ≡ self.now.post.pushed }
    {
        self.pushed
    }

    /// How many messages were taken, modulo 2^64.
    pub fn taken(&self) -> u64
        ensures { result ≡ self.now.post.taken }
    {
        self.taken
    }

    /// How many messages are lost, modulo 2^64.
    pub fn lost(&self) -> u64
        ensures { result ≡ self.now.post.lost }
    {
        self.lost
    }

    /// Puts a message last. A closed mailbox refuses it, and else want of memory may; a refusal hands it
    /// back and changes nothing.
    pub fn push(&mut self, message: M) -> Result<(), MailError<M>>
        ensures { Pushes self.old message result self.new }
    {
        if self.closed {
            return Err(MailError::Closed(message));
        }
        self.put_last(message)
    }

    /// As `push`, where it is refused too while one message that was put by this call waits.
    pub fn push_evict(&mut self, message: M) -> Result<(), MailError<M>>
        ensures { PushesEvict self.old message result self.new }
    {
        if self.closed {
            return Err(MailError::Closed(message));
        }
        if self.evict.is_some() {
            return Err(MailError::Waiting(message));
        }
        let place = self.waiting.len();
        if let Err(refused) = self.put_last(message) {
            return Err(refused);
        }
        self.evict = Some(place);
        Ok(())
    }

    // Puts a message last in an open mailbox.
    fn put_last(&mut self, message: M) -> Result<(), MailError<M>>
        requires { self.old.post.closed ≡ false }
        ensures { Pushes self.old message result self.new }
    {
        if let Err(refused) = self.waiting.push_back(message) {
            return Err(MailError::Memory(refused.value));
        }
        self.pushed = self.pushed.wrapping_add(1);
        Ok(())
    }

    /// Takes the first message, if one waits. It takes no memory.
    pub fn pop(&mut self) -> Option<M>
        ensures answer { option_to_list result ≡ take 1 self.old.post.waiting }
        ensures rest { self.new.post ≡ served 1 self.old.post }
    {
        let first = self.waiting.pop_front()?;
        self.evict = moved_up(self.evict, 1);
        self.taken = self.taken.wrapping_add(1);
        Some(first)
    }

    /// Moves the first messages into `into`, in order: `max` of them, or as many as wait, and answers how
    /// many. There has to be room for `max`, and it takes no memory.
    pub fn pop_many(&mut self, max: usize, into: &mut Vec<M>) -> usize
        requires { vec_len into.old + max ≤ vec_capacity into.old }
        ensures count { result ≡ length (take max self.old.post.waiting) }
        ensures moved { into.new.items ≡ into.old.items ++ take max self.old.post.waiting }
        ensures room { vec_capacity into.new ≡ vec_capacity into.old }
        ensures rest { self.new.post ≡ served max self.old.post }
    {
        let count = max.min(self.waiting.len());
        move_first(&mut self.waiting, count, into);
        self.evict = moved_up(self.evict, count);
        self.taken = self.taken.wrapping_add(count as u64);
        count
    }

    /// Closes the mailbox. What waits can still be taken. It takes no memory.
    pub fn close(&mut self)
        ensures { self.new.post ≡ shut self.old.post }
    {
        self.closed = true;
    }

    /// Closes the mailbox. What waits is lost, and handed back. It takes no memory.
    pub fn leave(&mut self) -> VecDeque<M>
        ensures lost { result.items ≡ self.old.post.waiting }
        ensures rest { self.new.post ≡ left self.old.post }
    {
        self.close();
        self.evict = None;
        self.lost = self.lost.wrapping_add(self.waiting.len() as u64);
        let alloc = *self.waiting.allocator();
        mem::replace(&mut self.waiting, VecDeque::new(alloc))
    }

    /// Makes room for one more message. Nothing else changes, also where memory refuses it.
    pub fn reserve_one(&mut self) -> Result<(), AllocError>
        ensures same { self.new.post ≡ self.old.post }
        ensures room { IsOk result → 0 < self.new.room }
        ensures refused { IsErr result → self.old.room ≡ 0 }
    {
        self.waiting.reserve(1)
    }

    /// Puts a message last, or where the mailbox is closed counts it as put and lost. It takes no memory.
    /// There has to be room, as a `reserve_one` before it makes.
    pub fn put_or_lose(&mut self, message: M)
    where
        M: Drop,
        requires { 0 < self.old.room }
        ensures { self.new.post ≡ posted_or_lost self.old.post message }
    {
        self.pushed = self.pushed.wrapping_add(1);
        if self.closed {
            self.lost = self.lost.wrapping_add(1);
        } else {
            self.waiting.push_back_reserved(message);
        }
    }
}

// The place of one that waits, after the first `count` have left.
fn moved_up(place: Option<usize>, count: usize) -> Option<usize>
    ensures { result ≡ moved_up count place }
{
    match place {
        Some(place) if place >= count => Some(place - count),
        _ => None,
    }
}

// Moves the first `count` items of a queue to the end of a vector that has room for them.
fn move_first<M>(from: &mut VecDeque<M>, count: usize, into: &mut Vec<M>)
    requires there { count ≤ deque_len from.old }
    requires room { vec_len into.old + count ≤ vec_capacity into.old }
    ensures moved { into.new.items ≡ into.old.items ++ take count from.old.items }
    ensures rest { from.new.items ≡ drop count from.old.items }
    ensures capacity { vec_capacity into.new ≡ vec_capacity into.old }
{
    for _ in 0..count {
        let Some(first) = from.pop_front() else {
            unreachable!()
        };
        into.push_reserved(first);
    }
}
