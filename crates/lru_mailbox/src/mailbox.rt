//! A mailbox that threads share.
ghost use Rattle.std.specs.Prelude.{◌≡◌, ◌+◌, ◌≤◌, vec_len, vec_capacity};
ghost use Rattle.lru_mailbox.specs.Sending.{HandsBack, HandsBackEvict, Gains, MayWait};

use crate::shared::Shared;
use crate::{MailError, MailState};
use std::alloc::Global;
use std::collections::VecDeque;
use std::sync::{MutexGuard, Wait};

/// Messages that threads put and take, first come first served: a `MailState` behind a lock.
///
/// Each call takes the lock, does what the call of that name does to the state, and lets go. Those that take messages wait
/// while the mailbox is open and none is there.
#[derive(Drop)]
pub struct Mailbox<M> {
    shared: Shared<MailState<M>>,
}

impl<M> Mailbox<M> {
    /// An open mailbox where nothing waits.
    pub fn new(alloc: Global) -> Self {
        Mailbox {
            shared: Shared::new(MailState::new(alloc)),
        }
    }

    /// Puts a message last. A closed mailbox refuses it, and else want of memory may; a refusal hands it back and changes
    /// nothing.
    pub fn push(&self, rt: &impl Wait, message: M) -> Result<(), MailError<M>>
        ensures { HandsBack message result }
    {
        let mut state = self.shared.lock(rt);
        let waited = state.len();
        let pushed = state.push(message);
        self.shared.let_go(state, waited);
        pushed
    }

    /// As `push`, where it is refused too while one message that was put by this call waits.
    pub fn push_evict(&self, rt: &impl Wait, message: M) -> Result<(), MailError<M>>
        ensures { HandsBackEvict message result }
    {
        let mut state = self.shared.lock(rt);
        let waited = state.len();
        let pushed = state.push_evict(message);
        self.shared.let_go(state, waited);
        pushed
    }

    /// Takes the first message. It waits while the mailbox is open and empty; `None` once it is closed and empty.
    pub fn pop(&self, rt: &impl Wait) -> Option<M> {
        let mut state = self.shared.lock_some(rt);
        let popped = state.pop();
        self.shared.pass_on(state);
        popped
    }

    /// Moves the first messages into `into`, in order: `max` of them, or as many as are there, and answers how many. It
    /// waits while the mailbox is open and empty; 0 once it is closed and empty. There has to be room for `max`, and it
    /// takes no memory.
    pub fn pop_many(&self, rt: &impl Wait, max: usize, into: &mut Vec<M>) -> usize
        requires { vec_len into.old + max ≤ vec_capacity into.old }
        ensures most { result ≤ max }
        ensures gains { Gains into.old.items result into.new.items }
        ensures room { vec_capacity into.new ≡ vec_capacity into.old }
    {
        let mut state = self.shared.lock_some(rt);
        let count = state.pop_many(max, into);
        self.shared.pass_on(state);
        count
    }

    /// Closes the mailbox. What waits can still be taken.
    pub fn close(&self, rt: &impl Wait) {
        self.shared.lock(rt).close();
        self.shared.wake_all();
    }

    /// Closes the mailbox. What waits is lost, and handed back.
    pub fn leave(&self, rt: &impl Wait) -> VecDeque<M> {
        let left = self.shared.lock(rt).leave();
        self.shared.wake_all();
        left
    }

    /// How many messages wait.
    pub fn len(&self, rt: &impl Wait) -> usize
        ensures { MayWait M result }
    {
        self.shared.lock(rt).len()
    }

    /// Lends the state, with its counts, until the guard is dropped. Who puts messages into it calls `wake` afterwards.
    pub fn lend<R: Wait>(&self, rt: &R) -> MutexGuard<'_, MailState<M>> {
        self.shared.lock(rt)
    }

    /// Wakes all who wait for a message.
    pub fn wake(&self) {
        self.shared.wake_all();
    }
}
