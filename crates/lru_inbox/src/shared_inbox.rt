//! A mailbox with its log that threads share.
ghost use Rattle.std.specs.Prelude.{◌≡◌, ◌+◌, ◌≤◌, [], length, vec_len, vec_capacity, IfOk, IfErr, OnErr, IsSome, is_some};
ghost use Rattle.std.specs.Option.{ForSome};
ghost use Rattle.std.specs.Sync.Mutex.{mutex_guard_value};
ghost use Rattle.lru_inbox.specs.Logs.{log, of_log, seen_of};
ghost use Rattle.lru_inbox.specs.Inboxes.{Sends, taken_in};
ghost use Rattle.lru_mailbox.specs.Sending.{HandsBack};
ghost use Rattle.lru_inbox.specs.Taking.{IsHandedBack, Takes};

use crate::tie::Archive;
use crate::voice::Voice;
use crate::{Caller, Inbox, Taker, Told};
use lru_actors::Letter;
use lru_actors::message::LruMsg;
use lru_mailbox::{MailError, Queued, Shared};
use std::alloc::{AllocError, Global};
use std::collections::VecDeque;
use std::sync::{MutexGuard, Wait};

// The inbox of a shard, as what threads put into and take from.
#[derive(Drop)]
struct Held<K: Clone + Drop, B: Archive> {
    inbox: Inbox<K, B>,
}

impl<K: Clone + Drop, B: Archive> Queued for Held<K, B> {
    ghost waits = { λ s. length s.inbox.state.post.waiting };

    ghost shut = { λ s. s.inbox.state.post.closed };

    fn waiting(&self) -> usize {
        self.inbox.state.len()
    }

    fn is_shut(&self) -> bool {
        self.inbox.state.is_closed()
    }
}

/// The letters that wait for the actor of a shard, first come first served, and the log of all that were put: an `Inbox`
/// behind a lock. Who takes letters waits while it is open and none is there.
///
/// No type says which lock has which shard, so its number is looked at under each lock; the first one is the right one.
#[derive(Drop)]
pub struct SharedInbox<K: Clone + Drop, B: Archive> {
    shared: Shared<Held<K, B>>,
}

impl<K: Clone + Drop, B: Archive> SharedInbox<K, B> {
    /// An open one where nothing waits, with the empty log of a shard.
    pub fn new(alloc: Global, shard: usize, voice: Option<Voice<LruMsg<K>, B>>) -> Self
        requires { ForSome voice (λ v. v.token.me ≡ (of_log (log shard [] []), [])) }
    {
        SharedInbox {
            shared: Shared::new(Held {
                inbox: Inbox::new(alloc, shard, voice),
            }),
        }
    }

    /// The mailbox, which nobody else holds.
    pub fn into_inner(self) -> Inbox<K, B> {
        let SharedInbox { shared } = self;
        let Held { inbox } = shared.into_inner();
        inbox
    }

    // Lends that of this shard, which has a log.
    fn lock_of(&self, rt: &impl Wait, shard: usize) -> MutexGuard<'_, Held<K, B>>
        ensures shard { (mutex_guard_value result).inbox.shard ≡ shard }
        ensures logged { IsSome (mutex_guard_value result).inbox.log }
    {
        for _ in rt.forever() {
            let held = self.shared.lock(rt);
            if held.inbox.shard == shard && held.inbox.is_logged() {
                return held;
            }
        }
        unreachable!()
    }

    /// One who sends messages, and has seen nothing; `None` where there is no log.
    pub fn caller(&self, rt: &impl Wait) -> Result<Option<Caller<K, B>>, AllocError>
        ensures { IfOk result (λ caller. ForSome caller (λ c. c.voice.token.me.0.fronts ≡ [])) }
    {
        self.shared.lock(rt).inbox.caller()
    }

    /// Puts a letter last. A closed one refuses it, and else want of memory may, or that 18446744073709551615 were put; a refusal
    /// hands it back and changes nothing.
    pub fn push(
        &self,
        rt: &impl Wait,
        letter: Letter<K, Told<K, B>>,
    ) -> Result<(), MailError<Letter<K, Told<K, B>>>>
        ensures { HandsBack letter result }
    {
        let mut held = self.shared.lock(rt);
        let waited = held.waiting();
        let put = held.inbox.push(letter);
        self.shared.let_go(held, waited);
        put
    }

    /// As `push` into that of this shard, by one who has then seen the log up to and with this message. It answers the message's
    /// number in the log, from 1 up.
    pub fn send(
        &self,
        rt: &impl Wait,
        shard: usize,
        caller: &mut Caller<K, B>,
        letter: Letter<K, Told<K, B>>,
    ) -> Result<u64, MailError<Letter<K, Told<K, B>>>>
        ensures sent { IfOk result (λ n. Sends shard letter.message caller.old.voice.token.me.0.fronts caller.new.voice.token.me.0.fronts) }
        ensures number { IfOk result (λ n. length (seen_of shard caller.new.voice.token.me.0.fronts) ≡ n) }
        ensures back { IfErr result (IsHandedBack letter) }
        ensures refused { OnErr result (caller.new ≡ caller.old) }
    {
        let mut held = self.lock_of(rt, shard);
        let waited = held.waiting();
        let sent = held.inbox.send(caller, letter);
        self.shared.let_go(held, waited);
        sent
    }

    /// Asks for one eviction. It is refused too while one that was asked for like this waits.
    pub fn push_evict(&self, rt: &impl Wait) -> Result<(), MailError<()>> {
        let mut held = self.shared.lock(rt);
        let waited = held.waiting();
        let put = held.inbox.push_evict();
        self.shared.let_go(held, waited);
        match put {
            Ok(()) => Ok(()),
            Err(MailError::Memory(_)) => Err(MailError::Memory(())),
            Err(MailError::Closed(_)) => Err(MailError::Closed(())),
            Err(MailError::Waiting(_)) => Err(MailError::Waiting(())),
        }
    }

    /// Moves the first letters into `into`, in order: `max` of them, or as many as are there, and answers how many. It waits while
    /// it is open and empty; 0 once it is closed and empty. There has to be room for `max`, and it takes no memory. Who takes
    /// them has taken their messages, which are the next ones of the log.
    pub fn pop_many(
        &self,
        rt: &impl Wait,
        taker: &mut Taker<K, B>,
        max: usize,
        into: &mut Vec<Letter<K, Told<K, B>>>,
    ) -> usize
        requires room { vec_len into.old + max ≤ vec_capacity into.old }
        ensures most { result ≤ max }
        ensures takes { Takes into.old.items (taken_in taker.old.voice) result into.new.items (taken_in taker.new.voice) }
        ensures room { vec_capacity into.new ≡ vec_capacity into.old }
        ensures shard { taker.new.shard ≡ taker.old.shard }
    {
        let mut held = self.lock_some_of(rt, taker.shard, taker.is_logged());
        let count = held.inbox.pop_many(taker, max, into);
        self.shared.pass_on(held);
        count
    }

    // Lends that of this shard, with a log or without one, once something is there or nothing may come.
    fn lock_some_of(&self, rt: &impl Wait, shard: usize, logged: bool) -> MutexGuard<'_, Held<K, B>>
        ensures shard { (mutex_guard_value result).inbox.shard ≡ shard }
        ensures logged { is_some (mutex_guard_value result).inbox.log ≡ logged }
    {
        for _ in rt.forever() {
            let held = self.shared.lock_some(rt);
            if held.inbox.shard == shard && held.inbox.is_logged() == logged {
                return held;
            }
        }
        unreachable!()
    }

    /// Closes it. What waits can still be taken.
    pub fn close(&self, rt: &impl Wait) {
        self.shared.lock(rt).inbox.close();
        self.shared.wake_all();
    }

    /// Closes it. What waits is lost, and handed back.
    pub fn leave(&self, rt: &impl Wait) -> VecDeque<Letter<K, Told<K, B>>> {
        let left = self.shared.lock(rt).inbox.leave();
        self.shared.wake_all();
        left
    }

    /// How many letters wait.
    pub fn len(&self, rt: &impl Wait) -> usize {
        self.shared.lock(rt).inbox.state.len()
    }

    /// How many letters were put, and how many of those are lost, both modulo 2^64.
    pub fn put_and_lost(&self, rt: &impl Wait) -> (u64, u64) {
        let held = self.shared.lock(rt);
        (held.inbox.state.pushed(), held.inbox.state.lost())
    }
}
