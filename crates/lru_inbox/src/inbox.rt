//! A mailbox with its log.
ghost use Rattle.std.specs.Prelude.{◌≡◌, ◌+◌, ◌%◌, ◌^◌, ◌≤◌, false, [], ◌∷◌, ◌++◌, length, take, map, option_map, vec_len, vec_capacity, IfOk, IfErr, OnErr, IsSome, IfSome, is_some};
ghost use Rattle.std.specs.Option.{ForSome};
ghost use Rattle.lru_mailbox.specs.Mail.{empty, served, shut, left};
ghost use Rattle.lru_inbox.specs.Logs.{log, of_log, log_of, seen_of, taken_from};
ghost use Rattle.lru_inbox.specs.Inboxes.{IsInbox, messages_of, log_in, taken_in, Sends, PutsLetter, PutsEvict, Refuses};

use crate::caller::Caller;
use crate::taker::Taker;
use crate::tie::Archive;
use crate::told::Told;
use crate::voice::Voice;
use lru_actors::Letter;
use lru_actors::message::LruMsg;
use lru_mailbox::{MailError, MailState};
use std::alloc::{AllocError, Global};
use std::collections::VecDeque;

/// The letters that wait for the actor of a shard, and, where there is one, the log of all that were put.
#[derive(Drop)]
pub struct Inbox<K: Clone + Drop, B: Archive> {
    /// The number of the shard.
    pub shard: usize,
    /// The letters that wait, and counts of those that were taken or lost.
    pub state: MailState<Letter<K, Told<K, B>>>,
    /// Speaks for the log.
    pub log: Option<Voice<LruMsg<K>, B>>,
    pub ghost kept: { ForSome log (λ v. IsInbox shard state.post v.token.me) },
}

impl<K: Clone + Drop, B: Archive> Inbox<K, B> {
    /// An open one where nothing waits, with the empty log of a shard.
    pub fn new(alloc: Global, shard: usize, voice: Option<Voice<LruMsg<K>, B>>) -> Self
        requires { ForSome voice (λ v. v.token.me ≡ (of_log (log shard [] []), [])) }
        ensures shard { result.shard ≡ shard }
        ensures post { result.state.post ≡ empty }
        ensures log { result.log ≡ voice }
    {
        Inbox {
            shard,
            state: MailState::new(alloc),
            log: voice,
        }
    }

    /// Whether there is a log.
    pub fn is_logged(&self) -> bool
        ensures { result ≡ is_some self.now.log }
    {
        self.log.is_some()
    }

    /// One who sends messages, and has seen nothing; `None` where there is no log.
    pub fn caller(&mut self) -> Result<Option<Caller<K, B>>, AllocError>
        ensures none { IfOk result (λ caller. ForSome caller (λ c. c.voice.token.me.0.fronts ≡ [])) }
        ensures logged { IfOk result (λ caller. is_some caller ≡ is_some self.old.log) }
        ensures same { (self.new.shard ≡ self.old.shard) × (self.new.state ≡ self.old.state) × (log_in self.new.log ≡ log_in self.old.log) }
    {
        match &mut self.log {
            Some(log) => Ok(Some(Caller::new(log.fresh()?))),
            None => Ok(None),
        }
    }

    /// Puts a letter last. A closed mailbox refuses it, and else want of memory may, or that 18446744073709551615 were put; a
    /// refusal hands it back and changes nothing.
    pub fn push(
        &mut self,
        letter: Letter<K, Told<K, B>>,
    ) -> Result<(), MailError<Letter<K, Told<K, B>>>>
        ensures put { PutsLetter self.old.state (log_in self.old.log) letter result self.new.state (log_in self.new.log) }
        ensures shard { self.new.shard ≡ self.old.shard }
    {
        let Some(log) = &mut self.log else {
            return self.state.push(letter);
        };
        let letter = refusal(&mut self.state, letter)?;
        log.put(&letter.message);
        self.state.put_or_lose(letter);
        Ok(())
    }

    /// As `push`, and the caller has seen the log up to and with this message. It answers the message's number, from 1 up.
    pub fn send(
        &mut self,
        caller: &mut Caller<K, B>,
        letter: Letter<K, Told<K, B>>,
    ) -> Result<u64, MailError<Letter<K, Told<K, B>>>>
        requires { IsSome self.old.log }
        ensures sent { IfOk result (λ n. Sends self.old.shard letter.message caller.old.voice.token.me.0.fronts caller.new.voice.token.me.0.fronts) }
        ensures number { IfOk result (λ n. length (seen_of self.old.shard caller.new.voice.token.me.0.fronts) ≡ n) }
        ensures put { PutsLetter self.old.state (log_in self.old.log) letter result self.new.state (log_in self.new.log) }
        ensures same { OnErr result (caller.new ≡ caller.old) }
        ensures shard { self.new.shard ≡ self.old.shard }
    {
        let letter = refusal(&mut self.state, letter)?;
        match &mut self.log {
            Some(log) => log.send(&mut caller.voice, &letter.message),
            None => unreachable!(),
        }
        self.state.put_or_lose(letter);
        Ok(self.state.pushed())
    }

    /// Asks for one eviction, as `push` puts a letter. It is refused too while one that was asked for like this waits. A refusal
    /// changes nothing.
    pub fn push_evict(&mut self) -> Result<(), MailError<Letter<K, Told<K, B>>>>
        ensures put { PutsEvict self.old.state (log_in self.old.log) result self.new.state (log_in self.new.log) }
        ensures shard { self.new.shard ≡ self.old.shard }
    {
        let letter = Letter::new(LruMsg::Evict);
        if self.state.pushed() == u64::MAX && !self.state.is_closed() {
            return Err(MailError::Memory(letter));
        }
        self.state.push_evict(letter)?;
        if let Some(log) = &mut self.log {
            log.put(&LruMsg::Evict);
        }
        Ok(())
    }

    /// Moves the first letters into `into`, in order: `max` of them, or as many as wait, and answers how many. Who takes them has
    /// taken their messages, which are the next ones of the log. There has to be room for `max`, and it takes no memory.
    pub fn pop_many(
        &mut self,
        taker: &mut Taker<K, B>,
        max: usize,
        into: &mut Vec<Letter<K, Told<K, B>>>,
    ) -> usize
        requires shard { taker.old.shard ≡ self.old.shard }
        requires logged { is_some taker.old.voice ≡ is_some self.old.log }
        requires room { vec_len into.old + max ≤ vec_capacity into.old }
        ensures count { result ≡ length (take max self.old.state.post.waiting) }
        ensures moved { into.new.items ≡ into.old.items ++ take max self.old.state.post.waiting }
        ensures capacity { vec_capacity into.new ≡ vec_capacity into.old }
        ensures rest { self.new.state.post ≡ served max self.old.state.post }
        ensures log { log_in self.new.log ≡ option_map (λ l. taken_from l result) (log_in self.old.log) }
        ensures taken { taken_in taker.new.voice ≡ option_map (λ t. t ++ messages_of (take max self.old.state.post.waiting)) (taken_in taker.old.voice) }
        ensures counted { taker.new.count ≡ (taker.old.count + result) % 2 ^ 64 }
        ensures shards { (self.new.shard ≡ self.old.shard) × (taker.new.shard ≡ taker.old.shard) }
    {
        // Read for the proof alone, which learns from it that the numbers of all letters are below 2^64.
        let _put = self.state.pushed();
        let count = self.state.pop_many(max, into);
        taker.count = taker.count.wrapping_add(count as u64);
        let Some(log) = &mut self.log else {
            return count;
        };
        match &mut taker.voice {
            Some(voice) => log.take(voice, taker.shard, count),
            None => unreachable!(),
        }
        count
    }

    /// Closes the mailbox. What waits can still be taken.
    pub fn close(&mut self)
        ensures post { self.new.state.post ≡ shut self.old.state.post }
        ensures same { (self.new.shard ≡ self.old.shard) × (self.new.log ≡ self.old.log) }
    {
        self.state.close();
    }

    /// Closes the mailbox. What waits is lost, and handed back.
    pub fn leave(&mut self) -> VecDeque<Letter<K, Told<K, B>>>
        ensures post { self.new.state.post ≡ left self.old.state.post }
        ensures left { result.items ≡ self.old.state.post.waiting }
        ensures same { (self.new.shard ≡ self.old.shard) × (self.new.log ≡ self.old.log) }
    {
        self.state.leave()
    }
}

// Makes room for a letter in an open mailbox. It is refused where the mailbox is closed, for want of memory, or where all of
// 18446744073709551615 numbers were given.
fn refusal<K: Drop, T: Drop>(
    state: &mut MailState<Letter<K, T>>,
    letter: Letter<K, T>,
) -> Result<Letter<K, T>, MailError<Letter<K, T>>>
    ensures ok { IfOk result (λ l. (l ≡ letter) × (state.new.post.closed ≡ false) × (1 ≤ state.new.room) × (1 + state.old.post.pushed ≤ 18446744073709551615)) }
    ensures err { IfErr result (λ e. Refuses state.old letter e) }
    ensures same { state.new.post ≡ state.old.post }
{
    if state.is_closed() {
        return Err(MailError::Closed(letter));
    }
    if state.pushed() == u64::MAX || state.reserve_one().is_err() {
        return Err(MailError::Memory(letter));
    }
    Ok(letter)
}
