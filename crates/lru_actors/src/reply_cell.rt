//! A place for one reply.
ghost use Rattle.std.specs.Prelude.{◌≡◌};
ghost use Rattle.lru_actors.specs.Answering.{decided, given_in, waits};

use std::mem;
use std::sync::{Condvar, Mutex, Wait};

#[derive(Debug, Drop)]
enum Answer<T> {
    Waiting,
    Given(T),
    Left,
}

// Fills an answer that waits. One that is filled stays.
fn decide<T: Drop>(answer: &mut Answer<T>, with: Answer<T>)
    ensures { answer.new ≡ decided answer.old with }
{
    if matches!(*answer, Answer::Waiting) {
        *answer = with;
    }
}

// Takes the reply that was given, if one is there. There is none afterwards.
fn take_given<T: Drop>(answer: &mut Answer<T>) -> Option<T>
    ensures reply { result ≡ given_in answer.old }
    ensures left { answer.new ≡ Answer.Left }
{
    match mem::replace(answer, Answer::Left) {
        Answer::Given(reply) => Some(reply),
        _ => None,
    }
}

// Whether no reply was given yet, and one may come.
fn is_waiting<T>(answer: &Answer<T>) -> bool
    ensures { result ≡ waits answer.now }
{
    matches!(answer, Answer::Waiting)
}

/// A place for one reply, shared by the one who asks and the one who answers. The first to fill it decides; who comes
/// later changes nothing. Filling it takes no memory.
#[derive(Drop)]
pub struct ReplyCell<T> {
    answer: Mutex<Answer<T>>,
    filled: Condvar,
}

impl<T: Drop> ReplyCell<T> {
    /// A cell that waits for its reply.
    pub fn new() -> Self {
        ReplyCell {
            answer: Mutex::new(Answer::Waiting),
            filled: Condvar::new(),
        }
    }

    /// Gives the reply, and wakes who waits for it.
    pub fn give(&self, rt: &impl Wait, reply: T) {
        self.fill(rt, Answer::Given(reply));
    }

    /// Says that there will be no reply, since the message was left behind.
    pub fn leave(&self, rt: &impl Wait) {
        self.fill(rt, Answer::Left);
    }

    fn fill(&self, rt: &impl Wait, with: Answer<T>) {
        decide(&mut *self.answer.lock(rt), with);
        self.filled.notify_all();
    }

    /// Waits until the cell is filled, and takes the reply; `None` where the message was left behind, or where the
    /// reply was taken before.
    pub fn take(&self, rt: &impl Wait) -> Option<T> {
        let answer = self.answer.lock(rt);
        let mut answer = self
            .filled
            .wait_while(rt, answer, |answer| is_waiting(answer));
        take_given(&mut *answer)
    }
}
