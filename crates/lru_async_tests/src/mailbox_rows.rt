//! A mailbox by its worked rows: the calls of each, with what they answer.
use lru_mailbox::{MailError, MailState};
use std::alloc::{AllocError, Global};
use std::test::Fail;

/// A call of the mailbox.
#[derive(Clone, Copy)]
enum Call {
    Push(u8),
    PushEvict(u8),
    Pop,
    PopMany(usize),
    /// After a `reserve_one`, which it wants.
    PutOrLose(u8),
    Close,
    Leave,
    Counts,
}

/// What a call answers.
#[derive(Clone, Copy, PartialEq, Eq)]
enum Answer {
    Put,
    /// The number of the refusal, and the message that it hands back.
    Refused(u8, u8),
    Taken(Option<u8>),
    /// How many messages, the first of them and the last.
    Many(usize, Option<u8>, Option<u8>),
    /// Whether the mailbox is closed.
    IsClosed(bool),
    /// Pushed, taken, lost, waiting.
    Are(u64, u64, u64, usize),
}

fn answer_of(pushed: Result<(), MailError<u8>>) -> Answer {
    let Err(refusal) = pushed else {
        return Answer::Put;
    };
    let number = refusal.number();
    let (MailError::Memory(held) | MailError::Closed(held) | MailError::Waiting(held)) = refusal;
    Answer::Refused(number, held)
}

fn counts(mail: &MailState<u8>) -> Answer {
    Answer::Are(mail.pushed(), mail.taken(), mail.lost(), mail.len())
}

fn serve(alloc: Global, mail: &mut MailState<u8>, call: Call) -> Result<Answer, AllocError> {
    Ok(match call {
        Call::Push(message) => answer_of(mail.push(message)),
        Call::PushEvict(message) => answer_of(mail.push_evict(message)),
        Call::Pop => Answer::Taken(mail.pop()),
        Call::PopMany(max) => {
            let mut into = Vec::with_capacity(alloc, max)?;
            let count = mail.pop_many(max, &mut into);
            Answer::Many(count, into.first().copied(), into.last().copied())
        }
        Call::PutOrLose(message) => {
            mail.reserve_one()?;
            mail.put_or_lose(message);
            Answer::Put
        }
        Call::Close => {
            mail.close();
            Answer::IsClosed(mail.is_closed())
        }
        Call::Leave => {
            let left = mail.leave();
            Answer::Many(left.len(), left.front().copied(), left.back().copied())
        }
        Call::Counts => counts(mail),
    })
}

// The place of the first call of a row that answers something else, if one does.
fn first_other(alloc: Global, row: &[(Call, Answer)]) -> Result<Option<usize>, AllocError> {
    let mut mail = MailState::new(alloc);
    for (place, (call, expected)) in row.iter().enumerate() {
        if serve(alloc, &mut mail, *call)? != *expected {
            return Ok(Some(place));
        }
    }
    Ok(None)
}

static REFUSES_A_SECOND_EVICT_AND_WHAT_COMES_LATE: [(Call, Answer); 8] = [
    (Call::Push(10), Answer::Put),
    (Call::PushEvict(20), Answer::Put),
    (Call::PushEvict(30), Answer::Refused(3, 30)),
    (Call::PopMany(64), Answer::Many(2, Some(10), Some(20))),
    (Call::PushEvict(40), Answer::Put),
    (Call::Leave, Answer::Many(1, Some(40), Some(40))),
    (Call::Push(50), Answer::Refused(2, 50)),
    (Call::Counts, Answer::Are(3, 2, 1, 0)),
];

static SERVES_WHAT_WAITS_ONCE_IT_IS_CLOSED: [(Call, Answer); 9] = [
    (Call::Push(1), Answer::Put),
    (Call::PushEvict(2), Answer::Put),
    (Call::Pop, Answer::Taken(Some(1))),
    (Call::PushEvict(3), Answer::Refused(3, 3)),
    (Call::Close, Answer::IsClosed(true)),
    (Call::PushEvict(4), Answer::Refused(2, 4)),
    (Call::Pop, Answer::Taken(Some(2))),
    (Call::Pop, Answer::Taken(None)),
    (Call::Counts, Answer::Are(2, 2, 0, 0)),
];

// What comes after `leave` is counted as lost; what comes before it waits.
static PUTS_OR_LOSES: [(Call, Answer); 4] = [
    (Call::PutOrLose(1), Answer::Put),
    (Call::Leave, Answer::Many(1, Some(1), Some(1))),
    (Call::PutOrLose(2), Answer::Put),
    (Call::Counts, Answer::Are(2, 0, 2, 0)),
];

fn others(alloc: Global) -> Result<[Option<usize>; 3], AllocError> {
    Ok([
        first_other(alloc, &REFUSES_A_SECOND_EVICT_AND_WHAT_COMES_LATE)?,
        first_other(alloc, &SERVES_WHAT_WAITS_ONCE_IT_IS_CLOSED)?,
        first_other(alloc, &PUTS_OR_LOSES)?,
    ])
}

#[test]
fn answers_as_in_the_rows(rt: HostRuntime) -> Result<(), Fail> {
    assert_eq!(rt; others(rt.alloc())?, [None; 3]);
    Ok(())
}

// Puts 0 to 19, each again where memory refuses it: whether each refusal hands back its message and changes nothing.
fn hands_back_each(mail: &mut MailState<u8>) -> bool {
    let mut well = true;
    for message in 0..20u8 {
        let before = counts(mail);
        let first = answer_of(mail.push(message));
        if first != Answer::Put {
            well = well && first == Answer::Refused(1, message) && counts(mail) == before;
            well = answer_of(mail.push(message)) == Answer::Put && well;
        }
    }
    well
}

fn waits_for_memory(alloc: Global) -> bool {
    let mut mail = MailState::new(alloc);
    let well = hands_back_each(&mut mail);
    well & (counts(&mail) == Answer::Are(20, 0, 0, 20)) & (mail.pop() == Some(0))
}

#[test]
fn pushes_again_after_want_of_memory(rt: HostRuntime) -> Result<(), Fail> {
    assert!(rt; waits_for_memory(rt.alloc()));
    Ok(())
}
