//! Why a mailbox refuses, and how many messages are taken at once.
use lru_mailbox::{MailError, Mailbox};
use std::alloc::Global;
use std::sync::Wait;
use std::test::Fail;

// The number of a refusal and what it hands back.
fn refused(answer: Result<(), MailError<u8>>) -> Option<(u8, u8)> {
    match answer {
        Ok(()) => None,
        Err(MailError::Memory(held)) => Some((1, held)),
        Err(MailError::Closed(held)) => Some((2, held)),
        Err(MailError::Waiting(held)) => Some((3, held)),
    }
}

// Whether an open mailbox took a message, or refused it for want of memory and handed it back.
fn is_fair(answer: Result<(), MailError<u8>>, message: u8) -> bool {
    match refused(answer) {
        None => true,
        Some(refusal) => refusal == (1, message),
    }
}

// How many of 100 pushes an open mailbox answered otherwise.
fn unfair<R: Wait>(rt: &R, mailbox: &Mailbox<u8>) -> u8 {
    let mut unfair = 0u8;
    for message in 0..100 {
        if !is_fair(mailbox.push(rt, message), message) {
            unfair = unfair.wrapping_add(1);
        }
    }
    unfair
}

// With memory to be had this says little; `rt try --test --fail-alloc N` refuses each request in turn.
fn is_open_fair<R: Wait>(rt: &R, alloc: Global) -> bool {
    let mailbox = Mailbox::new(alloc);
    (unfair(rt, &mailbox) == 0) & is_fair(mailbox.push_evict(rt, 7), 7)
}

#[test]
fn open_mailbox_refuses_for_want_of_memory_alone(rt: HostRuntime) {
    assert!(rt; is_open_fair(&rt, rt.alloc()));
}

// What a closed mailbox answers, in which one message waits.
fn closed<R: Wait>(rt: &R, mailbox: &Mailbox<u8>) -> [Option<(u8, u8)>; 2] {
    mailbox.close(rt);
    [
        refused(mailbox.push(rt, 5)),
        refused(mailbox.push_evict(rt, 6)),
    ]
}

// What it answers, and what is taken from it then.
fn closed_and_emptied<R: Wait>(rt: &R, alloc: Global) -> ([Option<(u8, u8)>; 2], [Option<u8>; 2]) {
    let mailbox = Mailbox::new(alloc);
    let _first = mailbox.push(rt, 4);
    let answers = closed(rt, &mailbox);
    (answers, [mailbox.pop(rt), mailbox.pop(rt)])
}

#[test]
fn closed_mailbox_refuses_as_closed(rt: HostRuntime) {
    let wanted = ([Some((2, 5)), Some((2, 6))], [Some(4), None]);
    assert_eq!(rt; closed_and_emptied(&rt, rt.alloc()), wanted);
}

// How many messages are taken at once, and the last of them.
fn taken_at_once<R: Wait>(
    rt: &R,
    mailbox: &Mailbox<u8>,
    alloc: Global,
) -> Result<(usize, Option<u8>), Fail> {
    let mut taken = Vec::with_capacity(alloc, 64)?;
    let count = mailbox.pop_many(rt, 64, &mut taken);
    Ok((count, taken.pop()))
}

// A mailbox with 70 messages.
fn filled<R: Wait>(rt: &R, alloc: Global) -> Mailbox<u8> {
    let mailbox = Mailbox::new(alloc);
    for message in 0..70 {
        let _pushed = mailbox.push(rt, message);
    }
    mailbox
}

// What is taken of 70 messages at once, and then of the rest.
fn taken_twice<R: Wait>(rt: &R, alloc: Global) -> Result<[(usize, Option<u8>); 2], Fail> {
    let mailbox = filled(rt, alloc);
    let first = taken_at_once(rt, &mailbox, alloc)?;
    Ok([first, taken_at_once(rt, &mailbox, alloc)?])
}

#[test]
fn takes_as_many_as_are_asked_for(rt: HostRuntime) -> Result<(), Fail> {
    assert_eq!(rt;
        taken_twice(&rt, rt.alloc())?,
        [(64, Some(63)), (6, Some(69))]
    );
    Ok(())
}
