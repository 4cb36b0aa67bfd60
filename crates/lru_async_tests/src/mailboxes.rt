//! A mailbox by its worked row, and by two threads.
use lru_mailbox::{MailError, Mailbox};
use std::alloc::Global;
use std::sync::Wait;
use std::test::Fail;
use std::thread;
use std::thread::Threads;

// What a refusal hands back, with its number.
fn refused(answer: Result<(), MailError<u8>>) -> Option<(u8, u8)> {
    let Err(refusal) = answer else {
        return None;
    };
    let number = refusal.number();
    let (MailError::Memory(held) | MailError::Closed(held) | MailError::Waiting(held)) = refusal;
    Some((number, held))
}

// What the pushes of the row answer, and how many were taken between them.
fn row<R: Wait>(
    rt: &R,
    mailbox: &Mailbox<u8>,
    alloc: Global,
) -> Result<([Option<(u8, u8)>; 5], usize), Fail> {
    let first = refused(mailbox.push(rt, 10));
    let second = refused(mailbox.push_evict(rt, 20));
    let third = refused(mailbox.push_evict(rt, 30));
    let mut taken = Vec::with_capacity(alloc, 64)?;
    let count = mailbox.pop_many(rt, 64, &mut taken);
    let fourth = refused(mailbox.push_evict(rt, 40));
    let _left = mailbox.leave(rt);
    let fifth = refused(mailbox.push(rt, 50));
    Ok(([first, second, third, fourth, fifth], count))
}

// How many were pushed, taken and lost, and how many wait.
fn counts<R: Wait>(rt: &R, mailbox: &Mailbox<u8>) -> ([u64; 3], usize) {
    let state = mailbox.lend(rt);
    ([state.pushed(), state.taken(), state.lost()], state.len())
}

// Whether the row answers and leaves what it should.
fn is_row<R: Wait>(rt: &R, alloc: Global) -> Result<bool, Fail> {
    let mailbox = Mailbox::new(alloc);
    let (answers, count) = row(rt, &mailbox, alloc)?;
    let are_answered = answers == [None, None, Some((3, 30)), None, Some((2, 50))];
    Ok(are_answered & (count == 2) & (counts(rt, &mailbox) == ([3, 2, 1], 0)))
}

#[test]
fn refuses_a_second_evict_and_what_comes_late(rt: HostRuntime) -> Result<(), Fail> {
    assert!(rt; is_row(&rt, rt.alloc())?);
    Ok(())
}

// One thread waits while another puts, and then while another closes.
fn across<R: Threads + Wait + Sync>(rt: &R, alloc: Global) -> (Option<u8>, Option<u8>) {
    let mailbox = Mailbox::new(alloc);
    let (first, _) = thread::join(rt, || mailbox.pop(rt), || mailbox.push(rt, 5).is_ok());
    let (second, ()) = thread::join(rt, || mailbox.pop(rt), || mailbox.close(rt));
    (first, second)
}

#[test]
fn wakes_who_waits(rt: HostRuntime) {
    assert_eq!(rt; across(&rt, rt.alloc()), (Some(5), None));
}
