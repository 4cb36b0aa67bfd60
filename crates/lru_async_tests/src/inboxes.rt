//! Mailboxes with their logs, as threads share them.

use lru_actors::Letter;
use lru_actors::message::LruMsg;
use lru_inbox::SharedInbox;
use std::alloc::Global;
use std::marker::Brand;
use std::sync::Wait;
use std::test::Fail;

// Puts so many messages. How many wait then.
fn put_many<R: Wait>(rt: &R, inbox: &SharedInbox<u64, Brand>, count: u64) -> Option<usize> {
    for hash in 0..count {
        let letter = Letter::new(LruMsg::Promote { hash });
        if inbox.push(rt, letter).is_err() {
            return None;
        }
    }
    Some(inbox.len(rt))
}

#[test]
fn a_push_beside_many_waits_too(rt: HostRuntime) -> Result<(), Fail> {
    let alloc: Global = rt.alloc();
    let inbox = SharedInbox::<u64, Brand>::new(alloc, 0, None);
    assert_eq!(rt; put_many(&rt, &inbox, 10_000), Some(10_000));
    Ok(())
}

#[test]
fn letters_left_behind_are_handed_back(rt: HostRuntime) -> Result<(), Fail> {
    let alloc: Global = rt.alloc();
    let inbox = SharedInbox::<u64, Brand>::new(alloc, 0, None);
    let put = put_many(&rt, &inbox, 3);
    let left = inbox.leave(&rt);
    let same = left.iter().enumerate().all(|(
        place,
        letter,
    )| matches!(letter.message, LruMsg::Promote { hash } if hash == place as u64));
    assert_eq!(rt; (put, left.len(), same), (Some(3), 3, true));
    assert_eq!(rt; (inbox.len(&rt), inbox.put_and_lost(&rt)), (0, (3, 3)));
    Ok(())
}

// Why requests for evictions are refused: a second one beside one that waits, and one that comes after a close.
fn requests<R: Wait>(rt: &R, alloc: Global) -> [u8; 3] {
    let inbox = SharedInbox::<u64, Brand>::new(alloc, 0, None);
    let first = inbox.push_evict(rt);
    let second = inbox.push_evict(rt);
    inbox.close(rt);
    [first, second, inbox.push_evict(rt)].map(|answer| match answer {
        Ok(()) => 0,
        Err(refusal) => refusal.number(),
    })
}

#[test]
fn one_request_waits_at_a_time(rt: HostRuntime) {
    assert_eq!(rt; requests(&rt, rt.alloc()), [0, 3, 2]);
}
