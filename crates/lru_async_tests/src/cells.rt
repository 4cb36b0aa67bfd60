//! The first to fill a cell decides, and who waits for it is woken.
use lru_actors::ReplyCell;
use std::sync::Wait;
use std::test::Fail;
use std::thread;
use std::thread::Threads;

// What `take` answers, twice, of a cell that is filled in these ways: given 1, left, given 1 and then left or given 2, and
// left and then given 1.
fn taken<R: Wait>(rt: &R) -> [(Option<u8>, Option<u8>); 5] {
    let given = ReplyCell::new();
    given.give(rt, 1);
    let left: ReplyCell<u8> = ReplyCell::new();
    left.leave(rt);
    let given_and_left = ReplyCell::new();
    given_and_left.give(rt, 1);
    given_and_left.leave(rt);
    let given_twice = ReplyCell::new();
    given_twice.give(rt, 1);
    given_twice.give(rt, 2);
    let left_and_given = ReplyCell::new();
    left_and_given.leave(rt);
    left_and_given.give(rt, 1);
    [
        (given.take(rt), given.take(rt)),
        (left.take(rt), left.take(rt)),
        (given_and_left.take(rt), given_and_left.take(rt)),
        (given_twice.take(rt), given_twice.take(rt)),
        (left_and_given.take(rt), left_and_given.take(rt)),
    ]
}

#[test]
fn first_to_fill_decides(rt: HostRuntime) {
    assert_eq!(rt;
        taken(&rt),
        [
            (Some(1), None),
            (None, None),
            (Some(1), None),
            (Some(1), None),
            (None, None)
        ]
    );
}

// One thread waits while another gives.
fn across<R: Threads + Wait + Sync>(rt: &R, cell: &ReplyCell<u8>) -> Option<u8> {
    let (_, taken) = thread::join(rt, || cell.give(rt, 5), || cell.take(rt));
    taken
}

#[test]
fn wakes_who_waits(rt: HostRuntime) {
    let cell = ReplyCell::new();
    assert_eq!(rt; across(&rt, &cell), Some(5));
}
