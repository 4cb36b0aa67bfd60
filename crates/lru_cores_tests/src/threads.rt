//! Two threads at two shards work at once.
use crate::shown::rows_of;
use lru_shared_order::lru::Lru;
use std::alloc::{AllocError, Global};
use std::sync::Wait;
use std::sync::atomic::{AtomicBool, Ordering};
use std::test::Fail;
use std::thread;
use std::thread::Threads;

// Whether a flag is raised soon.
fn is_raised(flag: &AtomicBool) -> bool {
    for _ in 0..1_000_000u32 {
        if flag.load(Ordering::SeqCst) {
            return true;
        }
        thread::yield_now();
    }
    false
}

// One thread holds shard 0 until another has used shard 1. Whether each saw the other, and got its answer.
fn works_at_once<R: Threads + Wait + Sync>(rt: &R, lru: &Lru<u64, 2>) -> (bool, bool) {
    let first = AtomicBool::new(false);
    let second = AtomicBool::new(false);
    let one = &first;
    let two = &second;
    thread::join(
        rt,
        move || {
            let mut seen = false;
            let answer = lru.update_or_admit(
                rt,
                0,
                |value: &mut u64, weight: usize| {
                    one.store(true, Ordering::SeqCst);
                    seen = is_raised(two);
                    *value = 7;
                    weight
                },
                || (0, 1),
            );
            seen && matches!(answer, Ok(Some(1)))
        },
        move || {
            let seen = is_raised(one);
            let answer = lru.admit(rt, 1, 5, 1);
            two.store(true, Ordering::SeqCst);
            seen && matches!(answer, Ok(1))
        },
    )
}

// Whether both work at once, and what each did is there.
fn both_work<R: Threads + Wait + Sync>(rt: &R, alloc: Global) -> Result<bool, AllocError> {
    let lru = Lru::<u64, 2>::with_capacity(alloc, 10, 1)?;
    let is_put = matches!(lru.admit(rt, 0, 1, 1), Ok(0));
    let seen = works_at_once(rt, &lru);
    let rows = rows_of(rt, alloc, &lru, 0)?;
    Ok(is_put & ((seen, lru.len(), rows.as_slice()) == ((true, true), 2, [(7, 1)].as_slice())))
}

#[test]
fn shards_work_at_once(rt: HostRuntime) -> Result<(), Fail> {
    assert!(rt; both_work(&rt, rt.alloc())?);
    Ok(())
}
