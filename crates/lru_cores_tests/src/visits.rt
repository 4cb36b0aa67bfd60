//! What an admission that evicts holds while it hands a pair on: the lock of the key's shard, where the pair is of that shard.
use lru_shared_order::lru::Lru;
use std::alloc::{AllocError, Global};
use std::sync::Wait;
use std::sync::atomic::{AtomicBool, Ordering};
use std::test::Fail;
use std::thread;
use std::thread::Threads;

// Whether a flag is raised within so many looks.
fn is_raised(flag: &AtomicBool, looks: u32) -> bool {
    for _ in 0..looks {
        if flag.load(Ordering::SeqCst) {
            return true;
        }
        thread::yield_now();
    }
    false
}

// A row is admitted that leaves no room for another of its shard, while a second thread looks at that shard. Whether the pair was
// handed on, whether the look ended before that call did, and whether it ended at all.
fn looks_beside<R: Threads + Wait + Sync>(rt: &R, lru: &Lru<u64, 2>) -> (bool, bool, bool) {
    let handing = AtomicBool::new(false);
    let looked = AtomicBool::new(false);
    let one = &handing;
    let two = &looked;
    let (was_open, is_held) = thread::join(
        rt,
        move || {
            let mut was_open = false;
            let _ = lru.admit_and_evict(rt, 4, 40, 5, |_pair| {
                one.store(true, Ordering::SeqCst);
                was_open = is_raised(two, 100_000);
            });
            was_open
        },
        move || {
            let handed = is_raised(one, 10_000_000);
            let is_held = lru.peek(rt, 4);
            two.store(true, Ordering::SeqCst);
            handed && is_held
        },
    );
    (handing.load(Ordering::SeqCst), was_open, is_held)
}

// Under a limit of 6, with a row of weight 1 in each of two shards.
fn looks_beside_two<R: Threads + Wait + Sync>(
    rt: &R,
    alloc: Global,
) -> Result<(bool, bool, bool), AllocError> {
    let lru = Lru::<u64, 2>::with_capacity(alloc, 6, 2)?;
    let _ = lru.admit(rt, 1, 10, 1);
    let _ = lru.admit(rt, 2, 20, 1);
    Ok(looks_beside(rt, &lru))
}

#[test]
fn hands_pairs_on_under_the_lock(rt: HostRuntime) -> Result<(), Fail> {
    assert_eq!(rt; looks_beside_two(&rt, rt.alloc())?, (true, false, true));
    Ok(())
}
