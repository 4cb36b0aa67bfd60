//! Many senders under a limit: every evicted pair is accounted for.
ghost use Rattle.std.specs.Prelude.{◌≡◌};

use lru_async::async_lru::AsyncLru;
use lru_boxes::{Blanks, BoxRegistry};
use lru_inbox::tie::Archive;
use lru_mailbox::{Settled, Slip};
use lru_workers::callback::AsyncEvictionCallback;
use rand::RngExt;
use rand::rngs::StdRng;
use rand_core::SeedableRng;
use std::alloc::Global;
use std::marker::Brand;
use std::sync::atomic::{AtomicUsize, Ordering};
use std::sync::{Arc, Wait};
use std::test::Fail;
use std::thread;
use std::thread::Threads;

// Counts calls, and adds up keys and weights.
#[derive(Drop)]
struct Adding {
    calls: AtomicUsize,
    hashes: AtomicUsize,
    weights: AtomicUsize,
}

impl AsyncEvictionCallback<u64> for Adding {
    ghost ready = { λ _. Unit {0} };

    fn call(&self, key: u64, weight: usize) {
        self.calls.fetch_add(1, Ordering::SeqCst);
        let hash = lru_actors::key::hash_key(&key);
        self.hashes.fetch_add(hash as usize, Ordering::SeqCst);
        self.weights.fetch_add(weight, Ordering::SeqCst);
    }
}

// Fifty thousand drawn sends. Whether each was taken.
fn draw_sends<B: BoxRegistry + Archive, R: Wait>(
    rt: &R,
    lru: &AsyncLru<u64, 4, B>,
    seed: u64,
) -> bool {
    let mut rng = StdRng::seed_from_u64(seed);
    let mut taken = true;
    for _ in 0..50_000u32 {
        let key = rng.random_range(0..400u64);
        let weight = rng.random_range(0..6usize);
        let sent = match rng.random_range(0..8u8) {
            0 => lru.promote(rt, &key).is_ok(),
            1 => lru.insert_tail(rt, key, weight).is_ok(),
            2 => lru.increment_weight(rt, &key, weight, Some(9)).is_ok(),
            3 => lru.remove(rt, &key).is_ok(),
            _ => lru.admit(rt, key, weight).is_ok(),
        };
        taken = taken && sent;
    }
    taken
}

// Four senders at once.
fn four_send<B: BoxRegistry + Archive + Send + Sync, R: Threads + Wait + Sync>(
    rt: &R,
    lru: &AsyncLru<u64, 4, B>,
) -> bool {
    let (first, second) = thread::join(
        rt,
        || thread::join(rt, || draw_sends(rt, lru, 1), || draw_sends(rt, lru, 2)),
        || thread::join(rt, || draw_sends(rt, lru, 3), || draw_sends(rt, lru, 4)),
    );
    first.0 && first.1 && second.0 && second.1
}

// Count, hashes and weights of slips, added up.
fn sums(slips: &[Slip]) -> (usize, usize, usize) {
    let mut hashes = 0usize;
    let mut weights = 0usize;
    for slip in slips {
        hashes = hashes.wrapping_add(slip.hash as usize);
        weights = weights.wrapping_add(slip.weight);
    }
    (slips.len(), hashes, weights)
}

// The sums over lists of slips.
fn all_sums(lists: &Vec<Vec<Slip>>) -> (usize, usize, usize) {
    let mut all = (0usize, 0usize, 0usize);
    for slips in lists {
        let (count, hashes, weights) = sums(slips.as_slice());
        all = (
            all.0.wrapping_add(count),
            all.1.wrapping_add(hashes),
            all.2.wrapping_add(weights),
        );
    }
    all
}

// Sends under a limit, more of them while nothing was evicted yet, since the workers may come late on a machine that does much
// else, and closes. Whether each send was taken, and what is settled; nothing where there are no threads.
fn soaked<
    B: BoxRegistry + Archive + Send + Sync + 'static,
    R: Threads + Wait + Copy + Send + Sync + 'static,
>(rt: R, alloc: Global, adding: Arc<Adding, Global>, blanks: Blanks) -> Option<(bool, Settled<u64>)>
    requires tables { (blanks.puts.tie.table.shared.table_id ≡ B.puts) × (blanks.takes.tie.table.shared.table_id ≡ B.takes) }
    requires counts { (B.putters ≡ 4) × (B.takers ≡ 2) }
    requires blanks { (blanks.putters ≡ 4) × (blanks.takers ≡ 2) }
{
    let Ok(theirs) = Arc::try_clone(&adding) else {
        return None;
    };
    let Ok(ledger) = AsyncLru::<u64, 4>::builder(alloc, 300, theirs)
        .num_eviction_workers(2)
        .num_callback_workers(2)
        .build_with_ledger::<R, B>(rt, blanks)
    else {
        return None;
    };
    let mut sent = four_send(&rt, ledger.lru());
    for seed in 5..50u64 {
        if adding.calls.load(Ordering::SeqCst) == 0 {
            sent = draw_sends(&rt, ledger.lru(), seed) && sent;
        }
    }
    Some((sent, ledger.close(&rt)))
}

// Whether pairs were put, all of them were taken or are lost, and what was taken is what was called.
fn are_all_called(adding: &Adding, settled: &Settled<u64>) -> bool {
    let called = (
        adding.calls.load(Ordering::SeqCst),
        adding.hashes.load(Ordering::SeqCst),
        adding.weights.load(Ordering::SeqCst),
    );
    let puts = all_sums(&settled.puts);
    let takes = all_sums(&settled.takes);
    let lost = sums(settled.lost.as_slice());
    let taken_or_lost = (
        takes.0.wrapping_add(lost.0),
        takes.1.wrapping_add(lost.1),
        takes.2.wrapping_add(lost.2),
    );
    // all was called: the callback workers ended last
    puts.0 > 0 && puts == taken_or_lost && called == takes && settled.left.is_empty()
}

#[test]
fn every_pair_is_accounted_for(rt: HostRuntime) -> Result<(), Fail> {
    let alloc: Global = rt.alloc();
    let adding = Adding {
        calls: AtomicUsize::new(0),
        hashes: AtomicUsize::new(0),
        weights: AtomicUsize::new(0),
    };
    let adding = Arc::new(alloc, adding)?;
    let blanks = Blanks::new(alloc, 4, 2)?;
    let theirs = Arc::try_clone(&adding)?;
    let Some((sent, settled)) = soaked::<Brand, _>(rt, alloc, theirs, blanks) else {
        panic!(rt; "no threads");
    };
    assert!(rt; sent && are_all_called(&adding, &settled));
    Ok(())
}
