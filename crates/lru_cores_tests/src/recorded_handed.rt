//! What an order hands out of a row: the data that were last given for it.
ghost use Rattle.std.specs.Prelude.{◌≡◌};

use lru_recording::entry::Names;
use lru_recording::journal::Seat;
use lru_recording::recorded::RecordedLru;
use lru_recording::tie::{Blank, Registry};
use std::alloc::{AllocError, Global};
use std::marker::Brand;
use std::sync::Wait;
use std::test::Fail;

// A key, data and weight: key 1 gets other data at its weight, and key 2 at another.
const GIVEN: [(u64, u64, usize); 5] = [(1, 10, 1), (1, 11, 1), (2, 20, 2), (2, 21, 3), (3, 30, 1)];

// The last row as it is looked at and as it is evicted, and then a row that is taken out.
type Handed = [Option<(u64, usize)>; 3];

fn hand_out<B: Registry, R: Wait>(
    rt: &R,
    lru: &RecordedLru<u64, B, 1>,
    seat: &mut Seat<B>,
) -> Handed {
    for (key, data, weight) in &GIVEN {
        let _ = lru.admit(rt, seat, *key, *data, *weight);
    }
    let last = lru.peek_lru(rt, seat, 0).unwrap_or(None);
    let evicted = lru.evict_shard(rt, seat, 0).unwrap_or(None);
    let removed = lru.remove(rt, seat, 2).unwrap_or(None);
    [last, evicted, removed]
}

fn handed_by<B: Registry, R: Wait>(
    rt: &R,
    alloc: Global,
    blank: Blank,
) -> Result<Handed, AllocError>
    requires blank { (blank.tie.table.shared.table_id ≡ B.table) × (blank.tie.table.shared.key ≡ record { shards = 1; seats = 1 }) }
    requires callers { B.seats ≡ 1 }
{
    let (lru, mut seats) = RecordedLru::<u64, B, 1>::new(alloc, blank, 100, 4, None, 1)?;
    let mut handed = [None; 3];
    for seat in seats.iter_mut() {
        handed = hand_out(rt, &lru, seat);
    }
    Ok(handed)
}

fn handed<R: Wait>(rt: &R, alloc: Global) -> Result<Handed, AllocError> {
    let blank = Blank::new(
        alloc,
        Names {
            shards: 1,
            seats: 1,
        },
    )?;
    handed_by::<Brand, _>(rt, alloc, blank)
}

#[test]
fn hands_out_what_was_last_given(rt: HostRuntime) -> Result<(), Fail> {
    assert_eq!(rt;
        handed(&rt, rt.alloc())?,
        [Some((11, 1)), Some((11, 1)), Some((21, 3))]
    );
    Ok(())
}
