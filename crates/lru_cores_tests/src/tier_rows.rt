//! Worked rows of two tiers, each a list of calls.
use crate::tier_steps::{Call, Step, fault};
use lru_cores::tiered::TieredCore;
use rand::rngs::StdRng;
use rand_core::SeedableRng;
use std::alloc::Global;
use std::test::Fail;

// Rows of weight 2 under limits of 4: what is spilled goes first, what is touched comes back, what is admitted anew
// leaves the cold tier.
#[rattlefmt::skip]
const MOVES_ROWS: [Step; 11] = [
    (Call::Admit { key: 1, weight: 2 }, "Ok(0)", "hot [ 10:2 ] evicted 0 cold [ ] evicted 0 "),
    (Call::Admit { key: 2, weight: 2 }, "Ok(0)", "hot [ 20:2 10:2 ] evicted 0 cold [ ] evicted 0 "),
    (Call::Admit { key: 3, weight: 2 }, "Ok(0)", "hot [ 30:2 20:2 10:2 ] evicted 0 cold [ ] evicted 0 "),
    (Call::Balance, "Ok([])", "hot [ 30:2 20:2 ] evicted 0 cold [ 10:2 ] evicted 0 "),
    (Call::Admit { key: 4, weight: 2 }, "Ok(0)", "hot [ 40:2 30:2 20:2 ] evicted 0 cold [ 10:2 ] evicted 0 "),
    (Call::Balance, "Ok([])", "hot [ 40:2 30:2 ] evicted 0 cold [ 20:2 10:2 ] evicted 0 "),
    (Call::Touch { key: 1 }, "Ok(Some(Cold))", "hot [ 10:2 40:2 30:2 ] evicted 0 cold [ 20:2 ] evicted 0 "),
    (Call::Balance, "Ok([])", "hot [ 10:2 40:2 ] evicted 0 cold [ 30:2 20:2 ] evicted 0 "),
    (Call::Admit { key: 2, weight: 2 }, "Ok(0)", "hot [ 20:2 10:2 40:2 ] evicted 0 cold [ 30:2 ] evicted 0 "),
    (Call::Balance, "Ok([])", "hot [ 20:2 10:2 ] evicted 0 cold [ 40:2 30:2 ] evicted 0 "),
    (Call::Admit { key: 5, weight: 2 }, "Ok(0)", "hot [ 50:2 20:2 10:2 ] evicted 0 cold [ 40:2 30:2 ] evicted 0 "),
];

#[rattlefmt::skip]
const ANSWERS_WHAT_LEAVES: [Step; 10] = [
    (Call::Balance, "Ok([(30, 2)])", "hot [ 50:2 20:2 ] evicted 0 cold [ 10:2 40:2 ] evicted 1 "),
    (Call::Touch { key: 2 }, "Ok(Some(Hot))", "hot [ 20:2 50:2 ] evicted 0 cold [ 10:2 40:2 ] evicted 1 "),
    (Call::Touch { key: 3 }, "Ok(None)", "hot [ 20:2 50:2 ] evicted 0 cold [ 10:2 40:2 ] evicted 1 "),
    (Call::PeekWeight { key: 5 }, "Some((Hot, 2))", "hot [ 20:2 50:2 ] evicted 0 cold [ 10:2 40:2 ] evicted 1 "),
    (Call::PeekWeight { key: 1 }, "Some((Cold, 2))", "hot [ 20:2 50:2 ] evicted 0 cold [ 10:2 40:2 ] evicted 1 "),
    (Call::PeekWeight { key: 3 }, "None", "hot [ 20:2 50:2 ] evicted 0 cold [ 10:2 40:2 ] evicted 1 "),
    (Call::SpillStep { a: 0, b: 0 }, "Ok(None)", "hot [ 20:2 50:2 ] evicted 0 cold [ 10:2 40:2 ] evicted 1 "),
    (Call::Remove { key: 5 }, "Some((Hot, 50, 2))", "hot [ 20:2 ] evicted 0 cold [ 10:2 40:2 ] evicted 1 "),
    (Call::Remove { key: 1 }, "Some((Cold, 10, 2))", "hot [ 20:2 ] evicted 0 cold [ 40:2 ] evicted 1 "),
    (Call::Remove { key: 1 }, "None", "hot [ 20:2 ] evicted 0 cold [ 40:2 ] evicted 1 "),
];

// A row heavier than both limits goes through both tiers. A refused call changes nothing.
#[rattlefmt::skip]
const REFUSES_PAST_THE_CAP: [Step; 8] = [
    (Call::Admit { key: 1, weight: 18446744073709551615 }, "Ok(0)", "hot [ 10:18446744073709551615 ] evicted 0 cold [ ] evicted 0 "),
    (Call::Admit { key: 2, weight: 1 }, "Err(Refused { cause: Weight, held: 20 })", "hot [ 10:18446744073709551615 ] evicted 0 cold [ ] evicted 0 "),
    (Call::SpillStep { a: 0, b: 0 }, "Ok(Some(1))", "hot [ ] evicted 0 cold [ 10:18446744073709551615 ] evicted 0 "),
    (Call::Admit { key: 2, weight: 5 }, "Ok(0)", "hot [ 20:5 ] evicted 0 cold [ 10:18446744073709551615 ] evicted 0 "),
    (Call::Touch { key: 1 }, "Err(Weight)", "hot [ 20:5 ] evicted 0 cold [ 10:18446744073709551615 ] evicted 0 "),
    (Call::SpillStep { a: 0, b: 0 }, "Err(Weight)", "hot [ 20:5 ] evicted 0 cold [ 10:18446744073709551615 ] evicted 0 "),
    (Call::Balance, "Err(BalanceError { cause: Weight, evicted: [] })", "hot [ 20:5 ] evicted 0 cold [ 10:18446744073709551615 ] evicted 0 "),
    (Call::Admit { key: 1, weight: 0 }, "Ok(0)", "hot [ 10:1 20:5 ] evicted 0 cold [ ] evicted 0 "),
];

// A row stays in the shard of its key. Of two shards as long the first draw is the victim.
#[rattlefmt::skip]
const KEEPS_SHARDS: [Step; 7] = [
    (Call::Admit { key: 2, weight: 3 }, "Ok(0)", "hot [ 20:3 ] [ ] evicted 0 cold [ ] [ ] evicted 0 "),
    (Call::Admit { key: 3, weight: 3 }, "Ok(1)", "hot [ 20:3 ] [ 30:3 ] evicted 0 cold [ ] [ ] evicted 0 "),
    (Call::Admit { key: 4, weight: 3 }, "Ok(0)", "hot [ 40:3 20:3 ] [ 30:3 ] evicted 0 cold [ ] [ ] evicted 0 "),
    (Call::SpillStep { a: 1, b: 0 }, "Ok(Some(2))", "hot [ 40:3 ] [ 30:3 ] evicted 0 cold [ 20:3 ] [ ] evicted 0 "),
    (Call::SpillStep { a: 1, b: 0 }, "Ok(Some(3))", "hot [ 40:3 ] [ ] evicted 0 cold [ 20:3 ] [ 30:3 ] evicted 0 "),
    (Call::SpillStep { a: 1, b: 0 }, "Ok(None)", "hot [ 40:3 ] [ ] evicted 0 cold [ 20:3 ] [ 30:3 ] evicted 0 "),
    (Call::Touch { key: 3 }, "Ok(Some(Cold))", "hot [ 40:3 ] [ 30:3 ] evicted 0 cold [ 20:3 ] [ ] evicted 0 "),
];

// The first fault of each table. The second goes on where the first ends; the others begin with empty tiers.
fn faults(alloc: Global) -> Result<[Option<usize>; 4], Fail> {
    let mut rng = StdRng::seed_from_u64(0);
    let mut moved = TieredCore::<u64, 1>::with_limits(alloc, 4, 4, 0)?;
    let mut heavy = TieredCore::<u64, 1>::with_limits_and_seed(alloc, 4, 4, 0, 9)?;
    let mut sharded = TieredCore::<u64, 2>::with_limits(alloc, 4, 4, 4)?;
    Ok([
        fault(alloc, &mut moved, &mut rng, &MOVES_ROWS)?,
        fault(alloc, &mut moved, &mut rng, &ANSWERS_WHAT_LEAVES)?,
        fault(alloc, &mut heavy, &mut rng, &REFUSES_PAST_THE_CAP)?,
        fault(alloc, &mut sharded, &mut rng, &KEEPS_SHARDS)?,
    ])
}

#[test]
fn answers_and_leaves_what_it_should(rt: HostRuntime) -> Result<(), Fail> {
    assert_eq!(rt; faults(rt.alloc())?, [None; 4]);
    Ok(())
}
