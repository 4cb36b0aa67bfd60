//! What a shard shows of its ends, and its rows from both ends.
use lru_shard::unit::{LruUnit, Refused};
use std::alloc::Global;
use std::test::Fail;

// The data and the weight of a row.
type Row = Option<(u64, usize)>;

fn row(shown: Option<(&u64, usize)>) -> Row {
    match shown {
        None => None,
        Some((data, weight)) => Some((*data, weight)),
    }
}

// The length, the weight, and the last row with its key.
type Ends = (usize, usize, Row, Option<u64>);

fn ends(unit: &LruUnit<u64>) -> Ends {
    (
        unit.len(),
        unit.used_weight(),
        row(unit.peek_lru()),
        unit.lru_key(),
    )
}

// One row from the front, two from the back, and then none from either end; and how many are left, at first and after
// the first two.
type Taken = ([Row; 5], [(usize, Option<usize>); 2], usize);

fn taken(unit: &LruUnit<u64>) -> Taken {
    let mut rows = unit.iter();
    let all = rows.size_hint();
    let first = row(rows.next());
    let last = row(rows.next_back());
    let (left, hint) = (rows.len(), rows.size_hint());
    let middle = row(rows.next_back());
    let none = row(rows.next());
    let neither = row(rows.next_back());
    ([first, last, middle, none, neither], [all, hint], left)
}

fn added(unit: &mut LruUnit<u64>) -> Result<[bool; 3], Refused<u64>> {
    Ok([
        unit.insert_tail(3, 30, 4)?,
        unit.insert_tail(2, 20, 2)?,
        unit.insert_tail(1, 10, 5)?,
    ])
}

// Whether room is made, and a shard's ends before and after three rows.
fn ends_of_three(unit: &mut LruUnit<u64>) -> Result<(bool, Ends, [bool; 3], Ends), Refused<u64>> {
    let is_made = unit.reserve(100).is_ok();
    let empty = ends(unit);
    let added = added(unit)?;
    Ok((is_made, empty, added, ends(unit)))
}

type Shown = ((bool, Ends, [bool; 3], Ends), Taken);

fn shown(alloc: Global) -> Result<Shown, Fail> {
    let mut unit = LruUnit::with_capacity_and_seed(alloc, 3, 100, 5)?;
    let told = ends_of_three(&mut unit)?;
    Ok((told, taken(&unit)))
}

#[test]
fn shows_its_ends(rt: HostRuntime) -> Result<(), Fail> {
    assert_eq!(rt;
        shown(rt.alloc())?,
        (
            (
                true,
                (0, 0, None, None),
                [true; 3],
                (3, 11, Some((10, 5)), Some(1))
            ),
            (
                [Some((30, 4)), Some((10, 5)), Some((20, 2)), None, None],
                [(3, Some(3)), (1, Some(1))],
                1
            )
        )
    );
    Ok(())
}
