//! The iterators over rows, from both ends.
use lru_rows::rows::{Place, Rows, Unpushed};
use std::alloc::Global;
use std::test::Fail;

// Puts a row first, if its key has none.
fn push(
    rows: &mut Rows<u64, u64>,
    key: u64,
    value: u64,
    weight: usize,
) -> Result<Option<Place>, Unpushed<u64, u64>> {
    match rows.find(&key) {
        Some(_) => Ok(None),
        None => Ok(Some(rows.push_first(key, value, weight)?)),
    }
}

fn three_rows(alloc: Global) -> Result<Rows<u64, u64>, Fail> {
    let mut rows = Rows::with_capacity(alloc, 3)?;
    push(&mut rows, 1, 10, 5)?;
    push(&mut rows, 2, 20, 2)?;
    push(&mut rows, 3, 30, 4)?;
    Ok(rows)
}

// The data and the weight of a row.
type Row = Option<(u64, usize)>;

fn row(shown: Option<(&u64, usize)>) -> Row {
    let (value, weight) = shown?;
    Some((*value, weight))
}

// One row from the front, two from the back, and then none from either end; and how many are left, at first and after
// the first two.
fn both_ends(rows: &Rows<u64, u64>) -> ([Row; 5], (usize, Option<usize>), usize) {
    let mut left = rows.iter();
    let all = left.size_hint();
    let first = row(left.next());
    let last = row(left.next_back());
    let one = left.len();
    let middle = row(left.next_back());
    let none = row(left.next());
    let neither = row(left.next_back());
    ([first, last, middle, none, neither], all, one)
}

#[test]
fn rows_are_shown_from_both_ends(rt: HostRuntime) -> Result<(), Fail> {
    let rows = three_rows(rt.alloc())?;
    assert_eq!(rt;
        both_ends(&rows),
        (
            [Some((30, 4)), Some((10, 5)), Some((20, 2)), None, None],
            (3, Some(3)),
            1
        )
    );
    Ok(())
}

// The key, the data and the weight of a row.
type Entry = Option<(u64, u64, usize)>;

fn entry(shown: Option<(&u64, &u64, usize)>) -> Entry {
    let (key, value, weight) = shown?;
    Some((*key, *value, weight))
}

// As `both_ends`.
fn entries_of(rows: &Rows<u64, u64>) -> ([Entry; 5], (usize, Option<usize>), usize) {
    let mut left = rows.entries();
    let all = left.size_hint();
    let first = entry(left.next());
    let last = entry(left.next_back());
    let one = left.len();
    let middle = entry(left.next_back());
    let none = entry(left.next());
    let neither = entry(left.next_back());
    ([first, last, middle, none, neither], all, one)
}

#[test]
fn entries_are_shown_from_both_ends(rt: HostRuntime) -> Result<(), Fail> {
    let rows = three_rows(rt.alloc())?;
    assert_eq!(rt;
        entries_of(&rows),
        (
            [
                Some((3, 30, 4)),
                Some((1, 10, 5)),
                Some((2, 20, 2)),
                None,
                None
            ],
            (3, Some(3)),
            1
        )
    );
    Ok(())
}

#[test]
fn keys_are_shown_in_order(rt: HostRuntime) -> Result<(), Fail> {
    let rows = three_rows(rt.alloc())?;
    let mut keys = rows.keys();
    let shown = [
        keys.next().copied(),
        keys.next().copied(),
        keys.next().copied(),
        keys.next().copied(),
    ];
    assert_eq!(rt; shown, [Some(3), Some(2), Some(1), None]);
    Ok(())
}
