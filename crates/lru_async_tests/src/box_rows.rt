//! A box by its worked row.
use crate::single::Single;
use lru_mailbox::{LedgerState, PutShare, Settled, Slip, TakeShare};
use std::alloc::Global;
use std::test::Fail;

// Puts of hashes 5 and 6, and a take: whether the first one is taken, and one waits.
fn takes_the_first(
    ledger: &mut LedgerState<&'static str>,
    putter: &mut PutShare,
    taker: &mut TakeShare,
) -> Result<bool, Fail> {
    ledger.put(putter, 5, "a", 1)?;
    ledger.put(putter, 6, "b", 2)?;
    match ledger.take(taker)? {
        Some((slip, key)) => Ok(
            ((slip.number, slip.hash, slip.weight, key) == (0, 5, 1, "a")) & (ledger.len() == 1),
        ),
        None => Ok(false),
    }
}

// The receivers leave before a put of hash 7: whether that one and the one that waited are lost, and none is taken.
fn loses_the_rest(
    ledger: &mut LedgerState<&'static str>,
    putter: &mut PutShare,
    taker: &mut TakeShare,
) -> Result<bool, Fail> {
    ledger.leave();
    ledger.put(putter, 7, "c", 3)?;
    let are_lost = ledger.is_closed() & ((ledger.len(), ledger.lost_len()) == (0, 2));
    let are_told = (putter.slips().len(), taker.slips().len()) == (3, 1);
    Ok(are_lost & are_told & ledger.take(taker)?.is_none())
}

fn loses_what_is_left(alloc: Global) -> Result<bool, Fail> {
    let (mut ledger, mut puts, mut takes) = LedgerState::new(alloc, 1, 1)?;
    let (Some(mut putter), Some(mut taker)) = (puts.pop(), takes.pop()) else {
        return Ok(false);
    };
    let is_taken = takes_the_first(&mut ledger, &mut putter, &mut taker)?;
    Ok(is_taken & loses_the_rest(&mut ledger, &mut putter, &mut taker)?)
}

#[test]
fn loses_what_no_one_took(rt: HostRuntime) -> Result<(), Fail> {
    assert!(rt; loses_what_is_left(rt.alloc())?);
    Ok(())
}

// Whether the slips have these numbers, in order.
fn are(slips: &[Slip], numbers: &[u64]) -> bool {
    slips.len() == numbers.len()
        && slips
            .iter()
            .zip(numbers)
            .all(|(slip, number)| slip.number == *number)
}

// The same row: whether the first pair is taken.
fn does_the_row(single: &mut Single) -> Result<bool, Fail> {
    single.put(5, 1, 1)?;
    single.put(6, 2, 2)?;
    let is_first = match single.take()? {
        Some((slip, key)) => (slip.number, key) == (0, 1),
        None => false,
    };
    single.leave();
    single.put(7, 3, 3)?;
    Ok(is_first)
}

// Whether a settling has the puts 0, 1 and 2, the take 0, the lost 1 and 2, and none left.
fn are_settled(settled: &Settled<u8>) -> bool {
    let are_with_seats = match (settled.puts.as_slice(), settled.takes.as_slice()) {
        ([put], [taken]) => are(put, &[0, 1, 2]) & are(taken, &[0]),
        _ => false,
    };
    let is_last = match settled.lost.last() {
        Some(last) => (last.hash, last.weight) == (7, 3),
        None => false,
    };
    are_with_seats & is_last & are(&settled.lost, &[1, 2]) & settled.left.is_empty()
}

fn settles(alloc: Global) -> Result<bool, Fail> {
    let Some(mut single) = Single::new(alloc)? else {
        return Ok(false);
    };
    let is_first = does_the_row(&mut single)?;
    Ok(is_first & are_settled(&single.settle(alloc)?))
}

// The same row to its end.
#[test]
fn settles_every_slip(rt: HostRuntime) -> Result<(), Fail> {
    assert!(rt; settles(rt.alloc())?);
    Ok(())
}
