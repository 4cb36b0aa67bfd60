//! A box by its worked row, by its seats, and by threads.
ghost use Rattle.std.specs.Prelude.{◌≡◌};

use lru_boxes::{Blanks, BoxRegistry, LedgerBox, PutSeat, TakeSeat};
use lru_mailbox::{Settled, Slip};
use std::alloc::{AllocError, Global};
use std::marker::Brand;
use std::sync::Wait;
use std::sync::atomic::{AtomicBool, AtomicUsize, Ordering};
use std::test::Fail;
use std::thread;
use std::thread::Threads;

// Ends a box, where these are all its seats, in order.
fn settled<B: BoxRegistry>(
    ledger: LedgerBox<u8, B>,
    puts: Vec<PutSeat<B>>,
    takes: Vec<TakeSeat<B>>,
    count: usize,
) -> Option<Settled<u8>>
    requires { (B.putters ≡ count) × (B.takers ≡ count) }
{
    if PutSeat::are_all(puts.as_slice(), count) && TakeSeat::are_all(takes.as_slice(), count) {
        Some(ledger.settle(puts, takes))
    } else {
        None
    }
}

// Whether the slips have these numbers, hashes and weights, in order.
fn are(slips: &[Slip], rows: &[(u64, u64, usize)]) -> bool {
    slips.len() == rows.len()
        && slips.iter().zip(rows).all(|(slip, row)| (slip.number, slip.hash, slip.weight) == *row)
}

// Whether the list at this place has these slips.
fn has(lists: &[Vec<Slip>], place: usize, rows: &[(u64, u64, usize)]) -> bool {
    match lists.get(place) {
        Some(slips) => are(slips.as_slice(), rows),
        None => false,
    }
}

// Two pairs are put, one is taken, the receivers leave, and one more is put. Which number was taken.
fn row<B: BoxRegistry, R: Wait>(
    rt: &R,
    ledger: &LedgerBox<u8, B>,
    put: &mut PutSeat<B>,
    take: &mut TakeSeat<B>,
) -> Option<(u64, u8)> {
    let first = ledger.put(rt, put, 5, 50, 1);
    let second = ledger.put(rt, put, 6, 60, 2);
    let taken = ledger.take(rt, take);
    ledger.leave(rt);
    let third = ledger.put(rt, put, 7, 70, 3);
    if first.is_err() || second.is_err() || third.is_err() {
        return None;
    }
    match taken {
        Ok(Some((slip, key))) => Some((slip.number, key)),
        _ => None,
    }
}

// The row: which number was taken, how many are lost and wait, and what is settled.
fn row_of_one<B: BoxRegistry, R: Wait>(
    rt: &R,
    alloc: Global,
    blanks: Blanks,
) -> Result<Option<((u64, u8), usize, usize, Settled<u8>)>, AllocError>
    requires tables { (blanks.puts.tie.table.shared.table_id ≡ B.puts) × (blanks.takes.tie.table.shared.table_id ≡ B.takes) }
    requires counts { (B.putters ≡ 1) × (B.takers ≡ 1) }
    requires blanks { (blanks.putters ≡ 1) × (blanks.takers ≡ 1) }
{
    let (ledger, mut puts, mut takes) = LedgerBox::<u8, B>::new(alloc, blanks)?;
    let (Some(put), Some(take)) = (puts.first_mut(), takes.first_mut()) else {
        return Ok(None);
    };
    let Some(taken) = row(rt, &ledger, put, take) else {
        return Ok(None);
    };
    let (lost, len) = (ledger.lost_len(rt), ledger.len(rt));
    let Some(settled) = settled(ledger, puts, takes, 1) else {
        return Ok(None);
    };
    Ok(Some((taken, lost, len, settled)))
}

static PUT_BY_ONE: [(u64, u64, usize); 3] = [(0, 5, 1), (1, 6, 2), (2, 7, 3)];

static TAKEN_BY_ONE: [(u64, u64, usize); 1] = [(0, 5, 1)];

static LOST_BY_ONE: [(u64, u64, usize); 2] = [(1, 6, 2), (2, 7, 3)];

fn is_row_settled(settled: &Settled<u8>) -> bool {
    let are_with_seats = has(&settled.puts, 0, &PUT_BY_ONE) & has(&settled.takes, 0, &TAKEN_BY_ONE);
    are_with_seats & are(&settled.lost, &LOST_BY_ONE) & settled.left.is_empty()
}

fn is_row_told<R: Wait>(rt: &R, alloc: Global) -> Result<bool, AllocError> {
    let blanks = Blanks::new(alloc, 1, 1)?;
    match row_of_one::<Brand, _>(rt, alloc, blanks)? {
        Some((taken, lost, len, settled)) => Ok(
            ((taken, lost, len) == ((0, 50), 2, 0)) & is_row_settled(&settled),
        ),
        None => Ok(false),
    }
}

#[test]
fn every_slip_is_told(rt: HostRuntime) -> Result<(), Fail> {
    assert!(rt; is_row_told(&rt, rt.alloc())?);
    Ok(())
}

// Two put three pairs by turns, one of two takes one, the box is closed, and the other one takes the next. Whether the keys
// taken are those put first.
fn turns<B: BoxRegistry, R: Wait>(
    rt: &R,
    ledger: &LedgerBox<u8, B>,
    puts: &mut [PutSeat<B>],
    takes: &mut [TakeSeat<B>],
) -> bool {
    for (hash, key, weight, place) in [(5, 50, 7, 0), (6, 60, 2, 1), (7, 70, 3, 0)] {
        let Some(seat) = puts.get_mut(place) else {
            return false;
        };
        if ledger.put(rt, seat, hash, key, weight).is_err() {
            return false;
        }
    }
    let first = match takes.get_mut(1) {
        Some(seat) => ledger.take(rt, seat),
        None => Ok(None),
    };
    ledger.close(rt);
    let second = match takes.get_mut(0) {
        Some(seat) => ledger.take(rt, seat),
        None => Ok(None),
    };
    matches!((first, second), (Ok(Some((_, 50))), Ok(Some((_, 60)))))
}

fn turns_of_two<B: BoxRegistry, R: Wait>(
    rt: &R,
    alloc: Global,
    blanks: Blanks,
) -> Result<Option<(bool, Settled<u8>)>, AllocError>
    requires tables { (blanks.puts.tie.table.shared.table_id ≡ B.puts) × (blanks.takes.tie.table.shared.table_id ≡ B.takes) }
    requires counts { (B.putters ≡ 2) × (B.takers ≡ 2) }
    requires blanks { (blanks.putters ≡ 2) × (blanks.takers ≡ 2) }
{
    let (ledger, mut puts, mut takes) = LedgerBox::<u8, B>::new(alloc, blanks)?;
    let taken = turns(rt, &ledger, puts.as_mut_slice(), takes.as_mut_slice());
    Ok(settled(ledger, puts, takes, 2).map(|settled| (taken, settled)))
}

// The slips of the first and of the second putter, whose pairs are taken by the second and by the first taker.
static PUT_BY_FIRST: [(u64, u64, usize); 2] = [(0, 5, 7), (2, 7, 3)];

static PUT_BY_SECOND: [(u64, u64, usize); 1] = [(1, 6, 2)];

static TAKEN_BY_SECOND: [(u64, u64, usize); 1] = [(0, 5, 7)];

fn are_turns_settled(settled: &Settled<u8>) -> bool {
    let puts = &settled.puts;
    let takes = &settled.takes;
    let are_put = (puts.len() == 2) & has(puts, 0, &PUT_BY_FIRST) & has(puts, 1, &PUT_BY_SECOND);
    let are_taken = (takes.len() == 2)
        & has(takes, 0, &PUT_BY_SECOND)
        & has(takes, 1, &TAKEN_BY_SECOND);
    are_put & are_taken & settled.lost.is_empty() & (settled.left.len() == 1)
}

fn are_turns_told<R: Wait>(rt: &R, alloc: Global) -> Result<bool, AllocError> {
    let blanks = Blanks::new(alloc, 2, 2)?;
    match turns_of_two::<Brand, _>(rt, alloc, blanks)? {
        Some((taken, settled)) => Ok(taken & are_turns_settled(&settled)),
        None => Ok(false),
    }
}

#[test]
fn slips_stand_with_their_seats(rt: HostRuntime) -> Result<(), Fail> {
    assert!(rt; are_turns_told(&rt, rt.alloc())?);
    Ok(())
}

// One thread waits for a pair while another puts one.
fn across<B: BoxRegistry + Send + Sync, R: Threads + Wait + Sync>(
    rt: &R,
    alloc: Global,
    blanks: Blanks,
) -> Result<(bool, bool), AllocError>
    requires tables { (blanks.puts.tie.table.shared.table_id ≡ B.puts) × (blanks.takes.tie.table.shared.table_id ≡ B.takes) }
    requires counts { (B.putters ≡ blanks.putters) × (B.takers ≡ blanks.takers) }
{
    let (ledger, mut puts, mut takes) = LedgerBox::<u8, B>::new(alloc, blanks)?;
    let (Some(put), Some(take)) = (puts.first_mut(), takes.first_mut()) else {
        return Ok((false, false));
    };
    let shared = &ledger;
    Ok(thread::join(
        rt,
        || matches!(shared.take(rt, take), Ok(Some((_, 9)))),
        || shared.put(rt, put, 1, 9, 1).is_ok(),
    ))
}

#[test]
fn wakes_who_waits(rt: HostRuntime) -> Result<(), Fail> {
    let alloc: Global = rt.alloc();
    let blanks = Blanks::new(alloc, 1, 1)?;
    assert_eq!(rt; across::<Brand, _>(&rt, alloc, blanks)?, (true, true));
    Ok(())
}

// Two threads wait at an empty box until it is closed. Whether each found it closed and empty.
fn two_wait<B: BoxRegistry + Send + Sync, R: Threads + Wait + Sync>(
    rt: &R,
    alloc: Global,
    blanks: Blanks,
) -> Result<usize, AllocError>
    requires tables { (blanks.puts.tie.table.shared.table_id ≡ B.puts) × (blanks.takes.tie.table.shared.table_id ≡ B.takes) }
    requires counts { (B.putters ≡ blanks.putters) × (B.takers ≡ blanks.takers) }
{
    let (ledger, _puts, mut takes) = LedgerBox::<u8, B>::new(alloc, blanks)?;
    let ended = AtomicUsize::new(0);
    let shared = &ledger;
    let take_one = &|_number: usize, seat: &mut TakeSeat<B>| {
        if matches!(shared.take(rt, seat), Ok(None)) {
            ended.fetch_add(1, Ordering::SeqCst);
        }
    };
    thread::join(
        rt,
        || thread::for_each_mut(rt, takes.as_mut_slice(), 2, take_one),
        || {
            // long enough for both to wait
            for _ in 0..20_000u32 {
                thread::yield_now();
            }
            shared.close(rt);
        },
    );
    Ok(ended.load(Ordering::SeqCst))
}

#[test]
fn a_close_wakes_all_who_wait(rt: HostRuntime) -> Result<(), Fail> {
    let alloc: Global = rt.alloc();
    let blanks = Blanks::new(alloc, 1, 2)?;
    assert_eq!(rt; two_wait::<Brand, _>(&rt, alloc, blanks)?, 2);
    Ok(())
}

// Puts five hundred pairs, whose hashes and weights tell of the seat. Whether none was refused.
fn put_many<B: BoxRegistry, R: Wait>(
    rt: &R,
    ledger: &LedgerBox<u8, B>,
    seat: &mut PutSeat<B>,
    number: usize,
) -> bool {
    let mut put = true;
    for turn in 0..500usize {
        let hash = number.wrapping_mul(1000).wrapping_add(turn) as u64;
        put = put && ledger.put(rt, seat, hash, 1, turn).is_ok();
    }
    put
}

// Takes pairs until the box is closed and empty. Whether none was refused.
fn take_many<B: BoxRegistry, R: Wait>(
    rt: &R,
    ledger: &LedgerBox<u8, B>,
    seat: &mut TakeSeat<B>,
) -> bool {
    for _ in 0..2000u32 {
        match ledger.take(rt, seat) {
            Ok(Some(_)) => {}
            Ok(None) => return true,
            Err(_) => return false,
        }
    }
    false
}

// Two put and two take, each on a thread of its own. Whether no call was refused, and what is settled.
fn two_and_two<B: BoxRegistry + Send + Sync, R: Threads + Wait + Sync>(
    rt: &R,
    alloc: Global,
    blanks: Blanks,
) -> Result<Option<(bool, Settled<u8>)>, AllocError>
    requires tables { (blanks.puts.tie.table.shared.table_id ≡ B.puts) × (blanks.takes.tie.table.shared.table_id ≡ B.takes) }
    requires counts { (B.putters ≡ 2) × (B.takers ≡ 2) }
    requires blanks { (blanks.putters ≡ 2) × (blanks.takers ≡ 2) }
{
    let (ledger, mut puts, mut takes) = LedgerBox::<u8, B>::new(alloc, blanks)?;
    let refused = AtomicBool::new(false);
    let shared = &ledger;
    let put_all = &|number: usize, seat: &mut PutSeat<B>| {
        if !put_many(rt, shared, seat, number) {
            refused.store(true, Ordering::SeqCst);
        }
    };
    let take_all = &|_number: usize, seat: &mut TakeSeat<B>| {
        if !take_many(rt, shared, seat) {
            refused.store(true, Ordering::SeqCst);
        }
    };
    thread::join(
        rt,
        || {
            thread::for_each_mut(rt, puts.as_mut_slice(), 2, put_all);
            shared.close(rt);
        },
        || thread::for_each_mut(rt, takes.as_mut_slice(), 2, take_all),
    );
    let refused = refused.load(Ordering::SeqCst);
    Ok(settled(ledger, puts, takes, 2).map(|settled| (!refused, settled)))
}

// Whether the list at this place has the hashes and weights of the pairs that this seat put, in order.
fn is_own(lists: &[Vec<Slip>], place: usize) -> bool {
    let Some(slips) = lists.get(place) else {
        return false;
    };
    let first = place.wrapping_mul(1000);
    slips.len() == 500
        && slips.iter().enumerate().all(|(turn, slip)| {
            (slip.hash, slip.weight) == (first.wrapping_add(turn) as u64, turn)
        })
}

// Whether the pairs of both are told, and all of them were taken.
fn are_all_taken(settled: &Settled<u8>) -> bool {
    let taken = settled
        .takes
        .iter()
        .map(|slips| slips.len())
        .fold(0usize, |a, b| a.wrapping_add(b));
    let are_own = is_own(&settled.puts, 0) & is_own(&settled.puts, 1);
    are_own & ((taken, settled.lost.len(), settled.left.len()) == (1000, 0, 0))
}

fn are_two_and_two_told<R: Threads + Wait + Sync>(
    rt: &R,
    alloc: Global,
) -> Result<bool, AllocError> {
    let blanks = Blanks::new(alloc, 2, 2)?;
    match two_and_two::<Brand, _>(rt, alloc, blanks)? {
        Some((done, settled)) => Ok(done & are_all_taken(&settled)),
        None => Ok(false),
    }
}

#[test]
fn two_put_and_two_take(rt: HostRuntime) -> Result<(), Fail> {
    assert!(rt; are_two_and_two_told(&rt, rt.alloc())?);
    Ok(())
}
