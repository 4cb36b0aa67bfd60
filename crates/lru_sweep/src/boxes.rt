//! Pairs put into a box and taken from it, where a refused call leaves the pair and the slips as they were.
use lru_mailbox::{LedgerState, MailError, PutShare, TakeShare};
use std::alloc::{AllocError, Global};
use std::io;
use std::io::Write;

// How many pairs wait, how many slips are lost, and how many slips the shares have.
fn shown(ledger: &LedgerState<u8>, put: &PutShare, taken: &TakeShare) -> [usize; 4] {
    [
        ledger.len(),
        ledger.lost_len(),
        put.slips().len(),
        taken.slips().len(),
    ]
}

fn made(alloc: Global) -> Result<(LedgerState<u8>, Vec<PutShare>, Vec<TakeShare>), AllocError> {
    match LedgerState::new(alloc, 1, 1) {
        Ok(made) => Ok(made),
        Err(_) => LedgerState::new(alloc, 1, 1),
    }
}

pub fn script<W: Write>(alloc: Global, out: &mut W) -> io::Result<()> {
    let (mut ledger, mut puts, mut takes) = made(alloc)?;
    let (Some(mut putter), Some(mut taker)) = (puts.pop(), takes.pop()) else {
        return Ok(());
    };
    for key in 0..6u8 {
        let before = shown(&ledger, &putter, &taker);
        let hash = key as u64;
        let answer = match ledger.put(&mut putter, hash, key, 1) {
            Err(MailError::Memory(held))
                if held == key && before == shown(&ledger, &putter, &taker) => {
                ledger.put(&mut putter, hash, key, 1)
            }
            answer => answer,
        };
        let put = answer.is_ok();
        writeln!(out, "put {key} {put}")?;
    }
    for _ in 0..4 {
        let before = shown(&ledger, &putter, &taker);
        let answer = match ledger.take(&mut taker) {
            Err(_) if before == shown(&ledger, &putter, &taker) => ledger.take(&mut taker),
            answer => answer,
        };
        let Ok(Some((slip, key))) = answer else {
            writeln!(out, "nothing")?;
            continue;
        };
        let number = slip.number;
        writeln!(out, "took {number} {key}")?;
    }
    ledger.leave();
    let all = shown(&ledger, &putter, &taker);
    writeln!(out, "left {all:?}")
}
