//! The phases of a plan.

use crate::order::Order;
use std::alloc::Global;

const MARK: usize = 7777;

/// What a phase does with each of its keys.
#[derive(Clone, Copy)]
enum Work {
    Admit,
    Promote,
    Peek,
    PeekWeight,
    AdmitAndEvict,
    Remove,
    Iterate,
    GetOrAdmit,
}

impl Work {
    fn of(number: u64) -> Option<Work> {
        Some(match number {
            0 => Work::Admit,
            1 => Work::Promote,
            2 => Work::Peek,
            3 => Work::PeekWeight,
            4 => Work::AdmitAndEvict,
            5 => Work::Remove,
            6 => Work::Iterate,
            7 => Work::GetOrAdmit,
            _ => return None,
        })
    }
}

// A harness sees this request, and reads its clock.
fn mark(alloc: Global) {
    let _room = Vec::<u8>::with_capacity(alloc, MARK);
}

fn walk<O: Order>(order: &mut O, work: Work, keys: &[u64]) -> u64 {
    let count = match work {
        Work::Admit => keys.iter().filter(|key| order.admit(**key)).count(),
        Work::Promote => keys.iter().filter(|key| order.promote(**key)).count(),
        Work::Peek => keys.iter().filter(|key| order.peek(**key)).count(),
        Work::PeekWeight => keys.iter().filter(|key| order.peek_weight(**key)).count(),
        Work::AdmitAndEvict => keys
            .iter()
            .filter(|key| order.admit_and_evict(**key))
            .count(),
        Work::Remove => keys.iter().filter(|key| order.remove(**key)).count(),
        Work::GetOrAdmit => keys.iter().filter(|key| order.get_or_admit(**key)).count(),
        Work::Iterate => return order.odd_rows(),
    };
    count as u64
}

/// Runs the phases in turn, and answers how many ran.
pub fn run<O: Order>(
    alloc: Global,
    order: &mut O,
    plan: &[u64],
    keys: &[u64],
    counts: &mut [u64],
) -> usize {
    mark(alloc);
    let phases = (plan.len() / 3).min(counts.len());
    for (done, (phase, count)) in plan.chunks_exact(3).zip(counts.iter_mut()).enumerate() {
        let (Some(work), Some(part)) = (
            Work::of(phase[0]),
            keys.get(phase[1] as usize..phase[2] as usize),
        ) else {
            return done;
        };
        *count = walk(order, work, part);
        mark(alloc);
    }
    phases
}
