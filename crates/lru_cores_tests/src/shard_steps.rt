//! A list of calls, done one by one: the text of each answer, and of the shard after it.
use lru_shard::unit::LruUnit;
use std::alloc::{AllocError, Global};

// A call of a shard, and what it is given. A closure that is called for data gives these.
#[derive(Clone, Copy)]
pub enum Call {
    Admit {
        key: u64,
        data: u64,
        weight: usize,
    },
    InsertTail {
        key: u64,
        data: u64,
        weight: usize,
    },
    // Answers whether data were made, too.
    Increment {
        key: u64,
        data: u64,
        delta: usize,
        most: Option<usize>,
    },
    // A present key gets the data and the weight, as a missing one does. Answers whether data were made, too.
    Update {
        key: u64,
        data: u64,
        weight: usize,
    },
    SetWeight {
        key: u64,
        weight: usize,
    },
    Access {
        key: u64,
    },
    Remove {
        key: u64,
    },
    Evict,
    Peek {
        key: u64,
    },
    PeekWeight {
        key: u64,
    },
    NeedPromote {
        key: u64,
        limit: usize,
    },
}

// A call, the text of its answer, and that of the shard after it.
pub type Step = (Call, &'static str, &'static str);

fn increment(
    alloc: Global,
    unit: &mut LruUnit<u64>,
    key: u64,
    data: u64,
    delta: usize,
    most: Option<usize>,
) -> Result<String, AllocError> {
    let mut made = false;
    let answer = unit.increment_weight(
        key,
        || {
            made = true;
            data
        },
        delta,
        most,
    );
    format!(in alloc; "{answer:?} {made}")
}

fn update(
    alloc: Global,
    unit: &mut LruUnit<u64>,
    key: u64,
    data: u64,
    weight: usize,
) -> Result<String, AllocError> {
    let mut made = false;
    let answer = unit.update_or_admit(
        key,
        |old: &mut u64, _: usize| {
            *old = data;
            weight
        },
        || {
            made = true;
            (data, weight)
        },
    );
    format!(in alloc; "{answer:?} {made}")
}

fn answer_of(alloc: Global, unit: &mut LruUnit<u64>, call: Call) -> Result<String, AllocError> {
    match call {
        Call::Admit { key, data, weight } => {
            let answer = unit.admit(key, data, weight);
            format!(in alloc; "{answer:?}")
        }
        Call::InsertTail { key, data, weight } => {
            let answer = unit.insert_tail(key, data, weight);
            format!(in alloc; "{answer:?}")
        }
        Call::Increment {
            key,
            data,
            delta,
            most,
        } => increment(alloc, unit, key, data, delta, most),
        Call::Update { key, data, weight } => update(alloc, unit, key, data, weight),
        Call::SetWeight { key, weight } => {
            let answer = unit.set_weight(key, weight);
            format!(in alloc; "{answer:?}")
        }
        Call::Access { key } => {
            let answer = unit.access(key);
            format!(in alloc; "{answer}")
        }
        Call::Remove { key } => {
            let answer = unit.remove(key);
            format!(in alloc; "{answer:?}")
        }
        Call::Evict => {
            let answer = unit.evict();
            format!(in alloc; "{answer:?}")
        }
        Call::Peek { key } => {
            let answer = unit.peek(key).copied();
            format!(in alloc; "{answer:?}")
        }
        Call::PeekWeight { key } => {
            let answer = unit.peek_weight(key);
            format!(in alloc; "{answer:?}")
        }
        Call::NeedPromote { key, limit } => {
            let answer = unit.need_promote(key, limit);
            format!(in alloc; "{answer}")
        }
    }
}

// The weight of a shard, its keys, and its data and weights, most recent first.
pub fn shown(alloc: Global, unit: &LruUnit<u64>) -> Result<String, AllocError> {
    let weight = unit.used_weight();
    let mut text = format!(in alloc; "{weight}:")?;
    for (key, (data, weight)) in unit.keys().zip(unit.iter()) {
        write!(text, " {key}={data} {weight},")?;
    }
    Ok(text)
}

// Does the calls, and answers the place of the first one that answers or leaves something else.
pub fn fault(
    alloc: Global,
    unit: &mut LruUnit<u64>,
    steps: &[Step],
) -> Result<Option<usize>, AllocError> {
    for (place, (call, answer, left)) in steps.iter().enumerate() {
        let answers = answer_of(alloc, unit, *call)?;
        let leaves = shown(alloc, unit)?;
        if answers.as_str() != *answer || leaves.as_str() != *left {
            return Ok(Some(place));
        }
    }
    Ok(None)
}
