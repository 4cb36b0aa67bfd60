//! A list of calls, done one by one: the text of each answer, and of both tiers after it.
use lru_cores::lru_core::LruCore;
use lru_cores::tiered::TieredCore;
use rand::rngs::StdRng;
use std::alloc::{AllocError, Global};

// A call of two tiers, and what it is given. A key's data are ten times the key.
#[derive(Clone, Copy)]
pub enum Call {
    Admit { key: u64, weight: usize },
    Touch { key: u64 },
    Remove { key: u64 },
    PeekWeight { key: u64 },
    // Draws past the shards are answered as none.
    SpillStep { a: usize, b: usize },
    Balance,
}

// A call, the text of its answer, and that of both tiers after it.
pub type Step = (Call, &'static str, &'static str);

fn spill<const N: usize>(
    alloc: Global,
    tiered: &mut TieredCore<u64, N>,
    a: usize,
    b: usize,
) -> Result<String, AllocError> {
    if a >= N || b >= N {
        return format!(in alloc; "none");
    }
    let answer = tiered.spill_step(a, b);
    format!(in alloc; "{answer:?}")
}

fn answer_of<const N: usize>(
    alloc: Global,
    tiered: &mut TieredCore<u64, N>,
    rng: &mut StdRng,
    call: Call,
) -> Result<String, AllocError> {
    match call {
        Call::Admit { key, weight } => {
            let answer = tiered.admit(key, key.wrapping_mul(10), weight);
            format!(in alloc; "{answer:?}")
        }
        Call::Touch { key } => {
            let answer = tiered.touch(key);
            format!(in alloc; "{answer:?}")
        }
        Call::Remove { key } => {
            let answer = tiered.remove(key);
            format!(in alloc; "{answer:?}")
        }
        Call::PeekWeight { key } => {
            let answer = tiered.peek_weight(key);
            format!(in alloc; "{answer:?}")
        }
        Call::SpillStep { a, b } => spill(alloc, tiered, a, b),
        Call::Balance => {
            let answer = tiered.balance(alloc, rng);
            format!(in alloc; "{answer:?}")
        }
    }
}

// The data and the weights of each shard, most recent first, and how many rows were evicted.
fn write_core<const N: usize>(
    text: &mut String,
    name: &str,
    core: &LruCore<u64, N>,
) -> Result<(), AllocError> {
    write!(text, "{name}")?;
    for shard in 0..core.shards() {
        write!(text, " [")?;
        for (data, weight) in core.iter_shard(shard) {
            write!(text, " {data}:{weight}")?;
        }
        write!(text, " ]")?;
    }
    let evicted = core.evicted_len();
    write!(text, " evicted {evicted} ")
}

// Does the calls, and answers the place of the first one that answers or leaves something else.
pub fn fault<const N: usize>(
    alloc: Global,
    tiered: &mut TieredCore<u64, N>,
    rng: &mut StdRng,
    steps: &[Step],
) -> Result<Option<usize>, AllocError> {
    for (place, (call, answer, left)) in steps.iter().enumerate() {
        let answers = answer_of(alloc, tiered, rng, *call)?;
        let mut leaves = String::new(alloc);
        write_core(&mut leaves, "hot", tiered.hot())?;
        write_core(&mut leaves, "cold", tiered.cold())?;
        if answers.as_str() != *answer || leaves.as_str() != *left {
            return Ok(Some(place));
        }
    }
    Ok(None)
}
