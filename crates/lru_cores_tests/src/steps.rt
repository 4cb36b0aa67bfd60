//! A list of calls, done one by one: the text of each reply, and of the core after it.
ghost use Rattle.std.specs.Prelude.{◌<◌};

use crate::asked::{Step, call_of};
use lru_cores::calls::{Call, Reply, answer};
use lru_cores::lru_core::LruCore;
use rand::rngs::StdRng;
use std::alloc::{AllocError, Global};

/// The data and the weights of a shard, most recent first.
pub fn rows_of<const N: usize>(
    alloc: Global,
    core: &LruCore<u64, N>,
    shard: usize,
) -> Result<Vec<(u64, usize)>, AllocError>
    requires { shard < N }
{
    let mut rows = Vec::new(alloc);
    for (data, weight) in core.iter_shard(shard) {
        rows.push((*data, weight))?;
    }
    Ok(rows)
}

/// The weight of a core, and the rows of each shard.
pub fn shown<const N: usize>(alloc: Global, core: &LruCore<u64, N>) -> Result<String, AllocError> {
    let weight = core.weight();
    let mut text = format!(in alloc; "{weight}:")?;
    for shard in 0..core.shards() {
        let rows = rows_of(alloc, core, shard)?;
        write!(text, " {rows:?}")?;
    }
    Ok(text)
}

// A step of evictions asks for two shards that are there.
fn reply_of<const N: usize>(
    core: &mut LruCore<u64, N>,
    alloc: Global,
    rng: &mut StdRng,
    call: Call<u64>,
) -> Reply<u64> {
    if let Call::EvictStep { a, b } = &call
        && (*a >= N || *b >= N)
    {
        return Reply::Left(None);
    }
    answer(core, alloc, rng, call)
}

/// Does a call, and says what is otherwise than it has to be; nothing, where all is well.
pub fn fault<const N: usize>(
    alloc: Global,
    core: &mut LruCore<u64, N>,
    rng: &mut StdRng,
    step: Step,
) -> Result<String, AllocError> {
    let (asked, reply, left) = step;
    let answer = reply_of(core, alloc, rng, call_of(asked));
    let answer = format!(in alloc; "{answer:?}")?;
    let shown = shown(alloc, core)?;
    if answer.as_str() == reply && shown.as_str() == left {
        return Ok(String::new(alloc));
    }
    format!(in alloc; "{asked:?} answers {answer} and leaves {shown}\n")
}

/// The faults of steps that are done in turn.
pub fn faults<const N: usize>(
    alloc: Global,
    core: &mut LruCore<u64, N>,
    rng: &mut StdRng,
    steps: &[Step],
) -> Result<String, AllocError> {
    let mut faults = String::new(alloc);
    for step in steps {
        faults.push_str(fault(alloc, core, rng, *step)?.as_str())?;
    }
    Ok(faults)
}
