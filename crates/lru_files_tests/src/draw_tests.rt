//! The seed's generator draws the shards of each eviction to the limit.
use crate::run_tests::answers;
use pingora_lru::lru_core::LruCore;
use pingora_lru_files::snapshot::Keyed;
use rand::rngs::StdRng;
use rand_core::SeedableRng;
use std::alloc::{AllocError, Global};
use std::test::Fail;

const ADMITTED: &str = "0\n1\n0\n1\n0\n1\n0\n1\n0\n1\n0\n1\n";

/// Whether twelve rows of weight 1 are admitted, each to its shard.
fn are_admitted(core: &mut LruCore<Keyed, 2>) -> bool {
    let mut are_right = true;
    for key in 0..12 {
        let answer = core.admit(key, Keyed { key, value: key }, 1);
        are_right &= matches!(answer, Ok(shard) if shard as u64 == key % 2);
    }
    are_right
}

/// What is written for pairs that an eviction to a limit gives.
fn tell(text: &mut String, pairs: &[(Keyed, usize)]) -> Result<(), AllocError> {
    let count = pairs.len();
    write!(text, "ok\n{count}")?;
    for (data, weight) in pairs {
        let (key, value) = (data.key, data.value);
        write!(text, " {key}:{value}:{weight}")?;
    }
    text.push_str("\n")
}

/// What is written for two evictions with one generator.
fn tell_both(
    alloc: Global,
    core: &mut LruCore<Keyed, 2>,
    rng: &mut StdRng,
    text: &mut String,
) -> Result<(), AllocError> {
    for limit in [6, 2] {
        core.set_weight_limit(limit);
        match core.evict_to_limit(alloc, rng) {
            Ok(pairs) => tell(text, &pairs)?,
            Err(_) => text.push_str("refused\n")?,
        }
    }
    Ok(())
}

// What is written for twelve rows of weight 1, and two evictions. None where a row is not admitted.
fn expected(alloc: Global, seed: u64) -> Result<Option<String>, AllocError> {
    let mut core = LruCore::<Keyed, 2>::with_capacity(alloc, 6, 0)?;
    if !are_admitted(&mut core) {
        return Ok(None);
    }
    let mut text = String::from_str(alloc, ADMITTED)?;
    tell_both(
        alloc,
        &mut core,
        &mut StdRng::seed_from_u64(seed),
        &mut text,
    )?;
    Ok(Some(text))
}

/// The lines that the program reads.
fn lines(alloc: Global) -> Result<String, AllocError> {
    let mut input = String::new(alloc);
    for key in 0..12u64 {
        write!(input, "admit {key} {key} 1\n")?;
    }
    input.push_str("setlimit 6\nlimit\nsetlimit 2\nlimit\n")?;
    Ok(input)
}

/// How many of ten seeds draw as their generators do, and whether two of them differ.
fn draws(alloc: Global) -> Result<(usize, bool), AllocError> {
    let input = lines(alloc)?;
    let first = expected(alloc, 0)?;
    let (mut right, mut differ) = (0_usize, false);
    for seed in 0..10u64 {
        let arguments = format!(in alloc; "9 - {seed}")?;
        let text = expected(alloc, seed)?;
        if let Some(text) = &text
            && answers(alloc, &arguments, &input, 0, text)?
        {
            right = right.saturating_add(1);
        }
        differ = differ | (text != first);
    }
    Ok((right, differ))
}

#[test]
fn draws_from_the_seed(rt: HostRuntime) -> Result<(), Fail> {
    assert_eq!(rt; draws(rt.alloc())?, (10, true));
    Ok(())
}
