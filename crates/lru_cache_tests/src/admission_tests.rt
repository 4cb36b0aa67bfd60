//! A sketch and a cache that asks it, small enough to be told by hand.
use lru_admission::admission::{AskingCache, NotAdmitted};
use lru_admission::sketch::Sketch;
use std::alloc::{AllocError, Global};
use std::test::Fail;

// What is wrong with a sketch, empty where nothing is.
fn wrong_sketch(alloc: Global) -> Result<String, AllocError> {
    let mut sketch = Sketch::new(alloc, 0)?;
    if sketch.entries() != 1 || sketch.uses() != 0 || sketch.estimate(7) != 0 {
        return format!(in alloc; "a new sketch");
    }
    for use_number in 1..10u8 {
        sketch.count(7);
        if sketch.estimate(7) != use_number || sketch.uses() != use_number as usize {
            return format!(in alloc; "use {use_number}");
        }
    }
    // the tenth use of a sketch of one entry halves ten to five
    sketch.count(7);
    if sketch.estimate(7) != 5 || sketch.uses() != 0 {
        return format!(in alloc; "a halving");
    }
    sketch.halve();
    if sketch.estimate(7) != 2 {
        return format!(in alloc; "a halving by hand");
    }
    let mut large = Sketch::new(alloc, 1000)?;
    for _ in 0..20 {
        large.count(7);
    }
    if large.estimate(7) != 15 || large.entries() != 1000 {
        return format!(in alloc; "fifteen at most");
    }
    if Sketch::new(alloc, usize::MAX).is_ok() || Sketch::new(alloc, usize::MAX / 10 + 1).is_ok() {
        return format!(in alloc; "too large a sketch");
    }
    Ok(String::new(alloc))
}

fn text(alloc: Global, word: &str) -> Result<String, AllocError> {
    String::from_str(alloc, word)
}

// How a put of a key with a number went, and which entries went for it.
fn put_of(
    alloc: Global,
    cache: &mut AskingCache<String, u32>,
    key: &str,
    value: u32,
) -> Result<String, AllocError> {
    let mut gone = 0u32;
    let put = cache.put(text(alloc, key)?, value, 1, |entry| {
        gone = gone.wrapping_add(entry.value)
    });
    match put {
        Ok(None) => format!(in alloc; "put {gone}"),
        Ok(Some(was)) => format!(in alloc; "was {} {gone}", was.value),
        Err(NotAdmitted::Rarer(key, value)) => format!(in alloc; "rarer {key} {value} {gone}"),
        Err(NotAdmitted::Refused(refused)) => format!(in alloc; "refused {:?}", refused.cause),
    }
}

// Uses of keys, where the number is 0, and puts of numbers, and how each put goes. Room is for two: a, used twice, and b stand
// there when c comes. After its third use c was used more often than a, which goes; d, never used, does not get in; b, which
// would go for it, is put again.
static STEPS: [(&str, u32, &str); 12] = [
    ("a", 0, ""),
    ("a", 0, ""),
    ("a", 1, "put 0"),
    ("b", 0, ""),
    ("b", 2, "put 0"),
    ("c", 0, ""),
    ("c", 3, "rarer c 3 0"),
    ("c", 0, ""),
    ("c", 0, ""),
    ("c", 3, "put 1"),
    ("d", 4, "rarer d 4 0"),
    ("b", 5, "was 2 0"),
];

// How a step goes; a use tells nothing.
fn step_of(
    alloc: Global,
    cache: &mut AskingCache<String, u32>,
    key: &str,
    value: u32,
) -> Result<String, AllocError> {
    if value == 0 {
        let _is_there = cache.promote(&text(alloc, key)?);
        return Ok(String::new(alloc));
    }
    put_of(alloc, cache, key, value)
}

// The first step that goes otherwise than it should; empty where none does.
fn wrong_step(alloc: Global, cache: &mut AskingCache<String, u32>) -> Result<String, AllocError> {
    for (key, value, wanted) in &STEPS {
        let told = step_of(alloc, cache, key, *value)?;
        if told.as_str() != *wanted {
            return format!(in alloc; "{key} {value}: {told}");
        }
    }
    Ok(String::new(alloc))
}

// Whether b and c stand there as the steps leave them.
fn are_left(cache: &AskingCache<String, u32>, b: &String, c: &String) -> bool {
    cache.estimate(c) == 3 && cache.cache().peek(b) == Some(&5) && cache.cache().len() == 2
}

// Whether c is used, b goes last, and then c, once.
fn are_taken(cache: &mut AskingCache<String, u32>, b: &String, c: &String) -> bool {
    let used = cache.update(c, |value, weight| weight.wrapping_add(*value as usize));
    let last = cache.pop_last().map(|entry| entry.value);
    used == Some(4) && last == Some(5) && cache.remove(c).is_some() && cache.remove(b).is_none()
}

// Whether nothing is left, and what the limit is.
fn is_cleared(cache: &mut AskingCache<String, u32>) -> bool {
    cache.set_limits(1, 1, |_gone| {});
    cache.clear(|_gone| {});
    cache.cache().is_empty() && cache.cache().most_entries() == 1
}

fn told_of_cache(alloc: Global) -> Result<String, AllocError> {
    let mut cache = AskingCache::with_seed(alloc, 2, 2, 1000, 7)?;
    let wrong = wrong_step(alloc, &mut cache)?;
    let (b, c) = (text(alloc, "b")?, text(alloc, "c")?);
    let left = are_left(&cache, &b, &c);
    let taken = are_taken(&mut cache, &b, &c);
    let put = put_of(alloc, &mut cache, "e", 6)?;
    let cleared = is_cleared(&mut cache);
    format!(in alloc; "{wrong}{left} {taken} {put} {cleared}")
}

#[test]
fn uses_are_counted_and_asked_after(rt: HostRuntime) -> Result<(), Fail> {
    let mut told = wrong_sketch(rt.alloc())?;
    told.push_str(&told_of_cache(rt.alloc())?)?;
    assert_eq!(rt; told.as_str(), "true true put 0 true");
    Ok(())
}
