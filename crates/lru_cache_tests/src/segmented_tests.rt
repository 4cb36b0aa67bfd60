//! A cache in two segments, small enough to be told by hand.
use lru_owned_cache::cache::{Cache, Cause};
use lru_segmented::segmented::SegmentedCache;
use std::alloc::{AllocError, Global};
use std::test::Fail;

// What a step asks for.
#[derive(Clone, Copy)]
enum Step {
    // a put of this weight
    Put(usize),
    Use,
    Update,
    Request,
    Remove,
    Pop,
    Look,
}

// The keys of the upper segment, and those of the lower one.
fn shown(alloc: Global, cache: &SegmentedCache<char, u32>) -> Result<String, AllocError> {
    let mut text = String::new(alloc);
    let mut protected = cache.protected_len();
    for (key, _, _) in cache.iter() {
        if protected == 0 {
            text.push('|')?;
        }
        protected = protected.wrapping_sub(1);
        text.push(*key)?;
    }
    Ok(text)
}

// Makes a step of a key, and tells what came of it: its answer, and the keys that went.
fn told(
    alloc: Global,
    cache: &mut SegmentedCache<char, u32>,
    step: Step,
    key: char,
) -> Result<String, AllocError> {
    let mut gone = 0u32;
    match step {
        Step::Put(weight) => {
            let put = cache.put(key, key as u32, weight, |_entry| {
                gone = gone.wrapping_add(1)
            });
            match put {
                Ok(None) => format!(in alloc; "put {gone}"),
                Ok(Some(was)) => format!(in alloc; "was {} {gone}", was.weight),
                Err(refused) => format!(in alloc; "{:?} {}", refused.cause, refused.key),
            }
        }
        Step::Use => {
            let used = cache.promote(&key);
            format!(in alloc; "{used}")
        }
        Step::Update => {
            let weight = cache.update(&key, |_value, weight| weight);
            format!(in alloc; "{weight:?}")
        }
        Step::Request => {
            let asked = cache.use_or_put(
                key,
                || Ok::<(u32, usize), ()>((0, 1)),
                |_entry| gone = gone.wrapping_add(1),
            );
            match asked {
                Ok(used) => format!(in alloc; "{used} {gone}"),
                Err(_) => format!(in alloc; "refused"),
            }
        }
        Step::Remove => {
            let removed = cache.remove(&key).map(|entry| entry.weight);
            format!(in alloc; "{removed:?}")
        }
        Step::Pop => {
            let last = cache.pop_last().map(|entry| entry.key);
            format!(in alloc; "{last:?}")
        }
        Step::Look => {
            let weight = cache.weight_of(&key);
            let there = cache.contains(&key) && cache.peek(&key).is_some();
            format!(in alloc; "{weight:?} {there}")
        }
    }
}

// Steps of a cache of 6, of which the upper segment may have 3, each with its answer and with the entries that it leaves.
static STEPS: [(Step, char, &str, &str); 27] = [
    (Step::Put(1), 'a', "put 0", "|a"),
    (Step::Put(1), 'b', "put 0", "|ba"),
    (Step::Use, 'a', "true", "a|b"),
    (Step::Use, 'x', "false", "a|b"),
    (Step::Use, 'b', "true", "ba"),
    (Step::Put(1), 'c', "put 0", "ba|c"),
    (Step::Update, 'c', "Some(1)", "cba"),
    (Step::Put(1), 'd', "put 0", "cba|d"),
    // the upper segment is full: its last goes to the lower one
    (Step::Use, 'd', "true", "dcb|a"),
    (Step::Put(2), 'e', "put 0", "dcb|ea"),
    // a walk over new keys takes nothing from the upper segment
    (Step::Put(1), 'f', "put 1", "dcb|fe"),
    (Step::Put(1), 'g', "put 1", "dcb|gf"),
    (Step::Request, 'h', "false 0", "dcb|hgf"),
    (Step::Request, 'i', "false 1", "dcb|ihg"),
    (Step::Request, 'g', "true 0", "gdc|bih"),
    // what does not fit beside it takes its last
    (Step::Put(4), 'j', "put 4", "gd|j"),
    (Step::Put(7), 'k', "TooHeavy k", "gd|j"),
    // a put over an entry is a use: heavier than the share, it takes all down
    (Step::Put(4), 'j', "was 4 0", "|jgd"),
    (Step::Put(2), 'j', "was 4 0", "j|gd"),
    (Step::Use, 'd', "true", "dj|g"),
    (Step::Use, 'g', "true", "gd|j"),
    (Step::Look, 'j', "Some(2) true", "gd|j"),
    (Step::Remove, 'j', "Some(2)", "gd"),
    (Step::Remove, 'j', "None", "gd"),
    (Step::Put(1), 'l', "put 0", "gd|l"),
    (Step::Pop, '_', "Some('l')", "gd"),
    (Step::Pop, '_', "Some('d')", "g"),
];

#[test]
fn steps_are_as_told_by_hand(rt: HostRuntime) -> Result<(), Fail> {
    let alloc = rt.alloc();
    let mut cache = SegmentedCache::with_protected_and_seed(alloc, 6, 6, 3, 7)?;
    for (step, key, answer, left) in &STEPS {
        let is = told(alloc, &mut cache, *step, *key)?;
        let now = shown(alloc, &cache)?;
        let wrong = if is.as_str() == *answer && now.as_str() == *left {
            String::new(alloc)
        } else {
            format!(in alloc; "{key}: {is} {now}")?
        };
        assert_eq!(rt; wrong.as_str(), "");
    }
    Ok(())
}

// Whether two caches hold the same entries in the same order.
fn are_alike(plain: &Cache<u32, u32>, segmented: &SegmentedCache<u32, u32>) -> bool {
    if plain.len() != segmented.len() || plain.weight() != segmented.weight() {
        return false;
    }
    for (one, other) in plain.iter().zip(segmented.iter()) {
        if one.0 != other.0 || one.1 != other.1 || one.2 != other.2 {
            return false;
        }
    }
    true
}

// Makes the same call of both, told by a drawn word, and answers whether both answer the same. Entries may weigh nothing.
fn answer_alike(
    plain: &mut Cache<u32, u32>,
    segmented: &mut SegmentedCache<u32, u32>,
    word: u32,
) -> bool {
    let (key, weight) = ((word >> 16) % 12, ((word >> 8) % 5) as usize);
    match (word >> 24) % 6 {
        0 | 1 => {
            let one = plain.put(key, word, weight, |_gone| {});
            let other = segmented.put(key, word, weight, |_gone| {});
            one.is_ok_and(|was| was.is_some()) == other.is_ok_and(|was| was.is_some())
        }
        2 => plain.promote(&key) == segmented.promote(&key),
        3 => {
            let one = plain.update(&key, |_value, weight| weight);
            one == segmented.update(&key, |_value, weight| weight)
        }
        4 => plain.remove(&key).is_some() == segmented.remove(&key).is_some(),
        _ => plain.pop_last().is_some() == segmented.pop_last().is_some(),
    }
}

#[test]
fn without_a_share_it_is_a_cache(rt: HostRuntime) -> Result<(), Fail> {
    let alloc = rt.alloc();
    let mut plain = Cache::with_seed(alloc, 16, 8, 7)?;
    let mut segmented = SegmentedCache::with_protected_and_seed(alloc, 16, 8, 0, 7)?;
    let (mut word, mut wrong) = (1u32, 0u32);
    for _ in 0..3000 {
        word = word.wrapping_mul(1_664_525).wrapping_add(1_013_904_223);
        let answers = answer_alike(&mut plain, &mut segmented, word);
        if !answers || !are_alike(&plain, &segmented) || segmented.protected_len() != 0 {
            wrong = wrong.wrapping_add(1);
        }
    }
    assert_eq!(rt; wrong, 0);
    Ok(())
}

// What is wrong with a cache of texts that is asked by what they lend, empty where nothing is.
fn wrong_by_texts(alloc: Global) -> Result<String, AllocError> {
    let mut cache = SegmentedCache::with_protected(alloc, 4, 4, 2)?;
    for word in ["a", "b", "c"] {
        let key = String::from_str(alloc, word)?;
        if cache.put(key, 1u32, 1, |_gone| {}).is_err() {
            return format!(in alloc; "a put");
        }
    }
    if !cache.promote_by("a") || cache.update_by("b", |value, _| *value) != Some(1) {
        return format!(in alloc; "a use");
    }
    if cache.protected_weight() != 2 || cache.protected_len() != 2 || cache.weight() != 3 {
        return format!(in alloc; "a weight");
    }
    if cache.peek_by("c") != Some(&1) || cache.contains_by("d") || cache.remove_by("c").is_none() {
        return format!(in alloc; "a look");
    }
    if cache.reserve(10).is_err() || cache.reserve(usize::MAX).is_ok() {
        return format!(in alloc; "room");
    }
    // the upper segment gets half of its share, and its last entry becomes the first of the lower one
    let mut gone = 0u32;
    cache.set_limits(3, 3, 1, |_entry| gone = gone.wrapping_add(1));
    if gone != 0 || cache.protected_len() != 1 || cache.most_protected() != 1 {
        return format!(in alloc; "a share");
    }
    cache.set_limits(3, 1, 1, |_entry| gone = gone.wrapping_add(1));
    if gone != 1 || cache.most_weight() != 3 || cache.most_entries() != 1 {
        return format!(in alloc; "limits");
    }
    cache.clear(|_entry| gone = gone.wrapping_add(1));
    if gone != 2 || !cache.is_empty() {
        return format!(in alloc; "all go");
    }
    Ok(String::new(alloc))
}

#[test]
fn texts_are_found_by_what_they_lend(rt: HostRuntime) -> Result<(), Fail> {
    let wrong = wrong_by_texts(rt.alloc())?;
    assert_eq!(rt; wrong.as_str(), "");
    Ok(())
}

// The entries of a cache in two segments go and stay as they are asked for, told by their keys.
fn walked(alloc: Global) -> Result<String, AllocError> {
    let mut cache = SegmentedCache::with_protected_and_seed(alloc, 6, 6, 3, 7)?;
    let mut text = String::new(alloc);
    for key in ['a', 'b', 'c', 'd'] {
        if cache.put(key, key as u32, 1, |_gone| {}).is_err() {
            return format!(in alloc; "a put");
        }
    }
    if !cache.promote(&'a') || !cache.promote(&'c') || !cache.demote(&'a') {
        return format!(in alloc; "a use");
    }
    // c | d b a
    text.push_str(shown(alloc, &cache)?.as_str())?;
    if let Some((key, _, _)) = cache.peek_last() {
        text.push(*key)?;
    }
    let mut gone = 'z';
    cache.retain_last(
        2,
        |key: &char, _value: &u32, _weight: usize| *key == 'a',
        |entry| gone = entry.key,
    );
    text.push(gone)?;
    cache.retain(|key: &char, _value: &u32, _weight: usize| *key != 'd');
    text.push_str(shown(alloc, &cache)?.as_str())?;
    if let Some(entry) = cache.pop_first() {
        text.push(entry.key)?;
    }
    cache.drain(|entry| gone = entry.key);
    text.push(gone)?;
    Ok(text)
}

#[test]
fn walks_keep_the_segments(rt: HostRuntime) -> Result<(), Fail> {
    assert_eq!(rt; walked(rt.alloc())?.as_str(), "c|dbaabc|aca");
    Ok(())
}
