//! Each key and each value is dropped once, and by nobody but who holds it: the cache, or the caller it was handed to.
use crate::counted::Counted;
use lru_owned_cache::cache::{Cache, Entry};
use std::alloc::{AllocError, Global};
use std::cell::Cell;
use std::test::Fail;

type Counts<'a> = Cache<Counted<'a>, Counted<'a>>;

// How many keys and how many values were dropped.
#[derive(Drop)]
struct Drops {
    keys: Cell<u64>,
    values: Cell<u64>,
}

impl Drops {
    fn none() -> Self {
        Drops {
            keys: Cell::new(0),
            values: Cell::new(0),
        }
    }

    // Whether as many keys and as many values were dropped.
    fn are(&self, each: u64) -> bool {
        (self.keys.get(), self.values.get()) == (each, each)
    }
}

fn key<'a>(drops: &'a Drops, number: u32, letter: char) -> Counted<'a> {
    Counted::new(number, letter, &drops.keys)
}

// Puts an entry that weighs 1, whose key and value have a letter. Whether the letters of what was there are these, and those
// of the last that goes these.
fn puts<'a>(
    drops: &'a Drops,
    cache: &mut Counts<'a>,
    (number, letter): (u32, char),
    was: Option<(char, char)>,
    gone: Option<(char, char)>,
) -> bool {
    let value = Counted::new(number, letter, &drops.values);
    let mut last = None;
    let answer = cache.put(key(drops, number, letter), value, 1, |entry| {
        last = Some((entry.key.letter, entry.value.letter));
    });
    let answers = match answer {
        Ok(Some(entry)) => Ok(Some((entry.key.letter, entry.value.letter))),
        Ok(None) => Ok(None),
        Err(refused) => Err(refused.cause),
    };
    (answers == Ok(was)) & (last == gone)
}

// The letters of an entry that was taken out.
fn letters(entry: Option<Entry<Counted<'_>, Counted<'_>>>) -> Option<(char, char)> {
    let entry = entry?;
    Some((entry.key.letter, entry.value.letter))
}

// Whether the old key of an entry that is put over is handed back with the old value, and the new one stands in the cache.
fn are_put_over(drops: &Drops, alloc: Global) -> Result<bool, AllocError> {
    let mut cache = Counts::new(alloc, 9, 9)?;
    let are_new = puts(drops, &mut cache, (1, 'a'), None, None)
        & puts(drops, &mut cache, (2, 'b'), None, None)
        & drops.are(0);
    let is_old = puts(drops, &mut cache, (1, 'c'), Some(('a', 'a')), None) & drops.are(1);
    let stands = letters(cache.remove(&key(drops, 1, '-'))) == Some(('c', 'c'));
    Ok(are_new & is_old & stands)
}

#[test]
fn a_put_over_an_entry_hands_the_old_key_back(rt: HostRuntime) -> Result<(), Fail> {
    let drops = Drops::none();
    assert!(rt; are_put_over(&drops, rt.alloc())?);
    // of the key that was put over, of the one that was taken out and of that of the look-up; and the last with the cache
    assert_eq!(rt; (drops.keys.get(), drops.values.get()), (4, 3));
    Ok(())
}

// Whether each call drops as many as it hands over, and nothing else does.
fn are_dropped_once(drops: &Drops, alloc: Global) -> Result<[bool; 7], AllocError> {
    let mut cache = Counts::with_seed(alloc, 3, 9, 5)?;
    let fit = puts(drops, &mut cache, (1, 'a'), None, None)
        & puts(drops, &mut cache, (2, 'b'), None, None)
        & puts(drops, &mut cache, (3, 'c'), None, None)
        & drops.are(0);
    let is_evicted = puts(drops, &mut cache, (4, 'd'), None, Some(('a', 'a'))) & drops.are(1);
    let is_last = (letters(cache.pop_last()) == Some(('b', 'b'))) & drops.are(2);
    let is_first = (letters(cache.pop_first()) == Some(('d', 'd'))) & drops.are(3);
    let are_more = puts(drops, &mut cache, (5, 'e'), None, None)
        & puts(drops, &mut cache, (6, 'f'), None, None)
        & drops.are(3);
    cache.retain(|key, _value, _weight| key.number != 5);
    let is_retained = drops.are(4) & (cache.len() == 2);
    cache.clear(|_gone| {});
    let is_clear = drops.are(6) & cache.is_empty();
    let is_used_again = puts(drops, &mut cache, (7, 'g'), None, None)
        & puts(drops, &mut cache, (8, 'h'), None, None)
        & drops.are(6);
    Ok([
        fit,
        is_evicted,
        is_last & is_first,
        are_more,
        is_retained,
        is_clear,
        is_used_again,
    ])
}

#[test]
fn what_goes_is_dropped_once(rt: HostRuntime) -> Result<(), Fail> {
    let drops = Drops::none();
    assert_eq!(rt; are_dropped_once(&drops, rt.alloc())?, [true; 7]);
    // and those that were left with the cache
    assert!(rt; drops.are(8));
    Ok(())
}

// Whether a refused put hands key and value back, and drops neither.
fn is_handed_back(drops: &Drops, alloc: Global) -> Result<bool, AllocError> {
    let mut cache = Counts::new(alloc, 9, 9)?;
    let value = Counted::new(1, 'a', &drops.values);
    let is_fair = match cache.put(key(drops, 1, 'a'), value, 10, |_gone| {}) {
        Ok(_) => false,
        Err(refused) => (refused.key.letter == 'a') & (refused.value.letter == 'a') & drops.are(0),
    };
    Ok(is_fair & cache.is_empty())
}

#[test]
fn what_is_refused_is_dropped_by_its_caller(rt: HostRuntime) -> Result<(), Fail> {
    let drops = Drops::none();
    assert!(rt; is_handed_back(&drops, rt.alloc())?);
    assert!(rt; drops.are(1));
    Ok(())
}
