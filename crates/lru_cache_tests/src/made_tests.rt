//! An entry that is made where a key has none, and the causes by which none is put.
use lru_owned_cache::cache::{Cache, Cause, NotPut};
use std::alloc::{AllocError, Global};
use std::test::Fail;

// What a closure makes: a value and a weight, or a number that tells why none is made.
type Made = Result<(u64, usize), u8>;

// A key that is there is used, and nothing is made; a missing one is put, unless none is made or it is too heavy.
fn are_made_where_missing(alloc: Global) -> Result<bool, AllocError> {
    let mut cache = Cache::<u64, u64>::new(alloc, 10, 10)?;
    let put = cache.use_or_put(1, || -> Made { Ok((10, 2)) }, |_gone| {});
    let mut calls = 0u32;
    let used = cache.use_or_put(
        1,
        || -> Made {
            calls = calls.wrapping_add(1);
            Err(7)
        },
        |_gone| {},
    );
    let unmade = cache.use_or_put(2, || -> Made { Err(7) }, |_gone| {});
    let heavy = cache.use_or_put(3, || -> Made { Ok((30, 11)) }, |_gone| {});
    let is_as_told = matches!(put, Ok(false))
        && matches!(used, Ok(true))
        && calls == 0
        && matches!(unmade, Err(NotPut::Unmade(2, 7)))
        && matches!(heavy, Err(NotPut::Refused(_)));
    Ok(is_as_told && cache.len() == 1 && cache.peek(&1) == Some(&10))
}

#[test]
fn an_entry_is_made_where_a_key_has_none(rt: HostRuntime) -> Result<(), Fail> {
    assert!(rt; are_made_where_missing(rt.alloc())?);
    Ok(())
}

#[test]
fn causes_have_their_numbers(rt: HostRuntime) {
    let numbers = (
        Cause::Memory as u8,
        Cause::TooHeavy as u8,
        Cause::Full as u8,
    );
    assert_eq!(rt; numbers, (1, 2, 3));
}
