//! Keys that are texts, asked for by texts.
use crate::deadline_steps::{put, shown, taken};
use lru_deadlines::deadlines::{DeadlineCache, Until};
use std::alloc::{AllocError, Global};
use std::test::Fail;

type Texts = DeadlineCache<String, u64>;

// Puts a value under a text. Whether nothing was there and nothing goes.
fn is_put(
    alloc: Global,
    cache: &mut Texts,
    key: &str,
    value: u64,
    deadline: u64,
) -> Result<bool, AllocError> {
    let name = String::from_str(alloc, key)?;
    let answer = put(alloc, cache, (name, value), 1, deadline)?;
    Ok(answer.as_str() == "new, gone:")
}

// Whether a text is found until its deadline, and no longer.
fn are_looked_up(cache: &Texts) -> bool {
    let is_there = cache.contains_by(5, "a")
        & (cache.peek_by(5, "a").copied() == Some(10))
        & (cache.deadline_by(5, "a") == Some(5));
    let is_gone = cache.contains_by(6, "a")
        | cache.peek_by(6, "a").is_some()
        | cache.deadline_by(6, "a").is_some();
    let is_other = cache.contains_by(0, "c") | cache.peek_by(0, "").is_some();
    is_there & !is_gone & !is_other
}

// Whether a use puts a text first until its deadline, and hands it over then.
fn are_used(cache: &mut Texts) -> bool {
    let used = matches!(cache.promote_by(5, "a"), Ok(true));
    let missing = matches!(cache.promote_by(5, "c"), Ok(false));
    let raised = cache.update_by(7, "b", |until: &mut Until<u64>, weight| {
        until.deadline = 9;
        (until.value, weight)
    });
    let is_raised = matches!(raised, Ok(Some((20, 1))));
    let is_past = match cache.promote_by(6, "a") {
        Ok(_) => false,
        Err(past) => (past.value.value, past.value.deadline) == (10, 5),
    };
    used & missing & is_raised & is_past
}

// Whether the last text is shown so, is taken out so, and is gone then.
fn is_taken_out(alloc: Global, cache: &mut Texts) -> Result<bool, AllocError> {
    let is_shown = shown(alloc, cache)?.as_str() == "1 1: \"b\"=20 1 to 9,";
    let removed = cache.remove_by("b");
    let is_taken = taken(alloc, &removed)?.as_str() == "took \"b\"=20 1 to 9,";
    Ok(is_shown & is_taken & cache.remove_by("b").is_none())
}

// Whether two texts are put, looked up, used, and taken out.
fn asked_for(alloc: Global) -> Result<[bool; 4], AllocError> {
    let mut cache = Texts::new(alloc, 9, 9)?;
    let are_put = is_put(alloc, &mut cache, "a", 10, 5)? & is_put(alloc, &mut cache, "b", 20, 7)?;
    let are_found = are_looked_up(&cache);
    let are_used = are_used(&mut cache);
    Ok([
        are_put,
        are_found,
        are_used,
        is_taken_out(alloc, &mut cache)?,
    ])
}

#[test]
fn texts_are_asked_for_by_texts(rt: HostRuntime) -> Result<(), Fail> {
    assert_eq!(rt; asked_for(rt.alloc())?, [true; 4]);
    Ok(())
}
