//! A cache of texts by texts, and its limits.
use crate::steps::{look, put, shown, taken};
use lru_owned_cache::cache::Cache;
use std::alloc::{AllocError, Global};
use std::test::Fail;

type Texts = Cache<String, String>;

// An entry that is put, and the answer.
type Put = ((&'static str, &'static str, usize), &'static str);

fn text(alloc: Global, text: &str) -> Result<String, AllocError> {
    String::from_str(alloc, text)
}

// Puts an entry of texts. Whether it answers this.
fn puts(
    alloc: Global,
    cache: &mut Texts,
    (key, value, weight): (&str, &str, usize),
    answer: &str,
) -> Result<bool, AllocError> {
    let answers = put(alloc, cache, text(alloc, key)?, text(alloc, value)?, weight)?;
    Ok(answers.as_str() == answer)
}

fn is_shown(alloc: Global, cache: &Texts, left: &str) -> Result<bool, AllocError> {
    Ok(shown(alloc, cache)?.as_str() == left)
}

// Puts entries one by one. Whether each answers so.
fn put_all(alloc: Global, cache: &mut Texts, puts_and_answers: &[Put]) -> Result<bool, AllocError> {
    for (entry, answer) in puts_and_answers {
        if !puts(alloc, cache, *entry, answer)? {
            return Ok(false);
        }
    }
    Ok(true)
}

#[rattlefmt::skip]
static PUTS: [Put; 5] = [
    (("a", "x", 2), "new, gone:"),
    (("b", "y", 2), "new, gone:"),
    (("a", "z", 3), "was \"a\"=\"x\" 2, gone:"),
    (("c", "w", 7), "TooHeavy: \"c\"=\"w\""),
    (("c", "w", 3), "new, gone: \"b\"=\"y\" 2,"),
];

// Two entries that fit.
static TWO: [Put; 2] = [(("a", "x", 2), "new, gone:"), (("b", "y", 3), "new, gone:")];

#[test]
fn texts_are_put(rt: HostRuntime) -> Result<(), Fail> {
    let mut cache = Cache::with_seed(rt.alloc(), 6, 9, 11)?;
    assert!(rt; put_all(rt.alloc(), &mut cache, &PUTS)?);
    assert!(rt; is_shown(rt.alloc(), &cache, "2 6: \"c\"=\"w\" 3, \"a\"=\"z\" 3,")?);
    Ok(())
}

// Whether each call on a text that is there answers so.
fn calls_answer(alloc: Global, cache: &mut Texts) -> Result<bool, AllocError> {
    let key = text(alloc, "a")?;
    let is_there = look(alloc, cache, &key)?.as_str() == "true Some(\"x\") Some(2)";
    let is_first = cache.promote(&key)
        & is_shown(alloc, cache, "2 5: \"a\"=\"x\" 2, \"b\"=\"y\" 3,")?;
    let removed = taken(alloc, &cache.remove(&key))?;
    let is_gone = look(alloc, cache, &key)?.as_str() == "false None None";
    let last = taken(alloc, &cache.pop_last())?;
    let are_taken = (removed.as_str() == "took \"a\"=\"x\" 2,")
        & (last.as_str() == "took \"b\"=\"y\" 3,");
    Ok(is_there & is_first & is_gone & are_taken)
}

#[test]
fn texts_are_found(rt: HostRuntime) -> Result<(), Fail> {
    let mut cache = Cache::new(rt.alloc(), 6, 9)?;
    let is_put = put_all(rt.alloc(), &mut cache, &TWO)? & !cache.is_empty();
    let is_found = calls_answer(rt.alloc(), &mut cache)? & cache.is_empty();
    assert_eq!(rt;
        (is_put, is_found, cache.most_weight(), cache.most_entries()),
        (true, true, 6, 9)
    );
    Ok(())
}

// Puts a text that weighs as many bytes as it has. Whether it is let in as a new one.
fn is_put_weighed(
    alloc: Global,
    cache: &mut Texts,
    key: &str,
    value: &str,
) -> Result<bool, AllocError> {
    let (key, value) = (text(alloc, key)?, text(alloc, value)?);
    let answer = cache.put_weighed(key, value, |_key, value: &String| value.len(), |_| {});
    Ok(matches!(answer, Ok(None)))
}

// Empties the text under a key. Whether it is there.
fn is_emptied(cache: &mut Texts, key: &String) -> bool {
    let empty = |value: &mut String, _was: usize| {
        value.clear();
        value.len()
    };
    matches!(cache.reweigh(key, empty, |_| {}), Ok(true))
}

// Whether each call answers and leaves this, where a text weighs as many bytes as it has.
fn weigh_their_length(alloc: Global, cache: &mut Texts) -> Result<bool, AllocError> {
    let are_put = is_put_weighed(alloc, cache, "a", "xyz")?
        & is_put_weighed(alloc, cache, "b", "uv")?;
    let (a, b) = (text(alloc, "a")?, text(alloc, "b")?);
    let is_last = cache.demote(&b)
        & is_shown(alloc, cache, "2 5: \"a\"=\"xyz\" 3, \"b\"=\"uv\" 2,")?;
    let is_less = is_emptied(cache, &a)
        & is_shown(alloc, cache, "2 2: \"a\"=\"\" 0, \"b\"=\"uv\" 2,")?;
    let first = taken(alloc, &cache.pop_first())?;
    Ok(are_put & is_last & is_less & (first.as_str() == "took \"a\"=\"\" 0,"))
}

#[test]
fn texts_weigh_their_length(rt: HostRuntime) -> Result<(), Fail> {
    let mut cache = Cache::new(rt.alloc(), 6, 9)?;
    let weighs = weigh_their_length(rt.alloc(), &mut cache)?;
    assert_eq!(rt; (weighs, cache.len(), cache.weight()), (true, 1, 2));
    Ok(())
}

// Whether each call that is asked by a text that is not owned answers so.
fn are_asked_by_texts(alloc: Global, cache: &mut Texts) -> Result<bool, AllocError> {
    let is_told = (cache.weight_by("a") == Some(2))
        & cache
            .peek_by("a")
            .is_some_and(|value| value.as_str() == "x");
    let is_missing = !cache.contains_by("c") & !cache.promote_by("ab");
    let is_first = cache.contains_by("a")
        & cache.promote_by("a")
        & is_shown(alloc, cache, "2 5: \"a\"=\"x\" 2, \"b\"=\"y\" 3,")?;
    let lent = cache.update_by("b", |value: &mut String, weight: usize| {
        (value.len(), weight)
    });
    let is_lent = (lent == Some((1, 3))) & cache.update_by("", |_value, _weight| ()).is_none();
    let none = taken(alloc, &cache.remove_by(""))?;
    let removed = taken(alloc, &cache.remove_by("b"))?;
    let are_taken = (none.as_str() == "none") & (removed.as_str() == "took \"b\"=\"y\" 3,");
    Ok(is_told & is_missing & is_first & is_lent & are_taken)
}

#[test]
fn texts_are_asked_for_by_texts(rt: HostRuntime) -> Result<(), Fail> {
    let mut cache = Cache::with_seed(rt.alloc(), 6, 9, 3)?;
    let is_put = put_all(rt.alloc(), &mut cache, &TWO)?;
    let is_asked = are_asked_by_texts(rt.alloc(), &mut cache)?;
    assert_eq!(rt;
        (is_put, is_asked, cache.len(), cache.weight()),
        (true, true, 1, 2)
    );
    Ok(())
}
