//! A list of calls, done one by one: the text of each answer, and of the cache after it.
use lru_owned_cache::cache::{Cache, Entry, Refused};
use std::alloc::{AllocError, Global};
use std::fmt::Debug;
use std::hash::Hash;

/// A call of a cache, and what it is given.
pub enum Call<K, V> {
    /// Answers what was replaced and what went, or why it was refused and what was handed back.
    Put(K, V, usize),
    /// Answers whether the key has an entry, its value and its weight.
    Look(K),
    /// Answers whether the key has an entry.
    Promote(K),
    /// Answers the entry.
    Remove(K),
    /// Answers the entry.
    PopLast,
    /// Gives the key's entry another value. Answers the value and the weight that it had.
    Update(K, V),
    /// Sets the most weight and the most entries. Answers what went.
    SetLimits(usize, usize),
    /// Answers what went.
    Clear,
    /// Answers key, value and weight.
    PeekLast,
    /// Answers whether there is room for as many more.
    Reserve(usize),
    /// Answers whether the key has an entry.
    Demote(K),
    /// Answers the entry.
    PopFirst,
    /// Answers what went.
    Drain,
    /// Puts an entry of a weight that a closure answers. Answers as `Put`.
    PutWeighed(K, V, usize),
    /// Gives the key's entry another value and another weight. Answers what went, or the entry that was too heavy.
    Reweigh(K, V, usize),
    /// Keeps what weighs at most this. Answers the weights that were shown.
    Retain(usize),
    /// Of so many entries, keeps what weighs at most this. Answers what was asked of, and what went.
    RetainLast(usize, usize),
}

/// A call, the text of its answer, and that of the cache after it.
pub type Step<K, V> = (Call<K, V>, &'static str, &'static str);

/// Writes an entry behind a text.
fn tell<K: Debug, V: Debug>(text: &mut String, entry: &Entry<K, V>) -> Result<(), AllocError> {
    let (key, value, weight) = (&entry.key, &entry.value, entry.weight);
    write!(text, " {key:?}={value:?} {weight},")
}

/// The text of an entry that was taken out.
pub fn taken<K: Debug, V: Debug>(
    alloc: Global,
    entry: &Option<Entry<K, V>>,
) -> Result<String, AllocError> {
    let Some(entry) = entry else {
        return String::from_str(alloc, "none");
    };
    let mut text = String::from_str(alloc, "took")?;
    tell(&mut text, entry)?;
    Ok(text)
}

/// Puts an entry, and answers the text of what it answers and shows to its visitor.
pub fn put<K: Hash + Debug + Drop, V: Debug + Drop>(
    alloc: Global,
    cache: &mut Cache<K, V>,
    key: K,
    value: V,
    weight: usize,
) -> Result<String, AllocError> {
    let mut gone = String::new(alloc);
    let mut told = Ok(());
    let answer = cache.put(key, value, weight, |entry| {
        if told.is_ok() {
            told = tell(&mut gone, &entry);
        }
    });
    told?;
    put_answer(alloc, &answer, &gone)
}

// The same where a closure answers the weight.
fn put_weighed<K: Hash + Debug + Drop, V: Debug + Drop>(
    alloc: Global,
    cache: &mut Cache<K, V>,
    key: K,
    value: V,
    weight: usize,
) -> Result<String, AllocError> {
    let mut gone = String::new(alloc);
    let mut told = Ok(());
    let answer = cache.put_weighed(
        key,
        value,
        |_key, _value| weight,
        |entry| {
            if told.is_ok() {
                told = tell(&mut gone, &entry);
            }
        },
    );
    told?;
    put_answer(alloc, &answer, &gone)
}

// The text of what a put answers.
fn put_answer<K: Debug, V: Debug>(
    alloc: Global,
    answer: &Result<Option<Entry<K, V>>, Refused<K, V>>,
    gone: &str,
) -> Result<String, AllocError> {
    match answer {
        Ok(None) => format!(in alloc; "new, gone:{gone}"),
        Ok(Some(entry)) => {
            let mut text = String::from_str(alloc, "was")?;
            tell(&mut text, entry)?;
            write!(text, " gone:{gone}")?;
            Ok(text)
        }
        Err(refused) => {
            let (cause, key, value) = (refused.cause, &refused.key, &refused.value);
            format!(in alloc; "{cause:?}: {key:?}={value:?}{gone}")
        }
    }
}

// Gives a key's entry another value, and answers the value and the weight that it had.
fn update<K: Hash, V: Copy>(cache: &mut Cache<K, V>, key: &K, value: V) -> Option<(V, usize)> {
    cache.update(key, |held: &mut V, weight| {
        let was = *held;
        *held = value;
        (was, weight)
    })
}

// Gives a key's entry another value and another weight, and answers the text of what is shown to its visitor, or of the
// entry that was too heavy.
fn reweigh<K: Hash + Debug + Drop, V: Debug + Drop + Copy>(
    alloc: Global,
    cache: &mut Cache<K, V>,
    key: &K,
    value: V,
    weight: usize,
) -> Result<String, AllocError> {
    let mut gone = String::new(alloc);
    let mut told = Ok(());
    let answer = cache.reweigh(
        key,
        |held: &mut V, _was| {
            *held = value;
            weight
        },
        |entry| {
            if told.is_ok() {
                told = tell(&mut gone, &entry);
            }
        },
    );
    told?;
    match answer {
        Ok(true) => format!(in alloc; "gone:{gone}"),
        Ok(false) => format!(in alloc; "none{gone}"),
        Err(entry) => {
            let mut text = String::from_str(alloc, "too heavy:")?;
            tell(&mut text, &entry)?;
            write!(text, "{gone}")?;
            Ok(text)
        }
    }
}

// Sets the limits, and answers the text of what is shown to its visitor.
fn set_limits<K: Hash + Debug + Drop, V: Debug + Drop>(
    alloc: Global,
    cache: &mut Cache<K, V>,
    most_weight: usize,
    most_entries: usize,
) -> Result<String, AllocError> {
    let mut gone = String::from_str(alloc, "gone:")?;
    let mut told = Ok(());
    cache.set_limits(most_weight, most_entries, |entry| {
        if told.is_ok() {
            told = tell(&mut gone, &entry);
        }
    });
    told?;
    Ok(gone)
}

// Lets all entries go, and answers the text of what is shown to its visitor.
fn clear<K: Hash + Debug + Drop, V: Debug + Drop>(
    alloc: Global,
    cache: &mut Cache<K, V>,
) -> Result<String, AllocError> {
    let mut gone = String::from_str(alloc, "gone:")?;
    let mut told = Ok(());
    cache.clear(|entry| {
        if told.is_ok() {
            told = tell(&mut gone, &entry);
        }
    });
    told?;
    Ok(gone)
}

// The same from the first on.
fn drain<K: Hash + Debug + Drop, V: Debug + Drop>(
    alloc: Global,
    cache: &mut Cache<K, V>,
) -> Result<String, AllocError> {
    let mut gone = String::from_str(alloc, "gone:")?;
    let mut told = Ok(());
    cache.drain(|entry| {
        if told.is_ok() {
            told = tell(&mut gone, &entry);
        }
    });
    told?;
    Ok(gone)
}

// Keeps the entries that weigh at most this, and answers the text of what is shown to its test.
fn retain<K: Hash + Debug + Drop, V: Debug + Drop>(
    alloc: Global,
    cache: &mut Cache<K, V>,
    most: usize,
) -> Result<String, AllocError> {
    let mut shown = String::from_str(alloc, "asked:")?;
    let mut told = Ok(());
    cache.retain(|key, value, weight| {
        if told.is_ok() {
            told = write!(shown, " {key:?}={value:?} {weight},");
        }
        weight <= most
    });
    told?;
    Ok(shown)
}

// Keeps of so many entries those that weigh at most this, and answers the text of what is shown to its test and to its visitor.
fn retain_last<K: Hash + Debug + Drop, V: Debug + Drop>(
    alloc: Global,
    cache: &mut Cache<K, V>,
    most: usize,
    heaviest: usize,
) -> Result<String, AllocError> {
    let mut shown = String::from_str(alloc, "asked:")?;
    let mut told = Ok(());
    let mut gone = String::from_str(alloc, "gone:")?;
    let mut told_gone = Ok(());
    cache.retain_last(
        most,
        |key, _value, weight| {
            if told.is_ok() {
                told = write!(shown, " {key:?},");
            }
            weight <= heaviest
        },
        |entry| {
            if told_gone.is_ok() {
                told_gone = tell(&mut gone, &entry);
            }
        },
    );
    told?;
    told_gone?;
    format!(in alloc; "{shown} {gone}")
}

/// Whether a key has an entry, its value and its weight.
pub fn look<K: Hash, V: Debug>(
    alloc: Global,
    cache: &Cache<K, V>,
    key: &K,
) -> Result<String, AllocError> {
    let (contains, value, weight) = (cache.contains(key), cache.peek(key), cache.weight_of(key));
    format!(in alloc; "{contains} {value:?} {weight:?}")
}

/// The number of the entries, their weight, and each of them, most recent first.
pub fn shown<K: Hash + Debug, V: Debug>(
    alloc: Global,
    cache: &Cache<K, V>,
) -> Result<String, AllocError> {
    let (len, weight) = (cache.len(), cache.weight());
    let mut text = format!(in alloc; "{len} {weight}:")?;
    for key in cache.keys() {
        match (cache.peek(key), cache.weight_of(key)) {
            (Some(value), Some(weight)) => write!(text, " {key:?}={value:?} {weight},")?,
            _ => write!(text, " {key:?} is lost,")?,
        }
    }
    Ok(text)
}

fn answer_of<K, V>(
    alloc: Global,
    cache: &mut Cache<K, V>,
    call: &Call<K, V>,
) -> Result<String, AllocError>
where
    K: Hash + Debug + Drop + Copy,
    V: Debug + Drop + Copy,
{
    match call {
        Call::Put(key, value, weight) => put(alloc, cache, *key, *value, *weight),
        Call::Look(key) => look(alloc, cache, key),
        Call::Promote(key) => {
            let is_there = cache.promote(key);
            format!(in alloc; "{is_there}")
        }
        Call::Remove(key) => taken(alloc, &cache.remove(key)),
        Call::PopLast => taken(alloc, &cache.pop_last()),
        Call::Update(key, value) => {
            let was = update(cache, key, *value);
            format!(in alloc; "{was:?}")
        }
        Call::SetLimits(most_weight, most_entries) => {
            set_limits(alloc, cache, *most_weight, *most_entries)
        }
        Call::Clear => clear(alloc, cache),
        Call::PeekLast => {
            let last = cache.peek_last();
            format!(in alloc; "{last:?}")
        }
        Call::Reserve(additional) => {
            let is_reserved = cache.reserve(*additional).is_ok();
            format!(in alloc; "{is_reserved}")
        }
        Call::Demote(key) => {
            let is_there = cache.demote(key);
            format!(in alloc; "{is_there}")
        }
        Call::PopFirst => taken(alloc, &cache.pop_first()),
        Call::Drain => drain(alloc, cache),
        Call::PutWeighed(key, value, weight) => put_weighed(alloc, cache, *key, *value, *weight),
        Call::Reweigh(key, value, weight) => reweigh(alloc, cache, key, *value, *weight),
        Call::Retain(most) => retain(alloc, cache, *most),
        Call::RetainLast(most, heaviest) => retain_last(alloc, cache, *most, *heaviest),
    }
}

/// Does the calls, and answers the place of the first one that answers or leaves something else.
pub fn fault<K, V>(
    alloc: Global,
    cache: &mut Cache<K, V>,
    steps: &[Step<K, V>],
) -> Result<Option<usize>, AllocError>
where
    K: Hash + Debug + Drop + Copy,
    V: Debug + Drop + Copy,
{
    for (place, (call, answer, left)) in steps.iter().enumerate() {
        let answers = answer_of(alloc, cache, call)?;
        let leaves = shown(alloc, cache)?;
        if answers.as_str() != *answer || leaves.as_str() != *left {
            return Ok(Some(place));
        }
    }
    Ok(None)
}
