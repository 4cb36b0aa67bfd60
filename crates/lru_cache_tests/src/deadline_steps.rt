//! A list of calls, done one by one: the text of each answer, and of the cache after it.
use lru_deadlines::deadlines::{DeadlineCache, Until};
use lru_owned_cache::cache::{Entry, Refused};
use std::alloc::{AllocError, Global};
use std::fmt::Debug;
use std::hash::Hash;

/// A call of a cache, and what it is given. The time comes first, where there is one.
pub enum Call<K, V> {
    /// Key, value, weight and deadline. Answers what was replaced and what went, or why it was refused.
    PutUntil(K, V, usize, u64),
    /// Answers whether the key has an entry, its value and its deadline.
    Look(u64, K),
    /// Answers whether the key has an entry, or the one that is past its deadline.
    Promote(u64, K),
    /// Gives the key's entry another value and another deadline. Answers those that it had and its weight, or as `Promote`.
    Update(u64, K, V, u64),
    /// Of so many entries. Answers what went.
    Sweep(u64, usize),
    /// Answers the entry.
    Remove(K),
    /// Answers the entry.
    PopLast,
    /// Answers what went.
    Clear,
}

/// A call, the text of its answer, and that of the cache after it.
pub type Step<K, V> = (Call<K, V>, &'static str, &'static str);

/// What goes, and whether it was written.
type Told = Result<(), AllocError>;

/// Writes an entry behind a text.
fn tell<K: Debug, V: Debug>(text: &mut String, entry: &Entry<K, Until<V>>) -> Told {
    let (key, until, weight) = (&entry.key, &entry.value, entry.weight);
    let (value, deadline) = (&until.value, until.deadline);
    write!(text, " {key:?}={value:?} {weight} to {deadline},")
}

/// The text of an entry that was taken out.
pub fn taken<K: Debug, V: Debug>(
    alloc: Global,
    entry: &Option<Entry<K, Until<V>>>,
) -> Result<String, AllocError> {
    let Some(entry) = entry else {
        return String::from_str(alloc, "none");
    };
    let mut text = String::from_str(alloc, "took")?;
    tell(&mut text, entry)?;
    Ok(text)
}

// The text of what a put answers.
fn put_answer<K: Debug, V: Debug>(
    alloc: Global,
    answer: &Result<Option<Entry<K, Until<V>>>, Refused<K, Until<V>>>,
    gone: &str,
) -> Result<String, AllocError> {
    match answer {
        Ok(None) => format!(in alloc; "new, gone:{gone}"),
        Ok(Some(entry)) => {
            let mut text = String::from_str(alloc, "was")?;
            tell(&mut text, entry)?;
            write!(text, " gone:{gone}")?;
            Ok(text)
        }
        Err(refused) => {
            let (cause, key, until) = (refused.cause, &refused.key, &refused.value);
            let (value, deadline) = (&until.value, until.deadline);
            format!(in alloc; "{cause:?}: {key:?}={value:?} to {deadline}{gone}")
        }
    }
}

/// Puts an entry, and answers the text of what it answers and shows to its visitor.
pub fn put<K: Hash + Debug + Drop, V: Debug + Drop>(
    alloc: Global,
    cache: &mut DeadlineCache<K, V>,
    (key, value): (K, V),
    weight: usize,
    deadline: u64,
) -> Result<String, AllocError> {
    let mut gone = String::new(alloc);
    let mut told: Told = Ok(());
    let answer = cache.put_until(key, value, weight, deadline, |entry| {
        if told.is_ok() {
            told = tell(&mut gone, &entry);
        }
    });
    told?;
    put_answer(alloc, &answer, &gone)
}

// The text of what a use answers, or of the entry that was past its deadline.
fn used<A: Debug, K: Debug, V: Debug>(
    alloc: Global,
    answer: &Result<A, Entry<K, Until<V>>>,
) -> Result<String, AllocError> {
    match answer {
        Ok(answer) => format!(in alloc; "{answer:?}"),
        Err(entry) => {
            let mut text = String::from_str(alloc, "past:")?;
            tell(&mut text, entry)?;
            Ok(text)
        }
    }
}

// Gives a key's entry another value and another deadline, and answers those that it had, and its weight.
fn update<K: Hash + Debug + Drop, V: Debug + Drop + Copy>(
    alloc: Global,
    cache: &mut DeadlineCache<K, V>,
    (time, key): (u64, &K),
    value: V,
    deadline: u64,
) -> Result<String, AllocError> {
    let answer = cache.update(time, key, |until: &mut Until<V>, weight| {
        let was = (until.value, until.deadline, weight);
        until.value = value;
        until.deadline = deadline;
        was
    });
    used(alloc, &answer)
}

// Sweeps so many entries, and answers the text of what is shown to its visitor.
fn sweep<K: Hash + Debug + Drop, V: Debug + Drop>(
    alloc: Global,
    cache: &mut DeadlineCache<K, V>,
    time: u64,
    most: usize,
) -> Result<String, AllocError> {
    let mut gone = String::from_str(alloc, "gone:")?;
    let mut told: Told = Ok(());
    cache.sweep(time, most, |entry| {
        if told.is_ok() {
            told = tell(&mut gone, &entry);
        }
    });
    told?;
    Ok(gone)
}

// Lets all entries go, and answers the text of what is shown to its visitor.
fn clear<K: Hash + Debug + Drop, V: Debug + Drop>(
    alloc: Global,
    cache: &mut DeadlineCache<K, V>,
) -> Result<String, AllocError> {
    let mut gone = String::from_str(alloc, "gone:")?;
    let mut told: Told = Ok(());
    cache.clear(|entry| {
        if told.is_ok() {
            told = tell(&mut gone, &entry);
        }
    });
    told?;
    Ok(gone)
}

fn look<K: Hash, V: Debug>(
    alloc: Global,
    cache: &DeadlineCache<K, V>,
    time: u64,
    key: &K,
) -> Result<String, AllocError> {
    let (contains, value) = (cache.contains(time, key), cache.peek(time, key));
    let deadline = cache.deadline_of(time, key);
    format!(in alloc; "{contains} {value:?} {deadline:?}")
}

/// The number of the entries, their weight, and each of them, most recent first.
pub fn shown<K: Hash + Debug, V: Debug>(
    alloc: Global,
    cache: &DeadlineCache<K, V>,
) -> Result<String, AllocError> {
    let (len, weight) = (cache.len(), cache.weight());
    let mut text = format!(in alloc; "{len} {weight}:")?;
    for (key, until, weight) in cache.iter() {
        let (value, deadline) = (&until.value, until.deadline);
        write!(text, " {key:?}={value:?} {weight} to {deadline},")?;
    }
    Ok(text)
}

fn answer_of<K, V>(
    alloc: Global,
    cache: &mut DeadlineCache<K, V>,
    call: &Call<K, V>,
) -> Result<String, AllocError>
where
    K: Hash + Debug + Drop + Copy,
    V: Debug + Drop + Copy,
{
    match call {
        Call::PutUntil(key, value, weight, deadline) => {
            put(alloc, cache, (*key, *value), *weight, *deadline)
        }
        Call::Look(time, key) => look(alloc, cache, *time, key),
        Call::Promote(time, key) => used(alloc, &cache.promote(*time, key)),
        Call::Update(time, key, value, deadline) => {
            update(alloc, cache, (*time, key), *value, *deadline)
        }
        Call::Sweep(time, most) => sweep(alloc, cache, *time, *most),
        Call::Remove(key) => taken(alloc, &cache.remove(key)),
        Call::PopLast => taken(alloc, &cache.pop_last()),
        Call::Clear => clear(alloc, cache),
    }
}

/// Does the calls, and answers the place of the first one that answers or leaves something else.
pub fn fault<K, V>(
    alloc: Global,
    cache: &mut DeadlineCache<K, V>,
    steps: &[Step<K, V>],
) -> Result<Option<usize>, AllocError>
where
    K: Hash + Debug + Drop + Copy,
    V: Debug + Drop + Copy,
{
    for (place, (call, answer, left)) in steps.iter().enumerate() {
        let answers = answer_of(alloc, cache, call)?;
        let leaves = shown(alloc, cache)?;
        if answers.as_str() != *answer || leaves.as_str() != *left {
            return Ok(Some(place));
        }
    }
    Ok(None)
}
