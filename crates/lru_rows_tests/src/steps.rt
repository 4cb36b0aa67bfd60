//! A list of calls, done one by one: the text of each answer, and of the rows after it.
use lru_rows::rows::{Rows, Taken};
use std::alloc::{AllocError, Global};
use std::fmt::Debug;
use std::hash::Hash;

/// A call of rows, and what it is given: a key, data and a weight. A call of a place is made at that of the key.
#[derive(Clone, Copy)]
pub enum Call<K> {
    /// Answers the place, or why there is none.
    PushFirst(K, u64, usize),
    /// Answers the place, or why there is none.
    PushLast(K, u64, usize),
    /// Answers the place.
    Find(K),
    /// Answers the key, the data and the weight at the place.
    Look(K),
    /// Answers whether there is a place.
    Promote(K),
    /// Answers whether there is a place.
    Demote(K),
    /// Answers the data and the weight that were there.
    Update(K, u64),
    /// Answers whether there is a place.
    SetWeight(K, usize),
    /// Answers the row.
    Remove(K),
    /// Answers the row.
    PopLast,
    /// Answers whether there is a free place, or why there is none.
    MakeVacancy,
    /// Answers whether there is room for so many.
    Reserve(usize),
}

/// A call, the text of its answer, and that of the rows after it.
pub type Step<K> = (Call<K>, &'static str, &'static str);

/// The length, the place of the last row, and each row, most recent first.
fn shown<K: Hash + Debug>(alloc: Global, rows: &Rows<K, u64>) -> Result<String, AllocError> {
    let (len, last) = (rows.len(), rows.last().unwrap_or(0));
    let mut text = format!(in alloc; "{len} {last}:")?;
    for (key, value, weight) in rows.entries() {
        write!(text, " {key:?}={value} {weight},")?;
    }
    Ok(text)
}

fn taken<K: Debug>(alloc: Global, row: &Option<Taken<K, u64>>) -> Result<String, AllocError> {
    let Some(row) = row else {
        return String::from_str(alloc, "none");
    };
    let (key, value, weight) = (&row.key, row.value, row.weight);
    format!(in alloc; "took {key:?}={value} {weight}")
}

fn push<K: Hash + Debug + Default + Drop>(
    alloc: Global,
    rows: &mut Rows<K, u64>,
    (key, value, weight): (K, u64, usize),
    last: bool,
) -> Result<String, AllocError> {
    let None = rows.find(&key) else {
        return String::from_str(alloc, "there");
    };
    let answer = if last {
        rows.push_last(key, value, weight)
    } else {
        rows.push_first(key, value, weight)
    };
    match answer {
        Ok(place) => format!(in alloc; "{place}"),
        Err(unpushed) => {
            let (cause, key, value) = (unpushed.cause, &unpushed.key, unpushed.value);
            format!(in alloc; "{cause:?}: {key:?}={value}")
        }
    }
}

fn look<K: Hash + Debug>(
    alloc: Global,
    rows: &Rows<K, u64>,
    key: &K,
) -> Result<String, AllocError> {
    let Some(place) = rows.find(key) else {
        return String::from_str(alloc, "none");
    };
    let (value, weight) = (rows.value_at(place), rows.weight_at(place));
    let key = rows.key_at(place);
    format!(in alloc; "{key:?}={value} {weight}")
}

fn promote<K: Hash>(rows: &mut Rows<K, u64>, key: &K) -> Option<()> {
    let place = rows.find(key)?;
    rows.promote(place);
    Some(())
}

fn demote<K: Hash>(rows: &mut Rows<K, u64>, key: &K) -> Option<()> {
    let place = rows.find(key)?;
    rows.demote(place);
    Some(())
}

fn update<K: Hash>(rows: &mut Rows<K, u64>, key: &K, value: u64) -> Option<(u64, usize)> {
    let place = rows.find(key)?;
    Some(rows.update(place, |held: &mut u64, weight| {
        let was = *held;
        *held = value;
        (was, weight)
    }))
}

fn set_weight<K: Hash>(rows: &mut Rows<K, u64>, key: &K, weight: usize) -> Option<()> {
    let place = rows.find(key)?;
    rows.set_weight(place, weight);
    Some(())
}

fn answer_of<K: Hash + Debug + Default + Drop + Copy>(
    alloc: Global,
    rows: &mut Rows<K, u64>,
    call: Call<K>,
) -> Result<String, AllocError> {
    match call {
        Call::PushFirst(key, value, weight) => push(alloc, rows, (key, value, weight), false),
        Call::PushLast(key, value, weight) => push(alloc, rows, (key, value, weight), true),
        Call::Find(key) => rows.find(&key).unwrap_or(0).to_string(alloc),
        Call::Look(key) => look(alloc, rows, &key),
        Call::Promote(key) => promote(rows, &key).is_some().to_string(alloc),
        Call::Demote(key) => demote(rows, &key).is_some().to_string(alloc),
        Call::Update(key, value) => {
            let was = update(rows, &key, value);
            format!(in alloc; "{was:?}")
        }
        Call::SetWeight(key, weight) => set_weight(rows, &key, weight).is_some().to_string(alloc),
        Call::Remove(key) => taken(alloc, &rows.remove(&key)),
        Call::PopLast => taken(alloc, &rows.pop_last()),
        Call::MakeVacancy => rows.make_vacancy().is_ok().to_string(alloc),
        Call::Reserve(additional) => rows.reserve(additional).is_ok().to_string(alloc),
    }
}

/// Does the calls, and answers the place of the first one that answers or leaves something else.
pub fn fault<K: Hash + Debug + Default + Drop + Copy>(
    alloc: Global,
    rows: &mut Rows<K, u64>,
    steps: &[Step<K>],
) -> Result<Option<usize>, AllocError> {
    for (place, (call, answer, left)) in steps.iter().enumerate() {
        let answers = answer_of(alloc, rows, *call)?;
        let leaves = shown(alloc, rows)?;
        if answers.as_str() != *answer || leaves.as_str() != *left {
            return Ok(Some(place));
        }
    }
    Ok(None)
}
