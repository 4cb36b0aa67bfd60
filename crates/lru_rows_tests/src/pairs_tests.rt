//! Pairs whose keys and values have no default: each call, answered as worked out by hand.
use crate::labels::{Label, Worth};
use lru_index::hashing::SeededHashes;
use lru_pairs::pairs::Pairs;
use lru_rows::rows::{Taken, Unpushed};
use std::alloc::{AllocError, Global};
use std::test::Fail;

type Labels = Pairs<Label, Worth>;

fn label(number: u32, letter: char) -> Label {
    Label { number, letter }
}

// A call of pairs, and what it is given: a number and a letter, an amount and a weight. A call of a place is made at that
// of the number.
#[derive(Clone, Copy)]
enum Call {
    // Puts a pair first, or in place of what its key has. Answers the place, or what was there.
    Put(u32, char, u64, usize),
    // Answers the place.
    Find(u32),
    // Answers the pair.
    Look(u32),
    // Answers whether there is a place.
    Promote(u32),
    // Answers whether there is a place.
    Demote(u32),
    // Answers the amount and the weight that were there.
    Update(u32, u64),
    // Answers whether there is a place.
    SetWeight(u32, usize),
    // Answers the pair.
    Remove(u32),
    // Answers the pair.
    RemoveBy(u32),
    // Answers the pair.
    PopFirst,
    // Answers the pair.
    PopLast,
    // Answers whether there is a free place.
    MakeVacancy,
    // Answers whether there is room for so many.
    Reserve(usize),
}

// A call, the text of its answer, and that of the pairs after it.
type Step = (Call, &'static str, &'static str);

// How many there are, the places of the first and of the last, and each pair, most recent first.
fn shown(alloc: Global, pairs: &Labels) -> Result<String, AllocError> {
    let (first, last) = (pairs.first().unwrap_or(0), pairs.last().unwrap_or(0));
    let len = pairs.len();
    let mut text = format!(in alloc; "{len} {first} {last}:")?;
    for (key, value, weight) in pairs.entries() {
        let (number, letter, amount) = (key.number, key.letter, value.amount);
        write!(text, " {number}{letter}={amount} {weight},")?;
    }
    Ok(text)
}

fn taken(alloc: Global, pair: &Option<Taken<Label, Worth>>) -> Result<String, AllocError> {
    let Some(pair) = pair else {
        return String::from_str(alloc, "none");
    };
    let (number, letter) = (pair.key.number, pair.key.letter);
    let (amount, weight) = (pair.value.amount, pair.weight);
    format!(in alloc; "took {number}{letter}={amount} {weight}")
}

fn put(
    alloc: Global,
    pairs: &mut Labels,
    key: Label,
    value: Worth,
    weight: usize,
) -> Result<String, AllocError> {
    let number = key.number;
    if let Some(place) = pairs.find(&key) {
        let was = pairs.exchange(place, key, value);
        let _ = set_weight(pairs, &label(number, '-'), weight);
        return taken(alloc, &Some(was));
    }
    match pairs.push_first(key, value, weight) {
        Ok(place) => format!(in alloc; "{place}"),
        Err(_) => Err(AllocError),
    }
}

fn look(alloc: Global, pairs: &Labels, key: &Label) -> Result<String, AllocError> {
    let Some(place) = pairs.find_by(key) else {
        return String::from_str(alloc, "none");
    };
    let (key, value) = (pairs.key_at(place), pairs.value_at(place));
    let (number, letter, amount) = (key.number, key.letter, value.amount);
    let weight = pairs.weight_at(place);
    format!(in alloc; "{number}{letter}={amount} {weight}")
}

fn promote(pairs: &mut Labels, key: &Label) -> Option<()> {
    let place = pairs.find(key)?;
    pairs.promote(place);
    Some(())
}

fn demote(pairs: &mut Labels, key: &Label) -> Option<()> {
    let place = pairs.find(key)?;
    pairs.demote(place);
    Some(())
}

fn update(pairs: &mut Labels, key: &Label, amount: u64) -> Option<(u64, usize)> {
    let place = pairs.find(key)?;
    Some(pairs.update(place, |held: &mut Worth, weight| {
        let was = held.amount;
        held.amount = amount;
        (was, weight)
    }))
}

fn set_weight(pairs: &mut Labels, key: &Label, weight: usize) -> Option<()> {
    let place = pairs.find(key)?;
    pairs.set_weight(place, weight);
    Some(())
}

fn answer_of(alloc: Global, pairs: &mut Labels, call: Call) -> Result<String, AllocError> {
    // No key of a look-up has the letter of one that is put.
    match call {
        Call::Put(number, letter, amount, weight) => {
            put(
                alloc,
                pairs,
                label(number, letter),
                Worth { amount },
                weight,
            )
        }
        Call::Find(number) => pairs
            .find(&label(number, '-'))
            .unwrap_or(0)
            .to_string(alloc),
        Call::Look(number) => look(alloc, pairs, &label(number, '-')),
        Call::Promote(number) => promote(pairs, &label(number, '-'))
            .is_some()
            .to_string(alloc),
        Call::Demote(number) => demote(pairs, &label(number, '-'))
            .is_some()
            .to_string(alloc),
        Call::Update(number, amount) => {
            let was = update(pairs, &label(number, '-'), amount);
            format!(in alloc; "{was:?}")
        }
        Call::SetWeight(number, weight) => {
            set_weight(pairs, &label(number, '-'), weight)
                .is_some()
                .to_string(alloc)
        }
        Call::Remove(number) => taken(alloc, &pairs.remove(&label(number, '-'))),
        Call::RemoveBy(number) => taken(alloc, &pairs.remove_by(&label(number, '-'))),
        Call::PopFirst => taken(alloc, &pairs.pop_first()),
        Call::PopLast => taken(alloc, &pairs.pop_last()),
        Call::MakeVacancy => pairs.make_vacancy().is_ok().to_string(alloc),
        Call::Reserve(additional) => pairs.reserve(additional).is_ok().to_string(alloc),
    }
}

// Does the calls, and answers the place of the first one that answers or leaves something else.
fn fault(alloc: Global, pairs: &mut Labels, steps: &[Step]) -> Result<Option<usize>, AllocError> {
    for (place, (call, answer, left)) in steps.iter().enumerate() {
        let answers = answer_of(alloc, pairs, *call)?;
        let leaves = shown(alloc, pairs)?;
        if answers.as_str() != *answer || leaves.as_str() != *left {
            return Ok(Some(place));
        }
    }
    Ok(None)
}

// Each call. The first pair has place 2, since two places are no pair's, and each place that is new is the next one.
#[rattlefmt::skip]
static EACH_CALL: [Step; 24] = [
    (Call::PopLast, "none", "0 0 0:"),
    (Call::PopFirst, "none", "0 0 0:"),
    (Call::Put(1, 'a', 10, 3), "2", "1 2 2: 1a=10 3,"),
    (Call::Put(2, 'b', 20, 4), "3", "2 3 2: 2b=20 4, 1a=10 3,"),
    (Call::Put(3, 'c', 30, 5), "4", "3 4 2: 3c=30 5, 2b=20 4, 1a=10 3,"),
    (Call::Find(1), "2", "3 4 2: 3c=30 5, 2b=20 4, 1a=10 3,"),
    (Call::Find(9), "0", "3 4 2: 3c=30 5, 2b=20 4, 1a=10 3,"),
    (Call::Look(3), "3c=30 5", "3 4 2: 3c=30 5, 2b=20 4, 1a=10 3,"),
    (Call::Look(9), "none", "3 4 2: 3c=30 5, 2b=20 4, 1a=10 3,"),
    (Call::Promote(1), "true", "3 2 3: 1a=10 3, 3c=30 5, 2b=20 4,"),
    (Call::Demote(3), "true", "3 2 4: 1a=10 3, 2b=20 4, 3c=30 5,"),
    (Call::Demote(9), "false", "3 2 4: 1a=10 3, 2b=20 4, 3c=30 5,"),
    (Call::Update(2, 21), "Some((20, 4))", "3 2 4: 1a=10 3, 2b=21 4, 3c=30 5,"),
    (Call::Update(9, 90), "None", "3 2 4: 1a=10 3, 2b=21 4, 3c=30 5,"),
    (Call::SetWeight(2, 0), "true", "3 2 4: 1a=10 3, 2b=21 0, 3c=30 5,"),
    // the key that was there is handed back, and not the one that equals it
    (Call::Put(2, 'd', 22, 7), "took 2b=21 0", "3 2 4: 1a=10 3, 2d=22 7, 3c=30 5,"),
    (Call::Reserve(100), "true", "3 2 4: 1a=10 3, 2d=22 7, 3c=30 5,"),
    // with 3 pairs there are no places for 4294967291 more
    (Call::Reserve(4294967291), "false", "3 2 4: 1a=10 3, 2d=22 7, 3c=30 5,"),
    (Call::Remove(2), "took 2d=22 7", "2 2 4: 1a=10 3, 3c=30 5,"),
    (Call::Remove(2), "none", "2 2 4: 1a=10 3, 3c=30 5,"),
    (Call::PopFirst, "took 1a=10 3", "1 4 4: 3c=30 5,"),
    (Call::RemoveBy(1), "none", "1 4 4: 3c=30 5,"),
    (Call::RemoveBy(3), "took 3c=30 5", "0 0 0:"),
    (Call::PopLast, "none", "0 0 0:"),
];

// A place that is free is used again, before another is taken.
#[rattlefmt::skip]
static PLACES: [Step; 9] = [
    (Call::Put(1, 'a', 10, 1), "2", "1 2 2: 1a=10 1,"),
    (Call::Put(2, 'b', 20, 1), "3", "2 3 2: 2b=20 1, 1a=10 1,"),
    (Call::Remove(1), "took 1a=10 1", "1 3 3: 2b=20 1,"),
    // a place is free, so that none is made
    (Call::MakeVacancy, "true", "1 3 3: 2b=20 1,"),
    (Call::Put(3, 'c', 30, 2), "2", "2 2 3: 3c=30 2, 2b=20 1,"),
    // none is free, so that the next is made
    (Call::MakeVacancy, "true", "2 2 3: 3c=30 2, 2b=20 1,"),
    (Call::MakeVacancy, "true", "2 2 3: 3c=30 2, 2b=20 1,"),
    (Call::PopLast, "took 2b=20 1", "1 2 2: 3c=30 2,"),
    (Call::Put(1, 'd', 11, 4), "3", "2 3 2: 1d=11 4, 3c=30 2,"),
];

#[test]
fn each_call_answers(rt: HostRuntime) -> Result<(), Fail> {
    let mut pairs = Pairs::with_capacity(rt.alloc(), 0)?;
    assert_eq!(rt; fault(rt.alloc(), &mut pairs, &EACH_CALL)?, None);
    Ok(())
}

#[test]
fn free_places_are_used_again(rt: HostRuntime) -> Result<(), Fail> {
    let mut pairs = Pairs::with_capacity_and_seed(rt.alloc(), 2, 5)?;
    assert_eq!(rt; fault(rt.alloc(), &mut pairs, &PLACES)?, None);
    Ok(())
}

// Pushes a pair by its number, if that has none.
fn push(pairs: &mut Labels, number: u32) -> Result<(), Unpushed<Label, Worth>> {
    let key = label(number, 'a');
    let amount = number as u64;
    match pairs.find(&key) {
        Some(_) => {}
        None => {
            let _place = pairs.push_first(key, Worth { amount }, 1)?;
        }
    }
    Ok(())
}

// Three pairs.
fn three_pairs(alloc: Global) -> Result<Labels, AllocError> {
    let mut pairs = Pairs::with_capacity_and_hasher(alloc, 3, SeededHashes::with_seed(7))?;
    for number in 1..4u32 {
        if push(&mut pairs, number).is_err() {
            return Err(AllocError);
        }
    }
    Ok(pairs)
}

// The number of a key.
type Number = Option<u32>;

fn number(key: Option<&Label>) -> Number {
    Some(key?.number)
}

// One key from the front, two from the back, and then none from either end; and how many are left, at first and after the
// first two.
fn keys_of(pairs: &Labels) -> ([Number; 5], (usize, Option<usize>), usize) {
    let mut left = pairs.keys();
    let all = left.size_hint();
    let first = number(left.next());
    let last = number(left.next_back());
    let one = left.len();
    let middle = number(left.next_back());
    let none = number(left.next());
    let neither = number(left.next_back());
    ([first, last, middle, none, neither], all, one)
}

#[test]
fn keys_are_shown_from_both_ends(rt: HostRuntime) -> Result<(), Fail> {
    let pairs = three_pairs(rt.alloc())?;
    assert_eq!(rt;
        keys_of(&pairs),
        ([Some(3), Some(1), Some(2), None, None], (3, Some(3)), 1)
    );
    Ok(())
}

// The number and the amount of a pair.
fn entry(shown: Option<(&Label, &Worth, usize)>) -> Option<(u32, u64)> {
    let (key, value, _weight) = shown?;
    Some((key.number, value.amount))
}

// As `keys_of`.
fn entries_of(pairs: &Labels) -> ([Option<(u32, u64)>; 5], (usize, Option<usize>), usize) {
    let mut left = pairs.entries();
    let all = left.size_hint();
    let first = entry(left.next());
    let last = entry(left.next_back());
    let one = left.len();
    let middle = entry(left.next_back());
    let none = entry(left.next());
    let neither = entry(left.next_back());
    ([first, last, middle, none, neither], all, one)
}

#[test]
fn pairs_are_shown_from_both_ends(rt: HostRuntime) -> Result<(), Fail> {
    let pairs = three_pairs(rt.alloc())?;
    assert_eq!(rt;
        entries_of(&pairs),
        (
            [Some((3, 3)), Some((1, 1)), Some((2, 2)), None, None],
            (3, Some(3)),
            1
        )
    );
    Ok(())
}
