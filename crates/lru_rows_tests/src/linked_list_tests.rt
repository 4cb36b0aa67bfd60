//! The linked list, by its worked rows, and each of its calls at two types of items.
use lru_list::linked_list::{Index, LinkedList, LinkedListU64, PushError};
use std::alloc::{AllocError, Global};
use std::test::Fail;

const NO_SLOT: Index = 4294967295;

// A call of a list of numbers, and what it is given.
#[derive(Clone, Copy)]
enum Call {
    PushHead(u64),
    PushTail(u64),
    PopTail,
    // Answers the item; nothing, where the index has none.
    Remove(Index),
    // Answers whether the index has an item, by the index.
    Promote(Index),
    // The same.
    Demote(Index),
    Peek(Index),
    Head,
    Tail,
    // The index before another, and the one behind it.
    Prev(Index),
    Next(Index),
    // Answers a value that is among the first so many.
    Near(u64, usize),
    // Answers for how many more there is room.
    Reserve(usize),
    Len,
}

// A call, its answer as a number, and the items after it.
type Step = (Call, Option<u64>, &'static [u64]);

#[rattlefmt::skip]
static USES_A_FREED_SLOT_AGAIN: [Step; 9] = [
    (Call::PushHead(1), Some(2), &[1]),
    (Call::PushHead(2), Some(3), &[2, 1]),
    (Call::PushHead(3), Some(4), &[3, 2, 1]),
    (Call::Remove(3), Some(2), &[3, 1]),
    (Call::Peek(3), Some(0), &[3, 1]),
    (Call::Prev(3), Some(4294967295), &[3, 1]),
    (Call::Next(3), Some(4294967295), &[3, 1]),
    (Call::Remove(3), None, &[3, 1]),
    (Call::PushHead(4), Some(3), &[4, 3, 1]),
];

#[rattlefmt::skip]
static FINDS_NEAR_THE_HEAD: [Step; 7] = [
    (Call::PushTail(3), Some(2), &[3]),
    (Call::PushTail(2), Some(3), &[3, 2]),
    (Call::PushTail(4), Some(4), &[3, 2, 4]),
    (Call::Near(4, 1), None, &[3, 2, 4]),
    (Call::Near(4, 2), None, &[3, 2, 4]),
    (Call::Near(4, 3), Some(4), &[3, 2, 4]),
    (Call::Near(4, 99999), Some(4), &[3, 2, 4]),
];

#[rattlefmt::skip]
static PROMOTES_AND_WALKS: [Step; 24] = [
    (Call::PushTail(1), Some(2), &[1]),
    (Call::PushTail(2), Some(3), &[1, 2]),
    (Call::PushTail(3), Some(4), &[1, 2, 3]),
    (Call::PushTail(4), Some(5), &[1, 2, 3, 4]),
    (Call::Head, Some(2), &[1, 2, 3, 4]),
    (Call::Tail, Some(5), &[1, 2, 3, 4]),
    (Call::Promote(4), Some(4), &[3, 1, 2, 4]),
    (Call::Promote(4), Some(4), &[3, 1, 2, 4]),
    (Call::Next(0), Some(4), &[3, 1, 2, 4]),
    (Call::Prev(0), Some(4294967295), &[3, 1, 2, 4]),
    (Call::Next(1), Some(4294967295), &[3, 1, 2, 4]),
    (Call::Prev(1), Some(5), &[3, 1, 2, 4]),
    (Call::Prev(4), Some(0), &[3, 1, 2, 4]),
    (Call::Next(4), Some(2), &[3, 1, 2, 4]),
    (Call::Prev(2), Some(4), &[3, 1, 2, 4]),
    (Call::Next(2), Some(3), &[3, 1, 2, 4]),
    (Call::Prev(3), Some(2), &[3, 1, 2, 4]),
    (Call::Next(3), Some(5), &[3, 1, 2, 4]),
    (Call::Prev(5), Some(3), &[3, 1, 2, 4]),
    (Call::Next(5), Some(1), &[3, 1, 2, 4]),
    (Call::Peek(0), None, &[3, 1, 2, 4]),
    (Call::Peek(1), None, &[3, 1, 2, 4]),
    (Call::Peek(6), None, &[3, 1, 2, 4]),
    (Call::Peek(NO_SLOT), None, &[3, 1, 2, 4]),
];

#[rattlefmt::skip]
static DEMOTES: [Step; 11] = [
    (Call::PushTail(1), Some(2), &[1]),
    (Call::Demote(2), Some(2), &[1]),
    (Call::PushTail(2), Some(3), &[1, 2]),
    (Call::PushTail(3), Some(4), &[1, 2, 3]),
    (Call::Demote(2), Some(2), &[2, 3, 1]),
    (Call::Demote(4), Some(4), &[2, 1, 3]),
    (Call::Demote(4), Some(4), &[2, 1, 3]),
    (Call::Prev(1), Some(4), &[2, 1, 3]),
    (Call::Next(4), Some(1), &[2, 1, 3]),
    (Call::Demote(9), None, &[2, 1, 3]),
    (Call::PopTail, Some(3), &[2, 1]),
];

static MAKES_ROOM_IN_AN_EMPTY_LIST: [Step; 2] = [
    (Call::Reserve(100), Some(100), &[]),
    (Call::Len, Some(0), &[]),
];

// The places before and behind a slot.
fn neighbours<K>(list: &LinkedList<K>, index: Index) -> Option<(Index, Index)> {
    let _len = list.len();
    if list.peek(index).is_none() {
        return None;
    }
    Some((list.prev_index(index), list.next_index(index)))
}

// The same of a slot or a sentinel.
fn around<K>(list: &LinkedList<K>, index: Index) -> Option<(Index, Index)> {
    match index {
        0 => Some((list.prev_index(0), list.next_index(0))),
        1 => Some((list.prev_index(1), list.next_index(1))),
        _ => neighbours(list, index),
    }
}

fn remove_at<K: Default + Drop>(list: &mut LinkedList<K>, index: Index) -> Option<K> {
    if list.is_live(index) {
        Some(list.remove(index))
    } else {
        None
    }
}

fn promote_at<K: Default + Drop>(list: &mut LinkedList<K>, index: Index) -> bool {
    let live = list.is_live(index);
    if live {
        list.promote(index);
    }
    live
}

fn demote_at<K: Default + Drop>(list: &mut LinkedList<K>, index: Index) -> bool {
    let live = list.is_live(index);
    if live {
        list.demote(index);
    }
    live
}

fn number_of(index: Option<Index>) -> Option<u64> {
    match index {
        None => None,
        Some(index) => Some(index as u64),
    }
}

// What a call that changes no item answers.
fn look(list: &LinkedListU64, call: Call) -> Option<u64> {
    match call {
        Call::Peek(index) => list.peek(index).copied(),
        Call::Head => number_of(list.head()),
        Call::Tail => number_of(list.tail()),
        Call::Prev(index) => Some(around(list, index)?.0 as u64),
        Call::Next(index) => Some(around(list, index)?.1 as u64),
        Call::Near(value, limit) if list.exist_near_head(&value, limit) => Some(value),
        Call::Len => Some(list.len() as u64),
        _ => None,
    }
}

fn answer_of(list: &mut LinkedListU64, call: Call) -> Result<Option<u64>, PushError<u64>> {
    Ok(match call {
        Call::PushHead(item) => Some(list.push_head(item)? as u64),
        Call::PushTail(item) => Some(list.push_tail(item)? as u64),
        Call::PopTail => list.pop_tail(),
        Call::Remove(index) => remove_at(list, index),
        Call::Promote(index) if promote_at(list, index) => Some(index as u64),
        Call::Demote(index) if demote_at(list, index) => Some(index as u64),
        Call::Reserve(count) if list.reserve(count).is_ok() => Some(count as u64),
        _ => look(list, call),
    })
}

fn keys(alloc: Global, list: &LinkedListU64) -> Result<Vec<u64>, AllocError> {
    list.iter().copied().collect(alloc)
}

// The place of the first call that answers or leaves something else, where the calls are done on an empty list.
fn fault(alloc: Global, capacity: usize, steps: &[Step]) -> Result<Option<usize>, Fail> {
    let mut list = LinkedListU64::with_capacity(alloc, capacity)?;
    for (place, (call, answer, left)) in steps.iter().enumerate() {
        let answers = answer_of(&mut list, *call)?;
        let leaves = keys(alloc, &list)?;
        if answers != *answer || leaves.as_slice() != *left {
            return Ok(Some(place));
        }
    }
    Ok(None)
}

fn faults(alloc: Global) -> Result<[Option<usize>; 5], Fail> {
    Ok([
        fault(alloc, 0, &USES_A_FREED_SLOT_AGAIN)?,
        fault(alloc, 0, &FINDS_NEAR_THE_HEAD)?,
        fault(alloc, 4, &PROMOTES_AND_WALKS)?,
        fault(alloc, 3, &DEMOTES)?,
        fault(alloc, 0, &MAKES_ROOM_IN_AN_EMPTY_LIST)?,
    ])
}

#[test]
fn answers_and_leaves_what_it_should(rt: HostRuntime) -> Result<(), Fail> {
    assert_eq!(rt; faults(rt.alloc())?, [None; 5]);
    Ok(())
}

// What is left at first and after two, the items that are taken from the front, the back, the front and once more from
// both, and how many are left then.
type Taken = ([(usize, Option<usize>); 2], [Option<u64>; 5], usize);

fn taken(list: &LinkedListU64) -> Taken {
    let mut items = list.iter();
    let all = items.size_hint();
    let first = items.next().copied();
    let last = items.next_back().copied();
    let rest = items.size_hint();
    let middle = items.next().copied();
    let none = items.next().copied();
    let neither = items.next_back().copied();
    (
        [all, rest],
        [first, last, middle, none, neither],
        items.len(),
    )
}

fn pushed(list: &mut LinkedListU64) -> Result<[Index; 3], PushError<u64>> {
    Ok([list.push_head(2)?, list.push_head(3)?, list.push_tail(4)?])
}

// The places of three items, and how they are taken.
fn taken_of_three(alloc: Global) -> Result<([Index; 3], Taken), Fail> {
    let mut list = LinkedListU64::with_capacity(alloc, 3)?;
    let places = pushed(&mut list)?;
    Ok((places, taken(&list)))
}

#[test]
fn iterates_from_both_ends(rt: HostRuntime) -> Result<(), Fail> {
    assert_eq!(rt;
        taken_of_three(rt.alloc())?,
        (
            [2, 3, 4],
            (
                [(3, Some(3)), (1, Some(1))],
                [Some(3), Some(4), Some(2), None, None],
                0
            )
        )
    );
    Ok(())
}

// The indices from the front, the back, the back and the front, and how many were left after the first two.
fn indices_of(list: &LinkedListU64) -> ([Option<Index>; 4], usize) {
    let mut indices = list.indices();
    let (first, last, left) = (indices.next(), indices.next_back(), indices.len());
    let (middle, none) = (indices.next_back(), indices.next());
    ([first, last, middle, none], left)
}

fn push_three(list: &mut LinkedListU64) -> Result<(), PushError<u64>> {
    list.push_head(7)?;
    list.push_tail(8)?;
    list.push_head(9)?;
    Ok(())
}

fn indices_of_three(alloc: Global) -> Result<([Option<Index>; 4], usize), Fail> {
    let mut list = LinkedListU64::with_capacity(alloc, 0)?;
    push_three(&mut list)?;
    Ok(indices_of(&list))
}

#[test]
fn tells_its_indices_from_both_ends(rt: HostRuntime) -> Result<(), Fail> {
    assert_eq!(rt;
        indices_of_three(rt.alloc())?,
        ([Some(4), Some(3), Some(2), None], 1)
    );
    Ok(())
}

// An index with its item.
type Entry = Option<(Index, u64)>;

fn entry(shown: Option<(Index, &u64)>) -> Entry {
    let (index, item) = shown?;
    Some((index, *item))
}

// The entries from the front, the back, the back and the front, and how many were left after the first two.
fn entries_of(list: &LinkedListU64) -> ([Entry; 4], usize) {
    let mut entries = list.entries();
    let first = entry(entries.next());
    let last = entry(entries.next_back());
    let left = entries.len();
    let middle = entry(entries.next_back());
    let none = entry(entries.next());
    ([first, last, middle, none], left)
}

fn entries_of_three(alloc: Global) -> Result<([Entry; 4], usize), Fail> {
    let mut list = LinkedListU64::with_capacity(alloc, 0)?;
    push_three(&mut list)?;
    Ok(entries_of(&list))
}

#[test]
fn shows_indices_with_their_items(rt: HostRuntime) -> Result<(), Fail> {
    assert_eq!(rt;
        entries_of_three(rt.alloc())?,
        ([Some((4, 9)), Some((3, 8)), Some((2, 7)), None], 1)
    );
    Ok(())
}

// Pushes the numbers below a thousand last. Whether they got the indices from 2 on in order.
fn are_pushed_in_order(list: &mut LinkedListU64) -> Result<bool, PushError<u64>> {
    let mut right = true;
    for k in 0u64..1000 {
        right = right && list.push_tail(k)? as u64 == k + 2;
    }
    Ok(right)
}

fn are_popped_in_reverse(list: &mut LinkedListU64) -> bool {
    let mut right = true;
    for k in 0u64..1000 {
        right = right && list.pop_tail() == Some(999 - k);
    }
    right && list.pop_tail().is_none()
}

fn are_in_order(list: &mut LinkedListU64) -> Result<[bool; 3], PushError<u64>> {
    Ok([
        are_pushed_in_order(list)?,
        are_popped_in_reverse(list),
        are_pushed_in_order(list)?,
    ])
}

fn numbered(alloc: Global) -> Result<([bool; 3], usize), Fail> {
    let mut list = LinkedListU64::with_capacity(alloc, 0)?;
    let right = are_in_order(&mut list)?;
    Ok((right, list.len()))
}

// The row asks for memory 44 times: once for the empty list, and 43 times as 2 nodes grow to 1037, each time by an
// eighth and one. So no push asks twice, and none of the second thousand asks at all: with the 45th allocation failing
// it passes.
#[test]
fn numbers_slots_in_order(rt: HostRuntime) -> Result<(), Fail> {
    assert_eq!(rt; numbered(rt.alloc())?, ([true; 3], 1000));
    Ok(())
}

// Whether an item stands under each of these: the sentinels, two slots, one that is never made, and the last index.
// And whether a slot is freed.
type Lives = ([bool; 6], bool);

fn lives(list: &LinkedListU64) -> Lives {
    let live = [
        list.is_live(0),
        list.is_live(1),
        list.is_live(2),
        list.is_live(3),
        list.is_live(4),
        list.is_live(usize::MAX),
    ];
    (live, list.has_freed())
}

// At first, after two pushes, after the first of them is removed, and after its slot is used again.
fn lives_of(list: &mut LinkedListU64) -> Result<[Lives; 4], PushError<u64>> {
    let empty = lives(list);
    list.push_head(7)?;
    list.push_head(8)?;
    let both = lives(list);
    remove_at(list, 2);
    let one = lives(list);
    list.push_tail(9)?;
    Ok([empty, both, one, lives(list)])
}

fn lives_of_two(alloc: Global) -> Result<[Lives; 4], Fail> {
    let mut list = LinkedListU64::with_capacity(alloc, 0)?;
    Ok(lives_of(&mut list)?)
}

#[test]
fn tells_live_and_freed_slots(rt: HostRuntime) -> Result<(), Fail> {
    assert_eq!(rt;
        lives_of_two(rt.alloc())?,
        [
            ([false; 6], false),
            ([false, false, true, true, false, false], false),
            ([false, false, false, true, false, false], true),
            ([false, false, true, true, false, false], false),
        ]
    );
    Ok(())
}

type Word = Option<String>;

fn word(alloc: Global, text: &str) -> Result<Word, AllocError> {
    Ok(Some(String::from_str(alloc, text)?))
}

type Words = LinkedList<Word>;

fn is_text(item: Option<&Word>, text: &str) -> bool {
    match item {
        Some(Some(held)) => held.as_str() == text,
        _ => false,
    }
}

// The indices of three texts.
fn texts_pushed(alloc: Global, list: &mut Words) -> Result<[Index; 3], Fail> {
    list.reserve(2)?;
    Ok([
        list.push_head(word(alloc, "b")?)?,
        list.push_head(word(alloc, "a")?)?,
        list.push_tail(word(alloc, "c")?)?,
    ])
}

// Writes to the first of them and puts it first: whether the tail sentinel has no text, and the first was there.
fn written(list: &mut Words) -> Result<[bool; 2], AllocError> {
    if let Some(Some(text)) = list.peek_mut(2) {
        text.push_str("d")?;
    }
    Ok([list.peek_mut(1).is_none(), promote_at(list, 2)])
}

// The indices of the ends, and beside the sentinels.
fn ends(list: &Words) -> [Option<Index>; 4] {
    let _len = list.len();
    [
        list.head(),
        list.tail(),
        Some(list.next_index(0)),
        Some(list.prev_index(1)),
    ]
}

fn is_first(alloc: Global, list: &Words, text: &str) -> Result<bool, AllocError> {
    let item = word(alloc, text)?;
    Ok(list.exist_near_head(&item, 1))
}

// Whether each text leaves as it was, the slot is blank, and the other text is left.
fn leave(list: &mut Words) -> [bool; 4] {
    let popped = is_text(list.pop_tail().as_ref(), "c");
    let removed = is_text(remove_at(list, 2).as_ref(), "bd");
    let freed = list.peek(2).is_some_and(|item| item.is_none());
    [
        popped,
        removed,
        freed,
        is_text(list.iter().next_back(), "a"),
    ]
}

// What is told of three texts, the first of which is written to and put first.
type Told = (
    [Index; 3],
    [bool; 2],
    [Option<Index>; 4],
    [bool; 2],
    [bool; 4],
    usize,
);

fn told_of(alloc: Global, list: &mut Words) -> Result<Told, Fail> {
    let places = texts_pushed(alloc, list)?;
    let writes = written(list)?;
    let around = ends(list);
    let near = [is_first(alloc, list, "bd")?, is_first(alloc, list, "a")?];
    Ok((places, writes, around, near, leave(list), list.len()))
}

fn told(alloc: Global) -> Result<Told, Fail> {
    let mut list = LinkedList::with_capacity(alloc, 1)?;
    told_of(alloc, &mut list)
}

#[test]
fn holds_texts(rt: HostRuntime) -> Result<(), Fail> {
    assert_eq!(rt;
        told(rt.alloc())?,
        (
            [2, 3, 4],
            [true; 2],
            [Some(2), Some(4), Some(2), Some(4)],
            [true, false],
            [true; 4],
            1
        )
    );
    Ok(())
}

#[test]
fn numbers_its_refusals(rt: HostRuntime) {
    assert_eq!(rt;
        (
            PushError::Memory(7u64).number(),
            PushError::Full(7u64).number()
        ),
        (1, 2)
    );
}
