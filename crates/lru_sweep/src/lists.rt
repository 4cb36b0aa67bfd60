//! Pushes and removals of the linked list.
use crate::made;
use lru_list::linked_list::{Index, LinkedListU64, PushError};
use std::alloc::Global;
use std::io;
use std::io::Write;

// The first eight items.
fn shown(list: &LinkedListU64) -> [u64; 8] {
    let mut items = [u64::MAX; 8];
    for (slot, item) in items.iter_mut().zip(list.iter()) {
        *slot = *item;
    }
    items
}

// Pushes last, at the second try where the first was refused for memory alone and changed nothing.
fn push(list: &mut LinkedListU64, item: u64) -> Result<Index, PushError<u64>> {
    let before = (shown(list), list.len());
    match list.push_tail(item) {
        Err(PushError::Memory(held)) if held == item && before == (shown(list), list.len()) => {
            list.push_tail(item)
        }
        answer => answer,
    }
}

// Takes the last items out, and pushes as many others: each takes the slot that was freed last.
fn reuse<W: Write>(list: &mut LinkedListU64, writer: &mut W) -> io::Result<()> {
    for _ in 0..3u8 {
        let item = list.pop_tail();
        writeln!(writer, "popped {item:?}")?;
    }
    // No memory is asked for: a push that is refused writes another line.
    for item in 10..13u64 {
        let answer = list.push_head(item);
        writeln!(writer, "pushed {answer:?}")?;
    }
    Ok(())
}

// A thousand pushes after room was made for them ask for nothing.
fn reserved<W: Write>(list: &mut LinkedListU64, writer: &mut W) -> io::Result<()> {
    let mut refused = 0u32;
    for item in 0..1000u64 {
        if list.push_tail(item).is_err() {
            refused = refused.saturating_add(1);
        }
    }
    writeln!(writer, "of a thousand pushes with room {refused} refused")
}

fn calls<W: Write>(list: &mut LinkedListU64, writer: &mut W) -> io::Result<()> {
    for item in 1..=6u64 {
        let answer = push(list, item);
        writeln!(writer, "pushed {answer:?}")?;
    }
    reuse(list, writer)?;
    let items = shown(list);
    writeln!(writer, "items {items:?}")?;
    if list.reserve(1000).is_err() {
        list.reserve(1000)?;
    }
    reserved(list, writer)
}

// (A function that makes a list has one way out behind that: each drops the list, and its proof grows with them.)
fn grown<W: Write>(alloc: Global, writer: &mut W) -> io::Result<()> {
    let mut list = made(alloc, |alloc| LinkedListU64::with_capacity(alloc, 0))?;
    calls(&mut list, writer)
}

fn roomy<W: Write>(alloc: Global, writer: &mut W) -> io::Result<()> {
    let mut list = made(alloc, |alloc| LinkedListU64::with_capacity(alloc, 1000))?;
    reserved(&mut list, writer)
}

pub fn script<W: Write>(alloc: Global, writer: &mut W) -> io::Result<()> {
    grown(alloc, writer)?;
    roomy(alloc, writer)
}
