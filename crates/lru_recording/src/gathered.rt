//! Shards taken out of their locks: each is put at the place of its number, and then all go in order.
ghost use Rattle.std.specs.Prelude.{◌≡◌, ◌+◌, ◌<◌, ◌≤◌, [], ◌∷◌, ◌++◌, map, option_map, Some, vec_len, vec_capacity, IfOk};
ghost use Rattle.lru_shard.specs.Limits.{cap_of};
ghost use Rattle.lru_shard.specs.Shards.{IsOwn, AreOwn};
ghost use Rattle.lru_recording.specs.Stamps.{TurnsRise};
ghost use Rattle.lru_recording.specs.Ties.{hand};
ghost use Rattle.lru_recording.specs.Tied.{IsBook};
ghost use Rattle.lru_recording.specs.Plain.{forget};
ghost use Rattle.lru_recording.specs.Histories.{left_by, answers, replies, home, lists_of, homes_from, shards_from};
ghost use Rattle.lru_recording.specs.Gathered.{empty_in, ArePlaced, IsGathered, EachRises};

use crate::entry::{Entry, Names};
use crate::journal::Journal;
use crate::recording::Recording;
use crate::tie::{Registry, Tie, Token};
use lru_shard::unit::LruUnit;
use std::alloc::{AllocError, Global};
use std::sync::Mutex;

/// A shard and its history, out of its lock.
#[derive(Drop)]
pub struct KeptShard<T, const N: usize> {
    /// Its number.
    pub number: usize,
    /// The shard.
    pub unit: LruUnit<T>,
    /// Its calls, in their order.
    pub history: Vec<Entry>,
    pub ghost ends: { forget unit.rows ≡ left_by (cap_of N) [] history.items },
    pub ghost right: { replies history.items ≡ answers (cap_of N) [] history.items },
    pub ghost homes: { map (λ e. home N number e.call) history.items ≡ map (λ _. number) history.items },
    pub ghost rising: { TurnsRise history.items },
    pub ghost own: { IsOwn N number unit },
}

/// The first shards and their histories, in their order.
#[derive(Drop)]
pub struct Gathered<T, const N: usize> {
    /// The shards.
    pub units: Vec<LruUnit<T>>,
    /// The history of each.
    pub histories: Vec<Vec<Entry>>,
    pub ghost ends: { map (λ u. forget u.rows) units.items ≡ map (left_by (cap_of N) []) (lists_of histories.items) },
    pub ghost right: { map replies (lists_of histories.items) ≡ map (answers (cap_of N) []) (lists_of histories.items) },
    pub ghost homes: { homes_from N 0 (lists_of histories.items) ≡ shards_from 0 (lists_of histories.items) },
    pub ghost rising: { EachRises (lists_of histories.items) },
    pub ghost own: { AreOwn N units.items },
    pub ghost same_count: { vec_len units ≡ vec_len histories },
}

impl<T: Drop, const N: usize> Gathered<T, N> {
    /// GatheringRoom for all shards, and none of them.
    pub fn with_room(alloc: Global) -> Result<Self, AllocError>
        ensures { IfOk result (λ all. (all.units.items ≡ []) × ((all.histories.items ≡ []) × ((N ≤ vec_capacity all.units) × (N ≤ vec_capacity all.histories)))) }
    {
        Ok(Gathered {
            units: Vec::with_capacity(alloc, N)?,
            histories: Vec::with_capacity(alloc, N)?,
        })
    }

    /// Takes the next shard in.
    pub fn add(&mut self, kept: KeptShard<T, N>)
        requires number { kept.number ≡ vec_len self.old.histories }
        requires room { (vec_len self.old.units < vec_capacity self.old.units) × (vec_len self.old.histories < vec_capacity self.old.histories) }
        ensures histories { self.new.histories.items ≡ self.old.histories.items ++ kept.history ∷ [] }
        ensures units { vec_len self.new.units ≡ vec_len self.old.units + 1 }
        ensures room { (vec_capacity self.new.units ≡ vec_capacity self.old.units) × (vec_capacity self.new.histories ≡ vec_capacity self.old.histories) }
    {
        let KeptShard {
            number: _,
            unit,
            history,
        } = kept;
        self.units.push_reserved(unit);
        self.histories.push_reserved(history);
    }
}

// Puts a shard at its place, and its token into the one that has all that were put.
fn place<T: Drop, B: Registry, const N: usize>(
    tie: &Tie,
    names: Names,
    book: &mut Token,
    slots: &mut Vec<Option<KeptShard<T, N>>>,
    recording: Recording<T, B, N>,
)
    requires tie { (tie.now.table.shared.table_id ≡ B.table) × (tie.now.table.shared.key ≡ names) }
    requires names { names.shards ≡ N }
    requires id { book.old.table_id ≡ B.table }
    requires so_far { IsGathered (λ k. k.number) (λ k. k.history.items) N slots.old.items book.old.me }
    ensures id { book.new.table_id ≡ B.table }
    ensures more { IsGathered (λ k. k.number) (λ k. k.history.items) N slots.new.items book.new.me }
    ensures fewer { empty_in slots.new.items + 1 ≡ empty_in slots.old.items }
{
    let Recording { unit, journal } = recording;
    let Journal {
        number,
        history,
        token,
        ..
    } = journal;
    tie.join(book, token);
    tie.look(book, names);
    // Read for the proof alone, which learns from it what the type says of itself.
    let _weight = unit.used_weight();
    let kept = KeptShard {
        number,
        unit,
        history,
    };
    slots[number] = Some(kept);
}

// Takes all shards out of their locks, and puts each at its place.
fn gather<T: Drop, B: Registry, const N: usize>(
    tie: &Tie,
    names: Names,
    book: &mut Token,
    slots: &mut Vec<Option<KeptShard<T, N>>>,
    shards: Vec<Mutex<Recording<T, B, N>>>,
)
    requires tie { (tie.now.table.shared.table_id ≡ B.table) × (tie.now.table.shared.key ≡ names) }
    requires names { names.shards ≡ N }
    requires id { book.old.table_id ≡ B.table }
    requires so_far { IsGathered (λ k. k.number) (λ k. k.history.items) N slots.old.items book.old.me }
    requires count { empty_in slots.old.items ≡ vec_len shards }
    ensures id { book.new.table_id ≡ B.table }
    ensures more { IsGathered (λ k. k.number) (λ k. k.history.items) N slots.new.items book.new.me }
    ensures count { empty_in slots.new.items ≡ 0 }
{
    let mut locks = shards;
    while let Some(lock) = locks.pop() {
        place(tie, names, book, slots, lock.into_inner());
    }
}

// Takes the shards out of their places, in order.
fn in_order<T: Drop, const N: usize>(
    slots: Vec<Option<KeptShard<T, N>>>,
    room: Gathered<T, N>,
) -> Gathered<T, N>
    requires len { vec_len slots ≡ N }
    requires full { empty_in slots.items ≡ 0 }
    requires placed { ArePlaced (λ k. k.number) slots.items }
    requires none_yet { (room.units.items ≡ []) × (room.histories.items ≡ []) }
    requires room { (N ≤ vec_capacity room.units) × (N ≤ vec_capacity room.histories) }
    ensures count { (vec_len result.units ≡ N) × (vec_len result.histories ≡ N) }
    ensures histories { map (λ v. Some v.items) result.histories.items ≡ map (option_map (λ k. k.history.items)) slots.items }
{
    let mut all = room;
    for slot in slots {
        let Some(kept) = slot else { unreachable!() };
        all.add(kept);
    }
    all
}

/// GatheringRoom for all shards, made before they are taken out.
#[derive(Drop)]
pub struct GatheringRoom<T, const N: usize> {
    slots: Vec<Option<KeptShard<T, N>>>,
    all: Gathered<T, N>,
    ghost places: { vec_len slots ≡ N },
    ghost empty: { empty_in slots.items ≡ N },
    ghost none_yet: { (all.units.items ≡ []) × (all.histories.items ≡ []) },
    ghost room: { (N ≤ vec_capacity all.units) × (N ≤ vec_capacity all.histories) },
}

fn empty_slots<T: Drop, const N: usize>(
    alloc: Global,
) -> Result<Vec<Option<KeptShard<T, N>>>, AllocError>
    ensures { IfOk result (λ slots. (vec_len slots ≡ N) × (empty_in slots.items ≡ N)) }
{
    let mut slots = Vec::with_capacity(alloc, N)?;
    for _ in 0..N {
        slots.push(None)?;
    }
    Ok(slots)
}

impl<T: Drop, const N: usize> GatheringRoom<T, N> {
    /// GatheringRoom for N shards.
    pub(crate) fn new(alloc: Global) -> Result<Self, AllocError> {
        Ok(GatheringRoom {
            slots: empty_slots(alloc)?,
            all: Gathered::with_room(alloc)?,
        })
    }

    /// Takes all shards out of their locks, and answers them in order. `book` then has the books of all.
    pub fn fill<B: Registry>(
        self,
        tie: &Tie,
        names: Names,
        book: &mut Token,
        shards: Vec<Mutex<Recording<T, B, N>>>,
    ) -> Gathered<T, N>
        requires tie { (tie.now.table.shared.table_id ≡ B.table) × (tie.now.table.shared.key ≡ names) }
        requires names { names.shards ≡ N }
        requires book { (book.old.table_id ≡ B.table) × (book.old.me ≡ (hand [] [] [] [], [])) }
        requires shards { vec_len shards ≡ N }
        ensures count { (vec_len result.units ≡ N) × (vec_len result.histories ≡ N) }
        ensures book { (book.new.table_id ≡ B.table) × (book.new.me ≡ (hand book.new.me.0.shards [] book.new.me.0.book [], [])) }
        ensures is_book { IsBook N (lists_of result.histories.items) book.new.me.0.shards book.new.me.0.book }
    {
        let GatheringRoom { slots, all } = self;
        let mut slots = slots;
        gather(tie, names, book, &mut slots, shards);
        in_order(slots, all)
    }
}
