//! What calls met, counted beside what they were called on.
ghost use Rattle.std.specs.Prelude.{◌≡◌, ◌<◌};
ghost use Rattle.std.specs.Option.{option_map};
ghost use Rattle.lru_shared_cache.specs.Counts.{none_left, more_left, no_counts, both_counts, looked, refused, left_by, fewer, all_but, put_counted, total};

use crate::shards::Shards;
use lru_owned_cache::cache::Entry;

/// Something that is called, and what its calls met.
#[derive(Drop)]
pub struct Counted<C> {
    /// What is called.
    pub cache: C,
    /// What the calls met.
    pub counts: Counts,
}

/// What the calls on all of these met.
pub fn total<C>(counted: &[Counted<C>]) -> Counts
    ensures { result ≡ total counted.now }
{
    let mut stats = Counts::none();
    let mut rest = counted;
    while let Some((one, tail)) = rest.split_first() {
        stats = stats.plus(one.counts);
        rest = tail;
    }
    stats
}

/// What the calls on a shard met.
pub fn shard_stats<C, T: Shards<Counted<C>>>(shards: &T, shard: usize) -> Counts
    requires { shard < T.many shards.now }
    ensures { T.sees shards.now shard (λ one. result ≡ one.counts) }
{
    shards.look(shard, |one: &Counted<C>| one.counts)
}

/// The weight of an entry, if there is one.
#[inline(always)]
pub fn weight_in<K, V>(entry: &Option<Entry<K, V>>) -> Option<usize>
    ensures { result ≡ option_map (λ e. e.weight) entry.now }
{
    match entry {
        Some(entry) => Some(entry.weight),
        None => None,
    }
}

/// How many entries there are, and what they weigh together.
#[derive(Clone, Copy, Debug, PartialEq, Eq, Drop)]
pub struct Size {
    /// How many there are.
    pub entries: usize,
    /// What they weigh together.
    pub weight: usize,
}

impl Size {
    /// All but one, which weighs this.
    #[inline(always)]
    pub fn without(self, weight: usize) -> Self
        ensures { result ≡ all_but self weight }
    {
        Size {
            entries: self.entries.saturating_sub(1),
            weight: self.weight.saturating_sub(weight),
        }
    }
}

/// Why an entry is no longer there.
#[derive(Clone, Copy, Debug, PartialEq, Eq, Drop)]
pub enum Why {
    /// Another of its key was put in its place.
    Replaced,
    /// It went so that others had room, or were within a lower limit.
    ForRoom,
    /// It was past its deadline.
    Past,
    /// It was taken out: by its key, as the one that was used longest ago, or by a test of each.
    Removed,
    /// All entries went.
    Cleared,
}

/// Entries that left in one way.
#[derive(Clone, Copy, Debug, PartialEq, Eq, Drop)]
pub struct Left {
    /// How many there were.
    pub entries: u64,
    /// What they weighed together.
    pub weight: u64,
}

impl Left {
    /// None left.
    pub fn none() -> Self
        ensures { result ≡ none_left }
    {
        Left {
            entries: 0,
            weight: 0,
        }
    }

    /// With so many more, which weigh this together.
    #[inline(always)]
    pub fn more(self, entries: u64, weight: u64) -> Self
        ensures { result ≡ more_left self entries weight }
    {
        Left {
            entries: self.entries.saturating_add(entries),
            weight: self.weight.saturating_add(weight),
        }
    }
}

/// What calls met, since the cache was made. Each number ends at 18446744073709551615 and then stays there.
#[derive(Clone, Copy, Debug, PartialEq, Eq, Drop)]
pub struct Counts {
    /// Look-ups that use a key and found its entry.
    pub hits: u64,
    /// Look-ups that would use a key and found no entry of it.
    pub misses: u64,
    /// Entries that were put.
    pub puts: u64,
    /// Entries that were refused.
    pub refusals: u64,
    /// Entries in whose place another of their key was put.
    pub replaced: Left,
    /// Entries that went so that others had room, or were within a lower limit.
    pub for_room: Left,
    /// Entries that went past their deadline.
    pub past: Left,
    /// Entries that were taken out, by their keys, as those that were used longest ago, or by a test of each.
    pub removed: Left,
    /// Entries that went with all others.
    pub cleared: Left,
}

impl Counts {
    /// Nothing was met.
    pub fn none() -> Self
        ensures { result ≡ no_counts }
    {
        Counts {
            hits: 0,
            misses: 0,
            puts: 0,
            refusals: 0,
            replaced: Left::none(),
            for_room: Left::none(),
            past: Left::none(),
            removed: Left::none(),
            cleared: Left::none(),
        }
    }

    /// Counts a look-up that uses a key, and whether it found its entry.
    #[inline(always)]
    pub fn look(&mut self, is_found: bool)
        ensures { self.new ≡ looked self.old is_found }
    {
        if is_found {
            self.hits = self.hits.saturating_add(1);
        } else {
            self.misses = self.misses.saturating_add(1);
        }
    }

    /// Counts an entry of this weight that was put, in place of one that weighed `was`, if there was one; and the others that
    /// went for it. `before` and `after` are the sizes of what the cache had and has.
    #[inline(always)]
    pub fn put(&mut self, before: Size, was: Option<usize>, weight: usize, after: Size)
        ensures { self.new ≡ put_counted self.old before was weight after }
    {
        self.puts = self.puts.saturating_add(1);
        let others = after.without(weight);
        match was {
            Some(was) => {
                self.leave(Why::Replaced, 1, was as u64);
                self.leave_from(Why::ForRoom, before.without(was), others);
            }
            None => self.leave_from(Why::ForRoom, before, others),
        }
    }

    /// Counts an entry that was refused.
    pub fn refuse(&mut self)
        ensures { self.new ≡ refused self.old }
    {
        self.refusals = self.refusals.saturating_add(1);
    }

    /// Counts entries that left, which weigh this together, and why.
    #[inline(always)]
    pub fn leave(&mut self, why: Why, entries: u64, weight: u64)
        ensures { self.new ≡ left_by self.old why entries weight }
    {
        match why {
            Why::Replaced => self.replaced = self.replaced.more(entries, weight),
            Why::ForRoom => self.for_room = self.for_room.more(entries, weight),
            Why::Past => self.past = self.past.more(entries, weight),
            Why::Removed => self.removed = self.removed.more(entries, weight),
            Why::Cleared => self.cleared = self.cleared.more(entries, weight),
        }
    }

    /// Counts what left of so many entries, of which so many are there now.
    #[inline(always)]
    pub fn leave_from(&mut self, why: Why, before: Size, after: Size)
        ensures { self.new ≡ fewer self.old why before after }
    {
        let entries = before.entries.saturating_sub(after.entries);
        let weight = before.weight.saturating_sub(after.weight);
        self.leave(why, entries as u64, weight as u64);
    }

    /// What was met here and there.
    pub fn plus(self, other: Counts) -> Self
        ensures { result ≡ both_counts self other }
    {
        Counts {
            hits: self.hits.saturating_add(other.hits),
            misses: self.misses.saturating_add(other.misses),
            puts: self.puts.saturating_add(other.puts),
            refusals: self.refusals.saturating_add(other.refusals),
            replaced: self
                .replaced
                .more(other.replaced.entries, other.replaced.weight),
            for_room: self
                .for_room
                .more(other.for_room.entries, other.for_room.weight),
            past: self.past.more(other.past.entries, other.past.weight),
            removed: self
                .removed
                .more(other.removed.entries, other.removed.weight),
            cleared: self
                .cleared
                .more(other.cleared.entries, other.cleared.weight),
        }
    }
}
