//! How long entries are answered.
ghost use Rattle.std.specs.Prelude.{◌≡◌, min};
ghost use Rattle.lru_shared_deadlines.specs.Ages.{later, begun};

use lru_deadlines::deadlines::Until;
use lru_owned_cache::cache::Entry;

/// How long entries are answered, in the caller's unit of time. 18446744073709551615 is as long as there is time.
#[derive(Clone, Copy, Debug, PartialEq, Eq, Drop)]
pub struct Ages {
    /// For how long from when an entry is put.
    pub live: u64,
    /// For how long from when an entry is last used. To put it is a use.
    pub idle: u64,
}

/// A value that ends.
#[derive(Debug, Drop)]
pub struct Aged<V> {
    /// The value.
    pub value: V,
    /// The last time at which it is answered, however much it is used. Its deadline is no later.
    pub ends: u64,
}

/// An entry as it is handed over: its value, `value.value.value`, with the time at which it ends, `value.value.ends`, and
/// its deadline, `value.deadline`, by which `value.is_past(time)` tells whether it was past.
pub type Gone<K, V> = Entry<K, Until<Aged<V>>>;

/// A time, and how long entries are answered.
#[derive(Clone, Copy, Drop)]
pub(crate) struct Moment {
    pub(crate) time: u64,
    pub(crate) ages: Ages,
}

impl Moment {
    // The deadline of an entry that is used then, and ends at this time.
    pub(crate) fn deadline(self, ends: u64) -> u64
        ensures { result ≡ min ends (later self.time self.ages.idle) }
    {
        ends.min(self.time.saturating_add(self.ages.idle))
    }

    // A value as it is put then.
    pub(crate) fn begin<V>(self, value: V) -> Until<Aged<V>>
        ensures { result ≡ begun self value }
    {
        let ends = self.time.saturating_add(self.ages.live);
        Until {
            value: Aged { value, ends },
            deadline: self.deadline(ends),
        }
    }
}
