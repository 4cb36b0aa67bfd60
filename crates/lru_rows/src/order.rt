//! The keys of the rows in the order of their last use, each at its place.
ghost use Rattle.std.specs.Prelude.{if◌then◌else◌};
ghost use Rattle.lru_list.specs.Linked.{item_of, pushed_head, pushed_tail, Pushes, IsNumbered};

use lru_index::keys::Keys;
use lru_list::linked_list::{Index, LinkedList, PushError};

/// The order of the keys, which tells an index the key of a place.
#[derive(Drop)]
pub(crate) struct Order<K> {
    pub(crate) list: LinkedList<K>,
}

impl<K> Keys<K> for Order<K> {
    ghost key_of = { λ order p. item_of order.list.live p };

    #[inline(always)]
    fn is_live(&self, place: u32) -> bool {
        self.list.is_live(place as usize)
    }

    #[inline(always)]
    fn key_at(&self, place: u32) -> &K {
        self.list.slot(place as usize)
    }
}

impl<K: Default + Drop> Order<K> {
    /// Puts a key last, or else first.
    #[inline(always)]
    pub(crate) fn push(&mut self, key: K, last: bool) -> Result<Index, PushError<K>>
        ensures pushes { Pushes self.old.list (if last then pushed_tail self.old.list key else pushed_head self.old.list key) key result self.new.list }
        ensures numbered { IsNumbered self.new.list }
    {
        if last {
            self.list.push_tail(key)
        } else {
            self.list.push_head(key)
        }
    }
}
