//! The law.
ghost use Rattle.std.specs.Prelude.{◌≡◌, ◌<◌, ℕ, List, Some, slice_get};
ghost use Rattle.lru_actors.specs.World.{Actor, World, Event, Runs, IsKept, IsWhole, BatchIsConsumes, IsAsPlain, PutsPair, IsSameQueue, itself, AtAnyTime, start};

use lru_mailbox::Dispatch;

/// Whatever happens, in whatever order, from the start on, of each shard that there was: its messages are consumed in the
/// order in which they were put, and those of one sender are what it put, in its order; its rows, its map, its length and its
/// answers are those that they leave; each evicted row is called once, lost once, or waits; and the counters are sums.
///
/// It does nothing: its contract is the law.
pub fn schedule_law<K: Clone>()
    ensures shards { (n cap : ℕ) (events : List (Event K)) (w : World K) → Runs K.is_clone (start n cap) events w → (s : ℕ) → s < n → (a : Actor K) × ((slice_get w.actors s ≡ Some a) × IsKept K.is_clone cap events w s a) }
    ensures whole { (n cap : ℕ) (events : List (Event K)) (w : World K) → Runs K.is_clone (start n cap) events w → IsWhole n w }
{}

/// What an actor does with a batch, by the contract of `process_batch`, is so many events of the law in a row, whatever
/// the queue is that it dispatches to.
///
/// It does nothing: its contract is this.
pub fn batch_law<K: Clone + Drop, D: Dispatch<K>>()
    ensures batches { BatchIsConsumes K.is_clone D.Puts D.IsSame D.queue D.MayRefuse }
    ensures plain { BatchIsConsumes K.is_clone PutsPair IsSameQueue itself AtAnyTime }
    ensures queues { IsAsPlain K.is_clone D.Puts D.IsSame D.queue D.MayRefuse }
{}
