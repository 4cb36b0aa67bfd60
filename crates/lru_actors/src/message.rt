//! The messages of an actor.

/// What an actor is asked to do with its shard. Rows are known by the hash of their key.
#[derive(Debug, Drop)]
pub enum LruMsg<K> {
    /// Puts a row first, with this weight, at least 1. A row that is there keeps its key.
    Admit {
        /// The hash of the key.
        hash: u64,
        /// The key, for a new row.
        key: K,
        /// The weight.
        weight: usize,
    },
    /// Adds to a row's weight, as far as `max_weight`, and puts it first. A new row has at least weight 1.
    IncrementWeight {
        /// The hash of the key.
        hash: u64,
        /// The key, for a new row.
        key: K,
        /// What is added.
        delta: usize,
        /// The most that the weight is raised to.
        max_weight: Option<usize>,
    },
    /// Puts a row first.
    Promote {
        /// The hash of the key.
        hash: u64,
    },
    /// Takes a row out.
    Remove {
        /// The hash of the key.
        hash: u64,
    },
    /// Puts a new row last; nothing where there is one.
    InsertTail {
        /// The hash of the key.
        hash: u64,
        /// The key.
        key: K,
        /// The weight.
        weight: usize,
    },
    /// Takes the last row out, and dispatches its key and weight.
    Evict,
    /// Asks for the key and the weight of the last row.
    PeekLru,
    /// Asks for all keys and weights, most recent first.
    Snapshot,
    /// Asks for the weight of the shard.
    QueryWeight,
}
