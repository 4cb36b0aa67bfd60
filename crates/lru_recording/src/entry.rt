//! What a call leaves: an entry with its shard, and a receipt with its caller.

use lru_shard::unit::Cause;

/// What was called, with all that was given but the data.
#[derive(Clone, Copy, Debug, PartialEq, Eq)]
pub enum Call {
    /// A row goes first, in place of its key's.
    Admit {
        /// The key.
        key: u64,
        /// The weight that was given; 0 counts as 1.
        weight: usize,
    },
    /// A row goes last where its key has none.
    InsertTail {
        /// The key.
        key: u64,
        /// The weight that was given; 0 is kept.
        weight: usize,
    },
    /// A key's weight grows without a bound of its own.
    IncrementWeight {
        /// The key.
        key: u64,
        /// What its weight grows by.
        delta: usize,
    },
    /// A key's weight grows up to a bound.
    IncrementWeightUpTo {
        /// The key.
        key: u64,
        /// What its weight grows by.
        delta: usize,
        /// The bound on the new weight.
        max_weight: usize,
    },
    /// A row is updated or admitted.
    UpdateOrAdmit {
        /// The key.
        key: u64,
        /// The weight that the called closure gave, at least 1; where no closure was called, it is 0.
        weight: usize,
    },
    /// A key gets another weight, in its place.
    SetWeight {
        /// The key.
        key: u64,
        /// The weight that was given; 0 counts as 1.
        weight: usize,
    },
    /// A key's row goes first.
    Promote {
        /// The key.
        key: u64,
    },
    /// A key's row goes first unless it is among the first `top`.
    PromoteTopN {
        /// The key.
        key: u64,
        /// How many rows are near enough to the first.
        top: usize,
    },
    /// The last row of the shard `shard` modulo the number of shards leaves.
    EvictShard {
        /// The number that was given.
        shard: u64,
    },
    /// One shard, probed by an `evict_to_limit`: its last row leaves.
    EvictToLimit,
    /// A key's row leaves.
    Remove {
        /// The key.
        key: u64,
    },
    /// Whether a key has a row.
    Peek {
        /// The key.
        key: u64,
    },
    /// The weight of a key's row.
    PeekWeight {
        /// The key.
        key: u64,
    },
    /// The weight of the last row.
    PeekLru,
}

/// What was answered, data aside.
#[derive(Clone, Copy, Debug, PartialEq, Eq)]
pub enum Reply {
    /// Yes or no.
    Flag(bool),
    /// A weight that there always is.
    Weight(usize),
    /// The weight of the row in question.
    Found(usize),
    /// There is no such row.
    NotFound,
    /// The call was refused, for this cause.
    Refused(Cause),
}

/// What a shard's history has of a call: whose it was, and which of that caller's calls.
#[derive(Clone, Copy, Debug, PartialEq, Eq)]
pub struct Entry {
    /// The number of the caller's seat.
    pub seat: usize,
    /// How many calls of that seat were noted before.
    pub turn: usize,
    /// What was called.
    pub call: Call,
    /// What was answered.
    pub reply: Reply,
}

/// What a caller has of a call: in which shard's history it stands, and where.
#[derive(Clone, Copy, Debug, PartialEq, Eq)]
pub struct Receipt {
    /// The number of the shard.
    pub shard: usize,
    /// How many calls on that shard were noted before.
    pub place: usize,
    /// What was called.
    pub call: Call,
    /// What was answered.
    pub reply: Reply,
}

/// An entry and its receipt in one.
#[derive(Clone, Copy, Debug, PartialEq, Eq)]
pub struct Stamp {
    /// The number of the shard.
    pub shard: usize,
    /// The place in that shard's history.
    pub place: usize,
    /// The number of the caller's seat.
    pub seat: usize,
    /// The place among that seat's receipts.
    pub turn: usize,
    /// What was called.
    pub call: Call,
    /// What was answered.
    pub reply: Reply,
}

/// How many shards and how many seats there are.
#[derive(Clone, Copy, Debug, PartialEq, Eq)]
pub struct Names {
    /// The shards have the numbers below this one.
    pub shards: u64,
    /// The seats have the numbers below this one.
    pub seats: u64,
}

/// What a token knows: the shards and seats that it speaks for, with the stamps in the shards' books and those
/// that the seats have as slips. No value of it is made.
pub struct Hand {
    /// The numbers of its shards.
    pub shards: std::collections::LinkedList<u64>,
    /// The numbers of its seats.
    pub seats: std::collections::LinkedList<u64>,
    /// What its shards' histories have.
    pub book: std::collections::LinkedList<Stamp>,
    /// What its seats' receipts have.
    pub slips: std::collections::LinkedList<Stamp>,
}

// Each call leaves one of each, and a long run has many.
const _: () = prove!(std::mem::size_of::<Entry>() <= 64);

const _: () = prove!(std::mem::size_of::<Receipt>() <= 64);
