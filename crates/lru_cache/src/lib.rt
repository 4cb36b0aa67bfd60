//! Caches of keys and values that let go of what was used longest ago: of one owner and for threads, with ages, in two segments,
//! and with admission by how often keys were used. What stands here is passed on from the crates beneath.
//!
//! What each call answers, what it leaves and what goes is exact, and no cache is over its limits after a call. It adds nothing of
//! its own: caches of one owner (`lru_owned_cache`, `lru_deadlines`, `lru_segmented`, `lru_admission`) and those for threads
//! (`lru_shared_cache`, `lru_shared_deadlines`, `lru_shared_segmented`) keep their layers.
#![tactic(auto)]

pub use lru_admission::{admission, sketch};
pub use lru_deadlines::deadlines;
pub use lru_index::{alike, hashing, keys};
pub use lru_owned_cache::{cache, entry};
pub use lru_segmented::{segmented, segmented_deadlines};
pub use lru_shared_cache::{counts, limits, relations, sharded, shared};

/// Caches for threads whose entries end, and their shards of one owner.
pub mod shared_deadlines {
    pub use lru_shared_deadlines::ages::{Aged, Ages, Gone};
    pub use lru_shared_deadlines::sharded::ShardedDeadlineCache;
    pub use lru_shared_deadlines::shared::{
        Limits, LockedDeadlineShard, NotGot, SharedDeadlineCache,
    };
}

/// Caches for threads in two segments, and their shards of one owner.
pub mod shared_segmented {
    pub use lru_shared_segmented::sharded::ShardedSegmentedCache;
    pub use lru_shared_segmented::shared::{
        Limits, LockedSegmentedShard, NotGot, SharedSegmentedCache,
    };
}
