//! Caches and orders saved as checkpoints in a folder and loaded again. What stands here is passed on from the crates beneath.
//!
//! A checkpoint is whole or refused, and once a save has answered Ok each loss of power leaves it. It adds nothing of its own:
//! copies and saves by one call (`lru_cache_checkpoints`, `lru_order_checkpoints`), generations of checkpoints (`lru_generations`),
//! the bytes of a shard (`lru_frames`) and folders (`lru_host_folder`, `lru_memory_folder`) keep their layers.
#![tactic(auto)]

pub use lru_cache_checkpoints::restored;
pub use lru_frames::{row, source, stored};
pub use lru_generations::{errors, generations, known};
pub use lru_host_folder::host_folder;
pub use lru_memory_folder::memory_folder;
pub use lru_order_checkpoints::snapshots;

/// What checkpoints are saved into.
pub mod folder {
    pub use lru_folder::folder::Folder;
    pub use lru_folder::synced_folder::SyncedFolder;
}

/// The newest checkpoint loaded.
pub mod loading {
    pub use lru_generations::newest_loading::{Checkpoint, Loaded, load, load_below};
}

/// A cache of one owner saved and loaded by one call, and step by step.
pub mod caches {
    pub use lru_cache_checkpoints::cache_captures::{
        CacheSource, capture_cache, restore_cache, restore_shards,
    };
    pub use lru_cache_checkpoints::caches::{load_cache, save_cache, save_cache_after};
}

/// A cache of one owner whose entries have deadlines, the same.
pub mod deadlines {
    pub use lru_cache_checkpoints::deadline_captures::{
        DeadlineSource, capture_deadlines, restore_deadlines, restore_shards,
    };
    pub use lru_cache_checkpoints::deadlines::{
        load_deadlines, save_deadlines, save_deadlines_after,
    };
}

/// A cache that threads share, the same.
pub mod shared {
    pub use lru_cache_checkpoints::shared::{load_shared, save_shared, save_shared_after};
    pub use lru_cache_checkpoints::shared_captures::{
        SharedSource, capture_shard, restore_shard, restore_shards,
    };
}

/// A cache that threads share, whose entries end, the same.
pub mod shared_deadlines {
    pub use lru_cache_checkpoints::shared_deadline_captures::{
        SharedDeadlineSource, capture_ages, capture_shard, restore_shard, restore_shards,
    };
    pub use lru_cache_checkpoints::shared_deadlines::{
        load_shared_deadlines, save_shared_deadlines, save_shared_deadlines_after,
    };
}

/// A core of one owner, saved and loaded by one call, and step by step.
pub mod cores {
    pub use lru_order_checkpoints::core_captures::{
        CoreSource, capture_shard, restore_shard, restore_shards,
    };
    pub use lru_order_checkpoints::cores::{load_core, save_core, save_core_after};
    pub use lru_order_checkpoints::restored::{OrderRestoreError, RestoredOrder};
}

/// An order that threads share, the same.
pub mod locks {
    pub use lru_order_checkpoints::locks::{load_lru, save_lru, save_lru_after};
    pub use lru_order_checkpoints::restored::{OrderRestoreError, RestoredOrder};
    pub use lru_order_checkpoints::shared_captures::{
        LruSource, capture_shard, restore_shard, restore_shards,
    };
}
