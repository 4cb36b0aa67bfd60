//! What a load put back, or why it did not.
ghost use Rattle.std.specs.Prelude.{◌≡◌};
ghost use Rattle.lru_cache_checkpoints.specs.declared.restored.RestoreError.TheVariants as why;

use lru_generations::errors::CheckpointError;
use lru_generations::known::Known;
use lru_generations::newest::Passed;
use lru_owned_cache::cache::Refused;

/// What a load put back.
#[derive(Debug, Drop)]
pub struct Restored {
    /// The number of the checkpoint that was loaded, where there is one.
    pub generation: Option<u64>,
    /// That it was whole: a save that is handed it need not read it again.
    pub known: Option<Known>,
    /// How many of its entries were left out, since each is too heavy by itself.
    pub left_out: usize,
    /// The generations above it that have a manifest and were passed over, the highest first.
    pub passed: Vec<Passed>,
}

/// Why a checkpoint was not put back.
#[derive(Debug, Drop)]
pub enum RestoreError<K, V> {
    /// None was loaded, and the cache is as it was.
    Unloaded(CheckpointError),
    /// An entry was refused for want of memory, or of a place. Key and value are handed back; those that were put before it are
    /// there, and the others are dropped.
    Refused(Refused<K, V>),
}

impl<K, V> From<CheckpointError> for RestoreError<K, V> {
    ghost from_gives = { λ error made. made ≡ why.Unloaded error };

    fn from(error: CheckpointError) -> Self {
        RestoreError::Unloaded(error)
    }
}

impl<K, V> From<Refused<K, V>> for RestoreError<K, V> {
    ghost from_gives = { λ refused made. made ≡ why.Refused refused };

    fn from(refused: Refused<K, V>) -> Self {
        RestoreError::Refused(refused)
    }
}
