//! What a load put back, or why it did not.
ghost use Rattle.std.specs.Prelude.{◌≡◌};
ghost use Rattle.lru_order_checkpoints.specs.declared.restored.OrderRestoreError.TheVariants as why;

use lru_generations::errors::CheckpointError;
use lru_generations::known::Known;
use lru_generations::newest::Passed;
use lru_shard::unit::Refused;

/// What a load put back.
#[derive(Debug, Drop)]
pub struct RestoredOrder {
    /// The number of the checkpoint that was loaded, where there is one.
    pub generation: Option<u64>,
    /// That it was whole: a save that is handed it need not read it again.
    pub known: Option<Known>,
    /// The generations above it that have a manifest and were passed over, the highest first.
    pub passed: Vec<Passed>,
}

/// Why a checkpoint was not put back.
#[derive(Debug, Drop)]
pub enum OrderRestoreError<V> {
    /// None was loaded, and the order is as it was.
    Unloaded(CheckpointError),
    /// A row was refused, as `insert_tail` refuses. It is handed back; those that were put before it are there, and the others
    /// are dropped.
    Refused(Refused<(u64, V)>),
}

impl<V> From<CheckpointError> for OrderRestoreError<V> {
    ghost from_gives = { λ error made. made ≡ why.Unloaded error };

    fn from(error: CheckpointError) -> Self {
        OrderRestoreError::Unloaded(error)
    }
}

impl<V> From<Refused<(u64, V)>> for OrderRestoreError<V> {
    ghost from_gives = { λ refused made. made ≡ why.Refused refused };

    fn from(refused: Refused<(u64, V)>) -> Self {
        OrderRestoreError::Refused(refused)
    }
}
