//! The table, and which session leaves it.
ghost use Rattle.std.specs.Prelude.{◌≡◌, ◌⊎◌, ◌≤◌, ◌<◌, length, IfSome, IfNone};
ghost use Rattle.lru_shard.specs.Row.{weight_of};
ghost use Rattle.example_sessions.specs.Sessions.{newest};

use pingora_lru::unit::LruUnit;
use std::alloc::{AllocError, Global};

/// What the table knows of a session, beside its bytes.
#[derive(Clone, Copy, Debug)]
pub struct Session {
    pub id: u64,
}

/// Sessions by their id, each with the bytes of its requests.
pub type Table = LruUnit<Session>;

/// A table with no sessions.
pub fn empty_table(alloc: Global) -> Result<Table, AllocError> {
    LruUnit::with_capacity(alloc, 0, usize::MAX)
}

/// Takes out the session used longest ago, with its bytes, where the table has more than `budget` and more than one
/// session.
pub fn leaves(table: &mut Table, budget: usize) -> Option<(Session, usize)>
    // whoever leaves, it is not the session that was used last
    ensures newest { newest table.new ≡ newest table.old }
    ensures fewer { IfSome result (λ _. length table.new.rows < length table.old.rows) }
    ensures kept { IfNone result ((weight_of table.new.rows ≤ budget) ⊎ (length table.new.rows ≤ 1)) }
{
    if table.used_weight() <= budget || table.len() <= 1 {
        return None;
    }
    table.evict()
}
