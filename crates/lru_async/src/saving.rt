//! What a save did with the shards.
ghost use Rattle.std.specs.Prelude.{◌≡◌, ◌+◌, ◌<◌};
ghost use Rattle.std.specs.Option.{ForSome};
ghost use Rattle.lru_actors.specs.declared.message.LruMsg.TheVariants.{Snapshot};
ghost use Rattle.lru_actors.specs.declared.effect.Reply.TheVariants.{Rows};
ghost use Rattle.lru_async.specs.Saving.{IsReport};

use crate::async_lru::ShardData;
use crate::line::{Line, counted_snapshot};
use log::{Log, error};

/// What a save did with the shards. Each is counted once.
#[derive(Clone, Copy, Debug, PartialEq, Eq)]
pub struct SaveReport {
    /// How many were handed on, and written.
    pub written: usize,
    /// How many were handed on, and refused.
    pub refused: usize,
    /// How many gave no snapshot: of these nothing was handed on.
    pub missing: usize,
}

impl SaveReport {
    ghost use Rattle.lru_async.specs.Saving.{HandsOn};

    /// The report of no shards.
    pub fn of_none() -> Self
        ensures { (result.written ≡ 0) × (result.refused ≡ 0) × (result.missing ≡ 0) }
    {
        SaveReport {
            written: 0,
            refused: 0,
            missing: 0,
        }
    }

    /// Hands the rows of a shard to `write`, if it gave any, and counts what becomes of it. A refusal is logged, under the name of
    /// the order.
    pub fn hand_on<K: Drop, L: Log, F: Fn(ShardData<K>) -> Result<(), String>>(
        &mut self,
        log: &L,
        order: &str,
        write: &F,
        rows: Option<ShardData<K>>,
    )
        requires may { ForSome rows (λ r. F.pre write.now r) }
        requires few { self.old.written + (self.old.refused + self.old.missing) < usize.MAX }
        ensures { HandsOn (F.post write.now) rows self.old self.new }
    {
        let Some(rows) = rows else {
            self.missing += 1;
            return;
        };
        let shard = rows.shard_index;
        match write(rows) {
            Ok(()) => self.written += 1,
            Err(refusal) => {
                self.refused += 1;
                error!(log; "{order}: failed to write shard {shard}: {refusal}");
            }
        }
    }
}

// The rows of a shard, if it gives a snapshot.
fn rows_of<K: Drop, L: Line<K>>(line: &mut L, shard: usize) -> Option<ShardData<K>>
    requires { shard < L.shards line.old }
    ensures told { ForSome result (λ rows. (rows.shard_index ≡ shard) × L.Told line.old shard Snapshot (Rows rows.items) rows.refused line.new) }
    ensures count { L.shards line.new ≡ L.shards line.old }
{
    let Ok((items, refused)) = counted_snapshot(line, shard) else {
        return None;
    };
    Some(ShardData {
        shard_index: shard,
        items,
        refused,
    })
}

/// Takes the snapshot of each shard in turn, over a line to its actors, and hands it to `write`.
pub(crate) fn save_all<K: Drop, L: Line<K>, G: Log, F: Fn(ShardData<K>) -> Result<(), String>>(
    line: &mut L,
    log: &G,
    order: &str,
    write: &F,
) -> SaveReport
    requires { F.IsAlwaysCallable write.now }
    ensures all { result.written + (result.refused + result.missing) ≡ L.shards line.old }
    ensures told { IsReport (F.post write.now) (λ rows. (old new : L) × L.Told old rows.shard_index Snapshot (Rows rows.items) rows.refused new) (L.shards line.old) result }
    ensures any { IsReport (F.post write.now) (λ _. Unit {0}) (L.shards line.old) result }
{
    let mut report = SaveReport::of_none();
    for shard in 0..line.count() {
        let rows = rows_of(line, shard);
        report.hand_on(log, order, write, rows);
    }
    report
}
