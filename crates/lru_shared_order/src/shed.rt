//! How much a shard may hold by what the others hold, and what it evicts to hold no more.
ghost use Rattle.std.specs.Prelude.{◌≡◌, ℕ, ◌+◌, ◌-◌, ◌<◌, length, option_map};
ghost use Rattle.lru_shard.specs.Row.{weight_of};
ghost use Rattle.lru_shard.specs.Limits.{is_past};
ghost use Rattle.lru_shared_order.specs.Sheds.{Sheds};

use lru_shard::eviction::{Readings, is_past};
use lru_shard::totals::Totals;
use lru_shard::unit::LruUnit;

// How heavy and how long one shard may be.
#[derive(Clone, Copy)]
pub(crate) struct ShardRoom {
    weight: usize,
    len: Option<usize>,
}

impl ShardRoom {
    // What the others leave to a shard, by what all hold and what it holds itself: it is past it where all would be past a limit.
    pub(crate) fn beside_others(all: &Readings, own: Totals) -> ShardRoom
        ensures { (w l : ℕ) → 0 < w → 0 < l → is_past result.weight result.len w l ≡ is_past all.now.weight_limit all.now.watermark (all.now.weight - own.weight + w) (all.now.len - own.len + l) }
    {
        let others_weight = all.weight.saturating_sub(own.weight);
        let others_len = all.len.saturating_sub(own.len);
        ShardRoom {
            weight: all.weight_limit.saturating_sub(others_weight),
            len: len_beside(all.watermark, others_len),
        }
    }
}

// How long a shard may be beside others of so many rows.
fn len_beside(watermark: Option<usize>, others: usize) -> Option<usize>
    ensures { result ≡ option_map (λ most. most - others) watermark }
{
    match watermark {
        None => None,
        Some(most) => Some(most.saturating_sub(others)),
    }
}

// Evicts last rows while a shard is past its room, but not its first row, and calls a closure with each. It answers what they
// were together.
pub(crate) fn shed<T: Drop, F: FnMut((T, usize))>(
    unit: &mut LruUnit<T>,
    room: ShardRoom,
    visit: &mut F,
) -> Totals
    requires { F.IsAlwaysCallable visit.old }
    ensures again { F.IsAlwaysCallable visit.new }
    ensures done { Sheds (λ p x q. F.step p x tt q) visit.old unit.old room.weight room.len unit.new visit.new }
    ensures weight { weight_of unit.new.rows + result.weight ≡ weight_of unit.old.rows }
    ensures len { length unit.new.rows + result.len ≡ length unit.old.rows }
{
    let before = Totals::of(unit);
    while unit.len() > 1 && is_past(room.weight, room.len, unit.used_weight(), unit.len()) {
        let Some(pair) = unit.evict() else {
            unreachable!()
        };
        visit(pair);
    }
    let after = Totals::of(unit);
    Totals {
        weight: before.weight - after.weight,
        len: before.len - after.len,
    }
}
