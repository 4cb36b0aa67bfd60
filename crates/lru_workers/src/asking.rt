//! Whether one more eviction may be asked for. Nobody knows what a row weighs that is still to be evicted, so each is counted
//! as the heaviest there is: then none is asked for that the limits would not want.
ghost use Rattle.std.specs.Prelude.{◌≡◌, ℕ, ◌+◌, ◌-◌, ◌*◌, ◌%◌, ◌^◌, ◌≤◌, List, All, length, sum, IsTrue, Some, None, if◌then◌else◌};
ghost use Rattle.lru_shard.specs.Limits.{is_past};

use crate::world::OrderLimits;
use lru_shard::eviction::is_past;

/// What an order holds.
#[derive(Clone, Copy, Debug)]
pub struct HeldTotals {
    /// The weight of all rows.
    pub weight: usize,
    /// How many rows there are.
    pub len: usize,
    /// No row weighs more.
    pub heaviest: usize,
}

/// Whether one more eviction may be asked for while so many are under way: a limit is passed even if each of those takes a row
/// as heavy as the heaviest. So it is passed whatever rows they take.
pub fn may_ask(limits: &OrderLimits, held: &HeldTotals, pending: usize) -> bool
    ensures value { result ≡ is_past limits.now.weight_limit limits.now.len_watermark (held.now.weight - pending * held.now.heaviest) (held.now.len - pending) }
    ensures wanted { IsTrue result → (gone : List ℕ) → length gone ≤ pending → All (λ w. w ≤ held.now.heaviest) gone → IsTrue (is_past limits.now.weight_limit limits.now.len_watermark (held.now.weight - sum gone) (held.now.len - length gone)) }
{
    is_past(
        limits.weight_limit,
        limits.len_watermark,
        held.weight
            .saturating_sub(pending.saturating_mul(held.heaviest)),
        held.len.saturating_sub(pending),
    )
}

/// How many are asked for with one more, modulo 2^64, where one more may be asked for beside so many that are under way.
pub fn next_asked(
    limits: &OrderLimits,
    held: &HeldTotals,
    asked: usize,
    pending: usize,
) -> Option<usize>
    ensures { result ≡ (if is_past limits.now.weight_limit limits.now.len_watermark (held.now.weight - pending * held.now.heaviest) (held.now.len - pending) then Some ((asked + 1) % 2 ^ 64) else None) }
{
    if may_ask(limits, held, pending) {
        Some(asked.wrapping_add(1))
    } else {
        None
    }
}
