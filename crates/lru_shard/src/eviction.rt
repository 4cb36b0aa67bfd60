//! When an order is over its limits, which shards an eviction looks at, and what a refused growth leaves of one.
ghost use Rattle.std.specs.Prelude.{◌≡◌, ◌+◌, ◌-◌, ◌%◌, ◌<◌, ◌≤◌, min};
ghost use Rattle.lru_shard.specs.Draws.{drawn_shards};
ghost use Rattle.lru_shard.specs.Limits.{is_past};
ghost use Rattle.lru_shard.specs.Victims.{longer_of};

use rand::RngExt;
use rand_core::Rng;

/// An `evict_to_limit` that a refused growth cut short: number 1, Memory.
#[derive(Debug, Drop)]
pub struct EvictError<T> {
    /// The data and the weight of each row that was evicted, in order.
    pub evicted: Vec<(T, usize)>,
}

/// Whether a weight is above its limit, or a length above the watermark.
#[inline(always)]
pub fn is_past(limit: usize, watermark: Option<usize>, weight: usize, len: usize) -> bool
    ensures { result ≡ is_past limit watermark weight len }
{
    weight > limit
        || match watermark {
            None => false,
            Some(most) => len > most,
        }
}

/// What an `evict_to_limit` that others may come between read at its start: the limits, and the weight and the length, which go
/// down by what it evicts.
#[derive(Clone, Copy)]
pub struct Readings {
    /// The sum of the weights of all rows, less what was evicted.
    pub weight: usize,
    /// The number of all rows, less what was evicted.
    pub len: usize,
    /// The weight above which the order is over.
    pub weight_limit: usize,
    /// The length above which it is over, if there is one.
    pub watermark: Option<usize>,
}

impl Readings {
    /// Whether what is left of the values first read and these values are both past one limit.
    #[inline(always)]
    pub fn is_past(&self, weight: usize, len: usize) -> bool
        ensures { result ≡ is_past self.now.weight_limit self.now.watermark (min self.now.weight weight) (min self.now.len len) }
    {
        is_past(
            self.weight_limit,
            self.watermark,
            self.weight.min(weight),
            self.len.min(len),
        )
    }

    /// A row of this weight was evicted.
    #[inline(always)]
    pub fn evicted(&mut self, weight: usize)
        ensures { self.new ≡ record self.old { weight = self.old.weight - weight; len = self.old.len - 1 } }
    {
        self.weight = self.weight.saturating_sub(weight);
        self.len = self.len.saturating_sub(1);
    }
}

/// The shard that lies so many steps on, in a circle of `count` shards.
#[inline(always)]
pub fn shard_after(from: usize, steps: usize, count: usize) -> usize
    requires from { from < count }
    requires steps { steps < count }
    ensures place { result ≡ (from + steps) % count }
    ensures below { result < count }
{
    if steps < count - from {
        from + steps
    } else {
        steps - (count - from)
    }
}

/// Two shards of N, drawn a first and b second. Of one shard nothing is drawn.
#[inline(always)]
pub fn drawn_shards<R: Rng, const N: usize>(rng: &mut R) -> (usize, usize)
    requires { 0 < N }
    ensures a { result.0 < N }
    ensures b { result.1 < N }
    ensures drawn { (result, R.stream rng.new) ≡ drawn_shards N (R.stream rng.old) }
    ensures undrawn { N ≡ 1 → rng.new ≡ rng.old }
{
    if N == 1 {
        return (0, 0);
    }
    let a = rng.random_range(0..N);
    let b = rng.random_range(0..N);
    (a, b)
}

/// Which of two shards gives up a row: the longer one, or the first where they are as long.
#[inline(always)]
pub fn longer_of(a: usize, b: usize, len_a: usize, len_b: usize) -> usize
    ensures { result ≡ longer_of a b len_a len_b }
{
    if len_a >= len_b { a } else { b }
}
