//! Which rows stay in their segments, by what a test answers.
ghost use Rattle.lru_segmented.specs.Retained.{RetainsLastRows};

use crate::seats::Seats;
use lru_owned_cache::cache::Entry;
use std::hash::{BuildHasher, Hash};

/// Asks `keep` of the last rows, of `most` at most, the last first, takes out those for which it answers false, and hands each
/// to `visit`. The others stay where they are.
pub(crate) fn retain_last<K, V, S, F, G>(
    seats: &mut Seats<K, V, S>,
    most: usize,
    mut keep: F,
    mut visit: G,
)
where
    K: Hash + Drop,
    V: Drop,
    S: BuildHasher,
    F: FnMut(&K, &V, usize) -> bool + Drop,
    G: FnMut(Entry<K, V>) + Drop,
    requires keep { F.IsAlwaysCallable keep }
    requires visit { G.IsAlwaysCallable visit }
    ensures { RetainsLastRows (λ p k v w b q. F.step p k v w b q) keep (λ p x q. G.step p x tt q) visit most seats.old seats.new }
{
    let mut next = seats.last();
    let mut left = most.min(seats.len());
    while left > 0 {
        left -= 1;
        let Some(place) = next else { unreachable!() };
        next = seats.before(place);
        let (key, value) = (seats.key_at(place), seats.value_at(place));
        if keep(key, value, seats.weight_at(place)) {
            continue;
        }
        let row = seats.take(place);
        visit(Entry {
            key: row.key,
            value: row.value,
            weight: row.weight,
        });
    }
}
