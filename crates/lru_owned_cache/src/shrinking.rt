//! Which entries go, so that the others fit.
ghost use Rattle.std.specs.Prelude.{◌≡◌, ◌&&◌, nat_le};
ghost use Rattle.lru_owned_cache.specs.Entries.{weight_in};
ghost use Rattle.lru_owned_cache.specs.Partings.{Shrinks};

use crate::entry::Entry;
use lru_pairs::pairs::Pairs;
use std::hash::{BuildHasher, Hash};

/// Takes rows out from the last on, until they weigh at most `most_weight` and are at most `most_rows`, hands each to
/// `visit`, and answers what the others weigh.
#[inline(always)]
pub fn shrink<K, V, S, F>(
    rows: &mut Pairs<K, V, S>,
    used: usize,
    most_weight: usize,
    most_rows: usize,
    visit: F,
) -> usize
where
    K: Hash + Drop,
    V: Drop,
    S: BuildHasher,
    F: FnMut(Entry<K, V>) + Drop,
    requires used { used ≡ weight_in rows.old.held.rows }
    requires visit { F.IsAlwaysCallable visit }
    ensures shrinks { Shrinks (λ p x q. F.step p x tt q) visit most_weight most_rows rows.old.held rows.new.held }
    ensures used { result ≡ weight_in rows.new.held.rows }
    ensures hashes { rows.new.hashes ≡ rows.old.hashes }
{
    // (most often all fit, and then no call is made)
    if fits(used, rows.len(), most_weight, most_rows) {
        return used;
    }
    let_go(rows, used, most_weight, most_rows, visit)
}

// The same, where most likely some have to go.
fn let_go<K, V, S, F>(
    rows: &mut Pairs<K, V, S>,
    used: usize,
    most_weight: usize,
    most_rows: usize,
    mut visit: F,
) -> usize
where
    K: Hash + Drop,
    V: Drop,
    S: BuildHasher,
    F: FnMut(Entry<K, V>) + Drop,
    requires used { used ≡ weight_in rows.old.held.rows }
    requires visit { F.IsAlwaysCallable visit }
    ensures shrinks { Shrinks (λ p x q. F.step p x tt q) visit most_weight most_rows rows.old.held rows.new.held }
    ensures used { result ≡ weight_in rows.new.held.rows }
    ensures hashes { rows.new.hashes ≡ rows.old.hashes }
{
    let mut used = used;
    while !fits(used, rows.len(), most_weight, most_rows) {
        let Some(last) = rows.pop_last() else {
            unreachable!()
        };
        used -= last.weight;
        visit(Entry {
            key: last.key,
            value: last.value,
            weight: last.weight,
        });
    }
    used
}

// Whether so many rows of this weight are within the limits.
#[inline(always)]
fn fits(weight: usize, len: usize, most_weight: usize, most_rows: usize) -> bool
    ensures { result ≡ (nat_le weight most_weight && nat_le len most_rows) }
{
    weight <= most_weight && len <= most_rows
}
