//! Which entries stay, by what a test answers.
ghost use Rattle.std.specs.Prelude.{◌≡◌, ◌≤◌, length};
ghost use Rattle.lru_owned_cache.specs.Entries.{weight_in};
ghost use Rattle.lru_owned_cache.specs.Partings.{AsksLast, PutsBack, RetainsLastRows, RetainsRows};

use crate::entry::Entry;
use lru_pairs::pairs::Pairs;
use std::hash::{BuildHasher, Hash};

/// Asks `keep` of each row, the last first, takes out those for which it answers false, and answers what the others weigh.
pub fn retain<K, V, S, F>(rows: &mut Pairs<K, V, S>, used: usize, keep: F) -> usize
where
    K: Hash + Drop,
    V: Drop,
    S: BuildHasher,
    F: FnMut(&K, &V, usize) -> bool + Drop,
    requires used { used ≡ weight_in rows.old.held.rows }
    requires keep { F.IsAlwaysCallable keep }
    ensures retains { RetainsRows (λ p k v w b q. F.step p k v w b q) keep rows.old.held rows.new.held }
    ensures used { result ≡ weight_in rows.new.held.rows }
    ensures hashes { rows.new.hashes ≡ rows.old.hashes }
{
    let most = rows.len();
    // All stand in their order again, since those that stay went first one after another.
    let (used, _kept) = ask_last(rows, used, most, keep, |_gone| {});
    used
}

/// Asks `keep` of the last rows, of `most` at most, the last first, takes out those for which it answers false, hands each
/// to `visit`, and answers what the others weigh, which stay in their order.
pub fn retain_last<K, V, S, F, G>(
    rows: &mut Pairs<K, V, S>,
    used: usize,
    most: usize,
    keep: F,
    visit: G,
) -> usize
where
    K: Hash + Drop,
    V: Drop,
    S: BuildHasher,
    F: FnMut(&K, &V, usize) -> bool + Drop,
    G: FnMut(Entry<K, V>) + Drop,
    requires used { used ≡ weight_in rows.old.held.rows }
    requires keep { F.IsAlwaysCallable keep }
    requires visit { G.IsAlwaysCallable visit }
    ensures retains { RetainsLastRows (λ p k v w b q. F.step p k v w b q) keep (λ p x q. G.step p x tt q) visit most rows.old.held rows.new.held }
    ensures used { result ≡ weight_in rows.new.held.rows }
    ensures hashes { rows.new.hashes ≡ rows.old.hashes }
{
    let (used, kept) = ask_last(rows, used, most, keep, visit);
    put_back(rows, kept);
    used
}

// Asks `keep` of the last rows, takes out those for which it answers false, and hands each to `visit`. The others go first
// as they are asked of, so that no place in the order has to be remembered. It answers what all weigh then, and how many
// went first.
fn ask_last<K, V, S, F, G>(
    rows: &mut Pairs<K, V, S>,
    used: usize,
    most: usize,
    mut keep: F,
    mut visit: G,
) -> (usize, usize)
where
    K: Hash + Drop,
    V: Drop,
    S: BuildHasher,
    F: FnMut(&K, &V, usize) -> bool + Drop,
    G: FnMut(Entry<K, V>) + Drop,
    requires used { used ≡ weight_in rows.old.held.rows }
    requires keep { F.IsAlwaysCallable keep }
    requires visit { G.IsAlwaysCallable visit }
    ensures asks { AsksLast (λ p k v w b q. F.step p k v w b q) keep (λ p x q. G.step p x tt q) visit most rows.old.held rows.new.held result.1 }
    ensures used { result.0 ≡ weight_in rows.new.held.rows }
    ensures hashes { rows.new.hashes ≡ rows.old.hashes }
{
    let mut used = used;
    let mut kept = 0;
    let mut left = most.min(rows.len());
    while left > 0 {
        left -= 1;
        let Some(place) = rows.last() else {
            unreachable!()
        };
        let (key, value) = (rows.key_at(place), rows.value_at(place));
        if keep(key, value, rows.weight_at(place)) {
            rows.promote(place);
            kept += 1;
        } else {
            let Some(last) = rows.pop_last() else {
                unreachable!()
            };
            used -= last.weight;
            visit(Entry {
                key: last.key,
                value: last.value,
                weight: last.weight,
            });
        }
    }
    (used, kept)
}

// Puts the first rows last, so many, in their order.
fn put_back<K, V, S>(rows: &mut Pairs<K, V, S>, count: usize)
where
    K: Hash + Drop,
    V: Drop,
    S: BuildHasher,
    requires { count ≤ length rows.old.held.rows }
    ensures puts { PutsBack count rows.old.held rows.new.held }
    ensures hashes { rows.new.hashes ≡ rows.old.hashes }
{
    let mut left = count;
    while left > 0 {
        left -= 1;
        let Some(place) = rows.first() else {
            unreachable!()
        };
        rows.demote(place);
    }
}
