//! Relations of keys and values, which a shared cache keeps.
//!
//! What lies behind a lock is known by its type alone. So a type says in which relation each value stands to its key: who puts
//! a value owes that relation, and whoever is answered one has it.

/// In which relation each value of a cache stands to its key. It is a statement alone: nothing of it is there as a program runs.
pub trait Relation<K, V> {
    // whether a key and a value stand in it
    ghost holds: { K → V → Type 0 };
}

/// Each value stands in this relation to each key: it asks nothing of anybody.
#[derive(Drop)]
pub struct Anything;

impl<K, V> Relation<K, V> for Anything {
    ghost holds = { λ key value. Unit {0} };
}
