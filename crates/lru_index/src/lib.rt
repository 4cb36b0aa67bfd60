//! An index from keys to places, which holds no key: whoever has the rows tells the keys of their places.
//!
//! A look finds exactly the place whose key equals the query, and growth keeps all. Hashes are seeded, so that no keys are
//! known to collide without the seed. It stands on nothing but std.
#![tactic(auto)]

pub mod alike;
pub(crate) mod cells;
pub mod hashing;
pub mod keys;
pub mod place_index;
