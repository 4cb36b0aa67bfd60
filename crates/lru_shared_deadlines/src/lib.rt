//! A cache for many threads whose entries end: each is answered for a time since it was put, and for a time since it was last
//! used, by a clock that is handed in with each call. It stands in shards behind locks (`shared`), or in shards of one owner
//! (`sharded`), whose contracts say exactly what each call answers and leaves: the calls are written once, over both.
#![tactic(auto)]

pub mod ages;
mod calls;
mod one;
pub mod sharded;
pub mod shared;
