//! A segmented cache for many threads: no walk over keys that are asked for once empties it. It stands in shards behind locks
//! (`shared`), or in shards of one owner (`sharded`), whose contracts say exactly what each call answers and leaves: the calls
//! are written once, over both. What a walk leaves of the upper segments of all shards is a law (`laws`).
#![tactic(auto)]

mod calls;
pub mod laws;
mod one;
pub mod sharded;
pub mod shared;
