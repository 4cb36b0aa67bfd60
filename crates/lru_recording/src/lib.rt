//! A sharded order that records: each shard's calls are one legal history, and each answer comes with a receipt.
//!
//! It holds the order `RecordedLru`. A history is legal: its calls have the replies of a plain list, and its end has the shard's rows.
//! Each receipt is an entry of its shard's journal, and each entry has its receipt. It stands on one shard (`lru_shard`), and on the
//! table of `atomic_table` by the words of `lru_short_locks`.
#![tactic(auto)]

mod dealing;
pub mod entry;
mod evicting;
pub mod gathered;
pub mod journal;
pub mod recorded;
pub mod recording;
mod replies;
pub mod tie;
