//! Tests of the orders (`lru_shard`, `lru_cores`, `lru_shared_order`, `lru_recording`): worked rows as lists of calls, two cores side by side,
//! calls with closures, the spread of the draws, two threads and four, and a plain checker of recorded histories.
//!
//! What is expected is worked out by hand, or is what a plain simulation answers, and never what the program answered.
#![tactic(auto)]

#[cfg(test)]
mod admissions;
#[cfg(test)]
mod asked;
#[cfg(test)]
mod batches;
#[cfg(test)]
mod closures;
#[cfg(test)]
mod draws;
#[cfg(test)]
mod fronts;
#[cfg(test)]
mod hashers;
#[cfg(test)]
mod left;
#[cfg(test)]
mod locked_closures;
#[cfg(test)]
mod locked_draws;
#[cfg(test)]
mod locked_rows;
#[cfg(test)]
mod locked_steps;
#[cfg(test)]
mod looks;
#[cfg(test)]
mod recorded_calls;
#[cfg(test)]
mod recorded_draws;
#[cfg(test)]
mod recorded_handed;
#[cfg(test)]
mod recorded_plain;
#[cfg(test)]
mod recorded_refused;
#[cfg(test)]
mod recorded_rows;
#[cfg(test)]
mod recorded_threads;
#[cfg(test)]
mod replays;
#[cfg(test)]
mod rows;
#[cfg(test)]
mod shard_looks;
#[cfg(test)]
mod shard_rows;
#[cfg(test)]
mod shard_steps;
#[cfg(test)]
mod shown;
#[cfg(test)]
mod steps;
#[cfg(test)]
mod tables;
#[cfg(test)]
mod threads;
#[cfg(test)]
mod tier_rows;
#[cfg(test)]
mod tier_steps;
#[cfg(test)]
mod visits;
