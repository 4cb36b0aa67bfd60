//! Tests of the caches for threads (`lru_shared_cache`, `lru_shared_deadlines`, `lru_shared_segmented`): each call, keys that are texts, limits
//! that are divided, values that are made once, entries that end, walks over many keys, and soaks.
//!
//! What is expected is worked out by hand, or is what a plain simulation answers, and never what the program answered.
#![tactic(auto)]

#[cfg(test)]
mod calls;
#[cfg(test)]
mod deadline_counted;
#[cfg(test)]
mod deadline_ends;
#[cfg(test)]
mod deadline_made;
#[cfg(test)]
mod deadline_shown;
#[cfg(test)]
mod deadline_soak;
#[cfg(test)]
mod deadline_whole;
#[cfg(test)]
mod made;
#[cfg(test)]
mod related;
#[cfg(test)]
mod segmented_calls;
#[cfg(test)]
mod segmented_made;
#[cfg(test)]
mod segmented_rows;
#[cfg(test)]
mod segmented_soak;
#[cfg(test)]
mod segmented_walks;
#[cfg(test)]
mod sharded;
#[cfg(test)]
mod soak;
#[cfg(test)]
mod texts;
#[cfg(test)]
mod turns;
