//! A cache whose entries have a deadline, by a clock that is handed in.
//!
//! What is past its deadline is answered as if it were not there, and is handed over when it goes. The calls are exact. It is
//! a `Cache` (`lru_owned_cache`) whose values have their deadline beside them.
#![tactic(auto)]

pub mod deadlines;
pub mod putting;
pub mod taking;
