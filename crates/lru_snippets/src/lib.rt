//! The snippets of `docs/CALLING.md`, each a function that is proved.
//!
//! The gate compares each snippet of the page with these sources, so that what the page shows is proved. Nothing stands on
//! it.
#![tactic(auto)]

pub mod caches;
pub mod cores;
pub mod deadlines;
