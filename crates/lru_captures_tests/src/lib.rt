//! Tests of copies of caches and orders, and of their saves and loads by one call: rows come back as they stood, and a save that is
//! held holds up no call.
//!
//! What is expected is worked out by hand, or is what a plain simulation answers, and never what the program answered.
#![tactic(auto)]

#[cfg(test)]
mod held_tests;
#[cfg(test)]
mod one_call_tests;
#[cfg(test)]
mod round_trip_tests;
