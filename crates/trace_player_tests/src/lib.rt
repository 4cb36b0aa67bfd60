//! Tests of `trace_player_inside`: lines, shares and a worked trace, each policy beside a plain simulation of it, the optimum beside every choice
//! there is, samples, and what the program's words ask for.
//!
//! What is expected is worked out by hand, or is what a plain simulation answers, and never what the program answered.
#![tactic(auto)]

#[cfg(test)]
mod plain;
#[cfg(test)]
mod policies_tests;
#[cfg(test)]
mod trace_rows;
#[cfg(test)]
mod words_tests;
