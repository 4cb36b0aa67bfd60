//! Numbers, words and lines as the programs read them, and the streams that they read and write.
//!
//! What is read from which bytes is exact, as is what is refused and why. A contract knows of an input or an output whether a
//! call of its has failed, so a program's theorem can say that a call may fail only where its stream's did. It stands on std.
#![tactic(auto)]

pub mod input;
pub mod numbers;
pub mod output;
pub mod parts;
pub mod pieces;
