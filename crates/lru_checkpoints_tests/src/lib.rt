//! Tests of checkpoints (`lru_frames`, `lru_generations`), of the folder of the system under them (`lru_host_folder`), and of the program
//! for operators (`checkpoint_tool_inside`).
//!
//! What is expected is worked out by hand, or is what a plain simulation answers, and never what the program answered.
#![tactic(auto)]

#[cfg(test)]
mod checkpoint_calls;
#[cfg(test)]
mod claims;
#[cfg(test)]
mod crash_tests;
#[cfg(test)]
mod crc_tests;
#[cfg(test)]
mod damage_tests;
#[cfg(test)]
mod error_tests;
#[cfg(test)]
mod failing_calls;
#[cfg(test)]
mod failure_tests;
#[cfg(test)]
mod fixture;
#[cfg(test)]
mod forged_tests;
#[cfg(test)]
mod frame_damage_tests;
#[cfg(test)]
mod frame_tests;
#[cfg(test)]
mod known_tests;
#[cfg(test)]
mod memory_tests;
#[cfg(test)]
mod rotation_tests;
#[cfg(test)]
mod round_trip_tests;
#[cfg(test)]
mod script;
#[cfg(test)]
mod stored_tests;
#[cfg(test)]
mod told_calls;
#[cfg(test)]
mod tool_damage_tests;
#[cfg(test)]
mod tool_fixture;
#[cfg(test)]
mod tool_stream_tests;
#[cfg(test)]
mod tool_text_tests;
