//! Tests of the folders (which are synced, how files are listed), of shards saved to files and loaded, of the texts of errors, of the
//! snapshots of cores, and of the program over them (`lru_tool_inside`).
//!
//! What is expected is worked out by hand, or is what a plain simulation answers, and never what the program answered.
#![tactic(auto)]

#[cfg(test)]
mod cleanup_tests;
#[cfg(test)]
mod counted;
#[cfg(test)]
mod draw_tests;
#[cfg(test)]
mod fault_tests;
#[cfg(test)]
mod file_tests;
#[cfg(test)]
mod folder_memory_tests;
#[cfg(test)]
mod folder_tests;
#[cfg(test)]
mod host_folder_tests;
#[cfg(test)]
mod lists;
#[cfg(test)]
mod load_fault_tests;
#[cfg(test)]
mod loading_memory_tests;
#[cfg(test)]
mod loading_tests;
#[cfg(test)]
mod piece_tests;
#[cfg(test)]
mod plan_tests;
#[cfg(test)]
mod run_tests;
#[cfg(test)]
mod save_fault_tests;
#[cfg(test)]
mod saving_memory_tests;
#[cfg(test)]
mod saving_tests;
#[cfg(test)]
mod size_tests;
#[cfg(test)]
mod snapshot_memory_tests;
#[cfg(test)]
mod snapshot_tests;
#[cfg(test)]
mod syncs;
#[cfg(test)]
mod text_tests;
#[cfg(test)]
mod unlisted;
