//! A folder that keeps the files of an LRU: its calls, their meaning, its names and what can go wrong.
//!
//! The trait `Folder` says which bytes each path has after a call, and what a stop or a loss of power may leave; after an Ok of `sync_dir`
//! of a `SyncedFolder` no loss brings back an older set of names. All claims about files are made over them. It stands on nothing but std;
//! `lru_memory_folder` and `lru_host_folder` keep it.
#![tactic(auto)]

pub mod errors;
pub mod fault;
pub mod folder;
pub mod folder_call;
pub mod listed;
pub mod names;
pub mod reports;
pub mod synced_folder;
