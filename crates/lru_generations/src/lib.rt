//! Checkpoints of shards in a folder: whole or refused, and saved for good.
//!
//! A checkpoint is a generation of files of its own: a frame for each shard, and a manifest that tells of them. It is whole where the
//! manifest stands, and each frame as it tells. A save writes files of a new generation alone and keeps the newest one that is whole; once
//! it has answered Ok, each loss of power leaves it, and a load answers the newest one that is whole. It stands on frames (`lru_frames`)
//! and on any folder (`lru_folder`).
#![tactic(auto)]

pub mod checking;
pub mod errors;
pub mod file_errors;
pub mod file_reading;
pub mod file_removing;
pub mod file_replacing;
pub mod file_writing;
mod folder_listing;
pub mod generation_checks;
mod generation_removing;
mod generation_saving;
pub mod generations;
pub mod known;
pub mod laws;
pub mod listing;
pub mod loading;
pub mod manifest;
pub mod names;
pub mod newest;
pub mod newest_loading;
mod reading;
pub mod saving;
mod survey;
mod syncing;
