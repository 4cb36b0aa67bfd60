//! The folder of the operating system.
//!
//! An Ok of a call means that the system's calls that it lists were made in that order, and each was answered Ok. What the
//! system does beneath is trusted. It is written over a trait of those calls, and keeps `lru_folder`.
#![tactic(auto)]

pub mod claim;
pub mod host_folder;
mod host_open;
pub mod host_system;
mod steps;
pub mod system;
