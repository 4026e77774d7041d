// Entries for a host in Rust or C: they take numbers and slices. Most answer eight bytes in one number.
#![tactic(auto)]

pub mod logs;
pub mod query;
pub mod read;
pub mod state;
pub mod views;
pub mod write;
