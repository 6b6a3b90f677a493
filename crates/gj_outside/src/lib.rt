//! The real outside: files on a disk, and the standard streams.
#![tactic(auto)]

pub mod disk;
pub mod stream;
