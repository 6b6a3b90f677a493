//! Cases: calls of the program, the files that they are made on, and what is to come of them.
//!
//! A case is a folder, or a part of a file that holds several (the README has the forms).
#![tactic(auto)]

pub mod case;
pub mod differs;
pub mod folder;
pub mod rows;
pub mod tree;
