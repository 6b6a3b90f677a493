//! Plain packages, the one kind of program that is built so far.
#![tactic(auto)]

pub mod plain;
