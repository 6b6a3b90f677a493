//! What the program does: the top call with its contract, its commands, its outcomes and what a user is
//! told.
#![tactic(auto)]

pub mod blocking;
pub mod build;
pub mod exec;
pub mod generated;
pub mod outcome;
pub mod refusal;
pub mod report;
pub mod run;
pub mod small;
pub mod top;
pub mod words;
