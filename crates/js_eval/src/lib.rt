//! A plain program of the meaning of scripts: small, slow, and equal to it by its contract. ECMA-262 5.1, cut to a subset.
#![tactic(auto)]

pub mod calls;
pub mod declared;
pub mod evaluate;
pub mod fault;
pub mod flows;
pub mod names;
pub mod operate;
pub mod start;
pub mod state;
pub mod world;
