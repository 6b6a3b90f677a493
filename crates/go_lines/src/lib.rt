//! Laws of plain packages: nothing is told of one, and its program prints its texts.
//!
//! The definitions stand in gj_plain (`specs/Plain.antt`) and go_typing (`specs/Checked.antt`); here is
//! what holds of both.
#![tactic(auto)]

pub mod laws;
