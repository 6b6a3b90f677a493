//! Functions that scripts have at hand, as texts of the script language, and which of them a script
//! needs.
#![tactic(auto)]

pub mod gates;
pub mod halves;
pub mod maps;
pub mod memory;
pub mod needs;
pub mod talk;
pub mod text;
pub mod unwinding;
pub mod word;

pub use needs::Needs;
