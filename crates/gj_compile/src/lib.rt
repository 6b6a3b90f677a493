//! From the files of a folder to the script of its program.
//!
//! `specs/Answers.antt` says which folders hold a program, and which fault is told. What is proved of a
//! script is proved where the root is plain; `specs/Answers.antt` says where it isn't.
#![tactic(auto)]

pub mod compiling;
pub mod front;
pub mod refused;
pub mod script;
mod translation;
pub mod waiting;
mod whole;

pub use compiling::compile;
pub use front::{Checked, check_folder};
pub use refused::Refused;
pub use script::script_of;
pub use waiting::blocking_names;
