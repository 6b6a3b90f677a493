//! The words of a command line, and what they ask for.
#![tactic(auto)]

pub mod read;
pub mod settings;

pub use read::read_words;
pub use settings::{Budget, NoSettings, Settings};
