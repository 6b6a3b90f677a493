//! What every layer of the compiler shares: byte strings, places and faults, integer kinds and
//! operators, and the traits of the outside with their forms in memory.
//!
//! `specs/Files.antt`, `specs/Sink.antt` and `specs/Choices.antt` say what the outside may do.
#![tactic(auto)]

pub mod choices;
pub mod fault;
mod file_tree;
pub mod files;
pub mod kind;
pub mod lines;
pub mod memory;
pub mod place;
mod plan;
pub mod sink;
pub mod text;
pub mod tree_files;
pub mod vec_sink;

pub use choices::{Choices, ListChoices, SeedChoices};
pub use fault::{Fault, Refusal};
pub use files::{FileError, Files, StoreError};
pub use kind::{Kind, Op};
pub use lines::line_col;
pub use memory::NoMemory;
pub use place::Place;
pub use sink::{Sink, SinkError};
pub use text::Text;
pub use tree_files::TreeFiles;
pub use vec_sink::VecSink;
