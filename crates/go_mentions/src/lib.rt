//! What the code of a body or of an initialiser names, calls and does, and which variables of a
//! function are boxed.
//!
//! The Go Programming Language Specification (as of Go 1.17), "Package initialization", "Calls",
//! "Method values": `specs/Mentions.antt`. Boxes are own: `specs/Boxed.antt`. The code walks over all
//! parts of a text once, in no order that matters.
#![tactic(auto)]

pub mod laws;
pub mod mention;
pub mod types;
pub mod walk;

pub use mention::Mention;
pub use types::type_of;
pub use walk::{in_body, in_initialiser};
