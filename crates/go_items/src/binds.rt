//! What the names of a package stand for, in an environment, as its declarations are typed one after the
//! other.
//!
//! The Go Programming Language Specification (as of Go 1.17), "Declarations and scope". The definitions
//! stand in go_typing (`specs/Known.antt`) and go_sound (`specs/Rows.antt`).

pub mod declare;
pub mod settle;
