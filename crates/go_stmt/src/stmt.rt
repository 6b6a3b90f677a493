//! The check of a package: the least fault that is told of it, or else the program that it is.
//!
//! The Go Programming Language Specification (as of Go 1.17), "Packages", "Program execution". The
//! definitions stand in go_typing (`specs/Checked.antt`).

pub mod before;
pub mod checking;
pub mod files;
pub mod made;
pub mod verdict;

pub use crate::stmt::checking::check;
pub use crate::stmt::files::root_files;
pub use crate::stmt::made::gone_program;
