//! Parts of statements without blocks: expressions that are used and typed, branches, what isn't built
//! yet, and the tag of a `switch`.
//!
//! The Go Programming Language Specification (as of Go 1.17), "Break statements", "Continue
//! statements", "Expression switches". The definitions stand in go_typing
//! (`specs/Statements.antt`).

pub mod branch;
pub mod tag;
pub mod used;
