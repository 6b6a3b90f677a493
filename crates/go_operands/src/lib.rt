//! Operands: rules on types and constants, the scopes in which names stand, nodes of the core, and
//! what the typing of a node answers.
//!
//! The Go Programming Language Specification (as of Go 1.17), "Operands", "Declarations and scope",
//! "Constants", "Types".
#![tactic(auto)]

pub mod answers;
pub mod nodes;
pub mod operands;
pub mod rules;
pub mod scopes;
