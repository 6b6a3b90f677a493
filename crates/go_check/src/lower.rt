//! From the checker's tables to the core program.
//!
//! Here alone trees are made: nodes go onto stacks of expressions, places and statements, and a node
//! takes its parts from there. What is left to do stands on a stack too, so nothing here recurs.

pub mod callee;
pub mod exprs;
pub mod forms;
pub mod functions;
pub mod leaves;
pub mod making;
pub mod numbers;
pub mod places;
pub mod stmts;
pub mod visit;
pub mod visit_stmt;
pub mod whole;
