//! Scripts under construction: expressions and statements as `Copy` nodes of tables that only grow.
//! ECMA-262 5.1, clauses 11 to 14, cut to the subset.
//!
//! A node names its parts by their numbers, so nothing that is made is owned, cloned or dropped. A
//! builder remembers that memory ran out, gives node 0 from then on, and says so once, when trees are
//! made of the tables.
#![tactic(auto)]

pub mod expr;
mod made;
pub mod name;
pub mod node;
pub mod pool;
pub mod stmt;
pub mod tree;

pub use name::Name;
pub use node::{Block, Bytes, Case, Cases, Else, ExprId, Item, Names, Node, Span, Stmt};
pub use pool::{Mark, Pool};
pub use tree::Unmade;
