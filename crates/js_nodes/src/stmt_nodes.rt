//! The nodes of a script's statements and of what stands at its top, each at its offset.

pub mod node_item;
pub mod node_stmt;
