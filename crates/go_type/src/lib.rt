//! Types of Go by id in a table, and the specification's relations on them.
//!
//! Go specification (as of Go 1.17), "Types", "Properties of types and values", "Method sets",
//! "Selectors". An id stands for a tree (`specs/Tree.antt`, `specs/Levels.antt`) whose leaves include
//! named types, and each relation is defined on trees. An id is a place in the table's list, and the
//! table has one id for each tree.
#![tactic(auto)]

mod assign;
pub mod exported;
mod hits;
mod implements;
pub mod laws;
pub mod lists;
mod memo;
mod method_set;
mod parts;
mod paths;
mod place;
pub mod predeclared;
mod reach;
mod same;
mod search;
mod select;
mod shallow;
mod sizes;
pub mod steps;
pub mod table;
mod tries;
pub mod types;
mod walk;

pub use exported::is_exported;
pub use lists::{Declared, Fields, Ids, Methods};
pub use predeclared::{BOOL, ERROR, NIL, STR, int_id, untyped_id};
pub use steps::{Path, Selected, Step};
pub use table::TypeTable;
pub use types::{
    Basis, Dir, FieldRow, GoType, IntName, Method, MethodSpec, NamedId, NamedType, Sig, TypeId,
};
