//! What the files of a package declare, in the order of the files and of their texts.
//!
//! The Go Programming Language Specification (as of Go 1.17), "Declarations and scope", "Constant
//! declarations", "Iota", "Type declarations", "Function types". The definitions stand in go_typing
//! (`specs/Items.antt`, `specs/Signature.antt`, `specs/Checked.antt`).

pub mod constant;
pub mod count;
pub mod item;
pub mod items;
pub mod param;

pub use crate::items::item::Item;
pub use crate::items::items::items_of;
