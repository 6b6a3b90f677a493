//! How a step of the parser ends where frames and trees are let go.
//!
//! Each function takes what a step still holds. The crates above end a step by one of them, so that
//! no other function of the parser lets a tree, a frame or a stack go.

pub mod file;
mod gone;
pub mod list;
pub mod lost;
pub mod lost_part;
pub mod refused;
pub mod stmt;
