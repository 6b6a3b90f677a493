//! Lists of statements, left sides and values of the core tree, which grow or are let go.
//!
//! Whatever lets a tree go has to show how each of its forms dies: so it stands apart from what makes
//! statements, and the crates above hand on what they don't use.

pub mod gone;
pub mod more;
