//! The names that occur in expressions and statements, each of which counts as used there.

pub mod names;
