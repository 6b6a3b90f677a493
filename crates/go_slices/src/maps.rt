//! Steps on maps, in code.

pub mod maps;
