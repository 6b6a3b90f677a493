//! Steps on slices, what `make` makes, and lengths, in code.

pub mod append;
pub mod fresh;
pub mod gates;
pub mod lengths;
pub mod makes;
pub mod slicing;
