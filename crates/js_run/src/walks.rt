//! The steps of a script's run that reach outside: what is printed, and the numbers that are
//! taken. ECMA-262 5.1, cut to a subset, with functions of the host.

pub mod laws;
pub mod outside;
pub mod stop;

pub use crate::walks::laws::nothing_taken_back;
pub use crate::walks::outside::{next, picked, written};
pub use crate::walks::stop::Stop;
