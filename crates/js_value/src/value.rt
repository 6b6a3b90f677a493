//! The values of scripts, the operators between them, and arrays and dictionaries. ECMA-262 5.1, cut to a subset.

pub mod arithmetic;
pub mod entries;
pub mod heap;
pub mod number;
pub mod operate;
pub mod value;
