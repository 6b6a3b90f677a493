//! The values of a script while it runs, in 16 bytes each, the operators between them, and its
//! arrays and dictionaries. ECMA-262 5.1, cut to a subset.

pub mod dictionary;
pub mod heap;
pub mod operate;
pub mod value;

pub use crate::heap::heap::Object;
pub use crate::heap::value::Value;
