//! The functions of a script, and the first values of its top-level variables, as code that is
//! run. ECMA-262 5.1, cut to a subset.

pub mod body;
pub mod find;
pub mod make;

pub use crate::bodies::body::Body;
pub use crate::bodies::find::find_body;
pub use crate::bodies::make::{bodies, no_body, value_body};
