//! Steps of a run: an expression and a statement are begun, and what waits goes on with a value and
//! a completion. ECMA-262 5.1, cut to a subset.

pub mod at_once;
pub mod evaluate;
pub mod execute;
pub mod follow;
pub mod give;
