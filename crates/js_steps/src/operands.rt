//! Operations of scripts whose operands are found one after the other. ECMA-262 5.1, cut to a
//! subset.

pub mod cases;
pub mod operands;
pub mod sets;
pub mod turn;
