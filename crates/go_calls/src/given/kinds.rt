//! Arguments, and the values that are passed.

use gj_base::Place;
use go_core::node::CoreExpr;
use go_operands::answers::answer::{Flaw, Flaws, Found, Operand};

/// An operand where it stands.
pub struct Placed {
    pub place: Place,
    pub value: Operand,
}

/// The operands of a call, as far as each argument is one.
pub enum Operands {
    /// The last one first.
    Each(Vec<Placed>),
    /// Some argument is no value.
    Refused(Flaws),
    /// Some argument isn't typed.
    Unknown,
}

/// What a call is given.
pub enum Given {
    /// A value for each argument, the last one first.
    Each(Vec<Placed>),
    /// The several values of one call, whose type is their tuple.
    Several(Place, Found),
    Refused(Flaws),
    /// Some argument isn't typed.
    Unknown,
}

/// The values of arguments so far, and what is wrong so far.
pub struct Passing {
    pub values: Vec<CoreExpr>,
    pub flaws: Vec<Flaw>,
}

/// The values that are passed, or what is wrong with them.
pub enum Values {
    Values(Vec<CoreExpr>),
    Unfit(Flaws),
}
