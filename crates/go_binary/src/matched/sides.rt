//! Two operands at one type.

use go_const::Const;
use go_core::node::CoreExpr;
use go_operands::answers::answer::{Flaws, Pending};
use go_operands::nodes::gone::gone_expr;
use go_type::types::{Basis, TypeId};

/// An operand at a type: its core, and which constant it is, if one.
pub struct Side {
    pub core: CoreExpr,
    pub value: Option<Const>,
}

/// Two operands, as far as they are of one type.
pub enum Match {
    /// Both of this type.
    Alike(TypeId, Side, Side),
    /// Untyped constants of one kind.
    Constants(Const, Const),
    /// Untyped booleans, not both constants.
    Truths(CoreExpr, CoreExpr),
    /// Untyped numbers whose type is pending.
    Numbers(Pending, Pending, Basis),
    Unfit(Flaws),
    Differ,
}

/// Lets an operand go.
pub fn gone_side(side: Side) {
    let Side {
        core,
        value: _value,
    } = side;
    gone_expr(core);
}
