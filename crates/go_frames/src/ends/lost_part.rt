//! What is let go where memory runs out while one more part is made.

ghost use Rattle.std.specs.Prelude.{◌≡◌, Err};

use crate::ends::gone::{gone, gone_expr};
use crate::frames::frame::{
    FieldFrame, Frame, InterfacePart, ParamsPart, Role, StructPart, Untagged,
};
use gj_base::NoMemory;
use go_syntax::tree::Expr;

/// The expression that the new one would have held.
pub fn lost_expr(error: NoMemory, expr: Expr) -> Result<Expr, NoMemory>
    ensures value { result ≡ Err error }
{
    gone_expr(expr);
    Err(error)
}

/// What a parameter list is.
pub fn lost_role(error: NoMemory, _role: Role) -> Result<ParamsPart, NoMemory>
    ensures value { result ≡ Err error }
{
    Err(error)
}

/// The fields before, and the new one.
pub fn lost_field(
    error: NoMemory,
    part: StructPart,
    field: Untagged,
) -> Result<StructPart, NoMemory>
    ensures value { result ≡ Err error }
{
    match field {
        Untagged::Named(names, ty) => {
            gone_expr(ty);
            gone(Frame::Field(FieldFrame::Named(part, names)));
        }
        Untagged::Embedded(embedded) => gone(Frame::Field(FieldFrame::Embedded(part, embedded))),
    }
    Err(error)
}

/// The members before.
pub fn lost_members(error: NoMemory, part: InterfacePart) -> Result<InterfacePart, NoMemory>
    ensures value { result ≡ Err error }
{
    gone(Frame::Field(FieldFrame::Members(part)));
    Err(error)
}
