//! Operators before operands.
//!
//! Go, "Operators". Own: `*`, `&` and `<-` are not built yet.

ghost use Rattle.std.specs.Prelude.{◌≡◌};
ghost use Rattle.go_expr.specs.Walked.{op_of};

use gj_base::Op;
use go_syntax::tree::Prefix;

/// The operator, where it is built.
pub fn op_of(prefix: Prefix) -> Option<Op>
    ensures value { result ≡ op_of «prefix» }
{
    match prefix {
        Prefix::Plus => Some(Op::Plus),
        Prefix::Neg => Some(Op::Neg),
        Prefix::Not => Some(Op::Not),
        Prefix::Compl => Some(Op::Compl),
        Prefix::Star => None,
        Prefix::Address => None,
        Prefix::Receive => None,
    }
}
