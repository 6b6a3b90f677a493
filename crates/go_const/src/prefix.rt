//! Unary operators.

ghost use Rattle.std.specs.Prelude.{◌≡◌, IsTrue, SomeIff, IfOk, IfErr};
ghost use Rattle.std.specs.Int.{w128};
ghost use Rattle.std.specs.Int.RustNames.{FitsSigned};
ghost use Rattle.go_const.specs.Representability.{IsHeld};
ghost use Rattle.go_const.specs.Operation.{all_ones, is_sign, HasUnary, IsUnary, UnaryFault};
ghost use Rattle.go_const.specs.Answer.{sign_of, settled_of, unary_answer};

use crate::arithmetic::xor;
use crate::constant::{Const, ConstRefusal};
use crate::range::{greatest, settled};
use gj_base::{Kind, Op};

// What the complement is taken against.
//
// Go, "Constant expressions": "The mask used by the unary bitwise complement operator ^ matches the
// rule for non-constants: the mask is all 1s for unsigned constants and -1 for signed and untyped
// constants."
fn all_ones(kind: Option<Kind>) -> i128
    ensures { result ≡ all_ones kind }
{
    match kind {
        Some(kind) => match kind {
            Kind::U8 | Kind::U16 | Kind::U32 | Kind::U64 => greatest(kind),
            Kind::I8 | Kind::I16 | Kind::I32 | Kind::I64 => -1,
        },
        None => -1,
    }
}

// The exact value of `op x`, or none where it has more than 128 bits.
fn exact(op: Op, x: i128, kind: Option<Kind>) -> Option<i128>
    requires { IsTrue (is_sign op) }
    ensures { SomeIff result (FitsSigned w128 (sign_of op kind x)) (sign_of op kind x) }
{
    match op {
        Op::Plus => Some(x),
        Op::Neg => x.checked_neg(),
        Op::Compl => Some(xor(all_ones(kind), x)),
        _ => unreachable!(),
    }
}

// The sign operators on a whole number.
#[tactic(auto, using(crate::proofs::RangeLemmas::settled_exact))]
fn sign(op: Op, x: i128, rune: bool, kind: Option<Kind>) -> Result<Const, ConstRefusal>
    requires { IsTrue (is_sign op) }
    ensures { result ≡ settled_of kind rune (sign_of op kind x) }
{
    settled(kind, rune, exact(op, x, kind))
}

fn unary_form(op: Op, x: &Const, kind: Option<Kind>) -> Result<Const, ConstRefusal>
    requires { HasUnary op x.now }
    ensures { result ≡ unary_answer op kind x.now }
{
    match x {
        Const::Bool(b) => Ok(Const::Bool(!*b)),
        Const::Int(z) => sign(op, *z, false, kind),
        Const::Rune(z) => sign(op, *z, true, kind),
        Const::Text(_) => unreachable!(),
    }
}

/// `op x` for a constant of the kind, or an untyped one where there is none: the exact value, or
/// code 31 or 32 where its range doesn't hold it. Takes no memory.
///
/// Go, "Arithmetic operators", "Logical operators", "Constant expressions".
pub fn unary(op: Op, x: &Const, kind: Option<Kind>) -> Result<Const, ConstRefusal>
    requires { HasUnary op x.now }
    ensures value { IfOk result (λ c. IsUnary op kind x.now c × IsHeld kind c) }
    ensures fault { IfErr result (UnaryFault op kind x.now) }

    // The same by computing.
    ensures answer { result ≡ unary_answer op kind x.now }
{
    unary_form(op, x, kind)
}
