//! Operators and constants.
//!
//! Go, "Arithmetic operators", "Comparison operators", "Constants".

ghost use Rattle.std.specs.Prelude.{◌≡◌, true};
ghost use Rattle.go_type.specs.Levels.{tree_of};
ghost use Rattle.go_type.specs.Table.{places, names};
ghost use Rattle.go_type.specs.Underlying.{underlying};
ghost use Rattle.go_core.specs.CoreView.{constant_of};
ghost use Rattle.go_core.specs.Arithmetic.{wrapped};
ghost use Rattle.go_core.specs.Layout.{kind_of};
ghost use Rattle.go_core.specs.SoundNode.{Fits, IsUnary, IsArithmetic, IsShift, IsOrder};

use crate::levels::under;
use gj_base::{Kind, Op};
use go_const::Const;
use go_core::node::Constant;
use go_type::TypeTable;
use go_type::types::{GoType, IntName, TypeId};

/// Whether it stands before one integer.
pub fn is_unary(op: Op) -> bool
    ensures is { result ≡ true → IsUnary op }
{
    match op {
        Op::Plus => true,
        Op::Neg => true,
        Op::Compl => true,
        _ => false,
    }
}

/// Whether it stands between two integers of one type.
pub fn is_arithmetic(op: Op) -> bool
    ensures is { result ≡ true → IsArithmetic op }
{
    match op {
        Op::Add => true,
        Op::Sub => true,
        Op::Mul => true,
        Op::Div => true,
        Op::Rem => true,
        Op::And => true,
        Op::Or => true,
        Op::Xor => true,
        Op::AndNot => true,
        _ => false,
    }
}

/// Whether it shifts.
pub fn is_shift(op: Op) -> bool
    ensures is { result ≡ true → IsShift op }
{
    match op {
        Op::Shl => true,
        Op::Shr => true,
        _ => false,
    }
}

/// Whether it tells which of two comes first.
pub fn is_order(op: Op) -> bool
    ensures is { result ≡ true → IsOrder op }
{
    match op {
        Op::Lt => true,
        Op::Le => true,
        Op::Gt => true,
        Op::Ge => true,
        _ => false,
    }
}

// `int`, `uint` and `uintptr` have 32 bits (own).
fn kind_of(name: IntName) -> Kind
    ensures is { result ≡ kind_of name }
{
    match name {
        IntName::Int8 => Kind::I8,
        IntName::Int16 => Kind::I16,
        IntName::Int | IntName::Int32 => Kind::I32,
        IntName::Int64 => Kind::I64,
        IntName::Uint8 => Kind::U8,
        IntName::Uint16 => Kind::U16,
        IntName::Uint | IntName::Uint32 | IntName::Uintptr => Kind::U32,
        IntName::Uint64 => Kind::U64,
    }
}

// Whether the number is one of the integer type.
fn int_fits(name: IntName, n: i128) -> bool
    ensures is { result ≡ true → wrapped (kind_of name) n ≡ n }
{
    go_const::fits(&Const::Int(n), kind_of(name))
}

/// Whether the constant is a value of the type.
pub fn fits(table: &TypeTable, t: TypeId, value: &Constant) -> bool
    ensures is { result ≡ true → Fits (underlying (names table.now) (tree_of (places table.now) t)) (constant_of value.now) }
{
    match value {
        Constant::Bool(_) => match under(table, t) {
            Some(GoType::Bool) => true,
            _ => false,
        },
        Constant::Int(n) => match under(table, t) {
            Some(GoType::Int(name)) => int_fits(*name, *n),
            _ => false,
        },
        Constant::Text(_) => match under(table, t) {
            Some(GoType::Str) => true,
            _ => false,
        },
    }
}
