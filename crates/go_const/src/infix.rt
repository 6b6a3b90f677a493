//! Binary operators, shifts aside.

ghost use Rattle.std.specs.Prelude.{◌≡◌, IsTrue, Ok, IfOk, IfErr, ◌++◌, true, false};
ghost use Rattle.go_const.specs.declared.constant.Const.TheVariants as form;
ghost use Rattle.go_const.specs.Representability.{IsHeld};
ghost use Rattle.go_const.specs.Operation.{number_has, text_has, HasTruth, HasNumber, HasText, HasBinary, IsBinary, BinaryFault, IsAdd, TakesText, TakesMemory};
ghost use Rattle.go_const.specs.Answer.{number_answer, text_answer, with_truth, with_number, with_text, binary_answer, OrNoMemory};

use crate::arithmetic::arithmetic;
use crate::comparison::{compare_numbers, compare_texts, compare_truth, is_comparison};
use crate::constant::{Const, ConstRefusal};
use gj_base::{Kind, Op, Text};
use std::alloc::Global;

// Two whole numbers.
fn numbers(op: Op, x: i128, y: i128, rune: bool, kind: Option<Kind>) -> Result<Const, ConstRefusal>
    requires { IsTrue (number_has op) }
    ensures { result ≡ number_answer op kind rune x y }
{
    if is_comparison(op) {
        return Ok(Const::Bool(compare_numbers(op, x, y)));
    }
    arithmetic(op, x, y, rune, kind)
}

// The one text and then the other.
fn concatenation(alloc: Global, x: &Text, y: &Text) -> Result<Const, ConstRefusal>
    ensures { OrNoMemory (Unit {0}) result (Ok (form.Text (x.now ++ y.now))) }
{
    let mut all = Text::from_slice(alloc, x.as_bytes())?;
    all.push_bytes(y.as_bytes())?;
    Ok(Const::Text(all))
}

// Two texts.
fn texts(alloc: Global, op: Op, x: &Text, y: &Text) -> Result<Const, ConstRefusal>
    requires { IsTrue (text_has op) }
    ensures { OrNoMemory (IsAdd op) result (text_answer op x.now y.now) }
{
    match op {
        Op::Add => concatenation(alloc, x, y),
        Op::Eq | Op::Ne | Op::Lt | Op::Le | Op::Gt | Op::Ge => {
            Ok(Const::Bool(compare_texts(op, x, y)))
        }
        _ => unreachable!(),
    }
}

fn number_and(
    op: Op,
    x: i128,
    y: &Const,
    rune: bool,
    kind: Option<Kind>,
) -> Result<Const, ConstRefusal>
    requires { HasNumber op y.now }
    ensures { result ≡ with_number op kind rune x y.now }
{
    match y {
        Const::Int(y) => numbers(op, x, *y, rune, kind),
        Const::Rune(y) => numbers(op, x, *y, true, kind),
        _ => unreachable!(),
    }
}

fn truth_and(op: Op, x: bool, y: &Const) -> Result<Const, ConstRefusal>
    requires { HasTruth op y.now }
    ensures { result ≡ with_truth op x y.now }
{
    match y {
        Const::Bool(y) => Ok(Const::Bool(compare_truth(op, x, *y))),
        _ => unreachable!(),
    }
}

fn text_and(alloc: Global, op: Op, x: &Text, y: &Const) -> Result<Const, ConstRefusal>
    requires { HasText op y.now }
    ensures { OrNoMemory (TakesText op y.now) result (with_text op x.now y.now) }
{
    match y {
        Const::Text(y) => texts(alloc, op, x, y),
        _ => unreachable!(),
    }
}

fn binary_forms(
    alloc: Global,
    op: Op,
    x: &Const,
    y: &Const,
    kind: Option<Kind>,
) -> Result<Const, ConstRefusal>
    requires { HasBinary op x.now y.now }
    ensures { OrNoMemory (TakesMemory op x.now y.now) result (binary_answer op kind x.now y.now) }
{
    match x {
        Const::Bool(x) => truth_and(op, *x, y),
        Const::Int(x) => number_and(op, *x, y, false, kind),
        Const::Rune(x) => number_and(op, *x, y, true, kind),
        Const::Text(x) => text_and(alloc, op, x, y),
    }
}

/// `x op y` for constants of the kind, or untyped ones where there is none: the exact value, code 30
/// for a zero divisor, or code 31 or 32 where the range doesn't hold the value. Only a concatenation
/// takes memory.
///
/// Go, "Arithmetic operators", "Comparison operators", "Logical operators", "String concatenation",
/// "Constant expressions".
pub fn binary(
    alloc: Global,
    op: Op,
    x: &Const,
    y: &Const,
    kind: Option<Kind>,
) -> Result<Const, ConstRefusal>
    requires { HasBinary op x.now y.now }
    ensures value { IfOk result (λ c. IsBinary op kind x.now y.now c × IsHeld kind c) }
    ensures fault { IfErr result (BinaryFault op kind x.now y.now) }

    // The same by computing.
    ensures answer { OrNoMemory (TakesMemory op x.now y.now) result (binary_answer op kind x.now y.now) }
{
    binary_forms(alloc, op, x, y, kind)
}
