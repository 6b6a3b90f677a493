//! Both operands at one type.
//!
//! Go, "Operators", "Comparison operators".

ghost use Rattle.std.specs.Prelude.{◌≡◌, ◌<◌, IfOk};
ghost use Rattle.go_type.specs.Levels.{tree_of};
ghost use Rattle.go_type.specs.Table.{places, names, size};
ghost use Rattle.go_core.specs.CoreView.{expr_view};
ghost use Rattle.go_typing.specs.Binary.{typed_beside, untyped_beside, matched};
ghost use Rattle.go_operands.specs.AnswerView.{operand_view};
ghost use Rattle.go_operands.specs.RulesReady.{HasPredeclared};
ghost use Rattle.go_operands.specs.Below.{OperandBelow};
ghost use Rattle.go_binary.specs.MatchView.{match_view, MatchBelow};

use crate::matched::beside::right_passed;
use crate::matched::sides::Match;
use crate::matched::typed::two_typed;
use crate::matched::untyped::{constant, nil, number, truth};
use gj_base::{NoMemory, Place};
use go_operands::answers::answer::{Found, Operand};
use go_type::TypeTable;
use std::alloc::Global;

// A value with its type, and what stands beside it.
fn typed_beside(
    alloc: Global,
    table: &TypeTable,
    compares: bool,
    left: Found,
    q: Place,
    y: Box<Operand>,
) -> Result<Match, NoMemory>
    requires table { HasPredeclared table.now }
    requires left { left.ty.0 < size table.now }
    requires right { OperandBelow (size table.now) y.value }
    ensures view { IfOk result (λ m. match_view (places table.now) m ≡ typed_beside (names table.now) compares (expr_view (places table.now) left.core) (tree_of (places table.now) left.ty) left.value q (operand_view (places table.now) y.value)) }
    ensures within { IfOk result (λ m. MatchBelow (size table.now) m) }
{
    match Box::into_inner(y) {
        Operand::Typed(right) => two_typed(alloc, table, compares, left, right),
        Operand::Constant(k) => right_passed(alloc, table, left, q, Operand::Constant(k)),
        Operand::Truth(d) => right_passed(alloc, table, left, q, Operand::Truth(d)),
        Operand::Pending(n, b) => right_passed(alloc, table, left, q, Operand::Pending(n, b)),
        Operand::Nil => right_passed(alloc, table, left, q, Operand::Nil),
    }
}

/// Both operands at one type, as far as they are of one; `p` and `q` are their places. The second one
/// lies in a box, so that only one of both is taken apart at a time.
pub fn matched(
    alloc: Global,
    table: &TypeTable,
    compares: bool,
    p: Place,
    x: Operand,
    q: Place,
    y: Box<Operand>,
) -> Result<Match, NoMemory>
    requires table { HasPredeclared table.now }
    requires left { OperandBelow (size table.now) x }
    requires right { OperandBelow (size table.now) y.value }
    ensures view { IfOk result (λ m. match_view (places table.now) m ≡ matched (names table.now) compares p (operand_view (places table.now) x) q (operand_view (places table.now) y.value)) }
    ensures within { IfOk result (λ m. MatchBelow (size table.now) m) }
{
    match x {
        Operand::Typed(left) => typed_beside(alloc, table, compares, left, q, y),
        Operand::Constant(k) => constant(alloc, table, p, k, q, y),
        Operand::Truth(c) => truth(alloc, table, p, c, q, y),
        Operand::Pending(n, basis) => number(alloc, table, p, n, basis, q, y),
        Operand::Nil => nil(alloc, table, p, q, y),
    }
}
