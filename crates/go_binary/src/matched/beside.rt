//! An untyped operand at the type of the one beside it.
//!
//! Go, "Operators".

ghost use Rattle.std.specs.Prelude.{◌≡◌, ◌<◌, IfOk};
ghost use Rattle.go_type.specs.Levels.{tree_of};
ghost use Rattle.go_type.specs.Table.{places, names, size};
ghost use Rattle.go_core.specs.CoreView.{expr_view};
ghost use Rattle.go_typing.specs.Operand.{passed_at};
ghost use Rattle.go_typing.specs.Binary.{right_taken, left_taken};
ghost use Rattle.go_operands.specs.AnswerView.{operand_view, passed_view};
ghost use Rattle.go_operands.specs.Below.{OperandBelow};
ghost use Rattle.go_operands.specs.RulesReady.{HasPredeclared};
ghost use Rattle.go_binary.specs.MatchView.{match_view, MatchBelow};

use crate::matched::sides::{Match, Side};
use gj_base::{NoMemory, Place};
use go_operands::answers::answer::{Found, Operand, Passed};
use go_operands::answers::gone::gone_found;
use go_operands::answers::passed::passed_at;
use go_type::TypeTable;
use std::alloc::Global;

// The second operand, at the first one's type.
fn right_taken(table: &TypeTable, left: Found, passed: Passed) -> Match
    requires { left.ty.0 < size table.now }
    ensures view { match_view (places table.now) result ≡ right_taken (tree_of (places table.now) left.ty) (expr_view (places table.now) left.core) left.value (passed_view (places table.now) passed) }
    ensures within { MatchBelow (size table.now) result }
{
    match passed {
        Passed::Value(d, w) => {
            let Found { core, ty, value } = left;
            Match::Alike(ty, Side { core, value }, Side { core: d, value: w })
        }
        Passed::Refused(flaws) => {
            gone_found(left);
            Match::Unfit(flaws)
        }
        Passed::Unassignable => {
            gone_found(left);
            Match::Differ
        }
    }
}

// The first operand, at the second one's type.
fn left_taken(table: &TypeTable, passed: Passed, right: Found) -> Match
    requires { right.ty.0 < size table.now }
    ensures view { match_view (places table.now) result ≡ left_taken (passed_view (places table.now) passed) (tree_of (places table.now) right.ty) (expr_view (places table.now) right.core) right.value }
    ensures within { MatchBelow (size table.now) result }
{
    match passed {
        Passed::Value(c, v) => {
            let Found { core, ty, value } = right;
            Match::Alike(ty, Side { core: c, value: v }, Side { core, value })
        }
        Passed::Refused(flaws) => {
            gone_found(right);
            Match::Unfit(flaws)
        }
        Passed::Unassignable => {
            gone_found(right);
            Match::Differ
        }
    }
}

/// The right operand, which stands at `q`, at the type of the left one.
pub fn right_passed(
    alloc: Global,
    table: &TypeTable,
    left: Found,
    q: Place,
    y: Operand,
) -> Result<Match, NoMemory>
    requires table { HasPredeclared table.now }
    requires left { left.ty.0 < size table.now }
    requires right { OperandBelow (size table.now) y }
    ensures view { IfOk result (λ m. match_view (places table.now) m ≡ right_taken (tree_of (places table.now) left.ty) (expr_view (places table.now) left.core) left.value (passed_at (names table.now) q (tree_of (places table.now) left.ty) (operand_view (places table.now) y))) }
    ensures within { IfOk result (λ m. MatchBelow (size table.now) m) }
{
    match passed_at(alloc, table, q, left.ty, y) {
        Ok(passed) => Ok(right_taken(table, left, passed)),
        Err(error) => {
            gone_found(left);
            Err(error)
        }
    }
}

/// The left operand, which stands at `p`, at the type of the right one.
pub fn left_passed(
    alloc: Global,
    table: &TypeTable,
    p: Place,
    x: Operand,
    right: Found,
) -> Result<Match, NoMemory>
    requires table { HasPredeclared table.now }
    requires left { OperandBelow (size table.now) x }
    requires right { right.ty.0 < size table.now }
    ensures view { IfOk result (λ m. match_view (places table.now) m ≡ left_taken (passed_at (names table.now) p (tree_of (places table.now) right.ty) (operand_view (places table.now) x)) (tree_of (places table.now) right.ty) (expr_view (places table.now) right.core) right.value) }
    ensures within { IfOk result (λ m. MatchBelow (size table.now) m) }
{
    match passed_at(alloc, table, p, right.ty, x) {
        Ok(passed) => Ok(left_taken(table, passed, right)),
        Err(error) => {
            gone_found(right);
            Err(error)
        }
    }
}
