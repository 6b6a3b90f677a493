//! Two operands that both have a type.
//!
//! Go, "Comparison operators", "Operators".

ghost use Rattle.std.specs.Prelude.{◌≡◌, ◌<◌, IfOk};
ghost use Rattle.go_type.specs.Levels.{tree_of};
ghost use Rattle.go_type.specs.Table.{places, names, size};
ghost use Rattle.go_core.specs.CoreView.{expr_view};
ghost use Rattle.go_typing.specs.Operand.{as_type};
ghost use Rattle.go_typing.specs.Binary.{alike, two_typed};
ghost use Rattle.go_binary.specs.MatchView.{match_view, MatchBelow};

use crate::matched::sides::{Match, Side};
use gj_base::NoMemory;
use go_operands::answers::answer::Found;
use go_operands::answers::gone::gone_found;
use go_operands::answers::passed::as_type;
use go_operands::nodes::gone::gone_expr;
use go_operands::rules::kind::{goes_to, same_type};
use go_type::TypeTable;
use std::alloc::Global;

// The left operand at the type of the right one.
fn left_moved(
    alloc: Global,
    table: &TypeTable,
    left: Found,
    right: Found,
) -> Result<Match, NoMemory>
    requires left { left.ty.0 < size table.now }
    requires right { right.ty.0 < size table.now }
    ensures view { IfOk result (λ m. match_view (places table.now) m ≡ alike (tree_of (places table.now) right.ty) (as_type (expr_view (places table.now) left.core) (tree_of (places table.now) left.ty) (tree_of (places table.now) right.ty)) left.value (expr_view (places table.now) right.core) right.value) }
    ensures within { IfOk result (λ m. MatchBelow (size table.now) m) }
{
    let Found {
        core: c,
        ty: t,
        value: v,
    } = left;
    let Found {
        core: d,
        ty: u,
        value: w,
    } = right;
    match as_type(alloc, table, c, t, u) {
        Ok(core) => Ok(Match::Alike(u, Side { core, value: v }, Side { core: d, value: w })),
        Err(error) => {
            gone_expr(d);
            Err(error)
        }
    }
}

// The right operand at the type of the left one.
fn right_moved(
    alloc: Global,
    table: &TypeTable,
    left: Found,
    right: Found,
) -> Result<Match, NoMemory>
    requires left { left.ty.0 < size table.now }
    requires right { right.ty.0 < size table.now }
    ensures view { IfOk result (λ m. match_view (places table.now) m ≡ alike (tree_of (places table.now) left.ty) (expr_view (places table.now) left.core) left.value (as_type (expr_view (places table.now) right.core) (tree_of (places table.now) right.ty) (tree_of (places table.now) left.ty)) right.value) }
    ensures within { IfOk result (λ m. MatchBelow (size table.now) m) }
{
    let Found {
        core: c,
        ty: t,
        value: v,
    } = left;
    let Found {
        core: d,
        ty: u,
        value: w,
    } = right;
    match as_type(alloc, table, d, u, t) {
        Ok(core) => Ok(Match::Alike(t, Side { core: c, value: v }, Side { core, value: w })),
        Err(error) => {
            gone_expr(c);
            Err(error)
        }
    }
}

fn both_of(table: &TypeTable, left: Found, right: Found) -> Match
    requires { left.ty.0 < size table.now }
    ensures view { match_view (places table.now) result ≡ alike (tree_of (places table.now) left.ty) (expr_view (places table.now) left.core) left.value (expr_view (places table.now) right.core) right.value }
    ensures within { MatchBelow (size table.now) result }
{
    let Found {
        core: c,
        ty: t,
        value: v,
    } = left;
    let Found {
        core: d,
        ty: _ty,
        value: w,
    } = right;
    Match::Alike(t, Side { core: c, value: v }, Side { core: d, value: w })
}

/// Both operands, as far as they are of one type. In a comparison one may go to the type of the other.
pub fn two_typed(
    alloc: Global,
    table: &TypeTable,
    compares: bool,
    left: Found,
    right: Found,
) -> Result<Match, NoMemory>
    requires left { left.ty.0 < size table.now }
    requires right { right.ty.0 < size table.now }
    ensures view { IfOk result (λ m. match_view (places table.now) m ≡ two_typed (names table.now) compares (expr_view (places table.now) left.core) (tree_of (places table.now) left.ty) left.value (expr_view (places table.now) right.core) (tree_of (places table.now) right.ty) right.value) }
    ensures within { IfOk result (λ m. MatchBelow (size table.now) m) }
{
    if same_type(table, left.ty, right.ty) {
        return Ok(both_of(table, left, right));
    }
    let goes = goes_to(table, left.ty, right.ty);
    if compares && goes {
        return left_moved(alloc, table, left, right);
    }
    let comes = goes_to(table, right.ty, left.ty);
    if compares && comes {
        return right_moved(alloc, table, left, right);
    }
    gone_found(left);
    gone_found(right);
    Ok(Match::Differ)
}
