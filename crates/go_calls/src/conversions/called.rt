//! Calls of what is no function's name: of a type, which is a conversion, or of a value.
//!
//! Go, "Calls", "Conversions". Own: calls of function values are not built yet.

ghost use Rattle.std.specs.Prelude.{◌≡◌, ◌<◌, IfOk};
ghost use Rattle.go_type.specs.Levels.{tree_of};
ghost use Rattle.go_type.specs.Underlying.{underlying};
ghost use Rattle.go_type.specs.Table.{places, names, size};
ghost use Rattle.go_typing.specs.Answer.{all_known, bad, unless, where_known};
ghost use Rattle.go_typing.specs.Operand.{default_type, pending_flaws};
ghost use Rattle.go_typing.specs.Call.{called_value, called_row};
ghost use Rattle.go_operands.specs.AnswerView.{answer_view, pending_view};
ghost use Rattle.go_operands.specs.Below.{AnswerBelow};
ghost use Rattle.go_operands.specs.RulesReady.{HasPredeclared};
ghost use Rattle.go_operands.specs.Parts.{part_view, PartBelow};
ghost use Rattle.go_calls.specs.CallView.{parts_view, PartsBelow};

use crate::conversions::conversion::conversion;
use crate::given::given::were_known;
use crate::given::gone::gone_parts;
use gj_base::{NoMemory, Place};
use go_operands::answers::answer::{Answer, Found, Pending};
use go_operands::answers::gone::{gone_answer, gone_found};
use go_operands::answers::rule::bad;
use go_operands::nodes::gone::gone_expr;
use go_operands::operands::operand::pending_bad;
use go_operands::operands::part::Part;
use go_operands::rules::kind::under;
use go_type::TypeTable;
use go_type::types::{Basis, GoType, TypeId};
use std::alloc::Global;

fn called_type(
    alloc: Global,
    table: &TypeTable,
    at: Place,
    p: Place,
    t: TypeId,
) -> Result<Answer, NoMemory>
    requires t { t.0 < size table.now }
    ensures view { IfOk result (λ a. answer_view (places table.now) a ≡ called_value (names table.now) at p (underlying (names table.now) (tree_of (places table.now) t))) }
    ensures within { IfOk result (λ a. AnswerBelow (size table.now) a) }
{
    match under(table, t) {
        GoType::Func(_) => bad(alloc, at, 0),
        GoType::Tuple(_) => bad(alloc, p, 52),
        _ => bad(alloc, p, 59),
    }
}

fn called_found(
    alloc: Global,
    table: &TypeTable,
    at: Place,
    p: Place,
    found: Found,
    parts: Vec<Part>,
) -> Result<Answer, NoMemory>
    requires within { found.ty.0 < size table.now }
    ensures view { IfOk result (λ a. answer_view (places table.now) a ≡ where_known (all_known (parts_view (places table.now) parts.items)) (called_value (names table.now) at p (underlying (names table.now) (tree_of (places table.now) found.ty)))) }
    ensures within { IfOk result (λ a. AnswerBelow (size table.now) a) }
{
    let t = found.ty;
    gone_found(found);
    if were_known(table, parts) {
        return called_type(alloc, table, at, p, t);
    }
    Ok(Answer::Unknown)
}

// What can't be called, with a code.
fn uncallable(
    alloc: Global,
    table: &TypeTable,
    p: Place,
    code: u16,
    parts: Vec<Part>,
) -> Result<Answer, NoMemory>
    ensures view { IfOk result (λ a. answer_view (places table.now) a ≡ where_known (all_known (parts_view (places table.now) parts.items)) (bad p code)) }
    ensures within { IfOk result (λ a. AnswerBelow (size table.now) a) }
{
    if were_known(table, parts) {
        return bad(alloc, p, code);
    }
    Ok(Answer::Unknown)
}

fn called_number(
    alloc: Global,
    table: &TypeTable,
    p: Place,
    n: Pending,
    basis: Basis,
    parts: Vec<Part>,
) -> Result<Answer, NoMemory>
    requires table { HasPredeclared table.now }
    ensures view { IfOk result (λ a. answer_view (places table.now) a ≡ where_known (all_known (parts_view (places table.now) parts.items)) (unless (pending_flaws (names table.now) (default_type basis) (pending_view (places table.now) n)) (bad p 59))) }
    ensures within { IfOk result (λ a. AnswerBelow (size table.now) a) }
{
    if were_known(table, parts) {
        return pending_bad(alloc, table, p, 59, n, basis);
    }
    gone_answer(Answer::Pending(n, basis));
    Ok(Answer::Unknown)
}

/// A call of `f`; `spread` says whether `...` follows the last argument.
pub fn called(
    alloc: Global,
    table: &TypeTable,
    at: Place,
    f: Part,
    spread: bool,
    parts: Vec<Part>,
) -> Result<Answer, NoMemory>
    requires table { HasPredeclared table.now }
    requires function { PartBelow (size table.now) f }
    requires within { PartsBelow (size table.now) parts.items }
    ensures view { IfOk result (λ a. answer_view (places table.now) a ≡ called_row (names table.now) at (part_view (places table.now) f) spread (parts_view (places table.now) parts.items)) }
    ensures within { IfOk result (λ a. AnswerBelow (size table.now) a) }
{
    let Part { place, answer } = f;
    match answer {
        Answer::Value(found) => called_found(alloc, table, at, place, found, parts),
        Answer::Constant(_k) => uncallable(alloc, table, place, 59, parts),
        Answer::Truth(core) => {
            gone_expr(core);
            uncallable(alloc, table, place, 59, parts)
        }
        Answer::Nil => uncallable(alloc, table, place, 59, parts),
        Answer::Pending(n, basis) => called_number(alloc, table, place, n, basis, parts),
        Answer::Type(t) => conversion(alloc, table, at, t, spread, parts),
        Answer::Package(_path) => uncallable(alloc, table, place, 52, parts),
        Answer::BuiltIn(_function) => uncallable(alloc, table, place, 52, parts),
        Answer::Blank => uncallable(alloc, table, place, 52, parts),
        Answer::Prints {
            operands,
            ends_line,
        } => {
            gone_answer(Answer::Prints {
                operands,
                ends_line,
            });
            uncallable(alloc, table, place, 52, parts)
        }
        Answer::Wrong(_flaws) => {
            gone_parts(parts);
            Ok(Answer::Unknown)
        }
        Answer::Unknown => {
            gone_parts(parts);
            Ok(Answer::Unknown)
        }
    }
}
