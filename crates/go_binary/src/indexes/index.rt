//! Index expressions.
//!
//! Go, "Index expressions".

ghost use Rattle.std.specs.Prelude.{◌≡◌, ◌<◌, IfOk, IfSome, List, ℕ, option_map};
ghost use Rattle.gj_base.specs.declared.place.Place.{Place};
ghost use Rattle.go_type.specs.Tree.{Ty};
ghost use Rattle.go_type.specs.Table.{places, names, size};
ghost use Rattle.go_core.specs.CoreView.{expr_view};
ghost use Rattle.std.specs.Prelude.{Some, None};
ghost use Rattle.go_core.specs.CoreTree as core;
ghost use Rattle.go_typing.specs.Env.{byte_type};
ghost use Rattle.go_typing.specs.Answer.{value};
ghost use Rattle.go_typing.specs.Index.{is_below, byte_at, index_fit, index_known, index_single, index_row};
ghost use Rattle.go_operands.specs.AnswerView.{operand_view, answer_view};
ghost use Rattle.go_operands.specs.Below.{OperandBelow, AnswerBelow};
ghost use Rattle.go_operands.specs.RulesReady.{HasPredeclared};
ghost use Rattle.go_operands.specs.Parts.{part};
ghost use Rattle.go_operands.specs.Boxes.{boxes_view, BoxBelow};
ghost use Rattle.go_binary.specs.IndexView.{indexed_view, index_view, IndexedBelow};

use crate::indexes::bound::index_box;
use crate::indexes::flaws::of_index;
use crate::indexes::gone::{gone_index, gone_indexed};
use crate::indexes::indexed::indexed_of;
use crate::indexes::kinds::{Index, Indexed};
use gj_base::{NoMemory, Place};
use go_core::node::CoreExpr;
use go_operands::answers::answer::{Answer, Flaws, Operand};
use go_operands::answers::gone::{gone_answer, gone_operand};
use go_operands::answers::rule::{bad, made};
use go_operands::nodes::gone::gone_expr;
use go_operands::nodes::pair;
use go_operands::operands::boxes::{Waiting, both_known, both_waiting};
use go_operands::operands::operand::no_left;
use go_operands::rules::kind::byte_type;
use go_type::TypeTable;
use std::alloc::Global;

fn is_below(n: Option<u32>, limit: Option<usize>) -> bool
    ensures { result ≡ is_below n limit }
{
    match n {
        Some(n) => match limit {
            Some(limit) => (n as usize) < limit,
            None => true,
        },
        None => true,
    }
}

fn byte_of(alloc: Global, table: &TypeTable, c: CoreExpr, d: CoreExpr) -> Result<Answer, NoMemory>
    requires table { HasPredeclared table.now }
    ensures view { IfOk result (λ a. answer_view (places table.now) a ≡ value (core.byte_at (expr_view (places table.now) c) (expr_view (places table.now) d)) byte_type None) }
    ensures within { IfOk result (λ a. AnswerBelow (size table.now) a) }
{
    match pair::byte_at(alloc, c, d) {
        Ok(core) => Ok(made(core, byte_type(table))),
        Err(error) => Err(error),
    }
}

// A byte of a string; the index stands at `q`.
fn byte_at(
    alloc: Global,
    table: &TypeTable,
    q: Place,
    c: CoreExpr,
    limit: Option<usize>,
    i: Box<Index>,
) -> Result<Answer, NoMemory>
    requires table { HasPredeclared table.now }
    ensures view { IfOk result (λ a. answer_view (places table.now) a ≡ byte_at q (expr_view (places table.now) c) limit (index_view (places table.now) i.value)) }
    ensures within { IfOk result (λ a. AnswerBelow (size table.now) a) }
{
    match Box::into_inner(i) {
        Index::Value(d, n) => {
            if is_below(n, limit) {
                return byte_of(alloc, table, c, d);
            }
            gone_expr(c);
            gone_expr(d);
            bad(alloc, q, 65)
        }
        Index::None => {
            gone_expr(c);
            bad(alloc, q, 65)
        }
        Index::Unfit(flaws) => {
            gone_expr(c);
            Ok(Answer::Wrong(flaws))
        }
    }
}

fn fit(
    alloc: Global,
    table: &TypeTable,
    at: Place,
    x: Indexed,
    q: Place,
    i: Box<Index>,
) -> Result<Answer, NoMemory>
    requires table { HasPredeclared table.now }
    ensures view { IfOk result (λ a. answer_view (places table.now) a ≡ index_fit at (indexed_view (places table.now) x) q (index_view (places table.now) i.value)) }
    ensures within { IfOk result (λ a. AnswerBelow (size table.now) a) }
{
    match x {
        Indexed::Text(c, _, limit) => byte_at(alloc, table, q, c, limit, i),
        Indexed::Unbuilt => {
            gone_index(Box::into_inner(i));
            bad(alloc, at, 0)
        }
        Indexed::Other => {
            gone_index(Box::into_inner(i));
            bad(alloc, at, 64)
        }
        Indexed::Unfit(flaws) => {
            gone_index(Box::into_inner(i));
            Ok(Answer::Wrong(flaws))
        }
    }
}

fn known(
    alloc: Global,
    table: &TypeTable,
    at: Place,
    x: Indexed,
    q: Place,
    i: Box<Index>,
) -> Result<Answer, NoMemory>
    requires table { HasPredeclared table.now }
    ensures view { IfOk result (λ a. answer_view (places table.now) a ≡ index_known at (indexed_view (places table.now) x) q (index_view (places table.now) i.value)) }
    ensures within { IfOk result (λ a. AnswerBelow (size table.now) a) }
{
    match of_index(alloc, table, &x, &*i) {
        Ok(items) => {
            if items.is_empty() {
                return fit(alloc, table, at, x, q, i);
            }
            gone_indexed(x);
            gone_index(Box::into_inner(i));
            Ok(Answer::Wrong(Flaws { items }))
        }
        Err(error) => {
            gone_indexed(x);
            gone_index(Box::into_inner(i));
            Err(error)
        }
    }
}

fn operands(
    alloc: Global,
    table: &TypeTable,
    at: Place,
    p: Place,
    x: Box<Operand>,
    q: Place,
    y: Box<Operand>,
) -> Result<Answer, NoMemory>
    requires table { HasPredeclared table.now }
    requires left { OperandBelow (size table.now) x.value }
    requires right { OperandBelow (size table.now) y.value }
    ensures view { IfOk result (λ a. answer_view (places table.now) a ≡ index_single (names table.now) at p (Some (operand_view (places table.now) x.value)) q (Some (operand_view (places table.now) y.value))) }
    ensures within { IfOk result (λ a. AnswerBelow (size table.now) a) }
{
    match index_box(alloc, table, q, Box::into_inner(y)) {
        Ok(i) => match indexed_of(alloc, table, p, Box::into_inner(x)) {
            Ok(x) => known(alloc, table, at, x, q, i),
            Err(error) => {
                gone_index(Box::into_inner(i));
                Err(error)
            }
        },
        Err(error) => {
            gone_operand(Box::into_inner(x));
            Err(error)
        }
    }
}

fn singles(
    alloc: Global,
    table: &TypeTable,
    at: Place,
    p: Place,
    x: Option<Box<Operand>>,
    q: Place,
    y: Option<Box<Operand>>,
) -> Result<Answer, NoMemory>
    requires table { HasPredeclared table.now }
    requires left { IfSome x (BoxBelow (size table.now)) }
    requires right { IfSome y (BoxBelow (size table.now)) }
    ensures view { IfOk result (λ a. answer_view (places table.now) a ≡ index_single (names table.now) at p (boxes_view (places table.now) x) q (boxes_view (places table.now) y)) }
    ensures within { IfOk result (λ a. AnswerBelow (size table.now) a) }
{
    match x {
        Some(x) => match y {
            Some(y) => operands(alloc, table, at, p, x, q, y),
            None => {
                gone_operand(Box::into_inner(x));
                bad(alloc, q, 52)
            }
        },
        None => no_left(alloc, p, q, y),
    }
}

// Operands that have waited.
fn on_waiting(
    alloc: Global,
    table: &TypeTable,
    at: Place,
    p: Place,
    q: Place,
    waiting: Waiting,
) -> Result<Answer, NoMemory>
    requires table { HasPredeclared table.now }
    requires left { IfSome waiting.left (BoxBelow (size table.now)) }
    requires right { IfSome waiting.right (BoxBelow (size table.now)) }
    ensures view { IfOk result (λ a. answer_view (places table.now) a ≡ index_single (names table.now) at p (boxes_view (places table.now) waiting.left) q (boxes_view (places table.now) waiting.right)) }
    ensures within { IfOk result (λ a. AnswerBelow (size table.now) a) }
{
    let Waiting { left, right } = waiting;
    singles(alloc, table, at, p, left, q, right)
}

/// What stands at `p` indexed by what stands at `q`: a byte of a string. The first answer waits in a box
/// while the second one is found.
#[tactic(auto, using(crate::proofs::RowLemmas::known_row, crate::proofs::RowLemmas::unknown_row))]
pub fn index(
    alloc: Global,
    table: &TypeTable,
    at: Place,
    p: Place,
    x: Box<Answer>,
    q: Place,
    y: Answer,
) -> Result<Answer, NoMemory>
    requires table { HasPredeclared table.now }
    requires left { AnswerBelow (size table.now) x.value }
    requires right { AnswerBelow (size table.now) y }
    ensures view { IfOk result (λ a. answer_view (places table.now) a ≡ index_row (names table.now) at (part p (answer_view (places table.now) x.value)) (part q (answer_view (places table.now) y))) }
    ensures within { IfOk result (λ a. AnswerBelow (size table.now) a) }
{
    if !both_known(table, &*x, &y) {
        gone_answer(Box::into_inner(x));
        gone_answer(y);
        return Ok(Answer::Unknown);
    }
    match both_waiting(alloc, table, x, y) {
        Ok(waiting) => on_waiting(alloc, table, at, p, q, waiting),
        Err(error) => Err(error),
    }
}
