//! Slice expressions.
//!
//! Go, "Slice expressions".

ghost use Rattle.std.specs.Prelude.{◌≡◌, ◌<◌, ◌++◌, ◌&&◌, IfOk, IfSome, None, map, option_map};
ghost use Rattle.go_type.specs.Levels.{tree_of};
ghost use Rattle.go_type.specs.Table.{places, names, size};
ghost use Rattle.go_core.specs.CoreView.{expr_view, bound_of};
ghost use Rattle.go_core.specs.CoreTree as core;
ghost use Rattle.go_typing.specs.Answer.{value, unless, bad, is_known};
ghost use Rattle.go_typing.specs.Operand.{single};
ghost use Rattle.go_typing.specs.Index.{bound_no_value, edge_of, is_known_bound, indexed_of, past_end, edge_value, out_of_order, edge_bound, slice_text, has_edge, slice_fit, slice_known, slice_single, slice_row};
ghost use Rattle.go_typing.specs.Wanted.{no_value};
ghost use Rattle.go_operands.specs.AnswerView.{flaw_view, operand_view, answer_view};
ghost use Rattle.go_operands.specs.Below.{OperandBelow, AnswerBelow};
ghost use Rattle.go_operands.specs.RulesReady.{HasPredeclared};
ghost use Rattle.go_operands.specs.Parts.{part};
ghost use Rattle.go_operands.specs.Boxes.{boxes_view, BoxBelow};
ghost use Rattle.go_binary.specs.IndexView.{indexed_view, edge_view, bound_view, no_value_of, edge_of_valued, IndexedBelow, BoundBelow, ValuedBelow};

use crate::indexes::edge::{
    and_no_bound, and_no_value, and_out_of_order, and_past_end, edge_bound, edge_of, edge_value,
    is_known_bound, valued,
};
use crate::indexes::flaws::of_slice;
use crate::indexes::gone::{
    gone_all, gone_bound, gone_edge, gone_edges, gone_indexed, gone_sliced, gone_valued,
};
use crate::indexes::indexed::indexed_of;
use crate::indexes::kinds::{Edge, Indexed, Valued};
use gj_base::{NoMemory, Place};
use go_core::node::{CoreExpr, CoreForm};
use go_operands::answers::answer::{Answer, Flaw, Flaws, Operand};
use go_operands::answers::gone::{gone_answer, gone_operand};
use go_operands::answers::rule::{bad, is_known, made, unless};
use go_operands::nodes::form::expression;
use go_operands::nodes::gone::gone_expr;
use go_operands::operands::boxes::{gone_box, single_box};
use go_operands::operands::part::Part;
use go_type::TypeTable;
use go_type::types::TypeId;
use std::alloc::Global;

// A part of a string of a type, as a node.
fn part_of(
    alloc: Global,
    table: &TypeTable,
    t: TypeId,
    c: CoreExpr,
    low: Option<CoreExpr>,
    high: Option<CoreExpr>,
) -> Result<CoreExpr, NoMemory>
    ensures value { IfOk result (λ e. expr_view (places table.now) e ≡ core.slice_of (tree_of (places table.now) t) (tree_of (places table.now) t) (expr_view (places table.now) c) (bound_of (option_map (expr_view (places table.now)) low)) (bound_of (option_map (expr_view (places table.now)) high)) core.no_bound) }
{
    let _ = table;
    expression(
        alloc,
        CoreForm::SliceOf {
            from: t,
            ty: t,
            operand: c,
            low,
            high,
            limit: None,
        },
    )
}

fn sliced(
    alloc: Global,
    table: &TypeTable,
    t: TypeId,
    c: CoreExpr,
    low: Edge,
    high: Edge,
) -> Result<Answer, NoMemory>
    requires t { t.0 < size table.now }
    ensures view { IfOk result (λ a. answer_view (places table.now) a ≡ value (core.slice_of (tree_of (places table.now) t) (tree_of (places table.now) t) (expr_view (places table.now) c) (edge_bound (edge_view (places table.now) low)) (edge_bound (edge_view (places table.now) high)) core.no_bound) (tree_of (places table.now) t) None) }
    ensures within { IfOk result (λ a. AnswerBelow (size table.now) a) }
{
    match part_of(
        alloc,
        table,
        t,
        c,
        edge_bound(table, low),
        edge_bound(table, high),
    ) {
        Ok(core) => Ok(made(core, t)),
        Err(error) => Err(error),
    }
}

// The faults of bounds of a constant string.
fn past_ends(
    alloc: Global,
    table: &TypeTable,
    limit: Option<usize>,
    low: &Edge,
    high: &Edge,
) -> Result<Vec<Flaw>, NoMemory>
    ensures value { IfOk result (λ fs. map flaw_view fs.items ≡ past_end limit (edge_view (places table.now) low.now) ++ past_end limit (edge_view (places table.now) high.now)) }
{
    let mut flaws = Vec::new(alloc);
    and_past_end(alloc, table, limit, low, &mut flaws)?;
    and_past_end(alloc, table, limit, high, &mut flaws)?;
    Ok(flaws)
}

fn disordered(
    alloc: Global,
    table: &TypeTable,
    low: &Edge,
    high: &Edge,
) -> Result<Vec<Flaw>, NoMemory>
    ensures value { IfOk result (λ fs. map flaw_view fs.items ≡ out_of_order (edge_value (edge_view (places table.now) low.now)) (edge_view (places table.now) high.now)) }
{
    let mut flaws = Vec::new(alloc);
    and_out_of_order(alloc, table, edge_value(table, low), high, &mut flaws)?;
    Ok(flaws)
}

// Bounds that lie within, in their order.
fn ordered(
    alloc: Global,
    table: &TypeTable,
    t: TypeId,
    c: CoreExpr,
    low: Edge,
    high: Edge,
) -> Result<Answer, NoMemory>
    requires t { t.0 < size table.now }
    ensures view { IfOk result (λ a. answer_view (places table.now) a ≡ unless (out_of_order (edge_value (edge_view (places table.now) low)) (edge_view (places table.now) high)) (value (core.slice_of (tree_of (places table.now) t) (tree_of (places table.now) t) (expr_view (places table.now) c) (edge_bound (edge_view (places table.now) low)) (edge_bound (edge_view (places table.now) high)) core.no_bound) (tree_of (places table.now) t) None)) }
    ensures within { IfOk result (λ a. AnswerBelow (size table.now) a) }
{
    match disordered(alloc, table, &low, &high) {
        Ok(items) => {
            if items.is_empty() {
                return sliced(alloc, table, t, c, low, high);
            }
            gone_sliced(c, low, high);
            Ok(Answer::Wrong(Flaws { items }))
        }
        Err(error) => {
            gone_sliced(c, low, high);
            Err(error)
        }
    }
}

// A part of a string.
fn text(
    alloc: Global,
    table: &TypeTable,
    c: CoreExpr,
    t: TypeId,
    limit: Option<usize>,
    low: Edge,
    high: Edge,
) -> Result<Answer, NoMemory>
    requires t { t.0 < size table.now }
    ensures view { IfOk result (λ a. answer_view (places table.now) a ≡ slice_text (expr_view (places table.now) c) (tree_of (places table.now) t) limit (edge_view (places table.now) low) (edge_view (places table.now) high)) }
    ensures within { IfOk result (λ a. AnswerBelow (size table.now) a) }
{
    match past_ends(alloc, table, limit, &low, &high) {
        Ok(items) => {
            if items.is_empty() {
                return ordered(alloc, table, t, c, low, high);
            }
            gone_sliced(c, low, high);
            Ok(Answer::Wrong(Flaws { items }))
        }
        Err(error) => {
            gone_sliced(c, low, high);
            Err(error)
        }
    }
}

fn has_edge(table: &TypeTable, e: &Edge) -> bool
    ensures { result ≡ has_edge (edge_view (places table.now) e.now) }
{
    let _ = table;
    matches!(e, Edge::At(_, _))
}

// What is sliced, where neither it nor a bound has a fault.
fn fit(
    alloc: Global,
    table: &TypeTable,
    at: Place,
    x: Indexed,
    low: Edge,
    high: Edge,
    most: Edge,
) -> Result<Answer, NoMemory>
    requires within { IndexedBelow (size table.now) x }
    ensures view { IfOk result (λ a. answer_view (places table.now) a ≡ slice_fit at (indexed_view (places table.now) x) (edge_view (places table.now) low) (edge_view (places table.now) high) (edge_view (places table.now) most)) }
    ensures within { IfOk result (λ a. AnswerBelow (size table.now) a) }
{
    let three = has_edge(table, &most);
    gone_edge(most);
    match x {
        Indexed::Text(c, t, limit) => {
            if three {
                gone_sliced(c, low, high);
                return bad(alloc, at, 64);
            }
            text(alloc, table, c, t, limit, low, high)
        }
        Indexed::Unbuilt => {
            gone_edges(low, high);
            bad(alloc, at, 0)
        }
        Indexed::Other => {
            gone_edges(low, high);
            bad(alloc, at, 64)
        }
        Indexed::Unfit(flaws) => {
            gone_edges(low, high);
            Ok(Answer::Wrong(flaws))
        }
    }
}

fn known(
    alloc: Global,
    table: &TypeTable,
    at: Place,
    x: Indexed,
    low: Edge,
    high: Edge,
    most: Edge,
) -> Result<Answer, NoMemory>
    requires within { IndexedBelow (size table.now) x }
    ensures view { IfOk result (λ a. answer_view (places table.now) a ≡ slice_known at (indexed_view (places table.now) x) (edge_view (places table.now) low) (edge_view (places table.now) high) (edge_view (places table.now) most)) }
    ensures within { IfOk result (λ a. AnswerBelow (size table.now) a) }
{
    match of_slice(alloc, table, &x, &low, &high, &most) {
        Ok(items) => {
            if items.is_empty() {
                return fit(alloc, table, at, x, low, high, most);
            }
            gone_indexed(x);
            gone_edges(low, high);
            gone_edge(most);
            Ok(Answer::Wrong(Flaws { items }))
        }
        Err(error) => {
            gone_indexed(x);
            gone_edges(low, high);
            gone_edge(most);
            Err(error)
        }
    }
}

// ---- the row

// Operands that are values.
fn low_known(
    alloc: Global,
    table: &TypeTable,
    at: Place,
    x: Indexed,
    low: Option<Valued>,
    high: Option<Valued>,
    most: Option<Valued>,
) -> Result<Answer, NoMemory>
    requires table { HasPredeclared table.now }
    requires within { IndexedBelow (size table.now) x }
    requires low { IfSome low (λ y. ValuedBelow (size table.now) y) }
    requires high { IfSome high (λ y. ValuedBelow (size table.now) y) }
    requires most { IfSome most (λ y. ValuedBelow (size table.now) y) }
    ensures view { IfOk result (λ a. answer_view (places table.now) a ≡ slice_known at (indexed_view (places table.now) x) (edge_of_valued (places table.now) (names table.now) low) (edge_of_valued (places table.now) (names table.now) high) (edge_of_valued (places table.now) (names table.now) most)) }
    ensures within { IfOk result (λ a. AnswerBelow (size table.now) a) }
{
    match edge_of(alloc, table, low) {
        Ok(low) => high_known(alloc, table, at, x, low, high, most),
        Err(error) => {
            gone_indexed(x);
            gone_valued(high);
            gone_valued(most);
            Err(error)
        }
    }
}

fn high_known(
    alloc: Global,
    table: &TypeTable,
    at: Place,
    x: Indexed,
    low: Edge,
    high: Option<Valued>,
    most: Option<Valued>,
) -> Result<Answer, NoMemory>
    requires table { HasPredeclared table.now }
    requires within { IndexedBelow (size table.now) x }
    requires high { IfSome high (λ y. ValuedBelow (size table.now) y) }
    requires most { IfSome most (λ y. ValuedBelow (size table.now) y) }
    ensures view { IfOk result (λ a. answer_view (places table.now) a ≡ slice_known at (indexed_view (places table.now) x) (edge_view (places table.now) low) (edge_of_valued (places table.now) (names table.now) high) (edge_of_valued (places table.now) (names table.now) most)) }
    ensures within { IfOk result (λ a. AnswerBelow (size table.now) a) }
{
    match edge_of(alloc, table, high) {
        Ok(high) => most_known(alloc, table, at, x, low, high, most),
        Err(error) => {
            gone_indexed(x);
            gone_edge(low);
            gone_valued(most);
            Err(error)
        }
    }
}

fn most_known(
    alloc: Global,
    table: &TypeTable,
    at: Place,
    x: Indexed,
    low: Edge,
    high: Edge,
    most: Option<Valued>,
) -> Result<Answer, NoMemory>
    requires table { HasPredeclared table.now }
    requires within { IndexedBelow (size table.now) x }
    requires most { IfSome most (λ y. ValuedBelow (size table.now) y) }
    ensures view { IfOk result (λ a. answer_view (places table.now) a ≡ slice_known at (indexed_view (places table.now) x) (edge_view (places table.now) low) (edge_view (places table.now) high) (edge_of_valued (places table.now) (names table.now) most)) }
    ensures within { IfOk result (λ a. AnswerBelow (size table.now) a) }
{
    match edge_of(alloc, table, most) {
        Ok(most) => known(alloc, table, at, x, low, high, most),
        Err(error) => {
            gone_indexed(x);
            gone_edges(low, high);
            Err(error)
        }
    }
}

fn operand(
    alloc: Global,
    table: &TypeTable,
    at: Place,
    p: Place,
    x: Box<Operand>,
    low: Option<Valued>,
    high: Option<Valued>,
    most: Option<Valued>,
) -> Result<Answer, NoMemory>
    requires table { HasPredeclared table.now }
    requires within { OperandBelow (size table.now) x.value }
    requires low { IfSome low (λ y. ValuedBelow (size table.now) y) }
    requires high { IfSome high (λ y. ValuedBelow (size table.now) y) }
    requires most { IfSome most (λ y. ValuedBelow (size table.now) y) }
    ensures view { IfOk result (λ a. answer_view (places table.now) a ≡ slice_known at (indexed_of (names table.now) p (operand_view (places table.now) x.value)) (edge_of_valued (places table.now) (names table.now) low) (edge_of_valued (places table.now) (names table.now) high) (edge_of_valued (places table.now) (names table.now) most)) }
    ensures within { IfOk result (λ a. AnswerBelow (size table.now) a) }
{
    match indexed_of(alloc, table, p, Box::into_inner(x)) {
        Ok(x) => low_known(alloc, table, at, x, low, high, most),
        Err(error) => {
            gone_valued(low);
            gone_valued(high);
            gone_valued(most);
            Err(error)
        }
    }
}

// The faults of what is no value.
fn no_values(
    alloc: Global,
    table: &TypeTable,
    p: Place,
    x: &Option<Box<Operand>>,
    low: &Option<Valued>,
    high: &Option<Valued>,
    most: &Option<Valued>,
) -> Result<Vec<Flaw>, NoMemory>
    ensures value { IfOk result (λ fs. map flaw_view fs.items ≡ no_value p (boxes_view (places table.now) x.now) ++ no_value_of (places table.now) low.now ++ no_value_of (places table.now) high.now ++ no_value_of (places table.now) most.now) }
{
    let mut flaws = Vec::new(alloc);
    and_no_value(alloc, table, p, x, &mut flaws)?;
    and_no_bound(alloc, table, low, &mut flaws)?;
    and_no_bound(alloc, table, high, &mut flaws)?;
    and_no_bound(alloc, table, most, &mut flaws)?;
    Ok(flaws)
}

fn singles(
    alloc: Global,
    table: &TypeTable,
    at: Place,
    p: Place,
    x: Option<Box<Operand>>,
    low: Option<Valued>,
    high: Option<Valued>,
    most: Option<Valued>,
) -> Result<Answer, NoMemory>
    requires table { HasPredeclared table.now }
    requires within { IfSome x (BoxBelow (size table.now)) }
    requires low { IfSome low (λ y. ValuedBelow (size table.now) y) }
    requires high { IfSome high (λ y. ValuedBelow (size table.now) y) }
    requires most { IfSome most (λ y. ValuedBelow (size table.now) y) }
    ensures view { IfOk result (λ a. answer_view (places table.now) a ≡ slice_single (names table.now) at p (boxes_view (places table.now) x) (no_value_of (places table.now) low ++ no_value_of (places table.now) high ++ no_value_of (places table.now) most) (edge_of_valued (places table.now) (names table.now) low) (edge_of_valued (places table.now) (names table.now) high) (edge_of_valued (places table.now) (names table.now) most)) }
    ensures within { IfOk result (λ a. AnswerBelow (size table.now) a) }
{
    match no_values(alloc, table, p, &x, &low, &high, &most) {
        Ok(items) => match x {
            Some(x) => {
                if items.is_empty() {
                    return operand(alloc, table, at, p, x, low, high, most);
                }
                gone_operand(Box::into_inner(x));
                gone_all(low, high, most);
                Ok(Answer::Wrong(Flaws { items }))
            }
            None => {
                gone_all(low, high, most);
                refused(alloc, table, at, items)
            }
        },
        Err(error) => {
            gone_box(x);
            gone_all(low, high, most);
            Err(error)
        }
    }
}

// Not empty where what is sliced is no value.
fn refused(
    alloc: Global,
    table: &TypeTable,
    at: Place,
    items: Vec<Flaw>,
) -> Result<Answer, NoMemory>
    ensures view { IfOk result (λ a. answer_view (places table.now) a ≡ unless (map flaw_view items.items) (bad at 64)) }
    ensures within { IfOk result (λ a. AnswerBelow (size table.now) a) }
{
    match bad(alloc, at, 64) {
        Ok(answer) => Ok(unless(items, answer)),
        Err(error) => Err(error),
    }
}

// What is sliced, and bounds, each of which is typed.
fn row(
    alloc: Global,
    table: &TypeTable,
    at: Place,
    p: Place,
    x: Option<Box<Operand>>,
    low: Option<Valued>,
    high: Option<Box<Part>>,
    most: Option<Box<Part>>,
) -> Result<Answer, NoMemory>
    requires table { HasPredeclared table.now }
    requires within { IfSome x (BoxBelow (size table.now)) }
    requires low { IfSome low (λ y. ValuedBelow (size table.now) y) }
    requires high { IfSome high (BoundBelow (size table.now)) }
    requires most { IfSome most (BoundBelow (size table.now)) }
    ensures view { IfOk result (λ a. answer_view (places table.now) a ≡ slice_single (names table.now) at p (boxes_view (places table.now) x) (no_value_of (places table.now) low ++ bound_no_value (bound_view (places table.now) high) ++ bound_no_value (bound_view (places table.now) most)) (edge_of_valued (places table.now) (names table.now) low) (edge_of (names table.now) (bound_view (places table.now) high)) (edge_of (names table.now) (bound_view (places table.now) most))) }
    ensures within { IfOk result (λ a. AnswerBelow (size table.now) a) }
{
    match valued(alloc, table, high) {
        Ok(high) => match valued(alloc, table, most) {
            Ok(most) => singles(alloc, table, at, p, x, low, high, most),
            Err(error) => {
                gone_box(x);
                gone_valued(low);
                gone_valued(high);
                Err(error)
            }
        },
        Err(error) => {
            gone_box(x);
            gone_valued(low);
            gone_bound(most);
            Err(error)
        }
    }
}

fn known_row(
    alloc: Global,
    table: &TypeTable,
    at: Place,
    p: Place,
    x: Box<Answer>,
    low: Option<Box<Part>>,
    high: Option<Box<Part>>,
    most: Option<Box<Part>>,
) -> Result<Answer, NoMemory>
    requires table { HasPredeclared table.now }
    requires within { AnswerBelow (size table.now) x.value }
    requires low { IfSome low (BoundBelow (size table.now)) }
    requires high { IfSome high (BoundBelow (size table.now)) }
    requires most { IfSome most (BoundBelow (size table.now)) }
    ensures view { IfOk result (λ a. answer_view (places table.now) a ≡ slice_single (names table.now) at p (single (answer_view (places table.now) x.value)) (bound_no_value (bound_view (places table.now) low) ++ bound_no_value (bound_view (places table.now) high) ++ bound_no_value (bound_view (places table.now) most)) (edge_of (names table.now) (bound_view (places table.now) low)) (edge_of (names table.now) (bound_view (places table.now) high)) (edge_of (names table.now) (bound_view (places table.now) most))) }
    ensures within { IfOk result (λ a. AnswerBelow (size table.now) a) }
{
    match valued(alloc, table, low) {
        Ok(low) => match single_box(alloc, table, Box::into_inner(x)) {
            Ok(x) => row(alloc, table, at, p, x, low, high, most),
            Err(error) => {
                gone_valued(low);
                gone_bound(high);
                gone_bound(most);
                Err(error)
            }
        },
        Err(error) => {
            gone_answer(Box::into_inner(x));
            gone_bound(high);
            gone_bound(most);
            Err(error)
        }
    }
}

// Whether what is sliced and its bounds are typed.
fn all_known(
    table: &TypeTable,
    x: &Answer,
    low: &Option<Box<Part>>,
    high: &Option<Box<Part>>,
    most: &Option<Box<Part>>,
) -> bool
    ensures { result ≡ (is_known (answer_view (places table.now) x.now) && is_known_bound (bound_view (places table.now) low.now) && is_known_bound (bound_view (places table.now) high.now) && is_known_bound (bound_view (places table.now) most.now)) }
{
    let first = is_known(x);
    let second = is_known_bound(table, low);
    let third = is_known_bound(table, high);
    let fourth = is_known_bound(table, most);
    first && second && third && fourth
}

/// What stands at `p` cut by the bounds: a part of a string. Each waits in a box.
#[tactic(auto, using(crate::proofs::RowLemmas::known_slice, crate::proofs::RowLemmas::unknown_slice))]
pub fn slice(
    alloc: Global,
    table: &TypeTable,
    at: Place,
    p: Place,
    x: Box<Answer>,
    low: Option<Box<Part>>,
    high: Option<Box<Part>>,
    most: Option<Box<Part>>,
) -> Result<Answer, NoMemory>
    requires table { HasPredeclared table.now }
    requires within { AnswerBelow (size table.now) x.value }
    requires low { IfSome low (BoundBelow (size table.now)) }
    requires high { IfSome high (BoundBelow (size table.now)) }
    requires most { IfSome most (BoundBelow (size table.now)) }
    ensures view { IfOk result (λ a. answer_view (places table.now) a ≡ slice_row (names table.now) at (part p (answer_view (places table.now) x.value)) (bound_view (places table.now) low) (bound_view (places table.now) high) (bound_view (places table.now) most)) }
    ensures within { IfOk result (λ a. AnswerBelow (size table.now) a) }
{
    if !all_known(table, &*x, &low, &high, &most) {
        gone_answer(Box::into_inner(x));
        gone_bound(low);
        gone_bound(high);
        gone_bound(most);
        return Ok(Answer::Unknown);
    }
    known_row(alloc, table, at, p, x, low, high, most)
}
