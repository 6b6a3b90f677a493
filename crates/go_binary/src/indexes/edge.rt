//! Bounds of slices.
//!
//! Go, "Slice expressions". Own: of constant bounds out of order, the later one is told.

ghost use Rattle.std.specs.Prelude.{◌≡◌, ◌<◌, ◌++◌, IfOk, IfSome, OnOk, Some, map, option_map};
ghost use Rattle.go_type.specs.Table.{places, names, size};
ghost use Rattle.go_core.specs.CoreView.{expr_view, bound_of};
ghost use Rattle.go_typing.specs.Index.{is_within, past_end, edge_value, out_of_order, edge_bound, has_edge, is_known_bound, bound_no_value, edge_of};
ghost use Rattle.go_operands.specs.AnswerView.{flaw_view};
ghost use Rattle.go_typing.specs.Index.{edge, edge_at};
ghost use Rattle.go_typing.specs.Wanted.{no_value};
ghost use Rattle.go_operands.specs.RulesReady.{HasPredeclared};
ghost use Rattle.go_operands.specs.Parts.{part_view, PartBelow};
ghost use Rattle.go_operands.specs.Boxes.{boxes_view, BoxBelow};
ghost use Rattle.go_binary.specs.Order.{index_value, index_bound, is_before};
ghost use Rattle.go_binary.specs.IndexView.{edge_view, index_view, bound_view, BoundBelow, no_value_of, edge_of_valued, ValuedBelow};

use crate::indexes::bound::index_box;
use crate::indexes::kinds::{Edge, Index, Valued};
use gj_base::{NoMemory, Place};
use go_core::node::CoreExpr;
use go_operands::answers::answer::{Flaw, Operand};
use go_operands::answers::rule::{and_flaw, is_known};
use go_operands::operands::boxes::single_box;
use go_operands::operands::part::Part;
use go_type::TypeTable;
use std::alloc::Global;

/// Whether a bound is typed, if there is one.
pub fn is_known_bound(table: &TypeTable, bound: &Option<Box<Part>>) -> bool
    ensures { result ≡ is_known_bound (bound_view (places table.now) bound.now) }
{
    let _ = table;
    match bound {
        None => true,
        Some(part) => is_known(&part.answer),
    }
}

fn valued_part(alloc: Global, table: &TypeTable, part: Part) -> Result<Valued, NoMemory>
    requires within { PartBelow (size table.now) part }
    ensures flaws { IfOk result (λ x. no_value_of (places table.now) (Some x) ≡ bound_no_value (Some (part_view (places table.now) part))) }
    ensures edge { IfOk result (λ x. edge_of_valued (places table.now) (names table.now) (Some x) ≡ edge_of (names table.now) (Some (part_view (places table.now) part))) }
    ensures within { IfOk result (λ x. ValuedBelow (size table.now) x) }
{
    let Part { place, answer } = part;
    match single_box(alloc, table, answer) {
        Ok(value) => Ok(Valued { place, value }),
        Err(error) => Err(error),
    }
}

/// A bound with its value, if it is one.
pub fn valued(
    alloc: Global,
    table: &TypeTable,
    bound: Option<Box<Part>>,
) -> Result<Option<Valued>, NoMemory>
    requires within { IfSome bound (BoundBelow (size table.now)) }
    ensures flaws { IfOk result (λ x. no_value_of (places table.now) x ≡ bound_no_value (bound_view (places table.now) bound)) }
    ensures edge { IfOk result (λ x. edge_of_valued (places table.now) (names table.now) x ≡ edge_of (names table.now) (bound_view (places table.now) bound)) }
    ensures within { IfOk result (λ x. IfSome x (ValuedBelow (size table.now))) }
{
    match bound {
        None => Ok(None),
        Some(part) => match valued_part(alloc, table, Box::into_inner(part)) {
            Ok(x) => Ok(Some(x)),
            Err(error) => Err(error),
        },
    }
}

/// The fault of a part that is no value, added to others.
pub fn and_no_value(
    alloc: Global,
    table: &TypeTable,
    at: Place,
    x: &Option<Box<Operand>>,
    flaws: &mut Vec<Flaw>,
) -> Result<(), NoMemory>
    ensures value { OnOk result (map flaw_view flaws.new.items ≡ map flaw_view flaws.old.items ++ no_value at (boxes_view (places table.now) x.now)) }
{
    let _ = table;
    match x {
        None => and_flaw(alloc, flaws, at, 52),
        Some(_) => Ok(()),
    }
}

/// The fault of a bound that is no value, added to others.
pub fn and_no_bound(
    alloc: Global,
    table: &TypeTable,
    x: &Option<Valued>,
    flaws: &mut Vec<Flaw>,
) -> Result<(), NoMemory>
    ensures value { OnOk result (map flaw_view flaws.new.items ≡ map flaw_view flaws.old.items ++ no_value_of (places table.now) x.now) }
{
    match x {
        None => Ok(()),
        Some(x) => and_no_value(alloc, table, x.place, &x.value, flaws),
    }
}

fn placed(
    alloc: Global,
    table: &TypeTable,
    at: Place,
    value: Option<Box<Operand>>,
) -> Result<Edge, NoMemory>
    requires table { HasPredeclared table.now }
    requires within { IfSome value (BoxBelow (size table.now)) }
    ensures view { IfOk result (λ e. edge_view (places table.now) e ≡ edge_at (names table.now) at (boxes_view (places table.now) value)) }
{
    match value {
        None => Ok(Edge::Open),
        Some(y) => match index_box(alloc, table, at, Box::into_inner(y)) {
            Ok(i) => Ok(Edge::At(at, i)),
            Err(error) => Err(error),
        },
    }
}

/// What a bound is.
pub fn edge_of(alloc: Global, table: &TypeTable, x: Option<Valued>) -> Result<Edge, NoMemory>
    requires table { HasPredeclared table.now }
    requires within { IfSome x (λ y. ValuedBelow (size table.now) y) }
    ensures view { IfOk result (λ e. edge_view (places table.now) e ≡ edge_of_valued (places table.now) (names table.now) x) }
{
    match x {
        None => Ok(Edge::Open),
        Some(Valued { place, value }) => placed(alloc, table, place, value),
    }
}

// ---- what a constant bound may be

fn is_within(n: Option<u32>, limit: Option<usize>) -> bool
    ensures { result ≡ is_within n limit }
{
    match n {
        Some(n) => match limit {
            Some(limit) => (n as usize) <= limit,
            None => true,
        },
        None => true,
    }
}

fn and_past(
    alloc: Global,
    table: &TypeTable,
    limit: Option<usize>,
    q: Place,
    i: &Index,
    flaws: &mut Vec<Flaw>,
) -> Result<(), NoMemory>
    ensures value { OnOk result (map flaw_view flaws.new.items ≡ map flaw_view flaws.old.items ++ past_end limit (edge q (index_view (places table.now) i.now))) }
{
    let _ = table;
    match i {
        Index::Value(_, n) => {
            if is_within(*n, limit) {
                return Ok(());
            }
            and_flaw(alloc, flaws, q, 65)
        }
        Index::None => and_flaw(alloc, flaws, q, 65),
        Index::Unfit(_) => Ok(()),
    }
}

/// The fault of a bound that is no index, or past the end of a constant string, added to others.
pub fn and_past_end(
    alloc: Global,
    table: &TypeTable,
    limit: Option<usize>,
    e: &Edge,
    flaws: &mut Vec<Flaw>,
) -> Result<(), NoMemory>
    ensures value { OnOk result (map flaw_view flaws.new.items ≡ map flaw_view flaws.old.items ++ past_end limit (edge_view (places table.now) e.now)) }
{
    match e {
        Edge::Open => Ok(()),
        Edge::At(q, i) => and_past(alloc, table, limit, *q, i, flaws),
    }
}

fn index_value(table: &TypeTable, i: &Index) -> Option<u32>
    ensures { result ≡ index_value (index_view (places table.now) i.now) }
{
    let _ = table;
    match i {
        Index::Value(_, n) => *n,
        Index::None | Index::Unfit(_) => None,
    }
}

/// The value of a constant bound.
#[tactic(auto, using(crate::proofs::OrderLemmas::edge_has_value))]
pub fn edge_value(table: &TypeTable, e: &Edge) -> Option<u32>
    ensures { result ≡ edge_value (edge_view (places table.now) e.now) }
{
    match e {
        Edge::At(_, i) => index_value(table, i),
        Edge::Open => None,
    }
}

fn is_before(n: Option<u32>, m: Option<u32>) -> bool
    ensures { result ≡ is_before n m }
{
    match n {
        Some(n) => match m {
            Some(m) => n < m,
            None => false,
        },
        None => false,
    }
}

/// The fault of a constant bound that is less than the one before it, added to others.
#[tactic(auto, using(crate::proofs::OrderLemmas::in_order, crate::proofs::OrderLemmas::before_it))]
pub fn and_out_of_order(
    alloc: Global,
    table: &TypeTable,
    before: Option<u32>,
    e: &Edge,
    flaws: &mut Vec<Flaw>,
) -> Result<(), NoMemory>
    ensures value { OnOk result (map flaw_view flaws.new.items ≡ map flaw_view flaws.old.items ++ out_of_order before (edge_view (places table.now) e.now)) }
{
    match e {
        Edge::At(q, i) => {
            if is_before(index_value(table, i), before) {
                return and_flaw(alloc, flaws, *q, 65);
            }
            Ok(())
        }
        Edge::Open => Ok(()),
    }
}

// ---- a bound as a node

fn index_bound(table: &TypeTable, i: Index) -> Option<CoreExpr>
    ensures value { bound_of (option_map (expr_view (places table.now)) result) ≡ index_bound (index_view (places table.now) i) }
{
    let _ = table;
    match i {
        Index::Value(c, _) => Some(c),
        Index::None => None,
        Index::Unfit(_flaws) => None,
    }
}

/// A bound as a node, if there is one.
#[tactic(auto, using(crate::proofs::OrderLemmas::edge_has_bound))]
pub fn edge_bound(table: &TypeTable, e: Edge) -> Option<CoreExpr>
    ensures value { bound_of (option_map (expr_view (places table.now)) result) ≡ edge_bound (edge_view (places table.now) e) }
{
    match e {
        Edge::At(_place, i) => index_bound(table, Box::into_inner(i)),
        Edge::Open => None,
    }
}
