//! Assignments: Go specification (as of Go 1.17), "Assignments". The operands of the left and the right
//! sides come first, then one assignment after another.

use crate::expr::{expr, exprs};
use crate::maps::set_entry;
use crate::places::{
    Spot, deref_spot, elem_spot, field_spot, global_spot, local_spot, opened, opened_elem_spot,
    slice_elem_spot,
};
use gj_base::Kind;
use go_core::node::{CoreExpr, CorePlace, PlaceForm};
use go_core::statement::Target;
use go_type::types::TypeId;
use js_body::{Body, Operand};
use js_facts::types::{pointed, type_of};
use js_pool::ExprId;

/// `a, b = x, y`
pub fn store<'p>(b: &mut Body<'p>, targets: &'p [Target], values: &'p Vec<CoreExpr>) {
    match targets {
        [Target::Place { ty, place }] if is_variable(place) => {
            exprs(b, values);
            let value = b.take();
            let spot = found(b, place, &mut 0);
            store_at(b, spot, value, *ty);
        }
        _ => store_all(b, targets, values),
    }
    b.drop_to(0);
}

// Whether a place is a variable, and no part of one.
fn is_variable(p: &CorePlace) -> bool {
    match &*p.form {
        PlaceForm::Local(_) | PlaceForm::Global(_) => true,
        _ => false,
    }
}

// Whether an assignment to one of several left sides may change a variable that stands on the stack.
fn set_variables(targets: &[Target]) -> bool {
    for t in targets {
        if let Target::Place { place, .. } = t
            && let PlaceForm::Local(_) = &*place.form
        {
            return targets.len() > 1;
        }
    }
    false
}

// The operands of the left and the right sides, then one assignment after another.
fn store_all<'p>(b: &mut Body<'p>, targets: &'p [Target], values: &'p Vec<CoreExpr>) {
    for t in targets {
        target_operands(b, t);
    }
    let first = b.depth();
    exprs(b, values);
    if set_variables(targets) {
        b.settle_variables();
    }
    let mut at: usize = 0;
    let mut n = first;
    for t in targets {
        let value = b.value_at(n);
        assign_to(b, t, &mut at, value);
        n = n.saturating_add(1);
    }
}

fn target_operands<'p>(b: &mut Body<'p>, t: &'p Target) {
    match t {
        Target::Blank => {}
        Target::Place { place, .. } => place_operands(b, place),
        Target::Entry { operand, key, .. } => {
            expr(b, operand);
            expr(b, key);
        }
    }
}

// The operands of a place, from left to right.
fn place_operands<'p>(b: &mut Body<'p>, p: &'p CorePlace) {
    match &*p.form {
        PlaceForm::Local(_) | PlaceForm::Global(_) => {}
        PlaceForm::Deref(e) => expr(b, e),
        PlaceForm::Field { place, .. } => place_operands(b, place),
        PlaceForm::Elem { place, index, .. } => {
            place_operands(b, place);
            expr(b, index);
        }
        PlaceForm::SliceElem { operand, index, .. } => {
            expr(b, operand);
            expr(b, index);
        }
    }
}

// The next operand.
fn next(b: &Body<'_>, at: &mut usize) -> Operand {
    let o = b.value_at(*at);
    *at = at.saturating_add(1);
    o
}

/// The kind of an index.
pub fn index_kind(b: &Body<'_>, e: &CoreExpr) -> Kind {
    b.int_kind(type_of(b.table(), e))
}

// The place with the checks of its steps, in one; its operands have been evaluated.
fn found<'p>(b: &mut Body<'p>, p: &'p CorePlace, at: &mut usize) -> Spot {
    match &*p.form {
        PlaceForm::Local(v) => local_spot(b, *v),
        PlaceForm::Global(n) => global_spot(b, n.0),
        PlaceForm::Deref(e) => {
            let o = next(b, at);
            let t = pointed(b.table(), e);
            deref_spot(b, t, o)
        }
        PlaceForm::Field {
            struct_type,
            number,
            place,
        } => {
            let base = found(b, place, at);
            field_spot(b, *struct_type, *number, base)
        }
        PlaceForm::Elem {
            array_type,
            place,
            index,
        } => {
            let base = found(b, place, at);
            let i = next(b, at);
            let kind = index_kind(b, index);
            elem_spot(b, *array_type, base, kind, i)
        }
        PlaceForm::SliceElem {
            slice_type,
            operand,
            index,
        } => {
            let s = next(b, at);
            let i = next(b, at);
            let kind = index_kind(b, index);
            match opened(b, operand) {
                Some(parts) => opened_elem_spot(b, *slice_type, parts, kind, i),
                None => slice_elem_spot(b, *slice_type, s, kind, i),
            }
        }
    }
}

fn assign_to<'p>(b: &mut Body<'p>, t: &'p Target, at: &mut usize, value: Operand) {
    match t {
        Target::Blank => {}
        Target::Place { ty, place } => {
            let spot = found(b, place, at);
            store_at(b, spot, value.e, *ty);
        }
        Target::Entry { map_type, .. } => {
            let m = next(b, at);
            let key = next(b, at);
            set_entry(b, *map_type, m.e, key.e, value.e);
        }
    }
}

fn store_at(b: &mut Body<'_>, spot: Spot, value: ExprId, t: TypeId) {
    match spot {
        Spot::Block(block) => b.copy_over(block, value, t),
        Spot::Cell(a, i) => b.pool.store(a, i, value),
        Spot::Var(n) => b.set_slot(n, value),
    }
}
