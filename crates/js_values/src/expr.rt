//! Expressions: the parts of each are evaluated from left to right, and its step joins their values. Go
//! specification (as of Go 1.17), "Expressions", "Order of evaluation".

ghost use Rattle.std.specs.Prelude.{◌≡◌, List, not};
ghost use Rattle.go_type.specs.Tree.{Ty};
ghost use Rattle.go_core.specs.CoreView.{expr_view};
ghost use Rattle.js_values.specs.Steps.{RunsWhen};
ghost use Rattle.js_values.specs.Exprs.{is_shift, known_count, ExprRuns};

use crate::calls::{bind_dynamic, bind_method, call, callee_of, closure};
use crate::channels::{gate_add, gate_make, make_chan, receive, recover};
use crate::compare::{equal, less, not};
use crate::composites::{
    begin_build, build_small, end_build, is_small, let_in, new_value, set_element,
};
use crate::constants::{constant, zero_value};
use crate::interfaces::{assert_type, basic, wrap};
use crate::logic::{begin_logic, end_logic};
use crate::maps::{build_map, make_map, make_map_sized, map_get};
use crate::numbers::{binary, constant_count, convert, count, size, unary};
use crate::places::{
    Spot, address, deref_spot, elem_spot, field_spot, global_spot, local_spot, opened,
    opened_elem_spot, read, read_local, slice_elem_spot,
};
use crate::slices::{append, cap, copy_elems, len, make_slice, opened_len, opened_of, slice_of};
use crate::stores::index_kind;
use crate::strings::{byte_at, concat};
use gj_base::Op;
use go_core::node::{Callee, CoreElements, CoreExpr, CoreForm, CorePairs, CorePlace, PlaceForm};
use js_body::Body;
use js_facts::types::{pointed, type_of};

/// The values of expressions, from left to right.
#[cycle(expr)]
pub fn exprs<'p>(b: &mut Body<'p>, es: &'p Vec<CoreExpr>) {
    for e in es {
        expr(b, e);
    }
}

/// The values of an expression, from the depth of the stack on.
#[cycle(expr)]
pub fn expr<'p>(b: &mut Body<'p>, e: &'p CoreExpr)
    ensures { ExprRuns b.old b.new e.now }
{
    match &*e.form {
        CoreForm::Const { ty, value } => constant(b, *ty, value),
        CoreForm::Zero { ty } => zero_value(b, *ty),
        CoreForm::Read { ty, place } => match &*place.form {
            PlaceForm::Local(v) => read_local(b, *v, *ty),
            _ => {
                let from = b.depth();
                let spot = placed(b, place);
                read(b, from, spot, *ty);
            }
        },
        CoreForm::Unary { op, ty, operand } => {
            expr(b, operand);
            unary(b, *op, *ty);
        }
        CoreForm::Binary {
            op,
            ty,
            left,
            right,
        } => {
            expr(b, left);
            match known_count(*op, right) {
                Some(n) => {
                    b.push_number(n);
                    binary(b, *op, *ty);
                }
                None => {
                    expr(b, right);
                    count_of(b, *op, right);
                    binary(b, *op, *ty);
                }
            }
        }
        CoreForm::Concat { left, right, .. } => {
            expr(b, left);
            expr(b, right);
            concat(b);
        }
        CoreForm::Equal {
            negated,
            operands,
            left,
            right,
            ..
        } => {
            expr(b, left);
            expr(b, right);
            equal(b, *negated, *operands);
        }
        CoreForm::Less {
            op,
            operands,
            left,
            right,
            ..
        } => {
            expr(b, left);
            expr(b, right);
            less(b, *op, *operands);
        }
        CoreForm::AndThen { left, right, .. } => {
            expr(b, left);
            let l = begin_logic(b, true);
            expr(b, right);
            end_logic(b, l);
        }
        CoreForm::OrElse { left, right, .. } => {
            expr(b, left);
            let l = begin_logic(b, false);
            expr(b, right);
            end_logic(b, l);
        }
        CoreForm::Not { operand, .. } => {
            expr(b, operand);
            not(b);
        }
        CoreForm::Convert { from, ty, operand } => {
            expr(b, operand);
            convert(b, *from, *ty);
        }
        form => other(b, form),
    }
}

// The values of an expression of any other form.
#[cycle(expr)]
fn other<'p>(b: &mut Body<'p>, form: &'p CoreForm) {
    let from = b.depth();
    match form {
        CoreForm::Address { place, .. } => {
            let spot = placed(b, place);
            address(b, from, spot);
        }
        CoreForm::ByteAt { text, index } => {
            expr(b, text);
            b.settle_constant();
            expr(b, index);
            let kind = index_kind(b, index);
            byte_at(b, kind);
        }
        CoreForm::SliceOf {
            from,
            operand,
            low,
            high,
            limit,
            ..
        } => {
            expr(b, operand);
            b.settle_constant();
            match low {
                Some(low) => {
                    expr(b, low);
                    let t = type_of(b.table(), low);
                    size(b, t);
                }
                None => b.push_number(0),
            }
            match high {
                Some(high) => {
                    expr(b, high);
                    let t = type_of(b.table(), high);
                    size(b, t);
                }
                None => b.push_nil(),
            }
            match limit {
                Some(limit) => {
                    expr(b, limit);
                    let t = type_of(b.table(), limit);
                    size(b, t);
                }
                None => b.push_nil(),
            }
            slice_of(b, *from);
        }
        CoreForm::Build {
            ty,
            count,
            elements,
        } => {
            let small = is_small(b, *ty, *count);
            if !small {
                begin_build(b, *ty, *count);
            }
            built(b, elements, small);
            if small {
                build_small(b, from, *ty, *count, elements.items.as_slice());
            }
            end_build(b, *ty, *count);
        }
        CoreForm::BuildMap { ty, pairs } => {
            paired(b, pairs);
            build_map(b, from, *ty);
        }
        CoreForm::Closure { func, .. } => closure(b, *func),
        CoreForm::Bind {
            method,
            receiver,
            ..
        } => {
            expr(b, receiver);
            bind_method(b, method);
        }
        CoreForm::BindDynamic {
            name,
            package,
            receiver,
            ..
        } => {
            expr(b, receiver);
            let t = type_of(b.table(), receiver);
            bind_dynamic(b, t, name, package);
        }
        CoreForm::Call {
            results,
            callee,
            operands,
        } => {
            match callee {
                Callee::Value(f) => expr(b, f),
                Callee::Dynamic { receiver, .. } => expr(b, receiver),
                _ => {}
            }
            exprs(b, &operands.items);
            let c = callee_of(b, callee);
            call(b, c, from, results.as_slice().len());
        }
        CoreForm::MapGet {
            map_type,
            with_ok,
            operand,
            key,
        } => {
            expr(b, operand);
            expr(b, key);
            map_get(b, *map_type, *with_ok);
        }
        CoreForm::Len { from, operand } => {
            expr(b, operand);
            match opened_of(b, *from, operand) {
                Some(parts) => opened_len(b, parts),
                None => len(b, *from),
            }
        }
        CoreForm::Cap { from, operand } => {
            expr(b, operand);
            cap(b, *from);
        }
        CoreForm::Append {
            ty,
            from,
            operand,
            elements,
        } => {
            expr(b, operand);
            expr(b, elements);
            append(b, *ty, *from);
        }
        CoreForm::CopyElems {
            ty,
            from,
            target,
            source,
        } => {
            expr(b, target);
            expr(b, source);
            copy_elems(b, *ty, *from);
        }
        CoreForm::MakeSlice {
            ty,
            length,
            capacity,
        } => {
            expr(b, length);
            let t = type_of(b.table(), length);
            size(b, t);
            match capacity {
                Some(capacity) => {
                    expr(b, capacity);
                    let t = type_of(b.table(), capacity);
                    size(b, t);
                }
                None => {
                    let n = b.last();
                    b.push_operand(n);
                }
            }
            make_slice(b, *ty);
        }
        CoreForm::MakeMap { count, .. } => match count {
            Some(count) => {
                expr(b, count);
                let t = type_of(b.table(), count);
                size(b, t);
                make_map_sized(b);
            }
            None => make_map(b),
        },
        CoreForm::MakeChan { capacity, .. } => {
            match capacity {
                Some(capacity) => {
                    expr(b, capacity);
                    let t = type_of(b.table(), capacity);
                    size(b, t);
                }
                None => b.push_number(0),
            }
            make_chan(b);
        }
        CoreForm::New { ty } => new_value(b, *ty),
        CoreForm::Wrap { from, operand, .. } => {
            expr(b, operand);
            wrap(b, *from);
        }
        CoreForm::Assert {
            ty,
            with_ok,
            operand,
        } => {
            expr(b, operand);
            assert_type(b, *ty, *with_ok);
        }
        CoreForm::Basic { operand, .. } => {
            expr(b, operand);
            basic(b);
        }
        CoreForm::Receive {
            channel,
            with_ok,
            operand,
        } => {
            expr(b, operand);
            receive(b, *channel, *with_ok);
        }
        CoreForm::Recover { .. } => recover(b),
        CoreForm::GateMake { pointer } => {
            expr(b, pointer);
            gate_make(b);
        }
        CoreForm::GateAdd { cell, number } => {
            expr(b, cell);
            expr(b, number);
            gate_add(b);
        }
        CoreForm::Let { vars, values, body } => {
            exprs(b, &values.items);
            let_in(b, from, vars.items.as_slice());
            expr(b, body);
        }
        _ => {}
    }
}

fn is_shift(op: Op) -> bool
    ensures { result ≡ is_shift op }
{
    match op {
        Op::Shl | Op::Shr => true,
        _ => false,
    }
}

// The count of a shift, where it is known.
fn known_count(op: Op, e: &CoreExpr) -> Option<i64>
    ensures { (ts : List Ty) → result ≡ known_count op (expr_view ts e.now) }
{
    if is_shift(op) {
        constant_count(e)
    } else {
        None
    }
}

// The last value, which this expression gave, as the count of a shift.
fn count_of(b: &mut Body<'_>, op: Op, e: &CoreExpr)
    ensures { RunsWhen b.old b.new (λ s. not (is_shift op)) (λ s. s) }
{
    if is_shift(op) {
        let t = type_of(b.table(), e);
        count(b, t);
    }
}

// The elements of what is built; each is stored after it has been evaluated, or stays on the stack.
#[cycle(expr)]
fn built<'p>(b: &mut Body<'p>, elements: &'p CoreElements, stay: bool) {
    for el in &elements.items {
        expr(b, &el.value);
        if !stay {
            set_element(b, el.index);
        }
    }
}

// The keys and values of a map, from left to right.
#[cycle(expr)]
fn paired<'p>(b: &mut Body<'p>, pairs: &'p CorePairs) {
    for pair in &pairs.items {
        expr(b, &pair.key);
        expr(b, &pair.value);
    }
}

/// A place, step by step; its operands stay on the stack.
#[cycle(expr)]
pub fn placed<'p>(b: &mut Body<'p>, p: &'p CorePlace) -> Spot {
    match &*p.form {
        PlaceForm::Local(v) => local_spot(b, *v),
        PlaceForm::Global(n) => global_spot(b, n.0),
        PlaceForm::Deref(e) => {
            expr(b, e);
            let o = b.last();
            let t = pointed(b.table(), e);
            deref_spot(b, t, o)
        }
        PlaceForm::Field {
            struct_type,
            number,
            place,
        } => {
            let base = placed(b, place);
            field_spot(b, *struct_type, *number, base)
        }
        PlaceForm::Elem {
            array_type,
            place,
            index,
        } => {
            let base = placed(b, place);
            expr(b, index);
            let i = b.last();
            let kind = index_kind(b, index);
            elem_spot(b, *array_type, base, kind, i)
        }
        PlaceForm::SliceElem {
            slice_type,
            operand,
            index,
        } => {
            expr(b, operand);
            let s = b.last();
            expr(b, index);
            let i = b.last();
            let kind = index_kind(b, index);
            match opened(b, operand) {
                Some(parts) => opened_elem_spot(b, *slice_type, parts, kind, i),
                None => slice_elem_spot(b, *slice_type, s, kind, i),
            }
        }
    }
}
