//! Expressions and places, opened one level.
//!
//! The Go Programming Language Specification (as of Go 1.17), "Order of evaluation": own: strictly
//! from left to right.

ghost use Rattle.std.specs.Prelude.{◌≡◌, ◌<◌, List, option_map};
ghost use Rattle.go_type.specs.Tree.{Ty};
ghost use Rattle.go_core.specs.CoreView.{expr_view, place_view, callee_view, bound_of};
ghost use Rattle.go_core.specs.Goroutine as task;
ghost use Rattle.go_core.specs.Opened.{evaluated, placed, bound_first, callee_first, operands_first};
ghost use Rattle.go_state.specs.TasksSeen.{first_of, pieces_first, bounds_first};
ghost use Rattle.go_state.specs.Weight.{weight, pieces_weight, expr_weight, place_weight, bound_weight, bounds_weight, callee_weight};

use crate::tasks::task::ExprTask::{Apply, Bounds, Evaluate};
use crate::tasks::task::PlaceTask::{self, Find, Operands};
use crate::tasks::task::Task::{All, Elements, Expr, Nothing, Pairs, Place};
use crate::tasks::task::{Pieces, Task};
use go_core::node::{Callee, CoreExpr, CoreForm, CorePlace, PlaceForm};

// A bound, if there is one.
fn bounded<'p>(bound: &'p Option<CoreExpr>) -> Task<'p>
    ensures value { (ts : List Ty) (rest : List task.Task) → first_of ts result rest ≡ bound_first (bound_of (option_map (expr_view ts) bound.now)) rest }
    ensures weighs { (ts : List Ty) → weight ts result ≡ bound_weight (bound_of (option_map (expr_view ts) bound.now)) }
{
    match bound {
        Some(e) => Expr(Evaluate, e),
        None => Nothing,
    }
}

/// An expression: its operands, and then what it does itself.
pub fn open_expr<'p>(e: &'p CoreExpr) -> Pieces<'p>
    ensures value { (ts : List Ty) (rest : List task.Task) → pieces_first ts result rest ≡ evaluated (expr_view ts e.now) rest }
    ensures smaller { (ts : List Ty) → pieces_weight ts result < expr_weight (expr_view ts e.now) }
{
    let own = Expr(Apply, e);
    match &*e.form {
        CoreForm::Const { .. } => Pieces(own, Nothing, Nothing),
        CoreForm::Zero { .. } => Pieces(own, Nothing, Nothing),
        CoreForm::Read { place, .. } => Pieces(Place(Find, place), own, Nothing),
        CoreForm::Address { place, .. } => Pieces(Place(Find, place), own, Nothing),
        CoreForm::Unary { operand, .. } => Pieces(Expr(Evaluate, operand), own, Nothing),
        CoreForm::Binary { left, right, .. } => Pieces(
            Expr(Evaluate, left),
            Expr(Evaluate, right),
            own,
        ),
        CoreForm::Concat { left, right, .. } => Pieces(
            Expr(Evaluate, left),
            Expr(Evaluate, right),
            own,
        ),
        CoreForm::Equal { left, right, .. } => Pieces(
            Expr(Evaluate, left),
            Expr(Evaluate, right),
            own,
        ),
        CoreForm::Less { left, right, .. } => Pieces(
            Expr(Evaluate, left),
            Expr(Evaluate, right),
            own,
        ),
        CoreForm::AndThen { left, .. } => Pieces(Expr(Evaluate, left), own, Nothing),
        CoreForm::OrElse { left, .. } => Pieces(Expr(Evaluate, left), own, Nothing),
        CoreForm::Not { operand, .. } => Pieces(Expr(Evaluate, operand), own, Nothing),
        CoreForm::Convert { operand, .. } => Pieces(Expr(Evaluate, operand), own, Nothing),
        CoreForm::ByteAt { text, index } => Pieces(
            Expr(Evaluate, text),
            Expr(Evaluate, index),
            own,
        ),
        CoreForm::SliceOf { operand, .. } => Pieces(Expr(Evaluate, operand), Expr(Bounds, e), own),
        CoreForm::Build { elements, .. } => Pieces(Elements(elements, 0), own, Nothing),
        CoreForm::BuildMap { pairs, .. } => Pieces(Pairs(pairs, 0), own, Nothing),
        CoreForm::Closure { .. } => Pieces(own, Nothing, Nothing),
        CoreForm::Bind { receiver, .. } => Pieces(Expr(Evaluate, receiver), own, Nothing),
        CoreForm::BindDynamic { receiver, .. } => Pieces(Expr(Evaluate, receiver), own, Nothing),
        CoreForm::Call {
            callee,
            operands,
            ..
        } => Pieces(Task::Callee(callee), All(operands, 0), own),
        CoreForm::MapGet { operand, key, .. } => Pieces(
            Expr(Evaluate, operand),
            Expr(Evaluate, key),
            own,
        ),
        CoreForm::Len { operand, .. } => Pieces(Expr(Evaluate, operand), own, Nothing),
        CoreForm::Cap { operand, .. } => Pieces(Expr(Evaluate, operand), own, Nothing),
        CoreForm::Append {
            operand,
            elements,
            ..
        } => Pieces(Expr(Evaluate, operand), Expr(Evaluate, elements), own),
        CoreForm::CopyElems { target, source, .. } => Pieces(
            Expr(Evaluate, target),
            Expr(Evaluate, source),
            own,
        ),
        CoreForm::MakeSlice {
            length,
            capacity,
            ..
        } => Pieces(Expr(Evaluate, length), bounded(capacity), own),
        CoreForm::MakeMap { count, .. } => Pieces(bounded(count), own, Nothing),
        CoreForm::MakeChan { capacity, .. } => Pieces(bounded(capacity), own, Nothing),
        CoreForm::New { .. } => Pieces(own, Nothing, Nothing),
        CoreForm::Wrap { operand, .. } => Pieces(Expr(Evaluate, operand), own, Nothing),
        CoreForm::Assert { operand, .. } => Pieces(Expr(Evaluate, operand), own, Nothing),
        CoreForm::Basic { operand, .. } => Pieces(Expr(Evaluate, operand), own, Nothing),
        CoreForm::Receive { operand, .. } => Pieces(Expr(Evaluate, operand), own, Nothing),
        CoreForm::Recover { .. } => Pieces(own, Nothing, Nothing),
        CoreForm::GateMake { pointer } => Pieces(Expr(Evaluate, pointer), own, Nothing),
        CoreForm::GateAdd { cell, number } => Pieces(
            Expr(Evaluate, cell),
            Expr(Evaluate, number),
            own,
        ),
        CoreForm::Let { values, body, .. } => Pieces(All(values, 0), own, Expr(Evaluate, body)),
    }
}

/// The bounds of a slice expression; of any other nothing.
pub fn open_bounds<'p>(e: &'p CoreExpr) -> Pieces<'p>
    ensures value { (ts : List Ty) (rest : List task.Task) → pieces_first ts result rest ≡ bounds_first (expr_view ts e.now) rest }
    ensures smaller { (ts : List Ty) → pieces_weight ts result < bounds_weight (expr_view ts e.now) }
{
    match &*e.form {
        CoreForm::SliceOf {
            low,
            high,
            limit,
            ..
        } => Pieces(bounded(low), bounded(high), bounded(limit)),
        _ => Pieces(Nothing, Nothing, Nothing),
    }
}

/// A place: its operands, and then what it does itself.
pub fn open_place<'p>(place: &'p CorePlace) -> Pieces<'p>
    ensures value { (ts : List Ty) (rest : List task.Task) → pieces_first ts result rest ≡ placed (place_view ts place.now) rest }
    ensures smaller { (ts : List Ty) → pieces_weight ts result < place_weight (place_view ts place.now) }
{
    let own = Place(PlaceTask::Apply, place);
    match &*place.form {
        PlaceForm::Local(_) => Pieces(own, Nothing, Nothing),
        PlaceForm::Global(_) => Pieces(own, Nothing, Nothing),
        PlaceForm::Deref(e) => Pieces(Expr(Evaluate, e), own, Nothing),
        PlaceForm::Field { place: outer, .. } => Pieces(Place(Find, outer), own, Nothing),
        PlaceForm::Elem {
            place: outer,
            index,
            ..
        } => Pieces(Place(Find, outer), Expr(Evaluate, index), own),
        PlaceForm::SliceElem { operand, index, .. } => Pieces(
            Expr(Evaluate, operand),
            Expr(Evaluate, index),
            own,
        ),
    }
}

/// The operands of a left side: its checks come in the second phase of the assignment.
pub fn open_operands<'p>(place: &'p CorePlace) -> Pieces<'p>
    ensures value { (ts : List Ty) (rest : List task.Task) → pieces_first ts result rest ≡ operands_first (place_view ts place.now) rest }
    ensures smaller { (ts : List Ty) → pieces_weight ts result < place_weight (place_view ts place.now) }
{
    match &*place.form {
        PlaceForm::Local(_) => Pieces(Nothing, Nothing, Nothing),
        PlaceForm::Global(_) => Pieces(Nothing, Nothing, Nothing),
        PlaceForm::Deref(e) => Pieces(Expr(Evaluate, e), Nothing, Nothing),
        PlaceForm::Field { place: outer, .. } => Pieces(Place(Operands, outer), Nothing, Nothing),
        PlaceForm::Elem {
            place: outer,
            index,
            ..
        } => Pieces(Place(Operands, outer), Expr(Evaluate, index), Nothing),
        PlaceForm::SliceElem { operand, index, .. } => Pieces(
            Expr(Evaluate, operand),
            Expr(Evaluate, index),
            Nothing,
        ),
    }
}

/// The value that is called, if any.
pub fn open_callee<'p>(callee: &'p Callee) -> Pieces<'p>
    ensures value { (ts : List Ty) (rest : List task.Task) → pieces_first ts result rest ≡ callee_first (callee_view ts callee.now) rest }
    ensures smaller { (ts : List Ty) → pieces_weight ts result < callee_weight (callee_view ts callee.now) }
{
    match callee {
        Callee::Function(_) => Pieces(Nothing, Nothing, Nothing),
        Callee::Method(_) => Pieces(Nothing, Nothing, Nothing),
        Callee::Value(e) => Pieces(Expr(Evaluate, e), Nothing, Nothing),
        Callee::Dynamic {
            name: _,
            package: _,
            receiver,
        } => Pieces(Expr(Evaluate, receiver), Nothing, Nothing),
    }
}
