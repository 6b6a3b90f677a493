//! What is called.
//!
//! The Go Programming Language Specification (as of Go 1.17), "Calls", "Method values", "Function
//! types", "Interface types".

ghost use Rattle.std.specs.Prelude.{◌≡◌, [], ◌∷◌, List, Some, IfOk};
ghost use Rattle.go_type.specs.Tree.{Ty};
ghost use Rattle.go_type.specs.Table.{places};
ghost use Rattle.go_core.specs.Calls as calls;
ghost use Rattle.go_core.specs.CoreView.{callee_view, func_view, method_of, program_view};
ghost use Rattle.go_core.specs.Goroutine as defined;
ghost use Rattle.go_core.specs.Opened as opened;
ghost use Rattle.go_values.specs.ValuesSeen.{scalar_of, value_of, values_of};
ghost use Rattle.go_state.specs.StateSeen.{places_of};
ghost use Rattle.go_entries.specs.EntriesSeen.{called_of, resolved_of};

use gj_base::{NoMemory, Text};
use go_core::node::{Callee, MethodName};
use go_core::program::{Func, Program};
use go_core::tree::FuncId;
use go_slices::composites::interfaces::row_of;
use go_state::bindings::captured::bases_of;
use go_state::state::frame::Place;
use go_values::operators::did::Context;
use go_values::values::scalar::Scalar;

/// What is called, where its operands have been evaluated.
#[derive(Clone, Copy)]
pub enum Called<'p> {
    Function(FuncId),
    Method(&'p MethodName),
    /// The first value is the function.
    Value,
    /// The first value is the interface value.
    Dynamic { name: &'p Text, package: &'p Text },
}

/// What is called, of a call in the program's text.
pub fn called_by(callee: &Callee) -> Called
    ensures value { (ts : List Ty) → called_of ts result ≡ opened.called_of (callee_view ts callee.now) }
{
    match callee {
        Callee::Function(func) => Called::Function(*func),
        Callee::Method(name) => Called::Method(name),
        Callee::Value(_) => Called::Value,
        Callee::Dynamic {
            name,
            package,
            receiver: _,
        } => Called::Dynamic { name, package },
    }
}

/// A function with the bases that it captured, the place of the method's row where it is one's, and
/// its operands.
#[derive(Clone, Copy)]
pub struct Ready<'a> {
    pub func: u64,
    pub bases: &'a [u64],
    pub row: Option<u64>,
    pub operands: &'a [&'a [Scalar<'a>]],
}

/// What is called.
#[derive(Clone, Copy)]
pub enum Resolved<'a> {
    Ready(Ready<'a>),
    NilFunction,
    NilInterface,
    /// No run of a sound program comes here.
    Unresolved,
}

// Operands that outlive their step.
fn held<'a>(c: &Context<'a>, xs: &[&'a [Scalar<'a>]]) -> Result<&'a [&'a [Scalar<'a>]], NoMemory>
    ensures value { IfOk result (λ vs. vs.now ≡ xs.now) }
{
    let vs: &'a [&'a [Scalar<'a>]] = c.arena.try_alloc_slice_copy(xs)?;
    Ok(vs)
}

// A receiver before other operands.
fn with_first<'a>(
    c: &Context<'a>,
    first: &'a [Scalar<'a>],
    others: &[&'a [Scalar<'a>]],
) -> Result<&'a [&'a [Scalar<'a>]], NoMemory>
    ensures value { IfOk result (λ vs. (ts : List Ty) → values_of ts vs.now ≡ value_of ts first.now ∷ values_of ts others.now) }
{
    let mut operands = Vec::new(c.alloc);
    operands.push(first)?;
    operands.extend_from_slice(others)?;
    let vs = held(c, operands.as_slice())?;
    Ok(vs)
}

// ---- a function by its number

fn function_at<'a>(
    c: &Context<'a>,
    func: FuncId,
    f: &Func,
    at: &[Place],
    vs: &[&'a [Scalar<'a>]],
) -> Result<Resolved<'a>, NoMemory>
    ensures value { IfOk result (λ r. (ts : List Ty) → resolved_of ts r ≡ calls.function_with func.0 (values_of ts vs.now) (calls.bases_of (func_view ts f.now).captured (places_of at.now))) }
{
    let found = bases_of(c, f.captured.items.as_slice(), at)?;
    match found {
        Some(bases) => {
            let operands = held(c, vs)?;
            Ok(Resolved::Ready(Ready {
                func: func.0 as u64,
                bases,
                row: None,
                operands,
            }))
        }
        None => Ok(Resolved::Unresolved),
    }
}

fn function<'a>(
    c: &Context<'a>,
    p: &Program,
    func: FuncId,
    at: &[Place],
    vs: &[&'a [Scalar<'a>]],
) -> Result<Resolved<'a>, NoMemory>
    ensures value { IfOk result (λ r. let ts = places p.now.types in resolved_of ts r ≡ calls.resolved (program_view p.now) (defined.the_function func.0) (places_of at.now) (values_of ts vs.now)) }
{
    match p.funcs.items.as_slice().get(func.0 as usize) {
        Some(f) => function_at(c, func, f, at, vs),
        None => Ok(Resolved::Unresolved),
    }
}

// ---- a method by its row

fn method_at<'a>(p: &Program, k: u64, operands: &'a [&'a [Scalar<'a>]]) -> Resolved<'a>
    ensures value { (ts : List Ty) → resolved_of ts result ≡ calls.method_with (program_view p.now) (values_of ts operands.now) (Some k) }
{
    match p.methods.items.as_slice().get(k as usize) {
        Some(found) => Resolved::Ready(Ready {
            func: found.func.0 as u64,
            bases: &[],
            row: Some(k),
            operands,
        }),
        None => Resolved::Unresolved,
    }
}

fn method<'a>(p: &Program, row: Option<u64>, operands: &'a [&'a [Scalar<'a>]]) -> Resolved<'a>
    ensures value { (ts : List Ty) → resolved_of ts result ≡ calls.method_with (program_view p.now) (values_of ts operands.now) row }
{
    match row {
        Some(k) => method_at(p, k, operands),
        None => Resolved::Unresolved,
    }
}

fn named<'a>(
    c: &Context<'a>,
    p: &Program,
    name: &MethodName,
    vs: &[&'a [Scalar<'a>]],
) -> Result<Resolved<'a>, NoMemory>
    ensures value { IfOk result (λ r. (at : List defined.Place) → let ts = places p.now.types in resolved_of ts r ≡ calls.resolved (program_view p.now) (defined.the_method (method_of ts name.now)) at (values_of ts vs.now)) }
{
    let row = row_of(p, name.ty, name.name.as_bytes(), name.package.as_bytes());
    let operands = held(c, vs)?;
    Ok(method(p, row, operands))
}

// ---- a function value

fn value_in<'a>(
    c: &Context<'a>,
    p: &Program,
    x: Scalar<'a>,
    vs: &[&'a [Scalar<'a>]],
) -> Result<Resolved<'a>, NoMemory>
    ensures value { IfOk result (λ r. (ts : List Ty) (at : List defined.Place) → resolved_of ts r ≡ calls.resolved (program_view p.now) defined.the_value at ((scalar_of ts x.entry ∷ []) ∷ values_of ts vs.now)) }
{
    match x {
        Scalar::Function { func, bases } => {
            let operands = held(c, vs)?;
            Ok(Resolved::Ready(Ready {
                func,
                bases,
                row: None,
                operands,
            }))
        }
        Scalar::BoundMethod { row, receiver } => {
            let operands = with_first(c, receiver, vs)?;
            Ok(method_at(p, row, operands))
        }
        Scalar::Nil => Ok(Resolved::NilFunction),
        _ => Ok(Resolved::Unresolved),
    }
}

fn value_first<'a>(
    c: &Context<'a>,
    p: &Program,
    first: &[Scalar<'a>],
    vs: &[&'a [Scalar<'a>]],
) -> Result<Resolved<'a>, NoMemory>
    ensures value { IfOk result (λ r. (ts : List Ty) (at : List defined.Place) → resolved_of ts r ≡ calls.resolved (program_view p.now) defined.the_value at (value_of ts first.now ∷ values_of ts vs.now)) }
{
    match first {
        [x] => value_in(c, p, *x, vs),
        _ => Ok(Resolved::Unresolved),
    }
}

fn value<'a>(
    c: &Context<'a>,
    p: &Program,
    vs: &[&'a [Scalar<'a>]],
) -> Result<Resolved<'a>, NoMemory>
    ensures value { IfOk result (λ r. (ts : List Ty) (at : List defined.Place) → resolved_of ts r ≡ calls.resolved (program_view p.now) defined.the_value at (values_of ts vs.now)) }
{
    match vs.split_first() {
        Some((first, others)) => value_first(c, p, first, others),
        None => Ok(Resolved::Unresolved),
    }
}

// ---- a method of an interface value

fn dynamic_in<'a>(
    c: &Context<'a>,
    p: &Program,
    name: &[u8],
    package: &[u8],
    x: Scalar<'a>,
    vs: &[&'a [Scalar<'a>]],
) -> Result<Resolved<'a>, NoMemory>
    ensures value { IfOk result (λ r. (at : List defined.Place) → let ts = places p.now.types in resolved_of ts r ≡ calls.resolved (program_view p.now) (defined.the_dynamic name.now «package».now) at ((scalar_of ts x.entry ∷ []) ∷ values_of ts vs.now)) }
{
    match x {
        Scalar::Interface { ty, content } => {
            let operands = with_first(c, content, vs)?;
            let row = row_of(p, ty, name, package);
            Ok(method(p, row, operands))
        }
        Scalar::Nil => Ok(Resolved::NilInterface),
        _ => Ok(Resolved::Unresolved),
    }
}

fn dynamic_first<'a>(
    c: &Context<'a>,
    p: &Program,
    name: &[u8],
    package: &[u8],
    first: &[Scalar<'a>],
    vs: &[&'a [Scalar<'a>]],
) -> Result<Resolved<'a>, NoMemory>
    ensures value { IfOk result (λ r. (at : List defined.Place) → let ts = places p.now.types in resolved_of ts r ≡ calls.resolved (program_view p.now) (defined.the_dynamic name.now «package».now) at (value_of ts first.now ∷ values_of ts vs.now)) }
{
    match first {
        [x] => dynamic_in(c, p, name, package, *x, vs),
        _ => Ok(Resolved::Unresolved),
    }
}

fn dynamic<'a>(
    c: &Context<'a>,
    p: &Program,
    name: &[u8],
    package: &[u8],
    vs: &[&'a [Scalar<'a>]],
) -> Result<Resolved<'a>, NoMemory>
    ensures value { IfOk result (λ r. (at : List defined.Place) → let ts = places p.now.types in resolved_of ts r ≡ calls.resolved (program_view p.now) (defined.the_dynamic name.now «package».now) at (values_of ts vs.now)) }
{
    match vs.split_first() {
        Some((first, others)) => dynamic_first(c, p, name, package, first, others),
        None => Ok(Resolved::Unresolved),
    }
}

/// What is called with these operands, from the left.
pub fn resolve<'a>(
    c: &Context<'a>,
    p: &Program,
    called: Called,
    at: &[Place],
    vs: &[&'a [Scalar<'a>]],
) -> Result<Resolved<'a>, NoMemory>
    ensures value { IfOk result (λ r. let ts = places p.now.types in resolved_of ts r ≡ calls.resolved (program_view p.now) (called_of ts called.entry) (places_of at.now) (values_of ts vs.now)) }
{
    match called {
        Called::Function(func) => function(c, p, func, at, vs),
        Called::Method(name) => named(c, p, name, vs),
        Called::Value => value(c, p, vs),
        Called::Dynamic { name, package } => {
            dynamic(c, p, name.as_bytes(), package.as_bytes(), vs)
        }
    }
}
