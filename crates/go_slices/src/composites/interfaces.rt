//! Interface values and the methods of what they hold.
//!
//! The Go Programming Language Specification (as of Go 1.17), "Interface types", "Type assertions",
//! "Method values", "Errors". The text of a panic's value is own.

ghost use Rattle.std.specs.Prelude.{◌≡◌, [], ◌∷◌, List, Some, option_map, slice_get, true};
ghost use Rattle.go_type.specs.Tree.{Ty, interface};
ghost use Rattle.go_type.specs.Underlying.{underlying};
ghost use Rattle.go_type.specs.Levels.{level, tree_of, trees_of, specs_of};
ghost use Rattle.go_type.specs.Table.{places, names};
ghost use Rattle.go_core.specs.CoreView.{program_view, method_of, func_view, method_row_view};
ghost use Rattle.go_core.specs.Did as did;
ghost use Rattle.go_core.specs.Layout.{shape_of};
ghost use Rattle.go_core.specs.Memory as core;
ghost use Rattle.go_core.specs.Memory.{packed};
ghost use Rattle.go_core.specs.SameType.{same_types};
ghost use Rattle.go_core.specs.StepInterfaces as defined;
ghost use Rattle.go_core.specs.StepMaps.{with_ok};
ghost use Rattle.go_values.specs.ValuesSeen.{scalar_of, value_of};
ghost use Rattle.go_values.specs.OperatorsSeen.{Does};
ghost use Rattle.go_slices.specs.CompositesFound.{HeldFound, asserted_else, is_basic};

use crate::maps::maps::with_ok;
use go_core::node::MethodName;
use go_core::program::{Func, MethodRow, Program};
use go_core::tree::FuncId;
use go_type::types::{GoType, MethodSpec, TypeId};
use go_values::operators::did::{
    Change, Context, Gives, Stop, Values, alone, gives_one, gives_value,
};
use go_values::operators::places::{weight_of, zeros_of};
use go_values::values::level::{level_at, same_type, underlying};
use go_values::values::run_panic::RunPanic;
use go_values::values::scalar::{Scalar, interface_value};

// Whether a row is that of the method of a type with a name and a package.
fn is_row(p: &Program, row: &MethodRow, t: TypeId, name: &[u8], package: &[u8]) -> bool
    ensures value { let ts = places p.now.types in result ≡ defined.is_row (record { type_ = tree_of ts t; name = name.now; package_ = «package».now }) (method_row_view ts row.now) }
{
    same_type(&p.types, t, row.ty)
        && row.name.as_bytes() == name
        && row.package.as_bytes() == package
}

/// The place of a method's row, by the type, the name and the package.
pub fn row_of(p: &Program, t: TypeId, name: &[u8], package: &[u8]) -> Option<u64>
    ensures value { let ts = places p.now.types in result ≡ defined.row_of (program_view p.now) (record { type_ = tree_of ts t; name = name.now; package_ = «package».now }) }
{
    'rows: for i in 0..p.methods.items.len() {
        if is_row(p, &p.methods.items[i], t, name, package) {
            return Some(i as u64);
        }
    }
    None
}

fn func_in(p: &Program, func: FuncId) -> Option<&Func>
    ensures value { option_map (λ f. func_view (places p.now.types) f.now) result ≡ slice_get (program_view p.now).funcs func.0 }
{
    p.funcs.items.as_slice().get(func.0 as usize)
}

/// The function of the method whose row stands at a place, if any.
pub fn func_of_row(p: &Program, row: Option<u64>) -> Option<&Func>
    ensures value { option_map (λ f. func_view (places p.now.types) f.now) result ≡ defined.func_of_row (program_view p.now) row }
{
    match row {
        Some(k) => func_of_place(p, k),
        None => None,
    }
}

// The function of the method whose row stands at a place.
fn func_of_place(p: &Program, k: u64) -> Option<&Func>
    ensures value { option_map (λ f. func_view (places p.now.types) f.now) result ≡ defined.func_of_row (program_view p.now) (Some k) }
{
    match p.methods.items.as_slice().get(k as usize) {
        Some(row) => func_in(p, row.func),
        None => None,
    }
}

// Whether two lists of types are identical.
fn same_ids(p: &Program, xs: &[TypeId], ys: &[TypeId]) -> bool
    ensures value { let ts = places p.now.types in result ≡ same_types (trees_of ts xs.now) (trees_of ts ys.now) }
{
    if xs.len() != ys.len() {
        return false;
    }
    'types: for i in 0..xs.len() {
        if !same_type(&p.types, xs[i], ys[i]) {
            return false;
        }
    }
    true
}

fn has_signature(
    p: &Program,
    params: &[TypeId],
    results: &[TypeId],
    variadic: bool,
    func: Option<&Func>,
) -> bool
    ensures value { let ts = places p.now.types in result ≡ defined.has_signature (trees_of ts params.now) (trees_of ts results.now) variadic (option_map (λ f. func_view ts f.now) func.entry) }
{
    match func {
        Some(f) => {
            same_ids(p, f.sig.params.as_slice(), params)
                && same_ids(p, f.sig.results.as_slice(), results)
                && f.sig.variadic == variadic
        }
        None => false,
    }
}

// Whether a type has a method of an interface.
fn has_method(p: &Program, t: TypeId, spec: &MethodSpec) -> bool
    ensures value { let ts = places p.now.types in result ≡ defined.has_signature (trees_of ts spec.now.sig.params) (trees_of ts spec.now.sig.results) spec.now.sig.variadic (defined.func_of_row (program_view p.now) (defined.row_of (program_view p.now) (record { type_ = tree_of ts t; name = spec.now.name; package_ = spec.now.package }))) }
{
    let row = row_of(p, t, spec.name.as_bytes(), spec.package.as_bytes());
    has_signature(
        p,
        spec.sig.params.as_slice(),
        spec.sig.results.as_slice(),
        spec.sig.variadic,
        func_of_row(p, row),
    )
}

/// Whether a type implements an interface with these methods.
pub fn implements(p: &Program, t: TypeId, specs: &[MethodSpec]) -> bool
    ensures value { let ts = places p.now.types in result ≡ defined.implements (program_view p.now) (tree_of ts t) (specs_of ts specs.now) }
{
    'specs: for i in 0..specs.len() {
        if !has_method(p, t, &specs[i]) {
            return false;
        }
    }
    true
}

// A zero, and that it isn't of the type.
fn none_of<'a>(c: &Context<'a>, to: TypeId) -> Result<Gives<'a>, Stop>
    ensures value { (m : core.Memory) → let ts = places c.now.table.now in Does ts m result (defined.failed true (shape_of (names c.now.table.now) (tree_of ts to)) m) }
{
    let zeros = zeros_of(c, to)?;
    let units = weight_of(c, to)?;
    let values = with_ok(c, true, false, zeros)?;
    Ok(Gives {
        values,
        change: Change::Same,
        units,
    })
}

fn failed<'a>(c: &Context<'a>, to: TypeId, ok: bool) -> Result<Gives<'a>, Stop>
    ensures value { (m : core.Memory) → let ts = places c.now.table.now in Does ts m result (defined.failed ok (shape_of (names c.now.table.now) (tree_of ts to)) m) }
{
    if ok {
        none_of(c, to)
    } else {
        Err(Stop::Panics {
            panic: RunPanic::WrongType,
            units: 0,
        })
    }
}

fn holds<'a>(
    c: &Context<'a>,
    ok: bool,
    value: &'a [Scalar<'a>],
    units: u64,
) -> Result<Gives<'a>, Stop>
    ensures value { (ts : List Ty) (m : core.Memory) → Does ts m result (did.gives (with_ok ok (value_of ts value.now) true) m units) }
{
    let values = with_ok(c, ok, true, value)?;
    Ok(Gives {
        values,
        change: Change::Same,
        units,
    })
}

// To an interface type with these methods, of an interface value that holds a value of the type `t`.
fn asserted_interface<'a>(
    c: &Context<'a>,
    p: &Program,
    to: TypeId,
    methods: &[MethodSpec],
    ok: bool,
    t: TypeId,
    content: &'a [Scalar<'a>],
) -> Result<Gives<'a>, Stop>
    requires { c.now.table.now ≡ p.now.types }
    ensures value { (m : core.Memory) → let ts = places p.now.types in Does ts m result (defined.asserted (program_view p.now) (tree_of ts to) (interface (specs_of ts methods.now)) ok (core.interface (tree_of ts t) (packed (value_of ts content.now))) m) }
{
    if implements(p, t, methods) {
        let value = alone(c, interface_value(t, content))?;
        holds(c, ok, value, 1)
    } else {
        failed(c, to, ok)
    }
}

// To any other type.
fn asserted_type<'a>(
    c: &Context<'a>,
    to: TypeId,
    ok: bool,
    t: TypeId,
    content: &'a [Scalar<'a>],
) -> Result<Gives<'a>, Stop>
    ensures value { (m : core.Memory) → let ts = places c.now.table.now in Does ts m result (asserted_else (names c.now.table.now) (tree_of ts to) ok (tree_of ts t) (value_of ts content.now) m) }
{
    if same_type(c.table, t, to) {
        let units = weight_of(c, to)?;
        holds(c, ok, content, units)
    } else {
        failed(c, to, ok)
    }
}

// To a type by the level of its underlying type.
fn asserted_at<'a>(
    c: &Context<'a>,
    p: &Program,
    to: TypeId,
    g: &GoType,
    ok: bool,
    t: TypeId,
    content: &'a [Scalar<'a>],
) -> Result<Gives<'a>, Stop>
    requires { c.now.table.now ≡ p.now.types }
    ensures value { (m : core.Memory) → let ts = places p.now.types in Does ts m result (defined.asserted (program_view p.now) (tree_of ts to) (level ts g.now) ok (core.interface (tree_of ts t) (packed (value_of ts content.now))) m) }
{
    match g {
        GoType::Interface(methods) => {
            asserted_interface(c, p, to, methods.as_slice(), ok, t, content)
        }
        _ => asserted_type(c, to, ok, t, content),
    }
}

fn asserted<'a>(
    c: &Context<'a>,
    p: &Program,
    to: TypeId,
    ok: bool,
    t: TypeId,
    content: &'a [Scalar<'a>],
) -> Result<Gives<'a>, Stop>
    requires { c.now.table.now ≡ p.now.types }
    ensures value { (m : core.Memory) → let ts = places p.now.types in Does ts m result (defined.asserted (program_view p.now) (tree_of ts to) (underlying (names p.now.types) (tree_of ts to)) ok (core.interface (tree_of ts t) (packed (value_of ts content.now))) m) }
{
    match level_at(c.table, underlying(c.table, to)) {
        Some(g) => asserted_at(c, p, to, g, ok, t, content),
        None => asserted_type(c, to, ok, t, content),
    }
}

/// What an interface value holds.
#[derive(Clone, Copy)]
pub struct Held<'a> {
    pub ty: TypeId,
    pub content: &'a [Scalar<'a>],
}

fn held_in<'a>(x: Scalar<'a>) -> Option<Held<'a>>
    ensures value { (ts : List Ty) → HeldFound ts result (scalar_of ts x.entry) }
{
    match x {
        Scalar::Interface { ty, content } => Some(Held { ty, content }),
        _ => None,
    }
}

fn asserted_scalar<'a>(
    c: &Context<'a>,
    p: &Program,
    to: TypeId,
    ok: bool,
    x: Scalar<'a>,
) -> Result<Gives<'a>, Stop>
    requires { c.now.table.now ≡ p.now.types }
    ensures value { (m : core.Memory) → let ts = places p.now.types in Does ts m result (defined.assert_step (program_view p.now) (tree_of ts to) ok (scalar_of ts x.entry ∷ []) m) }
{
    match held_in(x) {
        Some(held) => asserted(c, p, to, ok, held.ty, held.content),
        None => failed(c, to, ok),
    }
}

/// A type assertion: to a type that is no interface, the value of exactly that type.
pub fn assert_step<'a>(
    c: &Context<'a>,
    p: &Program,
    to: TypeId,
    ok: bool,
    x: &[Scalar<'a>],
) -> Result<Gives<'a>, Stop>
    requires { c.now.table.now ≡ p.now.types }
    ensures value { (m : core.Memory) → let ts = places p.now.types in Does ts m result (defined.assert_step (program_view p.now) (tree_of ts to) ok (value_of ts x.now) m) }
{
    match x {
        [x] => asserted_scalar(c, p, to, ok, *x),
        _ => Err(Stop::NoStep),
    }
}

/// An interface value of a value of the type.
pub fn wrap_step<'a>(c: &Context<'a>, from: TypeId, x: &'a [Scalar<'a>]) -> Result<Gives<'a>, Stop>
    ensures value { (m : core.Memory) → let ts = places c.now.table.now in Does ts m result (defined.wrap_step (names c.now.table.now) (tree_of ts from) (value_of ts x.now) m) }
{
    let units = weight_of(c, from)?;
    gives_one(c, interface_value(from, x), units)
}

// Whether a type is the predeclared boolean, an integer or the string type.
fn is_basic(c: &Context, t: TypeId) -> bool
    ensures value { result ≡ is_basic (tree_of (places c.now.table.now) t) }
{
    match level_at(c.table, t) {
        Some(g) => is_basic_level(g),
        None => true,
    }
}

fn is_basic_level(g: &GoType) -> bool
    ensures value { (ts : List Ty) → result ≡ is_basic (level ts g.now) }
{
    match g {
        GoType::Bool => true,
        GoType::Int(_) => true,
        GoType::Str => true,
        _ => false,
    }
}

// The predeclared type of a named boolean, integer or string type (own).
fn basic_type(c: &Context, t: TypeId) -> TypeId
    ensures value { let ts = places c.now.table.now in tree_of ts result ≡ defined.basic_type (tree_of ts t) (underlying (names c.now.table.now) (tree_of ts t)) }
{
    let under = underlying(c.table, t);
    if is_basic(c, under) { under } else { t }
}

fn basic_interface<'a>(
    c: &Context<'a>,
    t: TypeId,
    content: &'a [Scalar<'a>],
) -> Result<Gives<'a>, Stop>
    ensures value { (m : core.Memory) → let ts = places c.now.table.now in Does ts m result (defined.basic_step (names c.now.table.now) (core.interface (tree_of ts t) (packed (value_of ts content.now)) ∷ []) m) }
{
    let units = weight_of(c, t)?;
    gives_one(c, interface_value(basic_type(c, t), content), units)
}

fn basic_scalar<'a>(c: &Context<'a>, x: Scalar<'a>) -> Result<Gives<'a>, Stop>
    ensures value { (m : core.Memory) → let ts = places c.now.table.now in Does ts m result (defined.basic_step (names c.now.table.now) (scalar_of ts x.entry ∷ []) m) }
{
    match held_in(x) {
        Some(held) => basic_interface(c, held.ty, held.content),
        None => gives_one(c, x, 1),
    }
}

/// An interface value with the predeclared type of what it holds (own).
pub fn basic_step<'a>(c: &Context<'a>, x: &'a [Scalar<'a>]) -> Result<Gives<'a>, Stop>
    ensures value { (m : core.Memory) → let ts = places c.now.table.now in Does ts m result (defined.basic_step (names c.now.table.now) (value_of ts x.now) m) }
{
    match x {
        [x] => basic_scalar(c, *x),
        _ => Ok(gives_value(x, 1)),
    }
}

fn bound_or_not<'a>(
    c: &Context<'a>,
    units: u64,
    receiver: &'a [Scalar<'a>],
    row: Option<u64>,
) -> Result<Gives<'a>, Stop>
    ensures value { (ts : List Ty) (m : core.Memory) → Does ts m result (defined.bound_or_not m units (value_of ts receiver.now) row) }
{
    match row {
        Some(row) => gives_one(c, Scalar::BoundMethod { row, receiver }, units),
        None => Err(Stop::NoStep),
    }
}

/// A method value: the receiver is copied.
pub fn bind_step<'a>(
    c: &Context<'a>,
    p: &Program,
    method: &MethodName,
    x: &'a [Scalar<'a>],
) -> Result<Gives<'a>, Stop>
    requires { c.now.table.now ≡ p.now.types }
    ensures value { (m : core.Memory) → let ts = places p.now.types in Does ts m result (defined.bind_step (program_view p.now) (method_of ts method.now) (value_of ts x.now) m) }
{
    let units = weight_of(c, method.ty)?;
    let row = row_of(
        p,
        method.ty,
        method.name.as_bytes(),
        method.package.as_bytes(),
    );
    bound_or_not(c, units, x, row)
}

fn bound_dynamic<'a>(
    c: &Context<'a>,
    p: &Program,
    name: &[u8],
    package: &[u8],
    x: Scalar<'a>,
) -> Result<Gives<'a>, Stop>
    requires { c.now.table.now ≡ p.now.types }
    ensures value { (m : core.Memory) → let ts = places p.now.types in Does ts m result (defined.bind_dynamic_step (program_view p.now) name.now «package».now (scalar_of ts x.entry ∷ []) m) }
{
    match x {
        Scalar::Interface { ty, content } => {
            let units = weight_of(c, ty)?;
            let row = row_of(p, ty, name, package);
            bound_or_not(c, units, content, row)
        }
        Scalar::Nil => Err(Stop::Panics {
            panic: RunPanic::NilUsed,
            units: 0,
        }),
        _ => Err(Stop::NoStep),
    }
}

/// A method value of an interface value: what it holds is copied; a nil one has no method.
pub fn bind_dynamic_step<'a>(
    c: &Context<'a>,
    p: &Program,
    name: &[u8],
    package: &[u8],
    x: &[Scalar<'a>],
) -> Result<Gives<'a>, Stop>
    requires { c.now.table.now ≡ p.now.types }
    ensures value { (m : core.Memory) → let ts = places p.now.types in Does ts m result (defined.bind_dynamic_step (program_view p.now) name.now «package».now (value_of ts x.now) m) }
{
    match x {
        [x] => bound_dynamic(c, p, name, package, *x),
        _ => Err(Stop::NoStep),
    }
}
