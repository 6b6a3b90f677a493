//! Receivers: the function of a method's row may take the value where the row's type is its
//! pointer, or the pointer where the row's type is the value.
//!
//! The Go Programming Language Specification (as of Go 1.17), "Method sets", "Calls".

ghost use Rattle.std.specs.Prelude.{◌≡◌, ◌∷◌, List, Some, None, IfOk, option_map};
ghost use Rattle.go_type.specs.Tree.{pointer};
ghost use Rattle.go_type.specs.Levels.{level, tree_of};
ghost use Rattle.go_type.specs.Table.{places, names};
ghost use Rattle.go_core.specs.Calls as calls;
ghost use Rattle.go_core.specs.CoreTree as core;
ghost use Rattle.go_core.specs.CoreView.{method_row_view, program_view, var_of};
ghost use Rattle.go_core.specs.SameType.{same_type};
ghost use Rattle.go_values.specs.ValuesSeen.{values_of, memory_of};
ghost use Rattle.go_state.specs.StateSeen.{vars_of};
ghost use Rattle.go_entries.specs.EntriesSeen.{receiver_of, adapted_of};

use gj_base::NoMemory;
use go_core::node::Var;
use go_core::program::{MethodRow, Program};
use go_type::TypeTable;
use go_type::types::{GoType, TypeId};
use go_values::operators::did::{Context, alone};
use go_values::operators::places::zeros_of;
use go_values::values::level::{level_at, same_type};
use go_values::values::memory::Memory;
use go_values::values::scalar::Scalar;

/// How a receiver is taken.
#[derive(Clone, Copy)]
pub enum Receiver {
    AsItIs,
    /// Read through the pointer, as the new frame's first step.
    Through(Var),
    /// As a pointer to a fresh copy.
    ToACopy,
}

fn level_points_to(table: &TypeTable, g: &GoType, target: TypeId) -> bool
    ensures value { let ts = places table.now in result ≡ same_type (level ts g.now) (pointer (tree_of ts target)) }
{
    match g {
        GoType::Pointer(found) => same_type(table, *found, target),
        _ => false,
    }
}

// Whether it is the pointer to a type.
fn points_to(table: &TypeTable, t: TypeId, target: TypeId) -> bool
    ensures value { let ts = places table.now in result ≡ same_type (tree_of ts t) (pointer (tree_of ts target)) }
{
    match level_at(table, t) {
        Some(g) => level_points_to(table, g, target),
        None => false,
    }
}

// How a receiver of a row's type is taken for a variable.
fn taken_as(table: &TypeTable, row: &MethodRow, var: Var) -> Receiver
    ensures value { (others : List core.Var) → let ts = places table.now in receiver_of ts result ≡ calls.receiver_of (Some (method_row_view ts row.now)) (var_of ts var ∷ others) }
{
    if points_to(table, row.ty, var.ty) {
        return Receiver::Through(var);
    }
    if points_to(table, var.ty, row.ty) {
        return Receiver::ToACopy;
    }
    Receiver::AsItIs
}

fn taken_by(table: &TypeTable, row: &MethodRow, vars: &[Var]) -> Receiver
    ensures value { let ts = places table.now in receiver_of ts result ≡ calls.receiver_of (Some (method_row_view ts row.now)) (vars_of ts vars.now) }
{
    match vars.split_first() {
        Some((var, _)) => taken_as(table, row, *var),
        None => Receiver::AsItIs,
    }
}

fn row_in(p: &Program, row: u64) -> Option<&MethodRow>
    ensures value { option_map (λ r. method_row_view (places p.now.types) r.now) result ≡ calls.row_at (program_view p.now) (Some row) }
{
    p.methods.items.as_slice().get(row as usize)
}

fn taken_in(p: &Program, row: u64, vars: &[Var]) -> Receiver
    ensures value { let ts = places p.now.types in receiver_of ts result ≡ calls.receiver_of (calls.row_at (program_view p.now) (Some row)) (vars_of ts vars.now) }
{
    match row_in(p, row) {
        Some(row) => taken_by(&p.types, row, vars),
        None => Receiver::AsItIs,
    }
}

/// How the receiver of a method is taken, by the place of its row and the function's variables.
pub fn receiver_for(p: &Program, row: Option<u64>, vars: &[Var]) -> Receiver
    ensures value { let ts = places p.now.types in receiver_of ts result ≡ calls.receiver_of (calls.row_at (program_view p.now) row) (vars_of ts vars.now) }
{
    match row {
        Some(row) => taken_in(p, row, vars),
        None => Receiver::AsItIs,
    }
}

/// What was given as the receiver, and the variable that takes what lies there.
#[derive(Clone, Copy)]
pub struct First<'a> {
    pub pointer: &'a [Scalar<'a>],
    pub var: Var,
}

/// Operands as a function takes them, and what its frame reads first: what was given as the
/// receiver, and the variable that takes it.
#[derive(Drop)]
pub struct Adapted<'a> {
    pub operands: Vec<&'a [Scalar<'a>]>,
    pub first: Option<First<'a>>,
}

// Operands with another receiver.
fn with_receiver<'a>(
    c: &Context<'a>,
    receiver: &'a [Scalar<'a>],
    others: &[&'a [Scalar<'a>]],
    first: Option<First<'a>>,
) -> Result<Adapted<'a>, NoMemory>
    ensures value { IfOk result (λ a. a.operands.items ≡ receiver.entry ∷ others.now) }
    ensures first { IfOk result (λ a. a.first ≡ first.entry) }
{
    let mut operands = Vec::new(c.alloc);
    operands.push(receiver)?;
    operands.extend_from_slice(others)?;
    Ok(Adapted { operands, first })
}

fn as_they_are<'a>(c: &Context<'a>, operands: &[&'a [Scalar<'a>]]) -> Result<Adapted<'a>, NoMemory>
    ensures value { IfOk result (λ a. a.operands.items ≡ operands.now) }
    ensures first { IfOk result (λ a. a.first ≡ None) }
{
    let mut copy = Vec::new(c.alloc);
    copy.extend_from_slice(operands)?;
    Ok(Adapted {
        operands: copy,
        first: None,
    })
}

// Read through the pointer by the new frame; until then the variable is zero.
fn read_through<'a>(
    c: &Context<'a>,
    var: Var,
    operands: &[&'a [Scalar<'a>]],
    m: &Memory<'a>,
) -> Result<Adapted<'a>, NoMemory>
    ensures value { IfOk result (λ a. let ts = places c.now.table.now in adapted_of ts a m.now ≡ calls.adapted (names c.now.table.now) (calls.through (var_of ts var)) (values_of ts operands.now) (memory_of ts m.now)) }
{
    match operands.split_first() {
        Some((x, others)) => {
            let zeros = zeros_of(c, var.ty)?;
            let first = First { pointer: *x, var };
            let adapted = with_receiver(c, zeros, others, Some(first))?;
            Ok(adapted)
        }
        None => {
            let adapted = as_they_are(c, operands)?;
            Ok(adapted)
        }
    }
}

// As a pointer to a fresh copy.
fn copied<'a>(
    c: &Context<'a>,
    operands: &[&'a [Scalar<'a>]],
    m: &mut Memory<'a>,
) -> Result<Adapted<'a>, NoMemory>
    ensures value { IfOk result (λ a. let ts = places c.now.table.now in adapted_of ts a m.new ≡ calls.adapted (names c.now.table.now) calls.to_a_copy (values_of ts operands.now) (memory_of ts m.old)) }
{
    match operands.split_first() {
        Some((x, others)) => {
            let base = m.next_base();
            let pointer = alone(c, Scalar::Pointer(base))?;
            m.add_fresh(*x)?;
            let adapted = with_receiver(c, pointer, others, None)?;
            Ok(adapted)
        }
        None => {
            let adapted = as_they_are(c, operands)?;
            Ok(adapted)
        }
    }
}

/// The operands as the function takes them.
pub fn adapt<'a>(
    c: &Context<'a>,
    receiver: Receiver,
    operands: &[&'a [Scalar<'a>]],
    m: &mut Memory<'a>,
) -> Result<Adapted<'a>, NoMemory>
    ensures value { IfOk result (λ a. let ts = places c.now.table.now in adapted_of ts a m.new ≡ calls.adapted (names c.now.table.now) (receiver_of ts receiver) (values_of ts operands.now) (memory_of ts m.old)) }
{
    match receiver {
        Receiver::AsItIs => {
            let adapted = as_they_are(c, operands)?;
            Ok(adapted)
        }
        Receiver::Through(var) => read_through(c, var, operands, m),
        Receiver::ToACopy => copied(c, operands, m),
    }
}
