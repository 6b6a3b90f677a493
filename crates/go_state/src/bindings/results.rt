//! Results, and what values of variables take of units.
//!
//! The Go Programming Language Specification (as of Go 1.17), "Return statements".

ghost use Rattle.std.specs.Prelude.{◌≡◌, ◌++◌, ℕ, [], ◌∷◌, List, IfOk, OnOk};
ghost use Rattle.go_type.specs.Tree.{Ty};
ghost use Rattle.go_type.specs.Table.{places, names};
ghost use Rattle.go_core.specs.Calls as calls;
ghost use Rattle.go_core.specs.CoreTree.{CoreProgram};
ghost use Rattle.go_core.specs.Memory as core;
ghost use Rattle.go_values.specs.ValuesSeen.{value_of, values_of, memory_of};
ghost use Rattle.go_state.specs.StateSeen.{places_of, vars_of};
ghost use Rattle.go_state.specs.Bound.{Written, AreValues};

use crate::state::frame::Place;
use crate::state::stack::base_of;
use gj_base::NoMemory;
use go_core::node::Var;
use go_values::operators::did::{Context, Stop};
use go_values::operators::places::{size_of, sum, weight_of};
use go_values::values::memory::{Memory, read_cells, write_cells};
use go_values::values::scalar::Scalar;

/// The size of values of these variables' types.
pub fn weights(c: &Context, vars: &[Var]) -> Result<u64, NoMemory>
    ensures value { IfOk result (λ n. (p : CoreProgram) (g : ℕ) → p.names ≡ names c.now.table.now → n ≡ calls.weights p g (vars_of (places c.now.table.now) vars.now)) }
{
    let mut units = 0;
    'each: for i in 0..vars.len() {
        let one = weight_of(c, vars[i].ty)?;
        units = sum(units, one)?;
    }
    Ok(units)
}

/// A value is written in place, from a base on.
pub fn write_value<'a>(base: u64, x: &[Scalar<'a>], m: &mut Memory<'a>)
    ensures value { (ts : List Ty) → memory_of ts m.new ≡ core.with_written (memory_of ts m.old) base (value_of ts x.now) }
{
    write_cells(m.cells.as_mut_slice(), base, x);
}

/// Variables take values, one each.
pub fn store<'a>(
    vars: &[Var],
    xs: &[&'a [Scalar<'a>]],
    at: &[Place],
    m: &mut Memory<'a>,
) -> Result<(), Stop>
    ensures value { (ts : List Ty) (p : CoreProgram) (g : ℕ) → Written ts result m.new (calls.with_stored p g (vars_of ts vars.now) (values_of ts xs.now) (places_of at.now) (memory_of ts m.old)) }
{
    if vars.len() != xs.len() {
        return Err(Stop::NoStep);
    }
    'each: for i in 0..vars.len() {
        match base_of(at, vars[i].id) {
            Some(base) => write_value(base, xs[i], m),
            None => return Err(Stop::NoStep),
        }
    }
    Ok(())
}

// A copy of what lies at a base comes after others.
fn push_cells<'a>(
    c: &Context<'a>,
    base: u64,
    size: u64,
    m: &Memory<'a>,
    xs: &mut Vec<&'a [Scalar<'a>]>,
) -> Result<(), NoMemory>
    ensures value { OnOk result ((ts : List Ty) → values_of ts xs.new.items ≡ values_of ts xs.old.items ++ core.read_cells base size (memory_of ts m.now).cells ∷ []) }
{
    let there = read_cells(base, size, m.cells.as_slice());
    let copy: &'a [Scalar<'a>] = c.arena.try_alloc_slice_copy(there)?;
    xs.push(copy)?;
    Ok(())
}

/// What results are.
pub fn results_of<'a>(
    c: &Context<'a>,
    vars: &[Var],
    at: &[Place],
    m: &Memory<'a>,
) -> Result<Vec<&'a [Scalar<'a>]>, Stop>
    ensures value { (p : CoreProgram) (g : ℕ) → p.names ≡ names c.now.table.now → let ts = places c.now.table.now in AreValues ts result (calls.results_of p g (vars_of ts vars.now) (places_of at.now) (memory_of ts m.now)) }
{
    let mut xs = Vec::new(c.alloc);
    'each: for i in 0..vars.len() {
        let base = match base_of(at, vars[i].id) {
            Some(base) => base,
            None => return Err(Stop::NoStep),
        };
        let size = size_of(c, vars[i].ty)?;
        push_cells(c, base, size, m, &mut xs)?;
    }
    Ok(xs)
}
