//! Operators, variables as places, and closures.
//!
//! The Go Programming Language Specification (as of Go 1.17), "Expressions", "Function literals".

ghost use Rattle.std.specs.Prelude.{◌≡◌, ℕ, List, IfOk, length, map, slice_get};
ghost use Rattle.go_type.specs.Tree.{Ty};
ghost use Rattle.go_type.specs.Table.{places};
ghost use Rattle.go_type.specs.Levels.{tree_of};
ghost use Rattle.go_core.specs.CoreTree.{CoreProgram};
ghost use Rattle.go_core.specs.Calls as calls;
ghost use Rattle.go_core.specs.CoreView.{id_of, program_view};
ghost use Rattle.go_core.specs.Goroutine.{base_in};
ghost use Rattle.go_core.specs.GoStep as steps;
ghost use Rattle.go_core.specs.Goroutine as defined;
ghost use Rattle.go_core.specs.Opened.{indexes_of};
ghost use Rattle.go_core.specs.Operator as op;
ghost use Rattle.go_state.specs.TasksSeen.{elements_view};
ghost use Rattle.go_slices.specs.Seen.{operator_of};
ghost use Rattle.go_state.specs.StateSeen.{move_of};
ghost use Rattle.go_values.specs.declared.values.memory.Memory as held;
ghost use Rattle.go_state.specs.Goes.{Goes};

use gj_base::NoMemory;
use go_core::node::{CoreElements, VarId};
use go_core::program::Program;
use go_core::tree::FuncId;
use go_slices::composites::operator::{Operator, operated};
use go_state::bindings::captured::bases_of;
use go_state::frame_steps::operands::{give_scalar, give_values, operands};
use go_state::frame_steps::parts::Build;
use go_state::state::frame::Frame;
use go_state::state::stack::base_of;
use go_state::state::state::Move;
use go_values::operators::change::change;
use go_values::operators::did::{Context, Stop};
use go_values::values::memory::Memory;
use go_values::values::scalar::Scalar;
use std::alloc::Global;

/// An operator takes so many operands and gives its values.
pub fn operate_step<'p, 'a>(
    c: &Context<'a>,
    p: &Program,
    free: Move,
    operator: Operator,
    count: usize,
    f: &mut Frame<'p, 'a>,
    m: &mut Memory<'a>,
) -> Result<u64, Stop>
    requires { c.now.table.now ≡ p.now.types }
    ensures value { (choices : List ℕ) → let ts = places p.now.types in Goes (program_view p.now) ts result f.old f.new m.old m.new (λ g. steps.operate_step (program_view p.now) choices (move_of free) g (operator_of ts operator.entry) count) }
{
    let vs = operands(f, count)?;
    let gives = operated(c, p, free.capacity, operator, vs.as_slice(), m)?;
    change(c.alloc, m, gives.change)?;
    give_values(f, gives.values)?;
    Ok(gives.units)
}

// The places of the elements of a literal.
fn indexes(alloc: Global, elements: &CoreElements) -> Result<Vec<u64>, NoMemory>
    ensures value { IfOk result (λ is. (ts : List Ty) → is.items ≡ indexes_of (elements_view ts elements.now)) }
{
    let mut found = Vec::new(alloc);
    'elements: for i in 0..elements.items.len() {
        found.push(elements.items[i].index as u64)?;
    }
    Ok(found)
}

/// A composite literal takes its elements.
pub fn build_step<'p, 'a>(
    c: &Context<'a>,
    p: &Program,
    free: Move,
    what: Build,
    f: &mut Frame<'p, 'a>,
    m: &mut Memory<'a>,
) -> Result<u64, Stop>
    requires { c.now.table.now ≡ p.now.types }
    ensures value { (choices : List ℕ) → let ts = places p.now.types in let is = indexes_of (elements_view ts what.entry.elements.now) in Goes (program_view p.now) ts result f.old f.new m.old m.new (λ g. steps.operate_step (program_view p.now) choices (move_of free) g (op.to_built (tree_of ts what.entry.ty) what.entry.count is) (length is)) }
{
    let found = indexes(c.alloc, what.elements)?;
    let operator = Operator::ToBuilt {
        ty: what.ty,
        count: what.count,
        indexes: found.as_slice(),
    };
    operate_step(c, p, free, operator, found.len(), f, m)
}

/// A variable of the function, as a place.
pub fn local_step<'p, 'a>(c: &Context<'a>, var: VarId, f: &mut Frame<'p, 'a>) -> Result<u64, Stop>
    ensures value { (p : CoreProgram) (choices : List ℕ) (free : defined.Move) (ts : List Ty) (m : held.Memory) → Goes p ts result f.old f.new m m (λ g x. steps.local_step p choices free g (base_in var.0 x.places) x) }
{
    match base_of(f.places.as_slice(), var) {
        Some(base) => {
            give_scalar(c, f, Scalar::Pointer(base))?;
            Ok(0)
        }
        None => Err(Stop::NoStep),
    }
}

// The same, of variables that are captured.
fn closure_over<'p, 'a>(
    c: &Context<'a>,
    func: FuncId,
    captured: &[VarId],
    f: &mut Frame<'p, 'a>,
) -> Result<u64, Stop>
    ensures value { (p : CoreProgram) (choices : List ℕ) (free : defined.Move) (ts : List Ty) (m : held.Memory) → Goes p ts result f.old f.new m m (λ g x. steps.closure_with p choices free g func.0 (calls.bases_of (map id_of captured.now) x.places) x) }
{
    let found = bases_of(c, captured, f.places.as_slice())?;
    match found {
        Some(bases) => {
            let units = bases.len() as u64;
            give_scalar(
                c,
                f,
                Scalar::Function {
                    func: func.0 as u64,
                    bases,
                },
            )?;
            Ok(units)
        }
        None => Err(Stop::NoStep),
    }
}

/// A closure shares the variables that it captures.
pub fn closure_step<'p, 'a>(
    c: &Context<'a>,
    p: &Program,
    func: FuncId,
    f: &mut Frame<'p, 'a>,
) -> Result<u64, Stop>
    ensures value { (choices : List ℕ) (free : defined.Move) (ts : List Ty) (m : held.Memory) → Goes (program_view p.now) ts result f.old f.new m m (λ g. steps.closure_step (program_view p.now) choices free g func.0 (slice_get (program_view p.now).funcs func.0)) }
{
    match p.funcs.items.as_slice().get(func.0 as usize) {
        Some(made) => {
            let captured = made.captured.items.as_slice();
            closure_over(c, func, captured, f)
        }
        None => Err(Stop::NoStep),
    }
}
