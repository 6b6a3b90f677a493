//! Ranges.
//!
//! The Go Programming Language Specification (as of Go 1.17), "For statements with range clause".

ghost use Rattle.std.specs.Prelude.{◌≡◌, ℕ, List, Some, IfOk};
ghost use Rattle.go_type.specs.Tree.{Ty};
ghost use Rattle.go_type.specs.Table.{places, names};
ghost use Rattle.go_core.specs.Control as control;
ghost use Rattle.go_core.specs.CoreTree.{CoreProgram};
ghost use Rattle.go_core.specs.CoreView.{option_var, var_of};
ghost use Rattle.go_values.specs.ValuesSeen.{value_of, memory_of};
ghost use Rattle.go_state.specs.StateSeen.{cursor_of, places_of, ranged_of};
ghost use Rattle.go_state.specs.Goes.{Goes};
ghost use Rattle.go_state.specs.Bound.{Written};

use gj_base::NoMemory;
use go_core::node::Var;
use go_state::bindings::results::write_value;
use go_state::frame_steps::operands::{before, operand};
use go_state::ranges::begun::{begun, is_nil_array};
use go_state::ranges::next::{Next, next_of};
use go_state::state::frame::{Cursor, Frame, Place, Range, Todo};
use go_state::state::stack::base_of;
use go_state::tasks::task::Task;
use go_values::operators::did::{Context, Stop};
use go_values::operators::places::{sum, weight_of};
use go_values::values::level::underlying;
use go_values::values::memory::Memory;
use go_values::values::run_panic::RunPanic;
use go_values::values::scalar::Scalar;

/// The expression of a range has been evaluated, which is done once.
pub fn begin_range_step<'p, 'a>(
    c: &Context<'a>,
    range: Range<'p>,
    f: &mut Frame<'p, 'a>,
    m: &Memory<'a>,
) -> Result<u64, Stop>
    ensures value { (p : CoreProgram) → p.names ≡ names c.now.table.now → let ts = places c.now.table.now in Goes p ts result f.old f.new m.now m.now (λ g. control.begin_range_step p g (ranged_of ts range.entry)) }
{
    let x = operand(f)?;
    let over = underlying(c.table, range.from);
    if is_nil_array(c, over, x) {
        return Err(Stop::Panics {
            panic: RunPanic::NilUsed,
            units: 0,
        });
    }
    let cursor = begun(c, over, x, m)?;
    before(f, Todo::NextRange(range, cursor))?;
    Ok(0)
}

// A variable takes a value.
fn set_at<'a>(var: Var, x: &[Scalar<'a>], at: &[Place], m: &mut Memory<'a>) -> Result<(), Stop>
    ensures value { (ts : List Ty) (p : CoreProgram) (g : ℕ) → Written ts result m.new (control.var_written p g (Some (var_of ts var)) (value_of ts x.now) (places_of at.now) (memory_of ts m.old)) }
{
    match base_of(at, var.id) {
        Some(base) => {
            write_value(base, x, m);
            Ok(())
        }
        None => Err(Stop::NoStep),
    }
}

// A variable of a range takes a value, if there is one.
fn set_var<'a>(
    var: Option<Var>,
    x: &[Scalar<'a>],
    at: &[Place],
    m: &mut Memory<'a>,
) -> Result<(), Stop>
    ensures value { (ts : List Ty) (p : CoreProgram) (g : ℕ) → Written ts result m.new (control.var_written p g (option_var ts var) (value_of ts x.now) (places_of at.now) (memory_of ts m.old)) }
{
    match var {
        None => Ok(()),
        Some(var) => set_at(var, x, at, m),
    }
}

fn var_weight(c: &Context, var: Option<Var>) -> Result<u64, NoMemory>
    ensures value { IfOk result (λ n. (p : CoreProgram) (g : ℕ) → p.names ≡ names c.now.table.now → n ≡ control.var_weight p g (option_var (places c.now.table.now) var)) }
{
    match var {
        None => Ok(0),
        Some(var) => weight_of(c, var.ty),
    }
}

// The variables take their values, and the body comes before the next turn.
fn turn<'p, 'a>(
    c: &Context<'a>,
    range: Range<'p>,
    next: Next<'a>,
    f: &mut Frame<'p, 'a>,
    m: &mut Memory<'a>,
) -> Result<u64, Stop>
    ensures value { (p : CoreProgram) → p.names ≡ names c.now.table.now → let ts = places c.now.table.now in Goes p ts result f.old f.new m.old m.new (λ g. control.range_on p g (control.next (value_of ts next.entry.key.now) (value_of ts next.entry.value.now) (cursor_of ts next.entry.cursor)) (ranged_of ts range.entry)) }
{
    set_var(range.key, next.key, f.places.as_slice(), m)?;
    set_var(range.value, next.value, f.places.as_slice(), m)?;
    let key = var_weight(c, range.key)?;
    let value = var_weight(c, range.value)?;
    let units = sum(key, value)?;
    before(f, Todo::NextRange(range, next.cursor))?;
    before(f, Todo::Text(Task::Run(range.body, 0)))?;
    Ok(units)
}

/// The next turn of a range, where there is one.
pub fn next_range_step<'p, 'a>(
    c: &Context<'a>,
    birth: Option<u64>,
    range: Range<'p>,
    cursor: Cursor<'a>,
    f: &mut Frame<'p, 'a>,
    m: &mut Memory<'a>,
) -> Result<u64, Stop>
    ensures value { (p : CoreProgram) → p.names ≡ names c.now.table.now → let ts = places c.now.table.now in Goes p ts result f.old f.new m.old m.new (λ g. control.next_range_step p g birth (ranged_of ts range.entry) (cursor_of ts cursor.entry)) }
{
    let found = next_of(c, underlying(c.table, range.from), birth, cursor, m)?;
    match found {
        None => Ok(0),
        Some(next) => turn(c, range, next, f, m),
    }
}
