//! Package variables that are set.
//!
//! The Go Programming Language Specification (as of Go 1.17), "Package initialization".

ghost use Rattle.std.specs.Prelude.{◌≡◌, ℕ, [], ◌∷◌, OnOk, IfOk};
ghost use Rattle.go_type.specs.Table.{places};
ghost use Rattle.go_core.specs.Assign as assigning;
ghost use Rattle.go_core.specs.CoreView.{program_view};
ghost use Rattle.go_values.specs.ValuesSeen.{values_of, memory_of};
ghost use Rattle.go_state.specs.Goes.{Goes};

use gj_base::NoMemory;
use go_core::program::Program;
use go_slices::composites::globals::global_base;
use go_state::bindings::results::write_value;
use go_state::frame_steps::operands::operands;
use go_state::state::frame::Frame;
use go_values::operators::did::{Context, Stop};
use go_values::operators::places::{sum, weight_of};
use go_values::values::memory::Memory;
use go_values::values::scalar::Scalar;

// Package variables take values, as many as there are of both.
fn set_cells<'a>(
    c: &Context<'a>,
    p: &Program,
    numbers: &[u64],
    xs: &[&'a [Scalar<'a>]],
    m: &mut Memory<'a>,
) -> Result<(), NoMemory>
    requires { c.now.table.now ≡ p.now.types }
    ensures value { OnOk result ((g : ℕ) → let ts = places p.now.types in memory_of ts m.new ≡ assigning.set_global_cells (program_view p.now) g numbers.now (values_of ts xs.now) (memory_of ts m.old)) }
{
    'numbers: for i in 0..numbers.len() {
        if i >= xs.len() {
            return Ok(());
        }
        let base = global_base(c, p.globals.items.as_slice(), numbers[i])?;
        write_value(base, xs[i], m);
    }
    Ok(())
}

// What a value of a package variable takes of units.
fn global_weight(c: &Context, p: &Program, number: u64) -> Result<u64, NoMemory>
    requires { c.now.table.now ≡ p.now.types }
    ensures value { IfOk result (λ n. (g : ℕ) → n ≡ assigning.global_weights (program_view p.now) g (number ∷ [])) }
{
    match p.globals.items.as_slice().get(number as usize) {
        Some(global) => weight_of(c, global.ty),
        None => Ok(0),
    }
}

// The same of several.
fn global_weights(c: &Context, p: &Program, numbers: &[u64]) -> Result<u64, NoMemory>
    requires { c.now.table.now ≡ p.now.types }
    ensures value { IfOk result (λ n. (g : ℕ) → n ≡ assigning.global_weights (program_view p.now) g numbers.now) }
{
    let mut units = 0;
    'numbers: for i in 0..numbers.len() {
        let one = global_weight(c, p, numbers[i])?;
        units = sum(units, one)?;
    }
    Ok(units)
}

/// Package variables take operands.
pub fn set_globals_step<'p, 'a>(
    c: &Context<'a>,
    p: &Program,
    numbers: &[u64],
    f: &mut Frame<'p, 'a>,
    m: &mut Memory<'a>,
) -> Result<u64, Stop>
    requires { c.now.table.now ≡ p.now.types }
    ensures value { let ts = places p.now.types in Goes (program_view p.now) ts result f.old f.new m.old m.new (λ g. assigning.set_globals_step (program_view p.now) g numbers.now) }
{
    let xs = operands(f, numbers.len())?;
    set_cells(c, p, numbers, xs.as_slice(), m)?;
    let units = global_weights(c, p, numbers)?;
    Ok(units)
}
