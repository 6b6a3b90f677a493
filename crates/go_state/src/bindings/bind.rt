//! Fresh variables.
//!
//! The Go Programming Language Specification (as of Go 1.17), "Variable declarations", "Calls".

ghost use Rattle.std.specs.Prelude.{◌≡◌, ℕ, ◌+◌, IfOk};
ghost use Rattle.go_type.specs.Table.{places, names};
ghost use Rattle.go_core.specs.Calls as calls;
ghost use Rattle.go_core.specs.CoreView.{var_of};
ghost use Rattle.go_values.specs.ValuesSeen.{value_of, values_of};
ghost use Rattle.go_state.specs.StateSeen.{vars_of};
ghost use Rattle.go_state.specs.Bound.{bindings_of, Binds};

use crate::state::frame::Place;
use gj_base::NoMemory;
use go_core::node::Var;
use go_values::operators::did::{Context, Stop};
use go_values::operators::places::{sum, weight_of, zeros_of};
use go_values::values::memory::Memory;
use go_values::values::scalar::Scalar;

/// A fresh variable with a value; answers its weight.
pub fn bind_var<'a>(
    c: &Context<'a>,
    var: Var,
    x: &[Scalar<'a>],
    at: &mut Vec<Place>,
    m: &mut Memory<'a>,
) -> Result<u64, NoMemory>
    ensures value { IfOk result (λ units. (before : ℕ) → let ts = places c.now.table.now in bindings_of ts at.new.items m.new (before + units) ≡ calls.with_var (names c.now.table.now) (var_of ts var) (value_of ts x.now) (bindings_of ts at.old.items m.old before)) }
{
    let units = weight_of(c, var.ty)?;
    let base = m.next_base();
    at.push(Place { var: var.id, base })?;
    m.add_fresh(x)?;
    Ok(units)
}

/// Fresh variables with values, one each; answers their weights.
pub fn bind_vars<'a>(
    c: &Context<'a>,
    vars: &[Var],
    xs: &[&'a [Scalar<'a>]],
    at: &mut Vec<Place>,
    m: &mut Memory<'a>,
) -> Result<u64, Stop>
    ensures value { let ts = places c.now.table.now in Binds ts result at.new.items m.new (calls.with_vars (names c.now.table.now) (vars_of ts vars.now) (values_of ts xs.now) (bindings_of ts at.old.items m.old 0)) }
{
    if vars.len() != xs.len() {
        return Err(Stop::NoStep);
    }
    let mut units = 0;
    'each: for i in 0..vars.len() {
        let one = bind_var(c, vars[i], xs[i], at, m)?;
        units = sum(units, one)?;
    }
    Ok(units)
}

/// Fresh variables at zero; answers their weights and so many before.
pub fn bind_zeros<'a>(
    c: &Context<'a>,
    vars: &[Var],
    before: u64,
    at: &mut Vec<Place>,
    m: &mut Memory<'a>,
) -> Result<u64, NoMemory>
    ensures value { IfOk result (λ units. let ts = places c.now.table.now in bindings_of ts at.new.items m.new units ≡ calls.with_zeros (names c.now.table.now) (vars_of ts vars.now) (bindings_of ts at.old.items m.old before)) }
{
    let mut units = before;
    'each: for i in 0..vars.len() {
        let zeros = zeros_of(c, vars[i].ty)?;
        let one = bind_var(c, vars[i], zeros, at, m)?;
        units = sum(units, one)?;
    }
    Ok(units)
}
