//! Fresh variables.
//!
//! The Go Programming Language Specification (as of Go 1.17), "Variable declarations".

ghost use Rattle.std.specs.Prelude.{◌≡◌};
ghost use Rattle.go_type.specs.Table.{places, names};
ghost use Rattle.go_core.specs.Assign as assigning;
ghost use Rattle.go_core.specs.CoreTree.{CoreProgram};
ghost use Rattle.go_core.specs.CoreView.{var_of};
ghost use Rattle.go_state.specs.StateSeen.{vars_of};
ghost use Rattle.go_state.specs.Goes.{Goes};

use go_core::node::Var;
use go_state::bindings::bind::{bind_var, bind_vars};
use go_state::frame_steps::operands::operands;
use go_state::state::frame::Frame;
use go_values::operators::did::{Context, Stop};
use go_values::operators::places::zeros_of;
use go_values::values::memory::Memory;

/// A fresh variable at zero.
pub fn declare_step<'p, 'a>(
    c: &Context<'a>,
    var: Var,
    f: &mut Frame<'p, 'a>,
    m: &mut Memory<'a>,
) -> Result<u64, Stop>
    ensures value { (p : CoreProgram) → p.names ≡ names c.now.table.now → let ts = places c.now.table.now in Goes p ts result f.old f.new m.old m.new (λ g. assigning.declare_step p g (var_of ts var)) }
{
    let zeros = zeros_of(c, var.ty)?;
    let units = bind_var(c, var, zeros, &mut f.places, m)?;
    Ok(units)
}

/// Fresh variables take operands.
pub fn bind_step<'p, 'a>(
    c: &Context<'a>,
    vars: &[Var],
    f: &mut Frame<'p, 'a>,
    m: &mut Memory<'a>,
) -> Result<u64, Stop>
    ensures value { (p : CoreProgram) → p.names ≡ names c.now.table.now → let ts = places c.now.table.now in Goes p ts result f.old f.new m.old m.new (λ g. assigning.bind_step p g (vars_of ts vars.now)) }
{
    let xs = operands(f, vars.len())?;
    bind_vars(c, vars, xs.as_slice(), &mut f.places, m)
}
